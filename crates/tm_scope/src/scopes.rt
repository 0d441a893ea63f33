//! The tables of a specification, by which its names are found.

mod bodies;
mod body_names;
mod body_scope;
mod constants;
mod enum_names;
mod members;
mod neighbors;
mod paths;
mod scope;
mod spec_names;
mod template_scope;

pub(crate) use bodies::Bodies;
pub use body_scope::BodyScope;
pub(crate) use constants::Constants;
pub(crate) use members::Members;
pub(crate) use neighbors::Neighbors;
pub(crate) use paths::last_name;
pub use paths::{
    numbers_lead_where_tasks_are, numbers_lead_where_templates_do, numbers_lead_where_variables_are,
};
pub use scope::Scopes;
pub(crate) use spec_names::SpecNames;
