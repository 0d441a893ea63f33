//! Finds what the names of a specification are declared as and what its paths mean, and lists the parts of its text.
#![tactic(auto)]

mod names;
mod parts;
mod places;
mod scopes;
mod sorts;

pub use names::{Meaning, TextNames};
pub use parts::{
    Asked, BodyPart, ExprPart, Site, all_stmts, body_exprs, template_bodies, template_types,
};
pub use places::is_before;
pub use scopes::{NameMark, TextScopes, earlier_mark};
pub use sorts::Sort;
