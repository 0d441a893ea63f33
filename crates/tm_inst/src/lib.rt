//! The front door: reads the text of a specification and makes its design, or finds the text's first fault.
#![tactic(auto)]

mod atoms;
mod calls;
mod design;
mod faults;
mod instances;
mod items;
mod parts;
mod paths;
mod sizes;
mod specification;
mod vars;

pub use design::instantiate;
pub use instances::list_instances;
pub use items::{Items, list_items};
pub use specification::{MOST_BYTES, Specification, read_design, read_specification};
pub use vars::variables;
