//! Leads runs through the statements of a design as terms: where a run stands behind each, and how it has ended.
#![tactic(auto)]

mod branches;
mod choices;
mod conditions;
mod elements;
mod ends;
mod flow;
mod operands;
mod places;
mod stars;
mod targets;

pub use branches::{Branches, parted};
pub use choices::choice_number;
pub use conditions::{asserted, assumed};
pub use elements::{assigned_element, element};
pub use ends::Ends;
pub use flow::{Flow, joined_flows};
pub use operands::{Operand, value_operand};
pub use places::{TargetPlace, element_place, put_at};
pub use stars::{chosen, chosen_element, within};
pub use targets::{assigned, put, target_type};
