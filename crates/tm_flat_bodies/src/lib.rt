//! Leads runs through the statements of the bodies of a design, as terms.
#![tactic(auto)]

mod aims;
mod alternatives;
mod arguments;
mod branches;
mod called;
mod callees;
mod calls;
mod course;
mod first;
mod laws;
mod leaves;
mod passing;
mod stand;
mod statements;
mod trails;
mod waiting;
mod walk;
mod walker;

pub use course::Course;
pub use laws::{a_turn_stops_at_its_pause, walks_lead_where_runs_do};
pub use stand::Stand;
pub use walker::Walker;
