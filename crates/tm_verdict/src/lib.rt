//! What both checkers of certificates share: verdicts, where parts fail, the sets that certificates tell, and these
//! sets as diagrams.
#![tactic(auto)]

mod environment;
mod failure_laws;
mod nodes;
mod outcome_laws;
mod set_laws;
mod sets;
mod verdict;
mod verdict_laws;

pub use environment::{
    level_parts_fail_where_they_are_found_to, level_parts_that_fail_nowhere_pass,
};
pub use failure_laws::{
    driver_parts_fail_where_they_are_found_to, driver_parts_that_fail_nowhere_pass,
};
pub use nodes::load_nodes;
pub use outcome_laws::{moves_are_allowed_or_not, moves_keep_or_lead_out};
pub use set_laws::{
    ids_are_diagrams, ids_of_some_diagram, ids_read_their_levels, read_certificates_fit,
    sets_have_their_shape,
};
pub use sets::load_set;
pub use verdict::Verdict;
pub use verdict_laws::{
    drivers_pass_part_by_part, environments_pass_part_by_part, refused_drivers_are_not_certified,
    refused_environments_are_not_certified,
};
