//! The states of any design: which state choices give it to begin with, which states are valid, and that steps keep to
//! them.
#![tactic(auto)]

mod ends;
mod first;
mod laws;
mod steady_laws;
mod types;
mod validity;

pub use ends::end_number;
pub use first::first_state;
pub use laws::{
    initial_states_are_valid, valid_states_hold_values, values_are_of_their_types,
    variables_of_designs_are_sized,
};
pub use steady_laws::valid_states_lead_to_valid_ones;
pub use validity::fits;
