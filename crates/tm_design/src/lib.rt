//! What a sound design of a text has: types and values of its cells, locations as many as its text counts, and what its
//! runs ask for.
#![tactic(auto)]

mod callees;
mod location_counts;
mod parameters;
mod runnable_laws;
mod settled_laws;
mod sizes;
mod sorts;
mod step_cells;
mod types;

pub use callees::{Callee, called_task};
pub use location_counts::processes_have_the_locations_of_their_text;
pub use parameters::parameter_cells;
pub use runnable_laws::sound_designs_of_texts_are_fit;
pub use settled_laws::{
    designs_of_checked_texts_are_settled, designs_of_checked_texts_have_values,
    sound_designs_of_texts_are_settled, tasks_of_checked_texts_have_parameters,
};
pub use sizes::{bits_of_number, type_bits, type_size};
pub use sorts::{OperatorSort, sort_of};
pub use step_cells::{StepCell, slots_of_texts_are_apart};
pub use types::{index_type, joint_type, operand_type, valued_type};
