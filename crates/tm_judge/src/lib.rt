//! Certificates over designs of texts: their numbers, the symbolic game of a design, and verdicts.
#![tactic(auto)]

mod allowed;
mod bits;
mod counts;
mod driver;
mod environment;
mod fairness;
mod flat_shape;
mod laws;
mod making;
mod orders;
mod read;
mod regular_laws;
mod shape;
mod shape_laws;
mod write;

pub use allowed::is_allowed;
pub use counts::{longest_chain, ranks_of};
pub use driver::judge_driver;
pub use environment::judge_environment;
pub use laws::good_blocks_are_not_of_lost_designs;
pub use making::{game_of, ordered_game};
pub use read::read_cert;
pub use regular_laws::{
    sound_designs_of_texts_are_regular, sound_designs_of_texts_have_initial_states,
};
pub use shape::cert_shape;
pub use shape_laws::shapes_are_those_of_designs;
pub use write::write_cert;
