//! Games over bits: predecessors of sets of states in a game of diagrams, the order of its levels, and when such a game
//! is a design's.
#![tactic(auto)]

mod assigned_laws;
mod coding_laws;
mod game;
mod inputs;
mod laws;
mod levels;
mod narrowing;
mod order;
mod ranks;
mod readings;
mod recent;
mod step;
mod told_laws;

pub use assigned_laws::{levels_tell_all_inputs, states_are_told_by_their_levels};
pub use coding_laws::predecessors_are_those_of_the_design;
pub use game::GameDiagrams;
pub use inputs::{ROOM, input_levels};
pub use laws::{
    predecessors_are_sets_of_states, states_are_forced_in_or_stay_out, stays_rise_with_their_sets,
};
pub use levels::levels_by_place;
pub use narrowing::least;
pub use order::{place_order, weight_order};
pub use ranks::ranks_among;
pub use readings::levels_above;
pub use recent::Recent;
pub use step::StepDiagrams;
pub use told_laws::told_games_are_those_of_their_designs;
