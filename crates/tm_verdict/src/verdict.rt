//! What a checker of certificates answers.
use tm_sem::state::State;

/// Every condition holds, or the first that fails, by number, with the goal and the state that are reported.
#[derive(Drop)]
pub enum Verdict {
    Accepted,
    Refused {
        condition: u8,
        goal: u32,
        state: State,
    },
}
