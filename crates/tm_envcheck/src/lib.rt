//! The checker of lost designs: whether levels are a certificate of the environment.
#![tactic(auto)]

/// Goes on where a verdict accepts, and hands it on where it refuses.
macro_rules! pass {
    ($verdict:expr) => {
        match $verdict {
            Verdict::Accepted => {}
            Verdict::Refused {
                condition,
                goal,
                state,
            } => {
                return Ok(Verdict::Refused {
                    condition,
                    goal,
                    state,
                });
            }
        }
    };
}

mod chains;
mod check;
mod conditions;
mod levels;
mod reports;
mod sets;
mod stuck;

pub use check::check_environment;
