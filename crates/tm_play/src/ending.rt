//! How a play ends, and what may come before its end.

use std::alloc::AllocError;
use thiserror::Error;
use tm_sem::state::{Move, State};

/// Why a play stops at a step.
#[derive(Clone, Copy, Debug, PartialEq, Eq)]
pub enum StopWhy {
    /// An assertion fails.
    Error,
    /// The driver's answer is not allowed.
    Forbidden,
    /// The environment's part is not legal.
    Illegal,
}

/// How a play ends: what the design, the blocks and the choices determine.
#[derive(Clone, Copy, Debug, PartialEq, Eq)]
pub enum PlayEnd {
    /// The choices were read to their end and are a play of so many steps.
    Played(u64),
    /// The step of this number has no next state.
    Stopped { step: u64, why: StopWhy },
}

/// How far a play goes.
#[derive(Drop)]
pub enum PlayHalt {
    /// The play has this end.
    Ended(PlayEnd),
    /// In the step of this number the driver's answer at this state, which the turn rule permits, has no outcome. The
    /// play stops there: where the answer is not allowed it is forbidden, and else the choices are not legal.
    Stuck {
        step: u64,
        state: State,
        action: Move,
    },
}

/// Why a play was cut off before its end.
#[derive(Clone, Copy, Debug, PartialEq, Eq, Error)]
pub enum PlayError {
    #[error("the output could not be written")]
    Failed,
    #[error("out of memory")]
    Memory,
}

impl From<AllocError> for PlayError {
    ghost use Rattle.std.specs.Prelude.{◌≡◌};
    ghost use Rattle.tm_play.specs.declared.ending.PlayError.TheVariants.{Memory};

    ghost from_gives = { λ _ error. error ≡ Memory };

    fn from(_error: AllocError) -> PlayError {
        PlayError::Memory
    }
}
