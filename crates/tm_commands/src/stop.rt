//! What stops a command before its last step.

use std::alloc::AllocError;
use tm_report::{Ending, Failure};

/// What stops a command before its last step: an end, or a failure.
#[derive(Drop)]
pub enum Stop {
    Ends(Ending),
    Fails(Failure),
}

impl Stop {
    ghost use Rattle.std.specs.Prelude.{◌≡◌};
    ghost use Rattle.tm_commands.specs.Inner.Stopping.{stop_outcome};

    /// The outcome of a command that was stopped.
    pub fn outcome(self) -> Result<Ending, Failure>
        ensures { result ≡ stop_outcome self }
    {
        match self {
            Stop::Ends(ending) => Ok(ending),
            Stop::Fails(failure) => Err(failure),
        }
    }
}

impl From<Failure> for Stop {
    ghost use Rattle.std.specs.Prelude.{◌≡◌};
    ghost use Rattle.tm_commands.specs.declared.stop.Stop.TheVariants.{Fails};

    ghost from_gives = { λ failure stop. stop ≡ Fails failure };

    fn from(failure: Failure) -> Stop {
        Stop::Fails(failure)
    }
}

impl From<AllocError> for Stop {
    ghost use Rattle.std.specs.Prelude.{◌≡◌};
    ghost use Rattle.tm_report.specs.declared.ending.Failure.TheVariants.{Memory};
    ghost use Rattle.tm_commands.specs.declared.stop.Stop.TheVariants.{Fails};

    ghost from_gives = { λ _ stop. stop ≡ Fails Memory };

    fn from(_error: AllocError) -> Stop {
        Stop::Fails(Failure::Memory)
    }
}
