//! Why a run goes no further.

use std::alloc::{AllocError, AllocFailed};
use tm_base::Place;

/// Why a run goes no further: it has come to the location of a place, it ends in an error or with no outcome, or memory
/// is wanting.
#[derive(Clone, Copy, Debug, Drop)]
pub enum Halt {
    Stopped(Place),
    Failed,
    Blocked,
    Memory,
}

impl From<AllocError> for Halt {
    ghost use Rattle.std.specs.Prelude.{◌≡◌};
    ghost use Rattle.tm_plain_bodies.specs.declared.halt.Halt.TheVariants.{Memory};

    ghost from_gives = { λ _ e. e ≡ Memory };

    fn from(_: AllocError) -> Self {
        Halt::Memory
    }
}

impl<T: Drop> From<AllocFailed<T>> for Halt {
    ghost use Rattle.std.specs.Prelude.{◌≡◌};
    ghost use Rattle.tm_plain_bodies.specs.declared.halt.Halt.TheVariants.{Memory};

    ghost from_gives = { λ _ e. e ≡ Memory };

    fn from(_: AllocFailed<T>) -> Self {
        Halt::Memory
    }
}
