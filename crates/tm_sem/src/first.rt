//! Why choices give no state to begin with.

use std::alloc::{AllocError, AllocFailed};
use thiserror::Error;

/// Why there is no first state: the choices are too few, too many or out of range, or memory is wanting.
#[derive(Debug, Drop, Error)]
pub enum SemError {
    #[error("the choices give no first state")]
    BadChoices,
    #[error("out of memory")]
    Memory,
}

impl From<AllocError> for SemError {
    ghost use Rattle.std.specs.Prelude.{◌≡◌};
    ghost use Rattle.tm_sem.specs.declared.first.SemError.TheVariants.{Memory};

    ghost from_gives = { λ _ e. e ≡ Memory };

    fn from(_: AllocError) -> Self {
        SemError::Memory
    }
}

impl<T: Drop> From<AllocFailed<T>> for SemError {
    ghost use Rattle.std.specs.Prelude.{◌≡◌};
    ghost use Rattle.tm_sem.specs.declared.first.SemError.TheVariants.{Memory};

    ghost from_gives = { λ _ e. e ≡ Memory };

    fn from(_: AllocFailed<T>) -> Self {
        SemError::Memory
    }
}
