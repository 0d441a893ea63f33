//! Why a reader ends early.

use std::alloc::{AllocError, AllocFailed};
use tm_syntax::token::Token;

/// The first of these tokens is at fault: it continues no specification (no token is left where the text ends too
/// early), or it stands too deep. Or memory is wanting.
#[derive(Clone, Copy)]
pub enum Stop<'a> {
    Unexpected(&'a [Token]),
    TooDeep(&'a [Token]),
    Memory,
}

impl From<AllocError> for Stop<'_> {
    ghost use Rattle.std.specs.Prelude.{◌≡◌};
    ghost use Rattle.tm_parse.specs.declared.stop.Stop.TheVariants.{Memory};

    ghost from_gives = { λ _ e. e ≡ Memory };

    fn from(_: AllocError) -> Self {
        Stop::Memory
    }
}

impl<T: Drop> From<AllocFailed<T>> for Stop<'_> {
    ghost use Rattle.std.specs.Prelude.{◌≡◌};
    ghost use Rattle.tm_parse.specs.declared.stop.Stop.TheVariants.{Memory};

    ghost from_gives = { λ _ e. e ≡ Memory };

    fn from(_: AllocFailed<T>) -> Self {
        Stop::Memory
    }
}
