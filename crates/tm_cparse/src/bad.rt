//! Why a text is no driver over a design.

use std::alloc::AllocError;

/// What is wrong with a text. A line is told by its number, from 1; that of the text's end is one more than the
/// number of line feeds.
#[derive(Clone, Copy, Debug, PartialEq, Eq)]
pub enum BadDriver {
    /// The text has more than 16,777,216 bytes.
    TooLong,
    /// The first token that can continue no driver stands on this line, or the text ends there too early; or, where the
    /// grammar has no fault, a `goto` names a block beyond the last one, a label is out of order, or a call has a wrong
    /// number of arguments.
    Text(u64),
    /// The design does not have a variable, a process or a task that this line names.
    UnknownName(u64),
    /// A `goto` on this line names its own block or an earlier one.
    BackwardGoto(u64),
}

/// Why no driver was read.
#[derive(Clone, Copy, Debug, PartialEq, Eq)]
pub enum ReadDriverError {
    /// The text is no driver over the design: its first fault.
    Bad(BadDriver),
    /// Want of memory.
    Memory,
}

impl From<AllocError> for ReadDriverError {
    ghost use Rattle.std.specs.Prelude.{◌≡◌};
    ghost use Rattle.tm_cparse.specs.declared.bad.ReadDriverError.TheVariants.{Memory};

    ghost from_gives = { λ _ e. e ≡ Memory };

    fn from(_: AllocError) -> Self {
        ReadDriverError::Memory
    }
}
