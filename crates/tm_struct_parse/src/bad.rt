//! Why a text is no structured driver over a design.

use std::alloc::AllocError;

/// What is wrong with a text. A line is told by its number, from 1; that of the text's end is one more than the
/// number of line feeds.
#[derive(Clone, Copy, Debug, PartialEq, Eq)]
pub enum BadStructured {
    /// The text has more than 16,777,216 bytes.
    TooLong,
    /// The first token that can continue no structured driver stands on this line, or the text ends there too early;
    /// or, where the grammar has no fault, a function is out of order, a call names one beyond the last, or a call has
    /// a wrong number of arguments.
    Text(u64),
    /// The design does not have a variable, a process or a task that this line names.
    UnknownName(u64),
    /// A call on this line names its own function or a later one.
    ForwardCall(u64),
}

/// Why no structured driver was read.
#[derive(Clone, Copy, Debug, PartialEq, Eq)]
pub enum ReadStructuredError {
    /// The text is no structured driver over the design: its first fault.
    Bad(BadStructured),
    /// Want of memory.
    Memory,
}

impl From<AllocError> for ReadStructuredError {
    ghost use Rattle.std.specs.Prelude.{◌≡◌};
    ghost use Rattle.tm_struct_parse.specs.declared.bad.ReadStructuredError.TheVariants.{Memory};

    ghost from_gives = { λ _ e. e ≡ Memory };

    fn from(_: AllocError) -> Self {
        ReadStructuredError::Memory
    }
}
