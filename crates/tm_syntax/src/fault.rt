//! The faults of a specification, and why the front end refuses one.

use std::alloc::AllocError;
use tm_base::{Name, Place};

/// The quantities that have a limit, in the order in which their limits are tested.
#[derive(Clone, Copy, Debug, PartialEq, Eq)]
pub enum Quantity {
    Specification,
    Name,
    Statements,
    Instances,
    Processes,
    Goals,
    Fairness,
    Tasks,
    State,
    Choices,
    Arguments,
    Locations,
    Atoms,
}

/// The kinds of faults, `F1` to `F12`, in the order in which they are looked for: the fault of a text is of the first
/// kind that holds anywhere in it. `F2` and `F3` are looked for together.
#[derive(Clone, Copy, Debug, PartialEq, Eq)]
pub enum FaultKind {
    /// `F1`: a byte begins no token.
    Byte,
    /// `F2`: a token cannot continue any text of the grammar, or the text ends too early.
    Syntax,
    /// `F3`: a token is nested too deep.
    Deep,
    /// `F4`: no declaration gives a name in its scope.
    UnknownName,
    /// `F5`: a name is declared twice in one scope.
    Twice,
    /// `F6`: a type, a sort of name, a number of arguments or a result does not fit.
    Mismatch,
    /// `F7`: a number does not fit its type or its place.
    Literal,
    /// `F8`: a task or procedure reaches itself by calls.
    CallCycle,
    /// `F9`: the body of a loop is not sure to cross a location.
    LoopWithoutLocation,
    /// `F10`: a procedure or controllable task holds a location, or calls a body that holds one.
    LocationInAtomic,
    /// `F11`: a template reaches itself by instances.
    TemplateCycle,
    /// `F12`: a quantity is above its limit.
    Limit,
}

/// What a fault says beside its kind and place.
#[derive(Drop)]
pub enum Detail {
    Nothing,
    Named(Name),
    Limit {
        what: Quantity,
        limit: u64,
        found: u64,
    },
}

/// A fault of a specification: its kind, and the place where it lies.
#[derive(Drop)]
pub struct Faulty {
    pub kind: FaultKind,
    pub place: Place,
    pub detail: Detail,
}

/// Why the front end refuses a text: its fault, or want of memory.
#[derive(Drop)]
pub enum FrontError {
    Faulty(Faulty),
    Memory,
}

impl From<AllocError> for FrontError {
    ghost use Rattle.std.specs.Prelude.{◌≡◌};
    ghost use Rattle.tm_syntax.specs.declared.fault.FrontError.TheVariants.{Memory};

    ghost from_gives = { λ _ e. e ≡ Memory };

    fn from(_: AllocError) -> Self {
        FrontError::Memory
    }
}
