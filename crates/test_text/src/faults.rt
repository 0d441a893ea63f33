//! Names and faults as text.

use std::alloc::{AllocError, Global};
use std::fmt::Write;
use tm_base::Name;
use tm_syntax::fault::{Detail, FaultKind, Faulty, FrontError};

/// Adds the bytes of a name, which are ASCII.
pub fn push_name(told: &mut String, name: &Name) -> Result<(), AllocError> {
    for byte in name.as_bytes() {
        told.push(char::from(*byte))?;
    }
    Ok(())
}

/// The place of a fault, and what it tells beside its kind.
pub fn details(alloc: Global, fault: &Faulty) -> Result<String, AllocError> {
    let mut told = format!(in alloc; "{}:{}", fault.place.line, fault.place.column)?;
    match &fault.detail {
        Detail::Nothing => {}
        Detail::Named(name) => {
            told.push(' ')?;
            push_name(&mut told, name)?;
        }
        Detail::Limit { what, limit, found } => write!(told, " {what:?} {limit} {found}")?,
    }
    Ok(told)
}

/// The number of a kind of fault.
fn short(kind: FaultKind) -> &'static str {
    match kind {
        FaultKind::Byte => "F1",
        FaultKind::Syntax => "F2",
        FaultKind::Deep => "F3",
        FaultKind::UnknownName => "F4",
        FaultKind::Twice => "F5",
        FaultKind::Mismatch => "F6",
        FaultKind::Literal => "F7",
        FaultKind::CallCycle => "F8",
        FaultKind::LoopWithoutLocation => "F9",
        FaultKind::LocationInAtomic => "F10",
        FaultKind::TemplateCycle => "F11",
        FaultKind::Limit => "F12",
    }
}

/// A fault by the number of its kind, with its place and what it tells.
pub fn numbered(alloc: Global, error: &FrontError) -> Result<String, AllocError> {
    match error {
        FrontError::Memory => Err(AllocError),
        FrontError::Faulty(fault) => {
            let kind = short(fault.kind);
            let rest = details(alloc, fault)?;
            format!(in alloc; "{kind} {rest}")
        }
    }
}
