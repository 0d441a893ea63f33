//! The line of a fault of a specification.
ghost use Rattle.std.specs.Prelude.{◌≡◌, ◌++◌, OnOk, IfOk};
ghost use Rattle.tm_report.specs.Report.{kind_text as text_of_kind, at_text, quantity_text as text_of_quantity};
ghost use Rattle.tm_report.specs.Report.{detail_text, fault_line as line_of_fault};

use std::alloc::{AllocError, Global};
use tm_base::Place;
use tm_play::{push, push_number};
use tm_syntax::fault::{Detail, FaultKind, Faulty, Quantity};

fn kind_text(kind: FaultKind) -> &'static [u8]
    ensures { result.now ≡ text_of_kind kind }
{
    match kind {
        FaultKind::Byte => b"F1",
        FaultKind::Syntax => b"F2",
        FaultKind::Deep => b"F3",
        FaultKind::UnknownName => b"F4",
        FaultKind::Twice => b"F5",
        FaultKind::Mismatch => b"F6",
        FaultKind::Literal => b"F7",
        FaultKind::CallCycle => b"F8",
        FaultKind::LoopWithoutLocation => b"F9",
        FaultKind::LocationInAtomic => b"F10",
        FaultKind::TemplateCycle => b"F11",
        FaultKind::Limit => b"F12",
    }
}

fn quantity_text(quantity: Quantity) -> &'static [u8]
    ensures { result.now ≡ text_of_quantity quantity }
{
    match quantity {
        Quantity::Specification => b"specification",
        Quantity::Name => b"name",
        Quantity::Statements => b"statements",
        Quantity::Instances => b"instances",
        Quantity::Processes => b"processes",
        Quantity::Goals => b"goals",
        Quantity::Fairness => b"fairness",
        Quantity::Tasks => b"tasks",
        Quantity::State => b"state",
        Quantity::Choices => b"choices",
        Quantity::Arguments => b"arguments",
        Quantity::Locations => b"locations",
        Quantity::Atoms => b"atoms",
    }
}

#[tactic(auto, using(tm_play::proofs::Appending::append_assoc))]
fn push_place(line: &mut Vec<u8>, place: Place) -> Result<(), AllocError>
    ensures { OnOk result (line.new.items ≡ line.old.items ++ at_text place) }
{
    push_number(line, u64::from(place.line))?;
    push(line, b":")?;
    push_number(line, u64::from(place.column))?;
    Ok(())
}

#[tactic(auto, using(tm_play::proofs::Appending::append_assoc))]
fn push_detail(line: &mut Vec<u8>, detail: &Detail) -> Result<(), AllocError>
    ensures { OnOk result (line.new.items ≡ line.old.items ++ detail_text detail.now) }
{
    match detail {
        Detail::Nothing => Ok(()),
        Detail::Named(name) => {
            push(line, b" ")?;
            push(line, name.as_bytes())?;
            Ok(())
        }
        Detail::Limit { what, limit, found } => {
            push(line, b" ")?;
            push(line, quantity_text(*what))?;
            push(line, b" ")?;
            push_number(line, *limit)?;
            push(line, b" ")?;
            push_number(line, *found)?;
            Ok(())
        }
    }
}

/// The line that tells a fault: its kind, its place, and what it says beside these.
#[tactic(auto, using(tm_play::proofs::Appending::append_assoc))]
pub fn fault_line(alloc: Global, fault: &Faulty) -> Result<Vec<u8>, AllocError>
    ensures { IfOk result (λ line. line.items ≡ line_of_fault fault.now) }
{
    let mut line = Vec::from_slice(alloc, b"faulty ")?;
    push(&mut line, kind_text(fault.kind))?;
    push(&mut line, b" ")?;
    push_place(&mut line, fault.place)?;
    push_detail(&mut line, &fault.detail)?;
    push(&mut line, b"\n")?;
    Ok(line)
}
