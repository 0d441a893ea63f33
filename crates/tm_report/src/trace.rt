//! The lines that `synth` puts of the predicates that were tracked.
ghost use Rattle.std.specs.Prelude.{◌≡◌, IfOk};
ghost use Rattle.std.specs.List.{flat_map};
ghost use Rattle.tm_report.specs.Output.{sink_data};
ghost use Rattle.tm_report.specs.Putting.{HasPut};
ghost use Rattle.tm_report.specs.Report.{add_line as line_of_added, trace_text, track_line as line_of_first};
ghost use Rattle.tm_syntax.specs.Design.View.{design_tree};

use crate::ending::Failure;
use crate::put::put_line;
use std::alloc::{AllocError, Global};
use tm_base::Sink;
use tm_play::{push, push_number, push_state};
use tm_refine::{Added, Trace};
use tm_syntax::design::Design;

// The line of how many predicates are tracked from the start.
#[tactic(auto, using(tm_play::proofs::Appending::append_assoc))]
fn track_line(alloc: Global, first: u32) -> Result<Vec<u8>, AllocError>
    ensures { IfOk result (λ line. line.items ≡ line_of_first first) }
{
    let mut line = Vec::from_slice(alloc, b"track ")?;
    push_number(&mut line, u64::from(first))?;
    push(&mut line, b"\n")?;
    Ok(line)
}

// Puts that line.
fn put_first<O: Sink>(alloc: Global, first: u32, out: &mut O) -> Result<(), Failure>
    ensures { HasPut (line_of_first first)
        (sink_data ⟦<O as Sink>⟧ out.old) (sink_data ⟦<O as Sink>⟧ out.new) result }
{
    let Ok(line) = track_line(alloc, first) else {
        return Err(Failure::Memory);
    };
    put_line(alloc, out, &line)
}

// The line of a predicate that was added.
#[tactic(auto, using(tm_play::proofs::Appending::append_assoc))]
fn add_line(alloc: Global, design: &Design, added: &Added) -> Result<Vec<u8>, AllocError>
    ensures { IfOk result (λ line. line.items ≡ line_of_added (design_tree design.now) added.now) }
{
    let mut line = Vec::from_slice(alloc, b"add ")?;
    push_number(&mut line, u64::from(added.predicate))?;
    push(&mut line, b": ")?;
    push_state(&mut line, design, &added.left)?;
    push(&mut line, b" / ")?;
    push_state(&mut line, design, &added.right)?;
    push(&mut line, b"\n")?;
    Ok(line)
}

// Puts that line.
fn put_added<O: Sink>(
    alloc: Global,
    design: &Design,
    added: &Added,
    out: &mut O,
) -> Result<(), Failure>
    ensures { HasPut (line_of_added (design_tree design.now) added.now)
        (sink_data ⟦<O as Sink>⟧ out.old) (sink_data ⟦<O as Sink>⟧ out.new) result }
{
    let Ok(line) = add_line(alloc, design, added) else {
        return Err(Failure::Memory);
    };
    put_line(alloc, out, &line)
}

// Puts a line for each predicate that was added, in order.
fn put_additions<O: Sink>(
    alloc: Global,
    design: &Design,
    additions: &[Added],
    out: &mut O,
) -> Result<(), Failure>
    ensures { HasPut (flat_map (line_of_added (design_tree design.now)) additions.now)
        (sink_data ⟦<O as Sink>⟧ out.old) (sink_data ⟦<O as Sink>⟧ out.new) result }
{
    for added in additions {
        match put_added(alloc, design, added, out) {
            Ok(()) => {}
            Err(failure) => return Err(failure),
        }
    }
    Ok(())
}

/// Puts the lines of the predicates that were tracked: how many are tracked from the start, and each one that was added
/// with the two states that it tells apart.
pub(crate) fn put_trace<O: Sink>(
    alloc: Global,
    design: &Design,
    trace: &Trace,
    out: &mut O,
) -> Result<(), Failure>
    ensures { HasPut (trace_text (design_tree design.now) trace.now)
        (sink_data ⟦<O as Sink>⟧ out.old) (sink_data ⟦<O as Sink>⟧ out.new) result }
{
    match put_first(alloc, trace.first, out) {
        Ok(()) => put_additions(alloc, design, &trace.added, out),
        Err(failure) => Err(failure),
    }
}
