//! The lines that `synth` puts of what it found.
ghost use Rattle.std.specs.Prelude.{◌≡◌, ◌<◌, ◌^◌, ◌++◌, IfOk, length};
ghost use Rattle.std.specs.List.{flat_map, range_with_len};
ghost use Rattle.tm_report.specs.Output.{sink_data};
ghost use Rattle.tm_report.specs.Putting.{HasPut};
ghost use Rattle.tm_report.specs.Report.{budget_line as line_of_budget, budget_text, driver_found_text};
ghost use Rattle.tm_report.specs.Report.{environment_found_text, goal_line, nodes_line as line_of_nodes};
ghost use Rattle.tm_report.specs.Report.{numbers_line, trace_text};
ghost use Rattle.tm_syntax.specs.Design.View.{design_tree};

use crate::ending::Failure;
use crate::put::put_line;
use crate::trace::put_trace;
use crate::verdict::{put_goals, put_numbers};
use std::alloc::{AllocError, Global};
use tm_base::Sink;
use tm_play::{push, push_number};
use tm_refine::Trace;
use tm_syntax::design::Design;

// The line of the number of nodes of a certificate.
#[tactic(auto, using(tm_play::proofs::Appending::append_assoc))]
fn nodes_line(alloc: Global, nodes: u64) -> Result<Vec<u8>, AllocError>
    ensures { IfOk result (λ line. line.items ≡ line_of_nodes nodes) }
{
    let mut line = Vec::from_slice(alloc, b"nodes ")?;
    push_number(&mut line, nodes)?;
    push(&mut line, b"\n")?;
    Ok(line)
}

// Puts that line.
fn put_nodes<O: Sink>(alloc: Global, nodes: u64, out: &mut O) -> Result<(), Failure>
    ensures { HasPut (line_of_nodes nodes)
        (sink_data ⟦<O as Sink>⟧ out.old) (sink_data ⟦<O as Sink>⟧ out.new) result }
{
    let Ok(line) = nodes_line(alloc, nodes) else {
        return Err(Failure::Memory);
    };
    put_line(alloc, out, &line)
}

// Puts the lines of goals, and that of the nodes.
fn put_goals_and_nodes<O: Sink>(
    alloc: Global,
    design: &Design,
    ranks: &[u64],
    nodes: u64,
    out: &mut O,
) -> Result<(), Failure>
    requires { length ranks.now < 2 ^ 32 }
    ensures { HasPut
        (flat_map (goal_line (design_tree design.now) ranks.now) (range_with_len 0 (length ranks.now))
        ++ line_of_nodes nodes)
        (sink_data ⟦<O as Sink>⟧ out.old) (sink_data ⟦<O as Sink>⟧ out.new) result }
{
    match put_goals(alloc, design, ranks, out) {
        Ok(()) => put_nodes(alloc, nodes, out),
        Err(failure) => Err(failure),
    }
}

// Puts all lines of a driver but the first.
fn put_tracked_driver<O: Sink>(
    alloc: Global,
    design: &Design,
    ranks: &[u64],
    trace: &Trace,
    nodes: u64,
    out: &mut O,
) -> Result<(), Failure>
    requires { length ranks.now < 2 ^ 32 }
    ensures { HasPut
        (trace_text (design_tree design.now) trace.now
        ++ (flat_map (goal_line (design_tree design.now) ranks.now) (range_with_len 0 (length ranks.now))
        ++ line_of_nodes nodes))
        (sink_data ⟦<O as Sink>⟧ out.old) (sink_data ⟦<O as Sink>⟧ out.new) result }
{
    match put_trace(alloc, design, trace, out) {
        Ok(()) => put_goals_and_nodes(alloc, design, ranks, nodes, out),
        Err(failure) => Err(failure),
    }
}

/// Puts the lines of a driver that was found, with so many ranked regions for each goal, the predicates over which it
/// was found, and so many nodes in its certificate.
pub fn put_driver<O: Sink>(
    alloc: Global,
    design: &Design,
    ranks: &[u64],
    trace: &Trace,
    nodes: u64,
    out: &mut O,
) -> Result<(), Failure>
    requires { length ranks.now < 2 ^ 32 }
    ensures { HasPut (driver_found_text (design_tree design.now) ranks.now trace.now nodes)
        (sink_data ⟦<O as Sink>⟧ out.old) (sink_data ⟦<O as Sink>⟧ out.new) result }
{
    match put_line(alloc, out, b"driver\n") {
        Ok(()) => put_tracked_driver(alloc, design, ranks, trace, nodes, out),
        Err(failure) => Err(failure),
    }
}

// Puts all lines of a design without a driver but the first.
fn put_tracked_environment<O: Sink>(
    alloc: Global,
    design: &Design,
    levels: u64,
    conditions: u64,
    chain: u64,
    trace: &Trace,
    out: &mut O,
) -> Result<(), Failure>
    ensures { HasPut (trace_text (design_tree design.now) trace.now ++ numbers_line levels conditions chain)
        (sink_data ⟦<O as Sink>⟧ out.old) (sink_data ⟦<O as Sink>⟧ out.new) result }
{
    match put_trace(alloc, design, trace, out) {
        Ok(()) => put_numbers(alloc, levels, conditions, chain, out),
        Err(failure) => Err(failure),
    }
}

/// Puts the lines of a design that has no driver, with the numbers of levels, of fairness conditions, and of sets in
/// the longest chain of the certificate that shows it, and the predicates over which that was found.
pub fn put_environment<O: Sink>(
    alloc: Global,
    design: &Design,
    levels: u64,
    conditions: u64,
    chain: u64,
    trace: &Trace,
    out: &mut O,
) -> Result<(), Failure>
    ensures { HasPut (environment_found_text (design_tree design.now) levels conditions chain trace.now)
        (sink_data ⟦<O as Sink>⟧ out.old) (sink_data ⟦<O as Sink>⟧ out.new) result }
{
    match put_line(alloc, out, b"environment\n") {
        Ok(()) => put_tracked_environment(alloc, design, levels, conditions, chain, trace, out),
        Err(failure) => Err(failure),
    }
}

// The line of how many predicates could be added.
#[tactic(auto, using(tm_play::proofs::Appending::append_assoc))]
fn budget_line(alloc: Global, budget: u32) -> Result<Vec<u8>, AllocError>
    ensures { IfOk result (λ line. line.items ≡ line_of_budget budget) }
{
    let mut line = Vec::from_slice(alloc, b"budget ")?;
    push_number(&mut line, u64::from(budget))?;
    push(&mut line, b"\n")?;
    Ok(line)
}

// Puts that line.
fn put_allowed<O: Sink>(alloc: Global, budget: u32, out: &mut O) -> Result<(), Failure>
    ensures { HasPut (line_of_budget budget)
        (sink_data ⟦<O as Sink>⟧ out.old) (sink_data ⟦<O as Sink>⟧ out.new) result }
{
    let Ok(line) = budget_line(alloc, budget) else {
        return Err(Failure::Memory);
    };
    put_line(alloc, out, &line)
}

/// Puts the lines of a design that a budget leaves undecided, with the predicates that were tracked.
pub fn put_budget<O: Sink>(
    alloc: Global,
    design: &Design,
    budget: u32,
    trace: &Trace,
    out: &mut O,
) -> Result<(), Failure>
    ensures { HasPut (budget_text (design_tree design.now) budget trace.now)
        (sink_data ⟦<O as Sink>⟧ out.old) (sink_data ⟦<O as Sink>⟧ out.new) result }
{
    match put_allowed(alloc, budget, out) {
        Ok(()) => put_trace(alloc, design, trace, out),
        Err(failure) => Err(failure),
    }
}
