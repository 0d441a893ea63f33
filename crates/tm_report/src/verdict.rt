//! The lines that `check` puts of a verdict.
ghost use Rattle.std.specs.Prelude.{◌≡◌, ◌<◌, ◌^◌, IfOk, length};
ghost use Rattle.std.specs.List.{flat_map, range_with_len};
ghost use Rattle.tm_report.specs.Putting.{HasPut};
ghost use Rattle.tm_report.specs.Report.{accepted_text, goal_line as line_of_goal, levels_text, numbers_line};
ghost use Rattle.tm_report.specs.Report.{refused_text};
ghost use Rattle.tm_report.specs.Output.{sink_data};
ghost use Rattle.tm_syntax.specs.Design.View.{design_tree};

use crate::ending::Failure;
use crate::put::put_line;
use std::alloc::{AllocError, Global};
use tm_base::Sink;
use tm_play::{push, push_number, push_path, push_state};
use tm_sem::state::State;
use tm_syntax::design::Design;

/// The line of a goal of a driver that is accepted.
#[tactic(auto, using(tm_play::proofs::Appending::append_assoc))]
fn goal_line(
    alloc: Global,
    design: &Design,
    ranks: &[u64],
    goal: usize,
) -> Result<Vec<u8>, AllocError>
    requires within { goal < length ranks.now }
    requires few { length ranks.now < 2 ^ 32 }
    ensures { IfOk result (λ line. line.items ≡ line_of_goal (design_tree design.now) ranks.now goal) }
{
    let mut line = Vec::from_slice(alloc, b"goal ")?;
    push_number(&mut line, goal as u64)?;
    push(&mut line, b" ")?;
    push_path(&mut line, &design.goals, goal as u32)?;
    push(&mut line, b" rank ")?;
    push_number(&mut line, ranks[goal])?;
    push(&mut line, b"\n")?;
    Ok(line)
}

/// Puts the line of a goal of a driver that is accepted.
fn put_goal<O: Sink>(
    alloc: Global,
    design: &Design,
    ranks: &[u64],
    goal: usize,
    out: &mut O,
) -> Result<(), Failure>
    requires within { goal < length ranks.now }
    requires few { length ranks.now < 2 ^ 32 }
    ensures { HasPut (line_of_goal (design_tree design.now) ranks.now goal)
        (sink_data ⟦<O as Sink>⟧ out.old) (sink_data ⟦<O as Sink>⟧ out.new) result }
{
    let Ok(line) = goal_line(alloc, design, ranks, goal) else {
        return Err(Failure::Memory);
    };
    put_line(alloc, out, &line)
}

/// Puts the lines of the goals of a driver.
pub(crate) fn put_goals<O: Sink>(
    alloc: Global,
    design: &Design,
    ranks: &[u64],
    out: &mut O,
) -> Result<(), Failure>
    requires { length ranks.now < 2 ^ 32 }
    ensures { HasPut
        (flat_map (line_of_goal (design_tree design.now) ranks.now) (range_with_len 0 (length ranks.now)))
        (sink_data ⟦<O as Sink>⟧ out.old) (sink_data ⟦<O as Sink>⟧ out.new) result }
{
    for goal in 0..ranks.len() {
        match put_goal(alloc, design, ranks, goal, out) {
            Ok(()) => {}
            Err(failure) => return Err(failure),
        }
    }
    Ok(())
}

/// Puts the lines of a driver that is accepted, with so many ranked regions for each goal.
pub fn put_accepted<O: Sink>(
    alloc: Global,
    design: &Design,
    ranks: &[u64],
    out: &mut O,
) -> Result<(), Failure>
    requires { length ranks.now < 2 ^ 32 }
    ensures { HasPut (accepted_text (design_tree design.now) ranks.now)
        (sink_data ⟦<O as Sink>⟧ out.old) (sink_data ⟦<O as Sink>⟧ out.new) result }
{
    match put_line(alloc, out, b"accepted driver\n") {
        Ok(()) => put_goals(alloc, design, ranks, out),
        Err(failure) => Err(failure),
    }
}

/// The line of the numbers of an environment that is accepted.
#[tactic(auto, using(tm_play::proofs::Appending::append_assoc))]
fn levels_line(
    alloc: Global,
    levels: u64,
    conditions: u64,
    chain: u64,
) -> Result<Vec<u8>, AllocError>
    ensures { IfOk result (λ line. line.items ≡ numbers_line levels conditions chain) }
{
    let mut line = Vec::from_slice(alloc, b"levels ")?;
    push_number(&mut line, levels)?;
    push(&mut line, b" conditions ")?;
    push_number(&mut line, conditions)?;
    push(&mut line, b" chain ")?;
    push_number(&mut line, chain)?;
    push(&mut line, b"\n")?;
    Ok(line)
}

/// Puts that line.
pub(crate) fn put_numbers<O: Sink>(
    alloc: Global,
    levels: u64,
    conditions: u64,
    chain: u64,
    out: &mut O,
) -> Result<(), Failure>
    ensures { HasPut (numbers_line levels conditions chain)
        (sink_data ⟦<O as Sink>⟧ out.old) (sink_data ⟦<O as Sink>⟧ out.new) result }
{
    let Ok(line) = levels_line(alloc, levels, conditions, chain) else {
        return Err(Failure::Memory);
    };
    put_line(alloc, out, &line)
}

/// Puts the lines of an environment that is accepted, with the numbers of levels, of fairness conditions, and of sets
/// in the longest chain.
pub fn put_levels<O: Sink>(
    alloc: Global,
    levels: u64,
    conditions: u64,
    chain: u64,
    out: &mut O,
) -> Result<(), Failure>
    ensures { HasPut (levels_text levels conditions chain)
        (sink_data ⟦<O as Sink>⟧ out.old) (sink_data ⟦<O as Sink>⟧ out.new) result }
{
    match put_line(alloc, out, b"accepted environment\n") {
        Ok(()) => put_numbers(alloc, levels, conditions, chain, out),
        Err(failure) => Err(failure),
    }
}

/// The line of a condition that fails.
#[tactic(auto, using(tm_play::proofs::Appending::append_assoc))]
fn refused_line(
    alloc: Global,
    design: &Design,
    letter: &[u8],
    condition: u8,
    goal: u32,
    state: &State,
) -> Result<Vec<u8>, AllocError>
    ensures { IfOk result (λ line.
        line.items ≡ refused_text (design_tree design.now) letter.now condition goal state.now) }
{
    let mut line = Vec::from_slice(alloc, b"refused ")?;
    push(&mut line, letter)?;
    push_number(&mut line, u64::from(condition))?;
    push(&mut line, b" goal ")?;
    push_number(&mut line, u64::from(goal))?;
    push(&mut line, b" ")?;
    push_state(&mut line, design, state)?;
    push(&mut line, b"\n")?;
    Ok(line)
}

/// Puts the line of a condition that fails: its letter and number, and the goal and the state that are reported.
pub fn put_refused<O: Sink>(
    alloc: Global,
    design: &Design,
    letter: &[u8],
    condition: u8,
    goal: u32,
    state: &State,
    out: &mut O,
) -> Result<(), Failure>
    ensures { HasPut (refused_text (design_tree design.now) letter.now condition goal state.now)
        (sink_data ⟦<O as Sink>⟧ out.old) (sink_data ⟦<O as Sink>⟧ out.new) result }
{
    let Ok(line) = refused_line(alloc, design, letter, condition, goal, state) else {
        return Err(Failure::Memory);
    };
    put_line(alloc, out, &line)
}
