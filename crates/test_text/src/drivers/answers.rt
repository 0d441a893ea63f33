//! What rows are answered.
ghost use Rattle.std.specs.Prelude.{IsTrue};
ghost use Rattle.tm_syntax.specs.Design.View.{design_tree};
ghost use Rattle.tm_cir.specs.View.{trees_of};
ghost use Rattle.tm_cir.specs.Fit.{CoversDesign, FitBlocks};

use super::source::{Refusal, blocks_of};
use case_rows::{escaped, number, numbers, split_word};
use std::alloc::{AllocError, Global};
use std::fmt::Write;
use tm_cir::{Blocks, answer};
use tm_cparse::BadDriver;
use tm_sem::state::{Move, State};
use tm_syntax::design::Design;

/// Where the processes stand.
const PLACES: [u32; 2] = [4, 9];

/// Who moved last: process 1.
const LAST: u32 = 3;

/// A refusal as text.
pub fn refusal_text(alloc: Global, refusal: Refusal) -> Result<String, AllocError> {
    match refusal {
        Refusal::Unknown => format!(in alloc; "no source"),
        Refusal::Misfit => format!(in alloc; "misfit"),
        Refusal::Memory => format!(in alloc; "memory"),
        Refusal::Bad(fault) => fault_text(alloc, fault),
    }
}

/// The fault of a C text, with its line.
fn fault_text(alloc: Global, fault: BadDriver) -> Result<String, AllocError> {
    match fault {
        BadDriver::TooLong => format!(in alloc; "too long"),
        BadDriver::Text(line) => format!(in alloc; "text {line}"),
        BadDriver::UnknownName(line) => format!(in alloc; "name {line}"),
        BadDriver::BackwardGoto(line) => format!(in alloc; "backward {line}"),
    }
}

/// A driver's move as text.
pub fn move_text(alloc: Global, action: &Move) -> Result<String, AllocError> {
    match action {
        Move::Call(task, args) => {
            let mut text = format!(in alloc; "call {task}")?;
            for arg in args.list.as_slice() {
                write!(text, " {arg}")?;
            }
            Ok(text)
        }
        Move::Leave(process) => format!(in alloc; "leave {process}"),
        Move::Idle => format!(in alloc; "idle"),
        Move::Stutter | Move::Process(_) => format!(in alloc; "no driver's move"),
    }
}

/// Whether a state has a value for each variable of a design, and a location for each process.
pub fn covers(design: &Design, state: &State) -> bool
    ensures { IsTrue result → CoversDesign (design_tree design.now) state.now }
{
    state.values.len() == design.vars.len() && state.places.len() == design.processes.len()
}

/// The state with these values.
pub fn state_of(alloc: Global, values: &str) -> Result<State, AllocError> {
    Ok(State {
        values: numbers(alloc, values)?,
        places: Vec::from_array(alloc, PLACES)?,
        last: LAST,
    })
}

/// What the driver answers at the state with these values.
fn answer_at(
    alloc: Global,
    design: &Design,
    blocks: &Blocks,
    values: &str,
    goal: u32,
) -> Result<String, AllocError>
    requires { FitBlocks (design_tree design.now) (trees_of blocks.now) }
{
    let state = state_of(alloc, values)?;
    if !covers(design, &state) {
        return format!(in alloc; "no state of the design");
    }
    move_text(alloc, &answer(alloc, blocks, &state, goal))
}

/// How many blocks a source tells, or why it tells none.
fn judgement(alloc: Global, design: &Design, source: &str) -> Result<String, AllocError> {
    match blocks_of(alloc, design, source) {
        Ok(blocks) => format!(in alloc; "{} blocks", blocks.blocks().len()),
        Err(refusal) => refusal_text(alloc, refusal),
    }
}

/// What the driver of a source answers at a state.
fn turn(alloc: Global, design: &Design, question: &str) -> Result<String, AllocError> {
    let (state, source) = question.split_once(": ").unwrap_or((question, ""));
    let (values, goal) = state.split_once(" goal ").unwrap_or((state, ""));
    match blocks_of(alloc, design, source) {
        Ok(blocks) => answer_at(alloc, design, &blocks, values, number(goal)),
        Err(refusal) => refusal_text(alloc, refusal),
    }
}

/// The C text that the blocks of a source are printed as.
fn printed(alloc: Global, design: &Design, source: &str) -> Result<String, AllocError> {
    match blocks_of(alloc, design, source) {
        Ok(blocks) => escaped(alloc, &tm_cprint::print(alloc, design, &blocks)?),
        Err(refusal) => refusal_text(alloc, refusal),
    }
}

/// The answer to the question of a row.
pub fn answer_to(alloc: Global, design: &Design, question: &str) -> Result<String, AllocError> {
    match split_word(question) {
        ("at", rest) => turn(alloc, design, rest),
        ("print", source) => printed(alloc, design, source),
        _ => judgement(alloc, design, question),
    }
}
