//! What rows are answered.
ghost use Rattle.tm_syntax.specs.Design.View.{design_tree};
ghost use Rattle.tm_struct.specs.View.{program_tree};
ghost use Rattle.tm_struct.specs.Fit.{FitsProgram};

use super::source::{NoProgram, program_of};
use crate::drivers::answers::{covers, move_text, refusal_text, state_of};
use case_rows::{escaped, number, split_word};
use std::alloc::{AllocError, Global};
use tm_struct::{Structured, answer_structured, blocks_of, print_structured};
use tm_struct_parse::BadStructured;
use tm_syntax::design::Design;

/// Why there is no structured driver, as text.
fn reason_text(alloc: Global, reason: NoProgram) -> Result<String, AllocError> {
    match reason {
        NoProgram::Blocks(refusal) => refusal_text(alloc, refusal),
        NoProgram::Bad(fault) => fault_text(alloc, fault),
        NoProgram::Memory => format!(in alloc; "memory"),
    }
}

/// The fault of a structured text, with its line.
fn fault_text(alloc: Global, fault: BadStructured) -> Result<String, AllocError> {
    match fault {
        BadStructured::TooLong => format!(in alloc; "too long"),
        BadStructured::Text(line) => format!(in alloc; "text {line}"),
        BadStructured::UnknownName(line) => format!(in alloc; "name {line}"),
        BadStructured::ForwardCall(line) => format!(in alloc; "forward {line}"),
    }
}

/// How many functions a driver has, and how many blocks are made of it.
fn counts(alloc: Global, design: &Design, program: &Structured) -> Result<String, AllocError>
    requires { FitsProgram (design_tree design.now) (program_tree program.now) }
{
    let blocks = blocks_of(alloc, design, program)?;
    let functions = program.functions.len();
    format!(in alloc; "{functions} functions, {} blocks", blocks.blocks().len())
}

/// What a driver answers at the state with these values.
fn answer_at(
    alloc: Global,
    design: &Design,
    program: &Structured,
    values: &str,
    goal: u32,
) -> Result<String, AllocError>
    requires { FitsProgram (design_tree design.now) (program_tree program.now) }
{
    let state = state_of(alloc, values)?;
    if !covers(design, &state) {
        return format!(in alloc; "no state of the design");
    }
    move_text(alloc, &answer_structured(alloc, program, &state, goal))
}

/// How many functions and blocks a source tells, or why it tells none.
fn judgement(alloc: Global, design: &Design, source: &str) -> Result<String, AllocError> {
    match program_of(alloc, design, source) {
        Ok(program) => counts(alloc, design, &program),
        Err(reason) => reason_text(alloc, reason),
    }
}

/// What the driver of a source answers at a state.
fn turn(alloc: Global, design: &Design, question: &str) -> Result<String, AllocError> {
    let (state, source) = question.split_once(": ").unwrap_or((question, ""));
    let (values, goal) = state.split_once(" goal ").unwrap_or((state, ""));
    match program_of(alloc, design, source) {
        Ok(program) => answer_at(alloc, design, &program, values, number(goal)),
        Err(reason) => reason_text(alloc, reason),
    }
}

/// The text that the driver of a source is printed as.
fn printed(alloc: Global, design: &Design, source: &str) -> Result<String, AllocError> {
    match program_of(alloc, design, source) {
        Ok(program) => escaped(alloc, &print_structured(alloc, design, &program)?),
        Err(reason) => reason_text(alloc, reason),
    }
}

/// The answer to the question of a row.
pub fn answer_to(alloc: Global, design: &Design, question: &str) -> Result<String, AllocError> {
    match split_word(question) {
        ("at", rest) => turn(alloc, design, rest),
        ("print", source) => printed(alloc, design, source),
        _ => judgement(alloc, design, question),
    }
}
