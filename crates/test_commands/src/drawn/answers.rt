//! What a driver answers at drawn states.
ghost use Rattle.std.specs.Prelude.{IfOk, IfSome};
ghost use Rattle.tm_syntax.specs.Design.View.{design_tree};
ghost use Rattle.tm_cir.specs.View.{trees_of};
ghost use Rattle.tm_cir.specs.Fit.{FitBlocks, CoversDesign};
ghost use Rattle.tm_struct.specs.View.{program_tree};
ghost use Rattle.tm_struct.specs.Fit.{FitsProgram};

use super::draw::state;
use rand::RngExt;
use rand_pcg::Pcg32;
use std::alloc::{AllocError, Global};
use tm_cir::{Blocks, answer};
use tm_sem::state::{Move, State};
use tm_struct::{Structured, answer_structured};
use tm_syntax::design::Design;

/// The number of states.
const STATES: u32 = 200;

/// A state and the number of a pending goal.
#[derive(Drop)]
struct Moment {
    state: State,
    goal: u32,
}

/// A drawn moment of the design.
fn drawn_moment(
    alloc: Global,
    design: &Design,
    rng: &mut Pcg32,
) -> Result<Option<Moment>, AllocError>
    ensures { IfOk result (λ found. IfSome found (λ moment. CoversDesign (design_tree design.now) moment.state)) }
{
    let state = state(alloc, rng)?;
    let goal = rng.random_range(0u32..3);
    if state.values.len() == design.vars.len() && state.places.len() == design.processes.len() {
        Ok(Some(Moment { state, goal }))
    } else {
        Ok(None)
    }
}

fn action_text(alloc: Global, action: &Move) -> Result<String, AllocError> {
    match action {
        Move::Call(task, _) => format!(in alloc; "call {task}"),
        Move::Leave(process) => format!(in alloc; "leave {process}"),
        _ => String::from_str(alloc, "idle"),
    }
}

/// The numbers of a state and of the pending goal, with a blank behind each.
fn state_text(alloc: Global, state: &State, goal: u32) -> Result<String, AllocError> {
    let mut text = String::new(alloc);
    for value in &state.values {
        text.push_str(format!(in alloc; "{value} ")?.as_str())?;
    }
    for place in &state.places {
        text.push_str(format!(in alloc; "{place} ")?.as_str())?;
    }
    text.push_str(format!(in alloc; "{} {goal} ", state.last)?.as_str())?;
    Ok(text)
}

/// Pushes a moment and an answer there.
fn push_answer(
    alloc: Global,
    moment: &Moment,
    action: &Move,
    text: &mut String,
) -> Result<(), AllocError> {
    text.push_str(state_text(alloc, &moment.state, moment.goal)?.as_str())?;
    text.push_str(action_text(alloc, action)?.as_str())?;
    text.push_str("\n")
}

/// Pushes a line for each state: its numbers, the pending goal, and the answer.
pub fn push_answers(
    alloc: Global,
    design: &Design,
    blocks: &Blocks,
    rng: &mut Pcg32,
    text: &mut String,
) -> Result<(), AllocError>
    requires { FitBlocks (design_tree design.now) (trees_of blocks.now) }
{
    for _ in 0..STATES {
        let Some(moment) = drawn_moment(alloc, design, rng)? else {
            return Ok(());
        };
        let action = answer(alloc, blocks, &moment.state, moment.goal);
        push_answer(alloc, &moment, &action, text)?;
    }
    Ok(())
}

/// Pushes a line for each state: its numbers, the pending goal, and the answer of a structured driver.
pub fn push_structured_answers(
    alloc: Global,
    design: &Design,
    program: &Structured,
    rng: &mut Pcg32,
    text: &mut String,
) -> Result<(), AllocError>
    requires { FitsProgram (design_tree design.now) (program_tree program.now) }
{
    for _ in 0..STATES {
        let Some(moment) = drawn_moment(alloc, design, rng)? else {
            return Ok(());
        };
        let action = answer_structured(alloc, program, &moment.state, moment.goal);
        push_answer(alloc, &moment, &action, text)?;
    }
    Ok(())
}
