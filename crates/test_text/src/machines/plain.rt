//! Plays by the calls over a design alone.
ghost use Rattle.tm_syntax.specs.Tree.View.{spec_tree};
ghost use Rattle.tm_syntax.specs.Design.View.{design_tree};
ghost use Rattle.tm_syntax.specs.Faults.{IsOfText, IsSound};

use super::moves::{Turn, turn_of};
use case_rows::numbers;
use std::alloc::{AllocError, Global};
use tm_plain::{first_state, holds, magic, step};
use tm_sem::SemError;
use tm_sem::state::{Outcome, State};
use tm_syntax::design::Design;

/// A state as text, with whether the driver can be picked, whether goal 0 holds, and how many goals there are.
fn state_text(alloc: Global, design: &Design, state: &State) -> Result<String, AllocError>
    requires sound { IsSound (design_tree design.now) }
    requires read { IsOfText (spec_tree design.now.spec) }
{
    let is_magic = magic(alloc, design, state)?;
    let goals = design.goals.len();
    let holds = goals > 0 && holds(alloc, design, state, 0)?;
    let values = &state.values;
    let places = &state.places;
    format!(in alloc;
        "{values:?} {places:?} {} {is_magic} {holds} {goals}",
        state.last
    )
}

/// Begins a play.
fn begin(
    alloc: Global,
    design: &Design,
    state: &mut State,
    choices: &[u64],
) -> Result<String, AllocError>
    requires sound { IsSound (design_tree design.now) }
    requires read { IsOfText (spec_tree design.now.spec) }
{
    match first_state(alloc, design, choices) {
        Ok(first) => {
            let text = state_text(alloc, design, &first)?;
            *state = first;
            Ok(text)
        }
        Err(SemError::BadChoices) => String::from_str(alloc, "bad"),
        Err(SemError::Memory) => Err(AllocError),
    }
}

/// Goes on with a play.
fn advance(
    alloc: Global,
    design: &Design,
    state: &mut State,
    turn: &Turn,
) -> Result<String, AllocError>
    requires sound { IsSound (design_tree design.now) }
    requires read { IsOfText (spec_tree design.now.spec) }
{
    match step(alloc, design, state, &turn.action, &turn.choices)? {
        Outcome::Next(next) => {
            let text = state_text(alloc, design, &next)?;
            *state = next;
            Ok(text)
        }
        Outcome::Error => String::from_str(alloc, "error"),
        Outcome::NoOutcome => String::from_str(alloc, "none"),
    }
}

/// The answer to a question, by the calls over a design alone.
pub fn plain_answer(
    alloc: Global,
    design: &Design,
    state: &mut State,
    question: &str,
) -> Result<String, AllocError>
    requires sound { IsSound (design_tree design.now) }
    requires read { IsOfText (spec_tree design.now.spec) }
{
    match question.strip_prefix("start ") {
        Some(choices) => begin(alloc, design, state, &numbers(alloc, choices)?),
        None => advance(alloc, design, state, &turn_of(alloc, question)?),
    }
}
