//! First states: those that choices give designs to begin with, worked out from the rules of the language.
//!
//! Above the rows stands a specification. A row is `start CHOICES`, and is answered by the values and locations of the
//! first state and by who moved last, or by `bad`.
ghost use Rattle.tm_syntax.specs.Design.View.{design_tree};
ghost use Rattle.tm_syntax.specs.Faults.{IsSound};

use case_rows::{numbers, split_word};
use std::alloc::{AllocError, Global};
use tm_scope::Scopes;
use tm_sem::SemError;
use tm_states::first_state;
use tm_syntax::design::Design;

/// The state that choices give a design to begin with, as a line.
fn begun(alloc: Global, design: &Design, choices: &[u64]) -> Result<String, AllocError>
    requires { IsSound (design_tree design.now) }
{
    let scopes = Scopes::new(alloc, &design.spec)?;
    match first_state(alloc, design, &scopes, choices) {
        Ok(state) => {
            let values = &state.values;
            let places = &state.places;
            format!(in alloc; "{values:?} {places:?} {}", state.last)
        }
        Err(SemError::BadChoices) => String::from_str(alloc, "bad"),
        Err(SemError::Memory) => Err(AllocError),
    }
}

/// The answer to the question of a row about a design.
pub fn answer_to(alloc: Global, design: &Design, question: &str) -> Result<String, AllocError>
    requires { IsSound (design_tree design.now) }
{
    match split_word(question) {
        ("start", choices) => begun(alloc, design, &numbers(alloc, choices)?),
        _ => String::from_str(alloc, "no question"),
    }
}
