//! Whether a move of the driver is allowed.
ghost use Rattle.std.specs.Prelude.{◌↔◌, IfOk, IsTrue};
ghost use Rattle.tm_sem.specs.Step.{IsAllowed, IsState};
ghost use Rattle.tm_syntax.specs.Design.View.{design_tree};
ghost use Rattle.tm_syntax.specs.Faults.{IsOfText, IsSound};

use crate::making::game_of;
use std::alloc::{AllocError, Global};
use tm_sem::state::{Move, State};
use tm_syntax::design::Design;

/// Whether a move is one of the driver's that is allowed at a valid state of a design of a text: the driver can be
/// picked, the arguments of a call are as many as its task has parameters and in range, and some choices give an
/// outcome. It makes the game of the design for this one question.
///
/// `AllocError` is want of memory.
pub fn is_allowed(
    alloc: Global,
    design: &Design,
    state: &State,
    action: &Move,
) -> Result<bool, AllocError>
    requires sound { IsSound (design_tree design.now) }
    requires of_text { IsOfText (design_tree design.now).spec }
    requires state { IsState (design_tree design.now) state.now }
    ensures { IfOk result (λ yes. IsTrue yes ↔ IsAllowed (design_tree design.now) state.now action.now) }
{
    let mut game = match game_of(alloc, design) {
        Ok(game) => game,
        Err(error) => return Err(error),
    };
    let yes = game.allowed(state, action);
    drop(game);
    yes
}
