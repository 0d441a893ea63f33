//! Machines: plays of designs, the goals that hold at first states, and which states are valid.
//!
//! Above the rows stands a specification; its design is played row by row. A state is told by its values, its
//! locations, who moved last, and `magic` where the driver can be picked. The rows are:
//!
//! - `start CHOICES`: the state that these choices give to begin with, and the goals that hold there, or `bad`;
//! - `stutter`, `process PROCESS`, `idle`, `leave PROCESS` or `call TASK ARGUMENTS`, each with `: CHOICES` behind it
//!   where the move takes choices: the state to which it leads from the last one, `error`, `none` where the choices
//!   give no outcome, or `barred` where the turn rule does not permit the move. The last state stays where there is
//!   no next one;
//! - `valid VALUES at LOCATIONS last MOVER`: whether this state is a valid one;
//! - `plain start CHOICES` and `plain` in front of a move: the same by the calls over a design alone. Of a state is
//!   then told whether the driver can be picked, whether goal 0 holds, and how many goals there are.
ghost use Rattle.tm_syntax.specs.Tree.View.{spec_tree};
ghost use Rattle.tm_syntax.specs.Design.View.{design_tree};
ghost use Rattle.tm_syntax.specs.Faults.{IsOfText, IsSound};

mod moves;
mod plain;
mod play;
mod validity;

use plain::plain_answer;
use play::play_answer;
use std::alloc::{AllocError, Global};
use tm_plain::{Machine, Tables};
use tm_sem::state::State;
use tm_syntax::design::Design;

/// The answer to the question of a row by a machine of the design, at the last state.
fn answer_by_machine(
    alloc: Global,
    design: &Design,
    machine: &Machine,
    last: &mut State,
    question: &str,
) -> Result<String, AllocError>
    requires sound { IsSound (design_tree design.now) }
    requires read { IsOfText (spec_tree design.now.spec) }
{
    match question.strip_prefix("plain ") {
        Some(rest) => plain_answer(alloc, design, last, rest),
        None => play_answer(alloc, machine, last, question),
    }
}

/// The answer to the question of a row by a machine that is made of the tables of the design, at the last state.
pub fn answer_to(
    alloc: Global,
    design: &Design,
    tables: &Tables,
    last: &mut State,
    question: &str,
) -> Result<String, AllocError>
    requires sound { IsSound (design_tree design.now) }
    requires read { IsOfText (spec_tree design.now.spec) }
{
    match Machine::new(alloc, tables) {
        Ok(machine) => {
            let found = answer_by_machine(alloc, design, &machine, last, question);
            drop(machine);
            found
        }
        Err(error) => Err(error),
    }
}
