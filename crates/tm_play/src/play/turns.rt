//! Playing the choices, and putting the play's lines.
ghost use Rattle.std.specs.Prelude.{◌≡◌, ◌≤◌, ◌++◌, ℕ, List, IsTrue, IsErrOf, OnOk, OnErr, IfOk, option_copied};
ghost use Rattle.tm_base.specs.Count.{Rose};
ghost use Rattle.tm_base.specs.Sink.{AppendsPrefix};
ghost use Rattle.tm_syntax.specs.Design.View.{design_tree};
ghost use Rattle.tm_cir.specs.View.{trees_of};
ghost use Rattle.tm_cir.specs.Fit.{FitBlocks};
ghost use Rattle.tm_play.specs.Report.{state_line as line_of_state};
ghost use Rattle.tm_play.specs.Played.{Halts, IsPart};
ghost use Rattle.tm_play.specs.Playable.{IsPlayable};
ghost use Rattle.tm_play.specs.Inner.Advance.{Begins};

use crate::ending::{PlayEnd, PlayError, PlayHalt, StopWhy};
use crate::input::script::Script;
use crate::play::turn::{Position, TurnOutcome, advance, position_at};
use crate::report::play_text::state_line;
use crate::report::put::put_line;
use std::alloc::{AllocError, Global};
use tm_base::Sink;
use tm_cir::Blocks;
use tm_plain::Machine;
use tm_sem::SemError;
use tm_sem::state::Move;

/// The position that a play begins at; none where the choices give no first state.
fn first_position(
    alloc: Global,
    machine: &Machine,
    choices: &[u64],
) -> Result<Option<Position>, AllocError>
    requires { IsPlayable (design_tree machine.now) }
    ensures { IfOk result (Begins (design_tree machine.now) choices.now) }
{
    match machine.first_state(alloc, choices) {
        Ok(state) => Ok(Some(position_at(alloc, machine, state, 0)?)),
        Err(SemError::BadChoices) => Ok(None),
        Err(SemError::Memory) => Err(AllocError),
    }
}

/// Puts the line of a position's state.
fn put_position<O: Sink>(
    alloc: Global,
    machine: &Machine,
    number: u64,
    action: Option<&Move>,
    position: &Position,
    out: &mut O,
) -> Result<(), PlayError>
    ensures ok { OnOk result (IsTrue O.tells →
        O.written out.new ≡ O.written out.old
        ++ line_of_state (design_tree machine.now) number (option_copied action.entry)
        position.now.state position.now.goal) }
    ensures err { OnErr result (IsTrue O.tells →
        AppendsPrefix
        (line_of_state (design_tree machine.now) number (option_copied action.entry)
        position.now.state position.now.goal)
        (O.written out.old) (O.written out.new)) }
    ensures failed { IsErrOf result PlayError.Failed → Rose O.last_count (O.faults out.old) (O.faults out.new) }
    ensures no_fewer_faults { O.faults out.old ≤ O.faults out.new }
{
    let line = state_line(
        alloc,
        machine.design(),
        number,
        action,
        &position.state,
        position.goal,
    )?;
    put_line(out, &line)
}

/// Plays the choices from the start line on, and puts the line of each state. It answers how far the play goes, without
/// the line that tells its end; or `Err` where the output failed or memory ran out.
pub fn play<O: Sink>(
    alloc: Global,
    machine: &Machine,
    blocks: &Blocks,
    script: &Script,
    out: &mut O,
) -> Result<PlayHalt, PlayError>
    requires playable { IsPlayable (design_tree machine.now) }
    requires blocks { FitBlocks (design_tree machine.now) (trees_of blocks.now) }
    ensures halted { IfOk result (λ halt. (text : List ℕ)
        × Halts (design_tree machine.now) (trees_of blocks.now) script.now text halt
        × (IsTrue O.tells → O.written out.new ≡ O.written out.old ++ text)) }
    ensures cut { OnErr result ((text : List ℕ)
        × IsPart (design_tree machine.now) (trees_of blocks.now) script.now text
        × (IsTrue O.tells → AppendsPrefix text (O.written out.old) (O.written out.new))) }
    ensures failed { IsErrOf result PlayError.Failed → Rose O.last_count (O.faults out.old) (O.faults out.new) }
    ensures no_fewer_faults { O.faults out.old ≤ O.faults out.new }
{
    let Some(mut position) = first_position(alloc, machine, &script.start)? else {
        return Ok(PlayHalt::Ended(PlayEnd::Stopped {
            step: 0,
            why: StopWhy::Illegal,
        }));
    };
    put_position(alloc, machine, 0, None, &position, out)?;
    for (index, turn) in script.turns.iter().enumerate() {
        let number = index as u64 + 1;
        match advance(alloc, machine, blocks, &position, turn)? {
            TurnOutcome::To(action, next) => {
                put_position(alloc, machine, number, Some(&action), &next, out)?;
                position = next;
            }
            TurnOutcome::Stop(why) => {
                return Ok(PlayHalt::Ended(PlayEnd::Stopped { step: number, why }));
            }
            TurnOutcome::Stuck(action) => {
                return Ok(PlayHalt::Stuck {
                    step: number,
                    state: position.state,
                    action,
                });
            }
        }
    }
    Ok(PlayHalt::Ended(PlayEnd::Played(script.turns.len() as u64)))
}
