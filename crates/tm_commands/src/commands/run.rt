//! The command `run`.
ghost use Rattle.std.specs.Prelude.{◌≡◌, ◌≤◌, ◌++◌, ℕ, List, Some, IsTrue, OnErr, IfOk, IfErr};
ghost use Rattle.tm_base.specs.Sink.{AppendsPrefix};
ghost use Rattle.tm_syntax.specs.Design.View.{design_tree};
ghost use Rattle.tm_cir.specs.View.{trees_of};
ghost use Rattle.tm_cir.specs.Fit.{FitBlocks};
ghost use Rattle.tm_cir.specs.Tree.{BlockTree};
ghost use Rattle.tm_commands.specs.Order.{IsDue};
ghost use Rattle.tm_commands.specs.Words.{run as run_words};
ghost use Rattle.tm_commands.specs.World.{OnlyCounts, files_data};
ghost use Rattle.tm_report.specs.Output.{sink_data};
ghost use Rattle.tm_report.specs.declared.ending.Ending.TheVariants.{Play};
ghost use Rattle.tm_play.specs.declared.ending.PlayEnd.{PlayEnd};
ghost use Rattle.tm_play.specs.Script.{ScriptData};
ghost use Rattle.tm_play.specs.Played.{Ends, Halts, IsPart};
ghost use Rattle.tm_play.specs.Playable.{IsPlayable};
ghost use Rattle.tm_commands.specs.Inner.Obeying.{Obeys};
ghost use Rattle.tm_report.specs.Putting.{IsSinkFailure};

use crate::input::load::{Inputs, load};
use std::alloc::{AllocError, Global};
use tm_base::{Files, Sink, SinkError};
use tm_judge::is_allowed;
use tm_play::{PlayEnd, PlayError, PlayHalt, StopWhy, play_script};
use tm_report::{Ending, Failure, failure_of};
use tm_syntax::design::Design;

/// How a play ends that goes so far: where the driver's answer is stuck, the game of the design tells whether it is
/// allowed.
fn end_of(alloc: Global, design: &Design, halt: PlayHalt) -> Result<PlayEnd, AllocError>
    requires playable { IsPlayable (design_tree design.now) }
    requires halted { (bs : List BlockTree) × (c : ScriptData) × (text : List ℕ)
        × Halts (design_tree design.now) bs c text halt }
    ensures { IfOk result (λ end. (bs : List BlockTree) (c : ScriptData) (text : List ℕ)
        → Halts (design_tree design.now) bs c text halt → Ends (design_tree design.now) bs c text end) }
{
    match halt {
        PlayHalt::Ended(end) => Ok(end),
        PlayHalt::Stuck {
            step,
            state,
            action,
        } => {
            let allowed = is_allowed(alloc, design, &state, &action)?;
            if allowed {
                let why = StopWhy::Illegal;
                Ok(PlayEnd::Stopped { step, why })
            } else {
                let why = StopWhy::Forbidden;
                Ok(PlayEnd::Stopped { step, why })
            }
        }
    }
}

/// Plays what was read.
fn play_inputs<O: Sink>(alloc: Global, inputs: &Inputs, out: &mut O) -> Result<Ending, Failure>
    requires playable { IsPlayable (design_tree inputs.now.design) }
    requires blocks { FitBlocks (design_tree inputs.now.design) (trees_of inputs.now.blocks) }
    ensures ended { IfOk result (λ ending. (end : PlayEnd) × (text : List ℕ) × (ending ≡ Play end)
        × Ends (design_tree inputs.now.design) (trees_of inputs.now.blocks) inputs.now.script text end
        × (IsTrue O.tells → O.written out.new ≡ O.written out.old ++ text)) }
    ensures cut { OnErr result ((text : List ℕ)
        × IsPart (design_tree inputs.now.design) (trees_of inputs.now.blocks) inputs.now.script text
        × (IsTrue O.tells → AppendsPrefix text (O.written out.old) (O.written out.new))) }
    ensures failure { IfErr result (IsSinkFailure
        (sink_data ⟦<O as Sink>⟧ out.old) (sink_data ⟦<O as Sink>⟧ out.new)) }
    ensures no_fewer_faults { O.faults out.old ≤ O.faults out.new }
{
    let halt = match play_script(alloc, &inputs.design, &inputs.blocks, &inputs.script, out) {
        Ok(halt) => halt,
        Err(PlayError::Failed) => return Err(failure_of(alloc, SinkError::Failed)),
        Err(PlayError::Memory) => return Err(Failure::Memory),
    };
    match end_of(alloc, &inputs.design, halt) {
        Ok(end) => Ok(Ending::Play(end)),
        Err(_) => Err(Failure::Memory),
    }
}

/// Plays the choices against the driver's blocks over the design, and puts the line of each state. The lines that tell
/// the outcome are left.
pub fn run<F: Files, O: Sink>(
    alloc: Global,
    files: &mut F,
    out: &mut O,
    spec: &str,
    driver: &str,
    choices: &str,
) -> Result<Ending, Failure>
    ensures obeys { Obeys (Some (run_words spec.now driver.now choices.now))
        (files_data ⟦<F as Files>⟧ files.old) (files_data ⟦<F as Files>⟧ files.new)
        (sink_data ⟦<O as Sink>⟧ out.old) (sink_data ⟦<O as Sink>⟧ out.new) result }
    ensures counts { OnlyCounts (IsDue (F.contents files.old) (Some (run_words spec.now driver.now choices.now)))
        (files_data ⟦<F as Files>⟧ files.old) (files_data ⟦<F as Files>⟧ files.new) }
{
    let inputs = match load(alloc, files, spec, driver, choices) {
        Ok(inputs) => inputs,
        Err(stop) => return stop.outcome(),
    };
    let ended = play_inputs(alloc, &inputs, out);
    drop(inputs);
    ended
}
