//! Playing choices over a design, by its tables.
ghost use Rattle.std.specs.Prelude.{◌≡◌, ◌≤◌, ◌++◌, ℕ, List, IsTrue, IsErrOf, OnErr, IfOk};
ghost use Rattle.tm_base.specs.Count.{Rose};
ghost use Rattle.tm_base.specs.Sink.{AppendsPrefix};
ghost use Rattle.tm_syntax.specs.Design.View.{design_tree};
ghost use Rattle.tm_cir.specs.View.{trees_of};
ghost use Rattle.tm_cir.specs.Fit.{FitBlocks};
ghost use Rattle.tm_play.specs.Playable.{IsPlayable};
ghost use Rattle.tm_play.specs.Played.{Halts, IsPart};

use crate::ending::{PlayError, PlayHalt};
use crate::input::script::Script;
use crate::play::turns::play;
use std::alloc::Global;
use tm_base::Sink;
use tm_cir::Blocks;
use tm_plain::{Machine, Tables};
use tm_syntax::design::Design;

/// Plays choices against blocks by the tables of a design.
fn play_by_tables<O: Sink>(
    alloc: Global,
    tables: &Tables,
    blocks: &Blocks,
    script: &Script,
    out: &mut O,
) -> Result<PlayHalt, PlayError>
    requires playable { IsPlayable (design_tree tables.now) }
    requires blocks { FitBlocks (design_tree tables.now) (trees_of blocks.now) }
    ensures halted { IfOk result (λ halt. (text : List ℕ)
        × Halts (design_tree tables.now) (trees_of blocks.now) script.now text halt
        × (IsTrue O.tells → O.written out.new ≡ O.written out.old ++ text)) }
    ensures cut { OnErr result ((text : List ℕ)
        × IsPart (design_tree tables.now) (trees_of blocks.now) script.now text
        × (IsTrue O.tells → AppendsPrefix text (O.written out.old) (O.written out.new))) }
    ensures failed { IsErrOf result PlayError.Failed → Rose O.last_count (O.faults out.old) (O.faults out.new) }
    ensures no_fewer_faults { O.faults out.old ≤ O.faults out.new }
{
    let Ok(machine) = Machine::new(alloc, tables) else {
        return Err(PlayError::Memory);
    };
    play(alloc, &machine, blocks, script, out)
}

/// Plays choices against a driver's blocks from the start line on, and puts the line of each state. It answers how far
/// the play goes, without the line that tells its end; or `Err` where the output failed or memory ran out.
///
/// `Halts` says how far the play goes: to its end, or to an answer of the driver's without an outcome, where it takes a
/// game to tell whether the answer is allowed, and with that the end. `IsPart` says what may have been put before an
/// error; `ends_are_determined` that a text of choices has one end.
pub fn play_script<O: Sink>(
    alloc: Global,
    design: &Design,
    blocks: &Blocks,
    script: &Script,
    out: &mut O,
) -> Result<PlayHalt, PlayError>
    requires playable { IsPlayable (design_tree design.now) }
    requires blocks { FitBlocks (design_tree design.now) (trees_of blocks.now) }
    ensures halted { IfOk result (λ halt. (text : List ℕ)
        × Halts (design_tree design.now) (trees_of blocks.now) script.now text halt
        × (IsTrue O.tells → O.written out.new ≡ O.written out.old ++ text)) }

    // What was put before an error is a first part of the lines of the play so far.
    ensures cut { OnErr result ((text : List ℕ)
        × IsPart (design_tree design.now) (trees_of blocks.now) script.now text
        × (IsTrue O.tells → AppendsPrefix text (O.written out.old) (O.written out.new))) }
    ensures failed { IsErrOf result PlayError.Failed → Rose O.last_count (O.faults out.old) (O.faults out.new) }
    ensures no_fewer_faults { O.faults out.old ≤ O.faults out.new }
{
    let tables = match Tables::new(alloc, design) {
        Ok(tables) => tables,
        Err(_) => return Err(PlayError::Memory),
    };
    let halted = play_by_tables(alloc, &tables, blocks, script, out);
    drop(tables);
    halted
}
