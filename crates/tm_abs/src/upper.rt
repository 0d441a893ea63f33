//! The upper part of a set of valid states.
ghost use Rattle.std.specs.Prelude.{◌≡◌, ◌<◌, ◌&&◌, All, Bool, IfOk, List, length, map, not, true};
ghost use Rattle.tm_abs.specs.Cells.{AreCells};
ghost use Rattle.tm_abs.specs.Inner.Atoms.{AreApart, IsAtom};
ghost use Rattle.tm_abs.specs.Inner.Marks.{AreListed};
ghost use Rattle.tm_abs.specs.Inner.Quantified.{IsPutTo, IsQuantified, IsReached};
ghost use Rattle.tm_abs.specs.Inner.Turns.{AreTurnsOf};
ghost use Rattle.tm_abs.specs.Tracked.{HasPooled, IsPooled, tracked_of};
ghost use Rattle.tm_abs.specs.declared.atoms.Atom.{Atom as AtomData};
ghost use Rattle.tm_dd.specs.Table.{Knows, means};
ghost use Rattle.tm_ddops.specs.Connective.{xor};
ghost use Rattle.tm_ddops.specs.Manager.{IsFunction};
ghost use Rattle.tm_flat_pool.specs.Cells.{IsInUpper};
ghost use Rattle.tm_game.specs.Game.{Grows, IsSet, IsStates};
ghost use Rattle.tm_game.specs.Least.{test_of};
ghost use Rattle.tm_game_bits.specs.Functions.{Assignment};
ghost use Rattle.tm_syntax.specs.Design.{DesignTree};

use crate::atoms::{Atom, copied};
use crate::cells::Cells;
use crate::joined::{Joined, join};
use crate::reading::levels_read;
use crate::turns::{Turn, Turns, order_turns};
use std::alloc::{AllocError, Global};
use tm_dd::{FALSE, NodeId, TRUE};
use tm_game::Game;

// The states whose cell meets a set of valid states.
pub(crate) fn upper_part(
    alloc: Global,
    game: &mut Game,
    cells: &Cells,
    set: NodeId,
) -> Result<NodeId, AllocError>
    requires cells { AreCells game.old cells.now }
    requires pool { HasPooled game.old }
    requires set { IsSet game.old set }
    requires valid { (v : Assignment) → means game.old.diagrams.table set v ≡ true
        → means game.old.diagrams.table game.old.valid v ≡ true }

    ensures grows { Grows game.old game.new }
    ensures part { IfOk result (λ id. (d : DesignTree) → IsPooled d game.old
        → IsStates d game.old.order game.new.diagrams.table
        (IsInUpper d (tracked_of d cells.now.tracked.items) (test_of d game.old set)) id) }
{
    let valid = game.valid();
    let _order = game.order();
    let reads = levels_read(game, set)?;
    let mut waiting = copied(alloc, &cells.read.atoms)?;
    let joined = join(alloc, &cells.read.free, &reads, &mut waiting)?;
    if joined.gone.levels.is_empty() {
        return Ok(set);
    }
    let reached = reached(alloc, game, &joined, set)?;
    game.and(valid, reached)
}

// Where a set is true for other values of the levels that are quantified, at which the joined atoms have the same
// values.
fn reached(
    alloc: Global,
    game: &mut Game,
    joined: &Joined,
    set: NodeId,
) -> Result<NodeId, AllocError>
    requires set { IsSet game.old set }
    requires atoms { All (IsAtom (length game.old.order) game.old.diagrams.table) joined.now.atoms.items }
    requires apart { AreApart game.old.diagrams.table joined.now.atoms.items }
    requires count { length joined.now.gone.marks.items ≡ length game.old.order }
    requires listed { AreListed joined.now.gone.marks.items joined.now.gone.levels.items }

    ensures grows { Grows game.old game.new }
    ensures reached { IfOk result (IsReached game.new.diagrams.table joined.now.gone.marks.items joined.now.atoms.items
        (length game.old.order) (means game.old.diagrams.table set)) }
{
    let turns = order_turns(alloc, &joined.gone, &joined.atoms)?;
    let quantified = quantified(game, turns, set)?;
    let parts = atom_parts(alloc, &joined.atoms)?;
    game.compose(quantified, &parts)
}

// Where a set is true, and each atom's level has the atom's value, for some values of the levels that are quantified.
fn quantified(game: &mut Game, turns: Turns, set: NodeId) -> Result<NodeId, AllocError>
    requires known { Knows game.old.diagrams.table set }
    requires turns { (gone : List Bool) × (atoms : List AtomData)
        × AreTurnsOf gone atoms turns.unread.items turns.turns.items
        × All (IsAtom (length gone) game.old.diagrams.table) atoms }

    ensures grows { Grows game.old game.new }
    ensures quantified { IfOk result (λ id. (gone : List Bool) (atoms : List AtomData)
        → AreTurnsOf gone atoms turns.unread.items turns.turns.items
        → All (IsAtom (length gone) game.old.diagrams.table) atoms
        → IsQuantified game.new.diagrams.table gone atoms (means game.old.diagrams.table set) id) }
{
    let mut waiting = turns.turns;
    let mut left = game.exists(set, &turns.unread)?;
    while let Some(turn) = waiting.pop() {
        left = take_turn(game, &turn, left)?;
    }
    Ok(left)
}

// Puts an atom to a set, and quantifies the levels that end with it.
fn take_turn(game: &mut Game, turn: &Turn, set: NodeId) -> Result<NodeId, AllocError>
    requires level { turn.now.level < game.old.diagrams.table.levels }
    requires set { Knows game.old.diagrams.table set }
    requires holds { Knows game.old.diagrams.table turn.now.holds }

    ensures grows { Grows game.old game.new }
    ensures taken { IfOk result (IsPutTo game.new.diagrams.table turn.now.level
        (means game.old.diagrams.table turn.now.holds) turn.now.ends.items (means game.old.diagrams.table set)) }
{
    let related = related(game, set, turn.level, turn.holds)?;
    game.exists(related, &turn.ends)
}

// Where a set is true and a level has the value of an atom.
fn related(game: &mut Game, set: NodeId, level: u32, holds: NodeId) -> Result<NodeId, AllocError>
    requires level { level < game.old.diagrams.table.levels }
    requires set { Knows game.old.diagrams.table set }
    requires holds { Knows game.old.diagrams.table holds }

    ensures grows { Grows game.old game.new }
    ensures related { IfOk result (λ id. IsFunction game.new.diagrams.table id (λ v.
        means game.old.diagrams.table set v && not (xor (v level) (means game.old.diagrams.table holds v)))) }
{
    let bit = game.make(level, FALSE, TRUE)?;
    let differs = game.xor(bit, holds)?;
    game.and(set, differs.complement())
}

// The atoms, to be put back in the places of their levels.
fn atom_parts(alloc: Global, atoms: &[Atom]) -> Result<Vec<(u32, NodeId)>, AllocError>
    ensures { IfOk result (λ parts. parts.items ≡ map (λ (a : AtomData). (a.level, a.holds)) atoms.now) }
{
    let mut parts = Vec::new(alloc);
    for atom in atoms {
        parts.push((atom.level, atom.holds))?;
    }
    Ok(parts)
}
