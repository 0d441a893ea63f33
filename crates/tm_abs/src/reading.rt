//! The tracked predicates as diagrams. The game remembers the diagram of each.
ghost use Rattle.std.specs.Prelude.{◌≡◌, ◌+◌, ◌<◌, ◌++◌, ◌∷◌, [], All, IfOk, List, MatchOption, OnOk, length};
ghost use Rattle.tm_abs.specs.Inner.Atoms.{AreTracked, IsAtom};
ghost use Rattle.tm_abs.specs.Inner.Reading.{AreRead, IsPredicate, bit_at};
ghost use Rattle.tm_abs.specs.Tracked.{AreInPool, HasPooled, IsPooled, tracked_of};
ghost use Rattle.tm_dd.specs.Table.{Knows, means};
ghost use Rattle.tm_flat_pool.specs.Predicates.{Predicate};
ghost use Rattle.tm_game.specs.Game.{GameData, Grows};
ghost use Rattle.tm_game.specs.Start.{state_bits_in};
ghost use Rattle.tm_game_bits.specs.Order.{IsOrder};
ghost use Rattle.tm_syntax.specs.Design.{DesignTree};

use crate::atoms::{Atom, Tracked};
use crate::marks::equal_marks;
use std::alloc::{AllocError, Global};
use tm_dd::{FALSE, NodeId, TRUE};
use tm_game::Game;

// The tracked predicates of a game.
pub(crate) fn read_tracked(
    alloc: Global,
    game: &mut Game,
    numbers: &[u32],
) -> Result<Tracked, AllocError>
    requires tracked { AreInPool game.old numbers.now }
    requires pool { HasPooled game.old }

    ensures grows { Grows game.old game.new }
    ensures count { IfOk result (λ t. length t.free.items ≡ length game.old.order) }
    ensures atoms { IfOk result (λ t. All (IsAtom (length game.old.order) game.new.diagrams.table) t.atoms.items) }
    ensures tracked { IfOk result (λ t. (h : GameData) (d : DesignTree) → Grows game.new h → IsPooled d h
        → AreTracked d h h.diagrams.table (tracked_of d numbers.now) t.free.items t.atoms.items) }
{
    let mut free = equal_marks(alloc, true, game.order().len())?;
    let mut atoms = Vec::new(alloc);
    for number in numbers {
        read_predicate(game, *number, &mut free, &mut atoms)?;
    }
    Ok(Tracked { free, atoms })
}

// Takes a predicate: its bit from the free ones, if it is one, and otherwise puts it to the atoms.
fn read_predicate(
    game: &mut Game,
    number: u32,
    free: &mut Vec<bool>,
    atoms: &mut Vec<Atom>,
) -> Result<(), AllocError>
    requires number { number < length game.old.flat.pool }
    requires pool { HasPooled game.old }
    requires count { length free.old.items ≡ length game.old.order }

    ensures grows { Grows game.old game.new }
    ensures count { length free.new.items ≡ length free.old.items }
    ensures atoms { OnOk result
        (All (IsAtom (length game.old.order) game.old.diagrams.table) atoms.old.items
        → All (IsAtom (length game.old.order) game.new.diagrams.table) atoms.new.items) }
    ensures tracked { OnOk result ((h : GameData) (d : DesignTree) (before : List Predicate) → Grows game.new h
        → IsPooled d h → AreTracked d h h.diagrams.table before free.old.items atoms.old.items
        → AreTracked d h h.diagrams.table (before ++ tracked_of d (number ∷ [])) free.new.items atoms.new.items) }
{
    let holds = predicate(game, number)?;
    if let Some(level) = bit_level(game, holds) {
        free[level as usize] = false;
        return Ok(());
    }
    let atom = atom_of(game, number, holds)?;
    atoms.push(atom)?;
    Ok(())
}

// Where a predicate of the pool holds.
pub(crate) fn predicate(game: &mut Game, number: u32) -> Result<NodeId, AllocError>
    requires number { number < length game.old.flat.pool }
    requires pool { HasPooled game.old }

    ensures grows { Grows game.old game.new }
    ensures order { IsOrder (state_bits_in game.old.flat) game.old.order }
    ensures predicate { IfOk result (λ id. (d : DesignTree) → IsPooled d game.old
        → IsPredicate d game.old game.new.diagrams.table number id) }
    ensures always { IfOk result (λ id. (h : GameData) (d : DesignTree) → Grows game.new h → IsPooled d h
        → IsPredicate d h h.diagrams.table number id) }
{
    let _order = game.order();
    let term = game.flat().pool[number as usize];
    let bits = game.bits(term)?;
    Ok(bits[0])
}

// The level of a state whose bit an id is, if it is one.
fn bit_level(game: &Game, id: NodeId) -> Option<u32>
    requires { Knows game.now.diagrams.table id }
    ensures { MatchOption result Unit (λ level. (level < length game.now.order)
        × (means game.now.diagrams.table id ≡ bit_at level)) }
{
    if id.is_constant() {
        return None;
    }
    let manager = game.manager();
    let node = manager.store().node(id);
    if (node.level as usize) < game.order().len() && node.lo == FALSE && node.hi == TRUE {
        return Some(node.level);
    }
    None
}

// A predicate of the pool as an atom, from where it holds. The last levels are those of the predicates.
fn atom_of(game: &Game, number: u32, holds: NodeId) -> Result<Atom, AllocError>
    requires number { number < length game.now.flat.pool }
    requires pool { ∥ ((d : DesignTree) × (first : GameData) × IsPooled d first × Grows first game.now
        × IsPredicate d first game.now.diagrams.table number holds) ∥₁ }

    ensures holds { IfOk result (λ a. a.holds ≡ holds) }
    ensures atom { IfOk result (IsAtom (length game.now.order) game.now.diagrams.table) }
    ensures numbered { IfOk result (λ a. a.level + 1 + number ≡ game.now.diagrams.table.levels) }
{
    let reads = levels_read(game, holds)?;
    let _order = game.order();
    Ok(Atom {
        level: game.manager().store().levels() - 1 - number,
        holds,
        reads,
    })
}

// The levels that a diagram reads.
pub(crate) fn levels_read(game: &Game, id: NodeId) -> Result<Vec<u32>, AllocError>
    requires { Knows game.now.diagrams.table id }
    ensures { IfOk result (λ levels. AreRead game.now.diagrams.table id levels.items) }
{
    let manager = game.manager();
    let _store = manager.store();
    manager.support(id)
}
