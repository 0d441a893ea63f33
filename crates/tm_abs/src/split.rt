//! Two states of a cell that a set cuts.
ghost use Rattle.std.specs.Prelude.{◌≡◌, ◌<◌, ◌&&◌, ◌++◌, ◌∷◌, [], IfOk, List, MatchOption, length};
ghost use Rattle.tm_abs.specs.Cells.{AreCells};
ghost use Rattle.tm_abs.specs.Inner.Narrowed.{IsCutOff, IsSought};
ghost use Rattle.tm_abs.specs.Split.{IsCut, PartsAreOne};
ghost use Rattle.tm_abs.specs.Tracked.{AreInPool, HasPooled, IsPooled, tracked_of};
ghost use Rattle.tm_dd.specs.NodeId.{complement};
ghost use Rattle.tm_dd.specs.Table.{Knows, means};
ghost use Rattle.tm_dd.specs.declared.node.NodeId.{NodeId as Id};
ghost use Rattle.tm_ddops.specs.Manager.{IsFunction};
ghost use Rattle.tm_flat_pool.specs.Predicates.{Predicate};
ghost use Rattle.tm_game.specs.Game.{GameData, Grows, IsSet};
ghost use Rattle.tm_game.specs.Least.{test_of};
ghost use Rattle.tm_syntax.specs.Design.{DesignTree};

use crate::cells::Cells;
use crate::reading::predicate;
use std::alloc::{AllocError, Global};
use tm_dd::{FALSE, NodeId};
use tm_game::Game;
use tm_sem::state::State;

/// The states of a cell, and those of them that are sought.
#[derive(Drop)]
struct Narrowing {
    cell: NodeId,
    sought: NodeId,
}

impl Cells {
    /// Two valid states of one cell, the first in a set and the second not.
    ///
    /// `None` comes exactly where the lower and the upper part of the set are one. Every id keeps its meaning, also
    /// where memory runs out.
    pub fn split(
        &self,
        alloc: Global,
        game: &mut Game,
        c: NodeId,
    ) -> Result<Option<(State, State)>, AllocError>
        requires cells { AreCells game.old self.now }
        requires pool { HasPooled game.old }
        requires set { IsSet game.old c }

        ensures grows { Grows game.old game.new }
        ensures split { IfOk result (λ found. (d : DesignTree) → IsPooled d game.old → MatchOption found
            (PartsAreOne d (tracked_of d self.now.tracked.items) (test_of d game.old c))
            (λ pair. IsCut d (tracked_of d self.now.tracked.items) (test_of d game.old c) pair.0 pair.1)) }
    {
        let _order = game.order();
        let _valid = game.valid();
        let upper = self.upper(alloc, game, c)?;
        let cut = game.and(upper, c.complement())?;
        let _store = game.manager().store();
        if cut == FALSE {
            return Ok(None);
        }
        let pair = self.pair_with(game, c, cut)?;
        Ok(Some(pair))
    }

    // A state of a set with one of its cell that is cut off it.
    fn pair_with(
        &self,
        game: &mut Game,
        c: NodeId,
        cut: NodeId,
    ) -> Result<(State, State), AllocError>
        requires tracked { AreInPool game.old self.now.tracked.items }
        requires cut { ∥ ((d : DesignTree) × (g : GameData) × IsPooled d g × Grows g game.old × IsSet g c
            × IsCutOff d game.old (tracked_of d self.now.tracked.items) (test_of d g c) cut
            × IsSought d game.old game.old.diagrams.table cut [] game.old.valid cut) ∥₁ }

        ensures grows { Grows game.old game.new }
        ensures pair { IfOk result (λ pair. (d : DesignTree) (g : GameData) → IsPooled d g → Grows g game.old
            → IsSet g c → IsCutOff d game.old (tracked_of d self.now.tracked.items) (test_of d g c) cut
            → IsSought d game.old game.old.diagrams.table cut [] game.old.valid cut
            → IsCut d (tracked_of d self.now.tracked.items) (test_of d g c) pair.0 pair.1) }
    {
        let _order = game.order();
        let whole = Narrowing {
            cell: game.valid(),
            sought: cut,
        };
        let found = self.narrowed(game, whole)?;
        let Some(state) = game.least(found.sought)? else {
            unreachable!()
        };
        let inside = game.and(found.cell, c)?;
        match game.least(inside)? {
            Some(first) => Ok((first, state)),
            None => unreachable!(),
        }
    }

    // A cell: of each predicate in turn those states are kept at which it holds, if any are sought, and the others
    // otherwise.
    fn narrowed(&self, game: &mut Game, whole: Narrowing) -> Result<Narrowing, AllocError>
        requires tracked { AreInPool game.old self.now.tracked.items }
        requires narrowed { ∥ ((d : DesignTree) × (first : GameData) × (set : Id) × IsPooled d first
            × Grows first game.old
            × IsSought d first game.old.diagrams.table set [] whole.cell whole.sought) ∥₁ }

        ensures grows { Grows game.old game.new }
        ensures narrowed { IfOk result (λ n. (d : DesignTree) (first : GameData) (set : Id) → IsPooled d first
            → Grows first game.old
            → IsSought d first game.old.diagrams.table set [] whole.cell whole.sought
            → IsSought d first game.new.diagrams.table set (tracked_of d self.now.tracked.items) n.cell n.sought) }
    {
        let mut found = whole;
        for number in &self.tracked {
            found = narrow(game, *number, found)?;
        }
        Ok(found)
    }
}

// Narrows a cell by a predicate of the pool.
fn narrow(game: &mut Game, number: u32, found: Narrowing) -> Result<Narrowing, AllocError>
    requires number { number < length game.old.flat.pool }
    requires narrowed { ∥ ((d : DesignTree) × (first : GameData) × (set : Id) × (before : List Predicate)
        × IsPooled d first × Grows first game.old
        × IsSought d first game.old.diagrams.table set before found.cell found.sought) ∥₁ }

    ensures grows { Grows game.old game.new }
    ensures narrowed { IfOk result (λ n. (d : DesignTree) (first : GameData) (set : Id) (before : List Predicate)
        → IsPooled d first → Grows first game.old
        → IsSought d first game.old.diagrams.table set before found.cell found.sought
        → IsSought d first game.new.diagrams.table set (before ++ tracked_of d (number ∷ [])) n.cell n.sought) }
{
    let holds = predicate(game, number)?;
    let met = game.and(found.sought, holds)?;
    let _store = game.manager().store();
    if met == FALSE {
        narrow_off(game, found, holds)
    } else {
        narrow_to(game, found.cell, holds, met)
    }
}

// What is sought, with those of a cell at which a predicate holds.
fn narrow_to(
    game: &mut Game,
    cell: NodeId,
    holds: NodeId,
    sought: NodeId,
) -> Result<Narrowing, AllocError>
    requires cell { Knows game.old.diagrams.table cell }
    requires holds { Knows game.old.diagrams.table holds }
    ensures grows { Grows game.old game.new }
    ensures narrowed { IfOk result (λ n. (n.sought ≡ sought)
        × IsFunction game.new.diagrams.table n.cell
        (λ v. means game.new.diagrams.table cell v && means game.new.diagrams.table holds v)) }
{
    let cell = game.and(cell, holds)?;
    Ok(Narrowing { cell, sought })
}

// What was narrowed, with those of its cell at which a predicate does not hold.
fn narrow_off(game: &mut Game, found: Narrowing, holds: NodeId) -> Result<Narrowing, AllocError>
    requires cell { Knows game.old.diagrams.table found.cell }
    requires holds { Knows game.old.diagrams.table holds }
    ensures grows { Grows game.old game.new }
    ensures narrowed { IfOk result (λ n. (n.sought ≡ found.sought)
        × IsFunction game.new.diagrams.table n.cell
        (λ v. means game.new.diagrams.table found.cell v && means game.new.diagrams.table (complement holds) v)) }
{
    let cell = game.and(found.cell, holds.complement())?;
    Ok(Narrowing {
        cell,
        sought: found.sought,
    })
}
