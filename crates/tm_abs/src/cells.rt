//! The lower and the upper part of a set of states (de Alfaro and Roy 2007).
ghost use Rattle.std.specs.Prelude.{◌≡◌, ◌&&◌, IfOk};
ghost use Rattle.tm_abs.specs.Cells.{AreCells};
ghost use Rattle.tm_abs.specs.Tracked.{AreInPool, HasPooled, IsPooled, tracked_of};
ghost use Rattle.tm_dd.specs.Table.{means};
ghost use Rattle.tm_ddops.specs.Manager.{IsFunction};
ghost use Rattle.tm_flat_pool.specs.Cells.{IsInLower, IsInUpper};
ghost use Rattle.tm_game.specs.Game.{Grows, IsOf, IsSet, IsStates};
ghost use Rattle.tm_game.specs.Least.{test_of};
ghost use Rattle.tm_game.specs.Start.{state_bits_in};
ghost use Rattle.tm_game_bits.specs.Order.{IsOrder};
ghost use Rattle.tm_syntax.specs.Design.{DesignTree};

use crate::atoms::Tracked;
use crate::reading::read_tracked;
use crate::upper::upper_part;
use std::alloc::{AllocError, Global};
use tm_dd::NodeId;
use tm_game::Game;

/// The cells of some predicates: a cell is the set of valid states at which these have the same values. They are those
/// of the game that they were made in as long as its ids keep their meaning.
#[derive(Drop)]
pub struct Cells {
    /// The numbers of the tracked predicates in the pool of the game's design.
    pub tracked: Vec<u32>,
    /// Their diagrams, as they were read.
    pub(crate) read: Tracked,
}

impl Cells {
    /// The cells of the predicates of these numbers in the pool of a game. Their diagrams are read here, for all parts.
    ///
    /// Every id keeps its meaning, also where memory runs out.
    pub fn new(alloc: Global, game: &mut Game, tracked: Vec<u32>) -> Result<Cells, AllocError>
        requires tracked { AreInPool game.old tracked.items }
        requires pool { HasPooled game.old }

        ensures grows { Grows game.old game.new }
        ensures tracked { IfOk result (λ c. c.tracked.items ≡ tracked.items) }
        ensures cells { IfOk result (AreCells game.new) }
    {
        let read = read_tracked(alloc, game, &tracked)?;
        Ok(Cells { tracked, read })
    }

    /// The states of the cells that lie in a set.
    ///
    /// Every id keeps its meaning, also where memory runs out.
    pub fn lower(&self, alloc: Global, game: &mut Game, c: NodeId) -> Result<NodeId, AllocError>
        requires cells { AreCells game.old self.now }
        requires pool { HasPooled game.old }
        requires set { IsSet game.old c }

        ensures grows { Grows game.old game.new }
        ensures part { IfOk result (λ id. (d : DesignTree) → IsPooled d game.old
            → IsStates d game.old.order game.new.diagrams.table
            (IsInLower d (tracked_of d self.now.tracked.items) (test_of d game.old c)) id) }
    {
        let outside = valid_part(game, c.complement())?;
        let left = upper_part(alloc, game, self, outside)?;
        valid_part(game, left.complement())
    }

    /// The states of the cells that meet a set.
    ///
    /// Every id keeps its meaning, also where memory runs out.
    pub fn upper(&self, alloc: Global, game: &mut Game, c: NodeId) -> Result<NodeId, AllocError>
        requires cells { AreCells game.old self.now }
        requires pool { HasPooled game.old }
        requires set { IsSet game.old c }

        ensures grows { Grows game.old game.new }
        ensures part { IfOk result (λ id. (d : DesignTree) → IsPooled d game.old
            → IsStates d game.old.order game.new.diagrams.table
            (IsInUpper d (tracked_of d self.now.tracked.items) (test_of d game.old c)) id) }
    {
        let inside = valid_part(game, c)?;
        upper_part(alloc, game, self, inside)
    }
}

// Those of some states that are valid.
fn valid_part(game: &mut Game, set: NodeId) -> Result<NodeId, AllocError>
    requires pool { HasPooled game.old }
    requires set { IsSet game.old set }
    ensures grows { Grows game.old game.new }
    ensures order { IsOrder (state_bits_in game.old.flat) game.old.order }
    ensures valid { (d : DesignTree) → IsOf d game.old
        → IsStates d game.old.order game.old.diagrams.table (λ s. Unit {0}) game.old.valid }
    ensures part { IfOk result (λ id. IsFunction game.new.diagrams.table id (λ v.
        means game.new.diagrams.table game.old.valid v && means game.new.diagrams.table set v)) }
{
    let _order = game.order();
    let valid = game.valid();
    game.and(valid, set)
}
