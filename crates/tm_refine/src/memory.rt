//! The parts of sets over the cells of the tracked predicates, as they were found last.
ghost use Rattle.std.specs.Prelude.{Bool, IfOk, IsTrue, List, OnOk, ℕ};
ghost use Rattle.tm_game.specs.Game.{GameData};
ghost use Rattle.tm_refine.specs.Memory.{AreParts, IsOver, Remembers};
ghost use Rattle.tm_refine.specs.Pooled.{CanBeDecided, Keeps, pool_ids, tests_of};
ghost use Rattle.tm_refine.specs.Sided.{side_part};
ghost use Rattle.tm_solve.specs.Ids.{Is};
ghost use Rattle.tm_solve_exact.specs.Exact.{IsStateSet, exact_game, set_of};

use crate::parts::{cells_of, part_over};
use crate::sets::tell;
use std::alloc::{AllocError, Global};
use std::collections::HashMap;
use tm_abs::Cells;
use tm_dd::NodeId;
use tm_game::Game;

/// The upper or the lower parts of sets over some cells. A solution asks for those of the same sets again and again.
#[derive(Drop)]
pub struct Memory {
    pub(crate) cells: Option<Cells>,
    pub(crate) upper: bool,
    pub(crate) parts: HashMap<NodeId, NodeId>,
}

impl Memory {
    /// A memory of no parts.
    pub(crate) fn new(alloc: Global) -> Memory
        ensures { (g : GameData) → AreParts g result }
    {
        Memory {
            cells: None,
            upper: false,
            parts: HashMap::new(alloc),
        }
    }

    // No parts yet of a side over the cells of such predicates.
    fn over(
        alloc: Global,
        game: &mut Game,
        tracked: &[u32],
        upper: bool,
    ) -> Result<Memory, AllocError>
        requires can { CanBeDecided game.old }
        ensures parts { IfOk result (AreParts game.new) }
        ensures over { IfOk result (λ m. IsOver game.new m tracked.now upper) }
        ensures kept { Keeps game.old game.new }
    {
        let cells = cells_of(alloc, game, tracked)?;
        Ok(Memory {
            cells: Some(cells),
            upper,
            parts: HashMap::new(alloc),
        })
    }

    // Turns to a side over the cells of such predicates. Parts over other cells, or of the other side, are forgotten.
    fn turn_to(
        &mut self,
        alloc: Global,
        game: &mut Game,
        tracked: &[u32],
        upper: bool,
    ) -> Result<(), AllocError>
        requires can { CanBeDecided game.old }
        requires remembers { Remembers game.old self.old }
        ensures over { OnOk result (IsOver game.new self.new tracked.now upper) }
        ensures kept { Keeps game.old game.new }
        ensures remembers { Remembers game.new self.new }
    {
        if !self.is_of(tracked, upper) {
            *self = Memory::over(alloc, game, tracked, upper)?;
            return Ok(());
        }
        tell(game);
        Ok(())
    }

    // Whether the parts are those of this side over the cells of such predicates.
    fn is_of(&self, tracked: &[u32], upper: bool) -> bool
        ensures { IsTrue result → (g : GameData) → IsOver g self.now tracked.now upper }
    {
        if self.upper != upper {
            return false;
        }
        match &self.cells {
            Some(cells) => cells.tracked.as_slice() == tracked,
            None => false,
        }
    }

    // The part of a set, on the side that the memory is of.
    fn part(&mut self, alloc: Global, game: &mut Game, set: NodeId) -> Result<NodeId, AllocError>
        requires can { CanBeDecided game.old }
        requires set { IsStateSet game.old set }
        requires over { (ks : List ℕ) × (upper : Bool) × IsOver game.old self.old ks upper }
        requires remembers { Remembers game.old self.old }
        ensures value { IfOk result (λ id. (ks : List ℕ) (upper : Bool) → IsOver game.old self.old ks upper
            → Is (exact_game game.old).states (pool_ids game.new) id
            (side_part upper (exact_game game.old).states (tests_of game.old ks) (set_of game.old set))) }
        ensures kept { Keeps game.old game.new }
        ensures remembers { Remembers game.new self.new }
    {
        if let Some(known) = self.parts.get(&set).copied() {
            tell(game);
            return Ok(known);
        }
        let part = self.part_anew(alloc, game, set)?;
        self.parts.insert(set, part)?;
        Ok(part)
    }

    // The part of a set, which is not remembered.
    fn part_anew(&self, alloc: Global, game: &mut Game, set: NodeId) -> Result<NodeId, AllocError>
        requires can { CanBeDecided game.old }
        requires set { IsStateSet game.old set }
        requires over { (ks : List ℕ) × (upper : Bool) × IsOver game.old self.now ks upper }
        requires remembers { Remembers game.old self.now }
        ensures value { IfOk result (λ id. (ks : List ℕ) (upper : Bool) → IsOver game.old self.now ks upper
            → Is (exact_game game.old).states (pool_ids game.new) id
            (side_part upper (exact_game game.old).states (tests_of game.old ks) (set_of game.old set))) }
        ensures kept { Keeps game.old game.new }
    {
        match &self.cells {
            Some(cells) => part_over(alloc, game, cells, self.upper, set),
            None => unreachable!(),
        }
    }
}

// The upper or the lower part of a set over the cells of tracked predicates, which is remembered.
pub(crate) fn remembered_side(
    alloc: Global,
    game: &mut Game,
    memory: &mut Memory,
    tracked: &[u32],
    upper: bool,
    set: NodeId,
) -> Result<NodeId, AllocError>
    requires can { CanBeDecided game.old }
    requires set { IsStateSet game.old set }
    requires remembers { Remembers game.old memory.old }
    ensures value { IfOk result (λ id. Is (exact_game game.old).states (pool_ids game.new) id
        (side_part upper (exact_game game.old).states (tests_of game.old tracked.now) (set_of game.old set))) }
    ensures kept { Keeps game.old game.new }
    ensures remembers { Remembers game.new memory.new }
{
    memory.turn_to(alloc, game, tracked, upper)?;
    memory.part(alloc, game, set)
}
