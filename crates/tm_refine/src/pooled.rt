//! The symbolic game of a design, to be decided over the predicates of its pool.
ghost use Rattle.std.specs.Prelude.{◌≡◌, ◌⊎◌, Some};
ghost use Rattle.tm_dd.specs.declared.node.NodeId.{NodeId as Id};
ghost use Rattle.tm_refine.specs.Memory.{Remembers};
ghost use Rattle.tm_refine.specs.Pooled.{CanBeDecided, CanDecide};
ghost use Rattle.tm_solve_exact.specs.Exact.{IsStateSet};
ghost use Rattle.tm_syntax.specs.Design.{DesignTree};

use crate::memory::Memory;
use std::alloc::Global;
use tm_dd::NodeId;
use tm_solve_exact::Exact;

// No sets are forgotten below so many nodes.
pub(crate) const ROOM: u64 = 1_000_000;

/// The symbolic game of a design, to be decided over the predicates of its pool.
#[derive(Drop)]
pub struct Pooled {
    pub exact: Exact,
    pub(crate) alloc: Global,
    /// The first set that was cut since the last pair of states was sought.
    pub(crate) hint: Option<NodeId>,
    /// The parts of sets that were found last.
    pub(crate) memory: Memory,
    /// How many nodes the diagrams kept when other sets were last forgotten.
    pub(crate) kept: u64,
    pub ghost can: { CanBeDecided exact.game },
    pub ghost hint_known: { ∥ ((id : Id) → hint ≡ Some id → IsStateSet exact.game id) ∥₁ },
    pub ghost remembers: { Remembers exact.game memory },
}

impl Pooled {
    /// The game of a design that can be solved over it, and whose pool it has. It takes no memory.
    pub fn new(alloc: Global, exact: Exact) -> Pooled
        requires can { (d : DesignTree) × CanDecide d exact.game }
        ensures game { result.exact.game ≡ exact.game }
    {
        let kept = exact.game.manager().store().kept();
        Pooled {
            exact,
            alloc,
            hint: None,
            memory: Memory::new(alloc),
            kept,
        }
    }
}

// The set that was cut first: one that was noted before, or this one where its part is another.
pub(crate) fn noted(before: Option<NodeId>, set: NodeId, part: NodeId) -> Option<NodeId>
    ensures { (id : Id) → result ≡ Some id → (before ≡ Some id) ⊎ (set ≡ id) }
{
    if before.is_none() && part != set {
        return Some(set);
    }
    before
}
