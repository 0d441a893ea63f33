//! A game of four states over a store of two levels.
ghost use Rattle.std.specs.Prelude.{◌≡◌, ◌&&◌, ◌||◌, ℕ, Bool, not, IfOk};
ghost use Rattle.tm_dd.specs.NodeId.{IsConstant};
ghost use Rattle.tm_dd.specs.Reduced.{RanksRise};
ghost use Rattle.tm_dd.specs.Table.{Knows, means, Table};
ghost use Rattle.tm_solve.specs.Ids.{Follows, Is};
ghost use Rattle.test_game.specs.Example.{
  example_absorbing,
  example_game,
  example_ids,
  example_monotone,
  four,
  four_states,
  pick,
  state,
};
ghost use Rattle.tm_solve.specs.Operator.{part_of};

use std::alloc::{AllocError, Global};
use tm_base::Steps;
use tm_dd::{FALSE, NodeId, Store, TRUE};
use tm_solve::Pre;

// Whether each of the four states is in a set.
#[derive(Clone, Copy, Drop)]
struct Four {
    a: bool,
    b: bool,
    c: bool,
    d: bool,
}

// Whether both are so.
fn and(left: bool, right: bool) -> bool
    ensures { result ≡ (left && right) }
{
    left && right
}

// Whether one is so, or the other.
fn or(left: bool, right: bool) -> bool
    ensures { result ≡ (left || right) }
{
    left || right
}

// Whether the first is so, and not the second.
fn and_not(left: bool, right: bool) -> bool
    ensures { result ≡ (left && not right) }
{
    left && !right
}

// The step operator of the example, of sets, a goal and a condition.
fn parts(z: Four, y: Four, x: Four, goal: u32, fair: u32) -> Four
    ensures a { result.a ≡ part_of four (pick z.a z.b z.c z.d) (pick y.a y.b y.c y.d) (pick x.a x.b x.c x.d) goal fair
        (state 0 0) }
    ensures b { result.b ≡ part_of four (pick z.a z.b z.c z.d) (pick y.a y.b y.c y.d) (pick x.a x.b x.c x.d) goal fair
        (state 0 1) }
    ensures c { result.c ≡ part_of four (pick z.a z.b z.c z.d) (pick y.a y.b y.c y.d) (pick x.a x.b x.c x.d) goal fair
        (state 1 0) }
    ensures d { result.d ≡ part_of four (pick z.a z.b z.c z.d) (pick y.a y.b y.c y.d) (pick x.a x.b x.c x.d) goal fair
        (state 1 1) }
{
    let goal_1 = goal != 0;
    let fair_1 = fair != 0;
    Four {
        a: part_at(goal_1, and(z.a, z.b), and(y.a, y.b), fair_1, and(x.a, x.b)),
        b: part_at(!goal_1, z.a, y.a, true, x.a),
        c: part_at(true, z.d, y.d, !fair_1, x.d),
        d: part_at(false, z.d, y.d, true, x.d),
    }
}

// Whether a state is in the step operator's set.
fn part_at(goal: bool, z: bool, y: bool, fair: bool, x: bool) -> bool
    ensures { result ≡ ((goal && z) || y || (not fair && x)) }
{
    (goal && z) || y || (!fair && x)
}

// The states in one set or another.
fn either(left: Four, right: Four) -> Four
    ensures a { result.a ≡ (left.a || right.a) }
    ensures b { result.b ≡ (left.b || right.b) }
    ensures c { result.c ≡ (left.c || right.c) }
    ensures d { result.d ≡ (left.d || right.d) }
{
    Four {
        a: or(left.a, right.a),
        b: or(left.b, right.b),
        c: or(left.c, right.c),
        d: or(left.d, right.d),
    }
}

// The states in two sets.
fn both(left: Four, right: Four) -> Four
    ensures a { result.a ≡ (left.a && right.a) }
    ensures b { result.b ≡ (left.b && right.b) }
    ensures c { result.c ≡ (left.c && right.c) }
    ensures d { result.d ≡ (left.d && right.d) }
{
    Four {
        a: and(left.a, right.a),
        b: and(left.b, right.b),
        c: and(left.c, right.c),
        d: and(left.d, right.d),
    }
}

// The states in the first set and not in the second.
fn rest(left: Four, right: Four) -> Four
    ensures a { result.a ≡ (left.a && not right.a) }
    ensures b { result.b ≡ (left.b && not right.b) }
    ensures c { result.c ≡ (left.c && not right.c) }
    ensures d { result.d ≡ (left.d && not right.d) }
{
    Four {
        a: and_not(left.a, right.a),
        b: and_not(left.b, right.b),
        c: and_not(left.c, right.c),
        d: and_not(left.d, right.d),
    }
}

// The constant function of this value.
fn constant(value: bool) -> NodeId
    ensures known { (t : Table) → Knows t result }
    ensures constant { IsConstant result }
    ensures meaning { (t : Table) (v : ℕ → Bool) → means t result v ≡ value }
{
    if value { TRUE } else { FALSE }
}

/// The game over a store of two levels.
#[derive(Drop)]
pub struct Example {
    store: Store,
    ghost two: { store.levels ≡ 2 },
    ghost rise: { RanksRise 2 store },
}

impl Example {
    /// The game, over a store without a node.
    pub fn new(alloc: Global) -> Result<Example, AllocError> {
        Ok(Example {
            store: Store::new(alloc, 2)?,
        })
    }

    // The states of a set.
    fn read(&self, id: NodeId) -> Four
        requires { Knows self.now.store id }
        ensures a { result.a ≡ (example_ids self.now.store).means id (state 0 0) }
        ensures b { result.b ≡ (example_ids self.now.store).means id (state 0 1) }
        ensures c { result.c ≡ (example_ids self.now.store).means id (state 1 0) }
        ensures d { result.d ≡ (example_ids self.now.store).means id (state 1 1) }
    {
        Four {
            a: self.store.eval(id, &[false, false]),
            b: self.store.eval(id, &[false, true]),
            c: self.store.eval(id, &[true, false]),
            d: self.store.eval(id, &[true, true]),
        }
    }

    // The set of some states.
    fn write(&mut self, set: Four) -> Result<NodeId, AllocError>
        ensures value { IfOk result (λ id.
            Is four_states (example_ids self.new.store) id (pick set.a set.b set.c set.d)) }
        ensures follows { Follows example_game (example_ids self.old.store) example_game (example_ids self.new.store) }
    {
        let mut steps = Steps::new(());
        let lo = self
            .store
            .make(1, constant(set.a), constant(set.b), &mut steps)?;
        let hi = self
            .store
            .make(1, constant(set.c), constant(set.d), &mut steps)?;
        self.store.make(0, lo, hi, &mut steps)
    }

    /// The states of a set, as the sum of their powers of two, and 16 where the store does not know it.
    pub fn sum(&self, id: NodeId) -> u32 {
        if !self.store.knows(id) {
            return 16;
        }
        let set = self.read(id);
        u32::from(set.a) + 2 * u32::from(set.b) + 4 * u32::from(set.c) + 8 * u32::from(set.d)
    }
}

impl Pre for Example {
    ghost game = { λ e. example_game };

    ghost ids = { λ e. example_ids e.store };

    fn goals(&self) -> u32 {
        let _levels = self.store.levels();
        2
    }

    fn fairs(&self) -> u32 {
        let _levels = self.store.levels();
        2
    }

    fn whole(&self) -> NodeId {
        let _levels = self.store.levels();
        constant(true)
    }

    fn part(
        &mut self,
        z: NodeId,
        y: NodeId,
        x: NodeId,
        goal: u32,
        fair: u32,
    ) -> Result<NodeId, AllocError> {
        let zs = self.read(z);
        let ys = self.read(y);
        let xs = self.read(x);
        self.write(parts(zs, ys, xs, goal, fair))
    }

    fn union(&mut self, a: NodeId, b: NodeId) -> Result<NodeId, AllocError> {
        let left = self.read(a);
        let right = self.read(b);
        self.write(either(left, right))
    }

    fn meet(&mut self, a: NodeId, b: NodeId) -> Result<NodeId, AllocError> {
        let left = self.read(a);
        let right = self.read(b);
        self.write(both(left, right))
    }

    fn without(&mut self, a: NodeId, b: NodeId) -> Result<NodeId, AllocError> {
        let left = self.read(a);
        let right = self.read(b);
        self.write(rest(left, right))
    }

    ghost monotone = { λ e. example_monotone };

    ghost absorbing = { λ e. example_absorbing };
}
