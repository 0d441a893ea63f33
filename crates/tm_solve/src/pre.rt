//! What is asked of a step operator.
ghost use Rattle.std.specs.Prelude.{◌≡◌, ◌<◌, ◌&&◌, ◌||◌, true, not, IfOk};
ghost use Rattle.tm_solve.specs.Game.{Game, IsAbsorbing, IsMonotone};
ghost use Rattle.tm_solve.specs.Ids.{Follows, Ids, Is, IsExact};
ghost use Rattle.tm_solve.specs.Sets.{everywhere};

use std::alloc::AllocError;
use tm_dd::NodeId;

/// A step operator of a GR(1) game over sets of states, which are named by ids.
///
/// A state is a valid state of a design. Sets are compared at the valid states alone. Of known ids, equal ones are
/// exactly equal sets. No call changes the game, its designs or the side, and after each call, also one that is
/// refused, every known id means what it meant. An implementation may ask more of a known id, as that its set is a
/// union of cells: each id of a solution is a known one. Ids of which it does not ask so much are kept beside them.
pub trait Pre {
    /// The valid states, the numbers of goals and fairness conditions, and the step operator.
    ghost game: { Self → Game };

    /// Which ids are known, which are kept, what they mean, of which designs their sets are, and the side.
    ghost ids: { Self → Ids };

    /// The number of goals.
    fn goals(&self) -> u32
        ensures value { result ≡ (game self.now).goals }
        ensures exact { IsExact (game self.now).states (ids self.now) };

    /// The number of fairness conditions.
    fn fairs(&self) -> u32
        ensures value { result ≡ (game self.now).fairs }
        ensures exact { IsExact (game self.now).states (ids self.now) };

    /// The set of all valid states.
    fn whole(&self) -> NodeId
        ensures value { Is (game self.now).states (ids self.now) result everywhere }
        ensures exact { IsExact (game self.now).states (ids self.now) };

    /// The step operator, of three sets, a goal and a fairness condition. While a greatest fixpoint over `x` is
    /// sought, it is asked with the same `z` and `y` each time.
    fn part(
        &mut self,
        z: NodeId,
        y: NodeId,
        x: NodeId,
        goal: u32,
        fair: u32,
    ) -> Result<NodeId, AllocError>
        requires z_known { (ids self.old).knows z }
        requires y_known { (ids self.old).knows y }
        requires x_known { (ids self.old).knows x }
        requires goal { goal < (game self.old).goals }
        requires fair { fair < (game self.old).fairs }
        ensures value { let means = (ids self.old).means in IfOk result (λ id.
            Is (game self.old).states (ids self.new) id
            ((game self.old).part (means z) (means y) (means x) goal fair)) }
        ensures follows { Follows (game self.old) (ids self.old) (game self.new) (ids self.new) };

    /// The states in `a` or `b`.
    fn union(&mut self, a: NodeId, b: NodeId) -> Result<NodeId, AllocError>
        requires a_known { (ids self.old).knows a }
        requires b_known { (ids self.old).knows b }
        ensures value { IfOk result (λ id. Is (game self.old).states (ids self.new) id
            (λ s. (ids self.old).means a s || (ids self.old).means b s)) }
        ensures follows { Follows (game self.old) (ids self.old) (game self.new) (ids self.new) };

    /// The states in `a` and `b`.
    fn meet(&mut self, a: NodeId, b: NodeId) -> Result<NodeId, AllocError>
        requires a_known { (ids self.old).knows a }
        requires b_known { (ids self.old).knows b }
        ensures value { IfOk result (λ id. Is (game self.old).states (ids self.new) id
            (λ s. (ids self.old).means a s && (ids self.old).means b s)) }
        ensures follows { Follows (game self.old) (ids self.old) (game self.new) (ids self.new) };

    /// The states in `a` and not in `b`.
    fn without(&mut self, a: NodeId, b: NodeId) -> Result<NodeId, AllocError>
        requires a_known { (ids self.old).knows a }
        requires b_known { (ids self.old).knows b }
        ensures value { IfOk result (λ id. Is (game self.old).states (ids self.new) id
            (λ s. (ids self.old).means a s && not ((ids self.old).means b s))) }
        ensures follows { Follows (game self.old) (ids self.old) (game self.new) (ids self.new) };

    /// The operator grows with its sets.
    ghost monotone: { (p : Self) → IsMonotone (game p) };

    /// Where a set lies in `y`, it does not matter beside it.
    ghost absorbing: { (p : Self) → IsAbsorbing (game p) };
}
