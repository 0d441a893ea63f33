//! What blocks are chosen from.
ghost use Rattle.std.specs.Prelude.{◌<◌, ◌&&◌, not, IfOk, if◌then◌else◌};
ghost use Rattle.tm_sem.specs.Certificates.{nowhere};
ghost use Rattle.tm_solve.specs.Ids.{Is, IsExact};
ghost use Rattle.tm_strat_drafts.specs.Growth.{at_goal, Follows, Setting};
ghost use Rattle.tm_strat_drafts.specs.Moves.{good_now, IsCare, IsCount, IsTold, passes, region_now};
ghost use Rattle.tm_strat_drafts.specs.Sets.{HasState};

use crate::drafts::MoveChoice;
use std::alloc::AllocError;
use tm_dd::NodeId;

/// Sets of states by ids, tests of states, and moves that are good at some states while a goal is pending.
///
/// Sets are compared at the valid states alone. Of known ids, equal ones are exactly equal sets. After each call, also
/// one that is refused, every known id means what it meant, and only `turn_to` changes which goal is pending.
pub trait Moves {
    /// The symbolic game whose ids name the sets, the states, tests and moves, and which ids are known and mean what.
    ghost setting: { Self → Setting };

    /// Lets this goal be pending.
    fn turn_to(&mut self, goal: u32)
        requires { goal < (setting self.old).game.goals }
        ensures { Follows (at_goal goal (setting self.old)) (setting self.new) };

    /// The empty set.
    fn nothing(&self) -> NodeId
        ensures value { Is (setting self.now).game.states (setting self.now).ids result nowhere }
        ensures exact { IsExact (setting self.now).game.states (setting self.now).ids };

    /// States at each of which some move is good.
    fn region(&self) -> NodeId
        ensures { Is (setting self.now).game.states (setting self.now).ids result
            (region_now (setting self.now).game) };

    /// The states at which a test passes. Behind the tests of states come those whether a goal is pending.
    fn test(&mut self, number: u32) -> Result<NodeId, AllocError>
        ensures value { IfOk result (λ id. Is (setting self.old).game.states (setting self.new).ids id
            (passes (setting self.old).game number)) }
        ensures follows { Follows (setting self.old) (setting self.new) };

    /// The states at which a move is good.
    fn good(&mut self, choice: MoveChoice) -> Result<NodeId, AllocError>
        ensures value { IfOk result (λ id. Is (setting self.old).game.states (setting self.new).ids id
            (good_now (setting self.old).game choice)) }
        ensures follows { Follows (setting self.old) (setting self.new) };

    /// A move that is good at some state of a set that has one, and lies in the region.
    fn some_move(&mut self, set: NodeId) -> Result<MoveChoice, AllocError>
        requires { IsCare (setting self.old).game (setting self.old).ids set }
        ensures value { IfOk result (λ m. HasState (setting self.old).game.states
            (λ s. (setting self.old).ids.means set s && good_now (setting self.old).game m s)) }
        ensures follows { Follows (setting self.old) (setting self.new) };

    /// Any move that is to be tried for a set: one that is good at much of it.
    fn likely_move(&mut self, set: NodeId) -> Result<MoveChoice, AllocError>
        requires { (setting self.old).ids.knows set }
        ensures { Follows (setting self.old) (setting self.new) };

    /// Any test that is to be tried first to split a set, of so many.
    fn likely_test(&mut self, set: NodeId, tests: u32) -> Result<u32, AllocError>
        requires known { (setting self.old).ids.knows set }
        requires tests { IsCount (setting self.old).game tests }
        ensures below { IfOk result (λ test. test < tests) }
        ensures follows { Follows (setting self.old) (setting self.new) };

    /// The states in `a` and `b`.
    fn meet(&mut self, a: NodeId, b: NodeId) -> Result<NodeId, AllocError>
        requires a_known { (setting self.old).ids.knows a }
        requires b_known { (setting self.old).ids.knows b }
        ensures value { IfOk result (λ id. Is (setting self.old).game.states (setting self.new).ids id
            (λ s. (setting self.old).ids.means a s && (setting self.old).ids.means b s)) }
        ensures follows { Follows (setting self.old) (setting self.new) };

    /// The states in `a` and not in `b`.
    fn without(&mut self, a: NodeId, b: NodeId) -> Result<NodeId, AllocError>
        requires a_known { (setting self.old).ids.knows a }
        requires b_known { (setting self.old).ids.knows b }
        ensures value { IfOk result (λ id. Is (setting self.old).game.states (setting self.new).ids id
            (λ s. (setting self.old).ids.means a s && not ((setting self.old).ids.means b s))) }
        ensures follows { Follows (setting self.old) (setting self.new) };

    /// The states in `a` where `test` holds, and those in `b` elsewhere.
    fn choose(&mut self, test: NodeId, a: NodeId, b: NodeId) -> Result<NodeId, AllocError>
        requires test_known { (setting self.old).ids.knows test }
        requires a_known { (setting self.old).ids.knows a }
        requires b_known { (setting self.old).ids.knows b }
        ensures value { IfOk result (λ id. Is (setting self.old).game.states (setting self.new).ids id (λ s.
            if (setting self.old).ids.means test s then (setting self.old).ids.means a s
            else (setting self.old).ids.means b s)) }
        ensures follows { Follows (setting self.old) (setting self.new) };

    /// Tests of states tell states apart.
    ghost told: { (p : Self) → IsTold (setting p).game };
}
