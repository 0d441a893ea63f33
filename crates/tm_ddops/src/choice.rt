//! If-then-else of three functions, as far as it takes no walk (Brace, Rudell and Bryant 1990).
ghost use Rattle.std.specs.Prelude.{◌≡◌, ◌<◌, ◌≤◌, ◌+◌, ◌&&◌, ◌==◌, ℕ, Bool, min, true, false, IfSome, IfNone};
ghost use Rattle.tm_dd.specs.NodeId.{IsConstant};
ghost use Rattle.tm_dd.specs.Table.{Table, Knows, depth_of, means};
ghost use Rattle.tm_dd.specs.Reduced.{IsReduced};
ghost use Rattle.tm_ddops.specs.Choice.{choice_level, cofactor, cofactor_choice, upper, KnowsChoice, IsChoice, IsOpen, MeansWhere};

use std::hash::{Hash, Hasher};
use tm_dd::{FALSE, NodeId, Store, TRUE, mixed};

/// If-then-else of three functions.
#[derive(Clone, Copy, PartialEq, Eq)]
pub struct Choice {
    pub test: NodeId,
    pub if_true: NodeId,
    pub if_false: NodeId,
}

impl Hash for Choice {
    ghost use Rattle.tm_ddops.specs.Inner.Hashed.{choice_hash, same_choice_hash};

    ghost hash_input = { choice_hash };

    ghost respects_eq = { same_choice_hash };

    fn hash<H: Hasher>(&self, state: &mut H) {
        state.write_u64(mixed(
            self.test.number(),
            self.if_true.number(),
            self.if_false.number(),
        ));
    }
}

impl Choice {
    /// The id of the choice, where it takes no look at a node.
    pub(crate) fn shortcut(self) -> Option<NodeId>
        ensures answer { IfSome result (λ id. (s : Table) → IsReduced s → KnowsChoice s self → IsChoice s self id) }
        ensures open { IfNone result (IsOpen self) }
    {
        if self.test.is_constant() {
            return Some(self.settled());
        }
        let if_true = under(self.test, self.if_true, true);
        let if_false = under(self.test, self.if_false, false);
        if if_true == if_false {
            Some(if_true)
        } else if if_true.is_constant() && if_false.is_constant() {
            Some(if if_true == TRUE {
                self.test
            } else {
                self.test.complement()
            })
        } else {
            None
        }
    }

    /// The branch that a constant test picks.
    fn settled(self) -> NodeId
        requires { IsConstant self.test }
        ensures { (s : Table) → KnowsChoice s self → IsChoice s self result }
    {
        if self.test == TRUE {
            self.if_true
        } else {
            self.if_false
        }
    }

    /// The level of the three functions that stands highest.
    pub(crate) fn level(self, store: &Store) -> u32
        requires known { KnowsChoice store.now self }
        ensures value { result ≡ choice_level store.now self }
        ensures reduced { IsReduced store.now }
    {
        let branch = upper(store, store.level(self.if_true), store.level(self.if_false));
        upper(store, store.level(self.test), branch)
    }

    /// The choice where the value of its highest level, which is this one, is false, and where it is true.
    pub(crate) fn cofactors(self, store: &Store, level: u32) -> (Choice, Choice)
        requires reduced { IsReduced store.now }
        requires known { KnowsChoice store.now self }
        requires open { IsOpen self }
        requires level { level ≡ choice_level store.now self }
        ensures low { result.0 ≡ cofactor_choice store.now self false }
        ensures high { result.1 ≡ cofactor_choice store.now self true }
    {
        let (test_low, test_high) = cofactors(store, self.test, level);
        let (true_low, true_high) = cofactors(store, self.if_true, level);
        let (false_low, false_high) = cofactors(store, self.if_false, level);
        let low = Choice {
            test: test_low,
            if_true: true_low,
            if_false: false_low,
        };
        let high = Choice {
            test: test_high,
            if_true: true_high,
            if_false: false_high,
        };
        (low, high)
    }
}

/// Of two levels the one that stands higher.
fn upper(store: &Store, one: u32, other: u32) -> u32
    ensures value { result ≡ upper store.now one other }
    ensures reduced { IsReduced store.now }
{
    if store.rank(one) <= store.rank(other) {
        one
    } else {
        other
    }
}

/// What a branch is where the test has the value `holds`: a constant, where the branch is the test or its complement.
fn under(test: NodeId, branch: NodeId, holds: bool) -> NodeId
    requires { ¬ IsConstant test }
    ensures constant { IsConstant branch → result ≡ branch }
    ensures meaning { (s : Table) → MeansWhere s test holds result branch }
    ensures known { (s : Table) → Knows s branch → Knows s result }
    ensures deep { (s : Table) → IsReduced s → Knows s branch → depth_of s branch ≤ depth_of s result }
{
    if branch == test {
        constant(holds)
    } else if branch == test.complement() {
        constant(!holds)
    } else {
        branch
    }
}

/// `TRUE` or `FALSE`.
fn constant(value: bool) -> NodeId
    ensures constant { IsConstant result }
    ensures meaning { (s : Table) (v : ℕ → Bool) → means s result v ≡ value }
{
    if value { TRUE } else { FALSE }
}

/// What `f` is where the level is false, and where it is true. It reads no level above this one.
fn cofactors(store: &Store, f: NodeId, level: u32) -> (NodeId, NodeId)
    requires reduced { IsReduced store.now }
    requires known { Knows store.now f }
    requires below { level < store.now.levels }
    ensures low { result.0 ≡ cofactor store.now f level false }
    ensures high { result.1 ≡ cofactor store.now f level true }
{
    if f.is_constant() {
        return (f, f);
    }
    let node = store.node(f);
    if node.level == level {
        (node.lo, node.hi)
    } else {
        (f, f)
    }
}
