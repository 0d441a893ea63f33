//! The walk behind quantification and substitution: what changes of levels make of a function, each node once.
ghost use Rattle.std.specs.Prelude.{◌≡◌, ◌<◌, ◌≤◌, Some, length, IfOk, IfSome, IsTrue, if◌then◌else◌};
ghost use Rattle.tm_dd.specs.NodeId.{IsConstant};
ghost use Rattle.tm_dd.specs.Reduced.{Extends, IsReduced};
ghost use Rattle.tm_dd.specs.Table.{Knows, level_of, means, node_of};
ghost use Rattle.tm_dd.specs.declared.node.NodeId.{NodeId as Id};
ghost use Rattle.tm_ddops.specs.Changed.{IsChanged, IsDepth, IsSettled, KnowsParts, branch_value, change_at};
ghost use Rattle.tm_ddops.specs.Manager.{IsFunction};
ghost use Rattle.tm_ddops.specs.Inner.Memo.{AreChoices};
ghost use Rattle.tm_ddops.specs.Inner.Visited.{AreChanged, SameElsewhere};
ghost use Rattle.tm_ddops.specs.declared.change.Change.TheVariants as variant;

use crate::change::Change;
use crate::choice::Choice;
use crate::walk::{Memo, branch, choose};
use std::alloc::{AllocError, Global};
use std::collections::HashMap;
use std::hash::{BuildHasherDefault, Hash, Hasher};
use tm_base::Steps;
use tm_dd::{FALSE, Node, NodeId, NumberHasher, Store, TRUE, mixed};

/// A function that a walk met, under changes of this number.
#[derive(Clone, Copy, PartialEq, Eq)]
pub struct Visit {
    pub changes: usize,
    pub function: NodeId,
}

impl Hash for Visit {
    ghost use Rattle.tm_ddops.specs.Inner.Hashed.{same_visit_hash, visit_hash};

    ghost hash_input = { visit_hash };

    ghost respects_eq = { same_visit_hash };

    fn hash<H: Hasher>(&self, state: &mut H) {
        state.write_u64(mixed(0, self.changes as u64, self.function.number()));
    }
}

/// The choices that walks met, and the functions that they met under changes, each with what was found for it.
#[derive(Drop)]
pub struct Walks {
    pub(crate) choices: Memo,
    pub(crate) found: HashMap<Visit, NodeId, BuildHasherDefault<NumberHasher>>,
}

impl Walks {
    /// What the changes, which have this number, make of `f`. No level of the rank `depth` or a deeper one changes.
    pub(crate) fn rewrite(
        &mut self,
        store: &mut Store,
        f: NodeId,
        number: usize,
        changes: &[Option<Change>],
        depth: u32,
    ) -> Result<NodeId, AllocError>
        requires reduced { IsReduced store.old }
        requires known { Knows store.old f }
        requires changes { length changes.now ≡ store.old.levels }
        requires depth { IsDepth store.old (change_at changes.now) depth }
        requires parts { KnowsParts store.old (change_at changes.now) }
        requires found { AreChanged store.old (change_at changes.now) number self.old.found }
        requires choices { AreChoices store.old self.old.choices }

        ensures extends { Extends store.old store.new }
        ensures reduced { IsReduced store.new }
        ensures found { AreChanged store.new (change_at changes.now) number self.new.found }
        ensures others { SameElsewhere number self.old.found self.new.found }
        ensures choices { AreChoices store.new self.new.choices }
        ensures answer { IfOk result (IsChanged store.new (change_at changes.now) f) }
    {
        if depth <= store.depth(f) {
            return Ok(f);
        }
        let visit = Visit {
            changes: number,
            function: f,
        };
        if let Some(known) = self.found.get(&visit) {
            return Ok(*known);
        }
        let node = store.node(f);
        if let Some(branch) = settled(changes, node) {
            return self.rewrite(store, branch, number, changes, depth);
        }
        let lo = self.rewrite(store, node.lo, number, changes, depth)?;
        if lo == TRUE && is_quantified(changes, node.level) {
            return self.found_true(store, f, number, changes);
        }
        let hi = self.rewrite(store, node.hi, number, changes, depth)?;
        self.rewrite_node(store, f, lo, hi, number, changes)
    }

    // What the changes make of `f`, where the first branch became `TRUE` and the level of `f` is quantified. The other
    // branch is not looked at.
    fn found_true(
        &mut self,
        store: &Store,
        f: NodeId,
        number: usize,
        changes: &[Option<Change>],
    ) -> Result<NodeId, AllocError>
        requires reduced { IsReduced store.now }
        requires known { Knows store.now f }
        requires inner { ¬ IsConstant f }
        requires quantified { change_at changes.now (node_of store.now f).level ≡ Some variant.Quantified }
        requires found { AreChanged store.now (change_at changes.now) number self.old.found }
        requires choices { AreChoices store.now self.old.choices }
        requires lo { IsChanged store.now (change_at changes.now) (node_of store.now f).lo TRUE }

        ensures found { AreChanged store.now (change_at changes.now) number self.new.found }
        ensures others { SameElsewhere number self.old.found self.new.found }
        ensures choices { AreChoices store.now self.new.choices }
        ensures answer { IfOk result (IsChanged store.now (change_at changes.now) f) }
    {
        let visit = Visit {
            changes: number,
            function: f,
        };
        self.found.insert(visit, TRUE)?;
        Ok(TRUE)
    }

    // What the changes make of `f`, from what became of its branches. It notes the visit.
    fn rewrite_node(
        &mut self,
        store: &mut Store,
        f: NodeId,
        lo: NodeId,
        hi: NodeId,
        number: usize,
        changes: &[Option<Change>],
    ) -> Result<NodeId, AllocError>
        requires reduced { IsReduced store.old }
        requires known { Knows store.old f }
        requires inner { ¬ IsConstant f }
        requires level { level_of store.old f < length changes.now }
        requires found { AreChanged store.old (change_at changes.now) number self.old.found }
        requires choices { AreChoices store.old self.old.choices }
        requires lo { IsChanged store.old (change_at changes.now) (node_of store.old f).lo lo }
        requires hi { IsChanged store.old (change_at changes.now) (node_of store.old f).hi hi }

        ensures extends { Extends store.old store.new }
        ensures reduced { IsReduced store.new }
        ensures found { AreChanged store.new (change_at changes.now) number self.new.found }
        ensures others { SameElsewhere number self.old.found self.new.found }
        ensures choices { AreChoices store.new self.new.choices }
        ensures answer { IfOk result (IsChanged store.new (change_at changes.now) f) }
    {
        let answer = self.joined(store, f, lo, hi, changes)?;
        let visit = Visit {
            changes: number,
            function: f,
        };
        self.found.insert(visit, answer)?;
        Ok(answer)
    }

    // What the changes make of `f`, from what became of its branches. It notes no visit.
    fn joined(
        &mut self,
        store: &mut Store,
        f: NodeId,
        lo: NodeId,
        hi: NodeId,
        changes: &[Option<Change>],
    ) -> Result<NodeId, AllocError>
        requires reduced { IsReduced store.old }
        requires known { Knows store.old f }
        requires inner { ¬ IsConstant f }
        requires level { level_of store.old f < length changes.now }
        requires choices { AreChoices store.old self.old.choices }
        requires lo { IsChanged store.old (change_at changes.now) (node_of store.old f).lo lo }
        requires hi { IsChanged store.old (change_at changes.now) (node_of store.old f).hi hi }

        ensures extends { Extends store.old store.new }
        ensures reduced { IsReduced store.new }
        ensures found { self.new.found ≡ self.old.found }
        ensures choices { AreChoices store.new self.new.choices }
        ensures answer { IfOk result (IsChanged store.new (change_at changes.now) f) }
    {
        let level = store.node(f).level;
        match changes[level as usize] {
            None => self.branch_at(store, level, lo, hi),
            Some(change) => self.branch_under(store, change, lo, hi),
        }
    }

    // What a level that changes leaves of two branches.
    fn branch_under(
        &mut self,
        store: &mut Store,
        change: Change,
        lo: NodeId,
        hi: NodeId,
    ) -> Result<NodeId, AllocError>
        requires reduced { IsReduced store.old }
        requires part { (part : Id) → change ≡ variant.Becomes part → Knows store.old part }
        requires lo_known { Knows store.old lo }
        requires hi_known { Knows store.old hi }
        requires choices { AreChoices store.old self.old.choices }

        ensures extends { Extends store.old store.new }
        ensures reduced { IsReduced store.new }
        ensures found { self.new.found ≡ self.old.found }
        ensures choices { AreChoices store.new self.new.choices }
        ensures answer { IfOk result (λ id. IsFunction store.new id (branch_value store.old change lo hi)) }
    {
        match change {
            Change::Becomes(part) => self.chosen(store, part, hi, lo),
            Change::Quantified => self.chosen(store, lo, TRUE, hi),
        }
    }

    // The function that is `hi` where the level's value is true, and `lo` where it is false. Both may read any level.
    fn branch_at(
        &mut self,
        store: &mut Store,
        level: u32,
        lo: NodeId,
        hi: NodeId,
    ) -> Result<NodeId, AllocError>
        requires reduced { IsReduced store.old }
        requires level { level < store.old.levels }
        requires lo_known { Knows store.old lo }
        requires hi_known { Knows store.old hi }
        requires choices { AreChoices store.old self.old.choices }

        ensures extends { Extends store.old store.new }
        ensures reduced { IsReduced store.new }
        ensures found { self.new.found ≡ self.old.found }
        ensures choices { AreChoices store.new self.new.choices }
        ensures answer { IfOk result (λ id.
            IsFunction store.new id (λ v. if v level then means store.old hi v else means store.old lo v)) }
    {
        let rank = store.rank(level);
        if rank < store.depth(lo) && rank < store.depth(hi) {
            return branch(store, level, lo, hi, &mut Steps::new(()));
        }
        let test = branch(store, level, FALSE, TRUE, &mut Steps::new(()))?;
        self.chosen(store, test, hi, lo)
    }

    // If-then-else of three functions.
    fn chosen(
        &mut self,
        store: &mut Store,
        test: NodeId,
        if_true: NodeId,
        if_false: NodeId,
    ) -> Result<NodeId, AllocError>
        requires reduced { IsReduced store.old }
        requires test { Knows store.old test }
        requires if_true { Knows store.old if_true }
        requires if_false { Knows store.old if_false }
        requires choices { AreChoices store.old self.old.choices }

        ensures extends { Extends store.old store.new }
        ensures reduced { IsReduced store.new }
        ensures found { self.new.found ≡ self.old.found }
        ensures choices { AreChoices store.new self.new.choices }
        ensures answer { IfOk result (λ id.
            IsFunction store.new id (λ v.
            if means store.old test v then means store.old if_true v else means store.old if_false v)) }
    {
        let choice = Choice {
            test,
            if_true,
            if_false,
        };
        choose(store, choice, &mut self.choices, &mut Steps::new(()))
    }
}

/// The branch that is left of a node where a constant takes the place of its level.
fn settled(changes: &[Option<Change>], node: Node) -> Option<NodeId>
    requires { node.level < length changes.now }
    ensures { IfSome result (IsSettled (change_at changes.now node.level) node) }
{
    match changes[node.level as usize] {
        Some(Change::Becomes(part)) => branch_by(part, node),
        Some(Change::Quantified) => None,
        None => None,
    }
}

/// The branch of a node that a function picks, if it is constant.
fn branch_by(part: NodeId, node: Node) -> Option<NodeId>
    ensures { IfSome result (IsSettled (Some (variant.Becomes part)) node) }
{
    if part == TRUE {
        Some(node.hi)
    } else if part == FALSE {
        Some(node.lo)
    } else {
        None
    }
}

/// Whether the level may have any value.
fn is_quantified(changes: &[Option<Change>], level: u32) -> bool
    requires { level < length changes.now }
    ensures { IsTrue result → change_at changes.now level ≡ Some variant.Quantified }
{
    match changes[level as usize] {
        Some(Change::Quantified) => true,
        Some(Change::Becomes(_)) => false,
        None => false,
    }
}
