//! The manager: a store of diagrams, and operations on them that remember their results.
ghost use Rattle.std.specs.List.{range_with_len};
ghost use Rattle.std.specs.Prelude.{◌≡◌, ◌+◌, ◌≤◌, ◌<◌, ◌&&◌, ◌||◌, ◌⊎◌, ℕ, Bool, min, not, [], List, length, Contains, None, Some, IfSome, IfOk, OnOk, OnErr, IsOkAnd, Ok, if◌then◌else◌};
ghost use Rattle.tm_dd.specs.NodeId.{complement};
ghost use Rattle.tm_dd.specs.Reduced.{Extends, IsDeeper, MeansNode};
ghost use Rattle.tm_dd.specs.Table.{Table, Knows, depth_of, kept, means, node_of, rank_of};
ghost use Rattle.tm_dd.specs.Unique.{AreRanks};
ghost use Rattle.tm_ddops.specs.Changed.{IsChanged, KnowsParts, change_of};
ghost use Rattle.tm_ddops.specs.Choice.{choice_value, KnowsChoice};
ghost use Rattle.tm_ddops.specs.Manager.{Grows, IsFunction, IsManager, IsResult, Remembers, most_results};
ghost use Rattle.tm_ddops.specs.Inner.Memo.{HasOpen};
ghost use Rattle.tm_ddops.specs.Inner.Plans.{quantified, substituting};
ghost use Rattle.tm_ddops.specs.Operation.{operands, operation_value};
ghost use Rattle.tm_ddops.specs.Remembering.{RemembersResult};
ghost use Rattle.tm_dd.specs.declared.node.NodeId.{NodeId as Id};
ghost use Rattle.tm_ddops.specs.declared.choice.Choice.{Choice as Met};

use crate::cache::{Cache, recall, remember};
use crate::choice::Choice;
use crate::operation::Operation;
use crate::tables::Tables;
use crate::walk::walk;
use lru::LruCache;
use std::alloc::{AllocError, Global};
use std::hash::BuildHasherDefault;
use std::marker::Model;
use std::num::NonZeroUsize;
use tm_base::Steps;
use tm_dd::{NodeId, Store};

/// How many results a manager remembers at most.
pub(crate) const ROOM: usize = 65536;

/// Boolean functions as decision diagrams, with operations on them (Bryant 1986; Brace, Rudell and Bryant 1990).
///
/// A contract sees the nodes of its store, and the results of operations that it remembers, the one that was used
/// last first.
/// An id means the same until `copy_roots`.
#[derive(Drop)]
pub struct Manager {
    pub(crate) alloc: Global,
    pub(crate) store: Store,
    pub(crate) cache: Cache,
    pub(crate) tables: Tables,
}

impl Model for Manager {
    ghost use Rattle.tm_ddops.specs.Manager.{Diagrams};

    ghost Value = { Diagrams };

    ghost use Rattle.tm_ddops.specs.Layout.{diagrams_of, IsSound};

    ghost view = { diagrams_of };

    ghost invariant = { IsSound };
}

impl Manager {
    /// A manager of functions of `levels` levels, each of which has its number for its rank. It keeps the constant
    /// alone and remembers no result.
    pub fn new(alloc: Global, levels: u32) -> Result<Manager, AllocError>
        ensures levels { IfOk result (λ m. m.table.levels ≡ levels) }
        ensures ranks { IfOk result (λ m. m.table.ranks ≡ range_with_len 0 m.table.levels) }
        ensures kept { IfOk result (λ m. kept m.table ≡ 0) }
        ensures results { IfOk result (λ m. m.results ≡ []) }
        ensures manager { IfOk result IsManager }
    {
        let store = given!(Store::new(alloc, levels));
        let cache = given!(empty_cache(alloc), store);
        let tables = given!(Tables::with_room(alloc), cache, store);
        Ok(Manager {
            alloc,
            store,
            cache,
            tables,
        })
    }

    /// A manager of functions of `levels` levels of these ranks, which keeps the constant alone and remembers no
    /// result.
    pub fn arranged(alloc: Global, levels: u32, ranks: Vec<u32>) -> Result<Manager, AllocError>
        requires { AreRanks levels ranks.items }
        ensures levels { IfOk result (λ m. m.table.levels ≡ levels) }
        ensures ranks { IfOk result (λ m. m.table.ranks ≡ ranks.items) }
        ensures kept { IfOk result (λ m. kept m.table ≡ 0) }
        ensures results { IfOk result (λ m. m.results ≡ []) }
        ensures manager { IfOk result IsManager }
    {
        let store = given!(Store::arranged(alloc, levels, ranks));
        let cache = given!(empty_cache(alloc), store);
        let tables = given!(Tables::with_room(alloc), cache, store);
        Ok(Manager {
            alloc,
            store,
            cache,
            tables,
        })
    }

    /// The store of the nodes. It takes no memory.
    pub fn store(&self) -> &Store
        ensures value { result.now ≡ self.now.table }
        ensures manager { IsManager self.now }
    {
        &self.store
    }

    /// The function that is `hi` where the level's value is true, and `lo` where it is false, as `Store::make` gives
    /// it.
    pub fn make<L>(
        &mut self,
        level: u32,
        lo: NodeId,
        hi: NodeId,
        steps: &mut Steps<L>,
    ) -> Result<NodeId, AllocError>
        requires level { level < self.old.table.levels }
        requires lo_known { Knows self.old.table lo }
        requires hi_known { Knows self.old.table hi }
        requires lo_deeper { IsDeeper self.old.table level lo }
        requires hi_deeper { IsDeeper self.old.table level hi }

        ensures manager { IsManager self.new }
        ensures grows { Grows self.old self.new }
        ensures answer { IfOk result (λ id.
            IsFunction self.new.table id (λ v.
            if v level then means self.new.table hi v else means self.new.table lo v)) }
        ensures deep { IfOk result (λ id. rank_of self.new.table level ≤ depth_of self.new.table id) }
        ensures node { IfOk result (λ id. ¬ (lo ≡ hi)
            → node_of self.new.table id ≡ record { level = level; lo = lo; hi = hi }) }

        // A function that was known has its id, and nothing is added for it. Another one adds one node, for itself and
        // its complement.
        ensures equal { lo ≡ hi → result ≡ Ok lo }
        ensures found { (id : Id) → Knows self.old.table id
            → MeansNode self.old.table id (record { level = level; lo = lo; hi = hi }) → result ≡ Ok id }
        ensures unchanged { (id : Id) → Knows self.old.table id
            → MeansNode self.old.table id (record { level = level; lo = lo; hi = hi }) → self.new ≡ self.old }
        ensures added { IfOk result (λ r. (id : Id)
            → Knows self.new.table id → Knows self.old.table id ⊎ ((id ≡ r) ⊎ (id ≡ complement r))) }
        ensures counted { steps.new ≡ min (steps.old + 1) u64.MAX }
        ensures adds { kept self.new.table ≤ kept self.old.table + 1 }
        ensures results { self.new.results ≡ self.old.results }
        ensures refused { OnErr result (self.new ≡ self.old) }
    {
        self.store.make(level, lo, hi, steps)
    }

    /// The complement of `f`. It takes no memory and adds no node.
    pub fn not(&mut self, f: NodeId) -> Result<NodeId, AllocError>
        requires { Knows self.old.table f }
        ensures value { result ≡ Ok (complement f) }
        ensures answer { IsOkAnd result (λ id. IsFunction self.new.table id (λ v. not (means self.new.table f v))) }
        ensures unchanged { self.new ≡ self.old }
    {
        Ok(f.complement())
    }

    // The remembered result of an operation.
    pub(crate) fn known(&mut self, operation: &Operation) -> Option<NodeId>
        ensures found { (id : Id) → Remembers self.old operation.now id → result ≡ Some id }
        ensures answer { IfSome result (IsResult self.new.table operation.now) }
        ensures remembered { IfSome result (Remembers self.new operation.now) }
        ensures missed { result ≡ None → self.new ≡ self.old }
        ensures manager { IsManager self.new }
        ensures grows { Grows self.old self.new }
        ensures table { self.new.table ≡ self.old.table }
    {
        recall(&mut self.cache, operation)
    }

    // Remembers a result.
    pub(crate) fn remembered(&mut self, operation: Operation, id: NodeId) -> Result<(), AllocError>
        requires absent { (other : Id) → ¬ Remembers self.old operation other }
        requires result { IsResult self.old.table operation id }

        ensures manager { IsManager self.new }
        ensures grows { Grows self.old self.new }
        ensures table { self.new.table ≡ self.old.table }
        ensures there { OnOk result (Remembers self.new operation id) }
    {
        remember(&mut self.cache, operation, id)
    }

    // The result of an operation that is a choice, by a walk. It then is remembered.
    fn walked<L>(
        &mut self,
        operation: Operation,
        choice: Choice,
        steps: &mut Steps<L>,
    ) -> Result<NodeId, AllocError>
        requires absent { (other : Id) → ¬ Remembers self.old operation other }
        requires operands { (f : Id) → Contains (operands operation) f → Knows self.old.table f }
        requires choice { KnowsChoice self.old.table choice }
        requires same { (s : Table) (v : ℕ → Bool) → choice_value s choice v ≡ operation_value s operation v }

        ensures manager { IsManager self.new }
        ensures grows { Grows self.old self.new }
        ensures answer { IfOk result (IsResult self.new.table operation) }
        ensures remembered { IfOk result (Remembers self.new operation) }
        ensures requests { (choices : List Met) → HasOpen self.new.table choice choices →
            steps.new ≤ steps.old + length choices }
        ensures nodes { (choices : List Met) → HasOpen self.new.table choice choices →
            kept self.new.table ≤ kept self.old.table + length choices }
    {
        self.tables.limit(self.alloc);
        let answer = walk(
            &mut self.store,
            choice,
            &mut self.tables.walks.choices,
            steps,
        )?;
        remember(&mut self.cache, operation, answer)?;
        Ok(answer)
    }

    /// The function that is `g` where `f` is true, and `h` where it is false. It remembers no result, so where none is
    /// asked for again it takes less than `ite`.
    pub fn ite_once(&mut self, f: NodeId, g: NodeId, h: NodeId) -> Result<NodeId, AllocError>
        requires f { Knows self.old.table f }
        requires g { Knows self.old.table g }
        requires h { Knows self.old.table h }

        ensures manager { IsManager self.new }
        ensures extends { Extends self.old.table self.new.table }
        ensures results { self.new.results ≡ self.old.results }
        ensures answer { IfOk result (λ id.
            IsFunction self.new.table id (λ v.
            if means self.new.table f v then means self.new.table g v else means self.new.table h v)) }
    {
        prove!(self.cache.len() <= self.cache.cap().get());
        let choice = Choice {
            test: f,
            if_true: g,
            if_false: h,
        };
        if let Some(known) = choice.shortcut() {
            return Ok(known);
        }
        self.tables.limit(self.alloc);
        walk(
            &mut self.store,
            choice,
            &mut self.tables.walks.choices,
            &mut Steps::new(()),
        )
    }

    // The function `f` with the parts' functions in the places of their levels. It remembers nothing.
    pub(crate) fn rewrite(
        &mut self,
        f: NodeId,
        parts: &[(u32, NodeId)],
    ) -> Result<NodeId, AllocError>
        requires known { Knows self.old.table f }
        requires parts { KnowsParts self.old.table (change_of (substituting parts.now)) }

        ensures manager { IsManager self.new }
        ensures extends { Extends self.old.table self.new.table }
        ensures results { self.new.results ≡ self.old.results }
        ensures answer { IfOk result (IsChanged self.new.table (change_of (substituting parts.now)) f) }
    {
        self.tables.limit(self.alloc);
        self.tables.rewrite(self.alloc, &mut self.store, f, parts)
    }

    // What is left of `f` where levels may have any value. It remembers nothing.
    pub(crate) fn eliminate(&mut self, f: NodeId, levels: &[u32]) -> Result<NodeId, AllocError>
        requires known { Knows self.old.table f }

        ensures manager { IsManager self.new }
        ensures extends { Extends self.old.table self.new.table }
        ensures results { self.new.results ≡ self.old.results }
        ensures answer { IfOk result (IsChanged self.new.table (change_of (quantified levels.now)) f) }
    {
        self.tables.limit(self.alloc);
        self.tables.exists(self.alloc, &mut self.store, f, levels)
    }

    // The result of an operation that is a choice: the remembered one, or that of a walk, which then is remembered.
    pub(crate) fn answered<L>(
        &mut self,
        operation: Operation,
        choice: Choice,
        steps: &mut Steps<L>,
    ) -> Result<NodeId, AllocError>
        requires operands { (f : Id) → Contains (operands operation) f → Knows self.old.table f }
        requires choice { KnowsChoice self.old.table choice }
        requires same { (s : Table) (v : ℕ → Bool) → choice_value s choice v ≡ operation_value s operation v }

        ensures manager { IsManager self.new }
        ensures grows { Grows self.old self.new }
        ensures answer { IfOk result (IsResult self.new.table operation) }
        ensures remembers { RemembersResult operation self.old self.new result }
        ensures requests { (choices : List Met) → HasOpen self.new.table choice choices →
            steps.new ≤ steps.old + length choices }
        ensures nodes { (choices : List Met) → HasOpen self.new.table choice choices →
            kept self.new.table ≤ kept self.old.table + length choices }

        // A remembered result is answered again without a request.
        ensures again_free { (id : Id) → Remembers self.old operation id → steps.new ≡ steps.old }
    {
        if let Some(known) = self.known(&operation) {
            return Ok(known);
        }
        self.walked(operation, choice, steps)
    }
}

/// A cache that remembers no result, and at most `ROOM` of them.
pub(crate) fn empty_cache(alloc: Global) -> Result<Cache, AllocError>
    ensures empty { IfOk result (λ cache. cache.entries ≡ []) }
    ensures room { IfOk result (λ cache. cache.cap ≡ most_results) }
{
    let mut cache = LruCache::unbounded_with_hasher(alloc, BuildHasherDefault::new())?;
    cache.resize(NonZeroUsize::MIN.saturating_add(ROOM - 1));
    Ok(cache)
}
