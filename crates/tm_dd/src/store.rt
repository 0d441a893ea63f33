//! The store of diagram nodes.
ghost use Rattle.std.specs.List.{range_with_len};
ghost use Rattle.std.specs.Prelude.{◌≡◌, ◌↔◌, ◌⊎◌, ℕ, ◌+◌, ◌^◌, ◌<◌, ◌≤◌, Bool, false, min, length, if◌then◌else◌, IsTrue, IfOk, OnErr};
ghost use Rattle.tm_dd.specs.NodeId.{complement, IsConstant, is_marked, position_of};
ghost use Rattle.tm_dd.specs.Reduced.{Extends, IsDeeper, IsNode, IsReduced, MeansNode};
ghost use Rattle.tm_dd.specs.Table.{assignment, depth_of, entry_at, kept, Knows, level_of, means, node_of, rank_of};
ghost use Rattle.tm_dd.specs.Unique.{AreRanks, IsEntry, IsKept, IsUniqueTable};

use crate::hasher::NumberHasher;
use crate::node::{FALSE, Node, NodeId, TRUE};
use indexmap::IndexSet;
use std::alloc::{AllocError, Global};
use std::hash::BuildHasherDefault;
use std::marker::Model;
use tm_base::Steps;

/// Boolean functions of the values of some levels, kept as a reduced ordered binary decision diagram with complement
/// marks (Bryant 1986; Brace, Rudell and Bryant 1990).
///
/// Ids are equal exactly where their functions are equal. An id means the same from the call that gave it on. A level's
/// rank tells how deep it stands in diagrams, and nothing of what they mean.
#[derive(Drop)]
pub struct Store {
    levels: u32,
    ranks: Vec<u32>,
    entries: IndexSet<Node, BuildHasherDefault<NumberHasher>>,
}

impl Model for Store {
    ghost use Rattle.tm_dd.specs.Table.{Table};

    ghost Value = { Table };

    ghost use Rattle.tm_dd.specs.Layout.{table_of, IsStore};

    ghost view = { table_of };

    ghost invariant = { IsStore };
}

impl Store {
    /// A store of functions of `levels` levels, each of which has its number for its rank. It keeps the constant alone.
    pub fn new(alloc: Global, levels: u32) -> Result<Store, AllocError>
        ensures levels { IfOk result (λ s. s.levels ≡ levels) }
        ensures ranks { IfOk result (λ s. s.ranks ≡ range_with_len 0 s.levels) }
        ensures kept { IfOk result (λ s. kept s ≡ 0) }
        ensures reduced { IfOk result IsReduced }
    {
        let ranks = numbers(alloc, levels)?;
        Store::arranged(alloc, levels, ranks)
    }

    /// A store of functions of `levels` levels of these ranks, which keeps the constant alone.
    pub fn arranged(alloc: Global, levels: u32, ranks: Vec<u32>) -> Result<Store, AllocError>
        requires { AreRanks levels ranks.items }
        ensures levels { IfOk result (λ s. s.levels ≡ levels) }
        ensures ranks { IfOk result (λ s. s.ranks ≡ ranks.items) }
        ensures kept { IfOk result (λ s. kept s ≡ 0) }
        ensures reduced { IfOk result IsReduced }
    {
        let mut entries = IndexSet::with_hasher(alloc, BuildHasherDefault::new());
        entries.insert(Node {
            level: levels,
            lo: FALSE,
            hi: FALSE,
        })?;
        Ok(Store {
            levels,
            ranks,
            entries,
        })
    }

    /// The number of levels.
    pub fn levels(&self) -> u32
        ensures value { result ≡ self.now.levels }
        ensures reduced { IsReduced self.now }
    {
        self.levels
    }

    /// The rank of each level.
    pub fn ranks(&self) -> &[u32]
        ensures value { result.now ≡ self.now.ranks }
        ensures reduced { IsReduced self.now }
    {
        self.ranks.as_slice()
    }

    /// The rank of a level: how deep it stands in diagrams. What is no level stands below all levels.
    pub fn rank(&self, level: u32) -> u32
        ensures value { result ≡ rank_of self.now level }
        ensures reduced { IsReduced self.now }
    {
        match self.ranks.get(level as usize) {
            Some(rank) => *rank,
            None => self.levels,
        }
    }

    /// The rank of an id's level, which is the number of levels for a constant.
    pub fn depth(&self, id: NodeId) -> u32
        requires { Knows self.now id }
        ensures value { result ≡ depth_of self.now id }
        ensures reduced { IsReduced self.now }
    {
        self.rank(self.level(id))
    }

    /// The number of kept nodes. It takes no memory.
    pub fn kept(&self) -> u64
        ensures value { result ≡ kept self.now }
        ensures reduced { IsReduced self.now }
    {
        self.entries.len() as u64 - 1
    }

    /// Whether the id stands for the constant or a kept node here.
    pub fn knows(&self, id: NodeId) -> bool
        ensures value { IsTrue result ↔ Knows self.now id }
        ensures reduced { IsReduced self.now }
    {
        id.position() < self.entries.len()
    }

    /// The level of an id: that of its node, and of a constant the number of levels.
    pub fn level(&self, id: NodeId) -> u32
        requires { Knows self.now id }
        ensures value { result ≡ level_of self.now id }
        ensures reduced { IsReduced self.now }
    {
        self.entry(id.position()).level
    }

    /// The node of an id that is no constant. That of a marked id has the complements of the kept children. It takes no
    /// memory.
    pub fn node(&self, id: NodeId) -> Node
        requires known { Knows self.now id }
        requires inner { ¬ IsConstant id }
        ensures value { result ≡ node_of self.now id }
        ensures is_node { IsNode self.now id result }
        ensures reduced { IsReduced self.now }
    {
        let entry = self.entry(id.position());
        let marked = id.is_marked();
        Node {
            level: entry.level,
            lo: entry.lo.complement_if(marked),
            hi: entry.hi.complement_if(marked),
        }
    }

    /// The value of a function, where `values` has the values of the levels. It takes no memory.
    pub fn eval(&self, id: NodeId, values: &[bool]) -> bool
        requires known { Knows self.now id }
        requires one_a_level { length values.now ≡ self.now.levels }
        ensures value { result ≡ means self.now id (assignment values.now) }
        ensures reduced { IsReduced self.now }
    {
        prove!(values.len() == self.levels as usize);
        let mut rest = id;
        while !rest.is_constant() {
            let node = self.node(rest);
            rest = if values[node.level as usize] {
                node.hi
            } else {
                node.lo
            };
        }
        rest == TRUE
    }

    /// The function that is `hi` where the level's value is true, and `lo` where it is false. It counts one step.
    ///
    /// It takes no memory where the store knows the function, and is the only call that adds a node. After a refusal
    /// the store is as it was.
    pub fn make<L>(
        &mut self,
        level: u32,
        lo: NodeId,
        hi: NodeId,
        steps: &mut Steps<L>,
    ) -> Result<NodeId, AllocError>
        requires level { level < self.old.levels }
        requires lo_known { Knows self.old lo }
        requires hi_known { Knows self.old hi }
        requires lo_deeper { IsDeeper self.old level lo }
        requires hi_deeper { IsDeeper self.old level hi }

        ensures counted { steps.new ≡ min (steps.old + 1) u64.MAX }
        ensures refused { OnErr result (self.new ≡ self.old) }
        ensures extends { Extends self.old self.new }
        ensures reduced { IsReduced self.new }

        // The answer is known, on this level or a deeper one, and means what was asked for.
        ensures known { IfOk result (λ r. Knows self.new r) }
        ensures deep { IfOk result (λ r. rank_of self.new level ≤ depth_of self.new r) }
        ensures meaning { IfOk result (λ r. (v : ℕ → Bool)
            → means self.new r v ≡ (if v level then means self.old hi v else means self.old lo v)) }
        ensures node { IfOk result (λ r. ¬ (lo ≡ hi)
            → node_of self.new r ≡ record { level = level; lo = lo; hi = hi }) }

        // A function that was known has its id, and nothing is added for it. Another one adds one node, for itself and
        // its complement.
        ensures equal { lo ≡ hi → result ≡ Ok lo }
        ensures found { (id : NodeId) → Knows self.old id
            → MeansNode self.old id (record { level = level; lo = lo; hi = hi }) → result ≡ Ok id }
        ensures unchanged { (id : NodeId) → Knows self.old id
            → MeansNode self.old id (record { level = level; lo = lo; hi = hi }) → self.new ≡ self.old }
        ensures adds { kept self.new ≤ kept self.old + 1 }
        ensures added { IfOk result (λ r. (id : NodeId)
            → Knows self.new id → Knows self.old id ⊎ ((id ≡ r) ⊎ (id ≡ complement r))) }
    {
        prove!(level < self.levels);
        steps.tick();
        if lo == hi {
            return Ok(lo);
        }
        // Of a function and its complement the one whose `lo` is unmarked is kept.
        let marked = lo.is_marked();
        let position = self.keep(Node {
            level,
            lo: lo.complement_if(marked),
            hi: hi.complement_if(marked),
        })?;
        Ok(NodeId::at(position).complement_if(marked))
    }

    // The entry at a position.
    fn entry(&self, position: usize) -> Node
        requires { position ≤ kept self.now }
        ensures value { result ≡ entry_at self.now position }
        ensures unique { IsUniqueTable self.now }
    {
        self.entries.as_slice()[position]
    }

    // The position of a node, which is added where it is not there.
    fn keep(&mut self, node: Node) -> Result<usize, AllocError>
        requires { IsEntry self.old (kept self.old + 1) node }
        ensures kept { IfOk result (λ p. IsKept self.old self.new node p) }
        ensures fits { IfOk result (λ p. p < 2 ^ 63) }
        ensures refused { OnErr result (self.new ≡ self.old) }
        ensures absent { OnErr result ((p : ℕ) → p ≤ kept self.old → ¬ (entry_at self.old p ≡ node)) }
        ensures unique { IsUniqueTable self.new }
    {
        let (position, _) = self.entries.insert_full(node)?;
        prove!(position < self.entries.len());
        Ok(position)
    }
}

// The numbers of the levels, in order.
fn numbers(alloc: Global, levels: u32) -> Result<Vec<u32>, AllocError>
    ensures { IfOk result (λ numbers. numbers.items ≡ range_with_len 0 levels) }
{
    let mut numbers = Vec::new(alloc);
    for level in 0..levels {
        numbers.push(level)?;
    }
    Ok(numbers)
}
