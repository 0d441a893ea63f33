//! The numbers of nodes, and of the names of constants.
ghost use Rattle.std.specs.Prelude.{◌≡◌, [], Some, IfOk, OnOk, slice_get};
ghost use Rattle.tm_atoms.specs.Inner.Numbers.{IsGrown, IsSound};

use crate::node::Node;
use indexmap::IndexSet;
use std::alloc::{AllocError, Global};
use std::marker::Model;

/// Nodes and names, each of which stands once and has its index as its number (hash-consing).
///
/// Contracts see both as lists. A number stands for the same node or name for as long as the table lives.
#[derive(Drop)]
pub(crate) struct NodeTable<'t> {
    names: IndexSet<&'t [u8]>,
    nodes: IndexSet<Node>,
}

impl<'t> Model for NodeTable<'t> {
    ghost use Rattle.std.specs.Coded.{codes};
    ghost use Rattle.std.specs.Prelude.{map};
    ghost use Rattle.tm_atoms.specs.Inner.Numbers.{NumberTables, IsSound};
    ghost use Rattle.tm_atoms.specs.contracts.node.Node as node_contract;

    ghost Value = { NumberTables };

    ghost view = { λ t. record { names = map (λ n. n.now) t.names.keys; nodes = t.nodes.keys } };

    ghost invariant = { λ t. IsSound (record { names = map (λ n. n.now) t.names.keys; nodes = t.nodes.keys }) };

    ghost coded = { Prim.hlevel (codes, node_contract.the_row.coded) };
}

impl<'t> NodeTable<'t> {
    /// A table without nodes and names.
    pub(crate) fn new(alloc: Global) -> NodeTable<'t>
        ensures { result ≡ record { names = []; nodes = [] } }
    {
        NodeTable {
            names: IndexSet::new(alloc),
            nodes: IndexSet::new(alloc),
        }
    }

    /// The number of a node, a new one where it has none. `AllocError` is want of memory.
    pub(crate) fn node(&mut self, node: Node) -> Result<usize, AllocError>
        ensures number { IfOk result (λ k. slice_get self.new.nodes k ≡ Some node) }
        ensures grown { IsGrown self.old self.new }
        ensures sound { IsSound self.new }
    {
        let (number, _) = self.nodes.insert_full(node)?;
        Ok(number)
    }

    /// The number of a name, a new one where it has none. `AllocError` is want of memory.
    pub(crate) fn name(&mut self, name: &'t [u8]) -> Result<usize, AllocError>
        ensures number { IfOk result (λ k. slice_get self.new.names k ≡ Some name.now) }
        ensures grown { IsGrown self.old self.new }
        ensures sound { IsSound self.new }
    {
        let (number, _) = self.names.insert_full(name)?;
        Ok(number)
    }
}
