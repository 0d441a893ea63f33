//! A walk over a graph, part way.
ghost use Rattle.std.specs.Prelude.{
  ◌≡◌,
  ◌+◌,
  ◌<◌,
  ◌≤◌,
  ◌∷◌,
  ◌++◌,
  [],
  ℕ,
  IfOk,
  List,
  MatchOption,
  None,
  OnOk,
  Some,
  length,
  slice_get,
};
ghost use Rattle.tm_scope.specs.Graph.{HasEdgesWithin, graph_of};
ghost use Rattle.tm_scope.specs.Inner.Walks.{AreBusy, IsLast, IsWalkOf, IsWalking, left_over, walked_nodes};
ghost use Rattle.tm_scope.specs.declared.graph.groups.Group as grouped;

use crate::graph::Walked;
use crate::graph::groups::{Group, join_groups};
use std::alloc::{AllocError, Global};

/// A walk. The nodes on its path stand in groups whose nodes reach each other. An edge that is to be followed waits as
/// the node to which it leads, behind those that lead from earlier groups.
#[derive(Drop)]
pub(crate) struct Walk {
    /// Where on the path each node was put, if it was.
    pub(crate) opened: Vec<Option<usize>>,
    pub(crate) path: Vec<usize>,
    pub(crate) pending: Vec<usize>,
    pub(crate) groups: Vec<Group>,
    pub(crate) order: Vec<Walked>,
}

impl Walk {
    /// A walk that is to come to each node of a graph.
    pub(crate) fn new(alloc: Global, edges: &[Vec<usize>]) -> Result<Walk, AllocError>
        ensures walking { IfOk result (IsWalkOf (graph_of edges.now)) }
        ensures busy { IfOk result AreBusy }
    {
        let mut opened = Vec::new(alloc);
        opened.resize(edges.len(), None)?;
        let pending = all_below(alloc, edges.len())?;
        Ok(Walk {
            opened,
            path: Vec::new(alloc),
            pending,
            groups: Vec::new(alloc),
            order: Vec::new(alloc),
        })
    }

    /// Follows an edge to a node, which was the last one to be followed.
    pub(crate) fn follow(&mut self, edges: &[Vec<usize>], node: usize) -> Result<(), AllocError>
        requires within { HasEdgesWithin (graph_of edges.now) }
        requires walking { IsWalking (graph_of edges.now) self.old.opened.items self.old.path.items
            (self.old.pending.items ++ node ∷ []) self.old.groups.items self.old.order.items }
        requires busy { (i : ℕ) (g : grouped.Group) → slice_get self.old.groups.items i ≡ Some g
            → g.pending ≤ length self.old.pending.items }
        ensures walking { OnOk result (IsWalkOf (graph_of edges.now) self.new) }
        ensures less { OnOk result
            (left_over (graph_of edges.now) self.new.opened.items + length self.new.pending.items
            ≤ left_over (graph_of edges.now) self.old.opened.items + length self.old.pending.items) }
    {
        match self.opened[node] {
            None => self.enter(edges, node),
            Some(at) => {
                if at < self.path.len() && self.path[at] == node {
                    join_groups(&mut self.groups, at);
                }
                Ok(())
            }
        }
    }

    // Puts a node on the path, in a group of its own.
    fn enter(&mut self, edges: &[Vec<usize>], node: usize) -> Result<(), AllocError>
        requires within { HasEdgesWithin (graph_of edges.now) }
        requires walking { IsWalking (graph_of edges.now) self.old.opened.items self.old.path.items
            (self.old.pending.items ++ node ∷ []) self.old.groups.items self.old.order.items }
        requires busy { (i : ℕ) (g : grouped.Group) → slice_get self.old.groups.items i ≡ Some g
            → g.pending ≤ length self.old.pending.items }
        requires unopened { slice_get self.old.opened.items node ≡ Some None }
        ensures walking { OnOk result (IsWalkOf (graph_of edges.now) self.new) }
        ensures less { OnOk result
            (left_over (graph_of edges.now) self.new.opened.items + length self.new.pending.items
            ≤ left_over (graph_of edges.now) self.old.opened.items + length self.old.pending.items) }
    {
        let start = self.path.len();
        let pending = self.pending.len();
        self.opened[node] = Some(start);
        self.groups.push(Group {
            start,
            pending,
            loops: false,
        })?;
        self.path.push(node)?;
        self.pending.extend_from_slice(edges[node].as_slice())?;
        Ok(())
    }

    /// Leaves the last groups of the path as long as all edges of their nodes have been followed.
    pub(crate) fn close_groups(&mut self) -> Result<(), AllocError>
        requires { (graph : List (List ℕ)) × IsWalkOf graph self.old }
        ensures walking { (graph : List (List ℕ)) → IsWalkOf graph self.old → OnOk result (IsWalkOf graph self.new) }
        ensures busy { (graph : List (List ℕ)) → IsWalkOf graph self.old → OnOk result (AreBusy self.new) }
        ensures opened { self.new.opened ≡ self.old.opened }
        ensures pending { self.new.pending ≡ self.old.pending }
    {
        while let Some(group) = self.exhausted() {
            self.close(group)?;
        }
        Ok(())
    }

    // The last group of the path, if all edges of its nodes have been followed.
    fn exhausted(&self) -> Option<Group>
        ensures { MatchOption result ((graph : List (List ℕ)) → IsWalkOf graph self.now → AreBusy self.now)
            (λ g. IsLast self.now.groups.items g × (length self.now.pending.items ≤ g.pending)) }
    {
        let group = *self.groups.as_slice().last()?;
        if group.pending < self.pending.len() {
            None
        } else {
            Some(group)
        }
    }

    // Leaves the last group.
    fn close(&mut self, group: Group) -> Result<(), AllocError>
        requires last { IsLast self.old.groups.items group }
        requires followed { length self.old.pending.items ≤ group.pending }
        requires within { group.start ≤ length self.old.path.items }
        ensures walking { (graph : List (List ℕ)) → IsWalkOf graph self.old → OnOk result (IsWalkOf graph self.new) }
        ensures less { OnOk result (length self.new.groups.items < length self.old.groups.items) }
        ensures opened { self.new.opened ≡ self.old.opened }
        ensures pending { self.new.pending ≡ self.old.pending }
    {
        leave(
            &mut self.order,
            &self.path.as_slice()[group.start..],
            group.loops,
        )?;
        self.path.truncate(group.start);
        self.groups.pop();
        Ok(())
    }
}

// Puts nodes into the order.
fn leave(order: &mut Vec<Walked>, nodes: &[usize], loops: bool) -> Result<(), AllocError>
    ensures { OnOk result (order.new.items ≡ order.old.items ++ walked_nodes loops nodes.now) }
{
    for node in nodes {
        order.push(Walked { node: *node, loops })?;
    }
    Ok(())
}

// All numbers below one.
fn all_below(alloc: Global, count: usize) -> Result<Vec<usize>, AllocError>
    ensures each { IfOk result (λ all. (k : ℕ) → k < count → slice_get all.items k ≡ Some k) }
    ensures length { IfOk result (λ all. length all.items ≡ count) }
{
    let mut all = Vec::new(alloc);
    for number in 0..count {
        all.push(number)?;
    }
    Ok(all)
}
