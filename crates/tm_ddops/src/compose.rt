//! Substitution of functions for levels, all at once.
ghost use Rattle.std.specs.Prelude.{◌≡◌, Contains, map, IfOk};
ghost use Rattle.tm_dd.specs.Reduced.{Extends};
ghost use Rattle.tm_dd.specs.Table.{Knows, means};
ghost use Rattle.tm_dd.specs.declared.node.NodeId.{NodeId as Id};
ghost use Rattle.tm_ddops.specs.Manager.{Grows, IsFunction, IsManager, IsResult, Remembers};
ghost use Rattle.tm_ddops.specs.Operation.{substituted};
ghost use Rattle.tm_ddops.specs.declared.operation.Operation.TheVariants as operation;

use crate::manager::Manager;
use crate::operation::{Operation, Parts};
use std::alloc::AllocError;
use tm_dd::NodeId;

impl Manager {
    /// The function `f` with the parts' functions in the places of their levels, all at once.
    pub fn compose(&mut self, f: NodeId, parts: &[(u32, NodeId)]) -> Result<NodeId, AllocError>
        requires known { Knows self.old.table f }
        requires parts { (g : Id) → Contains (map (λ p. p.1) parts.now) g → Knows self.old.table g }

        ensures manager { IsManager self.new }
        ensures grows { Grows self.old self.new }
        ensures answer { IfOk result (λ id.
            IsFunction self.new.table id (λ v.
            means self.new.table f (substituted self.new.table parts.now v))) }
        ensures remembered { IfOk result (Remembers self.new (operation.Compose f parts.now)) }
    {
        let composition = Operation::Compose(f, Parts::from_slice(self.alloc, parts)?);
        if let Some(known) = self.known(&composition) {
            return Ok(known);
        }
        let answer = self.composed(f, parts)?;
        self.remembered(composition, answer)?;
        Ok(answer)
    }

    /// The function `f` with the parts' functions in the places of their levels, all at once. It remembers no result,
    /// so where none is asked for again it takes less.
    pub fn compose_once(&mut self, f: NodeId, parts: &[(u32, NodeId)]) -> Result<NodeId, AllocError>
        requires known { Knows self.old.table f }
        requires parts { (g : Id) → Contains (map (λ p. p.1) parts.now) g → Knows self.old.table g }

        ensures manager { IsManager self.new }
        ensures extends { Extends self.old.table self.new.table }
        ensures results { self.new.results ≡ self.old.results }
        ensures answer { IfOk result (λ id.
            IsFunction self.new.table id (λ v.
            means self.new.table f (substituted self.new.table parts.now v))) }
    {
        self.composed(f, parts)
    }

    // The function `f` with the parts' functions in the places of their levels, as the result of an operation.
    fn composed(&mut self, f: NodeId, parts: &[(u32, NodeId)]) -> Result<NodeId, AllocError>
        requires known { Knows self.old.table f }
        requires parts { (g : Id) → Contains (map (λ p. p.1) parts.now) g → Knows self.old.table g }

        ensures manager { IsManager self.new }
        ensures extends { Extends self.old.table self.new.table }
        ensures results { self.new.results ≡ self.old.results }
        ensures answer { IfOk result (IsResult self.new.table (operation.Compose f parts.now)) }
    {
        self.rewrite(f, parts)
    }
}
