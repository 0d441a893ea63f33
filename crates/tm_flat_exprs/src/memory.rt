//! The memory of a run as terms.
ghost use Rattle.std.specs.Prelude.{◌≡◌, IfOk, IfSome, OnOk, List, Some, length, map, slice_get, slice_set, ℕ};
ghost use Rattle.tm_syntax.specs.declared.design.Ty.{Ty};
ghost use Rattle.tm_syntax.specs.declared.design.Var.{Var};
ghost use Rattle.tm_syntax.specs.Tree.View.{spec_tree};
ghost use Rattle.tm_syntax.specs.Design.Cells.{Cell};
ghost use Rattle.tm_syntax.specs.Design.Sizes.{type_bits};
ghost use Rattle.tm_scope.specs.Cells.{CellTables, cell_at};
ghost use Rattle.tm_sem.specs.Value as run;
ghost use Rattle.tm_term.specs.declared.term.TermId as ids;
ghost use Rattle.tm_term.specs.Table.{IsSound, Table};
ghost use Rattle.tm_term.specs.Value.{value_of};
ghost use Rattle.tm_flat.specs.Steps.{IsTerm};
ghost use Rattle.tm_flat_exprs.specs.Kept.{IsCellKept, Keeps, type_at};
ghost use Rattle.tm_design.specs.StepCells.{AreApart};
ghost use Rattle.tm_flat_exprs.specs.Merged.{AreAlike, IsMemory, Merges, Reads, values_after};
ghost use Rattle.tm_base.specs.Arithmetic.{IsWidth};
ghost use Rattle.tm_flat_exprs.specs.Made.{Makes, value_at};

mod choices;
mod step_terms;
mod versions;

use crate::gates::make;
use choices::chosen_values;
use std::alloc::{AllocError, Global};
use std::marker::Model;
pub use step_terms::StepTerms;
use tm_design::StepCell;
use tm_scope::{CellNumber, SiteBody};
use tm_term::{Term, TermId, Terms};
pub use versions::Version;

/// The memory of a run: a term for each state variable by its number, and one for each parameter and local that lives
/// for one step and has got a value.
///
/// Contracts see both, and say of which memory they are over values of the inputs.
#[derive(Drop)]
pub struct TermMemory {
    values: Vec<TermId>,
    step: StepTerms,
}

impl Model for TermMemory {
    ghost use Rattle.tm_flat_exprs.specs.Kept.{KeptTerms};

    ghost Value = { KeptTerms };

    ghost view = { λ s. record { values = s.values.items; step = s.step } };
}

impl TermMemory {
    /// The memory of these terms of the state variables, in which nothing lives for a step yet.
    pub fn new(alloc: Global, values: Vec<TermId>) -> TermMemory
        ensures values { result.values ≡ values.items }
        ensures keeps { (x : CellTables) (u : Table) (v : List ℕ)
            → Keeps x u v result (run.plain_memory (map (value_of u v) values.items)) }
        ensures memory { (x : CellTables) (t : Table) → length values.items ≡ length x.vars
            → ((i : ℕ) (id : ids.TermId) (var : Var) → slice_get values.items i ≡ Some id
            → slice_get x.vars i ≡ Some var → IsTerm t (type_bits (spec_tree x.spec) var.ty) id)
            → IsMemory x t result }
    {
        TermMemory {
            values,
            step: StepTerms::new(alloc),
        }
    }

    /// The term in a cell of a type of so many bits, as a body of an instance numbers it; where there is none the cell
    /// has the value 0. What is asked for is the memory of a table that keeps its terms, with a cell of such a type.
    pub fn read(
        &self,
        terms: &mut Terms,
        at: SiteBody,
        cell: CellNumber,
        width: u8,
    ) -> Result<TermId, AllocError>
        requires sound { IsSound terms.old }
        requires width { IsWidth width }
        requires kept { IsCellKept terms.old self.now at cell width }
        ensures { IfOk result (Reads terms.old terms.new self.now at cell width) }
    {
        match cell {
            CellNumber::State(number) => {
                let id = self.read_variable(terms, number, width)?;
                Ok(id)
            }
            CellNumber::Step(slot) => {
                let id = self.step.read(terms, StepCell { at, slot }, width)?;
                Ok(id)
            }
        }
    }

    // The term of a state variable of so many bits, and that of the number 0 where there is none.
    fn read_variable(
        &self,
        terms: &mut Terms,
        number: usize,
        width: u8,
    ) -> Result<TermId, AllocError>
        requires sound { IsSound terms.old }
        requires width { IsWidth width }
        requires known { IfSome (slice_get self.now.values number) (IsTerm terms.old width) }
        ensures { IfOk result (λ id. Makes terms.old terms.new width id
            (λ u v. value_at u v (slice_get self.now.values number))) }
    {
        match self.variable(number) {
            Some(id) => Ok(id),
            None => {
                let zero = make(terms, Term::Const(width, 0))?;
                Ok(zero)
            }
        }
    }

    /// The term of the state variable of a number.
    pub fn variable(&self, number: usize) -> Option<TermId>
        ensures { result ≡ slice_get self.now.values number }
    {
        self.values.get(number).copied()
    }

    /// Puts a term into a cell, as a body of an instance numbers it, where the parameters and locals of each body have
    /// names of their own. A state variable that is not there gets none. `AllocError` is want of memory, and comes only
    /// where the cell lives for one step.
    pub fn put(&mut self, at: SiteBody, cell: CellNumber, id: TermId) -> Result<(), AllocError>
        ensures values { OnOk result (self.new.values ≡ values_after self.old.values cell id) }
        ensures keeps { OnOk result ((x : CellTables) (u : Table) (v : List ℕ) (m : run.Memory) (c : Cell) → AreApart x
            → Keeps x u v self.old m → cell_at x at cell ≡ Some c
            → Keeps x u v self.new (run.put m c (value_of u v id))) }
        ensures memory { OnOk result ((x : CellTables) (t : Table) (ty : Ty) → IsMemory x t self.old
            → type_at x at cell ≡ Some ty → IsTerm t (type_bits (spec_tree x.spec) ty) id → IsMemory x t self.new) }
    {
        match cell {
            CellNumber::State(number) => self.put_variable(number, id),
            CellNumber::Step(slot) => self.step.set(StepCell { at, slot }, id)?,
        }
        Ok(())
    }

    // Puts a term into a state variable.
    fn put_variable(&mut self, number: usize, id: TermId)
        ensures values { self.new.values ≡ slice_set self.old.values number id }
        ensures step { self.new.step ≡ self.old.step }
    {
        if number < self.values.len() {
            self.values[number] = id;
        }
    }

    /// The memory that is this one where a truth holds, and else another one. A state variable of which both have one
    /// term keeps it; of parameters and locals no term is made before one is read. Linear in the cells of both, with a
    /// comparison for each parameter and local that got a value.
    pub fn merge(
        self,
        alloc: Global,
        terms: &mut Terms,
        guard: TermId,
        other: &TermMemory,
    ) -> Result<TermMemory, AllocError>
        requires sound { IsSound terms.old }
        requires guard { IsTerm terms.old 1 guard }
        requires alike { AreAlike terms.old self other.now }
        ensures { IfOk result (Merges terms.old terms.new guard self other.now) }
    {
        let values = chosen_values(alloc, terms, guard, &self.values, &other.values)?;
        let step = self.step.merge(guard, &other.step)?;
        Ok(TermMemory { values, step })
    }

    /// A copy, which shares what is told of parameters and locals: a word for each state variable, and one for each 64
    /// parameters and locals that got a value. `AllocError` is want of memory.
    pub fn copied(&self, alloc: Global) -> Result<TermMemory, AllocError>
        ensures { IfOk result (λ copy. copy ≡ self.now) }
    {
        Ok(TermMemory {
            values: Vec::from_slice(alloc, &self.values)?,
            step: self.step.copied()?,
        })
    }
}
