//! The memory of a run, with a place for each cell.
ghost use Rattle.std.specs.Prelude.{◌≡◌, [], Some, OnOk, slice_set};
ghost use Rattle.tm_syntax.specs.Design.Cells.{Cell};
ghost use Rattle.tm_scope.specs.Cells.{CellTables, cell_at};
ghost use Rattle.tm_sem.specs.Value as run;
ghost use Rattle.tm_design.specs.StepCells.{AreApart};
ghost use Rattle.tm_plain_exprs.specs.Kept.{Keeps};

mod step_values;

use std::alloc::{AllocError, Global};
use std::marker::Model;
pub use step_values::StepValues;
use tm_design::StepCell;
use tm_scope::{CellNumber, SiteBody};

/// The memory of a run: the values of the state variables by their numbers, and those of the parameters and locals
/// that live for one step. Reading and putting one cell takes constant time.
///
/// Contracts see both, and say of which memory they are.
#[derive(Drop)]
pub struct Store {
    values: Vec<u64>,
    step: StepValues,
}

impl Model for Store {
    ghost use Rattle.tm_plain_exprs.specs.Kept.{Kept};

    ghost Value = { Kept };

    ghost view = { λ s. record { values = s.values.items; step = s.step } };
}

impl Store {
    /// The memory of the values of a state, in which nothing lives for a step yet.
    pub fn new(alloc: Global, values: Vec<u64>) -> Store
        ensures values { result.values ≡ values.items }
        ensures keeps { (x : CellTables) → Keeps x result (run.plain_memory values.items) }
    {
        Store {
            values,
            step: StepValues::new(alloc),
        }
    }

    /// The value of a cell, as a body of an instance numbers it.
    pub fn read(&self, at: SiteBody, cell: CellNumber) -> u64
        ensures { (x : CellTables) (m : run.Memory) (c : Cell) → Keeps x self.now m → cell_at x at cell ≡ Some c
            → result ≡ run.read m c }
    {
        match cell {
            CellNumber::State(number) => self.values.get(number).copied().unwrap_or(0),
            CellNumber::Step(slot) => self.step.get(StepCell { at, slot }),
        }
    }

    /// Puts a value into a cell, as a body of an instance numbers it, where the parameters and locals of each body have
    /// names of their own. A state variable that is not there gets none. `AllocError` is want of memory, and comes only
    /// where the cell lives for one step.
    pub fn put(&mut self, at: SiteBody, cell: CellNumber, value: u64) -> Result<(), AllocError>
        ensures { OnOk result ((x : CellTables) (m : run.Memory) (c : Cell) → AreApart x → Keeps x self.old m
            → cell_at x at cell ≡ Some c → Keeps x self.new (run.put m c value)) }
    {
        match cell {
            CellNumber::State(number) => self.put_variable(number, value),
            CellNumber::Step(slot) => self.step.set(StepCell { at, slot }, value)?,
        }
        Ok(())
    }

    // Puts a value into a state variable.
    fn put_variable(&mut self, number: usize, value: u64)
        ensures values { self.new.values ≡ slice_set self.old.values number value }
        ensures step { self.new.step ≡ self.old.step }
    {
        if number < self.values.len() {
            self.values[number] = value;
        }
    }
}
