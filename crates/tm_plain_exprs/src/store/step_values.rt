//! The values of parameters and locals that live for one step.
ghost use Rattle.std.specs.Prelude.{◌≡◌, OnOk, [], if◌then◌else◌};
ghost use Rattle.tm_design.specs.StepCells.{same_cell};
ghost use Rattle.tm_plain_exprs.specs.Kept.{kept_value};

use indexmap::IndexMap;
use std::alloc::{AllocError, Global};
use std::marker::Model;
use tm_design::StepCell;

/// The values of parameters and locals that live for one step, each found in constant time.
///
/// Contracts see those that got a value, with their values.
#[derive(Drop)]
pub struct StepValues {
    kept: IndexMap<StepCell, u64>,
}

impl Model for StepValues {
    ghost use Rattle.std.specs.Prelude.{ℕ, List};
    ghost use Rattle.tm_design.specs.declared.step_cells.StepCell.{StepCell};

    ghost Value = { List (StepCell × ℕ) };

    ghost view = { λ v. v.kept.entries };
}

impl StepValues {
    /// No parameter or local has got a value.
    pub fn new(alloc: Global) -> StepValues
        ensures { result ≡ [] }
    {
        StepValues {
            kept: IndexMap::new(alloc),
        }
    }

    /// The value of a parameter or local; what got none has the value 0.
    pub fn get(&self, cell: StepCell) -> u64
        ensures { result ≡ kept_value self.now cell }
    {
        self.kept.get(&cell).copied().unwrap_or(0)
    }

    /// Gives a parameter or local a value. `AllocError` is want of memory.
    pub fn set(&mut self, cell: StepCell, value: u64) -> Result<(), AllocError>
        ensures { OnOk result ((other : StepCell) → kept_value self.new other
            ≡ (if same_cell cell other then value else kept_value self.old other)) }
    {
        self.kept.insert(cell, value)?;
        Ok(())
    }
}
