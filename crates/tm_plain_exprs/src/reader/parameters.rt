//! The cells of the parameters of a body, and the values that they get.
ghost use Rattle.std.specs.Prelude.{◌≡◌, IfOk, List, OnOk, Some, length, map};
ghost use Rattle.tm_syntax.specs.Design.Cells.{Cell};
ghost use Rattle.tm_scope.specs.Cells.{cell_at};
ghost use Rattle.tm_sem.specs.Value as run;
ghost use Rattle.tm_design.specs.Parameters.{AreCalledCells, task_at};
ghost use Rattle.tm_design.specs.StepCells.{AreApart};
ghost use Rattle.tm_plain_exprs.specs.Kept.{Keeps, put_all};

use crate::reader::Reader;
use crate::store::Store;
use std::alloc::{AllocError, Global};
use tm_design::parameter_cells;
use tm_scope::CellNumber;
use tm_syntax::tree::TaskDef;

impl<'a> Reader<'a> {
    /// The cells into which the arguments of a call of the body go, which is that of this task. Linear in the
    /// parameters and their paths. `AllocError` is want of memory.
    pub fn parameters(&self, alloc: Global, task: &TaskDef) -> Result<Vec<CellNumber>, AllocError>
        requires { task_at self.now ≡ Some task.now }
        ensures { IfOk result
            (λ numbers. AreCalledCells self.now (length task.now.params.items) numbers.items) }
    {
        parameter_cells(alloc, &self.scope, task)
    }

    /// Puts values into cells, one after the other, as many as there are of both. `AllocError` is want of memory.
    pub fn put_all(
        &self,
        store: &mut Store,
        cells: &[CellNumber],
        values: &[u64],
    ) -> Result<(), AllocError>
        ensures { OnOk result ((m : run.Memory) (cs : List Cell) → AreApart self.now.tables
            → Keeps self.now.tables store.old m → map (cell_at self.now.tables self.now.at) cells.now ≡ map Some cs
            → Keeps self.now.tables store.new (put_all m cs values.now)) }
    {
        for index in 0..cells.len().min(values.len()) {
            store.put(self.at, cells[index], values[index])?;
        }
        Ok(())
    }
}
