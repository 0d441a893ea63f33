//! The cells into which the arguments of a call go.
ghost use Rattle.std.specs.Prelude.{◌≡◌, ◌<◌, IfOk, Some, length, slice_get};
ghost use Rattle.tm_syntax.specs.declared.tree.Param as declared;
ghost use Rattle.tm_design.specs.Inner.ParamCells.{IsParamCell};
ghost use Rattle.tm_design.specs.Parameters.{AreCalledCells, task_at};

use std::alloc::{AllocError, Global};
use tm_scope::{CellNumber, CellScope, SlotNumber};
use tm_syntax::tree::TaskDef;

/// The cells of the parameters of a called task, in order, as its body sees them: `scope` is the body, and `task` the
/// task. Where a design that keeps them has no variable for one, the number is any. Linear in the parameters and their
/// paths. `AllocError` is want of memory.
pub fn parameter_cells(
    alloc: Global,
    scope: &CellScope,
    task: &TaskDef,
) -> Result<Vec<CellNumber>, AllocError>
    requires { task_at scope.now ≡ Some task.now }
    ensures { IfOk result (λ numbers. AreCalledCells scope.now (length task.now.params.items) numbers.items) }
{
    let mut cells = Vec::new(alloc);
    for index in 0..task.params.len() {
        cells.push(parameter_cell(scope, task, index))?;
    }
    Ok(cells)
}

// The cell of the parameter of an index.
fn parameter_cell(scope: &CellScope, task: &TaskDef, index: usize) -> CellNumber
    requires task { task_at scope.now ≡ Some task.now }
    requires within { index < length task.now.params.items }
    ensures { (p : declared.Param) → slice_get task.now.params.items index ≡ Some p →
        IsParamCell scope.now p result }
{
    let own = CellNumber::Step(SlotNumber::Param(index));
    if scope.is_kept() {
        let name = std::slice::from_ref(&task.params[index].name);
        scope.cell(name, None).unwrap_or(own)
    } else {
        own
    }
}
