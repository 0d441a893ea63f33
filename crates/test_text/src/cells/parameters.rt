//! The cells of the parameters of tasks.
ghost use Rattle.std.specs.Prelude.{◌≡◌, IfSome, List};
ghost use Rattle.std.specs.Option.{option_copied};
ghost use Rattle.tm_syntax.specs.declared.design.Var as variable;
ghost use Rattle.tm_design.specs.Parameters.{task_at};

use std::alloc::{AllocError, Global};
use tm_design::parameter_cells;
use tm_scope::{BodyName, CellNumber, CellScope, Cells, SiteBody};
use tm_syntax::design::Instance;
use tm_syntax::tree::{Spec, TaskDef};

/// A body of an instance.
fn body<'c>(cells: &'c Cells, at: SiteBody) -> Option<CellScope<'c>>
    ensures { IfSome result (λ s. s ≡ record { tables = cells.now; at = at }) }
{
    cells.scope(at)
}

/// The task of a body.
fn task_of<'s>(spec: &'s Spec, instances: &[Instance], at: SiteBody) -> Option<&'s TaskDef>
    ensures { (vars : List variable.Var) → option_copied result ≡ task_at (record {
      tables = record { spec = spec.now; instances = instances.now; vars = vars };
      at = at;
    }) }
{
    let node = instances.get(at.instance as usize)?;
    let template = spec.templates.get(node.template as usize)?;
    match at.body {
        BodyName::Process(_) => None,
        BodyName::Task(index) => template.tasks.get(index),
        BodyName::Outside => None,
    }
}

/// The cells of the parameters of a body, if it is that of a task.
fn task_cells(
    alloc: Global,
    scope: &CellScope,
    task: Option<&TaskDef>,
) -> Result<Option<Vec<CellNumber>>, AllocError>
    requires { option_copied task ≡ task_at scope.now }
{
    match task {
        Some(task) => {
            let cells = parameter_cells(alloc, scope, task)?;
            Ok(Some(cells))
        }
        None => Ok(None),
    }
}

/// The cells of the parameters of the task that a body of an instance is, if it is one.
pub fn cells_at(
    alloc: Global,
    cells: &Cells,
    spec: &Spec,
    instances: &[Instance],
    at: SiteBody,
) -> Result<Option<Vec<CellNumber>>, AllocError>
    requires { cells.now
        ≡ record { spec = spec.now; instances = instances.now; vars = cells.now.vars } }
{
    match body(cells, at) {
        Some(scope) => task_cells(alloc, &scope, task_of(spec, instances, at)),
        None => Ok(None),
    }
}
