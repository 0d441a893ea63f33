//! The tasks that paths call.
ghost use Rattle.std.specs.Prelude.{◌≡◌, IfNone, IfSome, None};
ghost use Rattle.tm_syntax.specs.Design.{DesignTree};
ghost use Rattle.tm_syntax.specs.Design.Cells.{called};
ghost use Rattle.tm_scope.specs.Cells.{CellTables, HasCells, scope_of};
ghost use Rattle.tm_design.specs.Callees.{IsCallee, instances_of};

use tm_scope::{BodyName, SiteBody, Sites};
use tm_syntax::tree::{Ident, Spec, TaskDef};

/// A task or procedure of an instance, with its definition.
#[derive(Drop)]
pub struct Callee<'s> {
    pub at: SiteBody,
    pub task: &'s TaskDef,
}

/// The task or procedure that a path of a body of an instance calls, by the text and the instances. Linear in the
/// path.
pub fn called_task<'s>(
    spec: &'s Spec,
    sites: &Sites,
    at: SiteBody,
    path: &[Ident],
) -> Option<Callee<'s>>
    requires { spec.now ≡ sites.now.spec }
    ensures found { IfSome result (λ c. (x : CellTables) → sites.now ≡ instances_of x
        → IsCallee x at path.now c.at c.task.now) }
    ensures none { IfNone result ((x : CellTables) → sites.now ≡ instances_of x → (d : DesignTree) → HasCells x d
        → called d (scope_of at) path.now ≡ None) }
{
    let found = sites.task_along(at.instance, path)?;
    let template = sites.instance(found.instance)?.template as usize;
    let task = spec.templates.get(template)?.tasks.get(found.index)?;
    Some(Callee {
        at: SiteBody {
            instance: found.instance,
            body: BodyName::Task(found.index),
        },
        task,
    })
}
