//! The controllable tasks of a design.
ghost use Rattle.std.specs.Prelude.{◌≡◌, IfNone, IfSome, None};
ghost use Rattle.std.specs.Option.{option_map};
ghost use Rattle.tm_syntax.specs.Design.View.{design_tree};
ghost use Rattle.tm_scope.specs.declared.context.BodyName.TheVariants.{Task};
ghost use Rattle.tm_sem.specs.Step.{task_of};
ghost use Rattle.tm_design.specs.Parameters.{task_at};
ghost use Rattle.tm_flat_exprs.specs.Tables.{cells_of};
ghost use Rattle.tm_flat_moves.specs.Controllable.{IsControllable};

use crate::tasks::Tasks;
use tm_scope::{BodyName, SiteBody};
use tm_syntax::tree::TaskDef;

/// A controllable task, with the body of an instance that it is.
#[derive(Drop)]
pub(crate) struct Controllable<'s> {
    pub at: SiteBody,
    pub task: &'s TaskDef,
}

impl<'s> Tasks<'s> {
    // The task of a number of an instance.
    fn task_def(&self, instance: u32, index: usize) -> Option<&'s TaskDef>
        ensures { option_map (λ task. task.now) result ≡ task_at (record {
          tables = cells_of self.now.design.now;
          at = record { instance = instance; body = Task index };
        }) }
    {
        let node = self.design.instances.get(instance as usize)?;
        let template = self.design.spec.templates.get(node.template as usize)?;
        template.tasks.get(index)
    }

    /// The controllable task of a number. There is none exactly where the design has none.
    pub(crate) fn controllable(&self, number: u32) -> Option<Controllable<'s>>
        ensures found { IfSome result (λ k.
            IsControllable (cells_of self.now.design.now) (design_tree self.now.design.now) number k.at k.task.now) }
        ensures none { IfNone result (task_of (design_tree self.now.design.now) number ≡ None) }
    {
        let item = self.design.tasks.get(number as usize)?;
        let index = item.index? as usize;
        let task = self.task_def(item.instance, index)?;
        Some(Controllable {
            at: SiteBody {
                instance: item.instance,
                body: BodyName::Task(index),
            },
            task,
        })
    }
}
