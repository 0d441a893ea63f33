//! Which parameters and locals are kept in the state.
ghost use Rattle.std.specs.Prelude.{◌≡◌, List, [], Some, false, slice_get};
ghost use Rattle.std.specs.Option.{option_map_or};
ghost use Rattle.tm_syntax.specs.Tree.{SpecTree};
ghost use Rattle.tm_syntax.specs.Tree.View.{spec_tree, template_tree};
ghost use Rattle.tm_syntax.specs.Scopes.Context.{Frame, frame_of};
ghost use Rattle.tm_syntax.specs.Scopes.Pauses.{is_kept, is_uncontrollable};
ghost use Rattle.tm_scope.specs.CallOrder.{CoversTasks};
ghost use Rattle.tm_scope.specs.Cells.{ArePausing};
ghost use Rattle.tm_scope.specs.Context.{body_name};
ghost use Rattle.tm_scope.specs.Marks.{ArePassing, pauses_at};
ghost use Rattle.tm_scope.specs.Members.{task_at};
ghost use Rattle.tm_syntax.specs.declared.member.Member as numbered;

use crate::calls::TaskSet;
use crate::context::BodyName;
use crate::scopes::Scopes;
use tm_syntax::member::Member;
use tm_syntax::tree::{TaskKind, Template};

/// Whether the parameters and locals of a task are kept in the state, by the tasks of the text that may pause. A number
/// without a task has none. In constant time.
pub fn task_is_kept(scopes: &Scopes, pausing: &TaskSet, task: Member) -> bool
    requires { ArePausing (spec_tree scopes.now) pausing.now }
    ensures { result ≡ option_map_or (λ t. is_kept (spec_tree scopes.now) t.0 t.1)
        (task_at (spec_tree scopes.now) task) false }
{
    match scopes.task(task) {
        Some(def) => is_uncontrollable(&def.kind) && pausing.has(task),
        None => false,
    }
}

// Whether a task is the environment's own.
fn is_uncontrollable(kind: &TaskKind) -> bool
    ensures { result ≡ is_uncontrollable kind.now }
{
    match kind {
        TaskKind::Uncontrollable => true,
        TaskKind::Controllable => false,
        TaskKind::Procedure(_) => false,
    }
}

// Whether the parameters and locals of a body of a template are kept; where there is no body, none are.
pub(crate) fn body_is_kept(
    scopes: &Scopes,
    pausing: &TaskSet,
    number: usize,
    template: &Template,
    body: BodyName,
) -> bool
    requires pausing { ArePausing (spec_tree scopes.now) pausing.now }
    requires numbered { slice_get scopes.now.templates.items number ≡ Some template.now }
    ensures { result ≡ option_map_or (λ (f : Frame). f.kept)
        (frame_of (spec_tree scopes.now) (template_tree template.now) (body_name body)) false }
{
    match body {
        BodyName::Process(index) => index < template.processes.len(),
        BodyName::Task(index) => {
            let task = Member {
                template: number,
                index,
            };
            task_is_kept(scopes, pausing, task)
        }
        BodyName::Outside => false,
    }
}

// The name of a body of a template; where there is no body, it is empty.
pub(crate) fn text_of_name(template: &Template, body: BodyName) -> &[u8]
    ensures { (spec : SpecTree) → result.now ≡ option_map_or (λ (f : Frame). f.name)
        (frame_of spec (template_tree template.now) (body_name body)) [] }
{
    match body {
        BodyName::Process(index) => match template.processes.get(index) {
            Some(process) => process.name.text.as_bytes(),
            None => &[],
        },
        BodyName::Task(index) => match template.tasks.get(index) {
            Some(task) => task.name.text.as_bytes(),
            None => &[],
        },
        BodyName::Outside => &[],
    }
}

/// Where an order has all tasks of a text, the tasks of it that may pause are those of the text that do.
pub fn ordered_tasks_are_pausing()
    ensures { (spec : SpecTree) (order tasks : List numbered.Member) → CoversTasks spec order
        → ArePassing (pauses_at spec) order tasks → ArePausing spec tasks }
{}
