//! What the tasks of an instance add to each count.
ghost use Rattle.std.specs.Prelude.{◌≡◌, ◌<◌, Some, length, map, slice_get};
ghost use Rattle.std.specs.List.{enumerate_from};
ghost use Rattle.tm_syntax.specs.declared.tree.Template as declared;
ghost use Rattle.tm_syntax.specs.Tree.View.{spec_tree, task_tree, template_tree};
ghost use Rattle.tm_syntax.specs.Scopes.Pauses.{is_controllable};
ghost use Rattle.tm_syntax.specs.Counts.Bodies.{task_bits};
ghost use Rattle.tm_limits.specs.Amount.{capped};
ghost use Rattle.tm_limits.specs.Shares.{AreTaskCounts, combination_of, controllable_share, task_share};
ghost use Rattle.tm_limits.specs.Totals.{over};

use crate::amount::sum;
use crate::shares::bits::{locals_bits, params_bits};
use crate::shares::bodies::{choices_of_body, weight_of_body};
use crate::shares::{TaskCounts, combination_of};
use crate::totals::combined;
use crate::weights::Weight;
use tm_scope::{BodyName, Scopes, task_is_kept};
use tm_syntax::fault::Quantity;
use tm_syntax::member::Member;
use tm_syntax::tree::{TaskDef, TaskKind, Template};

/// What the tasks of an instance of the template of a number add.
pub(crate) fn tasks_share(
    scopes: &Scopes,
    counts: &TaskCounts,
    quantity: Quantity,
    number: usize,
    template: &Template,
) -> u64
    requires counted { AreTaskCounts (spec_tree scopes.now) counts.now }
    requires numbered { slice_get scopes.now.templates.items number ≡ Some template.now }
    ensures { result ≡ capped (over (combination_of quantity)
        (map (task_share (spec_tree scopes.now) quantity (template_tree template.now))
        (enumerate_from 0 (map task_tree template.now.tasks.items)))) }
{
    let tasks = template.tasks.as_slice();
    let mut share = 0;
    for (index, task) in tasks.iter().enumerate() {
        let own = task_share(scopes, counts, quantity, number, index, task);
        share = combined(combination_of(quantity), share, own);
    }
    share
}

// What the task of a number adds.
fn task_share(
    scopes: &Scopes,
    counts: &TaskCounts,
    quantity: Quantity,
    number: usize,
    index: usize,
    task: &TaskDef,
) -> u64
    requires counted { AreTaskCounts (spec_tree scopes.now) counts.now }
    requires within { number < length scopes.now.templates.items }
    ensures { (t : declared.Template) → slice_get scopes.now.templates.items number ≡ Some t
        → slice_get t.tasks.items index ≡ Some task.now → result
        ≡ capped (task_share (spec_tree scopes.now) quantity (template_tree t) (index, task_tree task.now)) }
{
    match quantity {
        Quantity::State => task_bits(
            scopes,
            counts,
            Member {
                template: number,
                index,
            },
            task,
        ),
        _ => {
            if is_controllable(&task.kind) {
                controllable_share(scopes, counts, quantity, number, index, task)
            } else {
                0
            }
        }
    }
}

// What is kept in the state of the task of a number.
fn task_bits(scopes: &Scopes, counts: &TaskCounts, number: Member, task: &TaskDef) -> u64
    requires { AreTaskCounts (spec_tree scopes.now) counts.now }
    ensures { (t : declared.Template) → slice_get scopes.now.templates.items number.template ≡ Some t
        → slice_get t.tasks.items number.index ≡ Some task.now → result
        ≡ capped (task_bits (spec_tree scopes.now) (template_tree t) (task_tree task.now)) }
{
    if task_is_kept(scopes, &counts.pausing, number) {
        sum(
            params_bits(scopes, task.params.as_slice()),
            locals_bits(scopes, task.body.locals.as_slice()),
        )
    } else {
        0
    }
}

// What a controllable task adds.
fn controllable_share(
    scopes: &Scopes,
    counts: &TaskCounts,
    quantity: Quantity,
    number: usize,
    index: usize,
    task: &TaskDef,
) -> u64
    requires counted { AreTaskCounts (spec_tree scopes.now) counts.now }
    requires within { number < length scopes.now.templates.items }
    ensures { (t : declared.Template) → slice_get scopes.now.templates.items number ≡ Some t → result
        ≡ capped (controllable_share (spec_tree scopes.now) quantity (template_tree t) (index, task_tree task.now)) }
{
    match quantity {
        Quantity::Statements => {
            weight_of_body(scopes, counts, number, Weight::Statements, &task.body)
        }
        Quantity::Tasks => 1,
        Quantity::Choices => choices_of_body(
            scopes,
            counts,
            number,
            BodyName::Task(index),
            &task.body,
        ),
        Quantity::Arguments => params_bits(scopes, task.params.as_slice()),
        Quantity::Specification
        | Quantity::Name
        | Quantity::Instances
        | Quantity::Processes
        | Quantity::Goals
        | Quantity::Fairness
        | Quantity::State
        | Quantity::Locations
        | Quantity::Atoms => 0,
    }
}

// Whether the driver may call a task.
fn is_controllable(kind: &TaskKind) -> bool
    ensures { result ≡ is_controllable kind.now }
{
    match kind {
        TaskKind::Controllable => true,
        TaskKind::Uncontrollable => false,
        TaskKind::Procedure(_) => false,
    }
}
