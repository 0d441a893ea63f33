//! `F8`: tasks and procedures that reach themselves by calls.
ghost use Rattle.std.specs.Prelude.{◌≡◌, IfNone, IfOk, IfSome, map};
ghost use Rattle.std.specs.List.{enumerate_from, flat_map};
ghost use Rattle.std.specs.Option.{option_map};
ghost use Rattle.tm_syntax.specs.declared.fault.FaultKind.TheVariants as kind;
ghost use Rattle.tm_syntax.specs.Tree.View.{spec_tree, task_tree, template_tree};
ghost use Rattle.tm_syntax.specs.Faults.{HasFault, IsFree};
ghost use Rattle.tm_syntax.specs.Faults.Cycles.{template_tasks};
ghost use Rattle.tm_syntax.specs.Faults.Marks.{first_mark};
ghost use Rattle.tm_types.specs.Inner.Looping.{looping_mark, task_mark};
ghost use Rattle.tm_names.specs.ScopeNames.{mark_of};

use std::alloc::{AllocError, Global};
use tm_names::{NameMark, earlier_mark};
use tm_scope::{Scopes, TaskSet, looping_tasks};
use tm_syntax::member::Member;
use tm_syntax::tree::{Spec, TaskDef, Template};

// A task of a template, if it is one of these.
fn looping_name<'a>(
    looping: &TaskSet,
    template: usize,
    index: usize,
    task: &'a TaskDef,
) -> Option<NameMark<'a>>
    ensures { option_map mark_of result
        ≡ first_mark (looping_mark looping.now (task_mark template (index, task_tree task.now))) }
{
    if looping.has(Member { template, index }) {
        Some(NameMark {
            place: task.name.place,
            name: task.name.text.as_bytes(),
        })
    } else {
        None
    }
}

// The first of these tasks in the template of a number.
fn first_in_template<'a>(
    looping: &TaskSet,
    number: usize,
    template: &'a Template,
) -> Option<NameMark<'a>>
    ensures { option_map mark_of result
        ≡ first_mark (flat_map (looping_mark looping.now) (template_tasks (number, template_tree template.now))) }
{
    let mut first = None;
    for (index, task) in template.tasks.as_slice().iter().enumerate() {
        first = earlier_mark(first, looping_name(looping, number, index, task));
    }
    first
}

// The first of these tasks in some templates.
fn first_in_templates<'a>(looping: &TaskSet, templates: &'a [Template]) -> Option<NameMark<'a>>
    ensures { option_map mark_of result ≡ first_mark (flat_map (looping_mark looping.now)
        (flat_map template_tasks (enumerate_from 0 (map template_tree templates.now)))) }
{
    let mut first = None;
    for (number, template) in templates.iter().enumerate() {
        first = earlier_mark(first, first_in_template(looping, number, template));
    }
    first
}

/// The first task or procedure of a text that reaches itself by calls. Linear in the text. `AllocError` is want of
/// memory.
pub(crate) fn first_looping<'a>(
    alloc: Global,
    scopes: &Scopes,
    spec: &'a Spec,
) -> Result<Option<NameMark<'a>>, AllocError>
    requires { scopes.now ≡ spec.now }
    ensures first { IfOk result (λ r. IfSome r (λ m. HasFault kind.CallCycle (spec_tree spec.now) (mark_of m))) }
    ensures none { IfOk result (λ r. IfNone r (IsFree (spec_tree spec.now) kind.CallCycle)) }
{
    let looping = given!(looping_tasks(alloc, scopes));
    let first = first_in_templates(&looping, spec.templates.as_slice());
    drop(looping);
    Ok(first)
}
