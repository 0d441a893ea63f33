//! The scopes of a text: its enums, constants and templates, the members of each template, and the parameters and
//! locals of each body.
ghost use Rattle.std.specs.Prelude.{◌≡◌, ◌++◌, List, IfOk, map};
ghost use Rattle.std.specs.List.{flat_map};
ghost use Rattle.std.specs.Option.{option_map};
ghost use Rattle.tm_syntax.specs.Scopes.Declared as text;
ghost use Rattle.tm_syntax.specs.Tree as tree;
ghost use Rattle.tm_syntax.specs.Tree.View.{process_tree, spec_tree, task_tree, template_tree};
ghost use Rattle.tm_syntax.specs.Faults.Marks.{first_mark};
ghost use Rattle.tm_syntax.specs.Faults.Names.{names_twice};
ghost use Rattle.tm_names.specs.TextScopes.{AreTemplateScopes, AreTextScopes, Each, IsProcessScope, IsTaskScope};
ghost use Rattle.tm_names.specs.ScopeNames.{IsScope, mark_of};
ghost use Rattle.tm_names.specs.Inner.Repeats.{body_repeats, member_repeat, repeat_of};

use crate::scopes::mark::NameMark;
use crate::scopes::scope::{Scope, earlier_mark, scope_of, scope_within};
use crate::sorts::{members, process_slots, task_slots, text_names};
use std::alloc::{AllocError, Global};
use tm_syntax::tree::{ProcessDef, Spec, TaskDef, Template};

/// The scopes of a template: its members, and within them those of its bodies.
#[derive(Drop)]
pub(crate) struct TemplateScopes<'a> {
    pub(crate) members: Scope<'a>,
    pub(crate) processes: Vec<Scope<'a>>,
    pub(crate) tasks: Vec<Scope<'a>>,
}

/// All scopes of a text.
#[derive(Drop)]
pub struct TextScopes<'a> {
    pub(crate) text: Scope<'a>,
    pub(crate) templates: Vec<TemplateScopes<'a>>,
}

// The scope of a process within the members of its template.
fn process_scope<'a>(
    alloc: Global,
    process: &'a ProcessDef,
    members: &Scope<'a>,
) -> Result<Scope<'a>, AllocError>
    ensures { IfOk result (λ scope. (around : List text.Declared) → IsScope members.now around
        → IsProcessScope around members.now (process_tree process.now) scope) }
{
    let slots = process_slots(alloc, process)?;
    scope_within(alloc, slots.as_slice(), members)
}

// The scopes of processes within the members of their template.
fn process_scopes<'a>(
    alloc: Global,
    processes: &'a [ProcessDef],
    members: &Scope<'a>,
) -> Result<Vec<Scope<'a>>, AllocError>
    ensures { IfOk result (λ scopes. (around : List text.Declared) → IsScope members.now around
        → Each (IsProcessScope around members.now) (map process_tree processes.now) scopes.items) }
{
    let mut scopes = Vec::new(alloc);
    for process in processes {
        scopes.push(process_scope(alloc, process, members)?)?;
    }
    Ok(scopes)
}

// The scope of a task within the members of its template.
fn task_scope<'a>(
    alloc: Global,
    task: &'a TaskDef,
    members: &Scope<'a>,
) -> Result<Scope<'a>, AllocError>
    ensures { IfOk result (λ scope. (around : List text.Declared) → IsScope members.now around
        → IsTaskScope around members.now (task_tree task.now) scope) }
{
    let slots = task_slots(alloc, task)?;
    scope_within(alloc, slots.as_slice(), members)
}

// The scopes of tasks within the members of their template.
fn task_scopes<'a>(
    alloc: Global,
    tasks: &'a [TaskDef],
    members: &Scope<'a>,
) -> Result<Vec<Scope<'a>>, AllocError>
    ensures { IfOk result (λ scopes. (around : List text.Declared) → IsScope members.now around
        → Each (IsTaskScope around members.now) (map task_tree tasks.now) scopes.items) }
{
    let mut scopes = Vec::new(alloc);
    for task in tasks {
        scopes.push(task_scope(alloc, task, members)?)?;
    }
    Ok(scopes)
}

// The scope of the members of a template.
fn member_scope(alloc: Global, template: &Template) -> Result<Scope<'_>, AllocError>
    ensures { IfOk result (λ scope. IsScope scope (text.members (template_tree template.now))) }
{
    let declared = members(alloc, template)?;
    scope_of(alloc, declared.as_slice())
}

// The scopes of a template.
fn template_scopes(alloc: Global, template: &Template) -> Result<TemplateScopes<'_>, AllocError>
    ensures { IfOk result (λ scopes. AreTemplateScopes (template_tree template.now) scopes) }
{
    let members = member_scope(alloc, template)?;
    let processes = process_scopes(alloc, template.processes.as_slice(), &members)?;
    let tasks = task_scopes(alloc, template.tasks.as_slice(), &members)?;
    Ok(TemplateScopes {
        members,
        processes,
        tasks,
    })
}

// The scopes of templates.
fn templates_scopes(
    alloc: Global,
    templates: &[Template],
) -> Result<Vec<TemplateScopes<'_>>, AllocError>
    ensures { IfOk result (λ scopes. Each AreTemplateScopes (map template_tree templates.now) scopes.items) }
{
    let mut scopes = Vec::new(alloc);
    for template in templates {
        scopes.push(template_scopes(alloc, template)?)?;
    }
    Ok(scopes)
}

// The scope of the enums, enum constants and templates of a text.
fn text_scope(alloc: Global, spec: &Spec) -> Result<Scope<'_>, AllocError>
    ensures { IfOk result (λ scope. IsScope scope (text.text_names (spec_tree spec.now))) }
{
    let declared = text_names(alloc, spec)?;
    scope_of(alloc, declared.as_slice())
}

// The first repeat in some scopes.
fn first_in_scopes<'a>(scopes: &[Scope<'a>]) -> Option<NameMark<'a>>
    ensures { option_map mark_of result ≡ first_mark (flat_map repeat_of scopes.now) }
{
    let mut first = None;
    for scope in scopes {
        first = earlier_mark(first, scope.repeat);
    }
    first
}

// The first repeat in the bodies of a template.
fn first_in_bodies<'a>(scopes: &TemplateScopes<'a>) -> Option<NameMark<'a>>
    ensures { option_map mark_of result ≡ first_mark (body_repeats scopes.now) }
{
    let in_processes = first_in_scopes(scopes.processes.as_slice());
    let in_tasks = first_in_scopes(scopes.tasks.as_slice());
    earlier_mark(in_processes, in_tasks)
}

impl<'a> TextScopes<'a> {
    /// The scopes of a text. Linear in it. `AllocError` is want of memory.
    pub fn new(alloc: Global, spec: &'a Spec) -> Result<TextScopes<'a>, AllocError>
        ensures { IfOk result (λ scopes. AreTextScopes (spec_tree spec.now) scopes) }
    {
        let text = text_scope(alloc, spec)?;
        let templates = templates_scopes(alloc, spec.templates.as_slice())?;
        Ok(TextScopes { text, templates })
    }

    // The first repeat among the members of templates.
    fn first_of_members(&self) -> Option<NameMark<'a>>
        ensures { option_map mark_of result ≡ first_mark (flat_map member_repeat self.now.templates.items) }
    {
        let mut first = None;
        for scopes in &self.templates {
            first = earlier_mark(first, scopes.members.repeat);
        }
        first
    }

    // The first repeat in the bodies of templates.
    fn first_of_bodies(&self) -> Option<NameMark<'a>>
        ensures { option_map mark_of result ≡ first_mark (flat_map body_repeats self.now.templates.items) }
    {
        let mut first = None;
        for scopes in &self.templates {
            first = earlier_mark(first, first_in_bodies(scopes));
        }
        first
    }

    /// The first name of a text that is declared twice in one scope.
    pub fn first_twice(&self) -> Option<NameMark<'a>>
        ensures { (spec : tree.SpecTree) → AreTextScopes spec self.now
            → option_map mark_of result ≡ first_mark (names_twice spec) }
    {
        let declared = earlier_mark(self.text.repeat, self.first_of_members());
        earlier_mark(declared, self.first_of_bodies())
    }
}
