//! The processes, controllable tasks, goals and fairness conditions of instances.
ghost use Rattle.std.specs.Prelude.{◌≡◌, ◌≤◌, ◌<◌, ◌++◌, ◌∷◌, [], All, IfOk, OnOk, length, map, true};
ghost use Rattle.tm_syntax.specs.Tree as tree;
ghost use Rattle.tm_syntax.specs.Tree.View.{named_tree, process_tree, spec_tree, task_tree, template_tree};
ghost use Rattle.tm_syntax.specs.Scopes.Pauses.{is_controllable};
ghost use Rattle.tm_syntax.specs.Design.{all_items, instance_node, with_goal};
ghost use Rattle.tm_inst.specs.Inner.Listed.{instance_lists, item_of, items_from, joined, lists_from, lists_of, template_lists};
ghost use Rattle.tm_inst.specs.Sizes.{HasShortLists, number_limit};

use crate::paths::member_name;
use std::alloc::{AllocError, Global};
use tm_base::Name;
use tm_syntax::design::{Instance, Item};
use tm_syntax::tree::{Ident, Named, ProcessDef, Spec, TaskDef, TaskKind, Template};

/// The items of a design, each list instance by instance, and in text order within a template.
#[derive(Drop)]
pub struct Items {
    pub processes: Vec<Item>,
    /// The controllable tasks.
    pub tasks: Vec<Item>,
    /// The goals: one, named `true`, where none is declared.
    pub goals: Vec<Item>,
    /// The declared fairness conditions.
    pub fairs: Vec<Item>,
}

/// The items of instances of a specification's templates, as its design numbers them, in time linear in their paths.
/// `AllocError` is want of memory.
pub fn list_items(alloc: Global, spec: &Spec, instances: &[Instance]) -> Result<Items, AllocError>
    requires short { All HasShortLists spec.now.templates.items }
    requires few { length instances.now ≤ number_limit }
    ensures processes { IfOk result (λ x. x.processes.items ≡ all_items (λ t. t.processes) (λ _. true)
        (λ (p : tree.ProcessTree). p.name) (spec_tree spec.now) (map instance_node instances.now)) }
    ensures tasks { IfOk result (λ x. x.tasks.items ≡ all_items (λ t. t.tasks)
        (λ (k : tree.TaskTree). is_controllable k.kind) (λ (k : tree.TaskTree). k.name) (spec_tree spec.now)
        (map instance_node instances.now)) }
    ensures goals { IfOk result (λ x. x.goals.items ≡ with_goal (all_items (λ t. t.goals) (λ _. true)
        (λ (g : tree.NamedTree). g.name) (spec_tree spec.now) (map instance_node instances.now))) }
    ensures fairs { IfOk result (λ x. x.fairs.items ≡ all_items (λ t. t.fairs) (λ _. true)
        (λ (f : tree.NamedTree). f.name) (spec_tree spec.now) (map instance_node instances.now)) }
{
    let mut items = declared_items(alloc, spec, instances)?;
    add_goal(alloc, &mut items.goals)?;
    Ok(items)
}

// The items that are declared.
fn declared_items(alloc: Global, spec: &Spec, instances: &[Instance]) -> Result<Items, AllocError>
    requires short { All HasShortLists spec.now.templates.items }
    requires few { length instances.now ≤ number_limit }
    ensures { IfOk result (λ x. lists_of x ≡ lists_from (spec_tree spec.now) 0 (map instance_node instances.now)) }
{
    let mut items = Items {
        processes: Vec::new(alloc),
        tasks: Vec::new(alloc),
        goals: Vec::new(alloc),
        fairs: Vec::new(alloc),
    };
    for (number, node) in instances.iter().enumerate() {
        push_instance(alloc, &mut items, spec, number as u32, node)?;
    }
    Ok(items)
}

// Puts a goal named `true` where there is none.
fn add_goal(alloc: Global, goals: &mut Vec<Item>) -> Result<(), AllocError>
    ensures { OnOk result (goals.new.items ≡ with_goal goals.old.items) }
{
    if !goals.is_empty() {
        return Ok(());
    }
    let path = Name::from_bytes(alloc, b"true")?;
    goals.push(Item {
        path,
        instance: 0,
        index: None,
    })?;
    Ok(())
}

// Puts the items of an instance behind others.
fn push_instance(
    alloc: Global,
    items: &mut Items,
    spec: &Spec,
    number: u32,
    node: &Instance,
) -> Result<(), AllocError>
    requires short { All HasShortLists spec.now.templates.items }
    ensures { OnOk result (lists_of items.new
        ≡ joined (lists_of items.old) (instance_lists (spec_tree spec.now) (number, instance_node node.now))) }
{
    match spec.templates.get(node.template as usize) {
        Some(template) => push_template(alloc, items, number, node.path.as_bytes(), template),
        None => Ok(()),
    }
}

// Puts the items of a template behind others.
fn push_template(
    alloc: Global,
    items: &mut Items,
    number: u32,
    base: &[u8],
    template: &Template,
) -> Result<(), AllocError>
    requires short { HasShortLists template.now }
    ensures { OnOk result (lists_of items.new
        ≡ joined (lists_of items.old) (template_lists number base.now (template_tree template.now))) }
{
    push_processes(
        alloc,
        &mut items.processes,
        number,
        base,
        template.processes.as_slice(),
    )?;
    push_tasks(
        alloc,
        &mut items.tasks,
        number,
        base,
        template.tasks.as_slice(),
    )?;
    push_named(
        alloc,
        &mut items.goals,
        number,
        base,
        template.goals.as_slice(),
    )?;
    push_named(
        alloc,
        &mut items.fairs,
        number,
        base,
        template.fairs.as_slice(),
    )
}

// Puts processes behind others.
fn push_processes(
    alloc: Global,
    items: &mut Vec<Item>,
    number: u32,
    base: &[u8],
    processes: &[ProcessDef],
) -> Result<(), AllocError>
    requires short { length processes.now ≤ number_limit }
    ensures { OnOk result (items.new.items ≡ items.old.items
        ++ items_from (λ _. true) (λ (p : tree.ProcessTree). p.name) number base.now 0
        (map process_tree processes.now)) }
{
    for (index, process) in processes.iter().enumerate() {
        push_item(alloc, items, number, base, &process.name, index as u32)?;
    }
    Ok(())
}

// Puts those of some tasks that are controllable behind others.
fn push_tasks(
    alloc: Global,
    items: &mut Vec<Item>,
    number: u32,
    base: &[u8],
    tasks: &[TaskDef],
) -> Result<(), AllocError>
    requires short { length tasks.now ≤ number_limit }
    ensures { OnOk result (items.new.items ≡ items.old.items
        ++ items_from (λ (k : tree.TaskTree). is_controllable k.kind) (λ (k : tree.TaskTree). k.name) number base.now 0
        (map task_tree tasks.now)) }
{
    for (index, task) in tasks.iter().enumerate() {
        push_task(alloc, items, number, base, task, index as u32)?;
    }
    Ok(())
}

// Puts a task behind others, if it is controllable.
fn push_task(
    alloc: Global,
    items: &mut Vec<Item>,
    number: u32,
    base: &[u8],
    task: &TaskDef,
    index: u32,
) -> Result<(), AllocError>
    ensures { OnOk result (items.new.items ≡ items.old.items
        ++ items_from (λ (k : tree.TaskTree). is_controllable k.kind) (λ (k : tree.TaskTree). k.name) number base.now
        index (task_tree task.now ∷ [])) }
{
    if is_controllable(&task.kind) {
        push_item(alloc, items, number, base, &task.name, index)
    } else {
        Ok(())
    }
}

// Whether the driver may call a task of this sort.
fn is_controllable(kind: &TaskKind) -> bool
    ensures { result ≡ is_controllable kind.now }
{
    match kind {
        TaskKind::Controllable => true,
        TaskKind::Uncontrollable => false,
        TaskKind::Procedure(_) => false,
    }
}

// Puts goals or fairness conditions behind others.
fn push_named(
    alloc: Global,
    items: &mut Vec<Item>,
    number: u32,
    base: &[u8],
    named: &[Named],
) -> Result<(), AllocError>
    requires short { length named.now ≤ number_limit }
    ensures { OnOk result (items.new.items ≡ items.old.items
        ++ items_from (λ _. true) (λ (g : tree.NamedTree). g.name) number base.now 0 (map named_tree named.now)) }
{
    for (index, one) in named.iter().enumerate() {
        push_item(alloc, items, number, base, &one.name, index as u32)?;
    }
    Ok(())
}

// Puts the item of a name behind others.
fn push_item(
    alloc: Global,
    items: &mut Vec<Item>,
    number: u32,
    base: &[u8],
    name: &Ident,
    index: u32,
) -> Result<(), AllocError>
    ensures { OnOk result (items.new.items ≡ items.old.items ++ item_of number base.now index name.now ∷ []) }
{
    let path = member_name(alloc, base, name.text.as_bytes())?;
    items.push(Item {
        path,
        instance: number,
        index: Some(index),
    })?;
    Ok(())
}
