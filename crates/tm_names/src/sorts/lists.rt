//! The names of each scope, in the order of its definition.
ghost use Rattle.std.specs.Prelude.{◌≡◌, ◌∷◌, ◌++◌, IfOk, OnOk, map};
ghost use Rattle.std.specs.List.{flat_map};
ghost use Rattle.tm_syntax.specs.declared.tree.Ident as spelled;
ghost use Rattle.tm_syntax.specs.Scopes.Declared as text;
ghost use Rattle.tm_syntax.specs.Tree.View.{body_tree, enum_tree, spec_tree, task_tree, template_tree};
ghost use Rattle.tm_names.specs.Sorts.{all_declared};
ghost use Rattle.tm_names.specs.Inner.ScopeParts.{body_members, enum_names, neighbor_members, value_members};

use crate::sorts::declares::Declares;
use crate::sorts::sort::{Declared, Sort};
use std::alloc::{AllocError, Global};
use tm_syntax::tree::{EnumDef, Ident, ProcessDef, Spec, TaskDef, Template};

// Puts what some parts declare behind others.
fn push_declared<'a, T: Declares>(
    all: &mut Vec<Declared<'a>>,
    parts: &'a [T],
) -> Result<(), AllocError>
    ensures { OnOk result (all_declared all.new.items ≡ all_declared all.old.items ++ map T.declared parts.now) }
{
    for part in parts {
        all.push(part.declared())?;
    }
    Ok(())
}

// Puts the ports and instances of a template behind others.
fn push_neighbors<'a>(all: &mut Vec<Declared<'a>>, template: &'a Template) -> Result<(), AllocError>
    ensures { OnOk result (all_declared all.new.items
        ≡ all_declared all.old.items ++ neighbor_members (template_tree template.now)) }
{
    push_declared(all, template.ports.as_slice())?;
    push_declared(all, template.instances.as_slice())?;
    Ok(())
}

// Puts the variables, goals and fairness conditions of a template behind others.
fn push_values<'a>(all: &mut Vec<Declared<'a>>, template: &'a Template) -> Result<(), AllocError>
    ensures { OnOk result (all_declared all.new.items
        ≡ all_declared all.old.items ++ value_members (template_tree template.now)) }
{
    push_declared(all, template.vars.as_slice())?;
    push_declared(all, template.goals.as_slice())?;
    push_declared(all, template.fairs.as_slice())?;
    Ok(())
}

// Puts the processes, tasks and procedures of a template behind others.
fn push_bodies<'a>(all: &mut Vec<Declared<'a>>, template: &'a Template) -> Result<(), AllocError>
    ensures { OnOk result (all_declared all.new.items
        ≡ all_declared all.old.items ++ body_members (template_tree template.now)) }
{
    push_declared(all, template.processes.as_slice())?;
    push_declared(all, template.tasks.as_slice())?;
    Ok(())
}

/// The members of a template.
pub(crate) fn members(alloc: Global, template: &Template) -> Result<Vec<Declared<'_>>, AllocError>
    ensures { IfOk result (λ all. all_declared all.items ≡ text.members (template_tree template.now)) }
{
    let mut all = Vec::new(alloc);
    push_neighbors(&mut all, template)?;
    push_values(&mut all, template)?;
    push_bodies(&mut all, template)?;
    Ok(all)
}

/// The locals of a process.
pub(crate) fn process_slots(
    alloc: Global,
    process: &ProcessDef,
) -> Result<Vec<Declared<'_>>, AllocError>
    ensures { IfOk result (λ all. all_declared all.items ≡ text.locals (body_tree process.now.body)) }
{
    let mut all = Vec::new(alloc);
    push_declared(&mut all, process.body.locals.as_slice())?;
    Ok(all)
}

/// The parameters and locals of a task.
pub(crate) fn task_slots(alloc: Global, task: &TaskDef) -> Result<Vec<Declared<'_>>, AllocError>
    ensures { IfOk result (λ all. all_declared all.items ≡ text.task_slots (task_tree task.now)) }
{
    let mut all = Vec::new(alloc);
    push_declared(&mut all, task.params.as_slice())?;
    push_declared(&mut all, task.body.locals.as_slice())?;
    Ok(all)
}

// Puts constants behind other names.
fn push_constants<'a>(all: &mut Vec<Declared<'a>>, constants: &'a [Ident]) -> Result<(), AllocError>
    ensures { OnOk result (all_declared all.new.items ≡ all_declared all.old.items
        ++ map (λ (x : spelled.Ident). text.declared text.a_constant x) constants.now) }
{
    for name in constants {
        all.push(Declared {
            name,
            sort: Sort::Constant,
        })?;
    }
    Ok(())
}

// Puts an enum and its constants behind other names.
fn push_enum<'a>(all: &mut Vec<Declared<'a>>, def: &'a EnumDef) -> Result<(), AllocError>
    ensures { OnOk result (all_declared all.new.items
        ≡ all_declared all.old.items ++ enum_names (enum_tree def.now)) }
{
    all.push(Declared {
        name: &def.name,
        sort: Sort::Enum,
    })?;
    push_constants(all, def.constants.as_slice())?;
    Ok(())
}

// Puts enums and their constants behind other names.
fn push_enums<'a>(all: &mut Vec<Declared<'a>>, enums: &'a [EnumDef]) -> Result<(), AllocError>
    ensures { OnOk result (all_declared all.new.items
        ≡ all_declared all.old.items ++ flat_map (λ e. enum_names (enum_tree e)) enums.now) }
{
    for def in enums {
        push_enum(all, def)?;
    }
    Ok(())
}

// Puts templates behind other names.
fn push_templates<'a>(
    all: &mut Vec<Declared<'a>>,
    templates: &'a [Template],
) -> Result<(), AllocError>
    ensures { OnOk result (all_declared all.new.items ≡ all_declared all.old.items
        ++ map (λ t. text.declared (text.a_template (template_tree t)) t.name) templates.now) }
{
    for (number, template) in templates.iter().enumerate() {
        all.push(Declared {
            name: &template.name,
            sort: Sort::Template(number, template),
        })?;
    }
    Ok(())
}

/// The enums, enum constants and templates of a text.
pub(crate) fn text_names(alloc: Global, spec: &Spec) -> Result<Vec<Declared<'_>>, AllocError>
    ensures { IfOk result (λ all. all_declared all.items ≡ text.text_names (spec_tree spec.now)) }
{
    let mut all = Vec::new(alloc);
    push_enums(&mut all, spec.enums.as_slice())?;
    push_templates(&mut all, spec.templates.as_slice())?;
    Ok(all)
}
