//! The types that a template's text writes.
ghost use Rattle.std.specs.Prelude.{◌≡◌, ◌++◌, IfOk, OnOk, map};
ghost use Rattle.std.specs.List.{flat_map};
ghost use Rattle.std.specs.Option.{option_to_list};
ghost use Rattle.tm_syntax.specs.Tree.View.{template_tree};
ghost use Rattle.tm_syntax.specs.Scopes.Parts.{template_types, written_result};
ghost use Rattle.tm_names.specs.Parts.{listed_types};
ghost use Rattle.tm_names.specs.Inner.WrittenTypes.{process_types, task_types};

use crate::parts::has_type::HasType;
use std::alloc::{AllocError, Global};
use tm_syntax::tree::{ProcessDef, TaskDef, TaskKind, Template, TypeName};

/// The types that a template's text writes, sorted by the parts that write them. `AllocError` is want of memory.
pub fn template_types(alloc: Global, template: &Template) -> Result<Vec<&TypeName>, AllocError>
    ensures { IfOk result (λ types. listed_types types.items ≡ template_types (template_tree template.now)) }
{
    let mut types = Vec::new(alloc);
    push_types(&mut types, template.vars.as_slice())?;
    push_process_types(&mut types, template.processes.as_slice())?;
    push_task_types(&mut types, template.tasks.as_slice())?;
    Ok(types)
}

// Puts the types of some parts behind others.
fn push_types<'a, T: HasType>(
    types: &mut Vec<&'a TypeName>,
    parts: &'a [T],
) -> Result<(), AllocError>
    ensures { OnOk result (listed_types types.new.items ≡ listed_types types.old.items ++ map T.ty parts.now) }
{
    for part in parts {
        types.push(part.ty())?;
    }
    Ok(())
}

// Puts the types of the locals of processes behind others.
fn push_process_types<'a>(
    types: &mut Vec<&'a TypeName>,
    processes: &'a [ProcessDef],
) -> Result<(), AllocError>
    ensures { OnOk result (listed_types types.new.items
        ≡ listed_types types.old.items ++ flat_map process_types processes.now) }
{
    for process in processes {
        push_types(types, process.body.locals.as_slice())?;
    }
    Ok(())
}

// Puts the type of a task's result behind others, if it has one.
fn push_result<'a>(types: &mut Vec<&'a TypeName>, kind: &'a TaskKind) -> Result<(), AllocError>
    ensures { OnOk result (listed_types types.new.items
        ≡ listed_types types.old.items ++ option_to_list (written_result kind.now)) }
{
    match kind {
        TaskKind::Controllable => Ok(()),
        TaskKind::Uncontrollable => Ok(()),
        TaskKind::Procedure(None) => Ok(()),
        TaskKind::Procedure(Some(ty)) => {
            types.push(ty)?;
            Ok(())
        }
    }
}

// Puts the types of a task's result, parameters and locals behind others.
fn push_types_of_task<'a>(
    types: &mut Vec<&'a TypeName>,
    task: &'a TaskDef,
) -> Result<(), AllocError>
    ensures { OnOk result (listed_types types.new.items ≡ listed_types types.old.items ++ task_types task.now) }
{
    push_result(types, &task.kind)?;
    push_types(types, task.params.as_slice())?;
    push_types(types, task.body.locals.as_slice())?;
    Ok(())
}

// Puts the types of the results, parameters and locals of tasks behind others.
fn push_task_types<'a>(
    types: &mut Vec<&'a TypeName>,
    tasks: &'a [TaskDef],
) -> Result<(), AllocError>
    ensures { OnOk result (listed_types types.new.items
        ≡ listed_types types.old.items ++ flat_map task_types tasks.now) }
{
    for task in tasks {
        push_types_of_task(types, task)?;
    }
    Ok(())
}
