//! The bodies of a template by their numbers.
ghost use Rattle.std.specs.Prelude.{◌≡◌, IfOk, map};
ghost use Rattle.std.specs.Option.{option_copied};
ghost use Rattle.tm_scope.specs.Inner.Tables.{process_slots, task_slots};
ghost use Rattle.tm_scope.specs.Members.{body_slots};

use crate::context::BodyName;
use crate::scopes::body_names::BodyNames;
use std::alloc::{AllocError, Global};
use std::marker::Model;
use tm_syntax::tree::{ProcessDef, TaskDef, Template};

/// A template, whose parameters and locals are found by their names, body for body. Contracts see the template.
#[derive(Drop)]
pub(crate) struct Bodies<'a> {
    template: &'a Template,
    processes: Vec<BodyNames<'a>>,
    tasks: Vec<BodyNames<'a>>,
}

impl<'a> Model for Bodies<'a> {
    ghost use Rattle.std.specs.Coded.{codes};
    ghost use Rattle.tm_syntax.specs.declared.tree.Template.{Template};
    ghost use Rattle.tm_syntax.specs.contracts.tree.Template as template_contract;
    ghost use Rattle.tm_scope.specs.Inner.Tables.{AreBodies};

    ghost Value = { Template };

    ghost view = { λ x. x.template.now };

    ghost invariant = { λ x. AreBodies x.template.now x.processes.items x.tasks.items };

    ghost coded = { Prim.hlevel (codes, template_contract.the_row.coded) };
}

impl<'a> Bodies<'a> {
    /// The tables of a template.
    pub(crate) fn new(alloc: Global, template: &'a Template) -> Result<Bodies<'a>, AllocError>
        ensures { IfOk result (λ t. t ≡ template.now) }
    {
        let processes = bodies_of_processes(alloc, template.processes.as_slice())?;
        let tasks = bodies_of_tasks(alloc, template.tasks.as_slice())?;
        Ok(Bodies {
            template,
            processes,
            tasks,
        })
    }

    /// The tables of a body.
    pub(crate) fn body(&self, body: BodyName) -> Option<&BodyNames<'a>>
        ensures { option_copied result ≡ body_slots self.now body }
    {
        match body {
            BodyName::Process(k) => self.processes.get(k),
            BodyName::Task(k) => self.tasks.get(k),
            BodyName::Outside => None,
        }
    }
}

// The tables of each process's body.
fn bodies_of_processes<'a>(
    alloc: Global,
    processes: &'a [ProcessDef],
) -> Result<Vec<BodyNames<'a>>, AllocError>
    ensures { IfOk result (λ bodies. bodies.items ≡ map process_slots processes.now) }
{
    let mut bodies = Vec::new(alloc);
    for process in processes {
        bodies.push(BodyNames::new(alloc, &[], process.body.locals.as_slice())?)?;
    }
    Ok(bodies)
}

// The tables of the body of each task.
fn bodies_of_tasks<'a>(
    alloc: Global,
    tasks: &'a [TaskDef],
) -> Result<Vec<BodyNames<'a>>, AllocError>
    ensures { IfOk result (λ bodies. bodies.items ≡ map task_slots tasks.now) }
{
    let mut bodies = Vec::new(alloc);
    for task in tasks {
        bodies.push(BodyNames::new(alloc, task.params.as_slice(), task.body.locals.as_slice())?)?;
    }
    Ok(bodies)
}
