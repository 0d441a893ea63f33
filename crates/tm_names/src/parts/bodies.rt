//! The bodies of a template, each with the place where it stands.
ghost use Rattle.std.specs.Prelude.{◌≡◌, ◌++◌, IfOk, OnOk, Some, slice_get};
ghost use Rattle.std.specs.List.{flat_map};
ghost use Rattle.std.specs.Option.{option_map};
ghost use Rattle.tm_syntax.specs.Tree.View.{body_tree, expr_tree, local_tree, spec_tree, stmt_tree, template_tree};
ghost use Rattle.tm_syntax.specs.Scopes.Parts as text;
ghost use Rattle.tm_scope.specs.Context.{context_of};
ghost use Rattle.tm_names.specs.Asked.{all_asked};
ghost use Rattle.tm_names.specs.Bodies.{all_bodies, body_at};
ghost use Rattle.tm_names.specs.LocalStmts.{declaration};
ghost use Rattle.tm_names.specs.Inner.BodyLists.{asked_answer, placed, process_bodies, task_bodies};

use crate::names::TextNames;
use crate::parts::asked::{Asked, ExprPart};
use crate::parts::exprs::{push_local_exprs, push_stmt_exprs};
use crate::parts::site::Site;
use crate::parts::stmts::all_stmts;
use std::alloc::{AllocError, Global};
use tm_scope::BodyName;
use tm_syntax::tree::{Body, Expr, LocalDef, Stmt, Template};

/// A body of a text, with the place where it stands.
#[derive(Drop)]
pub struct BodyPart<'a> {
    pub site: Site<'a>,
    pub body: &'a Body,
}

// A body of the template of a number.
fn body_part<'a>(
    names: &'a TextNames<'a>,
    number: usize,
    template: &'a Template,
    name: BodyName,
    body: &'a Body,
) -> BodyPart<'a>
    requires { slice_get names.now.templates.items number ≡ Some template.now }
    ensures { body_at result ≡ placed (spec_tree names.now) (template_tree template.now) name (body_tree body.now) }
{
    let _template = template;
    BodyPart {
        site: Site::new(names, number, name),
        body,
    }
}

// Puts the bodies of the processes of the template of a number behind others.
fn push_process_bodies<'a>(
    bodies: &mut Vec<BodyPart<'a>>,
    names: &'a TextNames<'a>,
    number: usize,
    template: &'a Template,
) -> Result<(), AllocError>
    requires { slice_get names.now.templates.items number ≡ Some template.now }
    ensures { OnOk result (all_bodies bodies.new.items ≡ all_bodies bodies.old.items
        ++ process_bodies (spec_tree names.now) (template_tree template.now) 0 template.now.processes.items) }
{
    for (index, process) in template.processes.as_slice().iter().enumerate() {
        let name = BodyName::Process(index);
        bodies.push(body_part(names, number, template, name, &process.body))?;
    }
    Ok(())
}

// Puts the bodies of the tasks of the template of a number behind others.
fn push_task_bodies<'a>(
    bodies: &mut Vec<BodyPart<'a>>,
    names: &'a TextNames<'a>,
    number: usize,
    template: &'a Template,
) -> Result<(), AllocError>
    requires { slice_get names.now.templates.items number ≡ Some template.now }
    ensures { OnOk result (all_bodies bodies.new.items ≡ all_bodies bodies.old.items
        ++ task_bodies (spec_tree names.now) (template_tree template.now) 0 template.now.tasks.items) }
{
    for (index, task) in template.tasks.as_slice().iter().enumerate() {
        bodies.push(body_part(names, number, template, BodyName::Task(index), &task.body))?;
    }
    Ok(())
}

/// The bodies of the template of a number. `AllocError` is want of memory.
pub fn template_bodies<'a>(
    alloc: Global,
    names: &'a TextNames<'a>,
    number: usize,
    template: &'a Template,
) -> Result<Vec<BodyPart<'a>>, AllocError>
    requires { slice_get names.now.templates.items number ≡ Some template.now }
    ensures { IfOk result (λ bodies. all_bodies bodies.items
        ≡ text.template_bodies (spec_tree names.now) (template_tree template.now)) }
{
    let mut bodies = Vec::new(alloc);
    push_process_bodies(&mut bodies, names, number, template)?;
    push_task_bodies(&mut bodies, names, number, template)?;
    Ok(bodies)
}

// Puts the expressions of the declarations of locals behind others.
fn push_locals<'a>(
    asked: &mut Vec<Asked<'a>>,
    site: &Site<'a>,
    locals: &'a [LocalDef],
) -> Result<(), AllocError>
    ensures { OnOk result (all_asked asked.new.items ≡ all_asked asked.old.items
        ++ flat_map (λ l. text.stmt_exprs (context_of site.now) (declaration (local_tree l))) locals.now) }
{
    for local in locals {
        push_local_exprs(asked, site, local)?;
    }
    Ok(())
}

// Puts the expressions of listed statements behind others.
fn push_stmts<'a>(
    asked: &mut Vec<Asked<'a>>,
    site: &Site<'a>,
    stmts: &[&'a Stmt],
) -> Result<(), AllocError>
    ensures { OnOk result (all_asked asked.new.items ≡ all_asked asked.old.items
        ++ flat_map (λ s. text.stmt_exprs (context_of site.now) (stmt_tree s.now)) stmts.now) }
{
    for stmt in stmts {
        push_stmt_exprs(asked, site, *stmt)?;
    }
    Ok(())
}

// Puts the expression that a procedure returns behind others, if there is one.
fn push_answer<'a>(
    asked: &mut Vec<Asked<'a>>,
    site: &Site<'a>,
    answer: &'a Option<Expr>,
) -> Result<(), AllocError>
    ensures { OnOk result (all_asked asked.new.items ≡ all_asked asked.old.items
        ++ asked_answer (context_of site.now) (option_map expr_tree answer.now)) }
{
    match answer {
        Some(answer) => {
            asked.push(Asked {
                ty: site.result_type(),
                expr: ExprPart::Whole(answer),
            })?;
            Ok(())
        }
        None => Ok(()),
    }
}

/// The expressions of a body, with the types that their places ask for. `AllocError` is want of memory.
pub fn body_exprs<'a>(alloc: Global, part: &BodyPart<'a>) -> Result<Vec<Asked<'a>>, AllocError>
    ensures { IfOk result (λ asked. all_asked asked.items ≡ text.body_exprs (body_at part.now)) }
{
    let stmts = all_stmts(alloc, part.body.stmts.as_slice())?;
    let mut asked = Vec::new(alloc);
    push_locals(&mut asked, &part.site, part.body.locals.as_slice())?;
    push_stmts(&mut asked, &part.site, stmts.as_slice())?;
    push_answer(&mut asked, &part.site, &part.body.answer)?;
    Ok(asked)
}
