//! `F6` of the targets and calls in a body.
ghost use Rattle.std.specs.Prelude.{◌≡◌, IfOk, None, map};
ghost use Rattle.std.specs.List.{flat_map};
ghost use Rattle.std.specs.Option.{option_map};
ghost use Rattle.tm_syntax.specs.Tree as tree;
ghost use Rattle.tm_syntax.specs.Tree.View.{body_tree, expr_tree, local_tree, stmt_tree, stmt_trees, value_tree};
ghost use Rattle.tm_syntax.specs.Scopes.Parts.{all_stmts};
ghost use Rattle.tm_syntax.specs.Faults.Mismatches.{body_faults};
ghost use Rattle.tm_scope.specs.Context.{context_of};
ghost use Rattle.tm_types.specs.Firsts.{first_of};
ghost use Rattle.tm_names.specs.LocalStmts.{declaration};
ghost use Rattle.tm_types.specs.Inner.StmtFaults.{stmt_faults};
ghost use Rattle.tm_types.specs.Inner.TextParts.{bodies_of};

use crate::firsts::earlier_place;
use crate::mismatches::calls::{call_faults, value_call_faults};
use crate::mismatches::exprs::wrong_path;
use crate::mismatches::wanted::Wanted;
use crate::parts::TextPart;
use std::alloc::{AllocError, Global};
use std::slice;
use tm_base::Place;
use tm_names::{Site, all_stmts};
use tm_syntax::tree::{Body, Expr, Ident, LocalDef, Stmt, Value};

// The first fault of the target and the call of an assignment to a name that stands without an index.
fn bare_faults<'a>(at: &Site<'a>, path: &'a [Ident], value: &'a Value) -> Option<Place>
    ensures { result ≡ first_of
        (stmt_faults (context_of at.now) (tree.assign path.now None (value_tree value.now))) }
{
    let of_target = wrong_path(at, Wanted::Target, path);
    earlier_place(
        of_target,
        value_call_faults(at, at.types().named_type(path), value),
    )
}

// The first fault of the target and the call of an assignment.
fn assign_faults<'a>(
    at: &Site<'a>,
    path: &'a [Ident],
    index: &Option<Expr>,
    value: &'a Value,
) -> Option<Place>
    ensures { result ≡ first_of (stmt_faults (context_of at.now)
        (tree.assign path.now (option_map expr_tree index.now) (value_tree value.now))) }
{
    match index {
        None => bare_faults(at, path, value),
        Some(_) => value_call_faults(at, at.types().named_type(path), value),
    }
}

// The first fault of the target and the call that stand in a statement itself, apart from the statements within it.
#[tactic(auto, using(tm_syntax::proofs::Views::views))]
fn stmt_faults<'a>(at: &Site<'a>, stmt: &'a Stmt) -> Option<Place>
    ensures { result ≡ first_of (stmt_faults (context_of at.now) (stmt_tree stmt.now)) }
{
    match stmt {
        Stmt::Assign(path, index, value) => {
            assign_faults(at, path.names.as_slice(), index, value)
        }
        Stmt::Call(path, args) => call_faults(at, path.names.as_slice(), args.as_slice()),
        Stmt::If(_, _, _) => None,
        Stmt::While(_, _, _) => None,
        Stmt::Forever(_, _) => None,
        Stmt::Choice(_, _) => None,
        Stmt::Assert(_, _) => None,
        Stmt::Assume(_, _) => None,
        Stmt::Pause(_) => None,
        Stmt::Wait(_, _) => None,
        Stmt::Magic(_) => None,
    }
}

// The first fault of a local's declaration.
fn local_faults<'a>(at: &Site<'a>, local: &'a LocalDef) -> Option<Place>
    ensures { result ≡ first_of (stmt_faults (context_of at.now) (declaration (local_tree local.now))) }
{
    bare_faults(at, slice::from_ref(&local.name), &local.value)
}

// The first fault of the declarations of locals.
fn locals_faults<'a>(at: &Site<'a>, locals: &'a [LocalDef]) -> Option<Place>
    ensures { result ≡ first_of (flat_map
        (λ l. stmt_faults (context_of at.now) (declaration l)) (map local_tree locals.now)) }
{
    let mut first = None;
    for local in locals {
        first = earlier_place(first, local_faults(at, local));
    }
    first
}

// The first fault of some statements, with those within them.
fn stmts_faults<'a>(
    alloc: Global,
    at: &Site<'a>,
    stmts: &'a [Stmt],
) -> Result<Option<Place>, AllocError>
    ensures { IfOk result (λ first. first
        ≡ first_of (flat_map (stmt_faults (context_of at.now)) (all_stmts (stmt_trees stmts.now)))) }
{
    let listed = given!(all_stmts(alloc, stmts));
    let mut first = None;
    for stmt in listed.as_slice() {
        first = earlier_place(first, stmt_faults(at, *stmt));
    }
    Ok(first)
}

// The first fault of the targets and calls in a body.
fn body_faults<'a>(
    alloc: Global,
    at: &Site<'a>,
    body: &'a Body,
) -> Result<Option<Place>, AllocError>
    ensures { IfOk result (λ first. first ≡ first_of (body_faults
        (record { context = context_of at.now; body = body_tree body.now }))) }
{
    let in_locals = locals_faults(at, body.locals.as_slice());
    let in_stmts = given!(stmts_faults(alloc, at, body.stmts.as_slice()));
    Ok(earlier_place(in_locals, in_stmts))
}

/// The first fault of the targets and calls in a part, if it is a body. `AllocError` is want of memory.
pub(crate) fn part_faults(alloc: Global, part: &TextPart) -> Result<Option<Place>, AllocError>
    ensures { IfOk result (λ first. first ≡ first_of (flat_map body_faults (bodies_of part.now))) }
{
    match part.body {
        Some(body) => body_faults(alloc, &part.site, body),
        None => Ok(None),
    }
}
