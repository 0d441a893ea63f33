//! Paths that lead to nothing in the bodies of a text.
ghost use Rattle.std.specs.Prelude.{◌≡◌, ◌++◌, IfOk, map};
ghost use Rattle.std.specs.List.{flat_map};
ghost use Rattle.std.specs.Option.{option_map};
ghost use Rattle.tm_syntax.specs.Tree as tree;
ghost use Rattle.tm_syntax.specs.Tree.View.{body_tree, expr_tree, local_tree, stmt_tree, stmt_trees, value_tree};
ghost use Rattle.tm_syntax.specs.Scopes.Parts.{all_stmts, bare_targets, own_calls, value_calls};
ghost use Rattle.tm_syntax.specs.Faults.Marks.{first_mark};
ghost use Rattle.tm_syntax.specs.Faults.Names.{unknown_in_body, unknown_paths};
ghost use Rattle.tm_scope.specs.Context.{context_of};
ghost use Rattle.tm_names.specs.Parts.{listed_stmts};
ghost use Rattle.tm_names.specs.ScopeNames.{mark_of};
ghost use Rattle.tm_names.specs.LocalStmts.{declaration};
ghost use Rattle.tm_types.specs.Inner.TextParts.{bodies_of};
ghost use Rattle.tm_types.specs.Inner.UnknownParts.{unknown_in_stmt};

use crate::firsts_named::earlier_name;
use crate::parts::TextPart;
use crate::unknown::exprs::unknown_path;
use std::alloc::{AllocError, Global};
use std::slice;
use tm_names::{NameMark, Site, all_stmts, earlier_mark};
use tm_syntax::tree::{Body, Expr, LocalDef, Path, Stmt, Value};

// In a value, which may be a call.
#[tactic(auto, using(crate::proofs::UnknownPaths::path_lists))]
fn unknown_in_value<'a>(site: &Site<'a>, value: &'a Value) -> Option<NameMark<'a>>
    ensures { option_map mark_of result
        ≡ first_mark (unknown_paths (context_of site.now) (value_calls (value_tree value.now))) }
{
    match value {
        Value::Star(_) => None,
        Value::Call(path, _) => unknown_path(site, path.names.as_slice()),
        Value::Plain(_) => None,
    }
}

// In the target of an assignment, where it has no index.
#[tactic(auto, using(crate::proofs::UnknownPaths::path_lists))]
fn unknown_target<'a>(site: &Site<'a>, path: &'a Path, index: &Option<Expr>) -> Option<NameMark<'a>>
    ensures { (v : tree.ValueTree) → option_map mark_of result ≡ first_mark (unknown_paths (context_of site.now)
        (bare_targets (tree.assign path.now.names.items (option_map expr_tree index.now) v))) }
{
    match index {
        None => unknown_path(site, path.names.as_slice()),
        Some(_) => None,
    }
}

// In the target and the call of an assignment.
fn unknown_in_assignment<'a>(
    site: &Site<'a>,
    path: &'a Path,
    index: &Option<Expr>,
    value: &'a Value,
) -> Option<NameMark<'a>>
    ensures { option_map mark_of result ≡ first_mark (unknown_in_stmt (context_of site.now)
        (tree.assign path.now.names.items (option_map expr_tree index.now) (value_tree value.now))) }
{
    earlier_name(
        unknown_target(site, path, index),
        unknown_in_value(site, value),
    )
}

// In the target and the call of a statement itself, apart from the statements within it.
#[tactic(auto, using(tm_syntax::proofs::Views::views, crate::proofs::UnknownPaths::path_lists))]
fn unknown_in_stmt<'a>(site: &Site<'a>, stmt: &'a Stmt) -> Option<NameMark<'a>>
    ensures { option_map mark_of result ≡ first_mark (unknown_in_stmt (context_of site.now) (stmt_tree stmt.now)) }
{
    match stmt {
        Stmt::Assign(path, index, value) => unknown_in_assignment(site, path, index, value),
        Stmt::Call(path, _) => unknown_path(site, path.names.as_slice()),
        Stmt::If(_, _, _) => None,
        Stmt::While(_, _, _) => None,
        Stmt::Forever(_, _) => None,
        Stmt::Choice(_, _) => None,
        Stmt::Assert(_, _) => None,
        Stmt::Assume(_, _) => None,
        Stmt::Pause(_) => None,
        Stmt::Wait(_, _) => None,
        Stmt::Magic(_) => None,
    }
}

// In the declaration of a local.
fn unknown_in_local<'a>(site: &Site<'a>, local: &'a LocalDef) -> Option<NameMark<'a>>
    ensures { option_map mark_of result
        ≡ first_mark (unknown_in_stmt (context_of site.now) (declaration (local_tree local.now))) }
{
    let in_name = unknown_path(site, slice::from_ref(&local.name));
    earlier_name(in_name, unknown_in_value(site, &local.value))
}

// The first one in some declarations of locals.
fn unknown_in_locals<'a>(site: &Site<'a>, locals: &'a [LocalDef]) -> Option<NameMark<'a>>
    ensures { option_map mark_of result ≡ first_mark (flat_map
        (λ l. unknown_in_stmt (context_of site.now) (declaration l)) (map local_tree locals.now)) }
{
    let mut first = None;
    for local in locals {
        first = earlier_mark(first, unknown_in_local(site, local));
    }
    first
}

// The first one in some listed statements.
fn unknown_in_listed<'a>(site: &Site<'a>, stmts: &[&'a Stmt]) -> Option<NameMark<'a>>
    ensures { option_map mark_of result
        ≡ first_mark (flat_map (unknown_in_stmt (context_of site.now)) (listed_stmts stmts.now)) }
{
    let mut first = None;
    for stmt in stmts {
        first = earlier_mark(first, unknown_in_stmt(site, *stmt));
    }
    first
}

// The first one in the targets and calls of a body.
fn unknown_in_body<'a>(
    alloc: Global,
    site: &Site<'a>,
    body: &'a Body,
) -> Result<Option<NameMark<'a>>, AllocError>
    ensures { IfOk result (λ first. option_map mark_of first ≡ first_mark (unknown_in_body
        (record { context = context_of site.now; body = body_tree body.now }))) }
{
    let stmts = given!(all_stmts(alloc, body.stmts.as_slice()));
    let in_locals = unknown_in_locals(site, body.locals.as_slice());
    Ok(earlier_name(in_locals, unknown_in_listed(site, stmts.as_slice())))
}

/// The first one in the targets and calls of a part, if it is a body. `AllocError` is want of memory.
pub(crate) fn unknown_in_part<'a>(
    alloc: Global,
    part: &TextPart<'a>,
) -> Result<Option<NameMark<'a>>, AllocError>
    ensures { IfOk result (λ first. option_map mark_of first
        ≡ first_mark (flat_map unknown_in_body (bodies_of part.now))) }
{
    match part.body {
        Some(body) => unknown_in_body(alloc, &part.site, body),
        None => Ok(None),
    }
}
