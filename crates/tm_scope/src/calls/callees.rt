//! The tasks that bodies call, by their numbers among some tasks.
ghost use Rattle.std.specs.Prelude.{◌≡◌, ◌++◌, IfOk, OnOk, map};
ghost use Rattle.std.specs.List.{filter_map, flat_map};
ghost use Rattle.std.specs.Option.{option_to_list};
ghost use Rattle.tm_syntax.specs.Tree.{alternatives_of, row_of};
ghost use Rattle.tm_syntax.specs.Tree.View.{body_tree, local_tree, stmt_tree, stmt_trees, value_tree};
ghost use Rattle.tm_syntax.specs.Scopes.Calls.{body_calls};
ghost use Rattle.tm_syntax.specs.Scopes.Parts.{value_calls};
ghost use Rattle.tm_scope.specs.Inner.Calls.{block_calls, row_calls, stmt_calls};
ghost use Rattle.tm_scope.specs.Marks.{marked_number};

use crate::calls::marks::CallMarks;
use std::alloc::{AllocError, Global};
use tm_syntax::tree::{Body, Ident, LocalDef, Stmt, Value};

/// The numbers of the tasks that a body calls, in text order.
pub(crate) fn body_callees(
    alloc: Global,
    calls: &CallMarks,
    body: &Body,
) -> Result<Vec<usize>, AllocError>
    ensures { IfOk result (λ all. all.items ≡ filter_map (marked_number calls.now) (body_calls (body_tree body.now))) }
{
    let mut all = Vec::new(alloc);
    push_locals(calls, &mut all, body.locals.as_slice())?;
    push_row(calls, &mut all, body.stmts.as_slice())?;
    Ok(all)
}

// Puts the number of what a path calls behind others.
fn push_call(calls: &CallMarks, all: &mut Vec<usize>, path: &[Ident]) -> Result<(), AllocError>
    ensures { OnOk result (all.new.items ≡ all.old.items ++ option_to_list (marked_number calls.now path.now)) }
{
    if let Some(number) = calls.number(path) {
        all.push(number)?;
    }
    Ok(())
}

// Puts the number of what a value calls behind others.
fn push_value(calls: &CallMarks, all: &mut Vec<usize>, value: &Value) -> Result<(), AllocError>
    ensures { OnOk result (all.new.items
        ≡ all.old.items ++ filter_map (marked_number calls.now) (value_calls (value_tree value.now))) }
{
    match value {
        Value::Star(_) => Ok(()),
        Value::Call(path, _) => push_call(calls, all, path.names.as_slice()),
        Value::Plain(_) => Ok(()),
    }
}

// Puts the numbers of what the values of locals call behind others.
fn push_locals(
    calls: &CallMarks,
    all: &mut Vec<usize>,
    locals: &[LocalDef],
) -> Result<(), AllocError>
    ensures { OnOk result (all.new.items ≡ all.old.items ++ filter_map (marked_number calls.now)
        (flat_map (λ l. value_calls l.value) (map local_tree locals.now))) }
{
    for local in locals {
        push_value(calls, all, &local.value)?;
    }
    Ok(())
}

// Puts the numbers of what a statement and those within it call behind others. As deep as the statement nests.
#[cycle(callees)]
#[tactic(auto, using(tm_syntax::proofs::Views::views))]
fn push_stmt(calls: &CallMarks, all: &mut Vec<usize>, stmt: &Stmt) -> Result<(), AllocError>
    ensures { OnOk result (all.new.items
        ≡ all.old.items ++ filter_map (marked_number calls.now) (stmt_calls (stmt_tree stmt.now))) }
{
    match stmt {
        Stmt::Assign(_, _, value) => push_value(calls, all, value),
        Stmt::Call(path, _) => push_call(calls, all, path.names.as_slice()),
        Stmt::If(_, first, second) => {
            push_row(calls, all, first.as_slice())?;
            push_row(calls, all, second.as_slice())
        }
        Stmt::While(_, _, body) => push_row(calls, all, body.as_slice()),
        Stmt::Forever(_, body) => push_row(calls, all, body.as_slice()),
        Stmt::Choice(_, blocks) => push_blocks(calls, all, blocks.as_slice()),
        Stmt::Assert(_, _) => Ok(()),
        Stmt::Assume(_, _) => Ok(()),
        Stmt::Pause(_) => Ok(()),
        Stmt::Wait(_, _) => Ok(()),
        Stmt::Magic(_) => Ok(()),
    }
}

// Puts the numbers of what the statements of a row call behind others.
#[cycle(callees)]
fn push_row(calls: &CallMarks, all: &mut Vec<usize>, stmts: &[Stmt]) -> Result<(), AllocError>
    ensures { OnOk result (all.new.items
        ≡ all.old.items ++ filter_map (marked_number calls.now) (row_calls (row_of (stmt_trees stmts.now)))) }
{
    for stmt in stmts {
        push_stmt(calls, all, stmt)?;
    }
    Ok(())
}

// Puts the numbers of what several blocks call behind others.
#[cycle(callees)]
fn push_blocks(
    calls: &CallMarks,
    all: &mut Vec<usize>,
    blocks: &[Vec<Stmt>],
) -> Result<(), AllocError>
    ensures { OnOk result (all.new.items ≡ all.old.items ++ filter_map (marked_number calls.now)
        (block_calls (alternatives_of (map (λ b. row_of (stmt_trees b.items)) blocks.now)))) }
{
    for block in blocks {
        push_row(calls, all, block.as_slice())?;
    }
    Ok(())
}
