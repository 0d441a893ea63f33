//! The statements of a body, with those within them.
ghost use Rattle.std.specs.Prelude.{◌≡◌, ◌++◌, IfOk, OnOk, map};
ghost use Rattle.tm_syntax.specs.Tree.{alternatives_of, row_of};
ghost use Rattle.tm_syntax.specs.Tree.View.{stmt_tree, stmt_trees};
ghost use Rattle.tm_syntax.specs.Scopes.Parts.{all_stmts, block_stmts, inner_stmts, row_stmts};
ghost use Rattle.tm_names.specs.Parts.{listed_stmts};

use std::alloc::{AllocError, Global};
use tm_syntax::tree::Stmt;

/// All statements of a row, with those within them, in text order. As deep as the statements nest. `AllocError` is
/// want of memory.
pub fn all_stmts(alloc: Global, stmts: &[Stmt]) -> Result<Vec<&Stmt>, AllocError>
    ensures { IfOk result (λ all. listed_stmts all.items ≡ all_stmts (stmt_trees stmts.now)) }
{
    let mut all = Vec::new(alloc);
    push_row(&mut all, stmts)?;
    Ok(all)
}

// Puts the statements within a statement behind others.
#[cycle(stmts)]
#[tactic(auto, using(tm_syntax::proofs::Views::views))]
fn push_inner<'a>(all: &mut Vec<&'a Stmt>, stmt: &'a Stmt) -> Result<(), AllocError>
    ensures { OnOk result (listed_stmts all.new.items
        ≡ listed_stmts all.old.items ++ inner_stmts (stmt_tree stmt.now)) }
{
    match stmt {
        Stmt::Assign(_, _, _) => Ok(()),
        Stmt::Call(_, _) => Ok(()),
        Stmt::If(_, first, second) => {
            push_row(all, first.as_slice())?;
            push_row(all, second.as_slice())
        }
        Stmt::While(_, _, body) => push_row(all, body.as_slice()),
        Stmt::Forever(_, body) => push_row(all, body.as_slice()),
        Stmt::Choice(_, blocks) => push_blocks(all, blocks.as_slice()),
        Stmt::Assert(_, _) => Ok(()),
        Stmt::Assume(_, _) => Ok(()),
        Stmt::Pause(_) => Ok(()),
        Stmt::Wait(_, _) => Ok(()),
        Stmt::Magic(_) => Ok(()),
    }
}

// Puts the statements of a row, with those within them, behind others.
#[cycle(stmts)]
fn push_row<'a>(all: &mut Vec<&'a Stmt>, stmts: &'a [Stmt]) -> Result<(), AllocError>
    ensures { OnOk result (listed_stmts all.new.items
        ≡ listed_stmts all.old.items ++ row_stmts (row_of (stmt_trees stmts.now))) }
{
    for stmt in stmts {
        all.push(stmt)?;
        push_inner(all, stmt)?;
    }
    Ok(())
}

// Puts the statements of several blocks behind others.
#[cycle(stmts)]
fn push_blocks<'a>(all: &mut Vec<&'a Stmt>, blocks: &'a [Vec<Stmt>]) -> Result<(), AllocError>
    ensures { OnOk result (listed_stmts all.new.items ≡ listed_stmts all.old.items
        ++ block_stmts (alternatives_of (map (λ b. row_of (stmt_trees b.items)) blocks.now))) }
{
    for block in blocks {
        push_row(all, block.as_slice())?;
    }
    Ok(())
}
