//! What is left to be done of a run, on a stack of its own: calls and statements nest as deep as a text has them.
ghost use Rattle.std.specs.Prelude.{◌≡◌, ◌∷◌, OnOk};
ghost use Rattle.tm_syntax.specs.Tree.View.{body_tree};
ghost use Rattle.tm_plain_bodies.specs.Frames.{local_stmts};
ghost use Rattle.tm_plain_bodies.specs.Inner.Owed.{owed, row, seen};

use std::alloc::AllocError;
use tm_scope::{CellNumber, SiteBody};
use tm_syntax::tree::{Body, Ident, LocalDef, Stmt, TaskDef};

/// Where statements are done: a body of an instance, and how deep calls may nest below it.
#[derive(Clone, Copy)]
pub(crate) struct Level {
    pub at: SiteBody,
    pub depth: usize,
}

/// What a called procedure returns, which a cell of the calling body gets.
#[derive(Clone, Copy)]
pub(crate) struct Answer<'t> {
    pub level: Level,
    pub task: &'t TaskDef,
    pub outer: SiteBody,
    pub cell: Option<CellNumber>,
}

/// What is left to be done: statements, declarations of locals, a loop behind its body, the end of a call of a path, or
/// what a call returns.
#[derive(Clone, Copy)]
pub(crate) enum Todo<'t> {
    Stmts(Level, &'t [Stmt]),
    Locals(Level, &'t [LocalDef]),
    Again(Level, &'t Stmt),
    Leave(&'t [Ident]),
    Answer(Answer<'t>),
}

/// Leaves something to be done before all else that is left.
pub(crate) fn push<'t>(todo: &mut Vec<Todo<'t>>, next: Todo<'t>) -> Result<(), AllocError>
    ensures { OnOk result (owed todo.new.items ≡ seen next.entry ∷ owed todo.old.items) }
{
    todo.push(next)?;
    Ok(())
}

/// Leaves a body to be done: its locals, and then its statements.
pub(crate) fn push_body<'t>(
    todo: &mut Vec<Todo<'t>>,
    level: Level,
    body: &'t Body,
) -> Result<(), AllocError>
    ensures { OnOk result (owed todo.new.items ≡ row level (local_stmts (body_tree body.now).locals)
        ∷ row level (body_tree body.now).stmts ∷ owed todo.old.items) }
{
    push(todo, Todo::Stmts(level, body.stmts.as_slice()))?;
    push(todo, Todo::Locals(level, body.locals.as_slice()))?;
    Ok(())
}
