//! What is still to be done of a walk.
ghost use Rattle.std.specs.Prelude.{◌≡◌, ◌∷◌, [], IfNone, IfSome, OnOk};
ghost use Rattle.tm_flat_bodies.specs.Inner.Places.{stack};

use crate::alternatives::Choice;
use std::alloc::{AllocError, Global};
use tm_flat_stmts::{Flow, TargetPlace};
use tm_scope::SiteBody;
use tm_syntax::tree::{Body, Ident, LocalDef, Stmt, TaskDef};

/// A called body of an instance, how deep calls may nest below it, and the number of the trail that has led to it.
#[derive(Clone, Copy)]
pub(crate) struct Home {
    pub at: SiteBody,
    pub depth: usize,
    pub trail: Option<usize>,
}

/// Where statements stand: in the body in which the walk began, or in a called one.
#[derive(Clone, Copy)]
pub(crate) enum Spot {
    Start,
    Called(Home),
}

/// Statements in a row: those of a body, behind the declarations of its locals, or some of either.
#[derive(Clone, Copy)]
pub(crate) enum Row<'s> {
    Body(&'s Body),
    Locals(&'s [LocalDef]),
    Stmts(&'s [Stmt]),
}

/// What is to be done where runs stand behind what was led through: a row; the second row of an `if`, with the runs
/// that begin it; runs that go on beside these; behind the body of a loop, which none leaves, the runs that go on; the
/// alternatives of a choice from a number on; and to put what a called task returns where a target is.
#[derive(Drop)]
pub(crate) enum Todo<'s> {
    Row(Spot, Row<'s>),
    Second(Spot, &'s [Stmt], Flow),
    Join(Option<Flow>),
    Loop(Option<Flow>),
    Alternatives(Spot, Choice, usize, &'s [Vec<Stmt>]),
    Answer(Spot, Home, &'s TaskDef, &'s [Ident], TargetPlace),
}

/// What waits, the next thing last.
#[derive(Drop)]
pub(crate) struct Waiting<'s> {
    pub todo: Vec<Todo<'s>>,
}

impl<'s> Waiting<'s> {
    /// Nothing waits.
    pub(crate) fn new(alloc: Global) -> Waiting<'s>
        ensures { stack result ≡ [] }
    {
        Waiting {
            todo: Vec::new(alloc),
        }
    }

    /// Leaves something for later, in front of all that waits. `AllocError` is want of memory.
    pub(crate) fn leave(&mut self, todo: Todo<'s>) -> Result<(), AllocError>
        ensures { OnOk result (stack self.new ≡ todo.entry ∷ stack self.old) }
    {
        self.todo.push(todo)?;
        Ok(())
    }

    /// Takes what is next.
    pub(crate) fn next(&mut self) -> Option<Todo<'s>>
        ensures next { IfSome result (λ todo. stack self.old ≡ todo ∷ stack self.new) }
        ensures none { IfNone result (stack self.old ≡ []) }
    {
        self.todo.pop()
    }
}
