//! Walks bodies in text order, with called bodies at the place of the call, and notes the atoms of their conditions.
ghost use Rattle.std.specs.Prelude.{◌≡◌, ◌+◌, ◌<◌, ◌≤◌, ◌∷◌, ◌++◌, ℕ, List, [], OnOk, suc};
ghost use Rattle.tm_syntax.specs.Tree.{StmtTree};
ghost use Rattle.tm_syntax.specs.Tree.View.{body_tree, expr_tree, stmt_tree, value_tree};
ghost use Rattle.tm_syntax.specs.Scopes.Parts.{inner_stmts, own_calls, stmts_in, value_calls};
ghost use Rattle.tm_syntax.specs.Scopes.Pauses.{call_depth};
ghost use Rattle.tm_syntax.specs.Design.{DesignTree};
ghost use Rattle.tm_syntax.specs.Design.Atoms.{Atom, body_atoms, stmt_conditions};
ghost use Rattle.tm_syntax.specs.Design.Scope.{Scope};
ghost use Rattle.tm_scope.specs.Cells.{HasCells, scope_of};
ghost use Rattle.tm_atoms.specs.Inner.Pools.{noted_atoms};
ghost use Rattle.tm_atoms.specs.declared.walk.Row.TheVariants.{Blocks, Locals, Stmts};
ghost use Rattle.tm_atoms.specs.Inner.Ranks.{IsRanked};
ghost use Rattle.tm_atoms.specs.Inner.Walks.{HasNoted, HasWalked, IsIdle, IsRoot, IsWalking, Settles, part_stmts, tables_of};
ghost use Rattle.tm_atoms.specs.Inner.Weights.{body_weight, part_weight, stmt_weight, weight};

use crate::atom::AtomAt;
use crate::bodies::Bodies;
use crate::pool::Pool;
use indexmap::{IndexMap, IndexSet};
use std::alloc::{AllocError, Global};
use tm_scope::{BodyName, SiteBody, SiteTask};
use tm_syntax::tree::{Body, Expr, Ident, LocalDef, Stmt, Value};

// Locals, statements, or blocks.
#[derive(Clone, Copy)]
pub(crate) enum Row<'t> {
    Locals(&'t [LocalDef]),
    Stmts(&'t [Stmt]),
    Blocks(&'t [Vec<Stmt>]),
}

// A part of a body of an instance that is still to be walked.
#[derive(Clone, Copy)]
pub(crate) struct Todo<'t> {
    pub scope: SiteBody,
    pub row: Row<'t>,
}

// The atoms that have been noted, the tasks whose bodies have been entered, and what is still to be walked, the next
// one last. A body that has been entered adds no atom when it is walked again, so it is entered once.
#[derive(Drop)]
pub(crate) struct Walk<'t> {
    pub pool: Pool<'t>,
    pub entered: IndexSet<SiteTask>,
    pub todo: Vec<Todo<'t>>,
}

impl<'t> Walk<'t> {
    // Nothing is noted, and nothing is to be walked.
    #[tactic(auto, using(crate::proofs::Listing::begun))]
    pub(crate) fn new(alloc: Global) -> Walk<'t>
        ensures { (d : DesignTree) → IsIdle d (tables_of result) × (noted_atoms (tables_of result).pool ≡ []) }
    {
        Walk {
            pool: Pool::new(alloc),
            entered: IndexSet::new(alloc),
            todo: Vec::new(alloc),
        }
    }

    // The atoms that have been noted.
    pub(crate) fn into_atoms(self) -> IndexMap<usize, AtomAt<'t>>
        ensures { result.entries ≡ self.entry.pool.atoms.entries }
    {
        drop(self.entered);
        drop(self.todo);
        self.pool.into_atoms()
    }

    // Walks a body of an instance to its end.
    pub(crate) fn walk_body(
        &mut self,
        bodies: &Bodies<'_, 't>,
        scope: SiteBody,
        body: &'t Body,
    ) -> Result<(), AllocError>
        ensures { OnOk result ((d : DesignTree) → HasCells bodies.now d → (rank : Scope → ℕ) → IsRanked d rank →
            IsRoot d rank (scope_of scope, body_tree body.now) → IsIdle d (tables_of self.old) →
            HasWalked d (tables_of self.old) (tables_of self.new)
            (body_atoms (suc (call_depth d.spec)) d (scope_of scope) (body_tree body.now))) }
    {
        self.enter(scope, body)?;
        self.run(bodies)?;
        Ok(())
    }

    // Walks all that is to be walked.
    fn run(&mut self, bodies: &Bodies<'_, 't>) -> Result<(), AllocError>
        ensures { OnOk result ((d : DesignTree) → HasCells bodies.now d → (rank : Scope → ℕ) → IsRanked d rank →
            (all : List Atom) → IsWalking d rank all (tables_of self.old) →
            IsIdle d (tables_of self.new) × (noted_atoms (tables_of self.new).pool ≡ all)) }
    {
        while let Some(todo) = self.todo.pop() {
            self.step(bodies, todo)?;
        }
        Ok(())
    }

    // Walks the first local, statement or block of a part, and leaves the others for later.
    fn step(&mut self, bodies: &Bodies<'_, 't>, todo: Todo<'t>) -> Result<(), AllocError>
        ensures settles { OnOk result ((d : DesignTree) → HasCells bodies.now d → (rank : Scope → ℕ) →
            IsRanked d rank → Settles d rank (tables_of self.old) (tables_of self.new) (scope_of todo.entry.scope)
            (part_stmts todo.entry.row)) }
        ensures lighter { OnOk result ((d : DesignTree) → HasCells bodies.now d →
            weight d (tables_of self.new) < weight d (tables_of self.old) + part_weight todo.entry.row) }
    {
        match todo.row {
            Row::Locals(locals) => self.walk_locals(bodies, todo.scope, locals),
            Row::Stmts(stmts) => self.walk_row(bodies, todo.scope, stmts),
            Row::Blocks(blocks) => self.walk_blocks(todo.scope, blocks),
        }
    }

    // Walks the first of some locals.
    fn walk_locals(
        &mut self,
        bodies: &Bodies<'_, 't>,
        scope: SiteBody,
        locals: &'t [LocalDef],
    ) -> Result<(), AllocError>
        ensures settles { OnOk result ((d : DesignTree) → HasCells bodies.now d → (rank : Scope → ℕ) →
            IsRanked d rank → Settles d rank (tables_of self.old) (tables_of self.new) (scope_of scope)
            (part_stmts (Locals locals.entry))) }
        ensures lighter { OnOk result ((d : DesignTree) → HasCells bodies.now d →
            weight d (tables_of self.new) < weight d (tables_of self.old) + part_weight (Locals locals.entry)) }
    {
        let [first, others @ ..] = locals else {
            return Ok(());
        };
        self.leave(scope, Row::Locals(others))?;
        self.walk_value(bodies, scope, &first.value)?;
        Ok(())
    }

    // Walks the first of some statements.
    fn walk_row(
        &mut self,
        bodies: &Bodies<'_, 't>,
        scope: SiteBody,
        stmts: &'t [Stmt],
    ) -> Result<(), AllocError>
        ensures settles { OnOk result ((d : DesignTree) → HasCells bodies.now d → (rank : Scope → ℕ) →
            IsRanked d rank → Settles d rank (tables_of self.old) (tables_of self.new) (scope_of scope)
            (part_stmts (Stmts stmts.entry))) }
        ensures lighter { OnOk result ((d : DesignTree) → HasCells bodies.now d →
            weight d (tables_of self.new) < weight d (tables_of self.old) + part_weight (Stmts stmts.entry)) }
    {
        let [first, others @ ..] = stmts else {
            return Ok(());
        };
        self.leave(scope, Row::Stmts(others))?;
        self.walk_stmt(bodies, scope, first)?;
        Ok(())
    }

    // Walks the first of some blocks.
    fn walk_blocks(&mut self, scope: SiteBody, blocks: &'t [Vec<Stmt>]) -> Result<(), AllocError>
        ensures settles { OnOk result ((d : DesignTree) (rank : Scope → ℕ) →
            Settles d rank (tables_of self.old) (tables_of self.new) (scope_of scope)
            (part_stmts (Blocks blocks.entry))) }
        ensures lighter { OnOk result ((d : DesignTree) → weight d (tables_of self.new)
            < weight d (tables_of self.old) + part_weight (Blocks blocks.entry)) }
    {
        let [first, others @ ..] = blocks else {
            return Ok(());
        };
        self.leave(scope, Row::Blocks(others))?;
        self.leave(scope, Row::Stmts(first.as_slice()))?;
        Ok(())
    }

    // Walks a statement.
    fn walk_stmt(
        &mut self,
        bodies: &Bodies<'_, 't>,
        scope: SiteBody,
        stmt: &'t Stmt,
    ) -> Result<(), AllocError>
        ensures settles { OnOk result ((d : DesignTree) → HasCells bodies.now d → (rank : Scope → ℕ) →
            IsRanked d rank → Settles d rank (tables_of self.old) (tables_of self.new) (scope_of scope)
            (stmt_tree stmt.now ∷ inner_stmts (stmt_tree stmt.now))) }
        ensures lighter { OnOk result ((d : DesignTree) → HasCells bodies.now d →
            weight d (tables_of self.new) ≤ weight d (tables_of self.old) + stmt_weight (stmt_tree stmt.now)) }
    {
        match stmt {
            Stmt::Assign(_, _, value) => self.walk_value(bodies, scope, value),
            Stmt::Call(path, _) => self.walk_call(bodies, scope, path.names.as_slice()),
            Stmt::If(e, first, second) => {
                self.walk_branches(bodies, scope, e, first.as_slice(), second.as_slice())
            }
            Stmt::While(_, e, body) => self.walk_loop(bodies, scope, e, body.as_slice()),
            Stmt::Forever(_, body) => self.leave(scope, Row::Stmts(body.as_slice())),
            Stmt::Choice(_, blocks) => self.leave(scope, Row::Blocks(blocks.as_slice())),
            Stmt::Assert(_, e) => self.note_condition(bodies, scope, e),
            Stmt::Assume(_, e) => self.note_condition(bodies, scope, e),
            Stmt::Pause(_) => Ok(()),
            Stmt::Wait(_, e) => self.note_condition(bodies, scope, e),
            Stmt::Magic(_) => Ok(()),
        }
    }

    // Walks two rows, of which one is run.
    fn walk_branches(
        &mut self,
        bodies: &Bodies<'_, 't>,
        scope: SiteBody,
        e: &'t Expr,
        first: &'t [Stmt],
        second: &'t [Stmt],
    ) -> Result<(), AllocError>
        ensures settles { OnOk result ((d : DesignTree) → HasCells bodies.now d → (rank : Scope → ℕ) → (s : StmtTree) →
            stmt_conditions s ≡ expr_tree e.now ∷ [] → own_calls s ≡ [] →
            Settles d rank (tables_of self.old) (tables_of self.new) (scope_of scope)
            (s ∷ (part_stmts (Stmts first.entry) ++ part_stmts (Stmts second.entry)))) }
        ensures lighter { OnOk result ((d : DesignTree) → weight d (tables_of self.new)
            ≤ weight d (tables_of self.old) + (part_weight (Stmts first.entry) + part_weight (Stmts second.entry))) }
    {
        self.leave(scope, Row::Stmts(second))?;
        self.leave(scope, Row::Stmts(first))?;
        self.note_condition(bodies, scope, e)?;
        Ok(())
    }

    // Walks the body of a loop.
    fn walk_loop(
        &mut self,
        bodies: &Bodies<'_, 't>,
        scope: SiteBody,
        e: &'t Expr,
        body: &'t [Stmt],
    ) -> Result<(), AllocError>
        ensures settles { OnOk result ((d : DesignTree) → HasCells bodies.now d → (rank : Scope → ℕ) → (s : StmtTree) →
            stmt_conditions s ≡ expr_tree e.now ∷ [] → own_calls s ≡ [] →
            Settles d rank (tables_of self.old) (tables_of self.new) (scope_of scope)
            (s ∷ part_stmts (Stmts body.entry))) }
        ensures lighter { OnOk result ((d : DesignTree) → weight d (tables_of self.new)
            ≤ weight d (tables_of self.old) + part_weight (Stmts body.entry)) }
    {
        self.leave(scope, Row::Stmts(body))?;
        self.note_condition(bodies, scope, e)?;
        Ok(())
    }

    // Walks what is assigned.
    fn walk_value(
        &mut self,
        bodies: &Bodies<'_, 't>,
        scope: SiteBody,
        value: &'t Value,
    ) -> Result<(), AllocError>
        ensures settles { OnOk result ((d : DesignTree) → HasCells bodies.now d → (rank : Scope → ℕ) →
            IsRanked d rank → (s : StmtTree) → stmt_conditions s ≡ [] → own_calls s ≡ value_calls (value_tree value.now)
            → Settles d rank (tables_of self.old) (tables_of self.new) (scope_of scope) (s ∷ [])) }
        ensures lighter { OnOk result ((d : DesignTree) → HasCells bodies.now d →
            weight d (tables_of self.new) ≤ weight d (tables_of self.old)) }
    {
        match value {
            Value::Star(_) => Ok(()),
            Value::Call(path, _) => self.walk_call(bodies, scope, path.names.as_slice()),
            Value::Plain(_) => Ok(()),
        }
    }

    // Walks the body that a path calls, unless it has been entered.
    fn walk_call(
        &mut self,
        bodies: &Bodies<'_, 't>,
        scope: SiteBody,
        path: &[Ident],
    ) -> Result<(), AllocError>
        ensures settles { OnOk result ((d : DesignTree) → HasCells bodies.now d → (rank : Scope → ℕ) →
            IsRanked d rank → (s : StmtTree) → stmt_conditions s ≡ [] → own_calls s ≡ path.now ∷ [] →
            Settles d rank (tables_of self.old) (tables_of self.new) (scope_of scope) (s ∷ [])) }
        ensures lighter { OnOk result ((d : DesignTree) → HasCells bodies.now d →
            weight d (tables_of self.new) ≤ weight d (tables_of self.old)) }
    {
        let Some(called) = bodies.callee(scope.instance, path) else {
            return Ok(());
        };
        let (_, is_new) = self.entered.insert_full(called.task)?;
        if is_new {
            let inner = SiteBody {
                instance: called.task.instance,
                body: BodyName::Task(called.task.index),
            };
            self.enter(inner, called.body)
        } else {
            Ok(())
        }
    }

    // Leaves a body to be walked next.
    fn enter(&mut self, scope: SiteBody, body: &'t Body) -> Result<(), AllocError>
        ensures settles { OnOk result ((d : DesignTree) (rank : Scope → ℕ) → Settles d rank (tables_of self.old)
            (tables_of self.new) (scope_of scope) (stmts_in (body_tree body.now))) }
        ensures weight { OnOk result ((d : DesignTree) →
            weight d (tables_of self.new) ≡ weight d (tables_of self.old) + body_weight (body_tree body.now)) }
    {
        self.leave(scope, Row::Stmts(body.stmts.as_slice()))?;
        self.leave(scope, Row::Locals(body.locals.as_slice()))?;
        Ok(())
    }

    // Leaves a part of a body to be walked next.
    fn leave(&mut self, scope: SiteBody, row: Row<'t>) -> Result<(), AllocError>
        ensures { OnOk result (tables_of self.new ≡ record (tables_of self.old) {
          todo = record { scope = scope; row = row.entry } ∷ (tables_of self.old).todo;
        }) }
    {
        self.todo.push(Todo { scope, row })?;
        Ok(())
    }

    // Notes the atoms of a condition.
    pub(crate) fn note_condition(
        &mut self,
        bodies: &Bodies<'_, 't>,
        scope: SiteBody,
        e: &'t Expr,
    ) -> Result<(), AllocError>
        ensures { OnOk result (HasNoted bodies.now (tables_of self.old) (tables_of self.new) (scope_of scope)
            (expr_tree e.now)) }
    {
        let cells = bodies.scope(scope);
        self.pool.note_within(&cells, scope, e)
    }
}
