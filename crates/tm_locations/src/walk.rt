//! The walk that finds the locations of a process, with a stack of its own.
ghost use Rattle.std.specs.Prelude.{◌≡◌, ◌<◌, ◌≤◌, ◌+◌, ◌++◌, ◌∷◌, [], suc, IfOk, List, OnOk, false, true, map};
ghost use Rattle.std.specs.List.{AllZip};
ghost use Rattle.tm_base.specs.declared.place.Place as placed;
ghost use Rattle.tm_syntax.specs.Tree.{assume, row_of};
ghost use Rattle.tm_syntax.specs.Tree.View.{body_tree, expr_tree, stmt_tree, stmt_trees};
ghost use Rattle.tm_syntax.specs.Scopes.Parts.{body_stmts};
ghost use Rattle.tm_syntax.specs.Scopes.Pauses.{call_depth};
ghost use Rattle.tm_syntax.specs.Design.{DesignTree};
ghost use Rattle.tm_syntax.specs.Design.Locations.{Location, body_locations, row_locations, stmt_locations};
ghost use Rattle.tm_syntax.specs.Design.Work.{call_place, perform, performs};
ghost use Rattle.tm_scope.specs.Cells.{scope_of};
ghost use Rattle.tm_scope.specs.Instances.{IsOver};
ghost use Rattle.tm_locations.specs.Locations.{IsRest, IsRow, IsTrail, LeadsByText, table_of, work_stmts};
ghost use Rattle.tm_locations.specs.declared.walk.Row.TheVariants.{Stmts, Blocks};
ghost use Rattle.tm_locations.specs.Inner.Walks.{
  IsGrown,
  IsWalking,
  IsWork,
  Settles,
  call_locations,
  part_locations,
  tables_of,
};
ghost use Rattle.tm_locations.specs.Inner.Weights.{call_weight, part_weight, stmt_weight, weight};

use crate::callees::Callees;
use crate::numbers::LocationNumbers;
use crate::table::{LocationRow, Locations, RestNode, TrailNode, Work};
use indexmap::IndexSet;
use std::alloc::{AllocError, Global};
use tm_base::Place;
use tm_scope::SiteBody;
use tm_syntax::tree::{Body, Expr, Ident, Path, Stmt};

// Where statements stand: in a body that a trail of calls has reached, and how many more calls may nest below it.
#[derive(Clone, Copy)]
pub(crate) struct Frame {
    pub scope: SiteBody,
    pub trail: usize,
    pub depth: usize,
}

// Statements, or blocks of which one is run.
#[derive(Clone, Copy)]
pub(crate) enum Row<'t> {
    Stmts(&'t [Stmt]),
    Blocks(&'t [Vec<Stmt>]),
}

// Statements whose locations are still to be found, and the number of what is left after them.
#[derive(Clone, Copy)]
pub(crate) struct Todo<'t> {
    pub frame: Frame,
    pub row: Row<'t>,
    pub after: usize,
}

// The locations that are found, and what is still to be walked, the next one last.
#[derive(Drop)]
pub(crate) struct Walk<'t> {
    pub rows: Vec<LocationRow>,
    pub rests: Vec<RestNode<'t>>,
    pub trails: IndexSet<TrailNode>,
    pub todo: Vec<Todo<'t>>,
}

impl<'t> Walk<'t> {
    // Nothing is found, and nothing is to be walked.
    pub(crate) fn new(alloc: Global) -> Walk<'t>
        ensures { tables_of result ≡ record { rows = []; rests = []; trails = []; todo = [] } }
    {
        Walk {
            rows: Vec::new(alloc),
            rests: Vec::new(alloc),
            trails: IndexSet::new(alloc),
            todo: Vec::new(alloc),
        }
    }

    // Begins at the start of a body of an instance, below which calls nest at most so deep.
    pub(crate) fn begin(
        &mut self,
        scope: SiteBody,
        body: &'t Body,
        depth: usize,
    ) -> Result<(), AllocError>
        requires { tables_of self.old ≡ record { rows = []; rests = []; trails = []; todo = [] } }
        ensures { OnOk result ((d : DesignTree) → depth ≤ call_depth d.spec → IsWalking d (tables_of self.new) []
            (body_locations (suc depth) d (scope_of scope) [] (body_tree body.now) [])) }
    {
        let frame = Frame {
            scope,
            trail: 0,
            depth,
        };
        self.leave(frame, Row::Stmts(body.stmts.as_slice()), 0)?;
        Ok(())
    }

    // The number of what is left at the start of a body: all of it.
    pub(crate) fn start_of(&mut self, scope: SiteBody, body: &'t Body) -> Result<usize, AllocError>
        ensures grown { OnOk result (IsGrown (tables_of self.old) (tables_of self.new)) }
        ensures start { IfOk result (λ start. IsRest (tables_of self.new).trails (tables_of self.new).rests start
            (map (perform (scope_of scope) []) (body_stmts (body_tree body.now)))) }
    {
        let frame = Frame {
            scope,
            trail: 0,
            depth: 0,
        };
        let stmts = self.rest(frame, Work::Stmts(body.stmts.as_slice()), 0)?;
        let start = self.rest(frame, Work::Locals(body.locals.as_slice()), stmts)?;
        Ok(start)
    }

    // The table of what was found, with what is left at the start.
    pub(crate) fn into_table(self, alloc: Global, start: usize) -> Result<Locations<'t>, AllocError>
        ensures { IfOk result (λ t. table_of t ≡ record {
          rows = (tables_of self.entry).rows;
          rests = (tables_of self.entry).rests;
          trails = (tables_of self.entry).trails;
          start = start;
        }) }
    {
        let numbers = LocationNumbers::of(alloc, self.rows.as_slice())?;
        Ok(Locations {
            rows: self.rows,
            rests: self.rests,
            trails: self.trails,
            start,
            numbers,
        })
    }

    // Walks all that is to be walked.
    pub(crate) fn run(&mut self, callees: &Callees<'_, 't>) -> Result<(), AllocError>
        ensures { OnOk result ((d : DesignTree) → IsOver callees.now d → LeadsByText d → (all : List Location) →
            IsWalking d (tables_of self.old) [] all →
            AllZip (IsRow (tables_of self.new).trails (tables_of self.new).rests) (tables_of self.new).rows all) }
    {
        while let Some(todo) = self.todo.pop() {
            self.step(callees, todo)?;
        }
        Ok(())
    }

    // Walks the first statement or block of a row, and leaves the others for later.
    fn step(&mut self, callees: &Callees<'_, 't>, todo: Todo<'t>) -> Result<(), AllocError>
        ensures settles { OnOk result ((d : DesignTree) → IsOver callees.now d → LeadsByText d →
            Settles d (tables_of self.old) (tables_of self.new) todo.entry.frame todo.entry.after
            (part_locations d todo.entry.frame todo.entry.row)) }
        ensures lighter { OnOk result ((d : DesignTree) → IsOver callees.now d →
            weight d (tables_of self.new).todo
            < weight d (tables_of self.old).todo + part_weight d todo.entry.frame todo.entry.row) }
    {
        match todo.row {
            Row::Stmts(stmts) => self.walk_row(callees, todo.frame, stmts, todo.after),
            Row::Blocks(blocks) => self.walk_blocks(todo.frame, blocks, todo.after),
        }
    }

    // Walks the first of some blocks.
    fn walk_blocks(
        &mut self,
        frame: Frame,
        blocks: &'t [Vec<Stmt>],
        after: usize,
    ) -> Result<(), AllocError>
        ensures settles { OnOk result ((d : DesignTree) →
            Settles d (tables_of self.old) (tables_of self.new) frame after
            (part_locations d frame (Blocks blocks.entry))) }
        ensures lighter { OnOk result ((d : DesignTree) → weight d (tables_of self.new).todo
            < weight d (tables_of self.old).todo + part_weight d frame (Blocks blocks.entry)) }
    {
        let [first, others @ ..] = blocks else {
            return Ok(());
        };
        self.leave(frame, Row::Blocks(others), after)?;
        self.leave(frame, Row::Stmts(first.as_slice()), after)?;
        Ok(())
    }

    // Walks the first of some statements.
    fn walk_row(
        &mut self,
        callees: &Callees<'_, 't>,
        frame: Frame,
        stmts: &'t [Stmt],
        after: usize,
    ) -> Result<(), AllocError>
        ensures settles { OnOk result ((d : DesignTree) → IsOver callees.now d → LeadsByText d →
            Settles d (tables_of self.old) (tables_of self.new) frame after
            (part_locations d frame (Stmts stmts.entry))) }
        ensures lighter { OnOk result ((d : DesignTree) → IsOver callees.now d → weight d (tables_of self.new).todo
            < weight d (tables_of self.old).todo + part_weight d frame (Stmts stmts.entry)) }
    {
        let [first, others @ ..] = stmts else {
            return Ok(());
        };
        self.leave(frame, Row::Stmts(others), after)?;
        let behind = self.rest_of_row(frame, others, after)?;
        self.walk_stmt(callees, frame, first, behind)?;
        Ok(())
    }

    // Walks a statement, with what is left after it.
    fn walk_stmt(
        &mut self,
        callees: &Callees<'_, 't>,
        frame: Frame,
        stmt: &'t Stmt,
        after: usize,
    ) -> Result<(), AllocError>
        ensures settles { OnOk result ((d : DesignTree) → IsOver callees.now d → LeadsByText d →
            Settles d (tables_of self.old) (tables_of self.new) frame after
            (λ trail items. stmt_locations (call_locations frame.depth d (scope_of frame.scope) trail)
            (scope_of frame.scope) trail (stmt_tree stmt.now) items)) }
        ensures lighter { OnOk result ((d : DesignTree) → IsOver callees.now d →
            weight d (tables_of self.new).todo ≤ weight d (tables_of self.old).todo
            + stmt_weight (call_weight frame.depth d (scope_of frame.scope)) (stmt_tree stmt.now)) }
    {
        match stmt {
            Stmt::Assign(_, _, _) => Ok(()),
            Stmt::Call(path, _) => self.walk_call(callees, frame, path.names.as_slice(), after),
            Stmt::If(_, first, second) => {
                self.walk_branches(frame, first.as_slice(), second.as_slice(), after)
            }
            Stmt::While(_, _, body) => self.walk_loop(frame, stmt, body.as_slice(), after),
            Stmt::Forever(_, body) => self.walk_loop(frame, stmt, body.as_slice(), after),
            Stmt::Choice(_, blocks) => self.leave(frame, Row::Blocks(blocks.as_slice()), after),
            Stmt::Assert(_, _) => Ok(()),
            Stmt::Assume(_, _) => Ok(()),
            Stmt::Pause(at) => self.note(frame.trail, *at, false, after),
            Stmt::Wait(at, e) => self.note_wait(frame, *at, e, after),
            Stmt::Magic(at) => self.note(frame.trail, *at, true, after),
        }
    }

    // Walks two rows, of which one is run.
    fn walk_branches(
        &mut self,
        frame: Frame,
        first: &'t [Stmt],
        second: &'t [Stmt],
        after: usize,
    ) -> Result<(), AllocError>
        ensures settles { OnOk result ((d : DesignTree) →
            Settles d (tables_of self.old) (tables_of self.new) frame after
            (λ trail items. part_locations d frame (Stmts first.entry) trail items
            ++ part_locations d frame (Stmts second.entry) trail items)) }
        ensures weight { OnOk result ((d : DesignTree) → weight d (tables_of self.new).todo
            ≡ weight d (tables_of self.old).todo
            + (part_weight d frame (Stmts first.entry) + part_weight d frame (Stmts second.entry))) }
    {
        self.leave(frame, Row::Stmts(second), after)?;
        self.leave(frame, Row::Stmts(first), after)?;
        Ok(())
    }

    // Walks the body of a loop, after which the loop is left.
    fn walk_loop(
        &mut self,
        frame: Frame,
        stmt: &'t Stmt,
        body: &'t [Stmt],
        after: usize,
    ) -> Result<(), AllocError>
        ensures settles { OnOk result ((d : DesignTree) →
            Settles d (tables_of self.old) (tables_of self.new) frame after
            (λ trail items. part_locations d frame (Stmts body.entry) trail
            (perform (scope_of frame.scope) trail (stmt_tree stmt.now) ∷ items))) }
        ensures weight { OnOk result ((d : DesignTree) → weight d (tables_of self.new).todo
            ≡ weight d (tables_of self.old).todo + part_weight d frame (Stmts body.entry)) }
    {
        let again = self.rest(frame, Work::Stmts(std::slice::from_ref(stmt)), after)?;
        self.leave(frame, Row::Stmts(body), again)?;
        Ok(())
    }

    // Walks the body that a path calls, if it may pause.
    fn walk_call(
        &mut self,
        callees: &Callees<'_, 't>,
        frame: Frame,
        path: &[Ident],
        after: usize,
    ) -> Result<(), AllocError>
        ensures settles { OnOk result ((d : DesignTree) → IsOver callees.now d → LeadsByText d →
            Settles d (tables_of self.old) (tables_of self.new) frame after
            (λ trail items. call_locations frame.depth d (scope_of frame.scope) trail path.now items)) }
        ensures lighter { OnOk result ((d : DesignTree) → IsOver callees.now d →
            weight d (tables_of self.new).todo ≤ weight d (tables_of self.old).todo
            + call_weight frame.depth d (scope_of frame.scope) path.now) }
    {
        let Some(called) = callees.pausing_body(frame.scope.instance, path) else {
            return Ok(());
        };
        if frame.depth == 0 {
            return Ok(());
        }
        let inner = Frame {
            scope: called.scope,
            trail: self.enter(frame.trail, path)?,
            depth: frame.depth - 1,
        };
        self.leave(inner, Row::Stmts(called.body.stmts.as_slice()), after)?;
        Ok(())
    }

    // The number of a trail with one more call, by its path.
    fn enter(&mut self, trail: usize, path: &[Ident]) -> Result<usize, AllocError>
        ensures grown { OnOk result (IsGrown (tables_of self.old) (tables_of self.new)) }
        ensures trail { IfOk result (λ number. (before : List placed.Place)
            → IsTrail (tables_of self.old).trails trail before
            → IsTrail (tables_of self.new).trails number (call_place path.now ++ before)) }
    {
        match path.first() {
            None => Ok(trail),
            Some(name) => self.enter_at(trail, name.place),
        }
    }

    // The number of a trail with one more call, by its place.
    fn enter_at(&mut self, trail: usize, at: Place) -> Result<usize, AllocError>
        ensures grown { OnOk result (IsGrown (tables_of self.old) (tables_of self.new)) }
        ensures trail { IfOk result (λ number. (before : List placed.Place)
            → IsTrail (tables_of self.old).trails trail before
            → IsTrail (tables_of self.new).trails number (at ∷ before)) }
    {
        let (index, _) = self.trails.insert_full(TrailNode { at, then: trail })?;
        prove!(index < self.trails.len());
        Ok(index + 1)
    }

    // Leaves a row for later.
    fn leave(&mut self, frame: Frame, row: Row<'t>, after: usize) -> Result<(), AllocError>
        ensures { OnOk result (tables_of self.new ≡ record (tables_of self.old) {
          todo = (tables_of self.old).todo ++ record { frame = frame; row = row.entry; after = after } ∷ [];
        }) }
    {
        self.todo.push(Todo { frame, row, after })?;
        Ok(())
    }

    // The number of what is left after the first statement of a row, by the others.
    fn rest_of_row(
        &mut self,
        frame: Frame,
        others: &'t [Stmt],
        after: usize,
    ) -> Result<usize, AllocError>
        ensures grown { OnOk result (IsGrown (tables_of self.old) (tables_of self.new)) }
        ensures work { IfOk result (λ number. IsWork (tables_of self.old) (tables_of self.new) frame after number
            (λ trail items. performs (scope_of frame.scope) trail (row_of (stmt_trees others.now)) ++ items)) }
    {
        if others.is_empty() {
            return Ok(after);
        }
        let number = self.rest(frame, Work::Stmts(others), after)?;
        Ok(number)
    }

    // The number of work with what is left after it.
    fn rest(&mut self, frame: Frame, work: Work<'t>, then: usize) -> Result<usize, AllocError>
        ensures grown { OnOk result (IsGrown (tables_of self.old) (tables_of self.new)) }
        ensures work { IfOk result (λ number. IsWork (tables_of self.old) (tables_of self.new) frame then number
            (λ trail items. map (perform (scope_of frame.scope) trail) (work_stmts work.entry) ++ items)) }
    {
        self.rests.push(RestNode {
            scope: frame.scope,
            trail: frame.trail,
            work,
            then,
        })?;
        Ok(self.rests.len())
    }

    // Notes a location.
    fn note(
        &mut self,
        trail: usize,
        at: Place,
        is_magic: bool,
        rest: usize,
    ) -> Result<(), AllocError>
        ensures { OnOk result (tables_of self.new ≡ record (tables_of self.old) {
          rows = (tables_of self.old).rows ++ record { at = at; trail = trail; is_magic = is_magic; rest = rest } ∷ [];
        }) }
    {
        self.rows.push(LocationRow {
            at,
            trail,
            is_magic,
            rest,
        })?;
        Ok(())
    }

    // Notes the location of a `wait`, after which its condition is assumed.
    fn note_wait(
        &mut self,
        frame: Frame,
        at: Place,
        e: &'t Expr,
        after: usize,
    ) -> Result<(), AllocError>
        ensures settles { OnOk result ((d : DesignTree) →
            Settles d (tables_of self.old) (tables_of self.new) frame after
            (λ trail items. record {
              at = at;
              trail = trail;
              is_magic = false;
              rest = perform (scope_of frame.scope) trail (assume at (expr_tree e.now)) ∷ items;
            } ∷ [])) }
        ensures todo { OnOk result ((tables_of self.new).todo ≡ (tables_of self.old).todo) }
    {
        let rest = self.rest(frame, Work::Assume(at, e), after)?;
        self.note(frame.trail, at, false, rest)?;
        Ok(())
    }
}
