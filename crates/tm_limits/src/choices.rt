//! The choice bits on the paths of bodies, with the paths of called bodies at the place of the call.
ghost use Rattle.std.specs.Prelude.{◌≡◌, ◌<◌, ◌∷◌, ◌++◌, [], None, List, Option, Some, length, map, slice_get};
ghost use Rattle.tm_base.specs.declared.place.Place as places;
ghost use Rattle.tm_syntax.specs.declared.tree.Ident as spelled;
ghost use Rattle.tm_syntax.specs.Tree.{ExprTree, LocalTree, StmtTree, alternatives_of, assign, choose, row_of};
ghost use Rattle.tm_syntax.specs.Tree.View.{body_tree, local_tree, stmt_tree, stmt_trees, value_tree};
ghost use Rattle.tm_syntax.specs.Scopes.Parts.{body_stmts};
ghost use Rattle.tm_syntax.specs.Counts.Choices as sums;
ghost use Rattle.tm_syntax.specs.Counts.Choices.{block_paths, row_paths, star_bits, stmt_paths};
ghost use Rattle.tm_scope.specs.Context.{context_of};
ghost use Rattle.tm_limits.specs.Amount.{capped};
ghost use Rattle.tm_limits.specs.Inner.PathSums.{AreBest, AreKnown, call_paths};

use crate::paths::Paths;
use crate::sizes::{bits_of_number, type_bits};
use indexmap::IndexMap;
use std::marker::Model;
use tm_scope::{BodyName, BodyScope, Scopes};
use tm_syntax::member::Member;
use tm_syntax::tree::{Body, Ident, LocalDef, Stmt, Value};

/// The paths of the bodies of tasks, to which paths of names lead from a body of a template. Contracts see the place of
/// the body, the number of the template and the paths.
#[derive(Drop)]
pub(crate) struct CallPaths<'m, 's, 'a> {
    scopes: &'s Scopes<'a>,
    from: usize,
    names: BodyScope<'s>,
    paths: &'m IndexMap<Member, Paths>,
}

impl<'m, 's, 'a> Model for CallPaths<'m, 's, 'a> {
    ghost use Rattle.std.specs.Prelude.{◌≡◌, ◌<◌, length};
    ghost use Rattle.std.specs.Coded.{codes};
    ghost use Rattle.tm_syntax.specs.contracts.tree.Spec as spec_contract;
    ghost use Rattle.tm_syntax.specs.contracts.tree.Template as template_contract;
    ghost use Rattle.tm_limits.specs.Inner.PathSums.{PathTable};

    ghost Value = { PathTable };

    ghost view = { λ x. record { place = x.names; from = x.from; paths = x.paths.now.entries } };

    ghost invariant = { λ x. (x.names.spec ≡ x.scopes.now) × (x.from < length x.scopes.now.templates.items) };

    ghost coded = { Prim.hlevel (codes, spec_contract.the_row.coded, template_contract.the_row.coded) };
}

impl<'m, 's, 'a> CallPaths<'m, 's, 'a> {
    /// These paths, and a body of the template of a number, from which paths of names lead.
    pub(crate) fn new(
        scopes: &'s Scopes<'a>,
        from: usize,
        body: BodyName,
        paths: &'m IndexMap<Member, Paths>,
    ) -> CallPaths<'m, 's, 'a>
        requires { from < length scopes.now.templates.items }
        ensures spec { result.place.spec ≡ scopes.now }
        ensures template { slice_get scopes.now.templates.items from ≡ Some result.place.template }
        ensures body { result.place.body ≡ body }
        ensures from { result.from ≡ from }
        ensures paths { result.paths ≡ paths.now.entries }
    {
        CallPaths {
            scopes,
            from,
            names: scopes.body_scope(from, body),
            paths,
        }
    }

    // The paths of the body that a path of names calls.
    fn call(&self, path: &[Ident]) -> Paths
        ensures { result ≡ call_paths self.now path.now }
    {
        match self.scopes.task_number(self.from, path) {
            Some(task) => self.paths.get(&task).copied().unwrap_or(Paths::choosing(0)),
            None => Paths::choosing(0),
        }
    }

    // The bits of any value of the type of what is assigned.
    fn star_bits(&self, target: &[Ident]) -> u64
        ensures { result ≡ capped (star_bits (context_of self.now.place) target.now) }
    {
        match self.names.named_type(target) {
            Some(ty) => type_bits(self.scopes, ty),
            None => 0,
        }
    }

    // The paths of an assignment.
    fn assignment(&self, target: &[Ident], value: &Value) -> Paths
        ensures { (within : List spelled.Ident → sums.Paths) (index : Option ExprTree) → AreKnown self.now within
            → AreBest result (stmt_paths within (context_of self.now.place)
            (assign target.now index (value_tree value.now))) }
    {
        match value {
            Value::Star(_) => Paths::choosing(self.star_bits(target)),
            Value::Call(path, _) => self.call(path.names.as_slice()),
            Value::Plain(_) => Paths::choosing(0),
        }
    }
}

/// The paths of a body.
pub(crate) fn body_paths(calls: &CallPaths, body: &Body) -> Paths
    ensures { (within : List spelled.Ident → sums.Paths) → AreKnown calls.now within
        → AreBest result (row_paths within (context_of calls.now.place) (row_of (body_stmts (body_tree body.now)))) }
{
    let stmts = row_paths(calls, body.stmts.as_slice());
    locals_paths(calls, body.locals.as_slice(), stmts)
}

// The paths of the declarations of locals with what stands behind them.
fn locals_paths(calls: &CallPaths, locals: &[LocalDef], behind: Paths) -> Paths
    ensures { (within : List spelled.Ident → sums.Paths) (ss : List StmtTree) → AreKnown calls.now within
        → AreBest behind (row_paths within (context_of calls.now.place) (row_of ss))
        → AreBest result (row_paths within (context_of calls.now.place)
        (row_of (map (λ (l : LocalTree). assign (l.name ∷ []) None l.value) (map local_tree locals.now) ++ ss))) }
{
    let mut paths = behind;
    let mut left = locals.len();
    while left > 0 {
        left -= 1;
        paths = local_paths(calls, &locals[left]).then(paths);
    }
    paths
}

// The paths of the declaration of a local.
fn local_paths(calls: &CallPaths, local: &LocalDef) -> Paths
    ensures { (within : List spelled.Ident → sums.Paths) → AreKnown calls.now within
        → AreBest result (stmt_paths within (context_of calls.now.place)
        (assign (local.now.name ∷ []) None (value_tree local.now.value))) }
{
    calls.assignment(std::slice::from_ref(&local.name), &local.value)
}

// The paths of a statement. As deep as it nests.
#[cycle(paths)]
#[tactic(auto, using(tm_syntax::proofs::Views::views))]
fn stmt_paths(calls: &CallPaths, stmt: &Stmt) -> Paths
    ensures { (within : List spelled.Ident → sums.Paths) → AreKnown calls.now within
        → AreBest result (stmt_paths within (context_of calls.now.place) (stmt_tree stmt.now)) }
{
    match stmt {
        Stmt::Assign(target, _, value) => calls.assignment(target.names.as_slice(), value),
        Stmt::Call(path, _) => calls.call(path.names.as_slice()),
        Stmt::If(_, first, second) => {
            row_paths(calls, first.as_slice()).or(row_paths(calls, second.as_slice()))
        }
        Stmt::While(_, _, body) => row_paths(calls, body.as_slice()).leavable(),
        Stmt::Forever(_, body) => row_paths(calls, body.as_slice()).again(),
        Stmt::Choice(_, blocks) => choice_paths(calls, blocks.as_slice()),
        Stmt::Assert(_, _) => Paths::choosing(0),
        Stmt::Assume(_, _) => Paths::choosing(0),
        Stmt::Pause(_) => Paths::stopping(),
        Stmt::Wait(_, _) => Paths::stopping(),
        Stmt::Magic(_) => Paths::stopping(),
    }
}

// The paths of a choice among several blocks.
#[cycle(paths)]
fn choice_paths(calls: &CallPaths, blocks: &[Vec<Stmt>]) -> Paths
    ensures { (within : List spelled.Ident → sums.Paths) (at : places.Place) → AreKnown calls.now within
        → AreBest result (stmt_paths within (context_of calls.now.place)
        (choose at (alternatives_of (map (λ b. row_of (stmt_trees b.items)) blocks.now)))) }
{
    let bits = bits_of_number((blocks.len() as u64).saturating_sub(1));
    Paths::choosing(bits).then(blocks_paths(calls, blocks))
}

// The paths of a row of statements.
#[cycle(paths)]
fn row_paths(calls: &CallPaths, stmts: &[Stmt]) -> Paths
    ensures { (within : List spelled.Ident → sums.Paths) → AreKnown calls.now within
        → AreBest result (row_paths within (context_of calls.now.place) (row_of (stmt_trees stmts.now))) }
{
    let mut paths = Paths::choosing(0);
    let mut left = stmts.len();
    while left > 0 {
        left -= 1;
        paths = stmt_paths(calls, &stmts[left]).then(paths);
    }
    paths
}

// The paths of several blocks, of which one is chosen.
#[cycle(paths)]
fn blocks_paths(calls: &CallPaths, blocks: &[Vec<Stmt>]) -> Paths
    ensures { (within : List spelled.Ident → sums.Paths) → AreKnown calls.now within
        → AreBest result (block_paths within (context_of calls.now.place)
        (alternatives_of (map (λ b. row_of (stmt_trees b.items)) blocks.now))) }
{
    let mut paths = Paths::none();
    let mut left = blocks.len();
    while left > 0 {
        left -= 1;
        paths = row_paths(calls, blocks[left].as_slice()).or(paths);
    }
    paths
}
