//! What is counted over the statements of bodies, with called bodies at each call.
ghost use Rattle.std.specs.Prelude.{◌≡◌, ◌+◌, ◌<◌, ◌∷◌, [], None, length, map, sum_by};
ghost use Rattle.tm_syntax.specs.Tree.{LocalTree, alternatives_of, assign, row_of};
ghost use Rattle.tm_syntax.specs.Tree.View.{body_tree, local_tree, stmt_tree, stmt_trees, value_tree};
ghost use Rattle.tm_syntax.specs.Scopes.Parts.{block_stmts, inner_stmts, own_calls, row_stmts, stmts_in, value_calls};
ghost use Rattle.tm_syntax.specs.Faults.Crossings.{is_location};
ghost use Rattle.tm_limits.specs.Amount.{capped};
ghost use Rattle.tm_limits.specs.Inner.Weights.{call_weight, sum_weights, weight_of};

use crate::amount::sum;
use indexmap::IndexMap;
use std::marker::Model;
use tm_scope::Scopes;
use tm_syntax::member::Member;
use tm_syntax::tree::{Body, Ident, LocalDef, Stmt, Value};

/// What is counted: every statement, or every location.
#[derive(Clone, Copy)]
pub(crate) enum Weight {
    Statements,
    Locations,
}

/// The weights of the bodies of tasks, to which paths lead from a template. Contracts see the specification, the number
/// of the template, what is counted and the weights.
#[derive(Drop)]
pub(crate) struct CallWeights<'m, 's, 'a> {
    scopes: &'s Scopes<'a>,
    from: usize,
    weight: Weight,
    weights: &'m IndexMap<Member, u64>,
}

impl<'m, 's, 'a> Model for CallWeights<'m, 's, 'a> {
    ghost use Rattle.std.specs.Prelude.{◌<◌, length};
    ghost use Rattle.std.specs.Coded.{codes};
    ghost use Rattle.tm_syntax.specs.contracts.tree.Spec as spec_contract;
    ghost use Rattle.tm_limits.specs.Inner.Weights.{WeightTable};

    ghost Value = { WeightTable };

    ghost view = { λ x. record {
      spec = x.scopes.now;
      from = x.from;
      weight = x.weight;
      weights = x.weights.now.entries;
    } };

    ghost invariant = { λ x. x.from < length x.scopes.now.templates.items };

    ghost coded = { Prim.hlevel (codes, spec_contract.the_row.coded) };
}

impl<'m, 's, 'a> CallWeights<'m, 's, 'a> {
    /// These weights, and the template of a number, from which paths lead.
    pub(crate) fn new(
        scopes: &'s Scopes<'a>,
        from: usize,
        weight: Weight,
        weights: &'m IndexMap<Member, u64>,
    ) -> CallWeights<'m, 's, 'a>
        requires { from < length scopes.now.templates.items }
        ensures { result ≡ record {
          spec = scopes.now;
          from = from;
          weight = weight;
          weights = weights.now.entries;
        } }
    {
        CallWeights {
            scopes,
            from,
            weight,
            weights,
        }
    }

    // The weight of the body that a path calls.
    fn call(&self, path: &[Ident]) -> u64
        ensures { result ≡ call_weight self.now path.now }
    {
        match self.scopes.task_number(self.from, path) {
            Some(task) => self.weights.get(&task).copied().unwrap_or(0),
            None => 0,
        }
    }

    // The weight of the body that a value calls.
    fn value(&self, value: &Value) -> u64
        ensures { result ≡ capped (sum_by (call_weight self.now) (value_calls (value_tree value.now))) }
    {
        match value {
            Value::Star(_) => 0,
            Value::Call(path, _) => self.call(path.names.as_slice()),
            Value::Plain(_) => 0,
        }
    }

    // The weight of a statement, apart from those within it and what it calls.
    fn own(&self, stmt: &Stmt) -> u64
        ensures { result ≡ weight_of self.now.weight (stmt_tree stmt.now) }
    {
        match self.weight {
            Weight::Statements => 1,
            Weight::Locations => is_location(stmt) as u64,
        }
    }

    // The weight of the bodies that a statement calls, apart from those within it.
    #[tactic(auto, using(tm_syntax::proofs::Views::views))]
    fn called(&self, stmt: &Stmt) -> u64
        ensures { result ≡ capped (sum_by (call_weight self.now) (own_calls (stmt_tree stmt.now))) }
    {
        match stmt {
            Stmt::Assign(_, _, value) => self.value(value),
            Stmt::Call(path, _) => self.call(path.names.as_slice()),
            Stmt::If(_, _, _) => 0,
            Stmt::While(_, _, _) => 0,
            Stmt::Forever(_, _) => 0,
            Stmt::Choice(_, _) => 0,
            Stmt::Assert(_, _) => 0,
            Stmt::Assume(_, _) => 0,
            Stmt::Pause(_) => 0,
            Stmt::Wait(_, _) => 0,
            Stmt::Magic(_) => 0,
        }
    }
}

// Whether a statement is a location.
#[tactic(auto, using(tm_syntax::proofs::Views::views))]
fn is_location(stmt: &Stmt) -> bool
    ensures { result ≡ is_location (stmt_tree stmt.now) }
{
    match stmt {
        Stmt::Assign(_, _, _) => false,
        Stmt::Call(_, _) => false,
        Stmt::If(_, _, _) => false,
        Stmt::While(_, _, _) => false,
        Stmt::Forever(_, _) => false,
        Stmt::Choice(_, _) => false,
        Stmt::Assert(_, _) => false,
        Stmt::Assume(_, _) => false,
        Stmt::Pause(_) => true,
        Stmt::Wait(_, _) => true,
        Stmt::Magic(_) => true,
    }
}

/// The weight of a body.
pub(crate) fn body_weight(calls: &CallWeights, body: &Body) -> u64
    ensures { result ≡ capped (sum_weights calls.now (stmts_in (body_tree body.now))) }
{
    sum(
        locals_weight(calls, body.locals.as_slice()),
        row_weight(calls, body.stmts.as_slice()),
    )
}

// The weight of the declarations of locals.
fn locals_weight(calls: &CallWeights, locals: &[LocalDef]) -> u64
    ensures { result ≡ capped (sum_weights calls.now
        (map (λ (l : LocalTree). assign (l.name ∷ []) None l.value) (map local_tree locals.now))) }
{
    let mut total = 0;
    for local in locals {
        total = sum(total, local_weight(calls, local));
    }
    total
}

// The weight of the declaration of a local.
fn local_weight(calls: &CallWeights, local: &LocalDef) -> u64
    ensures { result ≡ capped
        (weight_of calls.now.weight (assign (local.now.name ∷ []) None (value_tree local.now.value))
        + sum_by (call_weight calls.now) (value_calls (value_tree local.now.value))) }
{
    match calls.weight {
        Weight::Statements => sum(1, calls.value(&local.value)),
        Weight::Locations => calls.value(&local.value),
    }
}

// The weight of a statement with those within it.
#[cycle(weights)]
fn stmt_weight(calls: &CallWeights, stmt: &Stmt) -> u64
    ensures { result ≡ capped (sum_weights calls.now (stmt_tree stmt.now ∷ inner_stmts (stmt_tree stmt.now))) }
{
    sum(
        sum(calls.own(stmt), calls.called(stmt)),
        inner_weight(calls, stmt),
    )
}

// The weight of the statements within a statement. As deep as it nests.
#[cycle(weights)]
#[tactic(auto, using(tm_syntax::proofs::Views::views))]
fn inner_weight(calls: &CallWeights, stmt: &Stmt) -> u64
    ensures { result ≡ capped (sum_weights calls.now (inner_stmts (stmt_tree stmt.now))) }
{
    match stmt {
        Stmt::Assign(_, _, _) => 0,
        Stmt::Call(_, _) => 0,
        Stmt::If(_, first, second) => sum(
            row_weight(calls, first.as_slice()),
            row_weight(calls, second.as_slice()),
        ),
        Stmt::While(_, _, body) => row_weight(calls, body.as_slice()),
        Stmt::Forever(_, body) => row_weight(calls, body.as_slice()),
        Stmt::Choice(_, blocks) => blocks_weight(calls, blocks.as_slice()),
        Stmt::Assert(_, _) => 0,
        Stmt::Assume(_, _) => 0,
        Stmt::Pause(_) => 0,
        Stmt::Wait(_, _) => 0,
        Stmt::Magic(_) => 0,
    }
}

// The weight of a row of statements.
#[cycle(weights)]
fn row_weight(calls: &CallWeights, stmts: &[Stmt]) -> u64
    ensures { result ≡ capped (sum_weights calls.now (row_stmts (row_of (stmt_trees stmts.now)))) }
{
    let mut total = 0;
    for stmt in stmts {
        total = sum(total, stmt_weight(calls, stmt));
    }
    total
}

// The weight of several blocks.
#[cycle(weights)]
fn blocks_weight(calls: &CallWeights, blocks: &[Vec<Stmt>]) -> u64
    ensures { result ≡ capped (sum_weights calls.now
        (block_stmts (alternatives_of (map (λ b. row_of (stmt_trees b.items)) blocks.now)))) }
{
    let mut total = 0;
    for block in blocks {
        total = sum(total, row_weight(calls, block.as_slice()));
    }
    total
}
