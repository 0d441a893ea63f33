//! The first long name in the bodies, goals and fairness conditions of templates.
ghost use Rattle.std.specs.Prelude.{◌≡◌, ◌∷◌, [], None, map};
ghost use Rattle.std.specs.List.{flat_map};
ghost use Rattle.std.specs.Option.{option_copied, option_map};
ghost use Rattle.tm_syntax.specs.Tree.{LocalTree, ProcessTree, TaskTree, ValueTree, alternatives_of, assign, row_of};
ghost use Rattle.tm_syntax.specs.Tree.View.{
  body_tree,
  expr_tree,
  local_tree,
  named_tree,
  process_tree,
  stmt_tree,
  stmt_trees,
  task_tree,
  template_tree,
  value_tree,
};
ghost use Rattle.tm_syntax.specs.Scopes.Parts.{bare_targets, block_stmts, inner_stmts, row_stmts, value_calls};
ghost use Rattle.tm_limits.specs.LongNames.{
  answer_names,
  body_names,
  condition_names,
  expr_names,
  first_long,
  own_names,
  target_exprs,
  template_names,
  value_exprs,
};

use crate::names::first::{earlier, expr_long, exprs_long, names_long};
use tm_syntax::tree::{
    Body, Expr, Ident, LocalDef, Named, Path, ProcessDef, Stmt, TaskDef, Template, Value,
};

/// Where names are sought: in expressions, or in the targets and calls of statements.
#[derive(Clone, Copy)]
pub(crate) enum Sought {
    Expressions,
    Paths,
}

/// The first long name in the bodies, goals and fairness conditions of some templates.
pub(crate) fn templates_long(sought: Sought, templates: &[Template]) -> Option<&Ident>
    ensures { option_copied result
        ≡ first_long (flat_map (template_names sought) (map template_tree templates.now)) }
{
    let mut first = None;
    for template in templates {
        first = earlier(first, template_long(sought, template));
    }
    first
}

// The first long name in the bodies, goals and fairness conditions of a template.
fn template_long(sought: Sought, template: &Template) -> Option<&Ident>
    ensures { option_copied result ≡ first_long (template_names sought (template_tree template.now)) }
{
    let bodies = earlier(
        processes_long(sought, template.processes.as_slice()),
        tasks_long(sought, template.tasks.as_slice()),
    );
    let goals = earlier(bodies, conditions_long(sought, template.goals.as_slice()));
    earlier(goals, conditions_long(sought, template.fairs.as_slice()))
}

// The first long name in the bodies of processes.
fn processes_long(sought: Sought, processes: &[ProcessDef]) -> Option<&Ident>
    ensures { option_copied result ≡ first_long
        (flat_map (λ (p : ProcessTree). body_names sought p.body) (map process_tree processes.now)) }
{
    let mut first = None;
    for process in processes {
        first = earlier(first, body_long(sought, &process.body));
    }
    first
}

// The first long name in the bodies of tasks.
fn tasks_long(sought: Sought, tasks: &[TaskDef]) -> Option<&Ident>
    ensures { option_copied result
        ≡ first_long (flat_map (λ (k : TaskTree). body_names sought k.body) (map task_tree tasks.now)) }
{
    let mut first = None;
    for task in tasks {
        first = earlier(first, body_long(sought, &task.body));
    }
    first
}

// The first long name in goals or fairness conditions.
fn conditions_long(sought: Sought, conditions: &[Named]) -> Option<&Ident>
    ensures { option_copied result ≡ first_long (condition_names sought (map named_tree conditions.now)) }
{
    match sought {
        Sought::Expressions => named_long(conditions),
        Sought::Paths => None,
    }
}

// The first long name in the expressions of goals or fairness conditions.
fn named_long(conditions: &[Named]) -> Option<&Ident>
    ensures { option_copied result ≡ first_long (flat_map (λ n. expr_names n.expr) (map named_tree conditions.now)) }
{
    let mut first = None;
    for condition in conditions {
        first = earlier(first, expr_long(&condition.expr));
    }
    first
}

// The first long name in a body.
fn body_long(sought: Sought, body: &Body) -> Option<&Ident>
    ensures { option_copied result ≡ first_long (body_names sought (body_tree body.now)) }
{
    let locals = locals_long(sought, body.locals.as_slice());
    let stmts = earlier(locals, row_long(sought, body.stmts.as_slice()));
    earlier(stmts, answer_long(sought, &body.answer))
}

// The first long name in a body's result.
#[tactic(auto, using(crate::proofs::NameLists::name_lists))]
fn answer_long(sought: Sought, answer: &Option<Expr>) -> Option<&Ident>
    ensures { option_copied result ≡ first_long (answer_names sought (option_map expr_tree answer.now)) }
{
    match (sought, answer) {
        (Sought::Expressions, Some(expr)) => expr_long(expr),
        (Sought::Expressions, None) => None,
        (Sought::Paths, _) => None,
    }
}

// The first long name in what the declarations of locals assign.
fn locals_long(sought: Sought, locals: &[LocalDef]) -> Option<&Ident>
    ensures { option_copied result ≡ first_long (flat_map (own_names sought)
        (map (λ (l : LocalTree). assign (l.name ∷ []) None l.value) (map local_tree locals.now))) }
{
    let mut first = None;
    for local in locals {
        first = earlier(first, local_long(sought, local));
    }
    first
}

// The first long name in what the declaration of a local assigns.
#[tactic(auto, using(crate::proofs::NameLists::name_lists))]
fn local_long(sought: Sought, local: &LocalDef) -> Option<&Ident>
    ensures { option_copied result
        ≡ first_long (own_names sought (assign (local.now.name ∷ []) None (value_tree local.now.value))) }
{
    match sought {
        Sought::Expressions => value_long(&local.value),
        Sought::Paths => {
            let target = names_long(std::slice::from_ref(&local.name));
            earlier(target, called_long(&local.value))
        }
    }
}

// The first long name of the expressions in what is assigned.
#[tactic(auto, using(crate::proofs::NameLists::name_lists))]
fn value_long(value: &Value) -> Option<&Ident>
    ensures { option_copied result ≡ first_long (flat_map expr_names (value_exprs (value_tree value.now))) }
{
    match value {
        Value::Star(_) => None,
        Value::Call(_, args) => exprs_long(args.as_slice()),
        Value::Plain(expr) => expr_long(expr),
    }
}

// The first long name of the path that a value calls.
#[tactic(auto, using(crate::proofs::NameLists::name_lists))]
fn called_long(value: &Value) -> Option<&Ident>
    ensures { option_copied result ≡ first_long (flat_map (λ p. p) (value_calls (value_tree value.now))) }
{
    match value {
        Value::Star(_) => None,
        Value::Call(path, _) => names_long(path.names.as_slice()),
        Value::Plain(_) => None,
    }
}

// The first long name of a statement itself.
fn own_long(sought: Sought, stmt: &Stmt) -> Option<&Ident>
    ensures { option_copied result ≡ first_long (own_names sought (stmt_tree stmt.now)) }
{
    match sought {
        Sought::Expressions => stmt_exprs_long(stmt),
        Sought::Paths => stmt_paths_long(stmt),
    }
}

// The first long name of the expressions that stand in a statement itself.
#[tactic(auto, using(tm_syntax::proofs::Views::views, crate::proofs::NameLists::name_lists))]
fn stmt_exprs_long(stmt: &Stmt) -> Option<&Ident>
    ensures { option_copied result ≡ first_long (own_names Sought.Expressions (stmt_tree stmt.now)) }
{
    match stmt {
        Stmt::Assign(target, index, value) => {
            earlier(index_long(target, index), value_long(value))
        }
        Stmt::Call(_, args) => exprs_long(args.as_slice()),
        Stmt::If(e, _, _) => expr_long(e),
        Stmt::While(_, e, _) => expr_long(e),
        Stmt::Forever(_, _) => None,
        Stmt::Choice(_, _) => None,
        Stmt::Assert(_, e) => expr_long(e),
        Stmt::Assume(_, e) => expr_long(e),
        Stmt::Pause(_) => None,
        Stmt::Wait(_, e) => expr_long(e),
        Stmt::Magic(_) => None,
    }
}

// The first long name of the element to which a statement assigns.
#[tactic(auto, using(crate::proofs::NameLists::name_lists))]
fn index_long<'a>(target: &'a Path, index: &'a Option<Expr>) -> Option<&'a Ident>
    ensures { option_copied result ≡ first_long (flat_map expr_names
        (target_exprs target.now.names.items (option_map expr_tree index.now))) }
{
    match index {
        Some(index) => earlier(names_long(target.names.as_slice()), expr_long(index)),
        None => None,
    }
}

// The first long name of the paths of a statement itself that are no expressions.
#[tactic(auto, using(tm_syntax::proofs::Views::views, crate::proofs::NameLists::name_lists))]
fn stmt_paths_long(stmt: &Stmt) -> Option<&Ident>
    ensures { option_copied result ≡ first_long (own_names Sought.Paths (stmt_tree stmt.now)) }
{
    match stmt {
        Stmt::Assign(target, index, value) => {
            earlier(bare_long(target, index), called_long(value))
        }
        Stmt::Call(path, _) => names_long(path.names.as_slice()),
        Stmt::If(_, _, _) => None,
        Stmt::While(_, _, _) => None,
        Stmt::Forever(_, _) => None,
        Stmt::Choice(_, _) => None,
        Stmt::Assert(_, _) => None,
        Stmt::Assume(_, _) => None,
        Stmt::Pause(_) => None,
        Stmt::Wait(_, _) => None,
        Stmt::Magic(_) => None,
    }
}

// The first long name of a target without an index.
#[tactic(auto, using(crate::proofs::NameLists::name_lists))]
fn bare_long<'a>(target: &'a Path, index: &'a Option<Expr>) -> Option<&'a Ident>
    ensures { (v : ValueTree) → option_copied result ≡ first_long (flat_map (λ p. p)
        (bare_targets (assign target.now.names.items (option_map expr_tree index.now) v))) }
{
    match index {
        Some(_) => None,
        None => names_long(target.names.as_slice()),
    }
}

// The first long name within a statement, apart from the statement itself. As deep as it nests.
#[cycle(names)]
#[tactic(auto, using(tm_syntax::proofs::Views::views, crate::proofs::NameLists::name_lists))]
fn inner_long(sought: Sought, stmt: &Stmt) -> Option<&Ident>
    ensures { option_copied result ≡ first_long (flat_map (own_names sought) (inner_stmts (stmt_tree stmt.now))) }
{
    match stmt {
        Stmt::Assign(_, _, _) => None,
        Stmt::Call(_, _) => None,
        Stmt::If(_, first, second) => earlier(
            row_long(sought, first.as_slice()),
            row_long(sought, second.as_slice()),
        ),
        Stmt::While(_, _, body) => row_long(sought, body.as_slice()),
        Stmt::Forever(_, body) => row_long(sought, body.as_slice()),
        Stmt::Choice(_, blocks) => blocks_long(sought, blocks.as_slice()),
        Stmt::Assert(_, _) => None,
        Stmt::Assume(_, _) => None,
        Stmt::Pause(_) => None,
        Stmt::Wait(_, _) => None,
        Stmt::Magic(_) => None,
    }
}

// The first long name in a row of statements.
#[cycle(names)]
fn row_long(sought: Sought, stmts: &[Stmt]) -> Option<&Ident>
    ensures { option_copied result
        ≡ first_long (flat_map (own_names sought) (row_stmts (row_of (stmt_trees stmts.now)))) }
{
    let mut first = None;
    for stmt in stmts {
        let own = earlier(own_long(sought, stmt), inner_long(sought, stmt));
        first = earlier(first, own);
    }
    first
}

// The first long name in several blocks.
#[cycle(names)]
fn blocks_long(sought: Sought, blocks: &[Vec<Stmt>]) -> Option<&Ident>
    ensures { option_copied result ≡ first_long (flat_map (own_names sought)
        (block_stmts (alternatives_of (map (λ b. row_of (stmt_trees b.items)) blocks.now)))) }
{
    let mut first = None;
    for block in blocks {
        first = earlier(first, row_long(sought, block.as_slice()));
    }
    first
}
