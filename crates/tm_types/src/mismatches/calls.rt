//! `F6` of calls: their paths, their numbers of arguments and their results.
ghost use Rattle.std.specs.Prelude.{◌≡◌};
ghost use Rattle.std.specs.Option.{option_copied, option_map};
ghost use Rattle.tm_syntax.specs.Tree as tree;
ghost use Rattle.tm_syntax.specs.Tree.View.{expr_trees, task_tree, value_tree};
ghost use Rattle.tm_syntax.specs.Faults.Mismatches as text;
ghost use Rattle.tm_scope.specs.Context.{context_of};
ghost use Rattle.tm_scope.specs.Types.{ty_of};
ghost use Rattle.tm_types.specs.Firsts.{first_of};
ghost use Rattle.tm_types.specs.Inner.TaskCalls.{count_faults, result_faults};

use crate::firsts::{earlier_place, place_unless};
use crate::mismatches::exprs::{path_place, wrong_path};
use crate::mismatches::findings::same_type;
use crate::mismatches::wanted::Wanted;
use tm_base::Place;
use tm_names::Site;
use tm_scope::ExprType;
use tm_syntax::tree::{Expr, Ident, TaskDef, TaskKind, Value};

// Whether text may call a task with so many arguments.
fn call_fits(task: &TaskDef, count: usize) -> bool
    ensures { result ≡ text.call_fits (task_tree task.now) count }
{
    match &task.kind {
        TaskKind::Controllable => false,
        TaskKind::Uncontrollable => task.params.as_slice().len() == count,
        TaskKind::Procedure(_) => task.params.as_slice().len() == count,
    }
}

// The fault of a call of a task with so many arguments, if a task is called.
fn count_faults(task: Option<&TaskDef>, path: &[Ident], count: usize) -> Option<Place>
    ensures { result ≡ first_of (count_faults (option_map task_tree (option_copied task.entry)) path.now count) }
{
    match task {
        Some(task) => place_unless(call_fits(task, count), path_place(path)),
        None => None,
    }
}

/// The first fault of a call: its path is that of a task or procedure, which text may call with so many arguments.
pub(crate) fn call_faults<'a>(at: &Site<'a>, path: &'a [Ident], args: &'a [Expr]) -> Option<Place>
    ensures { result ≡ first_of (text.call_faults (context_of at.now) path.now (expr_trees args.now)) }
{
    let of_path = wrong_path(at, Wanted::Call, path);
    earlier_place(of_path, count_faults(at.task_of(path), path, args.len()))
}

// The place of the last name of a path.
fn last_place(path: &[Ident]) -> Place
    ensures { result ≡ text.last_place path.now }
{
    match path {
        [] => Place { line: 1, column: 1 },
        [.., last] => last.place,
    }
}

// The fault of a call that stands as a value, for which a type is asked.
fn called_faults(asked: Option<ExprType>, path: &[Ident], kind: &TaskKind) -> Option<Place>
    ensures { result ≡ first_of (text.called_faults (option_map ty_of asked.entry) path.now kind.now) }
{
    match kind {
        TaskKind::Controllable => Some(last_place(path)),
        TaskKind::Uncontrollable => Some(last_place(path)),
        TaskKind::Procedure(None) => Some(last_place(path)),
        TaskKind::Procedure(Some(ty)) => {
            place_unless(same_type(asked?, ExprType::of(ty)), path_place(path))
        }
    }
}

// The fault of the result of a task that is called as a value, if a task is.
fn result_faults(asked: Option<ExprType>, path: &[Ident], task: Option<&TaskDef>) -> Option<Place>
    ensures { result ≡ first_of (result_faults (option_map ty_of asked.entry) path.now
        (option_map task_tree (option_copied task.entry))) }
{
    match task {
        Some(task) => called_faults(asked, path, &task.kind),
        None => None,
    }
}

// The first fault of a call that stands as a value, for which a type is asked.
fn valued_call_faults<'a>(
    at: &Site<'a>,
    asked: Option<ExprType<'a>>,
    path: &'a [Ident],
    args: &'a [Expr],
) -> Option<Place>
    ensures { result ≡ first_of (text.value_call_faults (context_of at.now) (option_map ty_of asked.entry)
        (tree.result path.now (expr_trees args.now))) }
{
    let of_call = call_faults(at, path, args);
    earlier_place(of_call, result_faults(asked, path, at.task_of(path)))
}

/// The first fault of the call that a value is, for which a type is asked.
pub(crate) fn value_call_faults<'a>(
    at: &Site<'a>,
    asked: Option<ExprType<'a>>,
    value: &'a Value,
) -> Option<Place>
    ensures { result ≡ first_of
        (text.value_call_faults (context_of at.now) (option_map ty_of asked.entry) (value_tree value.now)) }
{
    match value {
        Value::Star(_) => None,
        Value::Call(path, args) => {
            valued_call_faults(at, asked, path.names.as_slice(), args.as_slice())
        }
        Value::Plain(_) => None,
    }
}
