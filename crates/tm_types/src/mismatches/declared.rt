//! `F6` in the types, variables and tasks of a template.
ghost use Rattle.std.specs.Prelude.{◌≡◌, is_some, map};
ghost use Rattle.std.specs.List.{flat_map};
ghost use Rattle.std.specs.Option.{option_map};
ghost use Rattle.tm_syntax.specs.Tree as tree;
ghost use Rattle.tm_syntax.specs.Tree.View.{expr_tree, spec_tree, task_tree, var_tree};
ghost use Rattle.tm_syntax.specs.Scopes.Parts.{written_result};
ghost use Rattle.tm_syntax.specs.Faults.Mismatches as text;
ghost use Rattle.tm_scope.specs.Context.{context_of};
ghost use Rattle.tm_scope.specs.Types.{ty_of};
ghost use Rattle.tm_types.specs.Firsts.{first_of};
ghost use Rattle.tm_names.specs.Parts.{listed_types};

use crate::firsts::{earlier_place, place_unless};
use crate::mismatches::exprs::expr_place;
use crate::mismatches::findings::{is_uint, same_type};
use crate::mismatches::wanted::{Wanted, misnamed};
use tm_base::Place;
use tm_names::{Site, TextNames};
use tm_scope::ExprType;
use tm_syntax::tree::{Expr, Ident, TaskDef, TaskKind, TypeName, VarDef};

// The place of a type's name that is no enum's.
fn type_faults(names: &TextNames, ty: &TypeName) -> Option<Place>
    ensures { result ≡ first_of (text.type_faults (spec_tree names.now) ty.now) }
{
    match ty {
        TypeName::Bool(_) => None,
        TypeName::Uint(_, _) => None,
        TypeName::Enum(name) => misnamed(Wanted::Enum, names.text_sort(name.text.as_bytes()), name),
    }
}

/// The first fault of some types.
pub(crate) fn types_faults(names: &TextNames, types: &[&TypeName]) -> Option<Place>
    ensures { result ≡ first_of (flat_map (text.type_faults (spec_tree names.now)) (listed_types types.now)) }
{
    let mut first = None;
    for ty in types {
        first = earlier_place(first, type_faults(names, *ty));
    }
    first
}

// Whether the type that a constant has, if it is one, is this type.
fn constant_fits(at: &Site, ty: ExprType, path: &[Ident]) -> bool
    ensures { result ≡ text.literal_fits (context_of at.now).spec (ty_of ty.entry) (tree.path path.now) }
{
    match at.types().constant_type(path) {
        Some(constant) => same_type(ty, constant),
        None => false,
    }
}

// Whether an initial literal fits a variable of this type.
fn literal_fits(at: &Site, ty: ExprType, literal: &Expr) -> bool
    ensures { result ≡ text.literal_fits (context_of at.now).spec (ty_of ty.entry) (expr_tree literal.now) }
{
    match literal {
        Expr::Truth(_, _) => same_type(ty, ExprType::Bool),
        Expr::Number(_) => is_uint(ty),
        Expr::Path(path) => constant_fits(at, ty, path.names.as_slice()),
        Expr::Group(_, _) => false,
        Expr::Unary(_, _, _) => false,
        Expr::Binary(_, _, _, _) => false,
        Expr::Shift(_, _, _, _) => false,
        Expr::Conditional(_, _, _, _) => false,
        Expr::Cast(_, _, _) => false,
        Expr::Element(_, _) => false,
    }
}

// The place of an initial literal that does not fit its variable.
fn var_faults(at: &Site, var: &VarDef) -> Option<Place>
    ensures { result ≡ first_of (text.var_faults (context_of at.now).spec (var_tree var.now)) }
{
    match &var.init {
        Some(literal) => place_unless(
            literal_fits(at, ExprType::of(&var.ty), literal),
            expr_place(literal),
        ),
        None => None,
    }
}

/// The first fault of some variables.
pub(crate) fn vars_faults(at: &Site, vars: &[VarDef]) -> Option<Place>
    ensures { result ≡ first_of (flat_map (text.var_faults (context_of at.now).spec) (map var_tree vars.now)) }
{
    let mut first = None;
    for var in vars {
        first = earlier_place(first, var_faults(at, var));
    }
    first
}

// Whether a task is a procedure with a type.
fn is_typed(kind: &TaskKind) -> bool
    ensures { result ≡ is_some (written_result kind.now) }
{
    match kind {
        TaskKind::Controllable => false,
        TaskKind::Uncontrollable => false,
        TaskKind::Procedure(None) => false,
        TaskKind::Procedure(Some(_)) => true,
    }
}

// Whether a body has a result exactly where its procedure has a type.
fn result_fits(kind: &TaskKind, answer: &Option<Expr>) -> bool
    ensures { result ≡ text.result_fits kind.now (option_map expr_tree answer.now) }
{
    match answer {
        Some(_) => is_typed(kind),
        None => !is_typed(kind),
    }
}

// The place of a task whose result does not fit.
fn task_faults(task: &TaskDef) -> Option<Place>
    ensures { result ≡ first_of (text.task_faults (task_tree task.now)) }
{
    place_unless(result_fits(&task.kind, &task.body.answer), task.name.place)
}

/// The first fault of the results of some tasks.
pub(crate) fn tasks_faults(tasks: &[TaskDef]) -> Option<Place>
    ensures { result ≡ first_of (flat_map text.task_faults (map task_tree tasks.now)) }
{
    let mut first = None;
    for task in tasks {
        first = earlier_place(first, task_faults(task));
    }
    first
}
