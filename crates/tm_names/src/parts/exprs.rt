//! The expressions that stand in the statements of a body, with the types that their places ask for.
ghost use Rattle.std.specs.Prelude.{◌≡◌, ◌∷◌, ◌++◌, [], None, Some, OnOk, slice_get};
ghost use Rattle.std.specs.Option.{option_map, option_map_or};
ghost use Rattle.tm_syntax.specs.Tree.View.{expr_tree, expr_trees, local_tree, stmt_tree, value_tree};
ghost use Rattle.tm_syntax.specs.Tree as tree;
ghost use Rattle.tm_syntax.specs.Scopes.Names.{type_of};
ghost use Rattle.tm_syntax.specs.Scopes.Pauses.{task_reached};
ghost use Rattle.tm_syntax.specs.Scopes.Parts as text;
ghost use Rattle.tm_scope.specs.Context.{context_of};
ghost use Rattle.tm_scope.specs.Types.{ty_of};
ghost use Rattle.tm_names.specs.Asked.{all_asked, asked_of};
ghost use Rattle.tm_names.specs.LocalStmts.{declaration};

use crate::parts::asked::{Asked, ExprPart};
use crate::parts::site::Site;
use std::alloc::AllocError;
use std::slice;
use tm_scope::ExprType;
use tm_syntax::tree::{Expr, Ident, LocalDef, Param, Path, Stmt, Value};

// The type of the parameter of an index, if there is one.
fn param_type(params: &[Param], index: usize) -> Option<ExprType<'_>>
    ensures { option_map ty_of result ≡ option_map (λ p. type_of p.ty) (slice_get params.now index) }
{
    Some(ExprType::of(&params.get(index)?.ty))
}

// The parameters of the task that a path leads to, none if it leads to none.
fn params_of<'a>(site: &Site<'a>, path: &[Ident]) -> &'a [Param]
    ensures { result.now ≡ option_map_or (λ k. k.1.params)
        (task_reached (context_of site.now).spec (context_of site.now).template path.now) [] }
{
    match site.task_of(path) {
        Some(task) => task.params.as_slice(),
        None => &[],
    }
}

// Puts a condition behind other expressions: its place asks for a bool.
fn push_condition<'a>(asked: &mut Vec<Asked<'a>>, e: &'a Expr) -> Result<(), AllocError>
    ensures { OnOk result (all_asked asked.new.items
        ≡ all_asked asked.old.items ++ text.condition (expr_tree e.now) ∷ []) }
{
    asked.push(Asked {
        ty: Some(ExprType::Bool),
        expr: ExprPart::Whole(e),
    })?;
    Ok(())
}

// Puts arguments behind other expressions: each is asked for its parameter's type.
fn push_args<'a>(
    asked: &mut Vec<Asked<'a>>,
    params: &'a [Param],
    args: &'a [Expr],
) -> Result<(), AllocError>
    ensures { OnOk result (all_asked asked.new.items
        ≡ all_asked asked.old.items ++ text.asked_args params.now (expr_trees args.now)) }
{
    for (index, arg) in args.iter().enumerate() {
        asked.push(Asked {
            ty: param_type(params, index),
            expr: ExprPart::Whole(arg),
        })?;
    }
    Ok(())
}

// Puts the arguments of a call behind other expressions.
fn push_call<'a>(
    asked: &mut Vec<Asked<'a>>,
    site: &Site<'a>,
    path: &'a Path,
    args: &'a [Expr],
) -> Result<(), AllocError>
    ensures { OnOk result (all_asked asked.new.items ≡ all_asked asked.old.items
        ++ text.call_args (context_of site.now) path.now.names.items (expr_trees args.now)) }
{
    push_args(asked, params_of(site, path.names.as_slice()), args)
}

// Puts the expressions of a value behind others, for which a type is asked.
fn push_value<'a>(
    asked: &mut Vec<Asked<'a>>,
    site: &Site<'a>,
    ty: Option<ExprType<'a>>,
    value: &'a Value,
) -> Result<(), AllocError>
    ensures { OnOk result (all_asked asked.new.items ≡ all_asked asked.old.items
        ++ text.value_exprs (context_of site.now) (option_map ty_of ty.entry) (value_tree value.now)) }
{
    match value {
        Value::Star(_) => Ok(()),
        Value::Call(path, args) => push_call(asked, site, path, args.as_slice()),
        Value::Plain(e) => {
            asked.push(Asked {
                ty,
                expr: ExprPart::Whole(e),
            })?;
            Ok(())
        }
    }
}

// Puts the element that is assigned behind other expressions, if an element is.
fn push_target<'a>(
    asked: &mut Vec<Asked<'a>>,
    path: &'a Path,
    index: &'a Option<Expr>,
) -> Result<(), AllocError>
    ensures { OnOk result (all_asked asked.new.items ≡ all_asked asked.old.items
        ++ text.target_exprs path.now.names.items (option_map expr_tree index.now)) }
{
    match index {
        Some(index) => {
            asked.push(Asked {
                ty: None,
                expr: ExprPart::Element(path, index),
            })?;
            Ok(())
        }
        None => Ok(()),
    }
}

// Puts the expressions of an assignment behind others.
fn push_assignment<'a>(
    asked: &mut Vec<Asked<'a>>,
    site: &Site<'a>,
    path: &'a Path,
    index: &'a Option<Expr>,
    value: &'a Value,
) -> Result<(), AllocError>
    ensures { OnOk result (all_asked asked.new.items
        ≡ all_asked asked.old.items ++ text.stmt_exprs (context_of site.now)
        (tree.assign path.now.names.items (option_map expr_tree index.now) (value_tree value.now))) }
{
    push_target(asked, path, index)?;
    push_value(
        asked,
        site,
        site.types().named_type(path.names.as_slice()),
        value,
    )?;
    Ok(())
}

/// Puts the expressions that stand in a statement itself behind others, apart from the statements within it.
#[tactic(auto, using(tm_syntax::proofs::Views::views))]
pub(crate) fn push_stmt_exprs<'a>(
    asked: &mut Vec<Asked<'a>>,
    site: &Site<'a>,
    stmt: &'a Stmt,
) -> Result<(), AllocError>
    ensures { OnOk result (all_asked asked.new.items
        ≡ all_asked asked.old.items ++ text.stmt_exprs (context_of site.now) (stmt_tree stmt.now)) }
{
    match stmt {
        Stmt::Assign(path, index, value) => push_assignment(asked, site, path, index, value),
        Stmt::Call(path, args) => push_call(asked, site, path, args.as_slice()),
        Stmt::If(e, _, _) => push_condition(asked, e),
        Stmt::While(_, e, _) => push_condition(asked, e),
        Stmt::Forever(_, _) => Ok(()),
        Stmt::Choice(_, _) => Ok(()),
        Stmt::Assert(_, e) => push_condition(asked, e),
        Stmt::Assume(_, e) => push_condition(asked, e),
        Stmt::Pause(_) => Ok(()),
        Stmt::Wait(_, e) => push_condition(asked, e),
        Stmt::Magic(_) => Ok(()),
    }
}

/// Puts the expressions of a local's declaration behind others.
pub(crate) fn push_local_exprs<'a>(
    asked: &mut Vec<Asked<'a>>,
    site: &Site<'a>,
    local: &'a LocalDef,
) -> Result<(), AllocError>
    ensures { OnOk result (all_asked asked.new.items
        ≡ all_asked asked.old.items ++ text.stmt_exprs (context_of site.now) (declaration (local_tree local.now))) }
{
    push_value(
        asked,
        site,
        site.types().named_type(slice::from_ref(&local.name)),
        &local.value,
    )
}
