//! Numbers within an expression that do not fit their type or their place.
ghost use Rattle.std.specs.Prelude.{◌≡◌, List};
ghost use Rattle.tm_base.specs.declared.place.Place as stands;
ghost use Rattle.tm_syntax.specs.Tree.View.{expr_tree};
ghost use Rattle.tm_syntax.specs.Scopes.Types.{valued_in};
ghost use Rattle.tm_syntax.specs.Faults.Literals.{expr_numbers, index_numbers, joint, operand_asked, written_length};
ghost use Rattle.tm_scope.specs.Context.{context_of};
ghost use Rattle.std.specs.Option.{option_map};
ghost use Rattle.tm_scope.specs.Types.{ty_of};
ghost use Rattle.tm_types.specs.Firsts.{first_of};

use crate::firsts::{earlier_place, place_unless};
use crate::literals::declared::{number_faults, width_faults};
use crate::literals::fits::{is_below, shift_fits};
use tm_base::Place;
use tm_scope::{BodyScope, ExprType};
use tm_syntax::tree::{BinaryOperator, Expr, Ident, Num, UnaryOperator};

// The type in which an expression of this own type is valued: its own, or the one that its place asks for.
fn valued_in<'a>(asked: ExprType<'a>, own: Option<ExprType<'a>>) -> ExprType<'a>
    ensures { ty_of result ≡ valued_in (ty_of asked.entry) (option_map ty_of own.entry) }
{
    match own {
        Some(ty) => ty,
        None => asked,
    }
}

// The type in which two expressions that are joined are valued.
fn joint<'a>(scope: &BodyScope<'a>, asked: ExprType<'a>, a: &Expr, b: &Expr) -> ExprType<'a>
    ensures { ty_of result ≡ joint (context_of scope.now) (ty_of asked.entry) (expr_tree a.now) (expr_tree b.now) }
{
    match scope.own_type(a) {
        Some(ty) => ty,
        None => valued_in(asked, scope.own_type(b)),
    }
}

// The type that an operator asks its operands for.
fn operand_asked<'a>(
    scope: &BodyScope<'a>,
    op: BinaryOperator,
    asked: ExprType<'a>,
    a: &Expr,
    b: &Expr,
) -> ExprType<'a>
    ensures { ty_of result
        ≡ operand_asked (context_of scope.now) op (ty_of asked.entry) (expr_tree a.now) (expr_tree b.now) }
{
    match op {
        BinaryOperator::AndAlso | BinaryOperator::OrElse => ExprType::Bool,
        _ => joint(scope, asked, a, b),
    }
}

// The length of the array that a path means, as it is written.
fn written_length(scope: &BodyScope, path: &[Ident]) -> Option<Num>
    ensures { result ≡ written_length (context_of scope.now) path.now }
{
    match scope.variable_of(path) {
        Some(var) => var.length,
        None => None,
    }
}

// The place of an index that is a number and not below the length of its array; for another index the first place
// within it.
pub(crate) fn index_numbers(
    scope: &BodyScope,
    path: &[Ident],
    index: &Expr,
    within: Option<Place>,
) -> Option<Place>
    ensures { (places : List stands.Place) → within ≡ first_of places
        → result ≡ first_of (index_numbers (context_of scope.now) path.now (expr_tree index.now) places) }
{
    match index {
        Expr::Number(n) => place_unless(is_below(written_length(scope, path), *n), n.place),
        _ => within,
    }
}

// The first number within an expression that does not fit, where it is valued in its own type or else in the one that
// is asked for. As deep as the expression nests, and looks at each part as often as it stands within another one.
pub(crate) fn expr_numbers<'a>(
    scope: &BodyScope<'a>,
    asked: ExprType<'a>,
    e: &Expr,
) -> Option<Place>
    ensures { result ≡ first_of (expr_numbers (context_of scope.now) (ty_of asked.entry) (expr_tree e.now)) }
{
    match e {
        Expr::Truth(_, _) => None,
        Expr::Number(n) => number_faults(asked, *n),
        Expr::Path(_) => None,
        Expr::Group(_, e) => expr_numbers(scope, asked, e),
        Expr::Unary(_, UnaryOperator::Complement, e) => expr_numbers(scope, asked, e),
        Expr::Unary(_, UnaryOperator::Not, e) => expr_numbers(scope, ExprType::Bool, e),
        Expr::Binary(_, op, a, b) => {
            let asked = operand_asked(scope, *op, asked, a, b);
            earlier_place(expr_numbers(scope, asked, a), expr_numbers(scope, asked, b))
        }
        Expr::Shift(_, _, e, by) => {
            let fits = shift_fits(valued_in(asked, scope.own_type(e)), *by);
            earlier_place(expr_numbers(scope, asked, e), place_unless(fits, by.place))
        }
        Expr::Conditional(_, e, a, b) => {
            let joint = joint(scope, asked, a, b);
            let first = earlier_place(
                expr_numbers(scope, ExprType::Bool, e),
                expr_numbers(scope, joint, a),
            );
            earlier_place(first, expr_numbers(scope, joint, b))
        }
        Expr::Cast(_, to, e) => earlier_place(
            width_faults(*to),
            expr_numbers(scope, ExprType::Bool, e),
        ),
        Expr::Element(path, e) => {
            let within = expr_numbers(scope, ExprType::Bool, e);
            index_numbers(scope, path.names.as_slice(), e, within)
        }
    }
}
