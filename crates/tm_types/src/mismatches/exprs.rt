//! `F6` within an expression: operands that do not fit their operator, and paths of the wrong sort.
ghost use Rattle.std.specs.Prelude.{◌≡◌, ◌&&◌, List, Option};
ghost use Rattle.tm_base.specs.declared.place.Place as stands;
ghost use Rattle.tm_syntax.specs.declared.design.Ty as resolved;
ghost use Rattle.tm_syntax.specs.Tree as tree;
ghost use Rattle.tm_syntax.specs.Tree.View.{expr_tree};
ghost use Rattle.tm_syntax.specs.Scopes.Declared.{meaning};
ghost use Rattle.tm_syntax.specs.Scopes.Types.{own_type};
ghost use Rattle.tm_syntax.specs.Faults.Operands as text;
ghost use Rattle.tm_scope.specs.Context.{context_of};
ghost use Rattle.tm_types.specs.Firsts.{first_of};
ghost use Rattle.tm_types.specs.Findings.{IsOperand, finding_of};
ghost use Rattle.tm_types.specs.Wanted.{suits};
ghost use Rattle.tm_types.specs.Inner.Indices.{is_number};
ghost use Rattle.tm_names.specs.Sites.{is_in_body};

use crate::firsts::earlier_place;
use crate::mismatches::findings::Finding;
use crate::mismatches::operators::{
    Operand, binary_faults, cast_faults, conditional_faults, judged, shift_faults, unary_faults,
};
use crate::mismatches::wanted::{Wanted, wrong_sort};
use tm_base::Place;
use tm_names::Site;
use tm_syntax::tree::{Expr, Ident, Path};

/// The place of the first name of a path.
pub(crate) fn path_place(path: &[Ident]) -> Place
    ensures { result ≡ text.path_place path.now }
{
    match path {
        [] => Place { line: 1, column: 1 },
        [first, ..] => first.place,
    }
}

/// The place of an expression's first token. As deep as the expression nests, which the limit on depth bounds by 128.
pub(crate) fn expr_place(e: &Expr) -> Place
    ensures { result ≡ text.expr_place (expr_tree e.now) }
{
    match e {
        Expr::Truth(at, _) => *at,
        Expr::Number(n) => n.place,
        Expr::Path(path) => path_place(path.names.as_slice()),
        Expr::Group(at, _) => *at,
        Expr::Unary(at, _, _) => *at,
        Expr::Binary(_, _, e, _) => expr_place(e),
        Expr::Shift(_, _, e, _) => expr_place(e),
        Expr::Conditional(_, e, _, _) => expr_place(e),
        Expr::Cast(at, _, _) => *at,
        Expr::Element(path, _) => path_place(path.names.as_slice()),
    }
}

// What is found of an expression, given the first fault within it.
fn operand<'a>(at: &Site<'a>, e: &Expr, first: Option<Place>) -> Operand<'a>
    ensures { (faults : List stands.Place) → first ≡ first_of faults
        → IsOperand result faults (own_type (context_of at.now) (expr_tree e.now)) }
{
    let found = Finding::of(first, at.types().own_type(e));
    Operand { first, found }
}

/// The name at which a path is not what is wanted.
pub(crate) fn wrong_path<'a>(at: &Site<'a>, wanted: Wanted, path: &'a [Ident]) -> Option<Place>
    ensures { result ≡ first_of (text.wrong_sort (suits wanted) (meaning (context_of at.now) path.now)) }
{
    wrong_sort(wanted, at.meaning(path))
}

// Whether an expression is a NUMBER.
fn is_number(e: &Expr) -> bool
    ensures { result ≡ is_number (expr_tree e.now) }
{
    match e {
        Expr::Number(_) => true,
        _ => false,
    }
}

// Whether an index that is no NUMBER is one that may stand: in a body a number with a type of its own.
fn other_index_fits(at: &Site, found: Finding) -> bool
    ensures { result ≡ (is_in_body (context_of at.now).body && text.is_number_typed (finding_of found.entry)) }
{
    at.is_in_body() && found.is_number_typed()
}

// Whether an index is a NUMBER, or in a body a number with a type of its own.
fn index_fits(at: &Site, index: &Expr, found: Finding) -> bool
    ensures { result ≡ text.index_fits (context_of at.now).body (expr_tree index.now) (finding_of found.entry) }
{
    if is_number(index) {
        return true;
    }
    other_index_fits(at, found)
}

// The first fault of an index.
fn index_faults(at: &Site, index: &Expr, x: Operand) -> Option<Place>
    ensures { (xs : List stands.Place) (tx : Option resolved.Ty) → IsOperand x.entry xs tx
        → result ≡ first_of (text.index_faults (context_of at.now).body (expr_tree index.now) xs tx) }
{
    judged(x.first, index_fits(at, index, x.found), expr_place(index))
}

// The first fault of an element of an array, given the first one within its index.
fn element_faults<'a>(
    at: &Site<'a>,
    path: &'a Path,
    index: &Expr,
    within: Option<Place>,
) -> Option<Place>
    ensures { within ≡ first_of (text.expr_faults (context_of at.now) (expr_tree index.now))
        → result ≡ first_of
        (text.expr_faults (context_of at.now) (tree.element path.now.names.items (expr_tree index.now))) }
{
    let of_path = wrong_path(at, Wanted::Element, path.names.as_slice());
    earlier_place(of_path, index_faults(at, index, operand(at, index, within)))
}

// The first fault within an expression. As deep as the expression nests, which the limit on depth bounds by 128; looks
// at each part as often as it stands within another one.
fn expr_faults<'a>(at: &Site<'a>, e: &'a Expr) -> Option<Place>
    ensures { result ≡ first_of (text.expr_faults (context_of at.now) (expr_tree e.now)) }
{
    match e {
        Expr::Truth(_, _) => None,
        Expr::Number(_) => None,
        Expr::Path(path) => wrong_path(at, Wanted::Value, path.names.as_slice()),
        Expr::Group(_, e) => expr_faults(at, e),
        Expr::Unary(place, op, e) => unary_faults(*place, *op, operand(at, e, expr_faults(at, e))),
        Expr::Binary(place, op, a, b) => {
            let first = operand(at, a, expr_faults(at, a));
            binary_faults(*place, *op, first, operand(at, b, expr_faults(at, b)))
        }
        Expr::Shift(place, _, e, _) => shift_faults(*place, operand(at, e, expr_faults(at, e))),
        Expr::Conditional(place, e, a, b) => {
            let test = operand(at, e, expr_faults(at, e));
            let first = operand(at, a, expr_faults(at, a));
            conditional_faults(*place, test, first, operand(at, b, expr_faults(at, b)))
        }
        Expr::Cast(_, _, e) => cast_faults(expr_place(e), operand(at, e, expr_faults(at, e))),
        Expr::Element(path, e) => element_faults(at, path, e, expr_faults(at, e)),
    }
}

/// What is found of an expression. Near linear in it.
pub(crate) fn whole_operand<'a>(at: &Site<'a>, e: &'a Expr) -> Operand<'a>
    ensures { IsOperand result (text.expr_faults (context_of at.now) (expr_tree e.now))
        (own_type (context_of at.now) (expr_tree e.now)) }
{
    operand(at, e, expr_faults(at, e))
}

/// What is found of an element of an array that is assigned.
pub(crate) fn element_operand<'a>(at: &Site<'a>, path: &'a Path, index: &'a Expr) -> Operand<'a>
    ensures { IsOperand result
        (text.expr_faults (context_of at.now) (tree.element path.now.names.items (expr_tree index.now)))
        (own_type (context_of at.now) (tree.element path.now.names.items (expr_tree index.now))) }
{
    let first = element_faults(at, path, index, expr_faults(at, index));
    let found = Finding::of(first, at.types().named_type(path.names.as_slice()));
    Operand { first, found }
}
