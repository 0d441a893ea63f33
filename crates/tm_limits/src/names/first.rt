//! Of two names, and of several, the first that is too long.
ghost use Rattle.std.specs.Prelude.{◌≡◌, ◌++◌, [], ◌∷◌, List, map, if◌then◌else◌};
ghost use Rattle.std.specs.List.{flat_map};
ghost use Rattle.std.specs.Option.{option_copied};
ghost use Rattle.tm_syntax.specs.declared.tree.Ident as spelled;
ghost use Rattle.tm_syntax.specs.Tree.{EnumTree};
ghost use Rattle.tm_syntax.specs.Tree.View.{enum_tree, expr_tree, expr_trees};
ghost use Rattle.tm_syntax.specs.Places.{earliest_of, is_before};
ghost use Rattle.tm_limits.specs.LongNames.{expr_names, first_long};

use tm_base::Place;
use tm_syntax::tree::{EnumDef, Expr, Ident};

// The bytes that a name has at most.
const LONGEST: usize = 63;

/// The first long name of two parts of a text, given that of each.
pub(crate) fn earlier<'a>(first: Option<&'a Ident>, second: Option<&'a Ident>) -> Option<&'a Ident>
    ensures { (xs ys : List spelled.Ident) → option_copied first.entry ≡ first_long xs
        → option_copied second.entry ≡ first_long ys → option_copied result ≡ first_long (xs ++ ys) }
{
    earlier_of(first, second)
}

// The earlier of two names by their places, the first of them where these are one.
fn earlier_of<'a>(first: Option<&'a Ident>, second: Option<&'a Ident>) -> Option<&'a Ident>
    ensures { option_copied result ≡ earliest_of (λ (n : spelled.Ident). n.place) (option_copied first.entry)
        (option_copied second.entry) }
{
    match (first, second) {
        (Some(a), Some(b)) => Some(earlier_name(a, b)),
        (Some(a), None) => Some(a),
        (None, other) => other,
    }
}

// The earlier of two names by their places, the first of them where these are one.
fn earlier_name<'a>(a: &'a Ident, b: &'a Ident) -> &'a Ident
    ensures { result.now ≡ (if is_before b.now.place a.now.place then b.now else a.now) }
{
    if is_before(b.place, a.place) { b } else { a }
}

// Whether a place stands before another one.
fn is_before(a: Place, b: Place) -> bool
    ensures { result ≡ is_before a b }
{
    a.line < b.line || (a.line == b.line && a.column < b.column)
}

/// A name, if it is too long.
pub(crate) fn long(name: &Ident) -> Option<&Ident>
    ensures { option_copied result ≡ first_long (name.now ∷ []) }
{
    if name.text.as_bytes().len() > LONGEST {
        Some(name)
    } else {
        None
    }
}

/// The first of some names that is too long.
pub(crate) fn names_long(names: &[Ident]) -> Option<&Ident>
    ensures { option_copied result ≡ first_long names.now }
{
    let mut first = None;
    for name in names {
        first = earlier(first, long(name));
    }
    first
}

/// The first long name of an expression. As deep as it nests.
#[tactic(auto, using(crate::proofs::NameLists::name_lists))]
pub(crate) fn expr_long(expr: &Expr) -> Option<&Ident>
    ensures { option_copied result ≡ first_long (expr_names (expr_tree expr.now)) }
{
    match expr {
        Expr::Truth(_, _) => None,
        Expr::Number(_) => None,
        Expr::Path(path) => names_long(path.names.as_slice()),
        Expr::Group(_, e) => expr_long(e),
        Expr::Unary(_, _, e) => expr_long(e),
        Expr::Binary(_, _, a, b) => earlier(expr_long(a), expr_long(b)),
        Expr::Shift(_, _, e, _) => expr_long(e),
        Expr::Conditional(_, e, a, b) => {
            earlier(earlier(expr_long(e), expr_long(a)), expr_long(b))
        }
        Expr::Cast(_, _, e) => expr_long(e),
        Expr::Element(path, e) => earlier(names_long(path.names.as_slice()), expr_long(e)),
    }
}

/// The first long name of some expressions.
pub(crate) fn exprs_long(exprs: &[Expr]) -> Option<&Ident>
    ensures { option_copied result ≡ first_long (flat_map expr_names (expr_trees exprs.now)) }
{
    let mut first = None;
    for expr in exprs {
        first = earlier(first, expr_long(expr));
    }
    first
}

/// The first long name of enums and their constants.
pub(crate) fn enums_long(enums: &[EnumDef]) -> Option<&Ident>
    ensures { option_copied result
        ≡ first_long (flat_map (λ (e : EnumTree). e.name ∷ e.constants) (map enum_tree enums.now)) }
{
    let mut first = None;
    for def in enums {
        let own = earlier(long(&def.name), names_long(def.constants.as_slice()));
        first = earlier(first, own);
    }
    first
}
