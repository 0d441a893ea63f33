//! Paths that lead to nothing, in expressions.
ghost use Rattle.std.specs.Prelude.{◌≡◌};
ghost use Rattle.std.specs.Option.{option_map};
ghost use Rattle.tm_syntax.specs.Tree.View.{expr_tree};
ghost use Rattle.tm_syntax.specs.Scopes.Declared as text;
ghost use Rattle.tm_syntax.specs.Faults.Marks.{first_mark, named};
ghost use Rattle.tm_syntax.specs.Faults.Names.{unknown_in_expr, unknown_of};
ghost use Rattle.tm_scope.specs.Context.{context_of};
ghost use Rattle.tm_names.specs.Meanings.{meaning_of};
ghost use Rattle.tm_names.specs.ScopeNames.{mark_of};
ghost use Rattle.tm_types.specs.Inner.TextParts.{expr_at};
ghost use Rattle.tm_types.specs.Inner.UnknownParts.{unknown_within};

use crate::firsts_named::earlier_name;
use tm_names::{Asked, ExprPart, Meaning, NameMark, Site};
use tm_syntax::tree::{Expr, Ident};

// A fault at a name.
pub(crate) fn name_mark(name: &Ident) -> NameMark<'_>
    ensures { mark_of result ≡ named name.now }
{
    NameMark {
        place: name.place,
        name: name.text.as_bytes(),
    }
}

// The name at which a path leads to nothing.
fn unknown_of(meaning: Meaning<'_>) -> Option<NameMark<'_>>
    ensures { option_map mark_of result ≡ first_mark (unknown_of (meaning_of meaning.entry)) }
{
    match meaning {
        Meaning::Unknown(name) => Some(name_mark(name)),
        Meaning::Misplaced(_) => None,
        Meaning::Unclear => None,
        Meaning::Means(_, _) => None,
    }
}

// The name at which a path leads to nothing where it stands.
pub(crate) fn unknown_path<'a>(site: &Site<'a>, path: &'a [Ident]) -> Option<NameMark<'a>>
    ensures { option_map mark_of result ≡ first_mark (unknown_of (text.meaning (context_of site.now) path.now)) }
{
    unknown_of(site.meaning(path))
}

/// The first name in an expression at which a path leads to nothing. As deep as the expression nests.
#[tactic(auto, using(crate::proofs::UnknownPaths::path_lists))]
pub(crate) fn unknown_in_expr<'a>(site: &Site<'a>, e: &'a Expr) -> Option<NameMark<'a>>
    ensures { option_map mark_of result
        ≡ first_mark (unknown_within (context_of site.now) (expr_tree e.now)) }
{
    match e {
        Expr::Truth(_, _) => None,
        Expr::Number(_) => None,
        Expr::Path(path) => unknown_path(site, path.names.as_slice()),
        Expr::Group(_, e) => unknown_in_expr(site, e),
        Expr::Unary(_, _, e) => unknown_in_expr(site, e),
        Expr::Binary(_, _, a, b) => {
            earlier_name(unknown_in_expr(site, a), unknown_in_expr(site, b))
        }
        Expr::Shift(_, _, e, _) => unknown_in_expr(site, e),
        Expr::Conditional(_, e, a, b) => {
            let before = earlier_name(unknown_in_expr(site, e), unknown_in_expr(site, a));
            earlier_name(before, unknown_in_expr(site, b))
        }
        Expr::Cast(_, _, e) => unknown_in_expr(site, e),
        Expr::Element(path, e) => {
            let in_path = unknown_path(site, path.names.as_slice());
            earlier_name(in_path, unknown_in_expr(site, e))
        }
    }
}

/// The first one in an expression for which a type is asked.
pub(crate) fn unknown_in_asked<'a>(site: &Site<'a>, asked: &Asked<'a>) -> Option<NameMark<'a>>
    ensures { option_map mark_of result ≡ first_mark (unknown_in_expr (expr_at site.now asked.now)) }
{
    match asked.expr {
        ExprPart::Whole(e) => unknown_in_expr(site, e),
        ExprPart::Element(path, e) => {
            let in_path = unknown_path(site, path.names.as_slice());
            earlier_name(in_path, unknown_in_expr(site, e))
        }
    }
}
