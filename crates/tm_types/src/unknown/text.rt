//! The first name of a text that no declaration gives in its scope.
ghost use Rattle.std.specs.Prelude.{◌≡◌, IfOk};
ghost use Rattle.std.specs.List.{All, flat_map};
ghost use Rattle.std.specs.Option.{option_map};
ghost use Rattle.tm_syntax.specs.Tree.View.{spec_tree};
ghost use Rattle.tm_syntax.specs.Faults.Marks.{first_mark};
ghost use Rattle.tm_syntax.specs.Faults.Names.{unknown_in_body, unknown_in_expr, unknown_in_template, unknown_names};
ghost use Rattle.tm_names.specs.ScopeNames.{mark_of};
ghost use Rattle.tm_types.specs.Inner.TextParts.{IsDivided, IsOwnHead, bodies_of, exprs_of, in_head};

use crate::firsts_named::earliest_of_four;
use crate::parts::{DividedText, TextHead, TextPart};
use crate::unknown::bodies::unknown_in_part;
use crate::unknown::declared::{unknown_in_template, unknown_main};
use crate::unknown::exprs::unknown_in_asked;
use std::alloc::{AllocError, Global};
use tm_names::{NameMark, earlier_mark};
use tm_syntax::tree::Spec;

// The first one in the declarations of templates.
fn unknown_in_heads<'a>(
    alloc: Global,
    heads: &[TextHead<'a>],
) -> Result<Option<NameMark<'a>>, AllocError>
    requires { All IsOwnHead heads.now }
    ensures { IfOk result (λ first. option_map mark_of first
        ≡ first_mark (flat_map (in_head unknown_in_template) heads.now)) }
{
    let mut first = None;
    for head in heads {
        let here = given!(unknown_in_template(alloc, &head.site, head.template));
        first = earlier_mark(first, here);
    }
    Ok(first)
}

// The first one in the expressions of a part.
fn unknown_in_exprs<'a>(part: &TextPart<'a>) -> Option<NameMark<'a>>
    ensures { option_map mark_of result ≡ first_mark (flat_map unknown_in_expr (exprs_of part.now)) }
{
    let mut first = None;
    for e in part.exprs.as_slice() {
        first = earlier_mark(first, unknown_in_asked(&part.site, e));
    }
    first
}

// The first one in the expressions of parts.
fn unknown_in_all_exprs<'a>(parts: &[TextPart<'a>]) -> Option<NameMark<'a>>
    ensures { option_map mark_of result ≡ first_mark (flat_map unknown_in_expr (flat_map exprs_of parts.now)) }
{
    let mut first = None;
    for part in parts {
        first = earlier_mark(first, unknown_in_exprs(part));
    }
    first
}

// The first one in the targets and calls of the bodies among parts.
fn unknown_in_all_bodies<'a>(
    alloc: Global,
    parts: &[TextPart<'a>],
) -> Result<Option<NameMark<'a>>, AllocError>
    ensures { IfOk result (λ first. option_map mark_of first
        ≡ first_mark (flat_map unknown_in_body (flat_map bodies_of parts.now))) }
{
    let mut first = None;
    for part in parts {
        first = earlier_mark(first, given!(unknown_in_part(alloc, part)));
    }
    Ok(first)
}

/// The first name of a text that no declaration gives in its scope, or `main` at the text's start where no template has
/// that name. `AllocError` is want of memory. Linear in the text.
pub(crate) fn first_unknown<'a>(
    alloc: Global,
    text: &DividedText<'a>,
    spec: &Spec,
) -> Result<Option<NameMark<'a>>, AllocError>
    requires { IsDivided spec.now text.now }
    ensures { IfOk result (λ first. option_map mark_of first ≡ first_mark (unknown_names (spec_tree spec.now))) }
{
    let in_heads = given!(unknown_in_heads(alloc, text.heads.as_slice()));
    let in_bodies = given!(unknown_in_all_bodies(alloc, text.parts.as_slice()));
    let in_exprs = unknown_in_all_exprs(text.parts.as_slice());
    let in_main = unknown_main(text.names);
    Ok(earliest_of_four(in_main, in_heads, in_exprs, in_bodies))
}
