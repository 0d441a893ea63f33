//! The first place of a text at which a type, a sort of name, a number of arguments or a result does not fit.
ghost use Rattle.std.specs.Prelude.{◌≡◌, IfOk};
ghost use Rattle.std.specs.List.{All, flat_map};
ghost use Rattle.tm_syntax.specs.Tree.View.{spec_tree};
ghost use Rattle.tm_syntax.specs.Faults.Mismatches.{asked_faults, body_faults, mismatches, template_faults};
ghost use Rattle.tm_types.specs.Firsts.{first_of};
ghost use Rattle.tm_types.specs.Inner.TextParts.{IsDivided, IsOwnHead, bodies_of, exprs_of, in_head};

use crate::firsts::earlier_place;
use crate::mismatches::asked::asked_faults;
use crate::mismatches::bodies::part_faults;
use crate::mismatches::heads::template_faults;
use crate::parts::{DividedText, TextHead, TextPart};
use std::alloc::{AllocError, Global};
use tm_base::Place;
use tm_syntax::tree::Spec;

// The first one in the declarations of templates.
fn heads_faults(alloc: Global, heads: &[TextHead]) -> Result<Option<Place>, AllocError>
    requires { All IsOwnHead heads.now }
    ensures { IfOk result (λ first. first ≡ first_of (flat_map (in_head template_faults) heads.now)) }
{
    let mut first = None;
    for head in heads {
        let here = given!(template_faults(alloc, &head.site, head.template));
        first = earlier_place(first, here);
    }
    Ok(first)
}

// The first one in the targets and calls of the bodies among parts.
fn bodies_faults(alloc: Global, parts: &[TextPart]) -> Result<Option<Place>, AllocError>
    ensures { IfOk result (λ first. first ≡ first_of (flat_map body_faults (flat_map bodies_of parts.now))) }
{
    let mut first = None;
    for part in parts {
        first = earlier_place(first, given!(part_faults(alloc, part)));
    }
    Ok(first)
}

// The first one in the expressions of a part.
fn part_expr_faults(part: &TextPart) -> Option<Place>
    ensures { result ≡ first_of (flat_map asked_faults (exprs_of part.now)) }
{
    let mut first = None;
    for e in part.exprs.as_slice() {
        first = earlier_place(first, asked_faults(&part.site, e));
    }
    first
}

// The first one in the expressions of parts.
fn exprs_faults(parts: &[TextPart]) -> Option<Place>
    ensures { result ≡ first_of (flat_map asked_faults (flat_map exprs_of parts.now)) }
{
    let mut first = None;
    for part in parts {
        first = earlier_place(first, part_expr_faults(part));
    }
    first
}

/// The first place of a text at which a type, a sort of name, a number of arguments or a result does not fit. Near
/// linear in the text. `AllocError` is want of memory.
pub(crate) fn first_mismatch(
    alloc: Global,
    text: &DividedText,
    spec: &Spec,
) -> Result<Option<Place>, AllocError>
    requires { IsDivided spec.now text.now }
    ensures { IfOk result (λ first. first ≡ first_of (mismatches (spec_tree spec.now))) }
{
    let in_heads = given!(heads_faults(alloc, text.heads.as_slice()));
    let in_bodies = given!(bodies_faults(alloc, text.parts.as_slice()));
    let declared = earlier_place(in_heads, in_bodies);
    let in_exprs = exprs_faults(text.parts.as_slice());
    Ok(earlier_place(declared, in_exprs))
}
