//! The first number of a text that does not fit.
ghost use Rattle.std.specs.Prelude.{◌≡◌, IfOk, map};
ghost use Rattle.std.specs.List.{flat_map};
ghost use Rattle.tm_syntax.specs.Tree.View.{spec_tree, template_tree};
ghost use Rattle.tm_syntax.specs.Faults.Literals.{asked_numbers, misfit_numbers};
ghost use Rattle.tm_types.specs.Firsts.{first_of};
ghost use Rattle.tm_types.specs.Inner.Numbers.{declared_numbers};
ghost use Rattle.tm_types.specs.Inner.TextParts.{IsDivided, expr_at, exprs_of};

use crate::firsts::earlier_place;
use crate::literals::declared::declared_numbers;
use crate::literals::exprs::{expr_numbers, index_numbers};
use crate::parts::{DividedText, TextPart};
use std::alloc::{AllocError, Global};
use tm_base::Place;
use tm_names::{Asked, ExprPart, Site};
use tm_scope::ExprType;
use tm_syntax::tree::{Spec, Template};

// The first number of an expression that does not fit, valued in the type that its place asks for.
fn asked_numbers(site: &Site, asked: &Asked) -> Option<Place>
    ensures { result ≡ first_of (asked_numbers (expr_at site.now asked.now)) }
{
    let types = site.types();
    match asked.expr {
        ExprPart::Whole(e) => expr_numbers(types, asked.ty.unwrap_or(ExprType::Bool), e),
        ExprPart::Element(path, index) => {
            let within = expr_numbers(types, ExprType::Bool, index);
            index_numbers(types, path.names.as_slice(), index, within)
        }
    }
}

// The first one in the expressions of a part.
fn part_numbers(part: &TextPart) -> Option<Place>
    ensures { result ≡ first_of (flat_map asked_numbers (exprs_of part.now)) }
{
    let mut first = None;
    for e in part.exprs.as_slice() {
        first = earlier_place(first, asked_numbers(&part.site, e));
    }
    first
}

// The first one in the expressions of parts.
fn exprs_numbers(parts: &[TextPart]) -> Option<Place>
    ensures { result ≡ first_of (flat_map asked_numbers (flat_map exprs_of parts.now)) }
{
    let mut first = None;
    for part in parts {
        first = earlier_place(first, part_numbers(part));
    }
    first
}

// The first one in the declarations of templates.
fn templates_declared(alloc: Global, templates: &[Template]) -> Result<Option<Place>, AllocError>
    ensures { IfOk result (λ first. first
        ≡ first_of (flat_map declared_numbers (map template_tree templates.now))) }
{
    let mut first = None;
    for template in templates {
        first = earlier_place(first, given!(declared_numbers(alloc, template)));
    }
    Ok(first)
}

/// The first number of a text that does not fit its type or its place. `AllocError` is want of memory.
pub(crate) fn first_misfit(
    alloc: Global,
    text: &DividedText,
    spec: &Spec,
) -> Result<Option<Place>, AllocError>
    requires { IsDivided spec.now text.now }
    ensures { IfOk result (λ first. first ≡ first_of (misfit_numbers (spec_tree spec.now))) }
{
    let in_declarations = given!(templates_declared(alloc, spec.templates.as_slice()));
    let in_exprs = exprs_numbers(text.parts.as_slice());
    Ok(earlier_place(in_declarations, in_exprs))
}
