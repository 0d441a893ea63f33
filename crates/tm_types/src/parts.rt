//! The parts of a text in lists: in each of them every kind of fault is looked for.
ghost use Rattle.std.specs.Prelude.{◌≡◌, ◌++◌, [], ◌∷◌, IfOk, OnOk, Some, map, slice_get};
ghost use Rattle.std.specs.List.{flat_map};
ghost use Rattle.tm_syntax.specs.Tree.View.{named_tree, spec_tree, template_tree};
ghost use Rattle.tm_syntax.specs.Scopes.Parts as text;
ghost use Rattle.tm_names.specs.Asked.{all_asked};
ghost use Rattle.tm_names.specs.Bodies.{all_bodies, body_at};
ghost use Rattle.tm_types.specs.Inner.TextParts.{
  AreTextHeads,
  AreTextParts,
  HoldMore,
  IsDivided,
  conditions_of,
  exprs_of_body,
  outside_exprs,
};

use std::alloc::{AllocError, Global};
use tm_names::{Asked, BodyPart, ExprPart, Site, TextNames, body_exprs, template_bodies};
use tm_scope::{BodyName, ExprType};
use tm_syntax::tree::{Body, Named, Spec, Template};

/// A body of a text with its expressions, or what stands outside of the bodies of a template: its goals and fairness
/// conditions, each asked for a bool.
#[derive(Drop)]
pub(crate) struct TextPart<'a> {
    pub(crate) site: Site<'a>,
    pub(crate) body: Option<&'a Body>,
    pub(crate) exprs: Vec<Asked<'a>>,
}

/// The declarations of a template of a text, with the place where they stand.
#[derive(Drop)]
pub(crate) struct TextHead<'a> {
    pub(crate) site: Site<'a>,
    pub(crate) template: &'a Template,
}

/// A text, divided into the heads of its templates and its other parts.
#[derive(Drop)]
pub(crate) struct DividedText<'a> {
    pub(crate) names: &'a TextNames<'a>,
    pub(crate) heads: Vec<TextHead<'a>>,
    pub(crate) parts: Vec<TextPart<'a>>,
}

// The heads of the templates of a text.
fn text_heads<'a>(
    alloc: Global,
    names: &'a TextNames<'a>,
    templates: &'a [Template],
) -> Result<Vec<TextHead<'a>>, AllocError>
    requires { templates.now ≡ names.now.templates.items }
    ensures { IfOk result (λ heads. AreTextHeads names.now heads.items) }
{
    let mut heads = Vec::new(alloc);
    for (number, template) in templates.iter().enumerate() {
        heads.push(TextHead {
            site: Site::new(names, number, BodyName::Outside),
            template,
        })?;
    }
    Ok(heads)
}

// Puts a body behind other parts.
fn push_body<'a>(
    alloc: Global,
    parts: &mut Vec<TextPart<'a>>,
    part: BodyPart<'a>,
) -> Result<(), AllocError>
    ensures { OnOk result (HoldMore parts.old.items parts.new.items
        (body_at part.entry ∷ []) (exprs_of_body (body_at part.entry))) }
{
    let exprs = given!(body_exprs(alloc, &part));
    parts.push(TextPart {
        site: part.site,
        body: Some(part.body),
        exprs,
    })?;
    Ok(())
}

// Puts bodies behind other parts.
fn push_bodies<'a>(
    alloc: Global,
    parts: &mut Vec<TextPart<'a>>,
    bodies: Vec<BodyPart<'a>>,
) -> Result<(), AllocError>
    ensures { OnOk result (HoldMore parts.old.items parts.new.items
        (all_bodies bodies.entry.items) (flat_map exprs_of_body (all_bodies bodies.entry.items))) }
{
    for part in bodies {
        given!(push_body(alloc, parts, part));
    }
    Ok(())
}

// Puts goals or fairness conditions behind other expressions.
fn push_conditions<'a>(
    asked: &mut Vec<Asked<'a>>,
    conditions: &'a [Named],
) -> Result<(), AllocError>
    ensures { OnOk result (all_asked asked.new.items
        ≡ all_asked asked.old.items ++ conditions_of (map named_tree conditions.now)) }
{
    for condition in conditions {
        asked.push(Asked {
            ty: Some(ExprType::Bool),
            expr: ExprPart::Whole(&condition.expr),
        })?;
    }
    Ok(())
}

// The goals and fairness conditions of a template.
fn template_conditions<'a>(
    alloc: Global,
    template: &'a Template,
) -> Result<Vec<Asked<'a>>, AllocError>
    ensures { IfOk result (λ asked. all_asked asked.items
        ≡ conditions_of ((template_tree template.now).goals ++ (template_tree template.now).fairs)) }
{
    let mut asked = Vec::new(alloc);
    given!(push_conditions(&mut asked, template.goals.as_slice()));
    given!(push_conditions(&mut asked, template.fairs.as_slice()));
    Ok(asked)
}

// Puts what stands outside of the bodies of the template of a number behind other parts.
fn push_outside<'a>(
    alloc: Global,
    parts: &mut Vec<TextPart<'a>>,
    names: &'a TextNames<'a>,
    number: usize,
    template: &'a Template,
) -> Result<(), AllocError>
    requires { slice_get names.now.templates.items number ≡ Some template.now }
    ensures { OnOk result (HoldMore parts.old.items parts.new.items
        [] (outside_exprs (spec_tree names.now) (template_tree template.now))) }
{
    let exprs = given!(template_conditions(alloc, template));
    parts.push(TextPart {
        site: Site::new(names, number, BodyName::Outside),
        body: None,
        exprs,
    })?;
    Ok(())
}

// Puts the parts of the template of a number behind others.
fn push_template<'a>(
    alloc: Global,
    parts: &mut Vec<TextPart<'a>>,
    names: &'a TextNames<'a>,
    number: usize,
    template: &'a Template,
) -> Result<(), AllocError>
    requires { slice_get names.now.templates.items number ≡ Some template.now }
    ensures { OnOk result (HoldMore parts.old.items parts.new.items
        (text.template_bodies (spec_tree names.now) (template_tree template.now))
        (text.template_exprs (spec_tree names.now) (template_tree template.now))) }
{
    let bodies = given!(template_bodies(alloc, names, number, template));
    given!(push_bodies(alloc, parts, bodies));
    push_outside(alloc, parts, names, number, template)
}

// The parts of a text, template by template: its bodies, then what stands outside of them.
fn text_parts<'a>(
    alloc: Global,
    names: &'a TextNames<'a>,
    templates: &'a [Template],
) -> Result<Vec<TextPart<'a>>, AllocError>
    requires { templates.now ≡ names.now.templates.items }
    ensures { IfOk result (λ parts. AreTextParts (spec_tree names.now) parts.items) }
{
    let mut parts = Vec::new(alloc);
    for (number, template) in templates.iter().enumerate() {
        given!(push_template(alloc, &mut parts, names, number, template));
    }
    Ok(parts)
}

/// A text with its parts. `AllocError` is want of memory. Linear in the text.
pub(crate) fn divided_text<'a>(
    alloc: Global,
    names: &'a TextNames<'a>,
    spec: &'a Spec,
) -> Result<DividedText<'a>, AllocError>
    requires { names.now ≡ spec.now }
    ensures { IfOk result (IsDivided spec.now) }
{
    let heads = given!(text_heads(alloc, names, spec.templates.as_slice()));
    let parts = given!(text_parts(alloc, names, spec.templates.as_slice()));
    Ok(DividedText {
        names,
        heads,
        parts,
    })
}
