//! A specification with all its tables.
ghost use Rattle.std.specs.Prelude.{◌≡◌, ◌<◌, IfOk, IfSome, find, length, position, slice_get};
ghost use Rattle.std.specs.List.{list_any};
ghost use Rattle.std.specs.Option.{option_and_then, option_copied};
ghost use Rattle.tm_syntax.specs.Design.{instance_node, neighbor};
ghost use Rattle.tm_syntax.specs.Tree.View.{spec_tree, template_tree};
ghost use Rattle.tm_syntax.specs.Scopes.Names.{is_spelled, template_number, constant_value};

use crate::scopes::template_scope::TemplateScope;
use crate::scopes::{Constants, SpecNames};
use std::alloc::{AllocError, Global};
use std::marker::Model;
use tm_syntax::design::Instance;
use tm_syntax::tree::{EnumDef, Spec, Template};

/// Tables over a specification, made once, by which each name in it is found in constant time for each of its bytes.
/// Of two things of one name the first counts.
///
/// Contracts see the tables as the specification.
#[derive(Drop)]
pub struct Scopes<'a> {
    names: SpecNames<'a>,
    constants: Constants<'a>,
    pub(crate) templates: Vec<TemplateScope<'a>>,
}

impl<'a> Model for Scopes<'a> {
    ghost use Rattle.std.specs.Prelude.{◌≡◌};
    ghost use Rattle.std.specs.Coded.{codes};
    ghost use Rattle.tm_syntax.specs.declared.tree.Spec.{Spec};
    ghost use Rattle.tm_syntax.specs.contracts.tree.Spec as spec_contract;

    ghost Value = { Spec };

    ghost view = { λ x. x.names };

    ghost invariant = { λ x. (x.constants ≡ x.names) × (x.templates.items ≡ x.names.templates.items) };

    ghost coded = { Prim.hlevel (codes, spec_contract.the_row.coded) };
}

impl<'a> Scopes<'a> {
    /// The tables of a specification, in time linear in its text. `AllocError` is want of memory.
    pub fn new(alloc: Global, spec: &'a Spec) -> Result<Scopes<'a>, AllocError>
        ensures { IfOk result (λ s. s ≡ spec.now) }
    {
        let templates = all_templates(alloc, spec.templates.as_slice())?;
        let constants = Constants::new(alloc, spec)?;
        let names = SpecNames::new(alloc, spec)?;
        Ok(Scopes {
            names,
            constants,
            templates,
        })
    }

    /// The specification.
    pub fn spec(&self) -> &'a Spec
        ensures { result.now ≡ self.now }
    {
        self.names.spec()
    }

    // What a name stands for in an instance whose template is there: one that the instance holds, or a port.
    pub(crate) fn neighbor_at(&self, node: &Instance, name: &[u8]) -> Option<u32>
        ensures { result ≡ option_and_then (λ t. neighbor (instance_node node.now) (template_tree t) name.now)
            (slice_get self.now.templates.items node.now.template) }
    {
        let number = node.template as usize;
        if number < self.templates.len() {
            self.templates[number].neighbor(node, name)
        } else {
            None
        }
    }

    // The index of the task or procedure of a name, in the template of a number.
    pub(crate) fn task_index_at(&self, number: usize, name: &[u8]) -> Option<usize>
        ensures { result
            ≡ option_and_then (λ t. position (λ task. is_spelled name.now task.name) (template_tree t).tasks)
            (slice_get self.now.templates.items number) }
    {
        if number < self.templates.len() {
            self.templates[number].task_index(name)
        } else {
            None
        }
    }

    /// The number of the template of a name.
    pub fn template_number(&self, name: &[u8]) -> Option<usize>
        ensures number { result ≡ template_number (spec_tree self.now) name.now }
        ensures within { IfSome result (λ k. k < length self.now.templates.items) }
    {
        self.names.template_number(name)
    }

    /// The number of the enum of a name.
    pub fn enum_number(&self, name: &[u8]) -> Option<usize>
        ensures number { result ≡ position (λ e. is_spelled name.now e.name) (spec_tree self.now).enums }
        ensures within { IfSome result (λ k. k < length self.now.enums.items) }
    {
        self.names.enum_number(name)
    }

    /// The value of a constant: its index in the first enum that has it.
    pub fn constant_value(&self, name: &[u8]) -> Option<usize>
        ensures { result ≡ constant_value (spec_tree self.now) name.now }
    {
        self.constants.value(name)
    }

    // The first enum that has a constant of the name.
    pub(crate) fn enum_of(&self, name: &[u8]) -> Option<&'a EnumDef>
        ensures { option_copied result
            ≡ find (λ e. list_any (is_spelled name.now) e.constants.items) self.now.enums.items }
    {
        self.constants.enum_of(name)
    }
}

// The tables of each template.
fn all_templates<'a>(
    alloc: Global,
    templates: &'a [Template],
) -> Result<Vec<TemplateScope<'a>>, AllocError>
    ensures { IfOk result (λ all. all.items ≡ templates.now) }
{
    let mut all = Vec::new(alloc);
    for template in templates {
        all.push(TemplateScope::new(alloc, template)?)?;
    }
    Ok(all)
}
