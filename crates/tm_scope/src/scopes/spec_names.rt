//! The templates and enums of a specification by their names.
ghost use Rattle.std.specs.Prelude.{◌≡◌, ◌<◌, IfOk, IfSome, length, position};
ghost use Rattle.tm_syntax.specs.Tree.View.{spec_tree};
ghost use Rattle.tm_syntax.specs.Scopes.Names.{is_spelled, template_number};

use crate::names::Directory;
use std::alloc::{AllocError, Global};
use std::marker::Model;
use tm_syntax::tree::Spec;

/// A specification, whose templates and enums are found by their names. Contracts see the specification.
#[derive(Drop)]
pub(crate) struct SpecNames<'a> {
    spec: &'a Spec,
    templates: Directory<'a>,
    enums: Directory<'a>,
}

impl<'a> Model for SpecNames<'a> {
    ghost use Rattle.std.specs.Coded.{codes};
    ghost use Rattle.tm_syntax.specs.declared.tree.Spec.{Spec};
    ghost use Rattle.tm_syntax.specs.contracts.tree.Spec as spec_contract;
    ghost use Rattle.tm_scope.specs.Inner.Tables.{AreNames};

    ghost Value = { Spec };

    ghost view = { λ x. x.spec.now };

    ghost invariant = { λ x. AreNames x.spec.now x.templates x.enums };

    ghost coded = { Prim.hlevel (codes, spec_contract.the_row.coded) };
}

impl<'a> SpecNames<'a> {
    /// The tables of a specification.
    pub(crate) fn new(alloc: Global, spec: &'a Spec) -> Result<SpecNames<'a>, AllocError>
        ensures { IfOk result (λ s. s ≡ spec.now) }
    {
        let templates = Directory::of(alloc, spec.templates.as_slice())?;
        let enums = Directory::of(alloc, spec.enums.as_slice())?;
        Ok(SpecNames {
            spec,
            templates,
            enums,
        })
    }

    /// The specification.
    pub(crate) fn spec(&self) -> &'a Spec
        ensures { result.now ≡ self.now }
    {
        self.spec
    }

    /// The number of the template of a name.
    pub(crate) fn template_number(&self, name: &[u8]) -> Option<usize>
        ensures number { result ≡ template_number (spec_tree self.now) name.now }
        ensures within { IfSome result (λ k. k < length self.now.templates.items) }
    {
        self.templates.find(name)
    }

    /// The number of the enum of a name.
    pub(crate) fn enum_number(&self, name: &[u8]) -> Option<usize>
        ensures number { result ≡ position (λ e. is_spelled name.now e.name) (spec_tree self.now).enums }
        ensures within { IfSome result (λ k. k < length self.now.enums.items) }
    {
        self.enums.find(name)
    }
}
