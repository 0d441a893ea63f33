//! The instances and ports of a template by their names.
ghost use Rattle.std.specs.Prelude.{◌≡◌, IfOk, slice_get};
ghost use Rattle.std.specs.Option.{option_and_then, option_copied};
ghost use Rattle.tm_syntax.specs.Design.{instance_node, neighbor};
ghost use Rattle.tm_syntax.specs.Tree.View.{template_tree};
ghost use Rattle.tm_syntax.specs.Scopes.Calls.{known_template};

use crate::names::Directory;
use std::alloc::{AllocError, Global};
use std::marker::Model;
use tm_syntax::design::Instance;
use tm_syntax::tree::{Ident, Template};

/// A template, whose instances and ports are found by their names. Contracts see the template.
#[derive(Drop)]
pub(crate) struct Neighbors<'a> {
    template: &'a Template,
    instances: Directory<'a>,
    ports: Directory<'a>,
}

impl<'a> Model for Neighbors<'a> {
    ghost use Rattle.std.specs.Coded.{codes};
    ghost use Rattle.tm_syntax.specs.declared.tree.Template.{Template};
    ghost use Rattle.tm_syntax.specs.contracts.tree.Template as template_contract;
    ghost use Rattle.tm_scope.specs.Inner.Tables.{AreNeighbors};

    ghost Value = { Template };

    ghost view = { λ x. x.template.now };

    ghost invariant = { λ x. AreNeighbors x.template.now x.instances x.ports };

    ghost coded = { Prim.hlevel (codes, template_contract.the_row.coded) };
}

impl<'a> Neighbors<'a> {
    /// The tables of a template.
    pub(crate) fn new(alloc: Global, template: &'a Template) -> Result<Neighbors<'a>, AllocError>
        ensures { IfOk result (λ t. t ≡ template.now) }
    {
        let instances = Directory::of(alloc, template.instances.as_slice())?;
        let ports = Directory::of(alloc, template.ports.as_slice())?;
        Ok(Neighbors {
            template,
            instances,
            ports,
        })
    }

    /// The name of the template of the instance or port of a name.
    pub(crate) fn known_template(&self, name: &[u8]) -> Option<&'a Ident>
        ensures { option_copied result ≡ known_template (template_tree self.now) name.now }
    {
        if let Some(index) = self.instances.find(name) {
            return Some(&self.template.instances[index].template);
        }
        let port = self.ports.find(name)?;
        Some(&self.template.ports[port].template)
    }

    /// What a name stands for in an instance of the template: one that the instance holds, or a port.
    pub(crate) fn neighbor(&self, node: &Instance, name: &[u8]) -> Option<u32>
        ensures { result ≡ neighbor (instance_node node.now) (template_tree self.now) name.now }
    {
        match number_at(node.children.as_slice(), self.instances.find(name)) {
            Some(child) => Some(child),
            None => number_at(node.ports.as_slice(), self.ports.find(name)),
        }
    }
}

// The number at an index, if there is one.
fn number_at(numbers: &[u32], index: Option<usize>) -> Option<u32>
    ensures { result ≡ option_and_then (slice_get numbers.now) index }
{
    numbers.get(index?).copied()
}
