//! A template with all its tables.
ghost use Rattle.std.specs.Prelude.{◌≡◌, IfOk, position};
ghost use Rattle.std.specs.Option.{option_copied};
ghost use Rattle.tm_syntax.specs.Design.{instance_node, neighbor};
ghost use Rattle.tm_syntax.specs.Scopes.Names.{is_spelled};
ghost use Rattle.tm_syntax.specs.Tree.View.{template_tree};
ghost use Rattle.tm_scope.specs.Members.{body_slots};
ghost use Rattle.tm_syntax.specs.Scopes.Calls.{known_template};

use crate::context::BodyName;
use crate::scopes::body_names::BodyNames;
use crate::scopes::{Bodies, Members, Neighbors};
use std::alloc::{AllocError, Global};
use std::marker::Model;
use tm_syntax::design::Instance;
use tm_syntax::tree::{Ident, Template};

/// A template, all of whose names are found by tables. Contracts see the template.
#[derive(Drop)]
pub(crate) struct TemplateScope<'a> {
    neighbors: Neighbors<'a>,
    members: Members<'a>,
    bodies: Bodies<'a>,
}

impl<'a> Model for TemplateScope<'a> {
    ghost use Rattle.std.specs.Prelude.{◌≡◌};
    ghost use Rattle.std.specs.Coded.{codes};
    ghost use Rattle.tm_syntax.specs.declared.tree.Template.{Template};
    ghost use Rattle.tm_syntax.specs.contracts.tree.Template as template_contract;

    ghost Value = { Template };

    ghost view = { λ x. x.neighbors };

    ghost invariant = { λ x. (x.members ≡ x.neighbors) × (x.bodies ≡ x.neighbors) };

    ghost coded = { Prim.hlevel (codes, template_contract.the_row.coded) };
}

impl<'a> TemplateScope<'a> {
    /// The tables of a template.
    pub(crate) fn new(
        alloc: Global,
        template: &'a Template,
    ) -> Result<TemplateScope<'a>, AllocError>
        ensures { IfOk result (λ t. t ≡ template.now) }
    {
        let bodies = Bodies::new(alloc, template)?;
        let members = Members::new(alloc, template)?;
        let neighbors = Neighbors::new(alloc, template)?;
        Ok(TemplateScope {
            neighbors,
            members,
            bodies,
        })
    }

    /// The name of the template of the instance or port of a name.
    pub(crate) fn known_template(&self, name: &[u8]) -> Option<&'a Ident>
        ensures { option_copied result ≡ known_template (template_tree self.now) name.now }
    {
        self.neighbors.known_template(name)
    }

    /// What a name stands for in an instance of the template: one that the instance holds, or a port.
    pub(crate) fn neighbor(&self, node: &Instance, name: &[u8]) -> Option<u32>
        ensures { result ≡ neighbor (instance_node node.now) (template_tree self.now) name.now }
    {
        self.neighbors.neighbor(node, name)
    }

    /// The index of the variable or array of a name.
    pub(crate) fn var_index(&self, name: &[u8]) -> Option<usize>
        ensures { result ≡ position (λ v. is_spelled name.now v.name) (template_tree self.now).vars }
    {
        self.members.var_index(name)
    }

    /// The tables of a body.
    pub(crate) fn body(&self, body: BodyName) -> Option<&BodyNames<'a>>
        ensures { option_copied result ≡ body_slots self.now body }
    {
        self.bodies.body(body)
    }

    /// The index of the task or procedure of a name.
    pub(crate) fn task_index(&self, name: &[u8]) -> Option<usize>
        ensures { result ≡ position (λ task. is_spelled name.now task.name) (template_tree self.now).tasks }
    {
        self.members.task_index(name)
    }
}
