//! The instances of a design, and where paths lead from one of them.
ghost use Rattle.std.specs.Prelude.{◌≡◌, List, slice_get};
ghost use Rattle.std.specs.Option.{option_and_then, option_copied};
ghost use Rattle.tm_syntax.specs.declared.tree.Ident as spelled;
ghost use Rattle.tm_syntax.specs.Design.{DesignTree, neighbor};
ghost use Rattle.tm_syntax.specs.Design.Cells.{called};
ghost use Rattle.tm_syntax.specs.Design.Scope.{Site, site, site_along};
ghost use Rattle.tm_syntax.specs.Scopes.Context.{BodyName};
ghost use Rattle.tm_scope.specs.Instances.{IsOver, bare_design, task_called_at};

use crate::members::SiteTask;
use crate::scopes::{Scopes, last_name};
use std::marker::Model;
use tm_syntax::design::Instance;
use tm_syntax::tree::Ident;

/// Instances of the templates of a specification, by their numbers. They need not be all of a design: where one is
/// missing, no path leads.
///
/// Contracts see the specification and the instances.
#[derive(Drop)]
pub struct Sites<'s> {
    scopes: &'s Scopes<'s>,
    instances: &'s [Instance],
}

impl<'s> Model for Sites<'s> {
    ghost use Rattle.std.specs.Coded.{codes};
    ghost use Rattle.tm_syntax.specs.contracts.tree.Spec as spec_contract;
    ghost use Rattle.tm_syntax.specs.contracts.design.Instance as instance_contract;
    ghost use Rattle.tm_scope.specs.Instances.{InstanceTables};

    ghost Value = { InstanceTables };

    ghost view = { λ x. record { spec = x.scopes.now; instances = x.instances.now } };

    ghost coded = { Prim.hlevel (codes, spec_contract.the_row.coded, instance_contract.the_row.coded) };
}

impl<'s> Sites<'s> {
    /// These instances, with the tables of their specification.
    pub fn new(scopes: &'s Scopes<'s>, instances: &'s [Instance]) -> Sites<'s>
        ensures { result ≡ record { spec = scopes.now; instances = instances.now } }
    {
        Sites { scopes, instances }
    }

    /// The instance of a number.
    pub fn instance(&self, number: u32) -> Option<&'s Instance>
        ensures { option_copied result ≡ slice_get self.now.instances number }
    {
        self.instances.get(number as usize)
    }

    /// The number of what a name stands for in the instance of a number: an instance that it holds, or a port.
    pub fn neighbor(&self, from: u32, name: &[u8]) -> Option<u32>
        ensures { result
            ≡ option_and_then (λ at. neighbor at.node at.template name.now) (site (bare_design self.now) from) }
    {
        let node = self.instance(from)?;
        self.scopes.neighbor_at(node, name)
    }

    /// The number of the instance in which a path ends, from the instance of a number: every name but the last leads to
    /// an instance or a port.
    pub fn number_along(&self, from: u32, path: &[Ident]) -> Option<u32>
        ensures { option_and_then (site (bare_design self.now)) result
            ≡ option_and_then (λ at. site_along (bare_design self.now) at path.now) (site (bare_design self.now) from) }
    {
        let mut at = from;
        for next in 1..path.len() {
            at = self.neighbor(at, path[next - 1].text.as_bytes())?;
        }
        Some(at)
    }

    /// The task or procedure that a path means, from the instance of a number.
    pub fn task_along(&self, from: u32, path: &[Ident]) -> Option<SiteTask>
        ensures { (d : DesignTree) → IsOver self.now d → (body : BodyName)
            → option_and_then (task_called_at d) result ≡ called d (record { instance = from; body = body }) path.now }
    {
        let instance = self.number_along(from, path)?;
        let node = self.instance(instance)?;
        let number = node.template as usize;
        let index = self.scopes.task_index_at(number, last_name(path))?;
        Some(SiteTask { instance, index })
    }
}

/// Where a path leads depends on the text and the instances alone.
#[tactic(auto, using(crate::proofs::SiteSteps::same_site_along))]
pub fn sites_depend_on_instances_alone()
    ensures { (d e : DesignTree) → d.spec ≡ e.spec → d.instances ≡ e.instances → (at : Site) (path : List spelled.Ident)
        → site_along d at path ≡ site_along e at path }
{}
