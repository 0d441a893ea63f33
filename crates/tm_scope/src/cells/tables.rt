//! The tables by which cells are found.
ghost use Rattle.std.specs.Prelude.{◌≡◌, IfOk, slice_get};
ghost use Rattle.std.specs.Option.{option_copied, option_map};
ghost use Rattle.tm_syntax.specs.Tree.View.{spec_tree};
ghost use Rattle.tm_syntax.specs.Design.{DesignTree, instance_node};
ghost use Rattle.tm_syntax.specs.Design.Scope.{Site, site};
ghost use Rattle.tm_scope.specs.Cells.{ArePausing, HasCells};

use crate::calls::TaskSet;
use crate::cells::kept::{body_is_kept, text_of_name};
use crate::cells::scope::CellScope;
use crate::cells::site_body::SiteBody;
use crate::scopes::Scopes;
use crate::sites::Sites;
use crate::variables::Variables;
use std::alloc::{AllocError, Global};
use std::marker::Model;
use tm_syntax::design::{Instance, Var};
use tm_syntax::tree::Spec;

/// A specification, instances of its templates and state variables, with the tables by which the cell of a path is
/// found.
///
/// Contracts see the specification, the instances and the variables.
#[derive(Drop)]
pub struct Cells<'s> {
    spec: &'s Spec,
    instances: &'s [Instance],
    vars: &'s [Var],
    scopes: &'s Scopes<'s>,
    sites: Sites<'s>,
    variables: Variables<'s>,
    pausing: &'s TaskSet,
}

impl<'s> Model for Cells<'s> {
    ghost use Rattle.std.specs.Coded.{codes};
    ghost use Rattle.tm_syntax.specs.contracts.tree.Spec as spec_contract;
    ghost use Rattle.tm_syntax.specs.contracts.design.Instance as instance_contract;
    ghost use Rattle.tm_syntax.specs.contracts.design.Var as var_contract;
    ghost use Rattle.tm_scope.specs.Cells.{CellTables};
    ghost use Rattle.tm_scope.specs.Inner.CellScopes.{AreCellTables};

    ghost Value = { CellTables };

    ghost view = { λ x. record { spec = x.spec.now; instances = x.instances.now; vars = x.vars.now } };

    ghost invariant = { λ x.
        AreCellTables (record { spec = x.spec.now; instances = x.instances.now; vars = x.vars.now })
        x.scopes.now x.sites x.variables x.pausing.now };

    ghost coded = { Prim.hlevel (
      codes,
      spec_contract.the_row.coded,
      instance_contract.the_row.coded,
      var_contract.the_row.coded,
    ) };
}

impl<'s> Cells<'s> {
    /// The tables over a specification, instances of its templates and state variables, in time linear in the paths of
    /// these. `pausing` are the tasks of the text that may pause. `AllocError` is want of memory.
    pub fn new(
        alloc: Global,
        spec: &'s Spec,
        scopes: &'s Scopes<'s>,
        instances: &'s [Instance],
        vars: &'s [Var],
        pausing: &'s TaskSet,
    ) -> Result<Cells<'s>, AllocError>
        requires text { scopes.now ≡ spec.now }
        requires pausing { ArePausing (spec_tree spec.now) pausing.now }
        ensures { IfOk result (λ x. x ≡ record { spec = spec.now; instances = instances.now; vars = vars.now }) }
    {
        Ok(Cells {
            spec,
            instances,
            vars,
            scopes,
            sites: Sites::new(scopes, instances),
            variables: Variables::new(alloc, vars)?,
            pausing,
        })
    }

    /// A body of an instance, or what stands outside of the bodies of its template, in constant time. There is none
    /// exactly where the design has no such instance, or the instance no template.
    pub fn scope(&self, at: SiteBody) -> Option<CellScope<'_>>
        ensures { (d : DesignTree) → HasCells self.now d →
            result ≡ option_map (λ _. record { tables = self.now; at = at }) (site d at.instance) }
    {
        let node = self.instances.get(at.instance as usize)?;
        let number = node.template as usize;
        let template = self.spec.templates.get(number)?;
        let name = text_of_name(template, at.body);
        let kept = body_is_kept(self.scopes, self.pausing, number, template, at.body);
        Some(CellScope {
            cells: self,
            at,
            node,
            names: self.scopes.body_scope(number, at.body),
            name,
            kept,
        })
    }

    // The instance of a number, where its template is there.
    pub(crate) fn node(&self, number: u32) -> Option<&'s Instance>
        ensures { (d : DesignTree) → HasCells self.now d →
            option_map instance_node (option_copied result) ≡ option_map (λ (s : Site). s.node) (site d number) }
    {
        let node = self.instances.get(number as usize)?;
        if (node.template as usize) < self.spec.templates.len() {
            Some(node)
        } else {
            None
        }
    }

    // The state variable of a number.
    pub(crate) fn var(&self, number: usize) -> Option<&'s Var>
        ensures { option_copied result ≡ slice_get self.now.vars number }
    {
        self.vars.get(number)
    }

    // The specification.
    pub(crate) fn spec(&self) -> &'s Spec
        ensures { result.now ≡ self.now.spec }
    {
        self.spec
    }

    // The tables of the specification.
    pub(crate) fn scopes(&self) -> &'s Scopes<'s>
        ensures { result.now ≡ self.now.spec }
    {
        self.scopes
    }

    // The sites of the instances.
    pub(crate) fn sites(&self) -> &Sites<'s>
        ensures { result.now ≡ record { spec = self.now.spec; instances = self.now.instances } }
    {
        &self.sites
    }

    // The state variables by their paths.
    pub(crate) fn variables(&self) -> &Variables<'s>
        ensures { result.now ≡ self.now.vars }
    {
        &self.variables
    }
}
