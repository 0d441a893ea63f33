//! The bodies of a design, and the expressions of its goals and fairness conditions.
ghost use Rattle.std.specs.Prelude.{◌≡◌, IfNone, IfSome, None, map};
ghost use Rattle.std.specs.Option.{option_copied, option_map};
ghost use Rattle.tm_syntax.specs.Tree.View.{body_tree, expr_tree, named_tree, template_tree};
ghost use Rattle.tm_syntax.specs.Scopes.Context as text;
ghost use Rattle.tm_syntax.specs.Design.{DesignTree};
ghost use Rattle.tm_syntax.specs.Design.Cells.{called};
ghost use Rattle.tm_syntax.specs.Design.Scope.{site};
ghost use Rattle.tm_scope.specs.Cells.{HasCells, scope_of};
ghost use Rattle.tm_atoms.specs.Inner.Bodies.{IsCallee, claims_of, instance_template, named_seen, process_seen, seen, task_seen};

use std::marker::Model;
use tm_scope::{BodyName, CellScope, Cells, Scopes, SiteBody, SiteTask, Sites};
use tm_syntax::design::{Instance, Item};
use tm_syntax::tree::{Body, Expr, Ident, Named, Spec, Template};

// A task or procedure of an instance that is called, with its body.
#[derive(Drop)]
pub(crate) struct CalledBody<'t> {
    pub task: SiteTask,
    pub body: &'t Body,
}

// What is claimed of a design: a goal, or a declared fairness condition.
#[derive(Clone, Copy)]
pub(crate) enum Claim {
    Goal,
    Fairness,
}

// A body of an instance.
#[derive(Drop)]
pub(crate) struct BodyAt<'t> {
    pub scope: SiteBody,
    pub body: &'t Body,
}

// The bodies of a design. Contracts see the text, the instances and the state variables.
#[derive(Drop)]
pub(crate) struct Bodies<'c, 't> {
    spec: &'t Spec,
    sites: Sites<'c>,
    cells: &'c Cells<'c>,
}

impl<'c, 't> Model for Bodies<'c, 't> {
    ghost use Rattle.std.specs.Prelude.{◌≡◌, IfNone, IfSome, None};
    ghost use Rattle.std.specs.Coded.{codes};
    ghost use Rattle.tm_syntax.specs.contracts.tree.Spec as spec_contract;
    ghost use Rattle.tm_syntax.specs.contracts.design.Instance as instance_contract;
    ghost use Rattle.tm_syntax.specs.contracts.design.Var as var_contract;
    ghost use Rattle.tm_scope.specs.Cells.{CellTables};

    ghost Value = { CellTables };

    ghost view = { λ x. x.cells.now };

    ghost invariant = { λ x. (x.spec.now ≡ x.cells.now.spec)
        × (x.sites ≡ record { spec = x.cells.now.spec; instances = x.cells.now.instances }) };

    ghost coded = { Prim.hlevel (
      codes,
      spec_contract.the_row.coded,
      instance_contract.the_row.coded,
      var_contract.the_row.coded,
    ) };
}

impl<'c, 't> Bodies<'c, 't> {
    // The bodies of these instances, in which names mean these cells.
    pub(crate) fn new(
        cells: &'c Cells<'c>,
        scopes: &'c Scopes<'t>,
        instances: &'c [Instance],
    ) -> Bodies<'c, 't>
        requires text { scopes.now ≡ cells.now.spec }
        requires instances { instances.now ≡ cells.now.instances }
        ensures { result ≡ cells.now }
    {
        Bodies {
            spec: scopes.spec(),
            sites: Sites::new(scopes, instances),
            cells,
        }
    }

    // A body of an instance, or what stands outside of the bodies of its template.
    pub(crate) fn scope(&self, at: SiteBody) -> Option<CellScope<'_>>
        ensures { (d : DesignTree) → HasCells self.now d →
            result ≡ option_map (λ _. record { tables = self.now; at = at }) (site d at.instance) }
    {
        self.cells.scope(at)
    }

    // The task or procedure that a path calls from an instance.
    pub(crate) fn callee(&self, instance: u32, path: &[Ident]) -> Option<CalledBody<'t>>
        ensures called { IfSome result (λ c. (d : DesignTree) → HasCells self.now d → (within : text.BodyName) →
            IsCallee d (record { instance = instance; body = within }) path.now c.task (body_tree c.body.now)) }
        ensures none { IfNone result ((d : DesignTree) → HasCells self.now d → (within : text.BodyName) →
            called d (record { instance = instance; body = within }) path.now ≡ None) }
    {
        let task = self.sites.task_along(instance, path)?;
        let def = self.template(task.instance)?.tasks.get(task.index)?;
        Some(CalledBody {
            task,
            body: &def.body,
        })
    }

    // The template of an instance.
    fn template(&self, instance: u32) -> Option<&'t Template>
        ensures { (d : DesignTree) → HasCells self.now d →
            option_map template_tree (option_copied result) ≡ instance_template d instance }
    {
        let node = self.sites.instance(instance)?;
        self.spec.templates.get(node.template as usize)
    }

    // The body of the process that an item of a design is.
    pub(crate) fn process(&self, item: &Item) -> Option<BodyAt<'t>>
        ensures { (d : DesignTree) → HasCells self.now d →
            option_map (λ b. seen (scope_of b.scope) (body_tree b.body.now)) result ≡ process_seen d item.now }
    {
        let template = self.template(item.instance)?;
        let index = item.index? as usize;
        let process = template.processes.get(index)?;
        Some(BodyAt {
            scope: SiteBody {
                instance: item.instance,
                body: BodyName::Process(index),
            },
            body: &process.body,
        })
    }

    // The body of the task that an item of a design is.
    pub(crate) fn task(&self, item: &Item) -> Option<BodyAt<'t>>
        ensures { (d : DesignTree) → HasCells self.now d →
            option_map (λ b. seen (scope_of b.scope) (body_tree b.body.now)) result ≡ task_seen d item.now }
    {
        let template = self.template(item.instance)?;
        let index = item.index? as usize;
        let task = template.tasks.get(index)?;
        Some(BodyAt {
            scope: SiteBody {
                instance: item.instance,
                body: BodyName::Task(index),
            },
            body: &task.body,
        })
    }

    // The goal or the fairness condition that an item of a design is.
    pub(crate) fn claim(&self, sort: Claim, item: &Item) -> Option<&'t Expr>
        ensures { (d : DesignTree) → HasCells self.now d →
            option_map expr_tree (option_copied result) ≡ named_seen d (claims_of sort) item.now }
    {
        let template = self.template(item.instance)?;
        let index = item.index? as usize;
        let claim = claims(template, sort).get(index)?;
        Some(&claim.expr)
    }
}

// The goals or the fairness conditions of a template.
fn claims<'t>(template: &'t Template, sort: Claim) -> &'t [Named]
    ensures { map named_tree result.now ≡ claims_of sort (template_tree template.now) }
{
    match sort {
        Claim::Goal => template.goals.as_slice(),
        Claim::Fairness => template.fairs.as_slice(),
    }
}
