//! The processes of a design, and the bodies that paths call and that may pause.
ghost use Rattle.std.specs.Prelude.{◌≡◌, ◌≤◌, ℕ, IfNone, IfSome, List, [], Some, slice_get};
ghost use Rattle.std.specs.Option.{option_map};
ghost use Rattle.tm_base.specs.declared.place.Place as placed;
ghost use Rattle.tm_syntax.specs.Tree.View.{body_tree, process_tree, spec_tree, task_tree};
ghost use Rattle.tm_syntax.specs.Scopes.Context as text;
ghost use Rattle.tm_syntax.specs.Scopes.Pauses.{call_depth};
ghost use Rattle.tm_syntax.specs.Design.{DesignTree};
ghost use Rattle.tm_syntax.specs.Design.Cells.{called};
ghost use Rattle.tm_syntax.specs.Design.Locations.{thread};
ghost use Rattle.tm_syntax.specs.Design.Scope.{Site, site};
ghost use Rattle.tm_syntax.specs.Design.Work.{WorkItem};
ghost use Rattle.tm_scope.specs.Cells.{ArePausing, scope_of};
ghost use Rattle.tm_scope.specs.Instances.{IsOver};
ghost use Rattle.tm_scope.specs.Members.{task_at};
ghost use Rattle.tm_locations.specs.Locations.{LeadsByText};
ghost use Rattle.tm_locations.specs.Inner.Walks.{call_locations, seen};

use std::marker::Model;
use tm_scope::{BodyName, Scopes, SiteBody, Sites, TaskSet};
use tm_syntax::design::{Instance, Item};
use tm_syntax::member::Member;
use tm_syntax::tree::{Body, Ident, ProcessDef, Spec, TaskDef};

// A task or procedure of an instance, with its definition.
#[derive(Drop)]
pub(crate) struct CalledTask<'t> {
    pub scope: SiteBody,
    pub task: Member,
    pub def: &'t TaskDef,
}

// A body of an instance.
#[derive(Drop)]
pub(crate) struct CalledBody<'t> {
    pub scope: SiteBody,
    pub body: &'t Body,
}

// A process of an instance, with its definition.
#[derive(Drop)]
pub(crate) struct ProcessAt<'t> {
    pub scope: SiteBody,
    pub process: &'t ProcessDef,
}

// The bodies of a design, and which of them may pause. Contracts see the text and the instances.
#[derive(Drop)]
pub(crate) struct Callees<'s, 't> {
    spec: &'t Spec,
    sites: Sites<'s>,
    pausing: &'s TaskSet,
}

impl<'s, 't> Model for Callees<'s, 't> {
    ghost use Rattle.std.specs.Prelude.{◌≡◌};
    ghost use Rattle.std.specs.Coded.{codes};
    ghost use Rattle.tm_syntax.specs.Tree.View.{spec_tree};
    ghost use Rattle.tm_syntax.specs.contracts.tree.Spec as spec_contract;
    ghost use Rattle.tm_syntax.specs.contracts.design.Instance as instance_contract;
    ghost use Rattle.tm_scope.specs.Cells.{ArePausing};
    ghost use Rattle.tm_scope.specs.Instances.{InstanceTables};

    ghost Value = { InstanceTables };

    ghost view = { λ x. x.sites };

    ghost invariant = { λ x. (x.spec.now ≡ x.sites.spec) × ArePausing (spec_tree x.sites.spec) x.pausing.now };

    ghost coded = { Prim.hlevel (codes, spec_contract.the_row.coded, instance_contract.the_row.coded) };
}

impl<'s, 't> Callees<'s, 't> {
    // The bodies of these instances. `pausing` are the tasks of the text that may pause.
    pub(crate) fn new(
        scopes: &'s Scopes<'t>,
        instances: &'s [Instance],
        pausing: &'s TaskSet,
    ) -> Callees<'s, 't>
        requires { ArePausing (spec_tree scopes.now) pausing.now }
        ensures { result ≡ record { spec = scopes.now; instances = instances.now } }
    {
        Callees {
            spec: scopes.spec(),
            sites: Sites::new(scopes, instances),
            pausing,
        }
    }

    // The process that an item of a design is.
    pub(crate) fn process(&self, item: &Item) -> Option<ProcessAt<'t>>
        ensures { (d : DesignTree) → (p : ℕ) → IsOver self.now d → slice_get d.processes p ≡ Some item.now →
            thread d p ≡ option_map (λ t. record { scope = scope_of t.scope; process = process_tree t.process.now })
            result }
    {
        let template = self.sites.instance(item.instance)?.template as usize;
        let index = item.index? as usize;
        let process = self.spec.templates.get(template)?.processes.get(index)?;
        Some(ProcessAt {
            scope: SiteBody {
                instance: item.instance,
                body: BodyName::Process(index),
            },
            process,
        })
    }

    // The body that a path calls from an instance, if it may pause.
    pub(crate) fn pausing_body(&self, instance: u32, path: &[Ident]) -> Option<CalledBody<'t>>
        ensures called { IfSome result (λ c. (d : DesignTree) → IsOver self.now d → (within : text.BodyName) →
            Some (seen (scope_of c.scope) (body_tree c.body.now))
            ≡ option_map (λ k. seen k.scope k.body)
            (called d (record { instance = instance; body = within }) path.now)) }
        ensures quiet { IfNone result ((d : DesignTree) → IsOver self.now d → LeadsByText d → (within : text.BodyName) →
            (depth : ℕ) → depth ≤ call_depth d.spec → (trail : List placed.Place) → (items : List WorkItem) →
            call_locations depth d (record { instance = instance; body = within }) trail path.now items ≡ []) }
    {
        let called = self.callee(instance, path)?;
        if !self.pausing.has(called.task) {
            return None;
        }
        Some(CalledBody {
            scope: called.scope,
            body: &called.def.body,
        })
    }

    // The task or procedure that a path calls from an instance.
    fn callee(&self, instance: u32, path: &[Ident]) -> Option<CalledTask<'t>>
        ensures body { (d : DesignTree) → IsOver self.now d → (within : text.BodyName) →
            option_map (λ c. seen (scope_of c.scope) (body_tree c.def.now.body)) result
            ≡ option_map (λ k. seen k.scope k.body)
            (called d (record { instance = instance; body = within }) path.now) }
        ensures task { IfSome result (λ c. (d : DesignTree) → IsOver self.now d →
            (s : Site) × (site d c.scope.instance ≡ Some s)
            × (task_at d.spec c.task ≡ Some (s.template, task_tree c.def.now))) }
    {
        let task = self.sites.task_along(instance, path)?;
        let template = self.sites.instance(task.instance)?.template as usize;
        let def = self.spec.templates.get(template)?.tasks.get(task.index)?;
        Some(CalledTask {
            scope: SiteBody {
                instance: task.instance,
                body: BodyName::Task(task.index),
            },
            task: Member {
                template,
                index: task.index,
            },
            def,
        })
    }
}
