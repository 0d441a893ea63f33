//! Where the expressions of a text stand.
ghost use Rattle.std.specs.Prelude.{◌≡◌, ◌<◌, ◌++◌, Some, length, slice_get};
ghost use Rattle.std.specs.Option.{option_copied, option_map};
ghost use Rattle.tm_syntax.specs.Tree as tree;
ghost use Rattle.tm_syntax.specs.Tree.View.{spec_tree, task_tree, template_tree};
ghost use Rattle.tm_syntax.specs.Scopes.Declared as text;
ghost use Rattle.tm_syntax.specs.Scopes.Names.{type_of};
ghost use Rattle.tm_syntax.specs.Scopes.Parts.{result_asked, written_result};
ghost use Rattle.tm_syntax.specs.Scopes.Pauses.{task_reached};
ghost use Rattle.tm_scope.specs.Context.{body_name, context_of};
ghost use Rattle.tm_scope.specs.Types.{ty_of};
ghost use Rattle.tm_names.specs.Meanings.{meaning_of};
ghost use Rattle.tm_names.specs.Sorts.{declared_of, first_declared, sort_of};
ghost use Rattle.tm_names.specs.TextScopes.{AreTemplateScopes};
ghost use Rattle.tm_names.specs.Sites.{IsBodyScope, is_in_body};

use crate::names::{Meaning, TextNames, found_sort, meaning_from, nth};
use crate::scopes::{Scope, TemplateScopes};
use crate::sorts::{Declared, Sort};
use std::marker::Model;
use tm_scope::{BodyName, BodyScope, ExprType};
use tm_syntax::member::Member;
use tm_syntax::tree::{Ident, TaskDef, TaskKind};

/// A body of a template, or what stands outside of its bodies, with all tables by which its names are found.
///
/// Contracts see the specification, the template and the body.
#[derive(Drop)]
pub struct Site<'a> {
    names: &'a TextNames<'a>,
    template: usize,
    body: BodyName,
    types: BodyScope<'a>,
    members: &'a Scope<'a>,
    slots: Option<&'a Scope<'a>>,
}

impl<'a> Model for Site<'a> {
    ghost use Rattle.std.specs.Coded.{codes};
    ghost use Rattle.tm_syntax.specs.contracts.tree.Spec as spec_contract;
    ghost use Rattle.tm_syntax.specs.contracts.tree.Template as template_contract;
    ghost use Rattle.tm_scope.specs.Context.{BodyPlace};
    ghost use Rattle.tm_names.specs.Sites.{IsSite};

    ghost Value = { BodyPlace };

    ghost view = { λ x. x.types };

    ghost invariant = { λ x. IsSite x.names.now x.template x.body x.members.now x.slots x.types };

    ghost coded = { Prim.hlevel (codes, spec_contract.the_row.coded, template_contract.the_row.coded) };
}

// The scope of a body of a template, none outside of its bodies.
fn slots_of<'a>(scopes: &'a TemplateScopes<'a>, body: BodyName) -> Option<&'a Scope<'a>>
    ensures { (t : tree.TemplateTree) → AreTemplateScopes t scopes.now
        → IsBodyScope scopes.now.members result (text.slots t (body_name body)) (text.members t) }
{
    match body {
        BodyName::Process(index) => nth(scopes.processes.as_slice(), index),
        BodyName::Task(index) => nth(scopes.tasks.as_slice(), index),
        BodyName::Outside => None,
    }
}

impl<'a> Site<'a> {
    /// A body of the template of a number, or what stands outside of its bodies.
    pub fn new(names: &'a TextNames<'a>, template: usize, body: BodyName) -> Site<'a>
        requires { template < length names.now.templates.items }
        ensures spec { result.spec ≡ names.now }
        ensures template { slice_get names.now.templates.items template ≡ Some result.template }
        ensures body { result.body ≡ body }
    {
        let scopes = names.template_scopes(template);
        let types = names.tables().body_scope(template, body);
        let slots = slots_of(scopes, body);
        Site {
            names,
            template,
            body,
            types,
            members: &scopes.members,
            slots,
        }
    }

    /// The names of the text.
    pub fn names(&self) -> &'a TextNames<'a>
        ensures { result.now ≡ self.now.spec }
    {
        self.names
    }

    /// The tables of types.
    pub fn types(&self) -> &BodyScope<'a>
        ensures { result.now ≡ self.now }
    {
        &self.types
    }

    /// Whether this is in a body.
    pub fn is_in_body(&self) -> bool
        ensures { result ≡ is_in_body (context_of self.now).body }
    {
        match self.body {
            BodyName::Process(_) => true,
            BodyName::Task(_) => true,
            BodyName::Outside => false,
        }
    }

    /// What a name is declared as among the members of the template.
    pub fn member_sort(&self, name: &[u8]) -> Option<Sort<'a>>
        ensures { option_map sort_of result
            ≡ text.sort_in (text.members (context_of self.now).template) name.now }
    {
        found_sort(self.members.names.find(name))
    }

    // The first declaration of a name in the body and the template.
    fn declared_here(&self, name: &[u8]) -> Option<Declared<'a>>
        ensures { option_map declared_of result ≡ first_declared
            (text.slots (context_of self.now).template (context_of self.now).body
            ++ text.members (context_of self.now).template) name.now }
    {
        match self.slots {
            Some(slots) => slots.names.find_within(&self.members.names, name),
            None => self.members.names.find(name),
        }
    }

    // What a name is declared as where it stands alone.
    fn sort_here(&self, name: &[u8]) -> Option<Sort<'a>>
        ensures { option_map sort_of result ≡ text.sort_here (context_of self.now) name.now }
    {
        match found_sort(self.declared_here(name)) {
            Some(sort) => Some(sort),
            None => self.names.text_sort(name),
        }
    }

    /// What a path means. Linear in the path.
    pub fn meaning(&self, path: &'a [Ident]) -> Meaning<'a>
        ensures { meaning_of result ≡ text.meaning (context_of self.now) path.now }
    {
        if path.is_empty() {
            return Meaning::Unclear;
        }
        meaning_from(self.names, path, self.sort_here(path[0].text.as_bytes()))
    }

    /// The task or procedure that a path leads to.
    pub fn task_of(&self, path: &[Ident]) -> Option<&'a TaskDef>
        ensures { option_map task_tree (option_copied result) ≡ option_map (λ k. k.1)
            (task_reached (context_of self.now).spec (context_of self.now).template path.now) }
    {
        let tables = self.names.tables();
        tables.task(tables.task_number(self.template, path)?)
    }

    /// The type of the result of the body, if it is that of a procedure with a result.
    pub fn result_type(&self) -> Option<ExprType<'a>>
        ensures { option_map ty_of result ≡ result_asked (context_of self.now).template (context_of self.now).body }
    {
        let BodyName::Task(index) = self.body else {
            return None;
        };
        let task = self.names.tables().task(Member {
            template: self.template,
            index,
        })?;
        written_result(&task.kind)
    }
}

// The type of a procedure's result.
fn written_result(kind: &TaskKind) -> Option<ExprType<'_>>
    ensures { option_map ty_of result ≡ option_map type_of (written_result kind.now) }
{
    match kind {
        TaskKind::Controllable => None,
        TaskKind::Uncontrollable => None,
        TaskKind::Procedure(None) => None,
        TaskKind::Procedure(Some(ty)) => Some(ExprType::of(ty)),
    }
}
