//! Where paths lead: to templates, variables and tasks.
ghost use Rattle.std.specs.Prelude.{◌≡◌, ℕ, ◌<◌, IfSome, List, length, slice_get};
ghost use Rattle.std.specs.Option.{option_and_then, option_copied};
ghost use Rattle.tm_syntax.specs.declared.tree.Ident as spelled;
ghost use Rattle.tm_syntax.specs.Tree.{SpecTree};
ghost use Rattle.tm_syntax.specs.Tree.View.{spec_tree};
ghost use Rattle.tm_syntax.specs.Scopes.Names.{last_name, template_along};
ghost use Rattle.tm_scope.specs.Context.{template_at};
ghost use Rattle.tm_syntax.specs.Scopes.Context as text;
ghost use Rattle.tm_syntax.specs.Scopes.Context.{variable_of};
ghost use Rattle.tm_syntax.specs.Scopes.Pauses.{task_reached};
ghost use Rattle.tm_scope.specs.Members.{task_at, var_at, var_number};
ghost use Rattle.tm_syntax.specs.Scopes.Calls.{neighbor_number, number_along, task_number};

use crate::scopes::scope::Scopes;
use tm_syntax::member::Member;
use tm_syntax::tree::{Ident, TaskDef, VarDef};

impl<'a> Scopes<'a> {
    /// The number of the template of the instance or port of a name, from the template of a number.
    pub fn neighbor_number(&self, from: usize, name: &[u8]) -> Option<usize>
        requires { from < length self.now.templates.items }
        ensures number { result ≡ neighbor_number (spec_tree self.now) from name.now }
        ensures within { IfSome result (λ k. k < length self.now.templates.items) }
    {
        let known = self.templates[from].known_template(name)?;
        self.template_number(known.text.as_bytes())
    }

    /// The number of the template in which a path ends, from the template of a number: every name but the last leads
    /// to an instance or a port.
    pub fn number_along(&self, from: usize, path: &[Ident]) -> Option<usize>
        requires { from < length self.now.templates.items }
        ensures number { result ≡ number_along (spec_tree self.now) from path.now }
        ensures within { IfSome result (λ k. k < length self.now.templates.items) }
    {
        let mut at = from;
        for next in 1..path.len() {
            at = self.neighbor_number(at, path[next - 1].text.as_bytes())?;
        }
        Some(at)
    }

    /// The variable or array that a path means, from the template of a number.
    pub fn var_number(&self, from: usize, path: &[Ident]) -> Option<Member>
        requires { from < length self.now.templates.items }
        ensures { result ≡ var_number (spec_tree self.now) from path.now }
    {
        let template = self.number_along(from, path)?;
        let index = self.templates[template].var_index(last_name(path))?;
        Some(Member { template, index })
    }

    // The variable or array of a number.
    pub(crate) fn var(&self, var: Member) -> Option<&'a VarDef>
        ensures { option_copied result
            ≡ option_and_then (λ t. slice_get t.vars.items var.index)
            (slice_get self.now.templates.items var.template) }
    {
        let template = self.spec().templates.get(var.template)?;
        template.vars.get(var.index)
    }

    /// The task or procedure of a number.
    pub fn task(&self, task: Member) -> Option<&'a TaskDef>
        ensures def { option_copied result
            ≡ option_and_then (λ t. slice_get t.tasks.items task.index)
            (slice_get self.now.templates.items task.template) }
        ensures within { IfSome result (λ _. task.template < length self.now.templates.items) }
    {
        let template = self.spec().templates.get(task.template)?;
        template.tasks.get(task.index)
    }

    /// The task or procedure that a path leads to, from the template of a number.
    pub fn task_number(&self, from: usize, path: &[Ident]) -> Option<Member>
        requires { from < length self.now.templates.items }
        ensures { result ≡ task_number (spec_tree self.now) from path.now }
    {
        let template = self.number_along(from, path)?;
        let index = self.templates[template].task_index(last_name(path))?;
        Some(Member { template, index })
    }
}

// The bytes of the last name of a path, none of an empty one.
pub(crate) fn last_name(path: &[Ident]) -> &[u8]
    ensures { result.now ≡ last_name path.now }
{
    match path {
        [] => &[],
        [.., last] => last.text.as_bytes(),
    }
}

/// The template of the number along a path is the template along the path.
#[tactic(auto, using(crate::proofs::Numbers::template_at_number_along))]
pub fn numbers_lead_where_templates_do()
    ensures { (spec : SpecTree) (path : List spelled.Ident) (from : ℕ)
        → template_at spec (number_along spec from path)
        ≡ option_and_then (λ t. template_along spec t path) (slice_get spec.templates from) }
{}

/// The variable of the number that a path has is the one that it means.
#[tactic(auto, using(crate::proofs::Meanings::var_at_number))]
pub fn numbers_lead_where_variables_are()
    ensures { (spec : SpecTree) (path : List spelled.Ident) (from : ℕ) (body : text.BodyName)
        → option_and_then (var_at spec) (var_number spec from path)
        ≡ option_and_then (λ t. variable_of (record { spec = spec; template = t; body = body }) path)
        (slice_get spec.templates from) }
{}

/// The task of the number that a path has is the one that it leads to.
#[tactic(auto, using(crate::proofs::Meanings::task_at_number))]
pub fn numbers_lead_where_tasks_are()
    ensures { (spec : SpecTree) (path : List spelled.Ident) (from : ℕ)
        → option_and_then (task_at spec) (task_number spec from path)
        ≡ option_and_then (λ t. task_reached spec t path) (slice_get spec.templates from) }
{}
