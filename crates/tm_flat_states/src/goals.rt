//! The terms of goals, and of declared fairness conditions.
ghost use Rattle.std.specs.Prelude.{◌≡◌, IfOk, length};
ghost use Rattle.std.specs.List.{AllZip, range_with_len};
ghost use Rattle.std.specs.Option.{option_map};
ghost use Rattle.tm_base.specs.Arithmetic.{bit};
ghost use Rattle.tm_syntax.specs.Tree.View.{expr_tree};
ghost use Rattle.tm_syntax.specs.Design.View.{design_tree};
ghost use Rattle.tm_term.specs.Table.{IsSound};
ghost use Rattle.tm_sem.specs.Fairness.{fair_expr as fair_of};
ghost use Rattle.tm_sem.specs.Play.{goal_expr as goal_of};
ghost use Rattle.tm_flat.specs.Inputs.{input_widths};
ghost use Rattle.tm_flat.specs.IsFlat.{IsGoalTerm};
ghost use Rattle.tm_flat_exprs.specs.Made.{Makes};
ghost use Rattle.tm_flat_states.specs.Conditions.{AreStated, HasInputs, stated};
ghost use Rattle.tm_flat_exprs.specs.Tables.{cells_of};
ghost use Rattle.tm_flat_states.specs.Markable.{IsMarkable};
ghost use Rattle.tm_flat_states.specs.Marks.{MakesSuch};

use crate::marker::Marker;
use crate::memory::input_memory;
use std::alloc::{AllocError, Global};
use tm_flat_exprs::TermMemory;
use tm_syntax::design::Item;
use tm_syntax::tree::Expr;
use tm_term::{TermId, Terms};

impl<'s> Marker<'s> {
    // The expression of a goal; the one that a design without goals gets has none.
    fn goal_expr(&self, goal: &Item) -> Option<&'s Expr>
        ensures { option_map (λ e. expr_tree e.now) result ≡ goal_of (design_tree self.now.design.now) goal.now }
    {
        let index = goal.index?;
        let node = self.design.instances.get(goal.instance as usize)?;
        let template = self.design.spec.templates.get(node.template as usize)?;
        Some(&template.goals.get(index as usize)?.expr)
    }

    // The expression of a declared fairness condition.
    fn fair_expr(&self, fair: &Item) -> Option<&'s Expr>
        ensures { option_map (λ e. expr_tree e.now) result ≡ fair_of (design_tree self.now.design.now) fair.now }
    {
        let index = fair.index?;
        let node = self.design.instances.get(fair.instance as usize)?;
        let template = self.design.spec.templates.get(node.template as usize)?;
        Some(&template.fairs.get(index as usize)?.expr)
    }

    // The term of a goal.
    fn goal(
        &self,
        terms: &mut Terms,
        memory: &TermMemory,
        goal: &Item,
    ) -> Result<TermId, AllocError>
        requires markable { IsMarkable self.now.design.now }
        requires inputs { HasInputs (cells_of self.now.design.now) terms.old memory.now }
        ensures { IfOk result (λ id. Makes terms.old terms.new 1 id (λ u v. bit (stated
            (design_tree self.now.design.now) goal.now.instance (goal_of (design_tree self.now.design.now) goal.now)
            v))) }
    {
        let e = self.goal_expr(goal);
        let id = self.stated(terms, memory, goal.instance, e)?;
        Ok(id)
    }

    // The term of a declared fairness condition.
    fn fair(
        &self,
        terms: &mut Terms,
        memory: &TermMemory,
        fair: &Item,
    ) -> Result<TermId, AllocError>
        requires markable { IsMarkable self.now.design.now }
        requires inputs { HasInputs (cells_of self.now.design.now) terms.old memory.now }
        ensures { IfOk result (λ id. Makes terms.old terms.new 1 id (λ u v. bit (stated
            (design_tree self.now.design.now) fair.now.instance (fair_of (design_tree self.now.design.now) fair.now)
            v))) }
    {
        let e = self.fair_expr(fair);
        let id = self.stated(terms, memory, fair.instance, e)?;
        Ok(id)
    }

    // The terms of goals.
    fn goal_terms(
        &self,
        alloc: Global,
        terms: &mut Terms,
        memory: &TermMemory,
    ) -> Result<Vec<TermId>, AllocError>
        requires markable { IsMarkable self.now.design.now }
        requires inputs { HasInputs (cells_of self.now.design.now) terms.old memory.now }
        ensures { IfOk result (λ ids. AreStated (design_tree self.now.design.now)
            (goal_of (design_tree self.now.design.now)) self.now.design.now.goals.items terms.old terms.new ids.items) }
    {
        let mut ids = Vec::new(alloc);
        for goal in &self.design.goals {
            let id = self.goal(terms, memory, goal)?;
            ids.push(id)?;
        }
        Ok(ids)
    }

    /// The terms of declared fairness conditions, over a memory of the inputs. `AllocError` is want of memory.
    pub(crate) fn fair_terms(
        &self,
        alloc: Global,
        terms: &mut Terms,
        memory: &TermMemory,
    ) -> Result<Vec<TermId>, AllocError>
        requires markable { IsMarkable self.now.design.now }
        requires inputs { HasInputs (cells_of self.now.design.now) terms.old memory.now }
        ensures { IfOk result (λ ids. AreStated (design_tree self.now.design.now)
            (fair_of (design_tree self.now.design.now)) self.now.design.now.fairs.items terms.old terms.new ids.items) }
    {
        let mut ids = Vec::new(alloc);
        for fair in &self.design.fairs {
            let id = self.fair(terms, memory, fair)?;
            ids.push(id)?;
        }
        Ok(ids)
    }

    /// For each goal a term that is 1 exactly where it holds; an element past the end has the value 0. Linear in the
    /// goals and in the lengths of the arrays that they index. `AllocError` is want of memory.
    pub fn goals(&self, alloc: Global, terms: &mut Terms) -> Result<Vec<TermId>, AllocError>
        requires markable { IsMarkable self.now.design.now }
        requires sound { IsSound terms.old }
        requires inputs { terms.old.inputs ≡ input_widths (design_tree self.now.design.now) }
        ensures { IfOk result (MakesSuch terms.old terms.new (λ u ids.
            AllZip (IsGoalTerm u (design_tree self.now.design.now))
            (range_with_len 0 (length self.now.design.now.goals.items)) ids.items)) }
    {
        let memory = input_memory(alloc, terms, self.design)?;
        let ids = self.goal_terms(alloc, terms, &memory)?;
        Ok(ids)
    }
}
