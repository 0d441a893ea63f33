//! Which goals hold at a state.
ghost use Rattle.std.specs.Prelude.{◌≡◌, ◌<◌, ℕ, IfOk, Some, length};
ghost use Rattle.std.specs.Option.{option_map};
ghost use Rattle.tm_syntax.specs.declared.design.Design.{Design};
ghost use Rattle.tm_syntax.specs.declared.design.Ty.TheVariants as resolved;
ghost use Rattle.tm_syntax.specs.Tree.View.{expr_tree};
ghost use Rattle.tm_syntax.specs.Scopes.Context.{outside};
ghost use Rattle.tm_syntax.specs.Design.View.{design_tree};
ghost use Rattle.tm_sem.specs.Play.{goal_expr as expr_of, goal_holds};
ghost use Rattle.tm_sem.specs.Step.{memory_of};
ghost use Rattle.tm_sem.specs.Value.{holds_in};
ghost use Rattle.tm_plain_bodies.specs.Tables.{body_of};
ghost use Rattle.tm_design.specs.Typed.{HasTypeAt};
ghost use Rattle.tm_scope.specs.declared.context.BodyName.TheVariants.{Outside};
ghost use Rattle.tm_plain.specs.Tasks.{outside_of};

use crate::machine::Machine;
use std::alloc::{AllocError, Global};
use tm_plain_exprs::{Reader, Store};
use tm_scope::{BodyName, SiteBody};
use tm_sem::state::State;
use tm_syntax::design::Item;
use tm_syntax::tree::Expr;

// Whether a condition holds at a state, by the reader of what stands outside of all bodies of an instance.
fn condition_by(
    alloc: Global,
    reader: &Reader<'_>,
    e: &Expr,
    state: &State,
) -> Result<bool, AllocError>
    requires typed { HasTypeAt reader.now resolved.Bool (expr_tree e.now) }
    requires outside { reader.now.at.body ≡ Outside }
    ensures { IfOk result (λ holds. (d : Design) (n : ℕ) → reader.now ≡ outside_of d n
        → holds ≡ holds_in (design_tree d) (record { instance = n; body = outside }) (memory_of state.now)
        (expr_tree e.now)) }
{
    let values = Vec::from_slice(alloc, state.values.as_slice())?;
    let store = Store::new(alloc, values);
    Ok(reader.holds_outside(&store, e))
}

// Whether a condition holds at a state, by the reader that was found.
fn condition_holds(
    alloc: Global,
    found: &Option<Reader<'_>>,
    e: &Expr,
    state: &State,
) -> Result<bool, AllocError>
    requires { (d : Design) × (n : ℕ) × (found.now ≡ Some (outside_of d n))
        × HasTypeAt (outside_of d n) resolved.Bool (expr_tree e.now) }
    ensures { IfOk result (λ holds. (d : Design) (n : ℕ) → found.now ≡ Some (outside_of d n)
        → holds ≡ holds_in (design_tree d) (record { instance = n; body = outside }) (memory_of state.now)
        (expr_tree e.now)) }
{
    match found {
        Some(reader) => condition_by(alloc, reader, e, state),
        None => unreachable!(),
    }
}

impl<'s> Machine<'s> {
    // The expression of a goal; the one that a design without goals gets has none.
    fn goal_expr(&self, goal: &Item) -> Option<&'s Expr>
        ensures { option_map (λ e. expr_tree e.now) result ≡ expr_of (design_tree self.now) goal.now }
    {
        let index = goal.index?;
        let node = self.design.instances.get(goal.instance as usize)?;
        let template = self.design.spec.templates.get(node.template as usize)?;
        Some(&template.goals.get(index as usize)?.expr)
    }

    // Whether a condition that stands outside of all bodies holds at a state.
    pub(crate) fn holds_outside(
        &self,
        alloc: Global,
        instance: u32,
        e: &Expr,
        state: &State,
    ) -> Result<bool, AllocError>
        requires { HasTypeAt (body_of self.now (record { instance = instance; body = Outside })) resolved.Bool
            (expr_tree e.now) }
        ensures { IfOk result (λ holds. holds ≡ holds_in (design_tree self.now)
            (record { instance = instance; body = outside }) (memory_of state.now) (expr_tree e.now)) }
    {
        let at = SiteBody {
            instance,
            body: BodyName::Outside,
        };
        let found = self.runner.reader(at);
        condition_holds(alloc, &found, e, state)
    }

    /// Whether the goal of a number holds at a state. Linear in the goal and in the number of state variables.
    /// `AllocError` is want of memory.
    pub fn holds(&self, alloc: Global, state: &State, goal: u32) -> Result<bool, AllocError>
        requires { goal < length self.now.goals.items }
        ensures { IfOk result (λ holds. holds ≡ goal_holds (design_tree self.now) state.now goal) }
    {
        let item = &self.design.goals[goal as usize];
        match self.goal_expr(item) {
            Some(e) => self.holds_outside(alloc, item.instance, e, state),
            None => Ok(true),
        }
    }
}
