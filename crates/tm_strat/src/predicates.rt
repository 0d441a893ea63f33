//! Tests of a state, and of the pending goal.
ghost use Rattle.std.specs.Prelude.{◌≡◌, ℕ, IfOk};
ghost use Rattle.tm_cir.specs.Fit.{FitsTruth};
ghost use Rattle.tm_cir.specs.Tree.{compare, constant, goal as pending_goal, num};
ghost use Rattle.tm_cir.specs.View.{truth_tree};
ghost use Rattle.tm_cir.specs.declared.block.Comparison.TheVariants as comparisons;
ghost use Rattle.tm_strat.specs.Trees.{expression_tree, predicate_tree};
ghost use Rattle.tm_strat.specs.declared.expressions.Expression.TheVariants as expressions;

use crate::expressions::Expression;
use crate::numbers::{Counts, Number};
use std::alloc::{AllocError, Global};
use tm_cir::block::Comparison;
use tm_cir::{Num64, Truth};

/// A test of a state.
#[derive(Clone, Copy, Drop)]
pub(crate) enum Predicate {
    /// A number is not 0.
    Holds(Number),
    /// Two expressions compare so.
    Compare(Comparison, Expression, Expression),
    /// The bit of a number of this weight.
    Bit(Number, u8),
}

impl Predicate {
    /// The test as one of C.
    pub(crate) fn truth(self, alloc: Global, counts: Counts) -> Result<Truth, AllocError>
        ensures fits { IfOk result (λ t. FitsTruth counts.vars counts.processes (truth_tree t)) }
        ensures tree { IfOk result (λ t. truth_tree t ≡ predicate_tree counts self) }
    {
        match self {
            Predicate::Holds(number) => Ok(Truth::Num(number.num(counts))),
            Predicate::Compare(comparison, one, other) => {
                compared(alloc, counts, comparison, one, other)
            }
            Predicate::Bit(number, weight) => bit(alloc, counts, number, weight),
        }
    }
}

// Whether two expressions compare so.
fn compared(
    alloc: Global,
    counts: Counts,
    comparison: Comparison,
    one: Expression,
    other: Expression,
) -> Result<Truth, AllocError>
    ensures fits { IfOk result (λ t. FitsTruth counts.vars counts.processes (truth_tree t)) }
    ensures tree { IfOk result (λ t. truth_tree t
        ≡ compare comparison (expression_tree counts one) (expression_tree counts other)) }
{
    let left = one.num(alloc, counts)?;
    let right = other.num(alloc, counts)?;
    Ok(Truth::Compare(comparison, left, right))
}

// Whether the bit of a number of a weight is 1.
fn bit(alloc: Global, counts: Counts, number: Number, weight: u8) -> Result<Truth, AllocError>
    ensures fits { IfOk result (λ t. FitsTruth counts.vars counts.processes (truth_tree t)) }
    ensures tree { IfOk result (λ t. truth_tree t ≡ num (expression_tree counts (expressions.Part number weight 1))) }
{
    let bit = Expression::Part(number, weight, 1).num(alloc, counts)?;
    Ok(Truth::Num(bit))
}

/// Whether a goal is pending.
pub(crate) fn pending(goal: u32) -> Truth
    ensures fits { (vars processes : ℕ) → FitsTruth vars processes (truth_tree result) }
    ensures tree { truth_tree result ≡ compare comparisons.Equal pending_goal (constant goal) }
{
    Truth::Compare(
        Comparison::Equal,
        Num64::Goal,
        Num64::Const(u64::from(goal)),
    )
}
