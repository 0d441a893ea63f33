//! Expressions over the numbers of a state.
ghost use Rattle.std.specs.Prelude.{◌≡◌, IfOk};
ghost use Rattle.tm_cir.specs.Fit.{FitsNum};
ghost use Rattle.tm_cir.specs.View.{num_tree};
ghost use Rattle.tm_strat.specs.Trees.{expression_tree, lowered_tree, masked_tree, number_tree, within_tree};

use crate::numbers::{Counts, Number, combined, lowered, masked};
use std::alloc::{AllocError, Global};
use tm_cir::Num64;
use tm_cir::block::NumOperator;

/// A constant, a number, some bits of one from one on, or a sum or difference of two numbers, or of one and a constant,
/// in the bits that a mask has.
#[derive(Clone, Copy, Drop)]
pub(crate) enum Expression {
    Constant(u64),
    Number(Number),
    Part(Number, u8, u64),
    Plus(Number, u64, u64),
    Sum(Number, Number, u64),
    Difference(Number, Number, u64),
}

impl Expression {
    /// The expression as one of C.
    pub(crate) fn num(self, alloc: Global, counts: Counts) -> Result<Num64, AllocError>
        ensures fits { IfOk result (λ n. FitsNum counts.vars counts.processes (num_tree n)) }
        ensures tree { IfOk result (λ n. num_tree n ≡ expression_tree counts self) }
    {
        match self {
            Expression::Constant(number) => Ok(Num64::Const(number)),
            Expression::Number(number) => Ok(number.num(counts)),
            Expression::Part(number, by, mask) => part(alloc, counts, number, by, mask),
            Expression::Plus(number, constant, mask) => {
                let other = Num64::Const(constant);
                within(
                    alloc,
                    counts,
                    NumOperator::Add,
                    number.num(counts),
                    other,
                    mask,
                )
            }
            Expression::Sum(one, other, mask) => {
                let right = other.num(counts);
                within(
                    alloc,
                    counts,
                    NumOperator::Add,
                    one.num(counts),
                    right,
                    mask,
                )
            }
            Expression::Difference(one, other, mask) => {
                let right = other.num(counts);
                within(
                    alloc,
                    counts,
                    NumOperator::Subtract,
                    one.num(counts),
                    right,
                    mask,
                )
            }
        }
    }
}

// Some bits of a number from one on.
fn part(
    alloc: Global,
    counts: Counts,
    number: Number,
    by: u8,
    mask: u64,
) -> Result<Num64, AllocError>
    ensures fits { IfOk result (λ n. FitsNum counts.vars counts.processes (num_tree n)) }
    ensures tree { IfOk result (λ n. num_tree n ≡ masked_tree (lowered_tree (number_tree counts number) by) mask) }
{
    let shifted = lowered(alloc, counts, number.num(counts), by)?;
    let part = masked(alloc, counts, shifted, mask)?;
    Ok(part)
}

// An operator between two expressions, in the bits that a mask has.
fn within(
    alloc: Global,
    counts: Counts,
    operator: NumOperator,
    one: Num64,
    other: Num64,
    mask: u64,
) -> Result<Num64, AllocError>
    requires one { FitsNum counts.vars counts.processes (num_tree one) }
    requires other { FitsNum counts.vars counts.processes (num_tree other) }
    ensures fits { IfOk result (λ n. FitsNum counts.vars counts.processes (num_tree n)) }
    ensures tree { IfOk result (λ n. num_tree n ≡ within_tree operator (num_tree one) (num_tree other) mask) }
{
    let whole = combined(alloc, counts, operator, one, other)?;
    if mask == u64::MAX {
        return Ok(whole);
    }
    let cut = masked(alloc, counts, whole, mask)?;
    Ok(cut)
}
