//! The numbers of a state, as blocks name them.
ghost use Rattle.std.specs.Prelude.{◌≡◌, ◌<◌, ◌^◌, IfOk};
ghost use Rattle.tm_cir.specs.Fit.{FitsNum};
ghost use Rattle.tm_cir.specs.Tree.{binary};
ghost use Rattle.tm_cir.specs.View.{num_tree};
ghost use Rattle.tm_strat.specs.Trees.{lowered_tree, masked_tree, number_in, number_tree};

use std::alloc::{AllocError, Global};
use tm_base::ShiftOperator;
use tm_cir::Num64;
use tm_cir::block::NumOperator;

/// How many variables and processes a state has.
#[derive(Clone, Copy, Drop)]
pub(crate) struct Counts {
    pub(crate) vars: usize,
    pub(crate) processes: usize,
}

/// A number of a state: a variable, the location of a process, or who moved last.
#[derive(Clone, Copy, Drop)]
pub(crate) enum Number {
    Variable(u32),
    Location(u32),
    Last,
}

impl Number {
    /// The number as an expression; one that a state does not have is 0.
    pub(crate) fn num(self, counts: Counts) -> Num64
        ensures fits { FitsNum counts.vars counts.processes (num_tree result) }
        ensures tree { num_tree result ≡ number_tree counts self }
    {
        match self {
            Number::Variable(var) => {
                if (var as usize) < counts.vars {
                    Num64::Var(var)
                } else {
                    Num64::Const(0)
                }
            }
            Number::Location(process) => {
                if (process as usize) < counts.processes {
                    Num64::Location(process)
                } else {
                    Num64::Const(0)
                }
            }
            Number::Last => Num64::Last,
        }
    }
}

/// The number of this place among the numbers of a state.
pub(crate) fn number_at(counts: Counts, index: u32) -> Number
    ensures { result ≡ number_in counts index }
{
    let place = index as usize;
    if place < counts.vars {
        return Number::Variable(index);
    }
    if place - counts.vars < counts.processes {
        return Number::Location(narrow(place - counts.vars));
    }
    Number::Last
}

/// A number of 32 bits, or the greatest of these where it is above them.
pub(crate) fn narrow(number: usize) -> u32
    ensures { number < 2 ^ 32 → result ≡ number }
{
    if number < u32::MAX as usize {
        number as u32
    } else {
        u32::MAX
    }
}

/// The greatest number of a width.
pub(crate) fn greatest(width: u8) -> u64 {
    if width == 0 {
        return 0;
    }
    if width < 64 {
        u64::MAX >> (64 - width)
    } else {
        u64::MAX
    }
}

/// The bits of an expression that a mask has.
pub(crate) fn masked(
    alloc: Global,
    counts: Counts,
    num: Num64,
    mask: u64,
) -> Result<Num64, AllocError>
    requires { FitsNum counts.vars counts.processes (num_tree num) }
    ensures fits { IfOk result (λ n. FitsNum counts.vars counts.processes (num_tree n)) }
    ensures tree { IfOk result (λ n. num_tree n ≡ masked_tree (num_tree num) mask) }
{
    let num = combined(alloc, counts, NumOperator::And, num, Num64::Const(mask))?;
    Ok(num)
}

/// An operator between two expressions.
pub(crate) fn combined(
    alloc: Global,
    counts: Counts,
    operator: NumOperator,
    one: Num64,
    other: Num64,
) -> Result<Num64, AllocError>
    requires one { FitsNum counts.vars counts.processes (num_tree one) }
    requires other { FitsNum counts.vars counts.processes (num_tree other) }
    ensures fits { IfOk result (λ n. FitsNum counts.vars counts.processes (num_tree n)) }
    ensures tree { IfOk result (λ n. num_tree n ≡ binary operator (num_tree one) (num_tree other)) }
{
    let _counts = counts;
    let left = Box::new(alloc, one)?;
    let right = Box::new(alloc, other)?;
    Ok(Num64::Binary(operator, left, right))
}

/// An expression shifted down by fewer than 64 bits.
pub(crate) fn lowered(
    alloc: Global,
    counts: Counts,
    num: Num64,
    by: u8,
) -> Result<Num64, AllocError>
    requires { FitsNum counts.vars counts.processes (num_tree num) }
    ensures fits { IfOk result (λ n. FitsNum counts.vars counts.processes (num_tree n)) }
    ensures tree { IfOk result (λ n. num_tree n ≡ lowered_tree (num_tree num) by) }
{
    let _counts = counts;
    if by == 0 || by >= 64 {
        return Ok(num);
    }
    let inner = Box::new(alloc, num)?;
    Ok(Num64::Shift(ShiftOperator::Right, inner, by))
}
