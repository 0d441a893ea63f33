//! Copies of expressions. They go down by recursion, as printing and dropping do: as deep as parentheses nest.
ghost use Rattle.std.specs.Prelude.{◌≡◌, map, IfOk};
ghost use Rattle.tm_cir.specs.View.{num_tree, truth_tree};

use std::alloc::{AllocError, Global};
use tm_cir::{Num64, Truth};

/// A copy of each of some numbers.
pub fn copied_nums(alloc: Global, nums: &[Num64]) -> Result<Vec<Num64>, AllocError>
    ensures { IfOk result (λ copy. map num_tree copy.items ≡ map num_tree nums.now) }
{
    let mut copy = Vec::new(alloc);
    for num in nums {
        copy.push(copied_num(alloc, num)?)?;
    }
    Ok(copy)
}

/// A copy of a number.
#[cycle(copying)]
pub fn copied_num(alloc: Global, num: &Num64) -> Result<Num64, AllocError>
    ensures { IfOk result (λ copy. num_tree copy ≡ num_tree num.now) }
{
    match num {
        Num64::Const(number) => Ok(Num64::Const(*number)),
        Num64::Var(var) => Ok(Num64::Var(*var)),
        Num64::Location(process) => Ok(Num64::Location(*process)),
        Num64::Goal => Ok(Num64::Goal),
        Num64::Last => Ok(Num64::Last),
        Num64::Not(a) => Ok(Num64::Not(boxed_num(alloc, a)?)),
        Num64::Binary(op, a, b) => {
            let a = boxed_num(alloc, a)?;
            let b = boxed_num(alloc, b)?;
            Ok(Num64::Binary(*op, a, b))
        }
        Num64::Shift(op, a, by) => Ok(Num64::Shift(*op, boxed_num(alloc, a)?, *by)),
        Num64::Cond(truth, a, b) => {
            let truth = boxed_truth(alloc, truth)?;
            let a = boxed_num(alloc, a)?;
            let b = boxed_num(alloc, b)?;
            Ok(Num64::Cond(truth, a, b))
        }
    }
}

/// A copy of a truth value.
#[cycle(copying)]
pub fn copied_truth(alloc: Global, truth: &Truth) -> Result<Truth, AllocError>
    ensures { IfOk result (λ copy. truth_tree copy ≡ truth_tree truth.now) }
{
    match truth {
        Truth::Num(a) => Ok(Truth::Num(copied_num(alloc, a)?)),
        Truth::Not(a) => Ok(Truth::Not(boxed_truth(alloc, a)?)),
        Truth::Compare(op, a, b) => {
            let a = copied_num(alloc, a)?;
            let b = copied_num(alloc, b)?;
            Ok(Truth::Compare(*op, a, b))
        }
        Truth::Join(op, a, b) => {
            let a = boxed_truth(alloc, a)?;
            let b = boxed_truth(alloc, b)?;
            Ok(Truth::Join(*op, a, b))
        }
    }
}

#[cycle(copying)]
fn boxed_num(alloc: Global, num: &Num64) -> Result<Box<Num64>, AllocError>
    ensures { IfOk result (λ copy. num_tree copy.value ≡ num_tree num.now) }
{
    Ok(Box::new(alloc, copied_num(alloc, num)?)?)
}

#[cycle(copying)]
fn boxed_truth(alloc: Global, truth: &Truth) -> Result<Box<Truth>, AllocError>
    ensures { IfOk result (λ copy. truth_tree copy.value ≡ truth_tree truth.now) }
{
    Ok(Box::new(alloc, copied_truth(alloc, truth)?)?)
}
