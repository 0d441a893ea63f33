//! Worked blocks with all operators.

use std::alloc::{AllocError, Global};
use tm_base::ShiftOperator;
use tm_cir::block::{Comparison, Junction, NumOperator};
use tm_cir::{Block, Num64, Truth};

/// An operator between two numbers.
fn binary(alloc: Global, op: NumOperator, left: Num64, right: Num64) -> Result<Num64, AllocError> {
    Ok(Num64::Binary(op, Box::new(alloc, left)?, Box::new(alloc, right)?))
}

/// A byte that is one more than another one is 0: then a process leaves.
pub fn wrapping(alloc: Global) -> Result<Vec<Block>, AllocError> {
    let sum = binary(alloc, NumOperator::Add, Num64::Var(1), Num64::Const(1))?;
    let byte = binary(alloc, NumOperator::And, sum, Num64::Const(255))?;
    let test = Truth::Compare(Comparison::Equal, byte, Num64::Const(0));
    Ok(vec![in alloc; Block::Test(test, 1, 2), Block::Leave(0), Block::Idle]?)
}

/// A test with an operator of each other sort.
pub fn mixed(alloc: Global) -> Result<Vec<Block>, AllocError> {
    let shifted = Num64::Shift(
        ShiftOperator::Left,
        Box::new(alloc, Num64::Location(0))?,
        63,
    );
    let turned = Num64::Not(Box::new(alloc, shifted)?);
    let chosen = Num64::Cond(
        Box::new(alloc, Truth::Num(Num64::Var(0)))?,
        Box::new(alloc, Num64::Goal)?,
        Box::new(alloc, turned)?,
    );
    let differs = Truth::Not(Box::new(
        alloc,
        Truth::Compare(Comparison::LessEqual, chosen, Num64::Last),
    )?);
    let both = Truth::Join(
        Junction::And,
        Box::new(alloc, differs)?,
        Box::new(alloc, Truth::Num(Num64::Var(1)))?,
    );
    Ok(vec![in alloc;
        Block::Test(both, 2, 1),
        Block::Idle,
        Block::Call(0, Vec::new(alloc)),
    ]?)
}
