//! The expressions that are tried as arguments.

use crate::expressions::Expression;
use crate::literals::literals;
use crate::numbers::{Number, greatest, narrow};
use crate::parameters::{has_type, is_uint, parameter};
use std::alloc::{AllocError, Global};
use tm_game::Game;
use tm_syntax::design::{Design, Ty, Var};
use tm_syntax::tree::Param;
use tm_term::Terms;

/// A parameter of a controllable task: its width, the place of its first bit among the bits of all arguments, and the
/// expressions that are tried for it, the best liked first.
#[derive(Drop)]
pub(crate) struct Parameter {
    pub(crate) width: u8,
    pub(crate) first: u32,
    pub(crate) options: Vec<Expression>,
}

/// The parameters of each task.
pub(crate) fn all_parameters(
    alloc: Global,
    design: &Design,
    game: &Game,
) -> Result<Vec<Vec<Parameter>>, AllocError> {
    let mut all = Vec::new(alloc);
    let rows = game.flat().parameters.as_slice();
    for task in 0..rows.len() {
        let widths = rows[task].as_slice();
        let parameters = parameters(alloc, design, game.terms(), task, widths)?;
        all.push(parameters)?;
    }
    Ok(all)
}

// The parameters of a task, whose widths these are.
fn parameters(
    alloc: Global,
    design: &Design,
    terms: &Terms,
    task: usize,
    widths: &[u8],
) -> Result<Vec<Parameter>, AllocError> {
    let mut found = Vec::new(alloc);
    let mut first: u32 = 0;
    for index in 0..widths.len() {
        let width = widths[index];
        let options = match parameter(design, task, index) {
            Some(declared) => options(alloc, &design.vars, terms, declared, width)?,
            None => Vec::new(alloc),
        };
        found.push(Parameter {
            width,
            first,
            options,
        })?;
        first = first.saturating_add(u32::from(width));
    }
    Ok(found)
}

// The expressions that are tried for a parameter. For a bool or an enum, constants, which say what is meant, and then
// variables of its type; for a number, variables of its type, constants, narrower numbers and aligned parts of wider
// ones.
fn options(
    alloc: Global,
    vars: &[Var],
    terms: &Terms,
    declared: &Param,
    width: u8,
) -> Result<Vec<Expression>, AllocError> {
    let mut options = Vec::new(alloc);
    let numbers = literals(alloc, terms, width)?;
    if !is_uint(declared) {
        push_constants(&mut options, &numbers)?;
        push_variables(&mut options, vars, declared, width)?;
        return Ok(options);
    }
    push_variables(&mut options, vars, declared, width)?;
    push_constants(&mut options, &numbers)?;
    push_others(&mut options, vars, width)?;
    Ok(options)
}

// Puts the variables of a parameter's type behind others.
fn push_variables(
    options: &mut Vec<Expression>,
    vars: &[Var],
    declared: &Param,
    width: u8,
) -> Result<(), AllocError> {
    for index in 0..vars.len() {
        if has_type(&vars[index], declared, width) {
            options.push(Expression::Number(Number::Variable(narrow(index))))?;
        }
    }
    Ok(())
}

// Puts constants behind others.
fn push_constants(options: &mut Vec<Expression>, numbers: &[u64]) -> Result<(), AllocError> {
    for number in numbers {
        options.push(Expression::Constant(*number))?;
    }
    Ok(())
}

// Puts narrower numbers and aligned parts of wider ones behind others.
fn push_others(options: &mut Vec<Expression>, vars: &[Var], width: u8) -> Result<(), AllocError> {
    for index in 0..vars.len() {
        match &vars[index].ty {
            Ty::Bool => {}
            Ty::Uint(own) => {
                push_parts(options, Number::Variable(narrow(index)), *own, width)?;
            }
            Ty::Enum(_) => {}
        }
    }
    Ok(())
}

// Puts a narrower number, or the aligned parts of a wider one, behind others.
fn push_parts(
    options: &mut Vec<Expression>,
    number: Number,
    own: u8,
    width: u8,
) -> Result<(), AllocError> {
    if own < width {
        options.push(Expression::Number(number))?;
        return Ok(());
    }
    if own == width || width == 0 {
        return Ok(());
    }
    for step in 0..own / width {
        let by = step.wrapping_mul(width);
        options.push(Expression::Part(number, by, greatest(width)))?;
    }
    Ok(())
}
