//! The text of an expression.
ghost use Rattle.std.specs.Prelude.{◌≡◌, ◌++◌, codes, OnOk};
ghost use Rattle.tm_syntax.specs.Design.View.{design_tree};
ghost use Rattle.tm_cir.specs.View.{num_tree, truth_tree};
ghost use Rattle.tm_cir.specs.Text.Token.{arithmetic, shifting, comparing, joining};
ghost use Rattle.tm_cir.specs.Text.Spelling.{sign_text};
ghost use Rattle.tm_cprint.specs.Layout.{num_text, truth_text};

use crate::piece::{push, push_constant, push_location, push_variable};
use std::alloc::AllocError;
use tm_base::ShiftOperator;
use tm_cir::block::{Comparison, Junction, NumOperator};
use tm_cir::{Num64, Truth};
use tm_syntax::design::Design;

/// Puts a number behind the text.
#[cycle(printing)]
pub fn push_num(text: &mut Vec<u8>, design: &Design, num: &Num64) -> Result<(), AllocError>
    ensures { OnOk result
        (text.new.items ≡ text.old.items ++ num_text (design_tree design.now) (num_tree num.now)) }
{
    match num {
        Num64::Const(number) => push_constant(text, *number),
        Num64::Var(var) => push_variable(text, design, *var),
        Num64::Location(process) => push_location(text, design, *process),
        Num64::Goal => push(text, b"termite_goal"),
        Num64::Last => push(text, b"termite_last"),
        Num64::Not(a) => {
            push(text, b"(~")?;
            push_num(text, design, a)?;
            push(text, b")")
        }
        Num64::Binary(op, a, b) => {
            push(text, b"(")?;
            push_num(text, design, a)?;
            push_spaced(text, number_sign(*op))?;
            push_num(text, design, b)?;
            push(text, b")")
        }
        Num64::Shift(op, a, by) => {
            push(text, b"(")?;
            push_num(text, design, a)?;
            push_spaced(text, shift_sign(*op))?;
            push_constant(text, u64::from(*by))?;
            push(text, b")")
        }
        Num64::Cond(truth, a, b) => {
            push(text, b"(")?;
            push_truth(text, design, truth)?;
            push(text, b" ? ")?;
            push_num(text, design, a)?;
            push(text, b" : ")?;
            push_num(text, design, b)?;
            push(text, b")")
        }
    }
}

/// Puts a truth value behind the text.
#[cycle(printing)]
pub fn push_truth(text: &mut Vec<u8>, design: &Design, truth: &Truth) -> Result<(), AllocError>
    ensures { OnOk result
        (text.new.items ≡ text.old.items ++ truth_text (design_tree design.now) (truth_tree truth.now)) }
{
    match truth {
        Truth::Num(a) => push_num(text, design, a),
        Truth::Not(a) => {
            push(text, b"(!")?;
            push_truth(text, design, a)?;
            push(text, b")")
        }
        Truth::Compare(op, a, b) => {
            push(text, b"(")?;
            push_num(text, design, a)?;
            push_spaced(text, comparison_sign(*op))?;
            push_num(text, design, b)?;
            push(text, b")")
        }
        Truth::Join(op, a, b) => {
            push(text, b"(")?;
            push_truth(text, design, a)?;
            push_spaced(text, junction_sign(*op))?;
            push_truth(text, design, b)?;
            push(text, b")")
        }
    }
}

#[tactic(auto, using(crate::proofs::Behind::append_assoc))]
fn push_spaced(text: &mut Vec<u8>, sign: &[u8]) -> Result<(), AllocError>
    ensures { OnOk result (text.new.items ≡ text.old.items ++ codes " " ++ sign.now ++ codes " ") }
{
    push(text, b" ")?;
    push(text, sign)?;
    push(text, b" ")?;
    Ok(())
}

fn number_sign(op: NumOperator) -> &'static [u8]
    ensures { result.now ≡ sign_text (arithmetic op) }
{
    match op {
        NumOperator::Add => b"+",
        NumOperator::Subtract => b"-",
        NumOperator::And => b"&",
        NumOperator::Or => b"|",
        NumOperator::Xor => b"^",
    }
}

fn shift_sign(op: ShiftOperator) -> &'static [u8]
    ensures { result.now ≡ sign_text (shifting op) }
{
    match op {
        ShiftOperator::Left => b"<<",
        ShiftOperator::Right => b">>",
    }
}

fn comparison_sign(op: Comparison) -> &'static [u8]
    ensures { result.now ≡ sign_text (comparing op) }
{
    match op {
        Comparison::Equal => b"==",
        Comparison::NotEqual => b"!=",
        Comparison::Less => b"<",
        Comparison::LessEqual => b"<=",
        Comparison::Greater => b">",
        Comparison::GreaterEqual => b">=",
    }
}

fn junction_sign(op: Junction) -> &'static [u8]
    ensures { result.now ≡ sign_text (joining op) }
{
    match op {
        Junction::And => b"&&",
        Junction::Or => b"||",
    }
}
