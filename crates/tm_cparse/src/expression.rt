//! Readers of numbers and truth values, with the parts that wait on a stack, so that no text makes them go down by
//! recursion.
ghost use Rattle.std.specs.Prelude.{◌≡◌, ◌<◌, ◌≤◌, ◌∷◌, List, None, Some, length, IfOk, IfErr, OnOk};
ghost use Rattle.std.specs.Option.{option_map};
ghost use Rattle.tm_cir.specs.Tree.{num};
ghost use Rattle.tm_cir.specs.View.{num_tree, truth_tree};
ghost use Rattle.tm_cparse.specs.declared.part.Sort.{Sort};
ghost use Rattle.tm_cparse.specs.View.{token_tree, sign_tree, tokens_of};
ghost use Rattle.tm_cparse.specs.Written.{NumInRange};
ghost use Rattle.tm_cparse.specs.Inner.Reading.{IsRefused, Moves};
ghost use Rattle.tm_cparse.specs.Inner.Parts.{PartTree, part_tree, part_trees, IsOf, IsExpression, sort_of, leaf_of, Opens, FitParts, FitsOperand, IsFitting, IsLeft, IsAmount, Closes, first_part, then_part, sign_in};

use crate::part::{Part, Sort, begun, closed, number_in, number_of, shifted};
use crate::spot::{Read, Spot, Stop, amount, need_sign, parted, taken};
use crate::token::{Sign, Token, Word};
use crate::waiting::WaitingParts;
use std::alloc::Global;
use tm_base::ShiftOperator;
use tm_cir::{Num64, Truth};

/// The operand in front of these tokens, or none where one is to come.
type Step<'a> = Result<(Option<Truth>, &'a [Spot]), Stop<'a>>;

/// A number.
pub fn number(alloc: Global, spots: &[Spot]) -> Read<'_, Num64>
    ensures taken { IfOk result (λ r.
        IsExpression Sort.Number (num (num_tree r.0)) (tokens_of spots.now) (tokens_of r.1.now)) }
    ensures shorter { IfOk result (λ r. length r.1.now < length spots.now) }
    ensures refused { IfErr result (IsRefused (IsExpression Sort.Number) (tokens_of spots.now)) }
{
    let (truth, rest) = expression(alloc, Sort::Number, spots)?;
    Ok((number_of(truth), rest))
}

/// A truth value.
pub fn truth(alloc: Global, spots: &[Spot]) -> Read<'_, Truth>
    ensures taken { IfOk result (λ r.
        IsExpression Sort.Truth (truth_tree r.0) (tokens_of spots.now) (tokens_of r.1.now)) }
    ensures shorter { IfOk result (λ r. length r.1.now < length spots.now) }
    ensures refused { IfErr result (IsRefused (IsExpression Sort.Truth) (tokens_of spots.now)) }
{
    expression(alloc, Sort::Truth, spots)
}

fn expression(alloc: Global, sort: Sort, spots: &[Spot]) -> Read<'_, Truth>
    ensures taken { IfOk result (λ r.
        IsExpression sort (truth_tree r.0) (tokens_of spots.now) (tokens_of r.1.now)) }
    ensures shorter { IfOk result (λ r. length r.1.now < length spots.now) }
    ensures refused { IfErr result (IsRefused (IsExpression sort) (tokens_of spots.now)) }
{
    let mut parts = WaitingParts::new(alloc);
    let mut operand = None;
    let mut rest = spots;
    loop {
        let step = match operand {
            None => down(sort, &mut parts, rest)?,
            Some(truth) => match parts.pop() {
                None => return Ok((truth, rest)),
                Some(part) => up(alloc, sort, &mut parts, part, truth, rest)?,
            },
        };
        operand = step.0;
        rest = step.1;
    }
}

/// Reads an operand of one token, or what begins one in parentheses.
fn down<'a>(sort: Sort, parts: &mut WaitingParts, spots: &'a [Spot]) -> Step<'a>
    requires { FitParts sort (part_trees parts.old) }
    ensures moved { IfOk result (λ r. Moves (IsLeft sort (part_trees parts.old) None)
        (IsLeft sort (part_trees parts.new) (option_map truth_tree r.0)) (tokens_of spots.now) (tokens_of r.1.now)) }
    ensures fit { OnOk result (FitParts sort (part_trees parts.new)) }
    ensures operand { IfOk result (λ r. FitsOperand sort (part_trees parts.new) (option_map truth_tree r.0)) }
    ensures shorter { IfOk result (λ r. length r.1.now < length spots.now) }
    ensures refused { IfErr result (IsRefused (IsLeft sort (part_trees parts.old) None) (tokens_of spots.now)) }
{
    if let Some(rest) = taken(spots, Token::Sign(Sign::OpenParenthesis)) {
        let (part, rest) = opening(parts.wanted(sort), rest);
        parts.push(part)?;
        return Ok((None, rest));
    }
    match parted(spots) {
        Some((token, rest)) => match leaf(token) {
            Some(num) => Ok((Some(Truth::Num(num)), rest)),
            None => Err(Stop::Unexpected(spots)),
        },
        None => Err(Stop::Unexpected(spots)),
    }
}

/// The number that is one token, if it is one.
fn leaf(token: Token) -> Option<Num64>
    ensures { option_map num_tree result ≡ leaf_of (token_tree token) }
{
    match token {
        Token::Constant(number) => Some(Num64::Const(number)),
        Token::Variable(number) => Some(Num64::Var(number)),
        Token::Location(number) => Some(Num64::Location(number)),
        Token::Word(Word::TermiteGoal) => Some(Num64::Goal),
        Token::Word(Word::TermiteLast) => Some(Num64::Last),
        _ => None,
    }
}

/// The part that begins behind a parenthesis.
fn opening(sort: Sort, spots: &[Spot]) -> (Part, &[Spot])
    ensures opens { Opens sort (part_tree result.0) (tokens_of spots.now) (tokens_of result.1.now) }
    ensures shorter { length result.1.now ≤ length spots.now }
{
    if let Some(rest) = taken(spots, Token::Sign(Sign::Tilde)) {
        return (Part::Complement, rest);
    }
    if sort == Sort::Truth {
        if let Some(rest) = taken(spots, Token::Sign(Sign::Bang)) {
            return (Part::Negation, rest);
        }
    }
    (Part::First, spots)
}

/// Reads what follows the operand of a part.
fn up<'a>(
    alloc: Global,
    sort: Sort,
    parts: &mut WaitingParts,
    part: Part,
    operand: Truth,
    spots: &'a [Spot],
) -> Step<'a>
    requires fit { FitParts sort (part_tree part ∷ part_trees parts.old) }
    requires operand { IsFitting (sort_of (part_tree part)) (truth_tree operand) }
    ensures moved { IfOk result (λ r. Moves
        (IsLeft sort (part_tree part ∷ part_trees parts.old) (Some (truth_tree operand)))
        (IsLeft sort (part_trees parts.new) (option_map truth_tree r.0)) (tokens_of spots.now) (tokens_of r.1.now)) }
    ensures fit { OnOk result (FitParts sort (part_trees parts.new)) }
    ensures operand { IfOk result (λ r. FitsOperand sort (part_trees parts.new) (option_map truth_tree r.0)) }
    ensures shorter { IfOk result (λ r. length r.1.now < length spots.now) }
    ensures refused { IfErr result (IsRefused
        (IsLeft sort (part_tree part ∷ part_trees parts.old) (Some (truth_tree operand))) (tokens_of spots.now)) }
{
    match part {
        Part::First => operator(alloc, sort, parts, operand, spots),
        Part::Then(test) => second(sort, parts, test, operand, spots),
        part => close(alloc, part, operand, spots),
    }
}

/// Reads `:` behind the first number of `? :`.
fn second<'a>(
    sort: Sort,
    parts: &mut WaitingParts,
    test: Truth,
    operand: Truth,
    spots: &'a [Spot],
) -> Step<'a>
    requires fit { FitParts sort (then_part (truth_tree test) ∷ part_trees parts.old) }
    requires operand { IsFitting Sort.Number (truth_tree operand) }
    ensures moved { IfOk result (λ r. Moves
        (IsLeft sort (then_part (truth_tree test) ∷ part_trees parts.old) (Some (truth_tree operand)))
        (IsLeft sort (part_trees parts.new) (option_map truth_tree r.0)) (tokens_of spots.now) (tokens_of r.1.now)) }
    ensures fit { OnOk result (FitParts sort (part_trees parts.new)) }
    ensures operand { IfOk result (λ r. FitsOperand sort (part_trees parts.new) (option_map truth_tree r.0)) }
    ensures shorter { IfOk result (λ r. length r.1.now < length spots.now) }
    ensures refused { IfErr result (IsRefused
        (IsLeft sort (then_part (truth_tree test) ∷ part_trees parts.old) (Some (truth_tree operand)))
        (tokens_of spots.now)) }
{
    match need_sign(spots, Sign::Colon) {
        Ok(rest) => {
            parts.push(Part::Else(test, number_of(operand)))?;
            Ok((None, rest))
        }
        Err(stop) => {
            drop(test);
            drop(operand);
            Err(stop)
        }
    }
}

/// Reads the parenthesis that closes a part.
fn close(alloc: Global, part: Part, operand: Truth, spots: &[Spot]) -> Step<'_>
    requires closes { Closes (part_tree part) }
    requires operand { IsFitting (sort_of (part_tree part)) (truth_tree operand) }
    ensures moved { IfOk result (λ r. (root : Sort) (ps : List PartTree) → Moves
        (IsLeft root (part_tree part ∷ ps) (Some (truth_tree operand)))
        (IsLeft root ps (option_map truth_tree r.0)) (tokens_of spots.now) (tokens_of r.1.now)) }
    ensures operand { IfOk result (λ r. (root : Sort) (ps : List PartTree) → FitParts root (part_tree part ∷ ps)
        → FitsOperand root ps (option_map truth_tree r.0)) }
    ensures shorter { IfOk result (λ r. length r.1.now < length spots.now) }
    ensures refused { IfErr result (λ e. (root : Sort) (ps : List PartTree) → FitParts root (part_tree part ∷ ps)
        → IsRefused (IsLeft root (part_tree part ∷ ps) (Some (truth_tree operand))) (tokens_of spots.now) e) }
{
    match need_sign(spots, Sign::CloseParenthesis) {
        Ok(rest) => Ok((Some(closed(alloc, part, operand)?), rest)),
        Err(stop) => {
            drop(part);
            drop(operand);
            Err(stop)
        }
    }
}

/// Reads the operator behind the first operand in parentheses.
fn operator<'a>(
    alloc: Global,
    sort: Sort,
    parts: &mut WaitingParts,
    operand: Truth,
    spots: &'a [Spot],
) -> Step<'a>
    requires fit { FitParts sort (part_trees parts.old) }
    requires operand { IsFitting Sort.Truth (truth_tree operand) }
    ensures moved { IfOk result (λ r. Moves
        (IsLeft sort (first_part ∷ part_trees parts.old) (Some (truth_tree operand)))
        (IsLeft sort (part_trees parts.new) (option_map truth_tree r.0)) (tokens_of spots.now) (tokens_of r.1.now)) }
    ensures fit { OnOk result (FitParts sort (part_trees parts.new)) }
    ensures operand { IfOk result (λ r. FitsOperand sort (part_trees parts.new) (option_map truth_tree r.0)) }
    ensures shorter { IfOk result (λ r. length r.1.now < length spots.now) }
    ensures refused { IfErr result (IsRefused
        (IsLeft sort (first_part ∷ part_trees parts.old) (Some (truth_tree operand))) (tokens_of spots.now)) }
{
    let Some((token, rest)) = parted(spots) else {
        drop(operand);
        return Err(Stop::Unexpected(spots));
    };
    let Some(sign) = sign_in(token) else {
        drop(operand);
        return Err(Stop::Unexpected(spots));
    };
    if let Sign::Shifting(op) = sign {
        let Some(a) = number_in(operand) else {
            return Err(Stop::Unexpected(spots));
        };
        return shift(alloc, op, a, rest);
    }
    let Some(part) = begun(parts.wanted(sort), sign, operand) else {
        return Err(Stop::Unexpected(spots));
    };
    parts.push(part)?;
    Ok((None, rest))
}

/// The sign that a token is, if it is one.
fn sign_in(token: Token) -> Option<Sign>
    ensures { option_map sign_tree result ≡ sign_in (token_tree token) }
{
    match token {
        Token::Sign(sign) => Some(sign),
        _ => None,
    }
}

/// Reads a shift amount, and the parenthesis that closes.
fn shift(alloc: Global, op: ShiftOperator, a: Num64, spots: &[Spot]) -> Step<'_>
    requires { NumInRange (num_tree a) }
    ensures moved { IfOk result (λ r. (root : Sort) (ps : List PartTree) → Moves
        (IsAmount root ps op (num_tree a)) (IsLeft root ps (option_map truth_tree r.0))
        (tokens_of spots.now) (tokens_of r.1.now)) }
    ensures operand { IfOk result (λ r. (root : Sort) (ps : List PartTree) →
        FitsOperand root ps (option_map truth_tree r.0)) }
    ensures shorter { IfOk result (λ r. length r.1.now < length spots.now) }
    ensures refused { IfErr result (λ e. (root : Sort) (ps : List PartTree) → FitParts root ps →
        IsRefused (IsAmount root ps op (num_tree a)) (tokens_of spots.now) e) }
{
    let (by, rest) = amount(spots)?;
    let rest = need_sign(rest, Sign::CloseParenthesis)?;
    Ok((Some(shifted(alloc, op, a, by)?), rest))
}
