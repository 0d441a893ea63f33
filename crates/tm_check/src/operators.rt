//! The operators of a driver's expressions, on terms.
ghost use Rattle.std.specs.Prelude.{◌≡◌, ℕ, IfOk, List};
ghost use Rattle.tm_check.specs.Operators.{binary_term, joined_term, shifted_term};
ghost use Rattle.tm_check.specs.Worth.{AreCompared, IsWorth};
ghost use Rattle.tm_base.specs.Arithmetic as bits;
ghost use Rattle.tm_flat.specs.Steps.{IsTerm};
ghost use Rattle.tm_game.specs.Game.{Grows};
ghost use Rattle.tm_term.specs.Table.{Fits, term_width};
ghost use Rattle.tm_term.specs.Value.{term_value};

use std::alloc::AllocError;
use tm_base::ShiftOperator;
use tm_cir::block::{Comparison, Junction, NumOperator};
use tm_game::Game;
use tm_term::{Term, TermId};

/// The term of an operator between two numbers.
pub(crate) fn binary(operator: NumOperator, a: TermId, b: TermId) -> Term
    ensures { result ≡ binary_term operator a b }
{
    match operator {
        NumOperator::Add => Term::Add(a, b),
        NumOperator::Subtract => Term::Sub(a, b),
        NumOperator::And => Term::And(a, b),
        NumOperator::Or => Term::Or(a, b),
        NumOperator::Xor => Term::Xor(a, b),
    }
}

/// The term of an operator between two truths.
pub(crate) fn joined(junction: Junction, a: TermId, b: TermId) -> Term
    ensures { result ≡ joined_term junction a b }
{
    match junction {
        Junction::And => Term::And(a, b),
        Junction::Or => Term::Or(a, b),
    }
}

/// The term of a shift by a constant.
pub(crate) fn shifted(operator: ShiftOperator, a: TermId, by: u8) -> Term
    ensures { result ≡ shifted_term operator a by }
{
    match operator {
        ShiftOperator::Left => Term::Shl(a, by),
        ShiftOperator::Right => Term::Shr(a, by),
    }
}

/// The term that is 1 where a term of one bit is 0.
pub(crate) fn negated(game: &mut Game, term: Term) -> Result<TermId, AllocError>
    requires fits { Fits game.old.terms term }
    requires width { term_width game.old.terms term ≡ 1 }

    ensures grows { Grows game.old game.new }
    ensures worth { IfOk result
        (IsWorth game.new.terms 1 (λ values. bits.complement 1 (term_value game.old.terms values term))) }
{
    let id = game.mk(term)?;
    let not = game.mk(Term::Not(id))?;
    Ok(not)
}

/// The term that is 1 where two numbers compare so, and else 0.
pub(crate) fn compared(
    game: &mut Game,
    comparison: Comparison,
    a: TermId,
    b: TermId,
) -> Result<TermId, AllocError>
    requires first { IsTerm game.old.terms 64 a }
    requires second { IsTerm game.old.terms 64 b }

    ensures grows { Grows game.old game.new }
    ensures worth { IfOk result (AreCompared game.old.terms game.new.terms comparison a b) }
{
    match comparison {
        Comparison::Equal => game.mk(Term::Eq(a, b)),
        Comparison::NotEqual => negated(game, Term::Eq(a, b)),
        Comparison::Less => game.mk(Term::Less(a, b)),
        Comparison::LessEqual => negated(game, Term::Less(b, a)),
        Comparison::Greater => game.mk(Term::Less(b, a)),
        Comparison::GreaterEqual => negated(game, Term::Less(a, b)),
    }
}

/// The term that is 1 where a number is not 0.
pub(crate) fn nonzero(game: &mut Game, a: TermId) -> Result<TermId, AllocError>
    requires { IsTerm game.old.terms 64 a }

    ensures grows { Grows game.old game.new }
    ensures worth { IfOk result (λ id. (f : List ℕ → ℕ) → IsWorth game.old.terms 64 f a
        → IsWorth game.new.terms 1 (λ values. bits.bit (bits.is_nonzero (f values))) id) }
{
    let zero = game.mk(Term::Const(64, 0))?;
    let test = negated(game, Term::Eq(a, zero))?;
    Ok(test)
}
