//! The bits of one term, from those of its parts.
ghost use Rattle.std.specs.Prelude.{◌≡◌, [], ◌∷◌, All, IfOk, Some, length, reverse};
ghost use Rattle.tm_base.specs.Arithmetic as numbers;
ghost use Rattle.tm_dd.specs.Reduced.{Extends};
ghost use Rattle.tm_dd.specs.Table.{Table, Knows, means};
ghost use Rattle.tm_term.specs.Parts.{parts_of};
ghost use Rattle.tm_term.specs.Table.{IsKnown, Fits, term_of, term_width};
ghost use Rattle.tm_term.specs.Value.{term_value};
ghost use Rattle.tm_blast.specs.Bits.{AreBits, AreLevels, input_values, values_in};
ghost use Rattle.tm_blast.specs.Cell.{MeanBits, compared as compared_bits};
ghost use Rattle.tm_blast.specs.Memory.{AreMade, ArePartsMade};
ghost use Rattle.tm_blast.specs.Numbers.{level_lists, number_in, MeanNumber};
ghost use Rattle.tm_blast.specs.Shapes.{IsPair, IsSingle, pair_value, pair_width, single_value, single_width};
ghost use Rattle.tm_term.specs.declared.term.Parts.TheVariants as parts;
ghost use Rattle.tm_term.specs.declared.term.Term.{Term as TermData};

use crate::cell::{Cell, rippled};
use crate::compare::{Comparison, compared};
use crate::memory::TermBits;
use crate::place::{complements, constant, input, placed};
use std::alloc::{AllocError, Global};
use tm_dd::{FALSE, NodeId, TRUE};
use tm_ddops::Manager;
use tm_term::{Parts, Term, TermId, Terms};

/// The bits of a term, the least significant first, where those of its parts were made.
pub(crate) fn term_bits(
    alloc: Global,
    terms: &Terms,
    id: TermId,
    levels: &[Vec<u32>],
    made: &TermBits,
    dd: &mut Manager,
) -> Result<Vec<NodeId>, AllocError>
    requires known { IsKnown terms.now id }
    requires levels { AreLevels terms.now dd.old.table.levels (level_lists levels.now) }
    requires made { AreMade terms.now (level_lists levels.now) dd.old.table made.now }
    requires parts { (term : TermData) → term_of terms.now id ≡ Some term → ArePartsMade made.now (parts_of term) }

    ensures extends { Extends dd.old.table dd.new.table }
    ensures answer { IfOk result (λ ids.
        AreBits terms.now (level_lists levels.now) dd.new.table id (reverse ids.items)) }
{
    let term = terms.term(id);
    match term.parts() {
        Parts::None => leaf_bits(alloc, terms, term, levels, dd),
        Parts::One(a) => single_bits(alloc, term, terms.width(a), made.part(a)),
        Parts::Two(a, b) => pair_bits(alloc, term, made.part(a), made.part(b), dd),
        Parts::Three(c, a, b) => {
            let test = made.part(c)[0];
            rippled(alloc, Cell::Choice, test, made.part(a), made.part(b), dd)
        }
    }
}

// The bits of a constant or an input.
fn leaf_bits(
    alloc: Global,
    terms: &Terms,
    term: Term,
    levels: &[Vec<u32>],
    dd: &mut Manager,
) -> Result<Vec<NodeId>, AllocError>
    requires leaf { parts_of term ≡ parts.None }
    requires fits { Fits terms.now term }
    requires levels { AreLevels terms.now dd.old.table.levels (level_lists levels.now) }

    ensures extends { Extends dd.old.table dd.new.table }
    ensures answer { IfOk result (λ ids. MeanNumber dd.new.table ids.items (term_width terms.now term) (λ v.
        term_value terms.now (input_values (level_lists levels.now) v) term)) }
{
    match term {
        Term::Const(width, number) => constant(alloc, width, number),
        Term::Input(i) => input(alloc, &levels[i as usize], dd),
        Term::Not(_)
        | Term::And(..)
        | Term::Or(..)
        | Term::Xor(..)
        | Term::Add(..)
        | Term::Sub(..)
        | Term::Shl(..)
        | Term::Shr(..)
        | Term::Eq(..)
        | Term::Less(..)
        | Term::Ite(..)
        | Term::Resize(..) => unreachable!(),
    }
}

// The bits of a term of one part, from those of the part, which has that width.
fn single_bits(
    alloc: Global,
    term: Term,
    width: u8,
    a: &[NodeId],
) -> Result<Vec<NodeId>, AllocError>
    requires single { IsSingle term width }
    requires width { length a.now ≡ width }

    ensures { IfOk result (λ ids. (s : Table) → All (Knows s) a.now →
        MeanNumber s ids.items (single_width term width) (λ v. single_value term width (number_in s a.now v))) }
{
    match term {
        Term::Not(_) => complements(alloc, a),
        Term::Shl(_, by) => placed(alloc, by as usize, width, a),
        Term::Shr(_, by) => placed(alloc, 0, width, &a[by as usize..]),
        Term::Resize(to, _) => placed(alloc, 0, to, a),
        Term::Const(..)
        | Term::Input(_)
        | Term::And(..)
        | Term::Or(..)
        | Term::Xor(..)
        | Term::Add(..)
        | Term::Sub(..)
        | Term::Eq(..)
        | Term::Less(..)
        | Term::Ite(..) => unreachable!(),
    }
}

// The bits of a term of two parts, from those of the parts.
fn pair_bits(
    alloc: Global,
    term: Term,
    a: &[NodeId],
    b: &[NodeId],
    dd: &mut Manager,
) -> Result<Vec<NodeId>, AllocError>
    requires pair { IsPair term }
    requires a { All (Knows dd.old.table) a.now }
    requires b { All (Knows dd.old.table) b.now }
    requires same { length a.now ≡ length b.now }

    ensures extends { Extends dd.old.table dd.new.table }
    ensures answer { IfOk result (λ ids. MeanNumber dd.new.table ids.items (pair_width term (length a.now)) (λ v.
        pair_value term (length a.now) (number_in dd.old.table a.now v) (number_in dd.old.table b.now v))) }
{
    match term {
        Term::And(..) => rippled(alloc, Cell::And, FALSE, a, b, dd),
        Term::Or(..) => rippled(alloc, Cell::Or, FALSE, a, b, dd),
        Term::Xor(..) => rippled(alloc, Cell::Xor, FALSE, a, b, dd),
        Term::Add(..) => rippled(alloc, Cell::Sum, FALSE, a, b, dd),
        Term::Sub(..) => difference(alloc, a, b, dd),
        Term::Eq(..) => tested(alloc, Comparison::Equal, TRUE, a, b, dd),
        Term::Less(..) => tested(alloc, Comparison::Less, FALSE, a, b, dd),
        Term::Const(..)
        | Term::Input(_)
        | Term::Not(_)
        | Term::Shl(..)
        | Term::Shr(..)
        | Term::Ite(..)
        | Term::Resize(..) => unreachable!(),
    }
}

// The bits of a difference: the sum with the complement, and one more.
fn difference(
    alloc: Global,
    a: &[NodeId],
    b: &[NodeId],
    dd: &mut Manager,
) -> Result<Vec<NodeId>, AllocError>
    requires a { All (Knows dd.old.table) a.now }
    requires b { All (Knows dd.old.table) b.now }
    requires same { length a.now ≡ length b.now }

    ensures extends { Extends dd.old.table dd.new.table }
    ensures answer { IfOk result (λ ids. MeanNumber dd.new.table ids.items (length a.now) (λ v.
        numbers.difference (length a.now) (number_in dd.old.table a.now v) (number_in dd.old.table b.now v))) }
{
    let turned = complements(alloc, b)?;
    rippled(alloc, Cell::Sum, TRUE, a, &turned, dd)
}

// The one bit of a comparison, which gives `first` for no bits.
fn tested(
    alloc: Global,
    op: Comparison,
    first: NodeId,
    a: &[NodeId],
    b: &[NodeId],
    dd: &mut Manager,
) -> Result<Vec<NodeId>, AllocError>
    requires first { Knows dd.old.table first }
    requires a { All (Knows dd.old.table) a.now }
    requires b { All (Knows dd.old.table) b.now }
    requires same { length a.now ≡ length b.now }

    ensures extends { Extends dd.old.table dd.new.table }
    ensures answer { IfOk result (λ ids. MeanBits dd.new.table ids.items (λ v.
        compared_bits op (means dd.old.table first v)
        (values_in dd.old.table a.now v) (values_in dd.old.table b.now v) ∷ [])) }
{
    let found = compared(op, first, a, b, dd)?;
    Ok(vec![in alloc; found]?)
}
