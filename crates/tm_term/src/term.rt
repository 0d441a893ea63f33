//! Terms, and the ids of terms.
ghost use Rattle.std.specs.Prelude.{◌≡◌};
ghost use Rattle.tm_term.specs.Parts.{parts_of};

/// The name of a term in its `Terms`: the place of the term, from 0, in the order in which terms were made.
#[derive(Clone, Copy, PartialEq, Eq, PartialOrd, Ord, Hash, Debug)]
pub struct TermId(pub u64);

/// A term of unsigned bit-vectors of 1 to 64 bits, over the ids of its parts. Its operators are those of the theory of
/// fixed-size bit-vectors of SMT-LIB. The two parts of an operator have one width. A bool has width 1.
#[derive(Clone, Copy, PartialEq, Eq, Hash, Debug)]
pub enum Term {
    /// A number of the given width.
    Const(u8, u64),
    /// The input of that number, from 0.
    Input(u32),
    /// Each bit turned over.
    Not(TermId),
    /// The conjunction of each two bits.
    And(TermId, TermId),
    /// The disjunction of each two bits.
    Or(TermId, TermId),
    /// The exclusive disjunction of each two bits.
    Xor(TermId, TermId),
    /// The sum modulo 2 to the width.
    Add(TermId, TermId),
    /// The difference modulo 2 to the width.
    Sub(TermId, TermId),
    /// Shifted up by a number of places below the width. What is shifted out is lost.
    Shl(TermId, u8),
    /// Shifted down by a number of places below the width, with zeros from above.
    Shr(TermId, u8),
    /// Whether both are equal: 1 or 0, of width 1.
    Eq(TermId, TermId),
    /// Whether the first is below the second, unsigned: 1 or 0, of width 1.
    Less(TermId, TermId),
    /// The second where the first, of width 1, is 1, and else the third.
    Ite(TermId, TermId, TermId),
    /// Cut, or extended by zeros, to the given width.
    Resize(u8, TermId),
}

/// The parts of a term, in order.
#[derive(Clone, Copy, Debug)]
pub enum Parts {
    /// A constant or an input has no part.
    None,
    /// The one part of a complement, a shift or a change of width.
    One(TermId),
    /// The two parts of an operator between terms.
    Two(TermId, TermId),
    /// The test of a choice, and what it chooses between.
    Three(TermId, TermId, TermId),
}

impl Term {
    /// The ids that the term names, in order.
    pub fn parts(self) -> Parts
        ensures { result ≡ parts_of self }
    {
        match self {
            Term::Const(..) | Term::Input(..) => Parts::None,
            Term::Not(a) | Term::Shl(a, _) | Term::Shr(a, _) | Term::Resize(_, a) => Parts::One(a),
            Term::Ite(c, a, b) => Parts::Three(c, a, b),
            Term::And(a, b)
            | Term::Or(a, b)
            | Term::Xor(a, b)
            | Term::Add(a, b)
            | Term::Sub(a, b)
            | Term::Eq(a, b)
            | Term::Less(a, b) => Parts::Two(a, b),
        }
    }
}
