//! The table of terms: it makes them and values them.
ghost use Rattle.std.specs.Prelude.{◌≡◌, ℕ, ◌+◌, ◌^◌, ◌<◌, ◌≤◌, ◌↔◌, length, slice_index, List, Some, Ok, IfOk, OnErr, IsTrue, All};
ghost use Rattle.tm_base.specs.Arithmetic.{IsWidth};
ghost use Rattle.tm_term.specs.Table.{Table, count_of, IsKnown, term_of, width_of, AreAlike, FitsBelow, Fits, term_width, IsSound};
ghost use Rattle.tm_term.specs.Parts.{parts_of, AreBelow, AreOperands};
ghost use Rattle.tm_term.specs.Value.{AreInputs, AreValues, term_value, value_of, Extends};

use crate::term::{Parts, Term, TermId};
use indexmap::IndexMap;
use std::alloc::{AllocError, Global};
use std::cell::RefCell;
use std::marker::Model;
use tm_base::{
    choice, complement, difference, equal, greatest, is_width, less, resize, shift_left,
    shift_right, sum,
};

/// A table of terms over inputs of 1 to 64 bits, in which each term stands once (hash-consing, after Ershov 1958).
///
/// Contracts see it as its `Table`: the widths of the inputs, and the terms in the order of their ids with their
/// widths. An id means the same term, width and value for as long as the table lives, whatever is made later.
#[derive(Drop)]
pub struct Terms {
    inputs: Vec<u8>,
    // The terms in the order of their ids, each with its width.
    kept: IndexMap<Term, u8>,
    // Room for one value for each term, so that `eval` takes no memory.
    room: RefCell<Vec<u64>>,
}

impl Model for Terms {
    ghost use Rattle.tm_term.specs.Table.{Table, IsSound};

    ghost Value = { Table };

    ghost view = { λ a. record { inputs = a.inputs.items; kept = a.kept.entries } };

    ghost invariant = { λ a. IsSound (record { inputs = a.inputs.items; kept = a.kept.entries }) };
}

impl Terms {
    /// An empty table over inputs of these widths, each 1 to 64. `AllocError` is want of memory.
    pub fn new(alloc: Global, inputs: &[u8]) -> Result<Terms, AllocError>
        requires { All IsWidth inputs.now }
        ensures inputs { IfOk result (λ t. t.inputs ≡ inputs.now) }
        ensures empty { IfOk result (λ t. count_of t ≡ 0) }
        ensures sound { IfOk result IsSound }
    {
        Ok(Terms {
            inputs: Vec::from_slice(alloc, inputs)?,
            kept: IndexMap::new(alloc),
            room: RefCell::new(Vec::new(alloc)),
        })
    }

    /// The widths of the inputs, in the order of their numbers.
    pub fn inputs(&self) -> &[u8]
        ensures { result.now ≡ self.now.inputs }
    {
        &self.inputs
    }

    /// The number of terms. The known ids are the numbers below it.
    pub fn count(&self) -> u64
        ensures count { result ≡ count_of self.now }
        ensures sound { IsSound self.now }
    {
        self.kept.len() as u64
    }

    /// Whether an id is known: the test of the condition of `width`, `term` and `eval`.
    pub fn is_known(&self, id: TermId) -> bool
        ensures { IsTrue result ↔ IsKnown self.now id }
    {
        id.0 < self.count()
    }

    /// The width of the term of a known id, in bits. Takes no memory and constant time.
    pub fn width(&self, id: TermId) -> u8
        requires { IsKnown self.now id }
        ensures width { result ≡ width_of self.now id }
        ensures in_range { IsWidth result }
    {
        self.kept[id.0 as usize]
    }

    /// The term of a known id: `mk` of it answers this id. Its parts are smaller ids, so a walk down the parts ends,
    /// and the value of the id is that of the term over its parts. Takes no memory and constant time.
    pub fn term(&self, id: TermId) -> Term
        requires { IsKnown self.now id }
        ensures term { term_of self.now id ≡ Some result }
        ensures parts { FitsBelow self.now id.0 result }
        ensures width { width_of self.now id ≡ term_width self.now result }
        ensures value { (values : List ℕ) → value_of self.now values id ≡ term_value self.now values result }
        ensures sound { IsSound self.now }
    {
        let (term, _) = self.kept.get_index(id.0 as usize).unwrap();
        *term
    }

    // Whether two ids are known and their terms have one width.
    fn are_alike(&self, a: TermId, b: TermId) -> bool
        ensures { IsTrue result ↔ AreAlike self.now (count_of self.now) a b }
    {
        self.is_known(a) && self.is_known(b) && self.width(a) == self.width(b)
    }

    /// Whether a term may be made: the test of the condition of `mk`. Its parts are known, and their widths fit its
    /// operator; an input's number is below the number of inputs; a width is 1 to 64; a constant is in range of its
    /// width; a shift amount is below the width.
    pub fn fits(&self, term: Term) -> bool
        ensures { IsTrue result ↔ Fits self.now term }
    {
        match term {
            Term::Const(width, number) => is_width(width) && number <= greatest(width),
            Term::Input(i) => (i as usize) < self.inputs.len(),
            Term::Not(a) => self.is_known(a),
            Term::Shl(a, by) | Term::Shr(a, by) => self.is_known(a) && by < self.width(a),
            Term::Ite(c, a, b) => self.is_known(c) && self.width(c) == 1 && self.are_alike(a, b),
            Term::Resize(width, a) => is_width(width) && self.is_known(a),
            Term::And(a, b)
            | Term::Or(a, b)
            | Term::Xor(a, b)
            | Term::Add(a, b)
            | Term::Sub(a, b)
            | Term::Eq(a, b)
            | Term::Less(a, b) => self.are_alike(a, b),
        }
    }

    // The width of a term over its parts.
    fn term_width(&self, term: Term) -> u8
        requires { Fits self.now term }
        ensures { result ≡ term_width self.now term }
    {
        match term {
            Term::Const(width, _) | Term::Resize(width, _) => width,
            Term::Input(i) => self.inputs[i as usize],
            Term::Eq(..) | Term::Less(..) => 1,
            Term::Not(a)
            | Term::And(a, _)
            | Term::Or(a, _)
            | Term::Xor(a, _)
            | Term::Add(a, _)
            | Term::Sub(a, _)
            | Term::Shl(a, _)
            | Term::Shr(a, _)
            | Term::Ite(_, a, _) => self.width(a),
        }
    }

    /// The id of a term, which is a new one where the table does not have the term. So equal terms get equal ids.
    ///
    /// `AllocError` is want of memory, which a term that is there never meets. After it the table is as it was. In
    /// every case each earlier id means what it meant. Takes constant time, but for the growth of the table.
    pub fn mk(&mut self, term: Term) -> Result<TermId, AllocError>
        requires { Fits self.old term }
        ensures known { IfOk result (λ id. IsKnown self.new id) }
        ensures term { IfOk result (λ id. term_of self.new id ≡ Some term) }
        ensures width { IfOk result (λ id. width_of self.new id ≡ term_width self.old term) }
        ensures value { IfOk result (λ id.
            (values : List ℕ) → value_of self.new values id ≡ term_value self.old values term) }
        ensures equal { (id : TermId) → term_of self.old id ≡ Some term → (result ≡ Ok id) × (self.new ≡ self.old) }
        ensures count { count_of self.new ≤ count_of self.old + 1 }
        ensures earlier { Extends self.old self.new }
        ensures err { OnErr result (self.new ≡ self.old) }
        ensures sound { IsSound self.new }
    {
        if let Some(index) = self.kept.get_index_of(&term) {
            return Ok(TermId(index as u64));
        }
        let width = self.term_width(term);
        let count = self.kept.len();
        make_room(&mut self.room, count)?;
        self.kept.insert(term, width)?;
        Ok(TermId(count as u64))
    }

    /// Whether there is one value for each input, in range of its width: the test of the condition of `eval`.
    pub fn accepts(&self, values: &[u64]) -> bool
        ensures { IsTrue result ↔ AreInputs self.now values.now }
    {
        if values.len() != self.inputs.len() {
            return false;
        }
        for (i, value) in values.iter().enumerate() {
            if *value > greatest(self.inputs[i]) {
                return false;
            }
        }
        true
    }

    // The value of a term over the values of its parts, which stand first among the operands.
    fn apply(&self, term: Term, values: &[u64], operands: (u64, u64, u64)) -> u64
        requires sound { IsSound self.now }
        requires fits { Fits self.now term }
        requires inputs { AreInputs self.now values.now }
        requires operands { AreOperands (value_of self.now values.now) (parts_of term) operands }
        ensures { result ≡ term_value self.now values.now term }
    {
        let (x, y, z) = operands;
        match term {
            Term::Const(_, number) => number,
            Term::Input(i) => values[i as usize],
            Term::Not(a) => complement(self.width(a), x),
            Term::And(..) => x & y,
            Term::Or(..) => x | y,
            Term::Xor(..) => x ^ y,
            Term::Add(a, _) => sum(self.width(a), x, y),
            Term::Sub(a, _) => difference(self.width(a), x, y),
            Term::Shl(a, by) => shift_left(self.width(a), x, by),
            Term::Shr(_, by) => shift_right(x, by),
            Term::Eq(..) => equal(x, y),
            Term::Less(..) => less(x, y),
            Term::Ite(..) => choice(x, y, z),
            Term::Resize(width, _) => resize(width, x),
        }
    }

    /// Fills a table with the values of the first ids, as many as it has places, over the values of the inputs.
    ///
    /// Takes no memory, no recursion, and time linear in the length of the table, however deep and shared the terms
    /// are: so the values of all terms of a step, whose ids are below the length, cost one pass.
    pub fn eval_into(&self, values: &[u64], table: &mut [u64])
        requires inputs { AreInputs self.now values.now }
        requires within { length table.old ≤ count_of self.now }
        ensures { AreValues self.now values.now table.new }
    {
        for k in 0..table.len() {
            let term = self.term(TermId(k as u64));
            let operands = operands_in(term.parts(), &table[..k]);
            table[k] = self.apply(term, values, operands);
        }
    }

    /// The value of a known id over the values of the inputs.
    ///
    /// Takes no memory. It values the ids up to this one in their order, in room that `mk` has made, without recursion
    /// and in time linear in the id. Only where that room is in use or too short, which no call leaves it, it recurses
    /// down the parts instead, at most as deep as the term.
    pub fn eval(&self, id: TermId, values: &[u64]) -> u64
        requires known { IsKnown self.now id }
        requires inputs { AreInputs self.now values.now }
        ensures value { result ≡ value_of self.now values.now id }
        ensures in_range { result < 2 ^ width_of self.now id }
    {
        let place = id.0 as usize;
        if let Ok(mut room) = self.room.try_borrow_mut() {
            let room = &mut *room;
            if place < room.len() {
                let table = &mut room[..place + 1];
                self.eval_into(values, table);
                return table[place];
            }
        }
        self.eval_parts(id, values)
    }

    // The value of an id by those of its parts, with no room: the recursion is as deep as the term.
    fn eval_parts(&self, id: TermId, values: &[u64]) -> u64
        requires known { IsKnown self.now id }
        requires inputs { AreInputs self.now values.now }
        ensures { result ≡ value_of self.now values.now id }
    {
        let term = self.term(id);
        let operands = match term.parts() {
            Parts::None => (0, 0, 0),
            Parts::One(a) => (self.eval_parts(a, values), 0, 0),
            Parts::Two(a, b) => (self.eval_parts(a, values), self.eval_parts(b, values), 0),
            Parts::Three(c, a, b) => (
                self.eval_parts(c, values),
                self.eval_parts(a, values),
                self.eval_parts(b, values),
            ),
        };
        self.apply(term, values, operands)
    }
}

// The values of the parts in a table of the values of the first ids, and 0 for a part that is wanting.
fn operands_in(parts: Parts, table: &[u64]) -> (u64, u64, u64)
    requires { AreBelow (length table.now) parts }
    ensures { AreOperands (λ id. slice_index table.now id.0) parts result }
{
    match parts {
        Parts::None => (0, 0, 0),
        Parts::One(a) => (table[a.0 as usize], 0, 0),
        Parts::Two(a, b) => (table[a.0 as usize], table[b.0 as usize], 0),
        Parts::Three(c, a, b) => (
            table[c.0 as usize],
            table[a.0 as usize],
            table[b.0 as usize],
        ),
    }
}

// Room for one value more than the count, where there was room for as many as the count.
fn make_room(room: &mut RefCell<Vec<u64>>, count: usize) -> Result<(), AllocError> {
    let room = room.get_mut();
    if room.len() <= count {
        room.push(0)?;
    }
    Ok(())
}
