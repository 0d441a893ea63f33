//! Which terms are wanted for the bits of a term: itself, and the parts of wanted terms whose bits were not made.
//!
//! A mark's place is how far below the term its own term stands, so no more marks are made than ids lie between.
ghost use Rattle.std.specs.Prelude.{◌≡◌, ℕ, ◌+◌, ◌-◌, ◌<◌, ◌≤◌, true, IfOk, OnOk, length, max};
ghost use Rattle.tm_term.specs.Parts.{AreBelow};
ghost use Rattle.tm_term.specs.Table.{IsKnown};
ghost use Rattle.tm_blast.specs.Marks.{is_marked, AreSettled, AreWanted, IsSettled};

use crate::memory::TermBits;
use std::alloc::{AllocError, Global};
use tm_term::{Parts, TermId, Terms};

/// The marks of the terms that are wanted for the bits of a term, by their distance below it.
pub(crate) fn wanted(
    alloc: Global,
    terms: &Terms,
    id: TermId,
    made: &TermBits,
) -> Result<Vec<bool>, AllocError>
    requires { IsKnown terms.now id }
    ensures { IfOk result (λ marks. AreWanted terms.now made.now id marks.items (length marks.items)) }
{
    let mut marks = vec![in alloc; true]?;
    let mut distance = 0;
    while distance < marks.len() {
        if marks[distance] {
            let term = terms.term(TermId(id.0 - distance as u64));
            want_parts(&mut marks, id, distance, term.parts(), made)?;
        }
        distance += 1;
    }
    Ok(marks)
}

// Marks the parts of the term at a distance.
fn want_parts(
    marks: &mut Vec<bool>,
    id: TermId,
    distance: usize,
    parts: Parts,
    made: &TermBits,
) -> Result<(), AllocError>
    requires within { length marks.old.items ≤ id.0 + 1 }
    requires parts { AreBelow (id.0 - distance) parts }

    ensures within { length marks.new.items ≤ id.0 + 1 }
    ensures nearer { (d : ℕ) → d ≤ distance → is_marked marks.new.items d ≡ is_marked marks.old.items d }
    ensures kept { (d : ℕ) → is_marked marks.old.items d ≡ true → is_marked marks.new.items d ≡ true }
    ensures settled { OnOk result (AreSettled made.now id marks.new.items parts) }
{
    match parts {
        Parts::None => Ok(()),
        Parts::One(a) => want(marks, id, distance, a, made),
        Parts::Two(a, b) => {
            want(marks, id, distance, a, made)?;
            want(marks, id, distance, b, made)
        }
        Parts::Three(c, a, b) => {
            want(marks, id, distance, c, made)?;
            want(marks, id, distance, a, made)?;
            want(marks, id, distance, b, made)
        }
    }
}

// Marks a part of the term at a distance, where its bits were not made.
fn want(
    marks: &mut Vec<bool>,
    id: TermId,
    distance: usize,
    part: TermId,
    made: &TermBits,
) -> Result<(), AllocError>
    requires within { length marks.old.items ≤ id.0 + 1 }
    requires part { part.0 < id.0 - distance }

    ensures within { length marks.new.items ≤ id.0 + 1 }
    ensures nearer { (d : ℕ) → d ≤ distance → is_marked marks.new.items d ≡ is_marked marks.old.items d }
    ensures kept { (d : ℕ) → is_marked marks.old.items d ≡ true → is_marked marks.new.items d ≡ true }
    ensures settled { OnOk result (IsSettled made.now id marks.new.items part) }
{
    if made.has(part) {
        return Ok(());
    }
    mark(marks, (id.0 - part.0) as usize)
}

// Sets a mark.
fn mark(marks: &mut Vec<bool>, place: usize) -> Result<(), AllocError>
    ensures within { length marks.new.items ≤ max (length marks.old.items) (place + 1) }
    ensures nearer { (d : ℕ) → d < place → is_marked marks.new.items d ≡ is_marked marks.old.items d }
    ensures kept { (d : ℕ) → is_marked marks.old.items d ≡ true → is_marked marks.new.items d ≡ true }
    ensures marked { OnOk result (is_marked marks.new.items place ≡ true) }
{
    fill(marks, place)?;
    marks[place] = true;
    Ok(())
}

// Room for a mark.
fn fill(marks: &mut Vec<bool>, place: usize) -> Result<(), AllocError>
    ensures within { length marks.new.items ≤ max (length marks.old.items) (place + 1) }
    ensures same { (d : ℕ) → is_marked marks.new.items d ≡ is_marked marks.old.items d }
    ensures room { OnOk result (place < length marks.new.items) }
{
    while marks.len() <= place {
        marks.push(false)?;
    }
    Ok(())
}
