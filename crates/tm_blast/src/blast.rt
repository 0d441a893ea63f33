//! The bits of a term, made from those of all terms that it reaches.
ghost use Rattle.std.specs.Prelude.{◌≡◌, ◌<◌, IfOk, OnOk, length};
ghost use Rattle.tm_dd.specs.Reduced.{Extends};
ghost use Rattle.tm_term.specs.Table.{IsKnown};
ghost use Rattle.tm_blast.specs.Bits.{AreBits, AreLevels};
ghost use Rattle.tm_blast.specs.Marks.{AreWanted};
ghost use Rattle.tm_blast.specs.Memory.{AreMade, IsMade};
ghost use Rattle.tm_blast.specs.Numbers.{level_lists};
ghost use Rattle.tm_term.specs.declared.term.TermId.{TermId as Id};

use crate::marks::wanted;
use crate::memory::TermBits;
use crate::term_bits::term_bits;
use std::alloc::{AllocError, Global};
use tm_dd::NodeId;
use tm_ddops::Manager;
use tm_term::{TermId, Terms};

/// The bits of a term, the most significant first, as `TermBits::bits` makes them where none were made. What it made
/// below the term is let go.
pub fn bits(
    alloc: Global,
    terms: &Terms,
    id: TermId,
    levels: &[Vec<u32>],
    dd: &mut Manager,
) -> Result<Vec<NodeId>, AllocError>
    requires known { IsKnown terms.now id }
    requires levels { AreLevels terms.now dd.old.table.levels (level_lists levels.now) }

    ensures bits { IfOk result (λ ids. AreBits terms.now (level_lists levels.now) dd.new.table id ids.items) }
    ensures earlier { Extends dd.old.table dd.new.table }
{
    let mut made = TermBits::new(alloc);
    made.bits(alloc, terms, id, levels, dd)
}

impl TermBits {
    /// The bits of a term, the most significant first: on every assignment of the levels they mean the term's value
    /// over the values of the inputs (bit-blasting; Kroening and Strichman, Decision Procedures, 2008).
    ///
    /// `levels` gives each input one level for each bit, the most significant bit's first. What was made before was
    /// made with these terms, or ones that they extend, these levels and this manager. In one pass, in the order of
    /// ids, it makes the bits of those terms that the id reaches and that were not made before: operations by ripple
    /// adders and comparers from the least significant bit, without recursion on terms.
    ///
    /// `AllocError` is want of memory. Then too each id of a diagram means what it meant, and what was made stays.
    pub fn bits(
        &mut self,
        alloc: Global,
        terms: &Terms,
        id: TermId,
        levels: &[Vec<u32>],
        dd: &mut Manager,
    ) -> Result<Vec<NodeId>, AllocError>
        requires known { IsKnown terms.now id }
        requires levels { AreLevels terms.now dd.old.table.levels (level_lists levels.now) }
        requires made { AreMade terms.now (level_lists levels.now) dd.old.table self.old }

        ensures bits { IfOk result (λ ids. AreBits terms.now (level_lists levels.now) dd.new.table id ids.items) }
        ensures made { AreMade terms.now (level_lists levels.now) dd.new.table self.new }
        ensures earlier { Extends dd.old.table dd.new.table }

        // What was made stays made, and is not made again.
        ensures kept { (other : Id) → IsMade self.old other → IsMade self.new other }
        ensures remembered { OnOk result (IsMade self.new id) }
        ensures again { IsMade self.old id → self.new ≡ self.old }
        ensures again_same { IsMade self.old id → dd.new ≡ dd.old }
    {
        if !self.has(id) {
            self.grow(terms.count() as usize)?;
            let marks = wanted(alloc, terms, id, self)?;
            fill(self, alloc, terms, id, &marks, levels, dd)?;
        }
        self.part(id).iter().rev().copied().collect(alloc)
    }
}

// Makes the bits of the marked terms, from the farthest one below to the term itself.
fn fill(
    made: &mut TermBits,
    alloc: Global,
    terms: &Terms,
    id: TermId,
    marks: &[bool],
    levels: &[Vec<u32>],
    dd: &mut Manager,
) -> Result<(), AllocError>
    requires known { IsKnown terms.now id }
    requires levels { AreLevels terms.now dd.old.table.levels (level_lists levels.now) }
    requires made { AreMade terms.now (level_lists levels.now) dd.old.table made.old }
    requires room { id.0 < length made.old }
    requires wanted { AreWanted terms.now made.old id marks.now (length marks.now) }

    ensures made { AreMade terms.now (level_lists levels.now) dd.new.table made.new }
    ensures earlier { Extends dd.old.table dd.new.table }
    ensures kept { (other : Id) → IsMade made.old other → IsMade made.new other }
    ensures remembered { OnOk result (IsMade made.new id) }
{
    let mut left = marks.len();
    while left > 0 {
        left -= 1;
        if marks[left] {
            let part = TermId(id.0 - left as u64);
            let bits = term_bits(alloc, terms, part, levels, made, dd)?;
            made.put(part, bits);
        }
    }
    Ok(())
}
