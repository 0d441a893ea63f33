//! The bits that were made, term by term.
ghost use Rattle.std.specs.Prelude.{◌≡◌, ◌+◌, ◌<◌, ◌≤◌, ◌↔◌, [], Some, IsTrue, OnOk, length, slice_set};
ghost use Rattle.tm_blast.specs.Memory.{IsMade, made_at, made_of};
ghost use Rattle.tm_term.specs.declared.term.TermId.{TermId as Id};

use std::alloc::{AllocError, Global};
use std::marker::Model;
use tm_dd::NodeId;
use tm_term::TermId;

/// The bits of terms that were made, so that each term's bits are made once.
///
/// Contracts see it as what it holds for each id of a term. They hold for the terms, the levels and the manager with
/// which they were made, and stay right when terms and diagrams are added. `Manager::copy_roots` voids them.
#[derive(Drop)]
pub struct TermBits {
    // By id. The least significant bit comes first.
    entries: Vec<Option<Vec<NodeId>>>,
}

impl Model for TermBits {
    ghost use Rattle.tm_blast.specs.Memory.{Made, made_of};

    ghost Value = { Made };

    ghost view = { λ b. made_of b.entries.items };
}

impl TermBits {
    /// No bits. It takes no memory.
    pub fn new(alloc: Global) -> TermBits
        ensures { result ≡ [] }
    {
        TermBits {
            entries: Vec::new(alloc),
        }
    }

    /// Whether the bits of a term were made.
    pub fn has(&self, id: TermId) -> bool
        ensures { IsTrue result ↔ IsMade self.now id }
    {
        match self.entries.get(id.0 as usize) {
            Some(entry) => entry.is_some(),
            None => false,
        }
    }

    // The bits of a term, the least significant first.
    pub(crate) fn part(&self, id: TermId) -> &[NodeId]
        requires { IsMade self.now id }
        ensures { made_at self.now id ≡ Some result.now }
    {
        match &self.entries[id.0 as usize] {
            Some(bits) => bits,
            None => unreachable!(),
        }
    }

    // Room for the bits of so many terms.
    pub(crate) fn grow(&mut self, count: usize) -> Result<(), AllocError>
        ensures same { (id : Id) → made_at self.new id ≡ made_at self.old id }
        ensures room { OnOk result (count ≤ length self.new) }
    {
        filled(&mut self.entries, count)
    }

    // Keeps the bits of a term.
    pub(crate) fn put(&mut self, id: TermId, bits: Vec<NodeId>)
        requires { id.0 < length self.old }
        ensures { self.new ≡ slice_set self.old id.0 (Some bits.items) }
    {
        self.entries[id.0 as usize] = Some(bits);
    }
}

// Entries without bits, so that there are as many as the count.
fn filled(entries: &mut Vec<Option<Vec<NodeId>>>, count: usize) -> Result<(), AllocError>
    ensures same { (id : Id) → made_at (made_of entries.new.items) id ≡ made_at (made_of entries.old.items) id }
    ensures room { OnOk result (count ≤ length entries.new.items) }
{
    while entries.len() < count {
        entries.push(None)?;
    }
    Ok(())
}
