//! The turns in which atoms are put to a set: with each the quantified levels that no later atom reads are quantified.
ghost use Rattle.std.specs.Prelude.{◌≡◌, [], IfOk, length};
ghost use Rattle.tm_abs.specs.Inner.Marks.{AreListed, AreMarked};
ghost use Rattle.tm_abs.specs.Inner.Turns.{AreTurnsOf};

use crate::atoms::Atom;
use crate::joined::Gone;
use crate::marks::{equal_marks, mark_levels};
use std::alloc::{AllocError, Global};
use tm_dd::NodeId;

/// An atom, with the levels that are quantified once it is put to the set.
#[derive(Drop)]
pub(crate) struct Turn {
    pub(crate) level: u32,
    pub(crate) holds: NodeId,
    pub(crate) ends: Vec<u32>,
}

/// The turns of some atoms, the first of them at the end, and the quantified levels that no atom reads.
#[derive(Drop)]
pub(crate) struct Turns {
    pub(crate) unread: Vec<u32>,
    pub(crate) turns: Vec<Turn>,
}

// The turns of atoms: the last atom has the first turn.
pub(crate) fn order_turns(alloc: Global, gone: &Gone, atoms: &[Atom]) -> Result<Turns, AllocError>
    requires { AreListed gone.now.marks.items gone.now.levels.items }
    ensures { IfOk result (λ t. AreTurnsOf gone.now.marks.items atoms.now t.unread.items t.turns.items) }
{
    let mut later = equal_marks(alloc, false, gone.marks.len())?;
    let mut turns = Vec::new(alloc);
    for atom in atoms {
        let turn = turn_of(alloc, &gone.marks, atom, &mut later)?;
        turns.push(turn)?;
    }
    let mut unread = Vec::new(alloc);
    mark_levels(&gone.marks, &gone.levels, &mut later, &mut unread)?;
    Ok(Turns { unread, turns })
}

// The turn of an atom, where those levels have a mark that later atoms read.
fn turn_of(
    alloc: Global,
    gone: &[bool],
    atom: &Atom,
    later: &mut Vec<bool>,
) -> Result<Turn, AllocError>
    requires { length later.old.items ≡ length gone.now }
    ensures count { length later.new.items ≡ length later.old.items }
    ensures level { IfOk result (λ t. t.level ≡ atom.now.level) }
    ensures holds { IfOk result (λ t. t.holds ≡ atom.now.holds) }
    ensures marked { IfOk result (λ t. AreMarked gone.now atom.now.reads.items later.old.items [] later.new.items
        t.ends.items) }
{
    let mut ends = Vec::new(alloc);
    mark_levels(gone, &atom.reads, later, &mut ends)?;
    Ok(Turn {
        level: atom.level,
        holds: atom.holds,
        ends,
    })
}
