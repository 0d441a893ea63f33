//! The levels of a state that are quantified for a set, and the atoms that are joined to it: an atom is joined where it
//! reads one of these levels, and then all others that it reads are quantified too. What is not joined stays as it is.
ghost use Rattle.std.specs.Prelude.{◌≡◌, ◌+◌, ◌<◌, ℕ, All, IfOk, IsFalse, List, MatchOption, OnOk, length};
ghost use Rattle.tm_abs.specs.declared.atoms.Atom.{Atom as AtomData};
ghost use Rattle.tm_abs.specs.Inner.Atoms.{ReadsNone};
ghost use Rattle.tm_abs.specs.Inner.Joining.{IsJoining};

use crate::atoms::Atom;
use crate::marks::{count_marked, equal_marks, mark_levels, set_marks};
use std::alloc::{AllocError, Global};

/// Levels of a state that are quantified: a mark for each level of a state, and their list.
#[derive(Drop)]
pub(crate) struct Gone {
    pub(crate) marks: Vec<bool>,
    pub(crate) levels: Vec<u32>,
}

impl Gone {
    // Whether one of some levels is in it.
    fn has_one(&self, reads: &[u32]) -> bool
        ensures { IsFalse result → ReadsNone self.now.marks.items reads.now }
    {
        for level in reads {
            let at = *level as usize;
            if at < self.marks.len() && self.marks[at] {
                return true;
            }
        }
        false
    }

    // 0 where none of some levels is in it, and otherwise one more than how many of them have a mark.
    fn rank(&self, read: &[bool], reads: &[u32]) -> usize
        ensures { result ≡ 0 → ReadsNone self.now.marks.items reads.now }
    {
        if self.has_one(reads) {
            1 + count_marked(read, reads)
        } else {
            0
        }
    }
}

/// The levels that are quantified for a set, and the atoms that are joined to it.
#[derive(Drop)]
pub(crate) struct Joined {
    pub(crate) gone: Gone,
    pub(crate) atoms: Vec<Atom>,
}

// Joins atoms to a set that reads some levels. Those that are left over read no level that is quantified.
pub(crate) fn join(
    alloc: Global,
    free: &[bool],
    reads: &[u32],
    waiting: &mut Vec<Atom>,
) -> Result<Joined, AllocError>
    ensures joining { IfOk result (λ j. IsJoining free.now reads.now waiting.old.items j.gone.marks.items
        j.gone.levels.items j.atoms.items waiting.new.items) }
    ensures left { IfOk result (λ j. All (λ (a : AtomData). ReadsNone j.gone.marks.items a.reads.items)
        waiting.new.items) }
{
    let mut joined = join_none(alloc, free, reads)?;
    let mut read = equal_marks(alloc, false, free.len())?;
    while let Some(at) = next_joined(&joined.gone, &read, waiting) {
        set_marks(&mut read, &waiting[at].reads);
        join_at(free, at, &mut joined, waiting)?;
    }
    Ok(joined)
}

// Before any atom is joined.
fn join_none(alloc: Global, free: &[bool], reads: &[u32]) -> Result<Joined, AllocError>
    ensures { IfOk result (λ j. (waiting : List AtomData) → IsJoining free.now reads.now waiting j.gone.marks.items
        j.gone.levels.items j.atoms.items waiting) }
{
    let mut marks = equal_marks(alloc, false, free.len())?;
    let mut levels = Vec::new(alloc);
    mark_levels(free, reads, &mut marks, &mut levels)?;
    Ok(Joined {
        gone: Gone { marks, levels },
        atoms: Vec::new(alloc),
    })
}

// Joins the atom at a place.
fn join_at(
    free: &[bool],
    at: usize,
    joined: &mut Joined,
    waiting: &mut Vec<Atom>,
) -> Result<(), AllocError>
    requires at { at < length waiting.old.items }
    requires count { length joined.old.gone.marks.items ≡ length free.now }
    ensures fewer { length waiting.new.items + 1 ≡ length waiting.old.items }
    ensures joining { (reads : List ℕ) (first : List AtomData)
        → IsJoining free.now reads first joined.old.gone.marks.items joined.old.gone.levels.items
        joined.old.atoms.items waiting.old.items
        → OnOk result (IsJoining free.now reads first joined.new.gone.marks.items joined.new.gone.levels.items
        joined.new.atoms.items waiting.new.items) }
{
    let atom = waiting.swap_remove(at);
    mark_levels(
        free,
        &atom.reads,
        &mut joined.gone.marks,
        &mut joined.gone.levels,
    )?;
    joined.atoms.push(atom)?;
    Ok(())
}

// The atom that is joined next, of those that read a level that is quantified: one that reads the most levels that have
// a mark, which joined atoms read. So atoms of the same levels follow each other (a maximum cardinality search, Tarjan
// and Yannakakis 1984), and the turns, which go backwards, have few levels open at a time.
fn next_joined(gone: &Gone, read: &[bool], waiting: &[Atom]) -> Option<usize>
    ensures { MatchOption result
        (All (λ (a : AtomData). ReadsNone gone.now.marks.items a.reads.items) waiting.now)
        (λ at. at < length waiting.now) }
{
    let mut next = 0;
    let mut most = 0;
    for (at, atom) in waiting.iter().enumerate() {
        let rank = gone.rank(read, &atom.reads);
        if most < rank {
            next = at;
            most = rank;
        }
    }
    if most == 0 {
        return None;
    }
    Some(next)
}
