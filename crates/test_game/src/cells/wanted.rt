//! The parts of a set that are wanted, by the definition.

use super::grid::{Grid, Spot};
use crate::states::{Formula, is_at};
use std::alloc::{AllocError, Global};

/// How many cells are told apart: those of lists of at most ten predicates.
const CELLS: usize = 1024;

/// Of each word its cell, and whether it is that of a valid state in a set, or of one outside; of each cell whether it
/// has a valid state in the set, and whether it has one outside.
#[derive(Drop)]
pub struct Wanted {
    cells: Vec<usize>,
    inside: Vec<bool>,
    outside: Vec<bool>,
    meeting: Vec<bool>,
    leaving: Vec<bool>,
}

/// The cell of a state: its predicates of these numbers as the bits of a number.
fn cell_of(predicates: &[bool], tracked: &[u32]) -> usize {
    let mut cell = 0usize;
    for number in tracked {
        let holds = is_at(predicates, *number as usize);
        cell = cell.saturating_mul(2).saturating_add(usize::from(holds));
    }
    cell
}

/// Marks a cell, if it is to be.
fn mark(marks: &mut [bool], cell: usize, is_marked: bool) {
    if let Some(mark) = marks.get_mut(cell) {
        *mark = *mark || is_marked;
    }
}

impl Wanted {
    /// What is wanted of the set of a formula over the cells of these predicates.
    pub fn of(
        alloc: Global,
        grid: &Grid,
        tracked: &[u32],
        formula: &Formula,
    ) -> Result<Wanted, AllocError> {
        let mut wanted = Wanted {
            cells: Vec::new(alloc),
            inside: Vec::new(alloc),
            outside: Vec::new(alloc),
            meeting: vec![in alloc; false; CELLS]?,
            leaving: vec![in alloc; false; CELLS]?,
        };
        for spot in &grid.spots {
            wanted.take(spot, tracked, formula)?;
        }
        Ok(wanted)
    }

    // Takes in the state of the next word.
    fn take(&mut self, spot: &Spot, tracked: &[u32], formula: &Formula) -> Result<(), AllocError> {
        let cell = cell_of(&spot.predicates, tracked);
        let holds = formula.holds(&spot.levels);
        let is_inside = spot.is_valid && holds;
        let is_outside = spot.is_valid && !holds;
        mark(&mut self.meeting, cell, is_inside);
        mark(&mut self.leaving, cell, is_outside);
        self.cells.push(cell)?;
        self.inside.push(is_inside)?;
        self.outside.push(is_outside)?;
        Ok(())
    }

    // The cell of a word.
    fn cell_at(&self, word: usize) -> usize {
        self.cells.get(word).copied().unwrap_or(0)
    }

    // Whether a word is that of a valid state in a cell of which this mark is the one that is told.
    fn has_mark(&self, word: usize, marks: &[bool], mark: bool) -> bool {
        let is_valid = is_at(&self.inside, word) || is_at(&self.outside, word);
        is_valid && is_at(marks, self.cell_at(word)) == mark
    }

    /// Whether a word is that of a valid state whose cell lies in the set.
    pub fn is_lower(&self, word: usize) -> bool {
        self.has_mark(word, &self.leaving, false)
    }

    /// Whether a word is that of a valid state whose cell meets the set.
    pub fn is_upper(&self, word: usize) -> bool {
        self.has_mark(word, &self.meeting, true)
    }

    /// Whether the set cuts a cell.
    pub fn is_cut(&self) -> bool {
        for (cell, meets) in self.meeting.iter().enumerate() {
            if *meets && is_at(&self.leaving, cell) {
                return true;
            }
        }
        false
    }

    /// Whether two words are those of valid states of one cell, the first in the set and the second not.
    pub fn is_cut_by(&self, inside: usize, outside: usize) -> bool {
        let are_one = self.cell_at(inside) == self.cell_at(outside);
        are_one && is_at(&self.inside, inside) && is_at(&self.outside, outside)
    }
}
