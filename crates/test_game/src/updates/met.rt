//! What plays meet, and where they go on.

use crate::steps::{Draw, Led};
use std::alloc::{AllocError, Global};
use std::collections::BTreeSet;
use tm_flat::Flat;
use tm_sem::state::Move;

/// What plays have met: the locations at which processes stood, the tasks that led to a state, and how many moves, next
/// states, errors and moves without an outcome there were.
#[derive(Drop)]
pub struct Met {
    draw: Draw,
    /// One of the next states of each move of this round that has one.
    next: Vec<Vec<u64>>,
    places: BTreeSet<(usize, u32)>,
    tasks: BTreeSet<u32>,
    moves: u64,
    states: u64,
    errors: u64,
    idle: u64,
}

/// How many are no error.
fn count_states(led: &[Led]) -> u64 {
    let mut found = 0u64;
    for one in led {
        found = found.saturating_add(u64::from(one.is_some()));
    }
    found
}

impl Met {
    /// Nothing yet.
    pub fn new(alloc: Global) -> Met {
        Met {
            draw: Draw::new(1),
            next: Vec::new(alloc),
            places: BTreeSet::new(alloc),
            tasks: BTreeSet::new(alloc),
            moves: 0,
            states: 0,
            errors: 0,
            idle: 0,
        }
    }

    /// A word of arguments that is drawn, bit by bit.
    pub fn drawn_word(&mut self) -> u64 {
        let mut word = 0u64;
        for _ in 0..u64::BITS {
            word = (word << 1) | (self.draw.below(2) as u64);
        }
        word
    }

    /// Begins a round: processes stand at these locations.
    pub fn stand(&mut self, places: &[u32]) -> Result<(), AllocError> {
        self.next.clear();
        for (process, place) in places.iter().enumerate() {
            self.places.insert((process, *place))?;
        }
        Ok(())
    }

    /// A move leads so. One of the next states is drawn.
    pub fn lead(&mut self, alloc: Global, action: &Move, led: &[Led]) -> Result<(), AllocError> {
        let states = count_states(led);
        let errors = (led.len() as u64).saturating_sub(states);
        self.moves = self.moves.saturating_add(1);
        self.states = self.states.saturating_add(states);
        self.errors = self.errors.saturating_add(errors);
        self.idle = self.idle.saturating_add(u64::from(led.is_empty()));
        if let Move::Call(task, _) = action
            && states > 0
        {
            self.tasks.insert(*task)?;
        }
        self.push_next(alloc, led)
    }

    // Keeps one of the next states that is drawn, if it is a state.
    fn push_next(&mut self, alloc: Global, led: &[Led]) -> Result<(), AllocError> {
        if let Some(Some(numbers)) = led.get(self.draw.below(led.len())) {
            self.next.push(Vec::from_slice(alloc, numbers)?)?;
        }
        Ok(())
    }

    /// One of the next states of a round that is drawn, if there is one.
    pub fn drawn_next(&mut self) -> Option<Vec<u64>> {
        let place = self.draw.below(self.next.len());
        if place >= self.next.len() {
            return None;
        }
        Some(self.next.swap_remove(place))
    }

    /// What was met of a design, as text.
    pub fn text(&self, alloc: Global, flat: &Flat) -> Result<String, AllocError> {
        let mut places = 0usize;
        for steps in &flat.processes {
            places = places.saturating_add(steps.len());
        }
        format!(in alloc;
            "{} moves: {} states, {} errors, {} none; {} of {places} locations, {} of {} tasks",
            self.moves,
            self.states,
            self.errors,
            self.idle,
            self.places.len(),
            self.tasks.len(),
            flat.tasks.len()
        )
    }
}
