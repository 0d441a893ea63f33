//! The states of a design, and what their moves lead to by the interpreter.

use super::moves::Asked;
use crate::states::{Fields, is_at};
use crate::steps::{Led, Reach, runs, state_of};
use std::alloc::{AllocError, Global};
use tm_plain::Machine;
use tm_sem::state::State;

/// What a move leads to over all choices: whether it is the driver's, whether it has an outcome, whether one is an
/// error, and the words of the next states.
#[derive(Drop)]
struct Leads {
    is_driver: bool,
    has_outcome: bool,
    errs: bool,
    next: Vec<u64>,
}

/// A valid state, whether the driver can be picked there, which goals hold, and what each move leads to.
#[derive(Drop)]
pub struct Place {
    pub state: State,
    pub is_turn: bool,
    pub goals: Vec<bool>,
    leads: Vec<Leads>,
}

impl Leads {
    /// What these outcomes come to.
    fn of(
        alloc: Global,
        fields: &Fields,
        is_driver: bool,
        led: &[Led],
    ) -> Result<Leads, AllocError> {
        let mut errs = false;
        let mut next = Vec::new(alloc);
        for one in led {
            match one {
                Some(numbers) => next.push(fields.join(numbers))?,
                None => errs = true,
            }
        }
        Ok(Leads {
            is_driver,
            has_outcome: !led.is_empty(),
            errs,
            next,
        })
    }

    /// Whether the move errs for no choices, and ends in a set.
    fn keeps(&self, members: &[bool]) -> bool {
        for word in &self.next {
            if !is_at(members, *word as usize) {
                return false;
            }
        }
        !self.errs
    }

    /// Whether the move has an outcome, errs for no choices, and ends in a set.
    fn is_good(&self, members: &[bool]) -> bool {
        self.has_outcome && self.keeps(members)
    }
}

impl Place {
    /// Whether no move of the environment errs or leaves a set.
    pub fn is_calm(&self, members: &[bool]) -> bool {
        for leads in &self.leads {
            if !leads.is_driver && !leads.keeps(members) {
                return false;
            }
        }
        true
    }

    // Whether some move of the driver is good.
    fn has_good(&self, members: &[bool]) -> bool {
        for leads in &self.leads {
            if leads.is_driver && leads.is_good(members) {
                return true;
            }
        }
        false
    }

    /// Whether the move of a number is the driver's and has an outcome.
    pub fn may_make(&self, number: usize) -> bool {
        match self.leads.get(number) {
            Some(leads) => leads.is_driver && leads.has_outcome,
            None => false,
        }
    }

    /// Whether the move of a number is good.
    pub fn is_good(&self, number: usize, members: &[bool]) -> bool {
        match self.leads.get(number) {
            Some(leads) => leads.is_good(members),
            None => false,
        }
    }

    /// Whether the driver stays in a set.
    pub fn stays(&self, members: &[bool]) -> bool {
        self.is_calm(members) && (!self.is_turn || self.has_good(members))
    }
}

/// Whether a goal holds at a state, if there is one of this number.
fn has_goal(
    alloc: Global,
    machine: &Machine,
    state: &State,
    goal: usize,
) -> Result<bool, AllocError> {
    if goal < machine.design().goals.len() && goal <= u32::MAX as usize {
        machine.holds(alloc, state, goal as u32)
    } else {
        Ok(false)
    }
}

/// Which goals hold at a state.
fn goals_at(alloc: Global, machine: &Machine, state: &State) -> Result<Vec<bool>, AllocError> {
    let mut goals = Vec::new(alloc);
    for goal in 0..machine.design().goals.len() {
        goals.push(has_goal(alloc, machine, state, goal)?)?;
    }
    Ok(goals)
}

/// What moves lead to from a state.
fn leads_at(
    alloc: Global,
    machine: &Machine,
    fields: &Fields,
    state: &State,
    moves: &[Asked],
    reach: Reach,
) -> Result<Vec<Leads>, AllocError> {
    let mut leads = Vec::new(alloc);
    for asked in moves {
        let led = runs(alloc, machine, state, &asked.action, reach)?;
        leads.push(Leads::of(alloc, fields, asked.shape.is_some(), &led)?)?;
    }
    Ok(leads)
}

/// The state of a word with what moves lead to, if it is a valid one.
pub fn place_at(
    alloc: Global,
    machine: &Machine,
    fields: &Fields,
    moves: &[Asked],
    reach: Reach,
    word: u64,
) -> Result<Option<Place>, AllocError> {
    let state = state_of(alloc, machine, &fields.split(alloc, word)?)?;
    if !machine.fits(&state) {
        return Ok(None);
    }
    let goals = goals_at(alloc, machine, &state)?;
    let leads = leads_at(alloc, machine, fields, &state, moves, reach)?;
    let is_turn = machine.magic(&state);
    Ok(Some(Place {
        state,
        is_turn,
        goals,
        leads,
    }))
}
