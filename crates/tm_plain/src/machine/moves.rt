//! The steps that moves make.
ghost use Rattle.std.specs.Prelude.{◌≡◌, ◌<◌, ◌+◌, [], IfOk, length, slice_index, slice_set};
ghost use Rattle.tm_syntax.specs.Design.{DesignTree};
ghost use Rattle.tm_syntax.specs.Design.View.{design_tree};
ghost use Rattle.tm_scope.specs.Cells.{CellTables};
ghost use Rattle.tm_sem.specs.Step.{Comes, IsState, LeadsToState, Step, memory_of};
ghost use Rattle.tm_sem.specs.Value as run;
ghost use Rattle.tm_sem.specs.declared.state.Outcome.TheVariants as outcomes;
ghost use Rattle.tm_plain_exprs.specs.Kept.{Keeps};
ghost use Rattle.tm_plain.specs.Ends.{still, work_from};

use crate::machine::Machine;
use crate::machine::places::place_of;
use crate::machine::rests::End;
use std::alloc::{AllocError, Global};
use tm_plain_bodies::Course;
use tm_plain_exprs::Store;
use tm_scope::{BodyName, CellNumber, SiteBody};
use tm_sem::state::{Move, Outcome, State};

// The beginning of what a move does at a state, with these choices.
pub(crate) fn begin(alloc: Global, state: &State, choices: &[u64]) -> Result<Course, AllocError>
    ensures keeps { IfOk result (λ c. (x : CellTables) → Keeps x c.store (memory_of state.now)) }
    ensures trail { IfOk result (λ c. c.trail ≡ []) }
    ensures choices { IfOk result (λ c. c.choices ≡ choices.now) }
{
    match Vec::from_slice(alloc, state.values.as_slice()) {
        Ok(values) => Course::new(alloc, values, choices),
        Err(error) => Err(error),
    }
}

// The values of the state variables, of which a memory has so many.
fn values_of(alloc: Global, store: &Store, count: usize) -> Result<Vec<u64>, AllocError>
    ensures { (x : CellTables) (m : run.Memory) → Keeps x store.now m → length m.values ≡ count
        → IfOk result (λ values. values.items ≡ m.values) }
{
    let at = SiteBody {
        instance: 0,
        body: BodyName::Outside,
    };
    let mut values = Vec::new(alloc);
    for number in 0..count {
        values.push(store.read(at, CellNumber::State(number)))?;
    }
    Ok(values)
}

// The state in which a run has left so many variables, with these locations of processes.
pub(crate) fn left_state(
    alloc: Global,
    course: &Course,
    count: usize,
    places: Vec<u32>,
    last: u32,
) -> Result<Outcome, AllocError>
    ensures { (x : CellTables) (m : run.Memory) → Keeps x course.now.store m → length m.values ≡ count
        → IfOk result (λ o. o ≡ outcomes.Next
        (record { values = m.values; places = places.items; last = last })) }
{
    let values = values_of(alloc, &course.store, count)?;
    Ok(Outcome::Next(State {
        values,
        places,
        last,
    }))
}

// A state that differs in who moved last alone: there is nothing to be done, and no choice to be taken.
fn stay(alloc: Global, state: &State, last: u32, choices: &[u64]) -> Result<Outcome, AllocError>
    ensures { (d : DesignTree) → IfOk result (Comes d state.now (still state.now last) choices.now) }
{
    if !choices.is_empty() {
        return Ok(Outcome::NoOutcome);
    }
    let values = Vec::from_slice(alloc, state.values.as_slice())?;
    let places = Vec::from_slice(alloc, state.places.as_slice())?;
    Ok(Outcome::Next(State {
        values,
        places,
        last,
    }))
}

// The locations of the processes of a state, of which one has moved.
fn places_after(
    alloc: Global,
    state: &State,
    process: usize,
    place: u32,
) -> Result<Vec<u32>, AllocError>
    ensures { IfOk result (λ places. places.items ≡ slice_set state.now.places process place) }
{
    let mut places = Vec::from_slice(alloc, state.places.as_slice())?;
    if process < places.len() {
        places[process] = place;
    }
    Ok(places)
}

// The state in which a run has left the variables of a state, with a process of which this is the location now.
fn moved(
    alloc: Global,
    state: &State,
    course: &Course,
    process: usize,
    place: u32,
    last: u32,
) -> Result<Outcome, AllocError>
    ensures { (x : CellTables) (m : run.Memory) → Keeps x course.now.store m
        → length m.values ≡ length state.now.values
        → IfOk result (λ o. o ≡ outcomes.Next
        (record { values = m.values; places = slice_set state.now.places process place; last = last })) }
{
    match places_after(alloc, state, process, place) {
        Ok(places) => left_state(alloc, course, state.values.len(), places, last),
        Err(error) => Err(error),
    }
}

impl<'s> Machine<'s> {
    // What a process does from its location.
    fn move_process(
        &self,
        alloc: Global,
        state: &State,
        process: u32,
        last: u32,
        choices: &[u64],
    ) -> Result<Outcome, AllocError>
        requires { process < length self.now.processes.items }
        ensures { IfOk result (Comes (design_tree self.now) state.now
            (work_from (design_tree self.now) state.now process (slice_index state.now.places process) last)
            choices.now) }
    {
        let number = process as usize;
        prove!(number < self.locations.len());
        let mut course = match begin(alloc, state, choices) {
            Ok(course) => course,
            Err(error) => return Err(error),
        };
        match self.perform_rest(number, place_of(state, number), &mut course) {
            Ok(end) => match end {
                End::At(place) => {
                    let outcome = moved(alloc, state, &course, number, place as u32, last);
                    drop(course);
                    outcome
                }
                End::Failed => {
                    drop(course);
                    Ok(Outcome::Error)
                }
                End::Blocked => {
                    drop(course);
                    Ok(Outcome::NoOutcome)
                }
            },
            Err(error) => {
                drop(course);
                Err(error)
            }
        }
    }

    // A process runs from its location.
    fn run_process(
        &self,
        alloc: Global,
        state: &State,
        process: u32,
        choices: &[u64],
    ) -> Result<Outcome, AllocError>
        requires { process < length self.now.processes.items }
        ensures { IfOk result (Comes (design_tree self.now) state.now
            (work_from (design_tree self.now) state.now process (slice_index state.now.places process) (2 + process))
            choices.now) }
    {
        prove!((process as usize) < self.locations.len());
        self.move_process(alloc, state, process, 2 + process, choices)
    }

    // What a move with these choices leads to.
    fn make_move(
        &self,
        alloc: Global,
        state: &State,
        action: &Move,
        choices: &[u64],
    ) -> Result<Outcome, AllocError>
        ensures { IfOk result (Step (design_tree self.now) state.now action.now choices.now) }
    {
        let permitted = self.permits(alloc, state, action)?;
        if !permitted {
            return Ok(Outcome::NoOutcome);
        }
        match action {
            Move::Stutter => stay(alloc, state, 0, choices),
            Move::Process(process) => self.run_process(alloc, state, *process, choices),
            Move::Idle => stay(alloc, state, 1, choices),
            Move::Leave(process) => self.move_process(alloc, state, *process, 1, choices),
            Move::Call(task, args) => {
                self.call_task(alloc, state, *task, args.list.as_slice(), choices)
            }
        }
    }

    /// What a move with these choices leads to at a state: to a valid one, if this one is valid. Linear in the
    /// processes and in what the move does. `AllocError` is want of memory.
    pub fn step(
        &self,
        alloc: Global,
        state: &State,
        action: &Move,
        choices: &[u64],
    ) -> Result<Outcome, AllocError>
        ensures outcome { IfOk result (Step (design_tree self.now) state.now action.now choices.now) }
        ensures valid { IsState (design_tree self.now) state.now → IfOk result (LeadsToState (design_tree self.now)) }
    {
        prove!(self.locations.len() == self.design.processes.len());
        self.make_move(alloc, state, action, choices)
    }
}
