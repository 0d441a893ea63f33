//! States, moves and outcomes.
use smallvec::SmallVec;
use std::alloc::Global;
use std::marker::Model;

/// A state: a value for each state variable, a location for each process, and who moved last: 0 after a
/// stutter, 1 after the driver, and 2 more than a process's number after that process.
#[derive(Drop)]
pub struct State {
    pub values: Vec<u64>,
    pub places: Vec<u32>,
    pub last: u32,
}

impl Model for State {
    ghost use Rattle.tm_sem.specs.State.{StateData};

    ghost Value = { StateData };

    ghost view = { λ s. record { values = s.values.items; places = s.places.items; last = s.last } };
}

/// The arguments of a driver's call.
#[derive(Drop)]
pub struct Args {
    pub list: SmallVec<u64, 64, Global>,
}

impl Model for Args {
    ghost use Rattle.std.specs.Prelude.{ℕ, List};

    ghost Value = { List ℕ };

    ghost view = { λ a. a.list.items };
}

/// What an actor does: the environment lets time pass or lets a process run; the driver idles, leaves the magic block
/// at which a process stands, or calls a controllable task.
#[derive(Drop)]
pub enum Move {
    Stutter,
    Process(u32),
    Idle,
    Leave(u32),
    Call(u32, Args),
}

/// What a step leads to.
#[derive(Drop)]
pub enum Outcome {
    Next(State),
    Error,
    NoOutcome,
}
