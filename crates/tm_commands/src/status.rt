//! What the program answers.
ghost use Rattle.std.specs.Prelude.{◌≡◌};
ghost use Rattle.tm_commands.specs.Status.{outcome_of};

use tm_base::Name;
use tm_play::{PlayEnd, StopWhy};
use tm_refine::Trace;
use tm_report::{Bad, Ending, Failure, Ranks};
use tm_sem::state::State;
use tm_syntax::fault::Faulty;

/// How a command ended. A name is a file's; that of a failed write is empty where the output failed.
#[derive(Drop)]
pub enum Status {
    /// The choices were read to their end and are a play of so many steps.
    Played(u64),
    /// A driver was found over these predicates, and its files are written: it has so many ranked regions for each
    /// goal, and its certificate so many nodes.
    Driver {
        ranks: Ranks,
        trace: Trace,
        nodes: u64,
    },
    /// No driver exists, as these predicates show, and the file that shows it is written: so many levels, with a chain
    /// for each of so many fairness conditions; the longest chain has so many sets.
    Environment {
        levels: u64,
        conditions: u64,
        chain: u64,
        trace: Trace,
    },
    /// `n` predicates were added, as many as were allowed, and those that are tracked leave it undecided who wins.
    Budget {
        n: u32,
        trace: Trace,
    },
    /// The driver has its certificate, with so many ranked regions for each goal.
    Accepted {
        ranks: Ranks,
    },
    /// The environment has its certificate: so many levels, with a chain for each of so many fairness conditions; the
    /// longest chain has so many sets.
    AcceptedEnvironment {
        levels: u64,
        conditions: u64,
        chain: u64,
    },
    /// A condition of the certificate fails: the first, by number, with the goal and the state that are reported.
    Refused {
        condition: u8,
        goal: u32,
        state: State,
    },
    /// The specification of so many registers was written.
    Generated(u32),
    /// The certificate was written in format 2.
    Migrated,
    /// The structured driver was written: it has so many functions beside `driver_turn`.
    Structured(u64),
    /// The driver with `goto` was written: it has so many blocks.
    Unstructured(u64),
    /// The words have no reading.
    Usage,
    /// The specification has this fault.
    Faulty(Faulty),
    ReadFault(Name),
    WriteFault(Name),
    /// Memory ran out.
    Memory,
    BadText {
        file: Name,
        why: Bad,
    },
    /// The step of this number has no next state.
    Stopped {
        step: u64,
        why: StopWhy,
    },
}

impl Status {
    ghost use Rattle.tm_commands.specs.Status.{code_of};

    /// The code with which the program ends. It takes no memory.
    pub fn code(&self) -> u8
        ensures { result ≡ code_of self.now }
    {
        match self {
            Status::Driver { .. } => 0,
            Status::Played(_) => 0,
            Status::Accepted { .. } => 0,
            Status::AcceptedEnvironment { .. } => 0,
            Status::Generated(_) => 0,
            Status::Migrated => 0,
            Status::Structured(_) => 0,
            Status::Unstructured(_) => 0,
            Status::Environment { .. } => 1,
            Status::Refused { .. } => 1,
            Status::Usage => 2,
            Status::Faulty(_) => 3,
            Status::Budget { .. } => 4,
            Status::ReadFault(_) => 5,
            Status::WriteFault(_) => 6,
            Status::Memory => 7,
            Status::BadText { .. } => 8,
            Status::Stopped { .. } => 9,
        }
    }
}

/// The status that tells an end or a failure.
pub fn status_of(outcome: Result<Ending, Failure>) -> Status
    ensures { outcome_of result ≡ outcome }
{
    match outcome {
        Ok(Ending::Usage) => Status::Usage,
        Ok(Ending::Faulty(fault)) => Status::Faulty(fault),
        Ok(Ending::Play(PlayEnd::Played(steps))) => Status::Played(steps),
        Ok(Ending::Play(PlayEnd::Stopped { step, why })) => Status::Stopped { step, why },
        Ok(
            Ending::Driver {
                ranks,
                trace,
                nodes,
            },
        ) => Status::Driver {
            ranks,
            trace,
            nodes,
        },
        Ok(
            Ending::Environment {
                levels,
                conditions,
                chain,
                trace,
            },
        ) => Status::Environment {
            levels,
            conditions,
            chain,
            trace,
        },
        Ok(Ending::Budget { budget, trace }) => Status::Budget { n: budget, trace },
        Ok(Ending::Accepted { ranks }) => Status::Accepted { ranks },
        Ok(
            Ending::AcceptedEnvironment {
                levels,
                conditions,
                chain,
            },
        ) => Status::AcceptedEnvironment {
            levels,
            conditions,
            chain,
        },
        Ok(
            Ending::Refused {
                condition,
                goal,
                state,
            },
        ) => Status::Refused {
            condition,
            goal,
            state,
        },
        Ok(Ending::Generated(registers)) => Status::Generated(registers),
        Ok(Ending::Migrated) => Status::Migrated,
        Ok(Ending::Structured(functions)) => Status::Structured(functions),
        Ok(Ending::Unstructured(blocks)) => Status::Unstructured(blocks),
        Ok(Ending::BadText { file, why }) => Status::BadText { file, why },
        Err(Failure::ReadFault(name)) => Status::ReadFault(name),
        Err(Failure::WriteFault(name)) => Status::WriteFault(name),
        Err(Failure::Memory) => Status::Memory,
    }
}
