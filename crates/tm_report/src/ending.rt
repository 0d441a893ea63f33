//! How a command ends, and what may come before its end.

use std::alloc::AllocError;
use std::marker::Model;
use tm_base::Name;
use tm_cert::BadCert;
use tm_cparse::BadDriver;
use tm_play::PlayEnd;
use tm_refine::Trace;
use tm_sem::state::State;
use tm_struct_parse::BadStructured;
use tm_syntax::fault::Faulty;

/// Why a text has no reading.
#[derive(Drop)]
pub enum Bad {
    TooLong,
    /// The first fault of a text of a driver.
    Driver(BadDriver),
    /// The first fault of a text of a structured driver.
    Structured(BadStructured),
    /// The first fault of a text of a certificate.
    Cert(BadCert),
    /// The number of the first bad line of a text of choices.
    Choices(u64),
}

/// For each goal of a driver's certificate the number of its ranked regions.
#[derive(Drop)]
pub struct Ranks {
    pub list: Vec<u64>,
}

impl Model for Ranks {
    ghost use Rattle.std.specs.Prelude.{ℕ, List};

    ghost Value = { List ℕ };

    ghost view = { λ r. r.list.items };
}

/// How a command ends: what the words and the files determine. A name is a file's.
#[derive(Drop)]
pub enum Ending {
    /// The words have no reading.
    Usage,
    /// The specification has this fault.
    Faulty(Faulty),
    /// The choices were played to this end.
    Play(PlayEnd),
    /// A driver was found over these predicates, and its files are written: it has so many ranked regions for each
    /// goal, and its certificate so many nodes.
    Driver {
        ranks: Ranks,
        trace: Trace,
        nodes: u64,
    },
    /// No driver exists, as these predicates show, and the file that shows it is written: so many levels, with a chain
    /// for each of so many fairness conditions; the longest chain has so many sets.
    Environment {
        levels: u64,
        conditions: u64,
        chain: u64,
        trace: Trace,
    },
    /// So many predicates were added as were allowed, and those that are tracked leave it undecided who wins.
    Budget {
        budget: u32,
        trace: Trace,
    },
    /// The driver has its certificate: every condition holds.
    Accepted {
        ranks: Ranks,
    },
    /// The environment has its certificate: every condition holds. So many levels, with a chain for each of so many
    /// fairness conditions; the longest chain has so many sets.
    AcceptedEnvironment {
        levels: u64,
        conditions: u64,
        chain: u64,
    },
    /// A condition fails: the first, by number, with the goal and the state that are reported.
    Refused {
        condition: u8,
        goal: u32,
        state: State,
    },
    /// The specification of so many registers was generated.
    Generated(u32),
    /// The certificate was written in format 2.
    Migrated,
    /// The structured driver was written: it has so many functions beside `driver_turn`.
    Structured(u64),
    /// The driver with `goto` was written: it has so many blocks.
    Unstructured(u64),
    BadText {
        file: Name,
        why: Bad,
    },
}

/// What may come before the end: what the words and the files do not determine.
#[derive(Drop)]
pub enum Failure {
    ReadFault(Name),
    /// The name is empty where the output failed.
    WriteFault(Name),
    /// Memory ran out.
    Memory,
}

impl From<AllocError> for Failure {
    ghost use Rattle.std.specs.Prelude.{◌≡◌};
    ghost use Rattle.tm_report.specs.declared.ending.Failure.TheVariants.{Memory};

    ghost from_gives = { λ _ failure. failure ≡ Memory };

    fn from(_error: AllocError) -> Failure {
        Failure::Memory
    }
}
