//! What is found of a design.
use tm_refine::Trace;

/// The files of a driver, and the numbers that are reported of it.
#[derive(Drop)]
pub struct DriverFiles {
    /// The C text of its blocks.
    pub driver: Vec<u8>,
    /// The text of its certificate, in the weight order.
    pub cert: Vec<u8>,
    /// For each goal how many ranked regions it has.
    pub ranks: Vec<u64>,
    /// How many nodes the certificate lists.
    pub nodes: u64,
    /// The predicates over which it was found.
    pub trace: Trace,
}

/// The file of the environment, and the numbers that are reported of it.
#[derive(Drop)]
pub struct EnvironmentFiles {
    /// The text of its certificate, in the weight order.
    pub cert: Vec<u8>,
    /// How many levels it has.
    pub levels: u64,
    /// How many fairness conditions the design has.
    pub conditions: u64,
    /// How many sets its longest chain has.
    pub chain: u64,
    /// The predicates over which it was found.
    pub trace: Trace,
}

/// What is found of a design.
#[derive(Drop)]
pub enum Synthesis {
    Driver(DriverFiles),
    Environment(EnvironmentFiles),
    /// Neither was, and the budget of predicates is spent.
    Spent(Trace),
}
