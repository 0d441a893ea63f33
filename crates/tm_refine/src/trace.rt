//! What was decided, and which predicates were tracked for it.
use tm_sem::state::State;
use tm_solve::Iterates;

/// A predicate that was added, and why: it is the first of the pool that tells two states apart, which are in one cell
/// of the predicates tracked before it.
#[derive(Drop)]
pub struct Added {
    /// The number of the predicate in the pool.
    pub predicate: u32,
    pub left: State,
    pub right: State,
}

/// The predicates that were tracked: the first ones of the pool, and then those that were added, in order.
#[derive(Drop)]
pub struct Trace {
    /// How many predicates of the pool are tracked from the start: the atoms of goals and declared fairness conditions.
    pub first: u32,
    pub added: Vec<Added>,
}

/// What was decided.
#[derive(Drop)]
pub enum Decision {
    /// The driver wins: the ranked sets of the solution are its certificate.
    Driver(Iterates, Trace),
    /// The environment wins: the levels of the solution are its certificate.
    Environment(Iterates, Trace),
    /// As many predicates were added as the budget allows, and they leave the design undecided.
    Spent(Trace),
}
