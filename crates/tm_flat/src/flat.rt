//! A design as guarded updates, and each of its steps.
use tm_term::TermId;

/// A step as a guarded update over the inputs: it has an outcome where `legal` is 1, which is an error where `error` is
/// 1, and else the state that `next` gives: a term for each state variable, for the location of each process, and for
/// who moved last, in the order of the inputs. A number that the step leaves alone is its input.
#[derive(Drop)]
pub struct FlatStep {
    pub legal: TermId,
    pub error: TermId,
    pub next: Vec<TermId>,
}

/// A design as terms over a state, 64 bits of choices and 64 bits of arguments: a step for each process and location
/// and for each controllable task, the widths of the parameters of these tasks, which locations are magic blocks, goals
/// and fairness conditions, the initial and the valid states, the pool of predicates with the number of those that the
/// abstraction begins with, and the widths of the inputs.
#[derive(Drop)]
pub struct Flat {
    pub processes: Vec<Vec<FlatStep>>,
    pub tasks: Vec<FlatStep>,
    pub parameters: Vec<Vec<u8>>,
    pub magic: Vec<Vec<bool>>,
    pub goals: Vec<TermId>,
    pub fairs: Vec<TermId>,
    pub initial: TermId,
    pub valid: TermId,
    pub pool: Vec<TermId>,
    pub first: u32,
    pub widths: Vec<u8>,
}
