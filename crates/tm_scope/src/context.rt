//! The bodies of a template, by numbers.

/// A body of a template, by its number there, or none: goals and fairness conditions stand outside of all bodies.
#[derive(Clone, Copy, PartialEq, Eq, Hash, Debug)]
pub enum BodyName {
    Process(usize),
    Task(usize),
    Outside,
}
