//! What is found of an expression.
use tm_term::TermId;

/// The term of an expression's value, and the truth that it overruns, which is wanting where it never does.
#[derive(Clone, Copy, Debug)]
pub struct Valued {
    pub value: TermId,
    pub overrun: Option<TermId>,
}
