//! Members of templates, by numbers.

/// A variable, task or procedure: the number of its template, and its index among those of its sort there.
#[derive(Clone, Copy, PartialEq, Eq, Hash, Debug)]
pub struct Member {
    pub template: usize,
    pub index: usize,
}
