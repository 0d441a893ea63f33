//! What a name is declared as.

use tm_syntax::tree::{Ident, Template};

/// What a name is declared as.
#[derive(Clone, Copy)]
pub enum Sort<'a> {
    /// A parameter or local of a body.
    Slot,
    /// An instance or port, of the template of this name.
    Neighbor(&'a Ident),
    Variable,
    Array,
    /// A task or procedure.
    Task,
    /// A goal, a fairness condition or a process.
    Part,
    Constant,
    Enum,
    /// A template, with its number.
    Template(usize, &'a Template),
}

/// A name where it is declared.
#[derive(Clone, Copy)]
pub(crate) struct Declared<'a> {
    pub(crate) name: &'a Ident,
    pub(crate) sort: Sort<'a>,
}
