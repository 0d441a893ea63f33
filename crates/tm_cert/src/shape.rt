//! What a certificate has to fit.

/// The kind of certificate that a command wants.
#[derive(Clone, Copy, PartialEq, Eq)]
pub enum Kind {
    Driver,
    Environment,
    Either,
}

/// The numbers of a design that its certificates speak of, and the kind of certificate that is wanted.
#[derive(Clone, Copy)]
pub struct CertShape {
    /// How many state bits.
    pub bits: u32,
    pub goals: u32,
    /// How many fairness conditions.
    pub fairs: u32,
    pub wanted: Kind,
}
