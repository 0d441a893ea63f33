//! What stands in both kinds of certificate.

/// The formats of a certificate. The first one has no order.
#[derive(Clone, Copy)]
pub enum Format {
    First,
    Second,
}

/// Whose certificate it is.
#[derive(Clone, Copy)]
pub enum Side {
    Driver,
    Environment,
}
