//! `F4`: names that no declaration gives in their scope.

mod bodies;
mod declared;
mod exprs;
mod text;

pub(crate) use text::first_unknown;
