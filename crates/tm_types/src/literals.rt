//! `F7`: numbers that do not fit their type or their place.

mod declared;
mod exprs;
mod fits;
mod text;

pub(crate) use text::first_misfit;
