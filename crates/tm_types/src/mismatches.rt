//! `F6`: types, sorts of names, numbers of arguments and results that do not fit.

mod asked;
mod bodies;
mod calls;
mod declared;
mod exprs;
mod findings;
mod heads;
mod instances;
mod operators;
mod text;
mod wanted;

pub(crate) use text::first_mismatch;
