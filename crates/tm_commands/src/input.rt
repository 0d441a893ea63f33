//! What a command reads: its files, each judged before the next one is read.

pub mod certificate;
pub mod driver;
pub mod environment;
pub mod file;
pub mod load;
pub mod migration;
pub mod specification;
pub mod structure;
pub mod unstructure;
