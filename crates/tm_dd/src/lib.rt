//! The store of decision diagrams: the unique table of a reduced ordered binary decision diagram with complement marks.
#![tactic(auto)]

mod hasher;
mod node;
mod store;

pub use hasher::NumberHasher;
pub use node::{FALSE, Node, NodeId, TRUE, mixed};
pub use store::Store;
