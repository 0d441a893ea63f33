//! What is reached from a diagram: its size.
ghost use Rattle.std.specs.Prelude.{IfOk, OnOk};
ghost use Rattle.tm_dd.specs.Table.{Knows};
ghost use Rattle.tm_ddops.specs.Reached.{HasSize, IsGathered, IsInnerNodes};

use crate::manager::Manager;
use std::alloc::{AllocError, Global};
use std::collections::HashSet;
use std::hash::BuildHasherDefault;
use tm_dd::{NodeId, NumberHasher, Store};

/// For how many ids there is room from the start: many functions reach fewer.
const ROOM: usize = 512;

/// Ids of inner nodes.
pub(crate) type Inner = HashSet<NodeId, BuildHasherDefault<NumberHasher>>;

impl Manager {
    /// How many ids of inner nodes are reached from `f`.
    pub fn size(&self, f: NodeId) -> Result<u64, AllocError>
        requires { Knows self.now.table f }
        ensures { IfOk result (HasSize self.now.table f) }
    {
        let inner = inner_nodes(self.alloc, &self.store, f)?;
        Ok(inner.len() as u64)
    }
}

/// The ids of inner nodes that are reached from `f`.
pub(crate) fn inner_nodes(alloc: Global, store: &Store, f: NodeId) -> Result<Inner, AllocError>
    requires { Knows store.now f }
    ensures { IfOk result (λ inner. IsInnerNodes store.now f inner.keys) }
{
    let mut inner = HashSet::with_capacity_and_hasher(alloc, ROOM, BuildHasherDefault::new())?;
    gather(store, f, &mut inner)?;
    prove!(inner.len() < usize::MAX);
    Ok(inner)
}

/// Adds the ids of inner nodes that are reached from `f`, and goes on from an id only where it is new.
fn gather(store: &Store, f: NodeId, inner: &mut Inner) -> Result<(), AllocError>
    requires { Knows store.now f }
    ensures { OnOk result (IsGathered store.now f inner.old.keys inner.new.keys) }
{
    if f.is_constant() || !inner.insert(f)? {
        return Ok(());
    }
    let node = store.node(f);
    gather(store, node.lo, inner)?;
    gather(store, node.hi, inner)
}
