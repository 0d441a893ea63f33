//! What is still wanted, copied into a new store.
ghost use Rattle.std.specs.Prelude.{◌≡◌, [], Contains, IfOk, OnErr, OnOk};
ghost use Rattle.tm_dd.specs.Reduced.{Extends, IsReduced};
ghost use Rattle.tm_dd.specs.Table.{Knows, kept};
ghost use Rattle.tm_dd.specs.declared.node.NodeId.{NodeId as Id};
ghost use Rattle.tm_ddops.specs.Copied.{AddsReached, AllReached, AreCopies, IsCopy, MeanTheSame};
ghost use Rattle.tm_ddops.specs.Manager.{IsManager};

use crate::manager::{Manager, empty_cache};
use crate::tables::Tables;
use std::alloc::{AllocError, Global};
use std::collections::HashMap;
use std::mem;
use tm_base::Steps;
use tm_dd::{NodeId, Store};

impl Manager {
    /// Keeps what the roots reach, and nothing else, in a new store.
    ///
    /// The roots mean what they meant, all earlier ids are void, and no result is remembered. After a refusal nothing
    /// has changed.
    pub fn copy_roots(&mut self, roots: &mut [NodeId]) -> Result<(), AllocError>
        requires known { (f : Id) → Contains roots.old f → Knows self.old.table f }

        ensures manager { IsManager self.new }
        ensures levels { self.new.table.levels ≡ self.old.table.levels }
        ensures ranks { self.new.table.ranks ≡ self.old.table.ranks }
        ensures same { OnOk result (MeanTheSame self.old.table roots.old self.new.table roots.new) }
        ensures reached { OnOk result (AllReached self.new.table roots.new) }
        ensures forgets { OnOk result (self.new.results ≡ []) }
        ensures refused { OnErr result (self.new ≡ self.old) }
        ensures refused_roots { OnErr result (roots.new ≡ roots.old) }
    {
        let ranks = given!(Vec::from_slice(self.alloc, self.store.ranks()));
        let mut store = given!(Store::arranged(self.alloc, self.store.levels(), ranks));
        let new_roots = given!(copies(self.alloc, &self.store, &mut store, roots), store);
        let cache = given!(empty_cache(self.alloc), new_roots, store);
        roots.copy_from_slice(&new_roots);
        drop(new_roots);
        let made = Manager {
            alloc: self.alloc,
            store,
            cache,
            tables: Tables::new(self.alloc),
        };
        drop(mem::replace(self, made));
        Ok(())
    }
}

/// The copies of some functions of one store in another one, which keeps no node yet.
fn copies(
    alloc: Global,
    from: &Store,
    to: &mut Store,
    roots: &[NodeId],
) -> Result<Vec<NodeId>, AllocError>
    requires from { IsReduced from.now }
    requires to { IsReduced to.old }
    requires levels { to.old.levels ≡ from.now.levels }
    requires ranks { to.old.ranks ≡ from.now.ranks }
    requires empty { kept to.old ≡ 0 }
    requires known { (f : Id) → Contains roots.now f → Knows from.now f }

    ensures reduced { IsReduced to.new }
    ensures levels { to.new.levels ≡ to.old.levels }
    ensures ranks { to.new.ranks ≡ to.old.ranks }
    ensures same { IfOk result (λ ids. MeanTheSame from.now roots.now to.new ids.items) }
    ensures reached { IfOk result (λ ids. AllReached to.new ids.items) }
{
    let mut found = HashMap::new(alloc);
    let mut ids = Vec::new(alloc);
    for root in roots {
        let id = copied(from, to, *root, &mut found)?;
        ids.push(id)?;
    }
    Ok(ids)
}

/// The copies that were made, by the ids of their functions.
type Found = HashMap<NodeId, NodeId>;

/// The copy of `f` from one store in the other.
fn copied(from: &Store, to: &mut Store, f: NodeId, found: &mut Found) -> Result<NodeId, AllocError>
    requires from { IsReduced from.now }
    requires to { IsReduced to.old }
    requires levels { to.old.levels ≡ from.now.levels }
    requires ranks { to.old.ranks ≡ from.now.ranks }
    requires known { Knows from.now f }
    requires found { AreCopies from.now to.old found.old }

    ensures extends { Extends to.old to.new }
    ensures reduced { IsReduced to.new }
    ensures found { AreCopies from.now to.new found.new }
    ensures answer { IfOk result (IsCopy from.now to.new f) }
    ensures reached { IfOk result (AddsReached to.old to.new) }
{
    if f.is_constant() {
        return Ok(f);
    }
    if let Some(known) = found.get(&f) {
        return Ok(*known);
    }
    let node = from.node(f);
    let lo = copied(from, to, node.lo, found)?;
    let hi = copied(from, to, node.hi, found)?;
    let id = to.make(node.level, lo, hi, &mut Steps::new(()))?;
    found.insert(f, id)?;
    Ok(id)
}
