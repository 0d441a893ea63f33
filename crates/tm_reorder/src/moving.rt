//! The sets of a certificate as diagrams over the levels of another order.
ghost use Rattle.std.specs.Prelude.{◌≡◌, ◌+◌, ◌<◌, ℕ, All, Bool, IfOk, IfSome, List, if◌then◌else◌, length, slice_index_or};
ghost use Rattle.tm_cert.specs.declared.cert.Entry.{Entry as Node};
ghost use Rattle.tm_cert.specs.Nodes.{ids_of};
ghost use Rattle.tm_dd.specs.Reduced.{Extends, IsReduced};
ghost use Rattle.tm_dd.specs.Table.{Knows, Table, means};
ghost use Rattle.tm_dd.specs.declared.node.TheConstants.{FALSE as never};
ghost use Rattle.tm_ddops.specs.Manager.{IsFunction};
ghost use Rattle.tm_reorder.specs.Inner.Clamped.{AreBits};
ghost use Rattle.tm_reorder.specs.Inner.Keys.{AreFound, AreKeyed};
ghost use Rattle.tm_reorder.specs.Inner.Moved.{AreMoved, IsValueAbove, seen};
ghost use Rattle.tm_reorder.specs.Inner.Raised.{AreBranches};
ghost use Rattle.tm_verdict.specs.Fitting.{AreNodes};

use crate::raising::all_raised;
use std::alloc::{AllocError, Global};
use tm_base::Steps;
use tm_cert::Entry;
use tm_dd::{FALSE, NodeId, Store, TRUE};
use tm_ddops::Manager;

// The diagrams of the ids of a certificate that are sets, each at its id, where `bits` has the diagram of each place's
// bit. Levels are raised first, where ranks are given, so that entries mostly stand above their children then.
pub(crate) fn load_sets(
    alloc: Global,
    dd: &mut Manager,
    nodes: &[Entry],
    order: &[u32],
    bits: &[NodeId],
    keys: &[u64],
    ranks: &[u32],
) -> Result<Vec<NodeId>, AllocError>
    requires nodes { (count : ℕ) × AreNodes count nodes.now }
    requires bits { AreBits dd.old.table bits.now }
    requires keys { All (λ key. key < ids_of nodes.now) keys.now }
    ensures extends { Extends dd.old.table dd.new.table }
    ensures loaded { IfOk result (λ ids.
        AreKeyed dd.new.table (seen dd.old.table order.now bits.now) nodes.now keys.now ids.items) }
{
    let sets = all_raised(alloc, nodes, keys, ranks)?;
    let loaded = load_moved(alloc, dd, sets.entries(nodes), order, bits)?;
    spread(
        alloc,
        nodes.len(),
        keys,
        loaded.as_slice(),
        sets.ids.as_slice(),
    )
}

// The diagrams of all ids of some entries, in order: of 0 and 1, and of the entries. Each entry is made once.
fn load_moved(
    alloc: Global,
    dd: &mut Manager,
    nodes: &[Entry],
    order: &[u32],
    bits: &[NodeId],
) -> Result<Vec<NodeId>, AllocError>
    requires nodes { AreBranches nodes.now }
    requires bits { AreBits dd.old.table bits.now }
    ensures extends { Extends dd.old.table dd.new.table }
    ensures loaded { IfOk result (λ ids. AreMoved dd.new.table (seen dd.old.table order.now bits.now) nodes.now
        ids.items) }
{
    let mut ids = Vec::new(alloc);
    ids.push(FALSE)?;
    ids.push(TRUE)?;
    for entry in nodes {
        let bit = moved_bit(order, bits, entry.level);
        let id = branch(dd, bit, ids[entry.lo as usize], ids[entry.hi as usize])?;
        ids.push(id)?;
    }
    Ok(ids)
}

// The bit of an old level.
fn moved_bit(order: &[u32], bits: &[NodeId], level: u32) -> NodeId
    ensures { result ≡ slice_index_or bits.now (slice_index_or order.now level 0) never }
{
    let place = match order.get(level as usize) {
        Some(place) => *place,
        None => 0,
    };
    match bits.get(place as usize) {
        Some(bit) => *bit,
        None => FALSE,
    }
}

// The function that is `hi` where the bit is true, and `lo` where it is false.
fn branch(dd: &mut Manager, bit: NodeId, lo: NodeId, hi: NodeId) -> Result<NodeId, AllocError>
    requires bit { Knows dd.old.table bit }
    requires lo { Knows dd.old.table lo }
    requires hi { Knows dd.old.table hi }

    ensures extends { Extends dd.old.table dd.new.table }
    ensures answer { IfOk result (λ id.
        IsFunction dd.new.table id (λ v.
        if means dd.old.table bit v then means dd.old.table hi v else means dd.old.table lo v)) }
{
    match level_above(dd.store(), bit, lo, hi) {
        Some(level) => dd.make(level, lo, hi, &mut Steps::new(())),
        None => dd.ite_once(bit, hi, lo),
    }
}

// The level whose value a bit is, if it stands above two functions.
fn level_above(store: &Store, bit: NodeId, lo: NodeId, hi: NodeId) -> Option<u32>
    requires reduced { IsReduced store.now }
    requires bit { Knows store.now bit }
    requires lo { Knows store.now lo }
    requires hi { Knows store.now hi }
    ensures { IfSome result (IsValueAbove store.now bit lo hi) }
{
    if bit.is_constant() {
        return None;
    }
    let node = store.node(bit);
    let rank = store.rank(node.level);
    if node.lo == FALSE && node.hi == TRUE && rank < store.depth(lo) && rank < store.depth(hi) {
        Some(node.level)
    } else {
        None
    }
}

// For each id of so many entries a diagram: where it is a key, the one of the value beside the key.
fn spread(
    alloc: Global,
    count: usize,
    keys: &[u64],
    loaded: &[NodeId],
    values: &[u64],
) -> Result<Vec<NodeId>, AllocError>
    requires keys { All (λ key. key < count + 2) keys.now }
    requires values { All (λ value. value < length loaded.now) values.now }
    requires same { length values.now ≡ length keys.now }

    ensures { IfOk result (λ ids. (s : Table) (see : (ℕ → Bool) → ℕ → Bool) (nodes : List Node)
        → length nodes ≡ count → AreFound s see nodes keys.now values.now loaded.now
        → AreKeyed s see nodes keys.now ids.items) }
{
    let mut ids = vec![in alloc; FALSE; count]?;
    ids.push(FALSE)?;
    ids.push(FALSE)?;
    for index in 0..keys.len() {
        ids[keys[index] as usize] = loaded[values[index] as usize];
    }
    Ok(ids)
}
