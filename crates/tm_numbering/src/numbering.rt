//! The numbers of ids among the entries of a certificate.
ghost use Rattle.std.specs.Prelude.{◌≡◌, ◌++◌, ◌+◌, ◌∷◌, ℕ, [], IfOk, OnOk, length};
ghost use Rattle.tm_numbering.specs.Inner.Found.{FoundNumber, IsAbsent};
ghost use Rattle.tm_numbering.specs.Numbers.{AreNumbered, IsOver, Numbers};

use indexmap::IndexSet;
use std::alloc::AllocError;
use tm_cert::Entry;
use tm_dd::{FALSE, NodeId, Store, TRUE};

/// The number of an id in a certificate: 0 for `FALSE`, 1 for `TRUE`, and `k + 2` for the id at `k` of `kept`, whose
/// entry is the one at `k` of `nodes`.
///
/// An id that has no entry is put behind the others, after all that it stands on. A marked id is a diagram of its own:
/// its entry has the complements of the kept children. The ids that had entries keep them, so one pair of lists serves
/// all sets of a certificate; both begin empty. Each entry is made once, and the depth is at most the number of levels.
/// After want of memory the two lists may differ in length.
pub fn number(
    store: &Store,
    kept: &mut IndexSet<NodeId>,
    nodes: &mut Vec<Entry>,
    id: NodeId,
) -> Result<u64, AllocError>
    requires { (bits : ℕ) × IsOver store.now bits id × AreNumbered store.now bits kept.old.keys nodes.old.items }
    ensures { IfOk result (λ n. (bits : ℕ) → IsOver store.now bits id
        → AreNumbered store.now bits kept.old.keys nodes.old.items
        → Numbers store.now bits id kept.old.keys kept.new.keys nodes.new.items n) }
{
    if let Some(known) = known_number(kept, id) {
        return Ok(known);
    }
    let node = store.node(id);
    let lo = number(store, kept, nodes, node.lo)?;
    let hi = number(store, kept, nodes, node.hi)?;
    let level = node.level;
    put(kept, nodes, id, Entry { level, lo, hi })
}

// The number of an id that is a constant or has an entry.
fn known_number(kept: &IndexSet<NodeId>, id: NodeId) -> Option<u64>
    ensures { FoundNumber kept.now.keys id result }
{
    if id == FALSE {
        return Some(0);
    }
    if id == TRUE {
        return Some(1);
    }
    match kept.get_index_of(&id) {
        Some(at) => {
            prove!(at < kept.len());
            Some(at as u64 + 2)
        }
        None => None,
    }
}

// Puts an id and its entry behind the others.
fn put(
    kept: &mut IndexSet<NodeId>,
    nodes: &mut Vec<Entry>,
    id: NodeId,
    entry: Entry,
) -> Result<u64, AllocError>
    requires { IsAbsent kept.old.keys id }
    ensures number { IfOk result (λ n. n ≡ length kept.old.keys + 2) }
    ensures ids { OnOk result (kept.new.keys ≡ kept.old.keys ++ id ∷ []) }
    ensures nodes { OnOk result (nodes.new.items ≡ nodes.old.items ++ entry ∷ []) }
{
    let number = kept.len() as u64 + 2;
    kept.insert(id)?;
    nodes.push(entry)?;
    Ok(number)
}
