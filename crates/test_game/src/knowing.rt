//! Whether a manager knows ids.
ghost use Rattle.std.specs.Prelude.{All, IsTrue};
ghost use Rattle.tm_dd.specs.Reduced.{IsDeeper};
ghost use Rattle.tm_dd.specs.Table.{Knows};
ghost use Rattle.tm_game_bits.specs.Diagrams.{KnowsChanges};

use std::alloc::AllocError;
use tm_dd::NodeId;
use tm_ddops::Manager;

/// Whether a manager knows an id.
pub fn knows(dd: &Manager, id: NodeId) -> bool
    ensures { IsTrue result → Knows dd.now.table id }
{
    dd.store().knows(id)
}

/// Whether a manager knows an id, of a function of deeper levels.
pub fn is_deeper(dd: &Manager, id: NodeId, level: u32) -> bool
    ensures known { IsTrue result → Knows dd.now.table id }
    ensures deeper { IsTrue result → IsDeeper dd.now.table level id }
{
    let store = dd.store();
    store.knows(id) && store.rank(level) < store.depth(id)
}

/// Whether a manager knows all of these ids.
fn knows_all(dd: &Manager, ids: &[NodeId]) -> bool
    ensures { IsTrue result → All (Knows dd.now.table) ids.now }
{
    for id in ids {
        if !knows(dd, *id) {
            return false;
        }
    }
    true
}

/// Keeps what known ids reach.
fn copy(dd: &mut Manager, ids: &mut [NodeId]) -> Result<(), AllocError>
    requires { All (Knows dd.old.table) ids.old }
{
    dd.copy_roots(ids)
}

/// Keeps what these ids reach, if a manager knows all of them. They are the copies then.
pub fn copy_known(dd: &mut Manager, ids: &mut [NodeId]) -> Result<bool, AllocError> {
    if !knows_all(dd, ids) {
        return Ok(false);
    }
    match copy(dd, ids) {
        Ok(()) => Ok(true),
        Err(error) => Err(error),
    }
}

/// Whether a manager knows the functions of these changes.
#[tactic(auto, using(crate::proofs::Known::one_change_more))]
fn knows_each(dd: &Manager, changes: &[(u32, NodeId)]) -> bool
    ensures { IsTrue result → All (λ p. Knows dd.now.table p.1) changes.now }
{
    for change in changes {
        if !knows(dd, change.1) {
            return false;
        }
    }
    true
}

/// Whether a manager knows the functions of these changes, as a step and a substitution ask for it.
pub fn knows_changes(dd: &Manager, changes: &[(u32, NodeId)]) -> bool
    ensures { IsTrue result → KnowsChanges dd.now.table changes.now }
{
    knows_each(dd, changes)
}
