//! The entries of a certificate as diagrams.
ghost use Rattle.std.specs.Prelude.{◌≡◌, ◌≤◌, ℕ, IfOk, Some, length, slice_get};
ghost use Rattle.tm_game.specs.Game.{Grows};
ghost use Rattle.tm_verdict.specs.Inner.Loading.{AreFirst, IsLoaded};
ghost use Rattle.tm_verdict.specs.Loaded.{AreLoaded};
ghost use Rattle.tm_verdict.specs.Fitting.{AreNodes};

use std::alloc::{AllocError, Global};
use tm_cert::Entry;
use tm_dd::{FALSE, NodeId, TRUE};
use tm_game::Game;

/// The diagrams of all ids of a certificate, in order: of 0 and 1, and of the entries over the levels of a state.
///
/// It goes over the entries once, and each is made once. Every id of the game keeps its meaning, also where memory runs
/// out.
pub fn load_nodes(
    alloc: Global,
    game: &mut Game,
    nodes: &[Entry],
) -> Result<Vec<NodeId>, AllocError>
    requires nodes { AreNodes (length game.old.order) nodes.now }
    requires levels { length game.old.order ≤ game.old.diagrams.table.levels }
    ensures grows { Grows game.old game.new }
    ensures loaded { IfOk result (λ ids. AreLoaded game.new.diagrams.table nodes.now ids.items) }
{
    // The call says that levels of states stand in the order of their numbers.
    let _order = game.order();
    let mut ids = Vec::new(alloc);
    ids.push(FALSE)?;
    ids.push(TRUE)?;
    for entry in nodes {
        let id = game.make(entry.level, ids[entry.lo as usize], ids[entry.hi as usize])?;
        ids.push(id)?;
    }
    Ok(ids)
}
