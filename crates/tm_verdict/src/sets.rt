//! Ids of a certificate as sets of states.
ghost use Rattle.std.specs.Prelude.{◌≡◌, ◌<◌, true, All, IfOk, List, length, sum};
ghost use Rattle.tm_cert.specs.declared.cert.Entry.{Entry as Node};
ghost use Rattle.tm_dd.specs.Table.{Knows};
ghost use Rattle.tm_game.specs.Game.{Grows, IsOf, IsStates};
ghost use Rattle.tm_game_bits.specs.Order.{IsOrder};
ghost use Rattle.tm_verdict.specs.Loaded.{AreLoaded};
ghost use Rattle.tm_sem.specs.StateBits.{state_widths};
ghost use Rattle.tm_verdict.specs.Fitting.{AreNodes};
ghost use Rattle.tm_verdict.specs.Sets.{set_of};
ghost use Rattle.tm_syntax.specs.Design.{DesignTree};

use std::alloc::AllocError;
use tm_dd::NodeId;
use tm_game::Game;

/// The valid states of an id of a certificate, whose entries were loaded into the game.
///
/// Every id of the game keeps its meaning, also where memory runs out.
pub fn load_set(game: &mut Game, ids: &[NodeId], set: u64) -> Result<NodeId, AllocError>
    requires of { (d : DesignTree) × IsOf d game.old }
    requires known { All (Knows game.old.diagrams.table) ids.now }
    requires set { set < length ids.now }

    ensures grows { Grows game.old game.new }
    ensures states { IfOk result (λ id. (d : DesignTree) (nodes : List Node) → IsOf d game.old
        → IsOrder (sum (state_widths d)) game.old.order → AreNodes (length game.old.order) nodes
        → AreLoaded game.old.diagrams.table nodes ids.now
        → IsStates d game.old.order game.new.diagrams.table (λ s. set_of d game.old.order nodes set s ≡ true) id) }
{
    let valid = game.valid();
    let id = game.and(valid, ids[set as usize])?;
    Ok(id)
}
