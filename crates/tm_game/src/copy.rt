//! Copies of the diagrams of a game.
ghost use Rattle.std.specs.Prelude.{◌≡◌, Contains, OnErr, OnOk};
ghost use Rattle.tm_dd.specs.Table.{Knows};
ghost use Rattle.tm_dd.specs.declared.node.NodeId.{NodeId as Id};
ghost use Rattle.tm_ddops.specs.Copied.{MeanTheSame};
ghost use Rattle.tm_game_bits.specs.Diagrams.{KnowsGame};
ghost use Rattle.tm_game.specs.Copied.{IsCopied};
ghost use Rattle.tm_game.specs.Game.{IsOf};
ghost use Rattle.tm_game.specs.Inner.Listed.{kept_ids};
ghost use Rattle.tm_game.specs.Inner.Restored.{SameGame, SameKept};
ghost use Rattle.tm_syntax.specs.Design.{DesignTree};

use crate::game::Game;
use crate::gather::gathered;
use crate::opening::Kept;
use crate::restore::{put_game, put_ids, put_kept};
use std::alloc::{AllocError, Global};
use tm_blast::TermBits;
use tm_dd::NodeId;
use tm_ddops::Manager;
use tm_game_bits::{GameDiagrams, Recent};

impl Game {
    /// Copies the functions of the given ids and of those that the game keeps, and forgets all others.
    ///
    /// The given ids and those that the game keeps mean what they meant, and all other ids of diagrams are void. After
    /// a refusal nothing has changed.
    pub fn copy_roots(&mut self, roots: &mut [NodeId]) -> Result<(), AllocError>
        requires known { (f : Id) → Contains roots.old f → Knows self.old.diagrams.table f }

        ensures game { OnOk result (IsCopied self.old self.new) }
        ensures same { OnOk result
            (MeanTheSame self.old.diagrams.table roots.old self.new.diagrams.table roots.new) }
        ensures of { (d : DesignTree) → IsOf d self.old → IsOf d self.new }
        ensures refused { OnErr result (self.new ≡ self.old) }
        ensures refused_roots { OnErr result (roots.new ≡ roots.old) }
    {
        let alloc = self.encoding.alloc;
        copied(
            alloc,
            roots,
            &mut self.made.steps,
            &mut self.kept,
            &mut self.dd,
        )?;
        self.bits = TermBits::new(alloc);
        self.recent = Recent::new();
        Ok(())
    }
}

// Copies the functions of some ids, of a game and of those that it keeps.
fn copied(
    alloc: Global,
    roots: &mut [NodeId],
    steps: &mut GameDiagrams,
    kept: &mut Kept,
    dd: &mut Manager,
) -> Result<(), AllocError>
    requires roots { (f : Id) → Contains roots.old f → Knows dd.old.table f }
    requires game { KnowsGame dd.old.table steps.old }
    requires kept { (f : Id) → Contains (kept_ids kept.old) f → Knows dd.old.table f }

    ensures levels { dd.new.table.levels ≡ dd.old.table.levels }
    ensures ranks { dd.new.table.ranks ≡ dd.old.table.ranks }
    ensures roots { OnOk result (MeanTheSame dd.old.table roots.old dd.new.table roots.new) }
    ensures game { OnOk result (SameGame dd.old.table steps.old dd.new.table steps.new) }
    ensures kept { OnOk result (SameKept dd.old.table kept.old dd.new.table kept.new) }
    ensures refused_roots { OnErr result (roots.new ≡ roots.old) }
    ensures refused_game { OnErr result (steps.new ≡ steps.old) }
    ensures refused_kept { OnErr result (kept.new ≡ kept.old) }
    ensures refused { OnErr result (dd.new ≡ dd.old) }
{
    let mut ids = gathered(alloc, roots, steps, kept)?;
    dd.copy_roots(&mut ids)?;
    let own = put_ids(roots, &ids, 0);
    let behind = put_game(steps, &ids, own);
    put_kept(kept, &ids, behind);
    Ok(())
}
