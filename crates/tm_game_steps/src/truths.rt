//! Terms of one bit as diagrams.
ghost use Rattle.std.specs.Prelude.{◌≡◌, IfOk};
ghost use Rattle.tm_blast.specs.Bits.{AreLevels};
ghost use Rattle.tm_blast.specs.Memory.{AreMade};
ghost use Rattle.tm_blast.specs.Numbers.{level_lists};
ghost use Rattle.tm_dd.specs.Reduced.{Extends};
ghost use Rattle.tm_game_steps.specs.Changes.{IsTruthOf};
ghost use Rattle.tm_term.specs.Table.{IsKnown, width_of};

use std::alloc::{AllocError, Global};
use tm_blast::TermBits;
use tm_dd::NodeId;
use tm_ddops::Manager;
use tm_term::{TermId, Terms};

/// The diagram that is true exactly where a term of one bit is 1. What is made of terms is remembered, and every id
/// keeps its meaning, also where memory runs out.
pub fn truth(
    alloc: Global,
    terms: &Terms,
    id: TermId,
    levels: &[Vec<u32>],
    made: &mut TermBits,
    dd: &mut Manager,
) -> Result<NodeId, AllocError>
    requires known { IsKnown terms.now id }
    requires width { width_of terms.now id ≡ 1 }
    requires levels { AreLevels terms.now dd.old.table.levels (level_lists levels.now) }
    requires made { AreMade terms.now (level_lists levels.now) dd.old.table made.old }

    ensures earlier { Extends dd.old.table dd.new.table }
    ensures made { AreMade terms.now (level_lists levels.now) dd.new.table made.new }
    ensures truth { IfOk result (IsTruthOf terms.now (level_lists levels.now) dd.new.table id) }
{
    let bits = made.bits(alloc, terms, id, levels, dd)?;
    Ok(bits[0])
}
