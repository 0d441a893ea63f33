//! Where the driver can be picked.
ghost use Rattle.std.specs.Prelude.{◌≡◌, ◌+◌, ◌⊎◌, true, IfOk, length};
ghost use Rattle.tm_dd.specs.Reduced.{Extends};
ghost use Rattle.tm_dd.specs.Table.{Knows, means};
ghost use Rattle.tm_game_bits.specs.Diagrams.{IsSetOf};
ghost use Rattle.tm_game_steps.specs.Inner.Turns.{AreTests, HasBlockBelow, IsBlockAt};
ghost use Rattle.tm_game_steps.specs.Places.{IsTest};
ghost use Rattle.tm_game_steps.specs.Setting.{IsReady, setting_of};

use crate::encoding::Encoding;
use crate::places::Place;
use std::alloc::AllocError;
use tm_base::Steps;
use tm_blast::TermBits;
use tm_dd::{FALSE, NodeId};
use tm_ddops::Manager;

impl Encoding {
    // Where some process stands at a magic block.
    pub(crate) fn turn(
        &self,
        places: &[Place],
        made: &mut TermBits,
        dd: &mut Manager,
    ) -> Result<NodeId, AllocError>
        requires places { AreTests self.now.terms self.now.first places.now }
        requires ready { IsReady (setting_of self.now) dd.old.table made.old }

        ensures earlier { Extends dd.old.table dd.new.table }
        ensures ready { IsReady (setting_of self.now) dd.new.table made.new }
        ensures turn { IfOk result (IsSetOf dd.new.table
            (HasBlockBelow (setting_of self.now) places.now (length places.now))) }
    {
        let mut turn = FALSE;
        for place in places {
            turn = self.turn_or(*place, turn, made, dd)?;
        }
        Ok(turn)
    }

    // Where a process stands at a place that is a magic block, or a diagram holds.
    fn turn_or(
        &self,
        place: Place,
        other: NodeId,
        made: &mut TermBits,
        dd: &mut Manager,
    ) -> Result<NodeId, AllocError>
        requires place { IsTest self.now.terms (self.now.first + place.process) place.location place.stands }
        requires other { Knows dd.old.table other }
        requires ready { IsReady (setting_of self.now) dd.old.table made.old }

        ensures earlier { Extends dd.old.table dd.new.table }
        ensures ready { IsReady (setting_of self.now) dd.new.table made.new }
        ensures turn { IfOk result (IsSetOf dd.new.table
            (λ v. (means dd.old.table other v ≡ true) ⊎ IsBlockAt (setting_of self.now) place v)) }
    {
        if !place.magic {
            return Ok(other);
        }
        let here = self.truth(place.stands, made, dd)?;
        let either = dd.or(other, here, &mut Steps::new(()))?;
        Ok(either)
    }
}
