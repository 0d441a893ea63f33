//! The steps of the driver.
ghost use Rattle.std.specs.Prelude.{IfOk};
ghost use Rattle.tm_dd.specs.Reduced.{Extends};
ghost use Rattle.tm_dd.specs.Table.{Knows, means};
ghost use Rattle.tm_flat.specs.Flat.{flat_terms};
ghost use Rattle.tm_game_steps.specs.Inner.Driving.{AreDriverSteps};
ghost use Rattle.tm_game_steps.specs.Inner.Pushed.{MadeIdle};
ghost use Rattle.tm_game_steps.specs.Inner.Reading.{AreReadings};
ghost use Rattle.tm_game_steps.specs.Passing.{ArePassing};
ghost use Rattle.tm_game_steps.specs.Places.{ArePlaces};
ghost use Rattle.tm_game_steps.specs.Setting.{IsReady, setting_of};
ghost use Rattle.tm_game_steps.specs.Telling.{HasTerms};

use crate::encoding::Encoding;
use crate::places::Place;
use std::alloc::AllocError;
use tm_blast::TermBits;
use tm_dd::{FALSE, NodeId};
use tm_ddops::Manager;
use tm_flat::Flat;
use tm_game_bits::StepDiagrams;
use tm_term::TermId;

/// The steps of the driver: to idle, to call each task, and to leave each magic block, with the processes that leave.
#[derive(Drop)]
pub(crate) struct DriverSteps {
    pub(crate) list: Vec<StepDiagrams>,
    pub(crate) movers: Vec<usize>,
}

impl Encoding {
    // All of them.
    pub(crate) fn driver_steps(
        &self,
        flat: &Flat,
        places: &[Place],
        reads: &[u64],
        turn: NodeId,
        idle: &[TermId],
        made: &mut TermBits,
        dd: &mut Manager,
    ) -> Result<DriverSteps, AllocError>
        requires terms { HasTerms (setting_of self.now) (flat_terms flat.now) }
        requires reads { AreReadings self.now.terms (setting_of self.now).levels reads.now }
        requires places { ArePlaces self.now.terms (flat_terms flat.now).magic self.now.first places.now }
        requires turn { Knows dd.old.table turn }
        requires idle { ArePassing self.now.terms self.now.numbers 1 idle.now }
        requires ready { IsReady (setting_of self.now) dd.old.table made.old }

        ensures earlier { Extends dd.old.table dd.new.table }
        ensures ready { IsReady (setting_of self.now) dd.new.table made.new }
        ensures steps { IfOk result (λ steps. AreDriverSteps (setting_of self.now) (flat_terms flat.now)
            (means dd.old.table turn) dd.new.table steps.list.items steps.movers.items) }
    {
        let step = self.idle_step(turn, idle, made, dd)?;
        let mut list = Vec::new(self.alloc);
        list.push(step)?;
        self.push_tasks(flat, reads, &mut list, made, dd)?;
        let movers = self.push_processes(flat, places, reads, true, &mut list, made, dd)?;
        Ok(DriverSteps { list, movers })
    }

    // The idle step.
    fn idle_step(
        &self,
        turn: NodeId,
        idle: &[TermId],
        made: &mut TermBits,
        dd: &mut Manager,
    ) -> Result<StepDiagrams, AllocError>
        requires turn { Knows dd.old.table turn }
        requires idle { ArePassing self.now.terms self.now.numbers 1 idle.now }
        requires ready { IsReady (setting_of self.now) dd.old.table made.old }

        ensures earlier { Extends dd.old.table dd.new.table }
        ensures ready { IsReady (setting_of self.now) dd.new.table made.new }
        ensures step { IfOk result (MadeIdle (setting_of self.now) dd.new.table (means dd.old.table turn)) }
    {
        let next = self.changed(idle, made, dd)?;
        Ok(StepDiagrams {
            legal: turn,
            error: FALSE,
            next,
            choices: Vec::new(self.alloc),
            arguments: Vec::new(self.alloc),
        })
    }
}
