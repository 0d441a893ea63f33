//! The game whose steps are those of guarded updates.
ghost use Rattle.std.specs.Prelude.{IfOk};
ghost use Rattle.tm_dd.specs.Reduced.{Extends};
ghost use Rattle.tm_flat.specs.Flat.{flat_terms};
ghost use Rattle.tm_game_steps.specs.Inner.Reading.{AreReadings};
ghost use Rattle.tm_game_steps.specs.Inner.Sides.{AreTurns};
ghost use Rattle.tm_game_steps.specs.Inner.Turns.{AreTests};
ghost use Rattle.tm_game_steps.specs.Made.{IsMadeGame};
ghost use Rattle.tm_game_steps.specs.Passing.{ArePassing};
ghost use Rattle.tm_game_steps.specs.Places.{ArePlaces};
ghost use Rattle.tm_game_steps.specs.Setting.{IsReady, setting_of};
ghost use Rattle.tm_game_steps.specs.Telling.{HasTerms};

use crate::encoding::Encoding;
use crate::places::Place;
use crate::reading::readings;
use std::alloc::AllocError;
use tm_blast::TermBits;
use tm_dd::NodeId;
use tm_ddops::Manager;
use tm_flat::Flat;
use tm_game_bits::GameDiagrams;
use tm_term::TermId;

/// A game of diagrams, and the processes that the last steps of its driver let go.
#[derive(Drop)]
pub struct MadeGame {
    pub steps: GameDiagrams,
    pub movers: Vec<usize>,
}

// Where the driver can be picked, and what a stutter changes.
#[derive(Drop)]
struct Turns {
    turn: NodeId,
    stutter: Vec<(u32, NodeId)>,
}

impl Encoding {
    /// The game whose steps are those of guarded updates: of each process from each of its places, and of each task.
    ///
    /// `stutter` and `idle` are the terms of a state that stays as it is, but for who moved last. Every id keeps its
    /// meaning, also where memory runs out.
    pub fn game(
        &self,
        flat: &Flat,
        places: &[Place],
        stutter: &[TermId],
        idle: &[TermId],
        made: &mut TermBits,
        dd: &mut Manager,
    ) -> Result<MadeGame, AllocError>
        requires terms { HasTerms (setting_of self.now) (flat_terms flat.now) }
        requires places { ArePlaces self.now.terms (flat_terms flat.now).magic self.now.first places.now }
        requires stutter { ArePassing self.now.terms self.now.numbers 0 stutter.now }
        requires idle { ArePassing self.now.terms self.now.numbers 1 idle.now }
        requires ready { IsReady (setting_of self.now) dd.old.table made.old }

        ensures earlier { Extends dd.old.table dd.new.table }
        ensures ready { IsReady (setting_of self.now) dd.new.table made.new }
        ensures game { IfOk result (IsMadeGame (setting_of self.now) (flat_terms flat.now) dd.new.table) }
    {
        let reads = readings(self.alloc, &self.terms, &self.levels)?;
        let game = self.steps(flat, places, &reads, stutter, idle, made, dd);
        drop(reads);
        game
    }

    // The game whose steps are those of guarded updates, where it is known how high the levels stand that terms read.
    fn steps(
        &self,
        flat: &Flat,
        places: &[Place],
        reads: &[u64],
        stutter: &[TermId],
        idle: &[TermId],
        made: &mut TermBits,
        dd: &mut Manager,
    ) -> Result<MadeGame, AllocError>
        requires terms { HasTerms (setting_of self.now) (flat_terms flat.now) }
        requires reads { AreReadings self.now.terms (setting_of self.now).levels reads.now }
        requires places { ArePlaces self.now.terms (flat_terms flat.now).magic self.now.first places.now }
        requires stutter { ArePassing self.now.terms self.now.numbers 0 stutter.now }
        requires idle { ArePassing self.now.terms self.now.numbers 1 idle.now }
        requires ready { IsReady (setting_of self.now) dd.old.table made.old }

        ensures earlier { Extends dd.old.table dd.new.table }
        ensures ready { IsReady (setting_of self.now) dd.new.table made.new }
        ensures game { IfOk result (IsMadeGame (setting_of self.now) (flat_terms flat.now) dd.new.table) }
    {
        let turns = self.turns(places, stutter, made, dd)?;
        let valid = self.truth(flat.valid, made, dd)?;
        let mut environment = Vec::new(self.alloc);
        let _others = self.push_processes(flat, places, reads, false, &mut environment, made, dd)?;
        let driver = self.driver_steps(flat, places, reads, turns.turn, idle, made, dd)?;
        Ok(MadeGame {
            steps: GameDiagrams {
                valid,
                turn: turns.turn,
                stutter: turns.stutter,
                environment,
                driver: driver.list,
            },
            movers: driver.movers,
        })
    }

    // Where the driver can be picked, and what a stutter changes.
    fn turns(
        &self,
        places: &[Place],
        stutter: &[TermId],
        made: &mut TermBits,
        dd: &mut Manager,
    ) -> Result<Turns, AllocError>
        requires places { AreTests self.now.terms self.now.first places.now }
        requires stutter { ArePassing self.now.terms self.now.numbers 0 stutter.now }
        requires ready { IsReady (setting_of self.now) dd.old.table made.old }

        ensures earlier { Extends dd.old.table dd.new.table }
        ensures ready { IsReady (setting_of self.now) dd.new.table made.new }
        ensures turns { IfOk result (AreTurns (setting_of self.now) dd.new.table places.now) }
    {
        let turn = self.turn(places, made, dd)?;
        let stutter = self.changed(stutter, made, dd)?;
        Ok(Turns { turn, stutter })
    }
}
