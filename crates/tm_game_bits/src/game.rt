//! A game of diagrams, and the predecessors of its sets of states.
ghost use Rattle.std.specs.Prelude.{IfOk, Any};
ghost use Rattle.tm_dd.specs.Reduced.{Extends};
ghost use Rattle.tm_dd.specs.Table.{Knows, means};

use crate::recent::Recent;
use crate::step::StepDiagrams;
use std::alloc::AllocError;
use tm_dd::{FALSE, NodeId};
use tm_ddops::Manager;

/// A game whose steps are diagrams of one manager.
///
/// A state is a value for each of its levels, and a set of states is a diagram that reads these alone and is false
/// where they are no valid state. Steps have further levels, for arguments and choices.
#[derive(Drop)]
pub struct GameDiagrams {
    /// The valid states.
    pub valid: NodeId,
    /// Where the driver can be picked.
    pub turn: NodeId,
    /// The levels that a stutter changes, each once, with what they become.
    pub stutter: Vec<(u32, NodeId)>,
    /// The steps of the environment, each legal where it can be taken alone.
    pub environment: Vec<StepDiagrams>,
    /// The steps of the driver.
    pub driver: Vec<StepDiagrams>,
}

impl GameDiagrams {
    ghost use Rattle.tm_game_bits.specs.Diagrams.{IsSetOf, KnowsGame, KnowsStep, game_of, step_of};
    ghost use Rattle.tm_game_bits.specs.Forcing.{Forced, IsCalm, IsGoodForSome, IsLegalMove, Stays};
    ghost use Rattle.tm_game_bits.specs.Inner.Loops.{HasGoodBelow, IsCalmBelow};
    ghost use Rattle.tm_game_bits.specs.Recent.{AreAnswers};

    /// The pairs of a valid state and of arguments at which a step of the driver is allowed, and for no choices errs
    /// or leaves the set. Every id keeps its meaning, also where memory runs out.
    pub fn legal_move(
        &self,
        dd: &mut Manager,
        step: &StepDiagrams,
        set: NodeId,
    ) -> Result<NodeId, AllocError>
        requires game { KnowsGame dd.old.table self.now }
        requires step { KnowsStep dd.old.table step.now }
        requires set { Knows dd.old.table set }

        ensures extends { Extends dd.old.table dd.new.table }
        ensures answer { IfOk result (IsSetOf dd.new.table (IsLegalMove (game_of dd.old.table self.now)
            (means dd.old.table set) (step_of dd.old.table step.now))) }
    {
        let moves = step.good(dd, self.turn, set)?;
        dd.and_once(self.valid, moves)
    }

    /// The valid states from which no stutter or step of the environment errs or leaves the set. Every id keeps its
    /// meaning, also where memory runs out.
    pub fn calm(&self, dd: &mut Manager, set: NodeId) -> Result<NodeId, AllocError>
        requires game { KnowsGame dd.old.table self.now }
        requires set { Knows dd.old.table set }

        ensures extends { Extends dd.old.table dd.new.table }
        ensures answer { IfOk result
            (IsSetOf dd.new.table (IsCalm (game_of dd.old.table self.now) (means dd.old.table set))) }
    {
        let resting = self.rests(dd, set)?;
        let mut calm = resting;
        for step in &self.environment {
            calm = step.keeps_and(dd, set, calm)?;
        }
        Ok(calm)
    }

    // The valid states from which a stutter does not leave the set.
    fn rests(&self, dd: &mut Manager, set: NodeId) -> Result<NodeId, AllocError>
        requires game { KnowsGame dd.old.table self.now }
        requires set { Knows dd.old.table set }

        ensures extends { Extends dd.old.table dd.new.table }
        ensures answer { IfOk result (IsSetOf dd.new.table
            (IsCalmBelow dd.old.table (game_of dd.old.table self.now) (means dd.old.table set)
            self.now.environment.items 0)) }
    {
        let stuttered = dd.compose_once(set, &self.stutter)?;
        dd.and_once(self.valid, stuttered)
    }

    /// The valid states from which the driver stays in the set: those of `calm` at which some allowed step of the
    /// driver, for some arguments, for no choices errs or leaves the set, if the driver can be picked. Every id keeps
    /// its meaning, also where memory runs out.
    ///
    /// The answers on the last 256 sets are remembered.
    pub fn cpre(
        &self,
        dd: &mut Manager,
        recent: &mut Recent,
        set: NodeId,
    ) -> Result<NodeId, AllocError>
        requires game { KnowsGame dd.old.table self.now }
        requires recent { AreAnswers dd.old.table (game_of dd.old.table self.now) recent.old }
        requires set { Knows dd.old.table set }

        ensures extends { Extends dd.old.table dd.new.table }
        ensures recent { AreAnswers dd.new.table (game_of dd.new.table self.now) recent.new }
        ensures answer { IfOk result
            (IsSetOf dd.new.table (Stays (game_of dd.old.table self.now) (means dd.old.table set))) }
    {
        let kept = self.recalled(dd, recent, set)?;
        recent.note(set, kept);
        Ok(kept)
    }

    // The valid states from which the driver stays in the set: the remembered answer, or a new one, which is not
    // remembered.
    fn recalled(&self, dd: &mut Manager, recent: &Recent, set: NodeId) -> Result<NodeId, AllocError>
        requires game { KnowsGame dd.old.table self.now }
        requires recent { AreAnswers dd.old.table (game_of dd.old.table self.now) recent.now }
        requires set { Knows dd.old.table set }

        ensures extends { Extends dd.old.table dd.new.table }
        ensures answer { IfOk result
            (IsSetOf dd.new.table (Stays (game_of dd.old.table self.now) (means dd.old.table set))) }
    {
        if let Some(known) = recent.recall(set) {
            return Ok(known);
        }
        self.stays(dd, set)
    }

    // The valid states from which the driver stays in the set, without the remembered answers.
    fn stays(&self, dd: &mut Manager, set: NodeId) -> Result<NodeId, AllocError>
        requires game { KnowsGame dd.old.table self.now }
        requires set { Knows dd.old.table set }

        ensures extends { Extends dd.old.table dd.new.table }
        ensures answer { IfOk result
            (IsSetOf dd.new.table (Stays (game_of dd.old.table self.now) (means dd.old.table set))) }
    {
        let resting = self.calm(dd, set)?;
        let acting = self.acts(dd, set)?;
        let settled = dd.or_once(self.turn.complement(), acting)?;
        dd.and_once(resting, settled)
    }

    // Where some step of the driver, for some arguments, is allowed and for no choices errs or leaves the set.
    fn acts(&self, dd: &mut Manager, set: NodeId) -> Result<NodeId, AllocError>
        requires game { KnowsGame dd.old.table self.now }
        requires set { Knows dd.old.table set }

        ensures extends { Extends dd.old.table dd.new.table }
        ensures answer { IfOk result (IsSetOf dd.new.table (λ v.
            Any (IsGoodForSome (means dd.old.table self.now.turn) (means dd.old.table set) v)
            (game_of dd.old.table self.now).driver)) }
    {
        let mut acting = FALSE;
        for step in &self.driver {
            acting = step.good_or(dd, self.turn, set, acting)?;
        }
        Ok(acting)
    }

    /// The valid states from which the environment forces an error or a state of the set: those outside `cpre` of
    /// all that the set leaves out. Every id keeps its meaning, also where memory runs out.
    pub fn epre(
        &self,
        dd: &mut Manager,
        recent: &mut Recent,
        set: NodeId,
    ) -> Result<NodeId, AllocError>
        requires game { KnowsGame dd.old.table self.now }
        requires recent { AreAnswers dd.old.table (game_of dd.old.table self.now) recent.old }
        requires set { Knows dd.old.table set }

        ensures extends { Extends dd.old.table dd.new.table }
        ensures recent { AreAnswers dd.new.table (game_of dd.new.table self.now) recent.new }
        ensures answer { IfOk result
            (IsSetOf dd.new.table (Forced (game_of dd.old.table self.now) (means dd.old.table set))) }
    {
        let kept = self.cpre(dd, recent, set.complement())?;
        dd.and_once(self.valid, kept.complement())
    }
}
