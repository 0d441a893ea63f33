//! A step of a game as diagrams, and where it leads.
ghost use Rattle.std.specs.Prelude.{◌≡◌, ◌⊎◌, true, IfOk};
ghost use Rattle.tm_dd.specs.Reduced.{Extends};
ghost use Rattle.tm_dd.specs.Table.{Knows, means};
ghost use Rattle.tm_ddops.specs.Manager.{IsFunction};
ghost use Rattle.tm_ddops.specs.Quantified.{IsExists};
ghost use Rattle.tm_game_bits.specs.Functions.{leading_at};

use std::alloc::AllocError;
use tm_dd::NodeId;
use tm_ddops::Manager;

/// What an actor does in one step, over the levels of the state, of its arguments and of its choices.
#[derive(Drop)]
pub struct StepDiagrams {
    /// Where the step has an outcome.
    pub legal: NodeId,
    /// Where this outcome is an error.
    pub error: NodeId,
    /// The levels of the state that the step changes, each once, with what they become.
    pub next: Vec<(u32, NodeId)>,
    /// The levels of the choices that the step reads.
    pub choices: Vec<u32>,
    /// The levels of the arguments. A step of the environment has none.
    pub arguments: Vec<u32>,
}

impl StepDiagrams {
    ghost use Rattle.tm_game_bits.specs.Diagrams.{IsSetOf, KnowsStep, step_of};
    ghost use Rattle.tm_game_bits.specs.Forcing.{IsAllowed, IsGood, IsGoodForSome, Keeps, Leads};

    // Where some choices err or lead into a set.
    fn leads(&self, dd: &mut Manager, into: NodeId) -> Result<NodeId, AllocError>
        requires step { KnowsStep dd.old.table self.now }
        requires into { Knows dd.old.table into }

        ensures extends { Extends dd.old.table dd.new.table }
        ensures answer { IfOk result
            (IsSetOf dd.new.table (Leads (step_of dd.old.table self.now) (means dd.old.table into))) }
    {
        let outcomes = self.leading(dd, into)?;
        for_some(dd, outcomes, &self.choices)
    }

    // For which choices the step errs or leads into a set.
    fn leading(&self, dd: &mut Manager, into: NodeId) -> Result<NodeId, AllocError>
        requires step { KnowsStep dd.old.table self.now }
        requires into { Knows dd.old.table into }

        ensures extends { Extends dd.old.table dd.new.table }
        ensures answer { IfOk result (λ id. IsFunction dd.new.table id
            (leading_at (step_of dd.old.table self.now) (means dd.old.table into))) }
    {
        let lands = dd.compose_once(into, &self.next)?;
        let ends = dd.or_once(self.error, lands)?;
        dd.and_once(self.legal, ends)
    }

    // Where no choices err or leave a set.
    fn keeps(&self, dd: &mut Manager, set: NodeId) -> Result<NodeId, AllocError>
        requires step { KnowsStep dd.old.table self.now }
        requires set { Knows dd.old.table set }

        ensures extends { Extends dd.old.table dd.new.table }
        ensures answer { IfOk result
            (IsSetOf dd.new.table (Keeps (step_of dd.old.table self.now) (means dd.old.table set))) }
    {
        let leaves = self.leads(dd, set.complement())?;
        Ok(leaves.complement())
    }

    // Where the driver can be picked and some choices have an outcome.
    fn allowed(&self, dd: &mut Manager, turn: NodeId) -> Result<NodeId, AllocError>
        requires step { KnowsStep dd.old.table self.now }
        requires turn { Knows dd.old.table turn }

        ensures extends { Extends dd.old.table dd.new.table }
        ensures answer { IfOk result
            (IsSetOf dd.new.table (IsAllowed (means dd.old.table turn) (step_of dd.old.table self.now))) }
    {
        let outcomes = for_some(dd, self.legal, &self.choices)?;
        dd.and_once(turn, outcomes)
    }

    // Where the driver can be picked, some choices have an outcome, and none err or leave a set.
    pub(crate) fn good(
        &self,
        dd: &mut Manager,
        turn: NodeId,
        set: NodeId,
    ) -> Result<NodeId, AllocError>
        requires step { KnowsStep dd.old.table self.now }
        requires turn { Knows dd.old.table turn }
        requires set { Knows dd.old.table set }

        ensures extends { Extends dd.old.table dd.new.table }
        ensures answer { IfOk result (IsSetOf dd.new.table
            (IsGood (means dd.old.table turn) (means dd.old.table set) (step_of dd.old.table self.now))) }
    {
        let permitted = self.allowed(dd, turn)?;
        let kept = self.keeps(dd, set)?;
        dd.and_once(permitted, kept)
    }

    // Where that is so for some arguments.
    fn good_for_some(
        &self,
        dd: &mut Manager,
        turn: NodeId,
        set: NodeId,
    ) -> Result<NodeId, AllocError>
        requires step { KnowsStep dd.old.table self.now }
        requires turn { Knows dd.old.table turn }
        requires set { Knows dd.old.table set }

        ensures extends { Extends dd.old.table dd.new.table }
        ensures answer { IfOk result (IsSetOf dd.new.table (λ v.
            IsGoodForSome (means dd.old.table turn) (means dd.old.table set) v (step_of dd.old.table self.now))) }
    {
        let moves = self.good(dd, turn, set)?;
        for_some(dd, moves, &self.arguments)
    }

    // Where it is so, or a diagram holds.
    pub(crate) fn good_or(
        &self,
        dd: &mut Manager,
        turn: NodeId,
        set: NodeId,
        other: NodeId,
    ) -> Result<NodeId, AllocError>
        requires step { KnowsStep dd.old.table self.now }
        requires turn { Knows dd.old.table turn }
        requires set { Knows dd.old.table set }
        requires other { Knows dd.old.table other }

        ensures extends { Extends dd.old.table dd.new.table }
        ensures answer { IfOk result (IsSetOf dd.new.table (λ v. (means dd.old.table other v ≡ true)
            ⊎ IsGoodForSome (means dd.old.table turn) (means dd.old.table set) v (step_of dd.old.table self.now))) }
    {
        let moves = self.good_for_some(dd, turn, set)?;
        dd.or_once(other, moves)
    }

    // Where no choices err or leave a set, and a diagram holds.
    pub(crate) fn keeps_and(
        &self,
        dd: &mut Manager,
        set: NodeId,
        other: NodeId,
    ) -> Result<NodeId, AllocError>
        requires step { KnowsStep dd.old.table self.now }
        requires set { Knows dd.old.table set }
        requires other { Knows dd.old.table other }

        ensures extends { Extends dd.old.table dd.new.table }
        ensures answer { IfOk result (IsSetOf dd.new.table (λ v. (means dd.old.table other v ≡ true)
            × Keeps (step_of dd.old.table self.now) (means dd.old.table set) v)) }
    {
        let kept = self.keeps(dd, set)?;
        dd.and_once(other, kept)
    }
}

// Where a function is true for some values of levels. Many steps have no levels of choices or of arguments.
fn for_some(dd: &mut Manager, f: NodeId, levels: &[u32]) -> Result<NodeId, AllocError>
    requires { Knows dd.old.table f }
    ensures extends { Extends dd.old.table dd.new.table }
    ensures answer { IfOk result (IsExists dd.new.table levels.now f) }
{
    if levels.is_empty() {
        return Ok(f);
    }
    dd.exists(f, levels)
}
