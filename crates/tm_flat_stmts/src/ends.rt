//! How runs have ended, as terms.
ghost use Rattle.std.specs.Prelude.{◌≡◌, ◌<◌, ℕ, IfOk, IfSome, None, OnOk, length};
ghost use Rattle.tm_scope.specs.Cells.{CellTables};
ghost use Rattle.tm_term.specs.Table.{IsSound};
ghost use Rattle.tm_flat.specs.Steps.{IsTerm};
ghost use Rattle.tm_flat_exprs.specs.Made.{IsTruth, truth_at};
ghost use Rattle.tm_flat_stmts.specs.Flows.{Fails, IsFlow, Stops, stop_of};

use crate::flow::{Flow, joined_flows};
use std::alloc::{AllocError, Global};
use std::marker::Model;
use tm_flat_exprs::{either, where_true};
use tm_term::{TermId, Terms};

/// How runs have ended: for each location the flow of those that stopped there, and the truth that says whether one
/// failed.
///
/// Contracts see both.
#[derive(Drop)]
pub struct Ends {
    stops: Vec<Option<Flow>>,
    failed: Option<TermId>,
}

impl Model for Ends {
    ghost use Rattle.tm_flat_stmts.specs.Flows.{EndTerms};

    ghost Value = { EndTerms };

    ghost view = { λ e. record { stops = e.stops.items; failed = e.failed } };
}

impl Ends {
    /// No run has ended; there are so many locations, the start and the end among them.
    pub fn new(alloc: Global, count: usize) -> Result<Ends, AllocError>
        ensures { IfOk result (λ ends. (length ends.stops ≡ count)
            × ((n : ℕ) → stop_of ends n ≡ None) × (ends.failed ≡ None)) }
    {
        let mut stops = Vec::new(alloc);
        for _number in 0..count {
            stops.push(None)?;
        }
        Ok(Ends {
            stops,
            failed: None,
        })
    }

    /// For each location the flow of the runs that stopped there, if some did.
    pub fn stops(&self) -> &[Option<Flow>]
        ensures { result.now ≡ self.now.stops }
    {
        &self.stops
    }

    /// The truth that says whether a run failed, which is wanting where none did.
    pub fn failed(&self) -> Option<TermId>
        ensures { result ≡ self.now.failed }
    {
        self.failed
    }

    /// The runs of a flow fail at which a truth holds.
    pub fn fail(
        &mut self,
        terms: &mut Terms,
        flow: &Flow,
        truth: Option<TermId>,
    ) -> Result<(), AllocError>
        requires sound { IsSound terms.old }
        requires failed { IsTruth terms.old self.old.failed }
        requires guard { IsTerm terms.old 1 flow.now.guard }
        requires truth { IsTruth terms.old truth }
        ensures { OnOk result
            (Fails terms.old terms.new flow.now (λ u v. truth_at u v truth) self.old self.new) }
    {
        let fails = where_true(terms, flow.guard, truth)?;
        let failed = either(terms, self.failed, fails)?;
        self.failed = failed;
        Ok(())
    }

    /// The runs of a flow stop at the location of a number.
    pub fn stop(
        &mut self,
        alloc: Global,
        terms: &mut Terms,
        number: usize,
        flow: Flow,
    ) -> Result<(), AllocError>
        requires sound { IsSound terms.old }
        requires within { number < length self.old.stops }
        requires flows { (x : CellTables) × IfSome (stop_of self.old number) (IsFlow x terms.old)
            × IsFlow x terms.old flow }
        ensures { OnOk result (Stops terms.old terms.new number flow self.old self.new) }
    {
        let before = self.stops[number].take();
        let joined = joined_flows(alloc, terms, before, Some(flow))?;
        self.stops[number] = joined;
        Ok(())
    }
}
