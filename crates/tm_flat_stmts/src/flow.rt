//! Where runs stand, as terms.
ghost use Rattle.std.specs.Prelude.{◌≡◌, IfOk, IfSome, Some, not};
ghost use Rattle.tm_base.specs.Arithmetic.{is_nonzero};
ghost use Rattle.tm_scope.specs.Cells.{CellTables};
ghost use Rattle.tm_term.specs.Table.{IsSound};
ghost use Rattle.tm_term.specs.Value.{value_of};
ghost use Rattle.tm_flat.specs.Steps.{IsTerm};
ghost use Rattle.tm_flat_exprs.specs.Made.{IsTruth, truth_at};
ghost use Rattle.tm_flat_stmts.specs.Flows.{IsFlow, MakesJoin, MakesJoinIfThere, Narrows, PutsAt};

use std::alloc::{AllocError, Global};
use std::marker::Model;
use tm_flat_exprs::{TermMemory, denial, make};
use tm_scope::{CellNumber, SiteBody};
use tm_term::{Term, TermId, Terms};

/// Where runs stand: a truth that says whether one stands there, the terms of its memory, and the position of the
/// choice bits at which it goes on.
///
/// Contracts see all three.
#[derive(Drop)]
pub struct Flow {
    pub(crate) guard: TermId,
    pub(crate) memory: TermMemory,
    pub(crate) position: u64,
}

impl Model for Flow {
    ghost use Rattle.tm_flat_stmts.specs.Flows.{FlowTerms};

    ghost Value = { FlowTerms };

    ghost view = { λ f. record { guard = f.guard; memory = f.memory; position = f.position } };
}

impl Flow {
    /// The flow in which a run stands where a truth holds.
    pub fn new(guard: TermId, memory: TermMemory, position: u64) -> Flow
        ensures { result ≡ record { guard = guard; memory = memory; position = position } }
    {
        Flow {
            guard,
            memory,
            position,
        }
    }

    /// The truth that says whether a run stands there.
    pub fn guard(&self) -> TermId
        ensures { result ≡ self.now.guard }
    {
        self.guard
    }

    /// The terms of the memory.
    pub fn memory(&self) -> &TermMemory
        ensures { result.now ≡ self.now.memory }
    {
        &self.memory
    }

    /// The position of the choice bits at which runs go on.
    pub fn position(&self) -> u64
        ensures { result ≡ self.now.position }
    {
        self.position
    }

    /// The runs of this flow, which go on at another position.
    pub fn moved(self, position: u64) -> Flow
        ensures { result ≡ record { guard = self.guard; memory = self.memory; position = position } }
    {
        Flow {
            guard: self.guard,
            memory: self.memory,
            position,
        }
    }

    /// A copy, linear in the cells. `AllocError` is want of memory.
    pub fn copied(&self, alloc: Global) -> Result<Flow, AllocError>
        ensures { IfOk result (λ f. f ≡ self.now) }
    {
        Ok(Flow {
            guard: self.guard,
            memory: self.memory.copied(alloc)?,
            position: self.position,
        })
    }

    /// The runs of this flow after a term was put into a cell, as a body of an instance numbers it. `AllocError` is
    /// want of memory.
    pub fn with(self, at: SiteBody, cell: CellNumber, id: TermId) -> Result<Flow, AllocError>
        ensures { IfOk result (PutsAt at cell id self) }
    {
        let mut memory = self.memory;
        memory.put(at, cell, id)?;
        Ok(Flow {
            guard: self.guard,
            memory,
            position: self.position,
        })
    }

    /// The runs of this flow at which a truth holds.
    pub fn narrowed(self, terms: &mut Terms, test: TermId) -> Result<Flow, AllocError>
        requires guard { IsTerm terms.old 1 self.guard }
        requires test { IsTerm terms.old 1 test }
        ensures { IfOk result (λ g.
            Narrows terms.old terms.new self g (λ u v. is_nonzero (value_of u v test))) }
    {
        let guard = make(terms, Term::And(self.guard, test))?;
        Ok(Flow {
            guard,
            memory: self.memory,
            position: self.position,
        })
    }

    /// The runs of this flow at which a truth does not hold. One that is wanting never does.
    pub fn without(self, terms: &mut Terms, truth: Option<TermId>) -> Result<Flow, AllocError>
        requires sound { IsSound terms.old }
        requires guard { IsTerm terms.old 1 self.guard }
        requires truth { IsTruth terms.old truth }
        ensures { IfOk result (λ g. Narrows terms.old terms.new self g (λ u v. not (truth_at u v truth))) }
    {
        match truth {
            None => Ok(self),
            Some(test) => {
                let fails = denial(terms, test)?;
                let flow = self.narrowed(terms, fails)?;
                Ok(flow)
            }
        }
    }

    /// The runs of this flow and of another one over the same cells, as one: where a run stands in both the memory is
    /// this one's. A run goes on at the later of the two positions. Linear in the cells.
    pub fn joined(self, alloc: Global, terms: &mut Terms, other: &Flow) -> Result<Flow, AllocError>
        requires sound { IsSound terms.old }
        requires flows { (x : CellTables) × IsFlow x terms.old self × IsFlow x terms.old other.now }
        ensures { IfOk result (MakesJoin terms.old terms.new self other.now) }
    {
        let guard = make(terms, Term::Or(self.guard, other.guard))?;
        let memory = self.memory.merge(alloc, terms, self.guard, &other.memory)?;
        let position = self.position.max(other.position);
        Ok(Flow {
            guard,
            memory,
            position,
        })
    }
}

// A flow, and one that may be wanting, as one.
fn joined_with(
    alloc: Global,
    terms: &mut Terms,
    first: Flow,
    second: Option<Flow>,
) -> Result<Option<Flow>, AllocError>
    requires sound { IsSound terms.old }
    requires flows { (x : CellTables) × IsFlow x terms.old first × IfSome second (IsFlow x terms.old) }
    ensures { IfOk result (MakesJoinIfThere terms.old terms.new (Some first) second) }
{
    match second {
        None => Ok(Some(first)),
        Some(other) => {
            let flow = first.joined(alloc, terms, &other)?;
            Ok(Some(flow))
        }
    }
}

/// Two flows as one, of those that are there.
pub fn joined_flows(
    alloc: Global,
    terms: &mut Terms,
    first: Option<Flow>,
    second: Option<Flow>,
) -> Result<Option<Flow>, AllocError>
    requires sound { IsSound terms.old }
    requires flows { (x : CellTables) × IfSome first (IsFlow x terms.old) × IfSome second (IsFlow x terms.old) }
    ensures { IfOk result (MakesJoinIfThere terms.old terms.new first second) }
{
    match first {
        None => Ok(second),
        Some(one) => {
            let flow = joined_with(alloc, terms, one, second)?;
            Ok(flow)
        }
    }
}
