//! A design with the tables of its text.
ghost use Rattle.std.specs.Prelude.{◌≡◌, ◌≤◌, IfOk, length};
ghost use Rattle.tm_syntax.specs.declared.member.Member as numbered;
ghost use Rattle.tm_syntax.specs.Tree.View.{spec_tree};
ghost use Rattle.tm_syntax.specs.Scopes.Calls.{Reaches};
ghost use Rattle.tm_syntax.specs.Scopes.Pauses.{call_depth};
ghost use Rattle.tm_syntax.specs.Design.View.{design_tree};
ghost use Rattle.tm_syntax.specs.Faults.{IsOfText, IsSound};
ghost use Rattle.tm_scope.specs.CallOrder.{CoversTasks, IsCallOrder};
ghost use Rattle.tm_scope.specs.Cells.{ArePausing};

use std::alloc::{AllocError, Global};
use std::marker::Model;
use tm_scope::{Scopes, TaskSet, call_order, ordered_tasks_are_pausing, pausing_tasks};
use tm_syntax::design::Design;
use tm_syntax::member::Member;

/// A design that keeps its facts, with the tables of its text: those of its names, its tasks in an order in which each
/// stands behind all that it calls, and which of them may pause.
///
/// Contracts see the design.
#[derive(Drop)]
pub struct Tables<'d> {
    pub(crate) design: &'d Design,
    pub(crate) scopes: Scopes<'d>,
    pub(crate) order: Vec<Member>,
    pub(crate) pausing: TaskSet,
}

impl<'d> Model for Tables<'d> {
    ghost use Rattle.tm_syntax.specs.declared.design.Design.{Design};
    ghost use Rattle.tm_syntax.specs.contracts.design.Design as design_contract;
    ghost use Rattle.tm_plain.specs.Machine.{AreTables};

    ghost Value = { Design };

    ghost view = { λ t. t.design.now };

    ghost invariant = { λ t. AreTables t.design.now t.scopes t.order.items t.pausing };

    ghost coded = { design_contract.the_row.coded };
}

// The tasks of a text in an order in which each stands behind all that it calls.
fn task_order(alloc: Global, scopes: &Scopes) -> Result<Vec<Member>, AllocError>
    requires { (m : numbered.Member) → ¬ Reaches (spec_tree scopes.now) m m }
    ensures ordered { IfOk result (λ order. IsCallOrder (spec_tree scopes.now) order.items) }
    ensures covers { IfOk result (λ order. CoversTasks (spec_tree scopes.now) order.items) }
    ensures short { IfOk result (λ order. length order.items ≤ call_depth (spec_tree scopes.now)) }
{
    match call_order(alloc, scopes)? {
        Some(order) => Ok(order),
        None => unreachable!(),
    }
}

// The tasks of a text that may pause, from an order of all tasks.
fn pausing_of(alloc: Global, scopes: &Scopes, order: &[Member]) -> Result<TaskSet, AllocError>
    requires ordered { IsCallOrder (spec_tree scopes.now) order.now }
    requires covers { CoversTasks (spec_tree scopes.now) order.now }
    requires short { length order.now ≤ call_depth (spec_tree scopes.now) }
    ensures { IfOk result (ArePausing (spec_tree scopes.now)) }
{
    let tasks = pausing_tasks(alloc, scopes, order)?;
    ordered_tasks_are_pausing();
    Ok(tasks)
}

// The tasks of a text in an order in which each stands behind all that it calls, and those that may pause.
fn ordered_calls(alloc: Global, scopes: &Scopes) -> Result<(Vec<Member>, TaskSet), AllocError>
    requires { (m : numbered.Member) → ¬ Reaches (spec_tree scopes.now) m m }
    ensures ordered { IfOk result (λ calls. IsCallOrder (spec_tree scopes.now) calls.0.items) }
    ensures covers { IfOk result (λ calls. CoversTasks (spec_tree scopes.now) calls.0.items) }
    ensures short { IfOk result (λ calls. length calls.0.items ≤ call_depth (spec_tree scopes.now)) }
    ensures pausing { IfOk result (λ calls. ArePausing (spec_tree scopes.now) calls.1) }
{
    let order = match task_order(alloc, scopes) {
        Ok(order) => order,
        Err(error) => return Err(error),
    };
    match pausing_of(alloc, scopes, order.as_slice()) {
        Ok(pausing) => Ok((order, pausing)),
        Err(error) => Err(error),
    }
}

// The tables of a design, given those of the names of its text.
fn with_scopes<'d>(
    alloc: Global,
    design: &'d Design,
    scopes: Scopes<'d>,
) -> Result<Tables<'d>, AllocError>
    requires sound { IsSound (design_tree design.now) }
    requires read { IsOfText (spec_tree design.now.spec) }
    requires scopes { scopes ≡ design.now.spec }
    ensures { IfOk result (λ t. t ≡ design.now) }
{
    match ordered_calls(alloc, &scopes) {
        Ok((order, pausing)) => Ok(Tables {
            design,
            scopes,
            order,
            pausing,
        }),
        Err(error) => {
            drop(scopes);
            Err(error)
        }
    }
}

impl<'d> Tables<'d> {
    /// The tables of the design of a text that keeps its facts, in time linear in the text. `AllocError` is want of
    /// memory.
    pub fn new(alloc: Global, design: &'d Design) -> Result<Tables<'d>, AllocError>
        requires sound { IsSound (design_tree design.now) }
        requires read { IsOfText (spec_tree design.now.spec) }
        ensures { IfOk result (λ t. t ≡ design.now) }
    {
        match Scopes::new(alloc, &design.spec) {
            Ok(scopes) => with_scopes(alloc, design, scopes),
            Err(error) => Err(error),
        }
    }

    /// The design.
    pub fn design(&self) -> &Design
        ensures { result.now ≡ self.now }
    {
        self.design
    }

    /// The tables of the names of the design's text.
    pub fn scopes(&self) -> &Scopes<'d>
        ensures { result.now ≡ self.now.spec }
    {
        &self.scopes
    }

    /// How deep the calls of the design's text may nest: it has so many tasks and procedures.
    pub fn depth(&self) -> usize
        ensures { result ≡ call_depth (spec_tree self.now.spec) }
    {
        self.order.len()
    }

    /// Which tasks of the design's text may pause.
    pub fn pausing(&self) -> &TaskSet
        ensures { ArePausing (spec_tree self.now.spec) result.now }
    {
        &self.pausing
    }
}
