//! Parameters and locals, which live for one step.
ghost use Rattle.tm_syntax.specs.declared.fault.FaultKind.TheVariants as kind;
ghost use Rattle.tm_syntax.specs.Faults.{IsFree};
ghost use Rattle.tm_syntax.specs.Tree.View.{spec_tree};
ghost use Rattle.tm_scope.specs.Cells.{CellTables};
ghost use Rattle.tm_design.specs.StepCells.{AreApart};

use tm_scope::{SiteBody, SlotNumber};

/// A parameter or local that lives for one step: the body of an instance that has it, and its number there.
#[derive(Clone, Copy, PartialEq, Eq, Hash)]
pub struct StepCell {
    pub at: SiteBody,
    pub slot: SlotNumber,
}

/// In a text that declares no name twice in a scope, the parameters and locals of each body have names of their own.
#[tactic(auto, using(crate::proofs::Apart::slots_apart))]
pub fn slots_of_texts_are_apart()
    ensures { (x : CellTables) → IsFree (spec_tree x.spec) kind.Twice → AreApart x }
{}
