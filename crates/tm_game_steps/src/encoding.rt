//! Terms whose inputs are bits of levels, and their truths as diagrams.
ghost use Rattle.std.specs.List.{range_with_len};
ghost use Rattle.std.specs.Prelude.{◌≡◌, ◌+◌, ◌<◌, ◌≤◌, ◌^◌, ℕ, Bool, List, IfOk};
ghost use Rattle.tm_base.specs.Arithmetic.{bit};
ghost use Rattle.tm_game_steps.specs.Changes.{AreChanges};
ghost use Rattle.tm_dd.specs.Reduced.{Extends};
ghost use Rattle.tm_flat.specs.Inputs.{room};
ghost use Rattle.tm_flat.specs.Steps.{IsTerm};
ghost use Rattle.tm_game_steps.specs.Inner.Reading.{AreChoicesBelow};
ghost use Rattle.tm_game_steps.specs.Setting.{AreNumbers, IsGuarded, IsReady, IsTruthIn, choices_of, setting_of};
ghost use Rattle.tm_term.specs.Value.{value_of};

use crate::{changes, truth};
use std::alloc::{AllocError, Global};
use tm_base::Steps;
use tm_blast::TermBits;
use tm_dd::NodeId;
use tm_ddops::Manager;
use tm_game_bits::ROOM;
use tm_term::{TermId, Terms};

/// Terms, and the levels of their inputs' bits, the most significant bit's first.
///
/// The first inputs are the numbers of a state, and the first levels are those of its bits. Behind them stand the
/// levels of bits of arguments, and then those of bits of choices.
#[derive(Drop)]
pub struct Encoding {
    pub alloc: Global,
    pub terms: Terms,
    pub levels: Vec<Vec<u32>>,
    /// How many levels are of a state.
    pub state_levels: u32,
    /// How many numbers a state has.
    pub numbers: usize,
    /// Which of them is the location of the first process.
    pub first: usize,
}

impl Encoding {
    /// The diagram that is true exactly where a term of one bit is 1. Every id keeps its meaning, also where memory
    /// runs out.
    pub fn truth(
        &self,
        id: TermId,
        made: &mut TermBits,
        dd: &mut Manager,
    ) -> Result<NodeId, AllocError>
        requires term { IsTerm self.now.terms 1 id }
        requires ready { IsReady (setting_of self.now) dd.old.table made.old }

        ensures earlier { Extends dd.old.table dd.new.table }
        ensures ready { IsReady (setting_of self.now) dd.new.table made.new }
        ensures truth { IfOk result (IsTruthIn (setting_of self.now) dd.new.table id) }
    {
        let node = truth(self.alloc, &self.terms, id, &self.levels, made, dd)?;
        Ok(node)
    }

    // A truth where a guard holds.
    pub(crate) fn guarded(
        &self,
        guard: TermId,
        id: TermId,
        made: &mut TermBits,
        dd: &mut Manager,
    ) -> Result<NodeId, AllocError>
        requires guard { IsTerm self.now.terms 1 guard }
        requires term { IsTerm self.now.terms 1 id }
        requires ready { IsReady (setting_of self.now) dd.old.table made.old }

        ensures earlier { Extends dd.old.table dd.new.table }
        ensures ready { IsReady (setting_of self.now) dd.new.table made.new }
        ensures guarded { (test : List ℕ → Bool)
            → ((values : List ℕ) → value_of self.now.terms values guard ≡ bit (test values))
            → IfOk result (IsGuarded (setting_of self.now) dd.new.table test id) }
    {
        let holds = self.truth(guard, made, dd)?;
        let node = self.truth(id, made, dd)?;
        let both = dd.and(holds, node, &mut Steps::new(()))?;
        Ok(both)
    }

    // The levels that change where the numbers of a state get the values of terms.
    pub(crate) fn changed(
        &self,
        next: &[TermId],
        made: &mut TermBits,
        dd: &mut Manager,
    ) -> Result<Vec<(u32, NodeId)>, AllocError>
        requires next { AreNumbers (setting_of self.now) next.now }
        requires ready { IsReady (setting_of self.now) dd.old.table made.old }

        ensures earlier { Extends dd.old.table dd.new.table }
        ensures ready { IsReady (setting_of self.now) dd.new.table made.new }
        ensures changes { IfOk result (λ list. AreChanges (setting_of self.now).terms (setting_of self.now).levels
            dd.new.table next.now list.items) }
    {
        let list = changes(self.alloc, &self.terms, next, &self.levels, made, dd)?;
        Ok(list)
    }

    // The levels of the bits of choices.
    pub(crate) fn choices(&self) -> Result<Vec<u32>, AllocError>
        requires { self.now.state_levels + 128 < 2 ^ 32 }
        ensures { IfOk result (λ levels. levels.items ≡ choices_of (setting_of self.now)) }
    {
        let first = self.state_levels + ROOM;
        let levels = level_range(self.alloc, first, ROOM)?;
        Ok(levels)
    }

    // Levels of bits of choices, among them all that are below a number.
    pub(crate) fn choices_below(&self, above: u64) -> Result<Vec<u32>, AllocError>
        requires { self.now.state_levels + 128 < 2 ^ 32 }
        ensures { IfOk result (λ levels. AreChoicesBelow (setting_of self.now) above levels.items) }
    {
        let first = self.state_levels + ROOM;
        let levels = level_range(self.alloc, first, count_below(first, above))?;
        Ok(levels)
    }

    // The levels of the bits of arguments.
    pub(crate) fn arguments(&self) -> Result<Vec<u32>, AllocError>
        requires { self.now.state_levels + 128 < 2 ^ 32 }
        ensures { IfOk result (λ levels. levels.items ≡ range_with_len self.now.state_levels room) }
    {
        let levels = level_range(self.alloc, self.state_levels, ROOM)?;
        Ok(levels)
    }
}

// So many levels from one on.
fn level_range(alloc: Global, first: u32, count: u32) -> Result<Vec<u32>, AllocError>
    requires { first + count < 2 ^ 32 }
    ensures { IfOk result (λ levels. levels.items ≡ range_with_len first count) }
{
    let mut levels = Vec::new(alloc);
    for bit in 0..count {
        levels.push(first + bit)?;
    }
    Ok(levels)
}

// How many bits have their levels below a number, where the first stands at a level, of those that there is room for.
fn count_below(first: u32, above: u64) -> u32
    ensures few { result ≤ 64 }
    ensures all { (k : ℕ) → k < first + 64 → k < above → k < first + result }
{
    let passed = above.saturating_sub(first as u64);
    if passed < ROOM as u64 {
        passed as u32
    } else {
        ROOM
    }
}
