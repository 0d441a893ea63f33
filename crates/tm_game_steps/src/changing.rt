//! The levels that next numbers change.
ghost use Rattle.std.specs.Prelude.{◌≡◌, ◌+◌, ◌<◌, ◌≤◌, ◌^◌, ◌++◌, ℕ, IfOk, IsTrue, List, OnOk, length, slice_index};
ghost use Rattle.std.specs.List.{zip};
ghost use Rattle.tm_blast.specs.Bits.{AreLevels};
ghost use Rattle.tm_blast.specs.Memory.{AreMade};
ghost use Rattle.tm_blast.specs.Numbers.{level_lists};
ghost use Rattle.tm_dd.specs.Reduced.{Extends};
ghost use Rattle.tm_game_steps.specs.Inner.BelowChanged.{AreChangedBelow};
ghost use Rattle.tm_game_steps.specs.Changes.{AreApart, AreChanges, AreNext};
ghost use Rattle.tm_term.specs.Table.{IsKnown};
ghost use Rattle.tm_term.specs.Value.{value_of};

use std::alloc::{AllocError, Global};
use tm_blast::TermBits;
use tm_dd::NodeId;
use tm_ddops::Manager;
use tm_term::{Term, TermId, Terms};

/// The levels that change where each of the first inputs gets the value of a term, with the diagrams of what they
/// become. An input that gets its own value is left alone. What is made of terms is remembered, and every id keeps its
/// meaning, also where memory runs out.
pub fn changes(
    alloc: Global,
    terms: &Terms,
    next: &[TermId],
    levels: &[Vec<u32>],
    made: &mut TermBits,
    dd: &mut Manager,
) -> Result<Vec<(u32, NodeId)>, AllocError>
    requires next { AreNext terms.now next.now }
    requires count { length next.now ≤ length levels.now }
    requires few { length levels.now < 2 ^ 32 }
    requires apart { AreApart (level_lists levels.now) }
    requires levels { AreLevels terms.now dd.old.table.levels (level_lists levels.now) }
    requires made { AreMade terms.now (level_lists levels.now) dd.old.table made.old }

    ensures earlier { Extends dd.old.table dd.new.table }
    ensures made { AreMade terms.now (level_lists levels.now) dd.new.table made.new }
    ensures changes { IfOk result (λ list.
        AreChanges terms.now (level_lists levels.now) dd.new.table next.now list.items) }
{
    let mut changes = Vec::new(alloc);
    for input in 0..next.len() {
        push_change(alloc, terms, next, input, levels, made, dd, &mut changes)?;
    }
    Ok(changes)
}

// Puts the changes of one input behind those of the inputs below it.
fn push_change(
    alloc: Global,
    terms: &Terms,
    next: &[TermId],
    input: usize,
    levels: &[Vec<u32>],
    made: &mut TermBits,
    dd: &mut Manager,
    changes: &mut Vec<(u32, NodeId)>,
) -> Result<(), AllocError>
    requires next { AreNext terms.now next.now }
    requires count { length next.now ≤ length levels.now }
    requires few { length levels.now < 2 ^ 32 }
    requires within { input < length next.now }
    requires apart { AreApart (level_lists levels.now) }
    requires levels { AreLevels terms.now dd.old.table.levels (level_lists levels.now) }
    requires made { AreMade terms.now (level_lists levels.now) dd.old.table made.old }
    requires below { AreChangedBelow terms.now (level_lists levels.now) dd.old.table next.now changes.old.items input }

    ensures earlier { Extends dd.old.table dd.new.table }
    ensures made { AreMade terms.now (level_lists levels.now) dd.new.table made.new }
    ensures below { OnOk result (AreChangedBelow terms.now (level_lists levels.now) dd.new.table next.now
        changes.new.items (input + 1)) }
{
    let id = next[input];
    let kept = is_input(terms, id, input as u32);
    if kept {
        return Ok(());
    }
    let bits = made.bits(alloc, terms, id, levels, dd)?;
    push_pairs(changes, &levels[input], &bits)?;
    Ok(())
}

// Whether a term is the input of this number.
fn is_input(terms: &Terms, id: TermId, input: u32) -> bool
    requires { IsKnown terms.now id }
    ensures { IsTrue result → (values : List ℕ) → value_of terms.now values id ≡ slice_index values input }
{
    match terms.term(id) {
        Term::Input(number) => number == input,
        _ => false,
    }
}

// Puts levels with their diagrams behind others.
fn push_pairs(
    changes: &mut Vec<(u32, NodeId)>,
    levels: &[u32],
    bits: &[NodeId],
) -> Result<(), AllocError>
    requires { length levels.now ≡ length bits.now }
    ensures { OnOk result (changes.new.items ≡ changes.old.items ++ zip levels.now bits.now) }
{
    for i in 0..levels.len() {
        changes.push((levels[i], bits[i]))?;
    }
    Ok(())
}
