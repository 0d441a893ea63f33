//! The walk behind every operation: if-then-else of three functions, each choice once.
ghost use Rattle.std.specs.Prelude.{◌≡◌, ◌<◌, ◌≤◌, ◌+◌, ℕ, Bool, min, true, false, Some, None, IfSome, IfNone, IfOk, OnOk, OnErr, if◌then◌else◌, List, length};
ghost use Rattle.tm_ddops.specs.declared.choice.Choice.{Choice};
ghost use Rattle.tm_dd.specs.Table.{Table, Knows, depth_of, kept, means, rank_of};
ghost use Rattle.tm_dd.specs.Reduced.{Extends, IsDeeper, IsReduced};
ghost use Rattle.tm_ddops.specs.Choice.{choice_level, cofactor_choice, KnowsChoice, IsChoice, IsOpen};
ghost use Rattle.tm_ddops.specs.Inner.Memo.{Memo, choice_eq, noted, AreChoices, NotesOnlyMet, RisesByNotes, IsUnnoted, HasOpen};

use crate::choice::Choice;
use std::alloc::AllocError;
use std::collections::HashMap;
use std::hash::BuildHasherDefault;
use tm_base::Steps;
use tm_dd::{NodeId, NumberHasher, Store};

/// The choices that walks have met, with their ids.
pub(crate) type Memo = HashMap<Choice, NodeId, BuildHasherDefault<NumberHasher>>;

/// The id of a choice, by a walk. It meets no choice that the memo notes.
pub(crate) fn walk<L>(
    store: &mut Store,
    choice: Choice,
    memo: &mut Memo,
    steps: &mut Steps<L>,
) -> Result<NodeId, AllocError>
    requires reduced { IsReduced store.old }
    requires known { KnowsChoice store.old choice }
    requires notes { AreChoices store.old memo.old }

    ensures extends { Extends store.old store.new }
    ensures reduced { IsReduced store.new }
    ensures notes { AreChoices store.new memo.new }
    ensures answer { IfOk result (IsChoice store.new choice) }

    // At most one request and one node for each open choice on the way down.
    ensures requests { (choices : List Choice) → HasOpen store.new choice choices →
        steps.new ≤ steps.old + length choices }
    ensures nodes { (choices : List Choice) → HasOpen store.new choice choices →
        kept store.new ≤ kept store.old + length choices }
{
    let answer = choose(store, choice, memo, steps);
    prove!(memo.len() < usize::MAX);
    answer
}

/// The id of a choice. Of the choices on the way down from it each is met once: `memo` notes their ids.
pub(crate) fn choose<L>(
    store: &mut Store,
    choice: Choice,
    memo: &mut Memo,
    steps: &mut Steps<L>,
) -> Result<NodeId, AllocError>
    requires reduced { IsReduced store.old }
    requires known { KnowsChoice store.old choice }
    requires notes { AreChoices store.old memo.old }

    ensures extends { Extends store.old store.new }
    ensures reduced { IsReduced store.new }
    ensures notes { AreChoices store.new memo.new }
    ensures met { NotesOnlyMet store.new choice memo.old memo.new }
    ensures answer { IfOk result (IsChoice store.new choice) }

    // Each request is noted, but for one that was refused.
    ensures requests { OnOk result (RisesByNotes memo.old memo.new 0 steps.old steps.new) }
    ensures nodes { OnOk result (RisesByNotes memo.old memo.new 0 (kept store.old) (kept store.new)) }
    ensures unnoted { OnErr result (IsUnnoted store.new choice memo.new) }
    ensures refused_requests { OnErr result (RisesByNotes memo.old memo.new 1 steps.old steps.new) }
    ensures refused_nodes { OnErr result (RisesByNotes memo.old memo.new 1 (kept store.old) (kept store.new)) }
{
    if let Some(known) = choice.shortcut() {
        return Ok(known);
    }
    if let Some(known) = memo.get(&choice) {
        return Ok(*known);
    }
    let level = choice.level(store);
    let (low, high) = choice.cofactors(store, level);
    let lo = choose(store, low, memo, steps)?;
    let hi = choose(store, high, memo, steps)?;
    join(store, choice, level, lo, hi, memo, steps)
}

/// Makes and notes the id of a choice, whose highest level is this one, from those of its two cofactors.
fn join<L>(
    store: &mut Store,
    choice: Choice,
    level: u32,
    lo: NodeId,
    hi: NodeId,
    memo: &mut Memo,
    steps: &mut Steps<L>,
) -> Result<NodeId, AllocError>
    requires reduced { IsReduced store.old }
    requires known { KnowsChoice store.old choice }
    requires open { IsOpen choice }
    requires notes { AreChoices store.old memo.old }
    requires absent { noted memo.old choice ≡ None }
    requires level { level ≡ choice_level store.old choice }
    requires lo { IsChoice store.old (cofactor_choice store.old choice false) lo }
    requires hi { IsChoice store.old (cofactor_choice store.old choice true) hi }

    ensures extends { Extends store.old store.new }
    ensures reduced { IsReduced store.new }
    ensures notes { AreChoices store.new memo.new }
    ensures met { NotesOnlyMet store.new choice memo.old memo.new }
    ensures answer { IfOk result (IsChoice store.new choice) }
    ensures unnoted { OnErr result (IsUnnoted store.new choice memo.new) }
    ensures requests { OnOk result (RisesByNotes memo.old memo.new 0 steps.old steps.new) }
    ensures nodes { OnOk result (RisesByNotes memo.old memo.new 0 (kept store.old) (kept store.new)) }
    ensures refused_requests { OnErr result (RisesByNotes memo.old memo.new 1 steps.old steps.new) }
    ensures refused_nodes { OnErr result (RisesByNotes memo.old memo.new 1 (kept store.old) (kept store.new)) }
{
    let id = branch(store, level, lo, hi, steps)?;
    memo.insert(choice, id)?;
    Ok(id)
}

/// The function that is `hi` where the level's value is true, and `lo` where it is false. It makes no request where
/// both are equal.
pub(crate) fn branch<L>(
    store: &mut Store,
    level: u32,
    lo: NodeId,
    hi: NodeId,
    steps: &mut Steps<L>,
) -> Result<NodeId, AllocError>
    requires reduced { IsReduced store.old }
    requires level { level < store.old.levels }
    requires lo_known { Knows store.old lo }
    requires hi_known { Knows store.old hi }
    requires lo_deeper { IsDeeper store.old level lo }
    requires hi_deeper { IsDeeper store.old level hi }

    ensures extends { Extends store.old store.new }
    ensures reduced { IsReduced store.new }
    ensures known { IfOk result (λ r. Knows store.new r) }
    ensures deep { IfOk result (λ r. rank_of store.new level ≤ depth_of store.new r) }
    ensures meaning { IfOk result (λ r. (v : ℕ → Bool) →
        means store.new r v ≡ (if v level then means store.old hi v else means store.old lo v)) }
    ensures requests { steps.new ≤ steps.old + 1 }
    ensures nodes { kept store.new ≤ kept store.old + 1 }
{
    if lo == hi {
        return Ok(lo);
    }
    store.make(level, lo, hi, steps)
}
