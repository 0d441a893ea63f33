//! The conditions that are tried chain by chain.
ghost use Rattle.std.specs.Prelude.{◌≡◌, [], ◌∷◌, ℕ, IfOk, List, Some, length, slice_get};
ghost use Rattle.std.specs.List.{flat_map, range_with_len};
ghost use Rattle.tm_envcheck.specs.Inner.Over.{AreSets, IsLevelOver, IsReady, chains_in};
ghost use Rattle.tm_envcheck.specs.Inner.Parts.{RestsOnChain, chain_parts_at};
ghost use Rattle.tm_envcheck.specs.Inner.Told.{TellsLevel, TellsSet};
ghost use Rattle.tm_envcheck.specs.Tried.{AreTried};
ghost use Rattle.tm_envcheck.specs.Verdict.{CanCheck};
ghost use Rattle.tm_game.specs.Game.{Grows, IsSet};
ghost use Rattle.tm_sem.specs.Certificates.{Level};
ghost use Rattle.tm_syntax.specs.Design.{DesignTree};
ghost use Rattle.tm_verdict.specs.Environment.{chain_parts, chain_places, is_in_chain, set_parts, waits_or_falls};

use crate::levels::LevelDiagrams;
use crate::reports::{fails, fails_at};
use crate::sets::without;
use crate::stuck::{stuck, union};
use std::alloc::AllocError;
use tm_dd::{FALSE, NodeId};
use tm_game::Game;
use tm_verdict::Verdict;

/// What is tried of each chain.
#[derive(Clone, Copy)]
pub(crate) enum ChainCondition {
    /// It is not empty, grows, and lies in its level.
    Shaped,
    /// Every new state of its level is in it.
    Holding,
    /// At a new state its condition holds, or the state can be forced into the set before its place, or the level
    /// before.
    Waiting,
}

/// Whether a condition holds of each chain of a level, in order.
pub(crate) fn over_chains(
    game: &mut Game,
    level: &LevelDiagrams,
    tried: ChainCondition,
) -> Result<Verdict, AllocError>
    requires ready { IsReady game.old }
    requires level { IsLevelOver game.old level.now }

    ensures grows { Grows game.old game.new }
    ensures tried { IfOk result (λ v. (d : DesignTree) (of : List Level) (k : ℕ) → CanCheck d game.old
        → TellsLevel d game.old of k level.now → ((i : ℕ) → RestsOnChain d of tried k i)
        → AreTried d of (flat_map (chain_parts_at tried of k) (chain_places of k)) v) }
{
    let chains = level.chains.as_slice();
    for (fair, chain) in chains.iter().enumerate() {
        pass!(try_chain(game, level, fair, chain.as_slice(), tried)?);
    }
    Ok(Verdict::Accepted)
}

// Whether a condition holds of the chain of a fairness condition.
fn try_chain(
    game: &mut Game,
    level: &LevelDiagrams,
    fair: usize,
    chain: &[NodeId],
    tried: ChainCondition,
) -> Result<Verdict, AllocError>
    requires ready { IsReady game.old }
    requires level { IsLevelOver game.old level.now }
    requires chain { slice_get (chains_in level.now) fair ≡ Some chain.now }

    ensures grows { Grows game.old game.new }
    ensures tried { IfOk result (λ v. (d : DesignTree) (of : List Level) (k : ℕ) → CanCheck d game.old
        → TellsLevel d game.old of k level.now → RestsOnChain d of tried k fair
        → AreTried d of (chain_parts_at tried of k fair) v) }
{
    match tried {
        ChainCondition::Shaped => shaped(game, level, chain),
        ChainCondition::Holding => holding(game, level, chain),
        ChainCondition::Waiting => waiting(game, level, fair, chain),
    }
}

// A chain that is empty names no state.
fn shaped(game: &mut Game, level: &LevelDiagrams, chain: &[NodeId]) -> Result<Verdict, AllocError>
    requires ready { IsReady game.old }
    requires level { IsLevelOver game.old level.now }
    requires chain { AreSets game.old chain.now }

    ensures grows { Grows game.old game.new }
    ensures tried { IfOk result (λ v. (d : DesignTree) (of : List Level) (k i : ℕ) → CanCheck d game.old
        → TellsLevel d game.old of k level.now → slice_get (chains_in level.now) i ≡ Some chain.now
        → AreTried d of (chain_parts of k i) v) }
{
    if chain.is_empty() {
        fails(game, 0, level.goal)
    } else {
        over_sets(game, level, chain)
    }
}

// Whether each set of a chain holds the one before it, and lies in the level.
fn over_sets(
    game: &mut Game,
    level: &LevelDiagrams,
    chain: &[NodeId],
) -> Result<Verdict, AllocError>
    requires level { IsLevelOver game.old level.now }
    requires chain { AreSets game.old chain.now }

    ensures grows { Grows game.old game.new }
    ensures tried { IfOk result (λ v. (d : DesignTree) (of : List Level) (k i : ℕ) → CanCheck d game.old
        → TellsLevel d game.old of k level.now → slice_get (chains_in level.now) i ≡ Some chain.now
        → AreTried d of (flat_map (set_parts k i) (range_with_len 0 (length chain.now))) v) }
{
    let mut before = FALSE;
    for set in chain {
        pass!(try_set(game, level, before, *set)?);
        before = *set;
    }
    Ok(Verdict::Accepted)
}

// Whether a set of a chain holds the one before it, and lies in the level.
fn try_set(
    game: &mut Game,
    level: &LevelDiagrams,
    before: NodeId,
    set: NodeId,
) -> Result<Verdict, AllocError>
    requires level { IsLevelOver game.old level.now }
    requires before { IsSet game.old before }
    requires set { IsSet game.old set }

    ensures grows { Grows game.old game.new }
    ensures tried { IfOk result (λ v. (d : DesignTree) (of : List Level) (k i x : ℕ) → CanCheck d game.old
        → TellsLevel d game.old of k level.now → TellsSet d game.old of k i x before set
        → AreTried d of (set_parts k i x) v) }
{
    let lost = without(game, before, set)?;
    pass!(fails_at(game, 0, level.goal, lost)?);
    let outside = without(game, set, level.set)?;
    fails_at(game, 0, level.goal, outside)
}

fn holding(game: &mut Game, level: &LevelDiagrams, chain: &[NodeId]) -> Result<Verdict, AllocError>
    requires level { IsLevelOver game.old level.now }
    requires chain { AreSets game.old chain.now }

    ensures grows { Grows game.old game.new }
    ensures tried { IfOk result (λ v. (d : DesignTree) (of : List Level) (k i : ℕ) → CanCheck d game.old
        → TellsLevel d game.old of k level.now → slice_get (chains_in level.now) i ≡ Some chain.now
        → AreTried d of (is_in_chain k i ∷ []) v) }
{
    let held = union(game, chain)?;
    let outside = without(game, level.added, held)?;
    fails_at(game, 3, level.goal, outside)
}

fn waiting(
    game: &mut Game,
    level: &LevelDiagrams,
    fair: usize,
    chain: &[NodeId],
) -> Result<Verdict, AllocError>
    requires ready { IsReady game.old }
    requires level { IsLevelOver game.old level.now }
    requires chain { slice_get (chains_in level.now) fair ≡ Some chain.now }

    ensures grows { Grows game.old game.new }
    ensures tried { IfOk result (λ v. (d : DesignTree) (of : List Level) (k : ℕ) → CanCheck d game.old
        → TellsLevel d game.old of k level.now → RestsOnChain d of ChainCondition.Waiting k fair
        → AreTried d of (waits_or_falls k fair ∷ []) v) }
{
    let met = game.fairs()[fair];
    let unmet = without(game, level.added, met)?;
    let failing = stuck(game, unmet, level.before, chain)?;
    fails_at(game, 5, level.goal, failing)
}
