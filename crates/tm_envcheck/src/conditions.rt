//! The conditions that are tried level by level.
ghost use Rattle.std.specs.Prelude.{[], ◌∷◌, ℕ, IfOk, List};
ghost use Rattle.std.specs.List.{flat_map};
ghost use Rattle.tm_envcheck.specs.Inner.Over.{AreLevelsOver, IsLevelOver, IsReady};
ghost use Rattle.tm_envcheck.specs.Inner.Parts.{Rests, parts_at};
ghost use Rattle.tm_envcheck.specs.Inner.Told.{TellLevels, TellsLevel};
ghost use Rattle.tm_envcheck.specs.Tried.{AreTried};
ghost use Rattle.tm_envcheck.specs.Verdict.{CanCheck};
ghost use Rattle.tm_game.specs.Game.{Grows};
ghost use Rattle.tm_sem.specs.Certificates.{Level};
ghost use Rattle.tm_syntax.specs.Design.{DesignTree};
ghost use Rattle.tm_verdict.specs.Environment.{has_new, holds_before, is_forced_on, is_forced_within, level_places};

use crate::chains::{ChainCondition, over_chains};
use crate::levels::LevelDiagrams;
use crate::reports::{fails_at, wants};
use crate::sets::{both, unforced, without};
use std::alloc::AllocError;
use tm_game::Game;
use tm_verdict::Verdict;

/// What is tried of each level.
#[derive(Clone, Copy)]
pub(crate) enum LevelCondition {
    /// E0: it holds the level before and a new state, and its chains are not empty, grow, and lie in it.
    Shape,
    /// E2: a new state at which its goal holds can be forced into the level before.
    ForcedOn,
    /// E3: every new state is in each of its chains.
    InChains,
    /// E4: every new state can be forced into it.
    ForcedWithin,
    /// E5: at a new state the condition of a chain holds, or the state can be forced into the set of the chain before
    /// its place, or the level before.
    WaitsOrFalls,
}

/// Whether a condition holds of each level, in order.
pub(crate) fn over_levels(
    game: &mut Game,
    levels: &[LevelDiagrams],
    tried: LevelCondition,
) -> Result<Verdict, AllocError>
    requires ready { IsReady game.old }
    requires levels { AreLevelsOver game.old levels.now }

    ensures grows { Grows game.old game.new }
    ensures tried { IfOk result (λ v. (d : DesignTree) (of : List Level) → CanCheck d game.old
        → TellLevels d game.old of levels.now → ((k : ℕ) → Rests d of tried k)
        → AreTried d of (flat_map (parts_at tried of) (level_places of)) v) }
{
    for level in levels {
        pass!(try_level(game, level, tried)?);
    }
    Ok(Verdict::Accepted)
}

// Whether a condition holds of a level.
fn try_level(
    game: &mut Game,
    level: &LevelDiagrams,
    tried: LevelCondition,
) -> Result<Verdict, AllocError>
    requires ready { IsReady game.old }
    requires level { IsLevelOver game.old level.now }

    ensures grows { Grows game.old game.new }
    ensures tried { IfOk result (λ v. (d : DesignTree) (of : List Level) (k : ℕ) → CanCheck d game.old
        → TellsLevel d game.old of k level.now → Rests d of tried k → AreTried d of (parts_at tried of k) v) }
{
    match tried {
        LevelCondition::Shape => shape(game, level),
        LevelCondition::ForcedOn => forced_on(game, level),
        LevelCondition::InChains => over_chains(game, level, ChainCondition::Holding),
        LevelCondition::ForcedWithin => forced_within(game, level),
        LevelCondition::WaitsOrFalls => over_chains(game, level, ChainCondition::Waiting),
    }
}

fn shape(game: &mut Game, level: &LevelDiagrams) -> Result<Verdict, AllocError>
    requires ready { IsReady game.old }
    requires level { IsLevelOver game.old level.now }

    ensures grows { Grows game.old game.new }
    ensures tried { IfOk result (λ v. (d : DesignTree) (of : List Level) (k : ℕ) → CanCheck d game.old
        → TellsLevel d game.old of k level.now → AreTried d of (parts_at LevelCondition.Shape of k) v) }
{
    pass!(holding_before(game, level)?);
    pass!(having_new(game, level)?);
    over_chains(game, level, ChainCondition::Shaped)
}

fn holding_before(game: &mut Game, level: &LevelDiagrams) -> Result<Verdict, AllocError>
    requires level { IsLevelOver game.old level.now }
    ensures grows { Grows game.old game.new }
    ensures tried { IfOk result (λ v. (d : DesignTree) (of : List Level) (k : ℕ) → CanCheck d game.old
        → TellsLevel d game.old of k level.now → AreTried d of (holds_before k ∷ []) v) }
{
    let lost = without(game, level.before, level.set)?;
    fails_at(game, 0, level.goal, lost)
}

fn having_new(game: &mut Game, level: &LevelDiagrams) -> Result<Verdict, AllocError>
    requires ready { IsReady game.old }
    requires level { IsLevelOver game.old level.now }
    ensures grows { Grows game.old game.new }
    ensures tried { IfOk result (λ v. (d : DesignTree) (of : List Level) (k : ℕ) → CanCheck d game.old
        → TellsLevel d game.old of k level.now → AreTried d of (has_new k ∷ []) v) }
{
    wants(game, 0, level.goal, level.added)
}

fn forced_on(game: &mut Game, level: &LevelDiagrams) -> Result<Verdict, AllocError>
    requires ready { IsReady game.old }
    requires level { IsLevelOver game.old level.now }
    ensures grows { Grows game.old game.new }
    ensures tried { IfOk result (λ v. (d : DesignTree) (of : List Level) (k : ℕ) → CanCheck d game.old
        → TellsLevel d game.old of k level.now → AreTried d of (is_forced_on k ∷ []) v) }
{
    let holds = game.goal(level.goal);
    let here = both(game, level.added, holds)?;
    let failing = unforced(game, here, level.before)?;
    fails_at(game, 2, level.goal, failing)
}

fn forced_within(game: &mut Game, level: &LevelDiagrams) -> Result<Verdict, AllocError>
    requires ready { IsReady game.old }
    requires level { IsLevelOver game.old level.now }
    ensures grows { Grows game.old game.new }
    ensures tried { IfOk result (λ v. (d : DesignTree) (of : List Level) (k : ℕ) → CanCheck d game.old
        → TellsLevel d game.old of k level.now → AreTried d of (is_forced_within k ∷ []) v) }
{
    let failing = unforced(game, level.added, level.set)?;
    fails_at(game, 4, level.goal, failing)
}
