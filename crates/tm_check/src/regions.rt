//! The conditions on sets alone: C0, C1 and C2.
ghost use Rattle.std.specs.List.{flat_map};
ghost use Rattle.std.specs.Prelude.{◌≡◌, ◌<◌, ◌∷◌, [], IfOk, List, length, map};
ghost use Rattle.tm_check.specs.Loaded.{row_at};
ghost use Rattle.tm_check.specs.Told.{HasTold, IsTold, last_within};
ghost use Rattle.tm_check.specs.Tried.{AreTried};
ghost use Rattle.tm_cir.specs.Answer.{Answers};
ghost use Rattle.tm_cir.specs.Tree.{BlockTree};
ghost use Rattle.tm_game.specs.Game.{Grows};
ghost use Rattle.tm_sem.specs.Certificates.{DriverSets};
ghost use Rattle.tm_syntax.specs.Design.{DesignTree};
ghost use Rattle.tm_verdict.specs.Driver.{adds_state, begins_within, goal_parts, goals_of, is_ranked, lies_within};
ghost use Rattle.tm_verdict.specs.Driver.{region_parts};

use crate::loaded::{DriverDiagrams, rank_count, ranked_at};
use crate::trying::{try_part, without};
use std::alloc::AllocError;
use tm_dd::{FALSE, NodeId};
use tm_game::Game;
use tm_verdict::Verdict;

/// C0: each ranked region lies in the region, and adds a state.
pub(crate) fn regions(game: &mut Game, told: &DriverDiagrams) -> Result<Verdict, AllocError>
    requires told { HasTold game.old told.now }

    ensures grows { Grows game.old game.new }
    ensures tried { IfOk result (λ verdict. (d : DesignTree) (bs : List BlockTree) (c : DriverSets)
        → IsTold d bs c game.old told.now → AreTried d (Answers bs) c (flat_map (goal_parts c) (goals_of c)) verdict) }
{
    for goal in 0..told.goals.len() {
        let verdict = goal_regions(game, told, goal)?;
        match verdict {
            Verdict::Accepted => {}
            refused => return Ok(refused),
        }
    }
    Ok(Verdict::Accepted)
}

// C0 for one goal: each of its ranked regions lies in the region, and adds a state.
fn goal_regions(game: &mut Game, told: &DriverDiagrams, goal: usize) -> Result<Verdict, AllocError>
    requires told { HasTold game.old told.now }
    requires goal { goal < length told.now.goals.items }

    ensures grows { Grows game.old game.new }
    ensures tried { IfOk result (λ verdict. (d : DesignTree) (bs : List BlockTree) (c : DriverSets)
        → IsTold d bs c game.old told.now → AreTried d (Answers bs) c (goal_parts c goal) verdict) }
{
    let count = rank_count(told, goal);
    for index in 0..count {
        let verdict = ranked_region(game, told, goal, index)?;
        match verdict {
            Verdict::Accepted => {}
            refused => return Ok(refused),
        }
    }
    Ok(Verdict::Accepted)
}

// C0 for one ranked region: it lies in the region, and adds a state.
fn ranked_region(
    game: &mut Game,
    told: &DriverDiagrams,
    goal: usize,
    index: usize,
) -> Result<Verdict, AllocError>
    requires told { HasTold game.old told.now }
    requires goal { goal < length told.now.goals.items }
    requires index { index < length (row_at told.now goal) }

    ensures grows { Grows game.old game.new }
    ensures tried { IfOk result (λ verdict. (d : DesignTree) (bs : List BlockTree) (c : DriverSets)
        → IsTold d bs c game.old told.now → AreTried d (Answers bs) c (region_parts goal index) verdict) }
{
    let lying = lying(game, told, goal, index)?;
    match lying {
        Verdict::Accepted => {
            let adding = adding(game, told, goal, index)?;
            Ok(adding)
        }
        refused => Ok(refused),
    }
}

// A ranked region lies in the region.
fn lying(
    game: &mut Game,
    told: &DriverDiagrams,
    goal: usize,
    index: usize,
) -> Result<Verdict, AllocError>
    requires told { HasTold game.old told.now }
    requires goal { goal < length told.now.goals.items }
    requires index { index < length (row_at told.now goal) }

    ensures grows { Grows game.old game.new }
    ensures tried { IfOk result (λ verdict. (d : DesignTree) (bs : List BlockTree) (c : DriverSets)
        → IsTold d bs c game.old told.now → AreTried d (Answers bs) c (lies_within goal index ∷ []) verdict) }
{
    let rank = ranked_at(told, goal, index);
    let outside = without(game, rank.set, told.region)?;
    let verdict = try_part(game, 0, goal as u32, outside)?;
    Ok(verdict)
}

// A ranked region adds a state. One that adds none names none: the least initial state is reported.
fn adding(
    game: &mut Game,
    told: &DriverDiagrams,
    goal: usize,
    index: usize,
) -> Result<Verdict, AllocError>
    requires told { HasTold game.old told.now }
    requires goal { goal < length told.now.goals.items }
    requires index { index < length (row_at told.now goal) }

    ensures grows { Grows game.old game.new }
    ensures tried { IfOk result (λ verdict. (d : DesignTree) (bs : List BlockTree) (c : DriverSets)
        → IsTold d bs c game.old told.now → AreTried d (Answers bs) c (adds_state goal index ∷ []) verdict) }
{
    let rank = ranked_at(told, goal, index);
    let added = without(game, rank.set, rank.before)?;
    let found = game.manager().least(added)?;
    if found.is_some() {
        return Ok(Verdict::Accepted);
    }
    let initial = game.initial();
    let verdict = try_part(game, 0, goal as u32, initial)?;
    Ok(verdict)
}

/// C1: every initial state is in the region.
pub(crate) fn beginning(game: &mut Game, told: &DriverDiagrams) -> Result<Verdict, AllocError>
    requires told { HasTold game.old told.now }

    ensures grows { Grows game.old game.new }
    ensures tried { IfOk result (λ verdict. (d : DesignTree) (bs : List BlockTree) (c : DriverSets)
        → IsTold d bs c game.old told.now → AreTried d (Answers bs) c (begins_within ∷ []) verdict) }
{
    let initial = game.initial();
    let outside = without(game, initial, told.region)?;
    let verdict = try_part(game, 1, 0, outside)?;
    Ok(verdict)
}

/// C2: every state of the region has a rank for each goal.
pub(crate) fn ranking(game: &mut Game, told: &DriverDiagrams) -> Result<Verdict, AllocError>
    requires told { HasTold game.old told.now }

    ensures grows { Grows game.old game.new }
    ensures tried { IfOk result (λ verdict. (d : DesignTree) (bs : List BlockTree) (c : DriverSets)
        → IsTold d bs c game.old told.now → AreTried d (Answers bs) c (map is_ranked (goals_of c)) verdict) }
{
    for goal in 0..told.goals.len() {
        let verdict = goal_ranking(game, told, goal)?;
        match verdict {
            Verdict::Accepted => {}
            refused => return Ok(refused),
        }
    }
    Ok(Verdict::Accepted)
}

// C2 for one goal: every state of the region has a rank for it.
fn goal_ranking(game: &mut Game, told: &DriverDiagrams, goal: usize) -> Result<Verdict, AllocError>
    requires told { HasTold game.old told.now }
    requires goal { goal < length told.now.goals.items }

    ensures grows { Grows game.old game.new }
    ensures tried { IfOk result (λ verdict. (d : DesignTree) (bs : List BlockTree) (c : DriverSets)
        → IsTold d bs c game.old told.now → AreTried d (Answers bs) c (is_ranked goal ∷ []) verdict) }
{
    let ranked = all_ranked(told, goal);
    let outside = without(game, told.region, ranked)?;
    let verdict = try_part(game, 2, goal as u32, outside)?;
    Ok(verdict)
}

/// The states that have a rank for a goal.
pub(crate) fn all_ranked(told: &DriverDiagrams, goal: usize) -> NodeId
    requires { goal < length told.now.goals.items }
    ensures { result ≡ last_within (row_at told.now goal) }
{
    let ranks = &told.goals[goal];
    if ranks.is_empty() {
        return FALSE;
    }
    ranks[ranks.len() - 1].within
}
