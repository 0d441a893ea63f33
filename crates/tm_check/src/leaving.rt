//! The states from which not every step stays within some ranks.
ghost use Rattle.std.specs.Prelude.{◌≡◌, ◌+◌, ◌<◌, ℕ, Bool, true, IfOk, List, length};
ghost use Rattle.tm_check.specs.Good.{HasReplies};
ghost use Rattle.tm_check.specs.Leaving.{AreAnswers, AreLeaving, AreLeavingRanks, HasAnswers, HasRank, Plays};
ghost use Rattle.tm_check.specs.Loaded.{row_at};
ghost use Rattle.tm_check.specs.Told.{HasTold, IsTold};
ghost use Rattle.tm_cir.specs.Answer.{Answers};
ghost use Rattle.tm_cir.specs.Tree.{BlockTree};
ghost use Rattle.tm_dd.specs.Table.{Knows};
ghost use Rattle.tm_verdict.specs.Found.{MayLeave, within_rank};
ghost use Rattle.tm_game.specs.Game.{Grows, IsSet, IsStates};
ghost use Rattle.tm_sem.specs.Certificates.{AreRanked, DriverSets, RankedSet};
ghost use Rattle.tm_sem.specs.State.{StateData};
ghost use Rattle.tm_syntax.specs.Design.{DesignTree};

use crate::loaded::{DriverDiagrams, rank_count, ranked_at};
use crate::regions::all_ranked;
use crate::trying::without;
use crate::{Replies, good_answers};
use std::alloc::{AllocError, Global};
use tm_dd::NodeId;
use tm_game::Game;

/// For each number of ranks, from none on, the states from which not every step stays within the first ones of a goal:
/// one of the environment's, or at the driver's turn the answer while the goal is pending.
#[derive(Drop)]
pub(crate) struct Leaving {
    pub(crate) sets: Vec<NodeId>,
}

/// These states for each goal.
pub(crate) fn leaving_sets(
    alloc: Global,
    game: &mut Game,
    told: &DriverDiagrams,
    answers: &[Replies],
) -> Result<Vec<Leaving>, AllocError>
    requires told { HasTold game.old told.now }
    requires answers { HasAnswers game.old told.now answers.now }

    ensures grows { Grows game.old game.new }
    ensures leaving { IfOk result (λ all. (d : DesignTree) (bs : List BlockTree) (c : DriverSets)
        → IsTold d bs c game.old told.now → AreAnswers d bs game.old answers.now
        → AreLeaving d bs c game.new all.items) }
{
    let mut all = Vec::new(alloc);
    for goal in 0..told.goals.len() {
        let sets = goal_leaving(alloc, game, told, answers, goal)?;
        all.push(sets)?;
    }
    Ok(all)
}

// These states for a goal, found from those of all its ranks on.
fn goal_leaving(
    alloc: Global,
    game: &mut Game,
    told: &DriverDiagrams,
    answers: &[Replies],
    goal: usize,
) -> Result<Leaving, AllocError>
    requires told { HasTold game.old told.now }
    requires answers { HasAnswers game.old told.now answers.now }
    requires goal { goal < length told.now.goals.items }

    ensures grows { Grows game.old game.new }
    ensures leaving { IfOk result (λ leaving. (d : DesignTree) (bs : List BlockTree) (c : DriverSets)
        → IsTold d bs c game.old told.now → AreAnswers d bs game.old answers.now
        → AreLeavingRanks d bs c game.new goal leaving) }
{
    let mut sets = Vec::new(alloc);
    let ranked = all_ranked(told, goal);
    let mut leaving = may_leave(alloc, game, &answers[goal], ranked)?;
    sets.push(leaving)?;
    let count = rank_count(told, goal);
    for passed in 0..count {
        leaving = one_rank_less(
            alloc,
            game,
            told,
            answers,
            goal,
            count - 1 - passed,
            leaving,
        )?;
        sets.push(leaving)?;
    }
    sets.reverse();
    Ok(Leaving { sets })
}

// These states for the ranks before one of a goal, from those for the ranks up to it: a step stays within fewer ranks
// where it stays within more of them and does not end in the last one, whose diagram is small.
fn one_rank_less(
    alloc: Global,
    game: &mut Game,
    told: &DriverDiagrams,
    answers: &[Replies],
    goal: usize,
    index: usize,
    leaving: NodeId,
) -> Result<NodeId, AllocError>
    requires answers { HasAnswers game.old told.now answers.now }
    requires goal { goal < length told.now.goals.items }
    requires index { index < length (row_at told.now goal) }
    requires leaving { Knows game.old.diagrams.table leaving }

    ensures grows { Grows game.old game.new }
    ensures known { IfOk result (Knows game.new.diagrams.table) }
    ensures leaving { IfOk result (λ id. (d : DesignTree) (bs : List BlockTree) (c : DriverSets)
        (ranked : List RankedSet) → IsTold d bs c game.old told.now → AreAnswers d bs game.old answers.now
        → AreRanked c goal ranked
        → IsStates d game.old.order game.old.diagrams.table
        (MayLeave d (Answers bs) (within_rank ranked (1 + index)) goal) leaving
        → IsStates d game.old.order game.new.diagrams.table
        (MayLeave d (Answers bs) (within_rank ranked index) goal) id) }
{
    let own = of_rank(game, told, goal, index)?;
    let valid = game.valid();
    let others = without(game, valid, own)?;
    let ending = may_leave(alloc, game, &answers[goal], others)?;
    let all = game.or(leaving, ending)?;
    Ok(all)
}

/// The states that have a rank. They were asked for where it was tried whether the rank adds one, and are remembered.
pub(crate) fn of_rank(
    game: &mut Game,
    told: &DriverDiagrams,
    goal: usize,
    index: usize,
) -> Result<NodeId, AllocError>
    requires told { HasTold game.old told.now }
    requires goal { goal < length told.now.goals.items }
    requires index { index < length (row_at told.now goal) }

    ensures grows { Grows game.old game.new }
    ensures states { IfOk result (λ id. (d : DesignTree) (bs : List BlockTree) (c : DriverSets)
        → IsTold d bs c game.old told.now
        → IsStates d game.new.order game.new.diagrams.table (HasRank c goal index) id) }
{
    let rank = ranked_at(told, goal, index);
    let own = without(game, rank.set, rank.before)?;
    Ok(own)
}

// The states from which not every step stays in a set.
fn may_leave(
    alloc: Global,
    game: &mut Game,
    replies: &Replies,
    set: NodeId,
) -> Result<NodeId, AllocError>
    requires set { IsSet game.old set }
    requires replies { HasReplies game.old replies.now }

    ensures grows { Grows game.old game.new }
    ensures leaving { IfOk result (λ id. (d : DesignTree) (bs : List BlockTree) (goal : ℕ) (test : StateData → Bool)
        → Plays d bs goal game.old replies.now
        → IsStates d game.old.order game.old.diagrams.table (λ s. test s ≡ true) set
        → IsStates d game.old.order game.new.diagrams.table (MayLeave d (Answers bs) test goal) id) }
{
    let valid = game.valid();
    let turn = game.turn();
    let calm = game.calm(set)?;
    let stirring = without(game, valid, calm)?;
    let good = good_answers(alloc, game, replies, set)?;
    let bad = without(game, turn, good)?;
    let leaving = game.or(stirring, bad)?;
    Ok(leaving)
}
