//! The conditions on steps: C3 to C6.
ghost use Rattle.std.specs.Prelude.{◌≡◌, ◌+◌, ◌<◌, ◌∷◌, [], ℕ, IfOk, List, Some, length, map, slice_get};
ghost use Rattle.tm_check.specs.Leaving.{AreAnswers, AreLeaving, HasAnswers, HasLeaving, IsAsked, IsBreaking};
ghost use Rattle.tm_check.specs.Leaving.{allowed_ranks, part_of};
ghost use Rattle.tm_check.specs.Loaded.{row_at};
ghost use Rattle.tm_check.specs.Told.{HasTold, IsTold};
ghost use Rattle.tm_check.specs.Tried.{AreTried, HavePassed};
ghost use Rattle.tm_cir.specs.Answer.{Answers};
ghost use Rattle.tm_cir.specs.Tree.{BlockTree};
ghost use Rattle.tm_dd.specs.Table.{Knows};
ghost use Rattle.tm_game.specs.Game.{Grows, IsStates};
ghost use Rattle.tm_sem.specs.Certificates.{DriverSets};
ghost use Rattle.tm_syntax.specs.Design.{DesignTree};
ghost use Rattle.tm_verdict.specs.Driver.{driver_condition, goals_of, is_answered, is_calm};
ghost use Rattle.tm_verdict.specs.Found.{Awaits};

use crate::leaving::{Leaving, of_rank};
use crate::loaded::{DriverDiagrams, rank_count, ranked_at};
use crate::trying::{try_part, without};
use crate::{Replies, good_answers};
use std::alloc::{AllocError, Global};
use tm_dd::{FALSE, NodeId};
use tm_game::Game;
use tm_verdict::Verdict;

/// A condition on how ranks descend along steps.
#[derive(Clone, Copy)]
pub(crate) enum Descent {
    /// C5: where a goal fails no step of the region ends at a higher rank for it.
    NeverRises,
    /// C6: where a goal fails and the fairness condition of the rank holds, each step of the region ends at a lower
    /// rank.
    FallsWhenFair,
}

impl Descent {
    // The number of the condition.
    fn condition(self) -> u8
        ensures { (goal : ℕ) → result ≡ driver_condition (part_of self goal) }
    {
        match self {
            Descent::NeverRises => 5,
            Descent::FallsWhenFair => 6,
        }
    }
}

/// C3: from a state of the region no stutter or process step errs or leaves it.
pub(crate) fn calming(game: &mut Game, told: &DriverDiagrams) -> Result<Verdict, AllocError>
    requires told { HasTold game.old told.now }

    ensures grows { Grows game.old game.new }
    ensures tried { IfOk result (λ verdict. (d : DesignTree) (bs : List BlockTree) (c : DriverSets)
        → IsTold d bs c game.old told.now → AreTried d (Answers bs) c (is_calm ∷ []) verdict) }
{
    let calm = game.calm(told.region)?;
    let stirring = without(game, told.region, calm)?;
    let verdict = try_part(game, 3, 0, stirring)?;
    Ok(verdict)
}

/// C4: at the driver's turn in the region the answer is allowed, does not err, and ends in the region.
pub(crate) fn answering(
    alloc: Global,
    game: &mut Game,
    told: &DriverDiagrams,
    answers: &[Replies],
) -> Result<Verdict, AllocError>
    requires told { HasTold game.old told.now }
    requires answers { HasAnswers game.old told.now answers.now }

    ensures grows { Grows game.old game.new }
    ensures tried { IfOk result (λ verdict. (d : DesignTree) (bs : List BlockTree) (c : DriverSets)
        → IsTold d bs c game.old told.now → AreAnswers d bs game.old answers.now
        → AreTried d (Answers bs) c (map is_answered (goals_of c)) verdict) }
{
    for goal in 0..told.goals.len() {
        let verdict = goal_answering(alloc, game, told, answers, goal)?;
        match verdict {
            Verdict::Accepted => {}
            refused => return Ok(refused),
        }
    }
    Ok(Verdict::Accepted)
}

// C4 for one goal: at the driver's turn in the region the answer while the goal is pending is allowed, does not err,
// and ends in the region.
fn goal_answering(
    alloc: Global,
    game: &mut Game,
    told: &DriverDiagrams,
    answers: &[Replies],
    goal: usize,
) -> Result<Verdict, AllocError>
    requires told { HasTold game.old told.now }
    requires answers { HasAnswers game.old told.now answers.now }
    requires goal { goal < length told.now.goals.items }

    ensures grows { Grows game.old game.new }
    ensures tried { IfOk result (λ verdict. (d : DesignTree) (bs : List BlockTree) (c : DriverSets)
        → IsTold d bs c game.old told.now → AreAnswers d bs game.old answers.now
        → AreTried d (Answers bs) c (is_answered goal ∷ []) verdict) }
{
    let turn = game.turn();
    let here = game.and(told.region, turn)?;
    let good = good_answers(alloc, game, &answers[goal], told.region)?;
    let failing = without(game, here, good)?;
    let verdict = try_part(game, 4, goal as u32, failing)?;
    Ok(verdict)
}

/// C5 or C6: where a goal fails, ranks descend along the steps of the region.
pub(crate) fn descending(
    game: &mut Game,
    told: &DriverDiagrams,
    leaving: &[Leaving],
    descent: Descent,
) -> Result<Verdict, AllocError>
    requires told { HasTold game.old told.now }
    requires leaving { HasLeaving game.old told.now leaving.now }

    ensures grows { Grows game.old game.new }
    ensures tried { IfOk result (λ verdict. (d : DesignTree) (bs : List BlockTree) (c : DriverSets)
        → IsTold d bs c game.old told.now
        → AreLeaving d bs c game.old leaving.now → HavePassed d (Answers bs) c
        → AreTried d (Answers bs) c (map (part_of descent) (goals_of c)) verdict) }
{
    for goal in 0..told.goals.len() {
        let verdict = goal_descending(game, told, leaving, descent, goal)?;
        match verdict {
            Verdict::Accepted => {}
            refused => return Ok(refused),
        }
    }
    Ok(Verdict::Accepted)
}

// C5 or C6 for one goal. The failing states of all its ranks are joined before the least one is asked for.
fn goal_descending(
    game: &mut Game,
    told: &DriverDiagrams,
    leaving: &[Leaving],
    descent: Descent,
    goal: usize,
) -> Result<Verdict, AllocError>
    requires told { HasTold game.old told.now }
    requires leaving { HasLeaving game.old told.now leaving.now }
    requires goal { goal < length told.now.goals.items }

    ensures grows { Grows game.old game.new }
    ensures tried { IfOk result (λ verdict. (d : DesignTree) (bs : List BlockTree) (c : DriverSets)
        → IsTold d bs c game.old told.now
        → AreLeaving d bs c game.old leaving.now → HavePassed d (Answers bs) c
        → AreTried d (Answers bs) c (part_of descent goal ∷ []) verdict) }
{
    let awaiting = awaiting(game, told, goal)?;
    let mut failing = FALSE;
    let count = rank_count(told, goal);
    for index in 0..count {
        let breaking = breaking_at(game, told, leaving, descent, goal, index, awaiting)?;
        failing = game.or(failing, breaking)?;
    }
    let verdict = try_part(game, descent.condition(), goal as u32, failing)?;
    Ok(verdict)
}

// The states of a rank at which a condition fails. Where the certificate is right there is none, and to join none to
// others costs nothing.
fn breaking_at(
    game: &mut Game,
    told: &DriverDiagrams,
    leaving: &[Leaving],
    descent: Descent,
    goal: usize,
    index: usize,
    awaiting: NodeId,
) -> Result<NodeId, AllocError>
    requires told { HasTold game.old told.now }
    requires leaving { HasLeaving game.old told.now leaving.now }
    requires goal { goal < length told.now.goals.items }
    requires index { index < length (row_at told.now goal) }
    requires awaiting { Knows game.old.diagrams.table awaiting }

    ensures grows { Grows game.old game.new }
    ensures known { IfOk result (Knows game.new.diagrams.table) }
    ensures states { IfOk result (λ id. (d : DesignTree) (bs : List BlockTree) (c : DriverSets)
        → IsTold d bs c game.old told.now → AreLeaving d bs c game.old leaving.now
        → IsStates d game.old.order game.old.diagrams.table (Awaits d c goal) awaiting
        → IsStates d game.new.order game.new.diagrams.table (IsBreaking d bs c descent goal index) id) }
{
    let asked = asked_at(game, told, descent, goal, index, awaiting)?;
    let left = leaving_at(leaving, descent, goal, index);
    let breaking = game.and(asked, left)?;
    Ok(breaking)
}

// The states of a rank at which a condition asks for something: the goal fails, and for C6 the fairness condition
// holds.
fn asked_at(
    game: &mut Game,
    told: &DriverDiagrams,
    descent: Descent,
    goal: usize,
    index: usize,
    awaiting: NodeId,
) -> Result<NodeId, AllocError>
    requires told { HasTold game.old told.now }
    requires goal { goal < length told.now.goals.items }
    requires index { index < length (row_at told.now goal) }
    requires awaiting { Knows game.old.diagrams.table awaiting }

    ensures grows { Grows game.old game.new }
    ensures known { IfOk result (Knows game.new.diagrams.table) }
    ensures states { IfOk result (λ id. (d : DesignTree) (bs : List BlockTree) (c : DriverSets)
        → IsTold d bs c game.old told.now
        → IsStates d game.old.order game.old.diagrams.table (Awaits d c goal) awaiting
        → IsStates d game.new.order game.new.diagrams.table (IsAsked d c descent goal index) id) }
{
    let own = of_rank(game, told, goal, index)?;
    let waiting = game.and(own, awaiting)?;
    match descent {
        Descent::NeverRises => Ok(waiting),
        Descent::FallsWhenFair => {
            let rank = ranked_at(told, goal, index);
            let fair = game.fairs()[rank.fair as usize];
            let asked = game.and(waiting, fair)?;
            Ok(asked)
        }
    }
}

// The states from which not every step stays within the ranks that a condition allows to those of a rank.
fn leaving_at(leaving: &[Leaving], descent: Descent, goal: usize, index: usize) -> NodeId
    requires goal { goal < length leaving.now }
    requires index { (l : Leaving) → slice_get leaving.now goal ≡ Some l → index + 1 < length l.sets.items }

    ensures { (l : Leaving) → slice_get leaving.now goal ≡ Some l
        → slice_get l.sets.items (allowed_ranks descent index) ≡ Some result }
{
    let sets = &leaving[goal].sets;
    match descent {
        Descent::NeverRises => sets[index + 1],
        Descent::FallsWhenFair => sets[index],
    }
}

// The states of the region at which a goal fails.
fn awaiting(game: &mut Game, told: &DriverDiagrams, goal: usize) -> Result<NodeId, AllocError>
    requires told { HasTold game.old told.now }
    requires goal { goal < length told.now.goals.items }

    ensures grows { Grows game.old game.new }
    ensures states { IfOk result (λ id. (d : DesignTree) (bs : List BlockTree) (c : DriverSets)
        → IsTold d bs c game.old told.now
        → IsStates d game.new.order game.new.diagrams.table (Awaits d c goal) id) }
{
    let holds = game.goals()[goal];
    let awaiting = without(game, told.region, holds)?;
    Ok(awaiting)
}
