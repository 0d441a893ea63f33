//! The check of a driver's certificate.
ghost use Rattle.std.specs.Prelude.{◌≡◌, ◌<◌, ◌^◌, ◌∷◌, ◌++◌, [], IfOk, List, Ok, length, map};
ghost use Rattle.std.specs.List.{flat_map};
ghost use Rattle.tm_check.specs.Reads.{IsSized};
ghost use Rattle.tm_check.specs.Checked.{CanCheck};
ghost use Rattle.tm_check.specs.Leaving.{AreAnswers, HasAnswers};
ghost use Rattle.tm_check.specs.Told.{HasTold, IsTold};
ghost use Rattle.tm_check.specs.Tried.{AreTried, SetsPassed};
ghost use Rattle.tm_check.specs.Verdict.{IsDriverVerdict};
ghost use Rattle.tm_cir.specs.Answer.{Answers};
ghost use Rattle.tm_cir.specs.Fit.{FitBlocks};
ghost use Rattle.tm_cir.specs.Tree.{BlockTree};
ghost use Rattle.tm_cir.specs.View.{trees_of};
ghost use Rattle.tm_game.specs.Game.{Grows, IsOf};
ghost use Rattle.tm_sem.specs.Certificates.{DriverSets};
ghost use Rattle.tm_sem.specs.Strategy.{Good};
ghost use Rattle.tm_verdict.specs.Sets.{driver_sets};
ghost use Rattle.tm_syntax.specs.Design.{DesignTree};
ghost use Rattle.tm_syntax.specs.Design.View.{design_tree};
ghost use Rattle.tm_verdict.specs.Driver.{begins_within, falls_when_fair, goal_parts, goals_of, is_answered, is_calm};
ghost use Rattle.tm_verdict.specs.Driver.{is_ranked, never_rises};

use crate::leaving::leaving_sets;
use crate::loaded::{DriverDiagrams, load};
use crate::regions::{beginning, ranking, regions};
use crate::steps::{Descent, answering, calming, descending};
use crate::{Replies, read_replies};
use std::alloc::{AllocError, Global};
use tm_cert::DriverCert;
use tm_cir::Blocks;
use tm_game::Game;
use tm_syntax::design::Design;
use tm_verdict::Verdict;

/// Whether the blocks have the certificate: every condition holds, or the first that fails, by number, then by goal,
/// with its least state by place. Where the failing part names no state, that is the least initial one.
///
/// `AllocError` is want of memory. Every id of the game keeps its meaning, also where memory runs out.
pub fn check_driver(
    alloc: Global,
    design: &Design,
    game: &mut Game,
    blocks: &Blocks,
    cert: &DriverCert,
) -> Result<Verdict, AllocError>
    requires can { CanCheck (design_tree design.now) (trees_of blocks.now) cert.now game.old }

    ensures grows { Grows game.old game.new }
    ensures verdict { IfOk result (IsDriverVerdict (design_tree design.now) (Answers (trees_of blocks.now))
        (driver_sets (design_tree design.now) cert.now)) }

    // A driver that is accepted is a good one, with as many ranks for a goal as there are ranked regions.
    ensures good { result ≡ Ok Verdict.Accepted
        → Good (design_tree design.now) (Answers (trees_of blocks.now)) (map length cert.now.goals) }
{
    let told = load(alloc, game, cert)?;
    let first = on_sets(game, &told)?;
    match first {
        Verdict::Accepted => {}
        refused => return Ok(refused),
    }
    let answers = all_replies(alloc, design, game, blocks, told.goals.len())?;
    let verdict = on_steps(alloc, game, &told, &answers)?;
    Ok(verdict)
}

// What the blocks do while each goal is pending.
fn all_replies(
    alloc: Global,
    design: &Design,
    game: &mut Game,
    blocks: &Blocks,
    goals: usize,
) -> Result<Vec<Replies>, AllocError>
    requires of { IsOf (design_tree design.now) game.old }
    requires sized { IsSized game.old }
    requires blocks { FitBlocks (design_tree design.now) (trees_of blocks.now) }
    requires goals { goals ≡ length (design_tree design.now).goals }
    requires few { goals < 2 ^ 32 }

    ensures grows { Grows game.old game.new }
    ensures answers { IfOk result
        (λ answers. AreAnswers (design_tree design.now) (trees_of blocks.now) game.new answers.items) }
{
    let mut answers = Vec::new(alloc);
    for goal in 0..goals {
        let replies = read_replies(alloc, design, game, blocks, goal as u32)?;
        answers.push(replies)?;
    }
    Ok(answers)
}

// C0 to C3.
fn on_sets(game: &mut Game, told: &DriverDiagrams) -> Result<Verdict, AllocError>
    requires told { HasTold game.old told.now }

    ensures grows { Grows game.old game.new }
    ensures tried { IfOk result (λ verdict. (d : DesignTree) (bs : List BlockTree) (c : DriverSets)
        → IsTold d bs c game.old told.now → AreTried d (Answers bs) c (flat_map (goal_parts c) (goals_of c)
        ++ (begins_within ∷ [] ++ (map is_ranked (goals_of c) ++ is_calm ∷ []))) verdict) }
{
    let first = regions(game, told)?;
    match first {
        Verdict::Accepted => {}
        refused => return Ok(refused),
    }
    let second = beginning(game, told)?;
    match second {
        Verdict::Accepted => {}
        refused => return Ok(refused),
    }
    let third = ranking(game, told)?;
    match third {
        Verdict::Accepted => {
            let last = calming(game, told)?;
            Ok(last)
        }
        refused => Ok(refused),
    }
}

// C4 to C6, where C0 to C3 hold.
fn on_steps(
    alloc: Global,
    game: &mut Game,
    told: &DriverDiagrams,
    answers: &[Replies],
) -> Result<Verdict, AllocError>
    requires told { HasTold game.old told.now }
    requires answers { HasAnswers game.old told.now answers.now }

    ensures grows { Grows game.old game.new }
    ensures tried { IfOk result (λ verdict. (d : DesignTree) (bs : List BlockTree) (c : DriverSets)
        → IsTold d bs c game.old told.now → AreAnswers d bs game.old answers.now → SetsPassed d (Answers bs) c
        → AreTried d (Answers bs) c (map is_answered (goals_of c) ++ (map never_rises (goals_of c)
        ++ map falls_when_fair (goals_of c))) verdict) }
{
    let first = answering(alloc, game, told, answers)?;
    match first {
        Verdict::Accepted => {}
        refused => return Ok(refused),
    }
    let leaving = leaving_sets(alloc, game, told, answers)?;
    let second = descending(game, told, &leaving, Descent::NeverRises)?;
    match second {
        Verdict::Accepted => {
            let last = descending(game, told, &leaving, Descent::FallsWhenFair)?;
            Ok(last)
        }
        refused => Ok(refused),
    }
}
