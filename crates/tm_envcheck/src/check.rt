//! The check of an environment's certificate.
ghost use Rattle.std.specs.Prelude.{◌≡◌, ◌∷◌, [], IfOk, List, Ok, length};
ghost use Rattle.tm_envcheck.specs.Inner.Over.{AreLevelsOver, IsReady};
ghost use Rattle.tm_envcheck.specs.Inner.Loaded.{before_at};
ghost use Rattle.tm_envcheck.specs.Inner.Parts.{step_parts};
ghost use Rattle.tm_envcheck.specs.Inner.Told.{TellLevels};
ghost use Rattle.tm_envcheck.specs.Tried.{AreTried};
ghost use Rattle.tm_envcheck.specs.Verdict.{CanCheck, IsEnvironmentVerdict, IsLostWithin};
ghost use Rattle.tm_game.specs.Game.{Grows, IsOf};
ghost use Rattle.tm_sem.specs.Certificates.{Level};
ghost use Rattle.tm_sem.specs.Loss.{Lost};
ghost use Rattle.tm_verdict.specs.Fitting.{FitsEnvironment};
ghost use Rattle.tm_verdict.specs.Sets.{levels_of};
ghost use Rattle.tm_syntax.specs.Design.{DesignTree};
ghost use Rattle.tm_verdict.specs.Environment.{begins_lost, level_parts};

use crate::conditions::{LevelCondition, over_levels};
use crate::levels::{LevelDiagrams, load};
use crate::reports::wants;
use crate::sets::both;
use std::alloc::{AllocError, Global};
use tm_cert::EnvCert;
use tm_dd::{FALSE, NodeId};
use tm_game::Game;
use tm_verdict::Verdict;

/// Whether the levels of a certificate that fits the game, and has its order, are a certificate of the environment.
///
/// `Accepted` comes exactly where every condition holds. `Refused` tells the first that fails, by number (0 to 5 for E0
/// to E5), then by level, then by chain, with the goal of its level, or 0 for E1, and the least valid state by place at
/// which it fails. Where what fails names no state (a level that adds none, an empty chain, E1), that is the least
/// initial one.
///
/// `AllocError` is want of memory. Every id of the game keeps its meaning, also then.
pub fn check_environment(
    alloc: Global,
    game: &mut Game,
    cert: &EnvCert,
) -> Result<Verdict, AllocError>
    requires of { (d : DesignTree) × IsOf d game.old }
    requires cert { FitsEnvironment (length game.old.order) (length game.old.goals) (length game.old.fairs) cert.now }
    requires order { cert.now.order ≡ game.old.order }

    ensures grows { Grows game.old game.new }
    ensures verdict { IfOk result (λ v. (d : DesignTree) → CanCheck d game.old
        → IsEnvironmentVerdict d (levels_of d cert.now) v) }

    // A design with such a certificate is lost, in as many steps as its levels tell.
    ensures lost { (d : DesignTree) → CanCheck d game.old → result ≡ Ok Verdict.Accepted → Lost d }
    ensures within { (d : DesignTree) → CanCheck d game.old → result ≡ Ok Verdict.Accepted
        → IsLostWithin d (levels_of d cert.now) }
{
    // These take no memory, and tell how many levels, goals and fairness conditions there are.
    let _order = game.order();
    let _goals = game.goals();
    let _fairs = game.fairs();
    let levels = load(alloc, game, cert)?;
    try_all(game, &levels)
}

// Whether the levels meet all conditions.
fn try_all(game: &mut Game, levels: &[LevelDiagrams]) -> Result<Verdict, AllocError>
    requires ready { IsReady game.old }
    requires levels { AreLevelsOver game.old levels.now }

    ensures grows { Grows game.old game.new }
    ensures tried { IfOk result (λ v. (d : DesignTree) (of : List Level) → CanCheck d game.old
        → TellLevels d game.old of levels.now → AreTried d of (level_parts of) v) }
{
    pass!(over_levels(game, levels, LevelCondition::Shape)?);
    pass!(beginning(game, levels)?);
    try_steps(game, levels)
}

// Whether they meet the conditions on what is forced, E2 to E5.
fn try_steps(game: &mut Game, levels: &[LevelDiagrams]) -> Result<Verdict, AllocError>
    requires ready { IsReady game.old }
    requires levels { AreLevelsOver game.old levels.now }

    ensures grows { Grows game.old game.new }
    ensures tried { IfOk result (λ v. (d : DesignTree) (of : List Level) → CanCheck d game.old
        → TellLevels d game.old of levels.now → AreTried d of (step_parts of) v) }
{
    pass!(over_levels(game, levels, LevelCondition::ForcedOn)?);
    pass!(over_levels(game, levels, LevelCondition::InChains)?);
    pass!(over_levels(game, levels, LevelCondition::ForcedWithin)?);
    over_levels(game, levels, LevelCondition::WaitsOrFalls)
}

// E1: some initial state is in the last level.
fn beginning(game: &mut Game, levels: &[LevelDiagrams]) -> Result<Verdict, AllocError>
    requires ready { IsReady game.old }
    requires levels { AreLevelsOver game.old levels.now }

    ensures grows { Grows game.old game.new }
    ensures tried { IfOk result (λ v. (d : DesignTree) (of : List Level) → CanCheck d game.old
        → TellLevels d game.old of levels.now → AreTried d of (begins_lost ∷ []) v) }
{
    let last = last_set(levels);
    let initial = game.initial();
    let lost = both(game, initial, last)?;
    wants(game, 1, 0, lost)
}

// The set of the last level: none where there is no level.
fn last_set(levels: &[LevelDiagrams]) -> NodeId
    ensures { result ≡ before_at levels.now (length levels.now) }
{
    match levels.last() {
        Some(level) => level.set,
        None => FALSE,
    }
}
