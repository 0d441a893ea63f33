//! The winning region: the greatest fixpoint over Z.
ghost use Rattle.std.specs.Prelude.{◌≡◌, ◌≢◌, ◌<◌, true, [], IfOk};
ghost use Rattle.tm_solve.specs.Begun.{IsBegun};
ghost use Rattle.tm_solve.specs.Fixpoints.{Holds, InRegion};
ghost use Rattle.tm_solve.specs.Ids.{Follows};
ghost use Rattle.tm_solve.specs.Iterates.{driver_sets, EndAt, KnowsAll, levels_of};
ghost use Rattle.tm_solve.specs.Levels.{LevelsFit};
ghost use Rattle.tm_solve.specs.Ranks.{RanksFit};
ghost use Rattle.tm_solve.specs.Sets.{IsAmong, count};
ghost use Rattle.tm_sem.specs.State.{StateData};

use crate::ids::same;
use crate::iterates::Iterates;
use crate::pre::Pre;
use crate::rounds::play_round;
use crate::safety::safe_states;
use std::alloc::{AllocError, Global};
use tm_dd::NodeId;

/// The winning region of a GR(1) game, nu Z . AND_j mu Y . OR_i nu X . part(Z, Y, X, j, i) (Piterman, Pnueli and Sa'ar
/// 2006), with ranked sets that lead to each goal and levels that lead out of all states. It begins at the safe states,
/// which hold the region: one set is cheaper to find than three fixpoints, one within the other.
///
/// It asks the step operator with the same Z and Y as long as X changes. Want of memory is the only error; after it
/// nothing has changed but that more ids may be known.
pub fn solve<P: Pre>(alloc: Global, pre: &mut P) -> Result<Iterates, AllocError>
    // The region is exactly the fixpoint, and every id is known.
    ensures region { IfOk result (λ it.
        Holds (P.game pre.old).states ((P.ids pre.new).means it.region) (InRegion (P.game pre.old))) }
    ensures known { IfOk result (λ it. KnowsAll (P.ids pre.new) it) }

    // The ranked sets of each goal lead to the region, and the last is the region by its id.
    ensures ranks { IfOk result (λ it. RanksFit (P.game pre.old) (driver_sets (P.ids pre.new) it)) }
    ensures last { IfOk result (λ it. EndAt it.region it.ranks.items) }

    // The levels lead to all that is outside the region.
    ensures levels { IfOk result (λ it.
        LevelsFit (P.game pre.old) ((P.ids pre.new).means it.region) (levels_of (P.ids pre.new) it)) }

    // The game stays, and every id that was known means what it meant.
    ensures follows { Follows (P.game pre.old) (P.ids pre.old) (P.game pre.new) (P.ids pre.new) }
{
    let whole = pre.whole();
    let mut levels = Vec::new(alloc);
    let mut z = safe_states(alloc, pre, whole, &mut levels)?;
    'rounds: loop {
        let remaining = play_round(alloc, pre, z, &mut levels)?;
        if same(remaining.region, z) {
            return Ok(Iterates {
                region: z,
                ranks: remaining.ranks,
                levels,
            });
        }
        z = remaining.region;
    }
}

/// The winning region from a known set that holds it: the same region with ranked sets, as `solve` gives them, and no
/// levels, since these lead out of all states. A start near the region, as that of a solution over fewer cells, takes
/// fewer rounds.
pub fn solve_from<P: Pre>(alloc: Global, pre: &mut P, start: NodeId) -> Result<Iterates, AllocError>
    requires known { (P.ids pre.old).knows start }
    requires above { (s : StateData) → IsAmong s (P.game pre.old).states → InRegion (P.game pre.old) s
        → (P.ids pre.old).means start s ≡ true }
    ensures region { IfOk result (λ it.
        Holds (P.game pre.old).states ((P.ids pre.new).means it.region) (InRegion (P.game pre.old))) }
    ensures known { IfOk result (λ it. KnowsAll (P.ids pre.new) it) }
    ensures ranks { IfOk result (λ it. RanksFit (P.game pre.old) (driver_sets (P.ids pre.new) it)) }
    ensures last { IfOk result (λ it. EndAt it.region it.ranks.items) }
    ensures no_levels { IfOk result (λ it. it.levels.items ≡ []) }
    ensures follows { Follows (P.game pre.old) (P.ids pre.old) (P.game pre.new) (P.ids pre.new) }
{
    let _goals = pre.goals();
    let mut z = start;
    'rounds: loop {
        let mut unused = Vec::new(alloc);
        let played = play_round(alloc, pre, z, &mut unused)?;
        if same(played.region, z) {
            return Ok(Iterates {
                region: z,
                ranks: played.ranks,
                levels: Vec::new(alloc),
            });
        }
        z = played.region;
    }
}

/// One round of the fixpoint over Z, from iterates from which a solution may go on: their set holds the region, and
/// their levels lead to all that is outside it. So a solution may be left after any round, and gone on with over a
/// lower operator, as one over more cells (levels of a higher operator are ones of it): what is outside is lost.
///
/// The set that is left is the region where it is the same id, and has fewer states where it is another. The ranked
/// sets are those of the round.
pub fn advance<P: Pre>(alloc: Global, pre: &mut P, begun: Iterates) -> Result<Iterates, AllocError>
    requires begun { IsBegun (P.game pre.old) (P.ids pre.old) begun }
    ensures begun { IfOk result (IsBegun (P.game pre.old) (P.ids pre.new)) }
    ensures ends { IfOk result (λ it. it.region ≡ begun.region
        → Holds (P.game pre.old).states ((P.ids pre.new).means it.region) (InRegion (P.game pre.old))) }
    ensures falls { IfOk result (λ it. it.region ≢ begun.region
        → count (P.game pre.old).states ((P.ids pre.new).means it.region)
        < count (P.game pre.old).states ((P.ids pre.old).means begun.region)) }
    ensures follows { Follows (P.game pre.old) (P.ids pre.old) (P.game pre.new) (P.ids pre.new) }
{
    let mut levels = begun.levels;
    let remaining = play_round(alloc, pre, begun.region, &mut levels)?;
    Ok(Iterates {
        region: remaining.region,
        ranks: remaining.ranks,
        levels,
    })
}
