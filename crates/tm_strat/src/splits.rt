//! How well a test splits a set of states among candidate moves.
ghost use Rattle.tm_strat_drafts.specs.Growth.{Carried};

use crate::masses::Masses;
use crate::numbers::narrow;
use crate::sets::{both, rest};
use indexmap::IndexSet;
use std::alloc::{AllocError, Global};
use tm_dd::{FALSE, NodeId};
use tm_game::Game;

/// How many candidates share out a side of a test at most.
const MOST_SHARES: u32 = 8;

/// How many candidates are asked about a set at most.
const MOST_CANDIDATES: usize = 32;

// A candidate's states, and how large their part of a set is at most.
#[derive(Clone, Copy, Drop)]
struct Share {
    states: NodeId,
    mass: f64,
}

/// States that are to be told apart by tests, with what tests of them are judged by: the candidates that are good at
/// some of the states, the levels on which the states and the candidates there depend, and those on which it depends
/// whether a state is valid.
#[derive(Drop)]
pub(crate) struct Contest {
    alloc: Global,
    set: NodeId,
    shares: Vec<Share>,
    own: IndexSet<u32>,
    valid: IndexSet<u32>,
}

/// What is to be told apart in a set of states: those at which not all of the candidates that share it out are good.
pub(crate) fn contest_over(
    alloc: Global,
    game: &mut Game,
    masses: &mut Masses,
    candidates: &[NodeId],
    set: NodeId,
) -> Result<Contest, AllocError>
    ensures { Carried game.old game.new }
{
    let meeting = meeting(alloc, game, masses, candidates, set)?;
    let open = contested(alloc, game, masses, &meeting, set)?;
    let own = levels_of_all(alloc, game, &meeting, open)?;
    let mut valid = IndexSet::new(alloc);
    push_levels(game, &mut valid, game.valid())?;
    Ok(Contest {
        alloc,
        set: open,
        shares: meeting,
        own,
        valid,
    })
}

// The first candidates that meet a set.
fn meeting(
    alloc: Global,
    game: &mut Game,
    masses: &mut Masses,
    candidates: &[NodeId],
    set: NodeId,
) -> Result<Vec<Share>, AllocError>
    ensures { Carried game.old game.new }
{
    let mut found = Vec::new(alloc);
    for candidate in candidates {
        let here = both(game, *candidate, set)?;
        if here != FALSE && found.len() < MOST_CANDIDATES {
            let mass = masses.of(game.manager().store(), here)?;
            found.push(Share { states: here, mass })?;
        }
    }
    Ok(found)
}

// The states of a set at which not all of the candidates that share it out are good.
fn contested(
    alloc: Global,
    game: &mut Game,
    masses: &mut Masses,
    shares: &[Share],
    set: NodeId,
) -> Result<NodeId, AllocError>
    ensures { Carried game.old game.new }
{
    let mut waiting = Vec::from_slice(alloc, shares)?;
    let mut left = set;
    let mut free = set;
    'sharing: for _taken in 0..MOST_CANDIDATES {
        let share = largest(game, masses, &mut waiting, left)?;
        if share.states == FALSE {
            break;
        }
        free = both(game, free, share.states)?;
        left = rest(game, left, share.states)?;
    }
    rest(game, set, free)
}

// The levels on which a set depends, or the part of a candidate in it.
fn levels_of_all(
    alloc: Global,
    game: &mut Game,
    shares: &[Share],
    set: NodeId,
) -> Result<IndexSet<u32>, AllocError>
    ensures { Carried game.old game.new }
{
    let mut levels = IndexSet::new(alloc);
    push_levels(game, &mut levels, set)?;
    for share in shares {
        let here = both(game, share.states, set)?;
        push_levels(game, &mut levels, here)?;
    }
    Ok(levels)
}

// Adds the levels on which a function depends.
fn push_levels(game: &Game, levels: &mut IndexSet<u32>, id: NodeId) -> Result<(), AllocError> {
    for level in &levels_of(game, id)? {
        levels.insert(*level)?;
    }
    Ok(())
}

// The levels on which a function depends.
fn levels_of(game: &Game, id: NodeId) -> Result<Vec<u32>, AllocError> {
    if game.manager().store().knows(id) {
        return game.manager().support(id);
    }
    game.manager().support(FALSE)
}

// Whether a test may tell states apart that are to be told apart: it depends on a level on which they depend, but for
// those on which each set of valid states does, or on no other level.
fn may_serve(game: &Game, contest: &Contest, test: NodeId) -> Result<bool, AllocError> {
    let mut is_apart = false;
    for level in &levels_of(game, test)? {
        if !contest.valid.contains(level) {
            if contest.own.contains(level) {
                return Ok(true);
            }
            is_apart = true;
        }
    }
    Ok(!is_apart)
}

/// The number of the test that splits a set best among those from one number on below another, or none where none of
/// them splits it: the one that leaves the least mixture of moves on its two sides.
pub(crate) fn best_test(
    game: &mut Game,
    masses: &mut Masses,
    tests: &[NodeId],
    first: usize,
    end: usize,
    contest: &Contest,
) -> Result<Option<u32>, AllocError>
    ensures { Carried game.old game.new }
{
    let mut best = None;
    let mut least = f64::INFINITY;
    for index in first..end {
        let score = score_at(game, masses, tests, index, contest, least)?;
        if score < least {
            least = score;
            best = Some(narrow(index));
        }
    }
    Ok(best)
}

// The mixture of moves on both sides of the test of a number; that of none, or where no test can be better than one
// that was found, is infinite.
fn score_at(
    game: &mut Game,
    masses: &mut Masses,
    tests: &[NodeId],
    index: usize,
    contest: &Contest,
    least: f64,
) -> Result<f64, AllocError>
    ensures { Carried game.old game.new }
{
    if index >= tests.len() || least <= 0.0 {
        return Ok(f64::INFINITY);
    }
    score(game, masses, tests[index], contest, least)
}

// The mixture of moves on both sides of a test; one that does not split the set, or is no better than another, has an
// infinite one.
fn score(
    game: &mut Game,
    masses: &mut Masses,
    test: NodeId,
    contest: &Contest,
    least: f64,
) -> Result<f64, AllocError>
    ensures { Carried game.old game.new }
{
    if !may_serve(game, contest, test)? {
        return Ok(f64::INFINITY);
    }
    let one = both(game, contest.set, test)?;
    if one == FALSE || one == contest.set {
        return Ok(f64::INFINITY);
    }
    let first = mixture(game, masses, contest, one, least)?;
    if first >= least {
        return Ok(f64::INFINITY);
    }
    let other = rest(game, contest.set, test)?;
    let second = mixture(game, masses, contest, other, least - first)?;
    Ok(first + second)
}

// How mixed a set is: its mass, times one less the sum of the squares of the shares of candidates, each of which takes
// what those before it leave, the largest first (the Gini impurity of decision trees; Breiman, Friedman, Olshen and
// Stone 1984). Where that is above a bound, it is some number above the bound: the shares that are left are no larger
// than the last one, and together no larger than what is not shared out.
fn mixture(
    game: &mut Game,
    masses: &mut Masses,
    contest: &Contest,
    set: NodeId,
    bound: f64,
) -> Result<f64, AllocError>
    ensures { Carried game.old game.new }
{
    let whole = masses.of(game.manager().store(), set)?;
    let mut waiting = Vec::from_slice(contest.alloc, &contest.shares)?;
    let mut left = set;
    let mut open = 1.0;
    let mut squares = 0.0;
    'sharing: for _taken in 0..MOST_SHARES {
        let share = largest(game, masses, &mut waiting, left)?;
        let part = share.mass / whole;
        open -= part;
        squares += part * part;
        left = rest(game, left, share.states)?;
        if left == FALSE || whole * (1.0 - squares - open * part) > bound {
            break;
        }
    }
    Ok(whole * (1.0 - squares))
}

// The candidate with the largest part of a set, which lies in the one for which each mass is the largest that it can
// be.
//
// A candidate whose bound is not above a part that was found is not looked at: parts shrink with the set, so bounds of
// before stay bounds (the lazy greedy algorithm; Minoux 1978).
fn largest(
    game: &mut Game,
    masses: &mut Masses,
    waiting: &mut [Share],
    set: NodeId,
) -> Result<Share, AllocError>
    ensures { Carried game.old game.new }
{
    let mut best = Share {
        states: FALSE,
        mass: 0.0,
    };
    'asking: for _asked in 0..waiting.len() {
        let at = greatest_bound(waiting);
        if at >= waiting.len() || waiting[at].mass <= best.mass {
            break;
        }
        let states = waiting[at].states;
        let here = both(game, set, states)?;
        let mass = masses.of(game.manager().store(), here)?;
        waiting[at].mass = mass;
        if mass > best.mass {
            best = Share { states, mass };
        }
    }
    Ok(best)
}

// The first of the shares with the greatest bound, 0 where there is none.
fn greatest_bound(shares: &[Share]) -> usize {
    let mut best = 0;
    let mut most = 0.0;
    for at in 0..shares.len() {
        if shares[at].mass > most {
            most = shares[at].mass;
            best = at;
        }
    }
    best
}
