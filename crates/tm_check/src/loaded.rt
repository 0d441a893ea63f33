//! The sets of a driver's certificate, as diagrams.
ghost use Rattle.std.specs.Prelude.{◌≡◌, ◌<◌, All, IfOk, List, Some, length, map, slice_get};
ghost use Rattle.tm_cert.specs.declared.cert.Entry.{Entry as Node};
ghost use Rattle.tm_check.specs.Loaded.{AreDiagrams, AreRankedDiagrams, CanLoad, IsLoadedIn, row_at};
ghost use Rattle.tm_game.specs.Game.{Grows};
ghost use Rattle.tm_verdict.specs.Sets.{driver_sets, ranked_set};
ghost use Rattle.tm_syntax.specs.Design.{DesignTree};

use std::alloc::{AllocError, Global};
use tm_cert::{DriverCert, Rank};
use tm_dd::{FALSE, NodeId};
use tm_game::Game;
use tm_verdict::{load_nodes, load_set};

/// A ranked region: the number of the fairness condition that is waited for in it, its states, the states of its rank
/// and lower ones, and those of lower ranks alone.
#[derive(Clone, Copy)]
pub(crate) struct RankedDiagrams {
    pub(crate) fair: u32,
    pub(crate) set: NodeId,
    pub(crate) within: NodeId,
    pub(crate) before: NodeId,
}

/// The region, and for each goal its ranked regions, rank 1 first.
#[derive(Drop)]
pub(crate) struct DriverDiagrams {
    pub(crate) region: NodeId,
    pub(crate) goals: Vec<Vec<RankedDiagrams>>,
}

/// The diagrams of a certificate.
pub(crate) fn load(
    alloc: Global,
    game: &mut Game,
    cert: &DriverCert,
) -> Result<DriverDiagrams, AllocError>
    requires { (d : DesignTree) × CanLoad d game.old cert.now }
    ensures grows { Grows game.old game.new }
    ensures told { IfOk result (λ told. (d : DesignTree) → CanLoad d game.old cert.now
        → AreDiagrams d game.old.order game.new.diagrams.table (driver_sets d cert.now) told) }
{
    let ids = load_nodes(alloc, game, &cert.nodes)?;
    let region = load_set(game, &ids, cert.region)?;
    let mut goals = Vec::new(alloc);
    for index in 0..cert.goals.len() {
        let ranks = load_ranks(alloc, game, &ids, &cert.goals[index])?;
        goals.push(ranks)?;
    }
    Ok(DriverDiagrams { region, goals })
}

// The ranked regions of a goal.
fn load_ranks(
    alloc: Global,
    game: &mut Game,
    ids: &[NodeId],
    ranks: &[Rank],
) -> Result<Vec<RankedDiagrams>, AllocError>
    requires loaded { (d : DesignTree) × (nodes : List Node) × IsLoadedIn d game.old nodes ids.now }
    requires sets { All (λ r. r.set < length ids.now) ranks.now }

    ensures grows { Grows game.old game.new }
    ensures ranks { IfOk result (λ told. (d : DesignTree) (nodes : List Node) → IsLoadedIn d game.old nodes ids.now
        → AreRankedDiagrams d game.old.order game.new.diagrams.table
        (map (ranked_set d game.old.order nodes) ranks.now) told.items) }
{
    let mut told = Vec::new(alloc);
    let mut before = FALSE;
    for rank in ranks {
        let set = load_set(game, ids, rank.set)?;
        let within = game.or(before, set)?;
        told.push(RankedDiagrams {
            fair: rank.fair,
            set,
            within,
            before,
        })?;
        before = within;
    }
    Ok(told)
}

/// How many ranked regions a goal has.
pub(crate) fn rank_count(told: &DriverDiagrams, goal: usize) -> usize
    requires { goal < length told.now.goals.items }
    ensures { result ≡ length (row_at told.now goal) }
{
    told.goals[goal].len()
}

/// A ranked region of a goal.
pub(crate) fn ranked_at(told: &DriverDiagrams, goal: usize, index: usize) -> RankedDiagrams
    requires goal { goal < length told.now.goals.items }
    requires index { index < length (row_at told.now goal) }
    ensures { slice_get (row_at told.now goal) index ≡ Some result }
{
    told.goals[goal][index]
}
