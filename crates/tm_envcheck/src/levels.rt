//! The levels of a certificate, as diagrams.
ghost use Rattle.std.specs.Prelude.{◌≡◌, ◌<◌, ◌≤◌, All, IfOk, length, map};
ghost use Rattle.tm_envcheck.specs.Inner.Over.{AreLevelsOver, AreSets, IsLevelOver};
ghost use Rattle.tm_envcheck.specs.Inner.Loaded.{AreLoadedLevels, IsLoadedLevel, chain_at};
ghost use Rattle.tm_envcheck.specs.Inner.Told.{TellLevels};
ghost use Rattle.tm_game.specs.Game.{Grows, IsSet};
ghost use Rattle.tm_verdict.specs.Fitting.{FitsEnvironment, FitsLevel};
ghost use Rattle.tm_verdict.specs.Sets.{levels_of};
ghost use Rattle.tm_syntax.specs.Design.{DesignTree};

use crate::sets::without;
use std::alloc::{AllocError, Global};
use tm_cert::{CertLevel, EnvCert};
use tm_dd::{FALSE, NodeId};
use tm_game::Game;
use tm_verdict::load_nodes;

/// A level: its goal, its states, those of the level before, those that it adds, and its chains.
#[derive(Drop)]
pub(crate) struct LevelDiagrams {
    pub(crate) goal: u32,
    pub(crate) set: NodeId,
    pub(crate) before: NodeId,
    pub(crate) added: NodeId,
    pub(crate) chains: Vec<Vec<NodeId>>,
}

/// The levels of a certificate that fits the game.
pub(crate) fn load(
    alloc: Global,
    game: &mut Game,
    cert: &EnvCert,
) -> Result<Vec<LevelDiagrams>, AllocError>
    requires levels { length game.old.order ≤ game.old.diagrams.table.levels }
    requires cert { FitsEnvironment (length game.old.order) (length game.old.goals) (length game.old.fairs) cert.now }
    requires order { cert.now.order ≡ game.old.order }

    ensures grows { Grows game.old game.new }
    ensures over { IfOk result (λ levels. AreLevelsOver game.new levels.items) }
    ensures told { IfOk result (λ levels. (d : DesignTree)
        → TellLevels d game.new (levels_of d cert.now) levels.items) }
{
    let ids = load_nodes(alloc, game, &cert.nodes)?;
    load_levels(alloc, game, &ids, &cert.levels)
}

// The levels, where the diagrams of all ids are given.
fn load_levels(
    alloc: Global,
    game: &mut Game,
    ids: &[NodeId],
    levels: &[CertLevel],
) -> Result<Vec<LevelDiagrams>, AllocError>
    requires ids { AreSets game.old ids.now }
    requires levels { All (FitsLevel (length game.old.goals) (length game.old.fairs) (length ids.now)) levels.now }

    ensures grows { Grows game.old game.new }
    ensures over { IfOk result (λ told. AreLevelsOver game.new told.items) }
    ensures loaded { IfOk result (λ told. AreLoadedLevels ids.now levels.now told.items) }
{
    let mut told = Vec::new(alloc);
    let mut before = FALSE;
    for level in levels {
        let next = load_level(alloc, game, ids, before, level)?;
        before = next.set;
        told.push(next)?;
    }
    Ok(told)
}

// A level behind the states of the level before.
fn load_level(
    alloc: Global,
    game: &mut Game,
    ids: &[NodeId],
    before: NodeId,
    level: &CertLevel,
) -> Result<LevelDiagrams, AllocError>
    requires ids { AreSets game.old ids.now }
    requires before { IsSet game.old before }
    requires level { FitsLevel (length game.old.goals) (length game.old.fairs) (length ids.now) level.now }

    ensures grows { Grows game.old game.new }
    ensures over { IfOk result (IsLevelOver game.new) }
    ensures loaded { IfOk result (IsLoadedLevel ids.now level.now) }
    ensures before { IfOk result (λ told. told.before ≡ before) }
{
    let set = ids[level.set as usize];
    let added = without(game, set, before)?;
    let chains = load_chains(alloc, ids, &level.chains)?;
    Ok(LevelDiagrams {
        goal: level.goal,
        set,
        before,
        added,
        chains,
    })
}

// The diagrams of chains.
fn load_chains(
    alloc: Global,
    ids: &[NodeId],
    chains: &[Vec<u64>],
) -> Result<Vec<Vec<NodeId>>, AllocError>
    requires { All (λ chain. All (λ set. set < length ids.now) chain.items) chains.now }
    ensures { IfOk result (λ told. map (λ chain. chain.items) told.items
        ≡ map (λ chain. chain_at ids.now chain.items) chains.now) }
{
    let mut told = Vec::new(alloc);
    for chain in chains {
        let next = load_chain(alloc, ids, chain)?;
        told.push(next)?;
    }
    Ok(told)
}

// The diagrams of a chain.
fn load_chain(alloc: Global, ids: &[NodeId], chain: &[u64]) -> Result<Vec<NodeId>, AllocError>
    requires { All (λ set. set < length ids.now) chain.now }
    ensures { IfOk result (λ told. told.items ≡ chain_at ids.now chain.now) }
{
    let mut told = Vec::new(alloc);
    for set in chain {
        told.push(ids[*set as usize])?;
    }
    Ok(told)
}
