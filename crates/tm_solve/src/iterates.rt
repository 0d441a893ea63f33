//! What a solution consists of. Sets of states are ids of the step operator that was solved.
use tm_dd::NodeId;

/// The iterates of a solution: they are the sets of its certificates.
#[derive(Drop)]
pub struct Iterates {
    /// The states from which the driver wins.
    pub region: NodeId,
    /// The ranked sets of each goal.
    pub ranks: Vec<Ranking>,
    /// The states outside the region, level by level.
    pub levels: Vec<LevelSet>,
}

/// The ranked sets of a goal, rank 1 first. Each holds the one before it and a new state.
#[derive(Drop)]
pub struct Ranking {
    pub sets: Vec<RankSet>,
}

/// A ranked set, with the number of the fairness condition that is waited for in it.
#[derive(Clone, Copy, Drop)]
pub struct RankSet {
    pub fair: u32,
    pub set: NodeId,
}

/// A level: states that are lost. It holds the level before and a new state.
#[derive(Drop)]
pub struct LevelSet {
    /// The number of the goal that is never met from its new states on.
    pub goal: u32,
    pub set: NodeId,
    /// One chain for each fairness condition.
    pub chains: Vec<Chain>,
}

/// Growing sets of lost states: from each the one before it is forced, or the chain's condition holds.
#[derive(Drop)]
pub struct Chain {
    pub sets: Vec<NodeId>,
}
