//! Tests and candidate moves as diagrams of a game.
ghost use Rattle.std.specs.Prelude.{◌≡◌, ◌<◌, ◌++◌, ◌∷◌, [], ℕ, true, All, IfOk, List, Some, length, slice_get};
ghost use Rattle.tm_check.specs.Replies.{AreReplies, IsMoveOf, IsReply};
ghost use Rattle.tm_check.specs.declared.replies.Reply.{Reply};
ghost use Rattle.tm_check.specs.Reads.{IsSized};
ghost use Rattle.tm_cir.specs.Fit.{FitBlocks};
ghost use Rattle.tm_cir.specs.Meaning.{holds};
ghost use Rattle.tm_cir.specs.Tree.{BlockTree, TruthTree, idle, test};
ghost use Rattle.tm_cir.specs.View.{block_trees};
ghost use Rattle.tm_ddops.specs.Manager.{IsFunction};
ghost use Rattle.tm_game.specs.Game.{GameData, IsOf};
ghost use Rattle.tm_game.specs.Moves.{HasTask};
ghost use Rattle.tm_game.specs.declared.moves.MoveShape.{MoveShape};
ghost use Rattle.tm_game_bits.specs.AssignedStates.{state_of};
ghost use Rattle.tm_strat.specs.Fitting.{FitsCounts};
ghost use Rattle.tm_strat.specs.Served.{AreGivenFor, AreServed, candidate_trees, IsGivenFor};
ghost use Rattle.tm_strat.specs.Served.{IsServed, ServesFrom, ServesOne};
ghost use Rattle.tm_strat.specs.Tested.{AreTestsOf, IsTestOf};
ghost use Rattle.tm_strat.specs.Trees.{predicate_tree, shape_in};
ghost use Rattle.tm_strat_drafts.specs.Growth.{Carried};
ghost use Rattle.tm_syntax.specs.Design.{DesignTree};
ghost use Rattle.tm_syntax.specs.Design.View.{design_tree};

use crate::candidates::{Candidate, move_block, shape_at};
use crate::good::id_at;
use crate::numbers::Counts;
use crate::predicates::Predicate;
use crate::sets::{both, placed};
use crate::spelling::fitting;
use std::alloc::{AllocError, Global};
use tm_check::{Replies, Reply, read_replies};
use tm_cir::Block;
use tm_dd::{FALSE, NodeId};
use tm_game::{Game, MoveShape};
use tm_syntax::design::Design;

/// Where each test holds, whatever goal is pending.
pub(crate) fn read_tests(
    alloc: Global,
    design: &Design,
    game: &mut Game,
    counts: Counts,
    predicates: &[Predicate],
) -> Result<Vec<NodeId>, AllocError>
    requires of { IsOf (design_tree design.now) game.old }
    requires sized { IsSized game.old }
    requires counts { FitsCounts (design_tree design.now) counts }
    ensures grows { Carried game.old game.new }
    ensures tests { IfOk result (λ ids. AreTestsOf (design_tree design.now) game.new counts predicates.now ids.items
        (length predicates.now)) }
{
    let mut diagrams = Vec::new(alloc);
    for predicate in predicates {
        let holds = read_test(alloc, design, game, counts, *predicate)?;
        diagrams.push(holds)?;
    }
    Ok(diagrams)
}

// Where a test holds, whatever goal is pending.
fn read_test(
    alloc: Global,
    design: &Design,
    game: &mut Game,
    counts: Counts,
    predicate: Predicate,
) -> Result<NodeId, AllocError>
    requires of { IsOf (design_tree design.now) game.old }
    requires sized { IsSized game.old }
    requires counts { FitsCounts (design_tree design.now) counts }
    ensures grows { Carried game.old game.new }
    ensures test { IfOk result (IsTestOf (design_tree design.now) game.new counts predicate) }
{
    let list = test_blocks(alloc, counts, predicate)?;
    let replies = replies_of(alloc, design, game, list)?;
    Ok(first_test(&replies.list))
}

// Where the test of the first of some replies holds.
fn first_test(replies: &[Reply]) -> NodeId
    ensures { (d : DesignTree) (g : GameData) (shapes : List MoveShape) (t : TruthTree) (first second : ℕ) (x : Reply)
        → slice_get replies.now 0 ≡ Some x
        → IsReply d g.order g.diagrams.table 0 shapes (test t first second) x
        → IsFunction g.diagrams.table result (λ v. holds (state_of d g.order v) 0 t) }
{
    if replies.is_empty() {
        return FALSE;
    }
    test_of(&replies[0])
}

// Where the test of a reply holds.
fn test_of(reply: &Reply) -> NodeId
    ensures { (d : DesignTree) (g : GameData) (shapes : List MoveShape) (t : TruthTree) (first second : ℕ)
        → IsReply d g.order g.diagrams.table 0 shapes (test t first second) reply.now
        → IsFunction g.diagrams.table result (λ v. holds (state_of d g.order v) 0 t) }
{
    match reply {
        Reply::Test { holds, .. } => *holds,
        Reply::Move { .. } => FALSE,
    }
}

// What some blocks do while the first goal is pending.
#[tactic(auto, using(crate::proofs::Carrying::carry))]
fn replies_of(
    alloc: Global,
    design: &Design,
    game: &mut Game,
    list: Vec<Block>,
) -> Result<Replies, AllocError>
    requires of { IsOf (design_tree design.now) game.old }
    requires sized { IsSized game.old }
    requires fits { FitBlocks (design_tree design.now) (block_trees list.items) }
    ensures grows { Carried game.old game.new }
    ensures replies { IfOk result (AreReplies (design_tree design.now) game.new 0 (block_trees list.items)) }
{
    let blocks = fitting(design, list);
    let replies = read_replies(alloc, design, game, &blocks, 0)?;
    Ok(replies)
}

// A block that makes a test, and one that idles, to which it leads.
#[tactic(auto, using(crate::proofs::Fitted::one_test))]
fn test_blocks(
    alloc: Global,
    counts: Counts,
    predicate: Predicate,
) -> Result<Vec<Block>, AllocError>
    ensures fits { IfOk result (λ bs. (d : DesignTree) → FitsCounts d counts → FitBlocks d (block_trees bs.items)) }
    ensures trees { IfOk result (λ bs. block_trees bs.items ≡ test (predicate_tree counts predicate) 1 1 ∷ idle ∷ []) }
{
    let truth = predicate.truth(alloc, counts)?;
    let mut list = Vec::new(alloc);
    list.push(Block::Test(truth, 1, 1))?;
    list.push(Block::Idle)?;
    Ok(list)
}

/// The arguments of a candidate move: where they fit into their bits, and the functions of the levels of arguments.
#[derive(Drop)]
pub(crate) struct Given {
    pub(crate) shape: u32,
    pub(crate) fits: NodeId,
    pub(crate) parts: Vec<(u32, NodeId)>,
}

/// The arguments of candidate moves.
pub(crate) fn read_candidates(
    alloc: Global,
    design: &Design,
    game: &mut Game,
    counts: Counts,
    shapes: &[MoveShape],
    candidates: &[Candidate],
) -> Result<Vec<Given>, AllocError>
    requires of { IsOf (design_tree design.now) game.old }
    requires sized { IsSized game.old }
    requires counts { FitsCounts (design_tree design.now) counts }
    ensures grows { Carried game.old game.new }
    ensures given { IfOk result (λ all. AreGivenFor (design_tree design.now) game.new shapes.now
        (candidate_trees (design_tree design.now) counts shapes.now candidates.now) all.items
        (length candidates.now)) }
{
    let list = candidate_blocks(alloc, design, counts, shapes, candidates)?;
    let replies = replies_of(alloc, design, game, list)?;
    let mut all = Vec::new(alloc);
    for index in 0..candidates.len() {
        let given = given_at(alloc, &replies, index, shapes, candidates[index].shape)?;
        all.push(given)?;
    }
    Ok(all)
}

// The arguments of a candidate of a number, whose shape has another one.
fn given_at(
    alloc: Global,
    replies: &Replies,
    index: usize,
    shapes: &[MoveShape],
    shape: u32,
) -> Result<Given, AllocError>
    requires { index < length replies.now.list.items }
    ensures { IfOk result (λ x. (d : DesignTree) (g : GameData) (blocks : List BlockTree) (b : BlockTree)
        → AreReplies d g 0 blocks replies.now → slice_get blocks index ≡ Some b
        → IsGivenFor d g shapes.now b x) }
{
    match &replies.list[index] {
        Reply::Test { .. } => Ok(not_given(alloc, shape)),
        Reply::Move {
            shape: own,
            fits,
            arguments,
        } => {
            given_move(
                alloc,
                shapes,
                shape,
                &replies.shapes,
                *own,
                *fits,
                arguments,
            )
        }
    }
}

// The arguments of a candidate whose shape has a number among all, as they were read of a move whose shape has another
// number among others.
fn given_move(
    alloc: Global,
    shapes: &[MoveShape],
    shape: u32,
    others: &[MoveShape],
    own: usize,
    fits: NodeId,
    arguments: &[(u32, NodeId)],
) -> Result<Given, AllocError>
    ensures { IfOk result (λ x. (d : DesignTree) (g : GameData) (b : BlockTree) → All (HasTask g.flat) others.now
        → IsMoveOf d g.order g.diagrams.table 0 others.now b own fits arguments.now
        → IsGivenFor d g shapes.now b x) }
{
    if !are_same(shapes, shape, others, own) {
        return Ok(not_given(alloc, shape));
    }
    let parts = Vec::from_slice(alloc, arguments)?;
    Ok(Given { shape, fits, parts })
}

// Arguments that fit nowhere.
fn not_given(alloc: Global, shape: u32) -> Given
    ensures { (d : DesignTree) (g : GameData) (shapes : List MoveShape) (b : BlockTree)
        → IsGivenFor d g shapes b result }
{
    Given {
        shape,
        fits: FALSE,
        parts: Vec::new(alloc),
    }
}

// Whether a shape of some is one of others.
fn are_same(shapes: &[MoveShape], one: u32, others: &[MoveShape], other: usize) -> bool
    ensures { result ≡ true → (one < length shapes.now) × (other < length others.now)
        × (shape_in shapes.now one ≡ shape_in others.now other) }
{
    let index = one as usize;
    if index >= shapes.len() || other >= others.len() {
        return false;
    }
    shapes[index] == others[other]
}

// The blocks of candidates, and one that idles.
#[tactic(auto, using(crate::proofs::Fitted::anywhere))]
fn candidate_blocks(
    alloc: Global,
    design: &Design,
    counts: Counts,
    shapes: &[MoveShape],
    candidates: &[Candidate],
) -> Result<Vec<Block>, AllocError>
    requires { FitsCounts (design_tree design.now) counts }
    ensures fits { IfOk result (λ bs. FitBlocks (design_tree design.now) (block_trees bs.items)) }
    ensures trees { IfOk result (λ bs. block_trees bs.items
        ≡ candidate_trees (design_tree design.now) counts shapes.now candidates.now ++ idle ∷ []) }
{
    let mut list = Vec::new(alloc);
    for candidate in candidates {
        let shape = shape_at(shapes, candidate.shape);
        let block = move_block(alloc, design, counts, shape, &candidate.arguments)?;
        list.push(block)?;
    }
    list.push(Block::Idle)?;
    Ok(list)
}

/// The states at which each candidate move is good, where these are the good moves of each shape.
pub(crate) fn candidate_states(
    alloc: Global,
    game: &mut Game,
    given: &[Given],
    pairs: &[NodeId],
) -> Result<Vec<NodeId>, AllocError>
    ensures grows { Carried game.old game.new }
    ensures served { IfOk result (λ ids. (d : DesignTree) (zones targets : List NodeId) (shapes : List MoveShape)
        (blocks : List BlockTree) → ServesFrom d game.old zones targets shapes blocks pairs.now given.now
        → AreServed d game.new zones targets blocks ids.items (length given.now)) }
{
    let mut states = Vec::new(alloc);
    for one in given {
        let good = id_at(pairs, one.shape as usize);
        let served = served(game, good, one)?;
        states.push(served)?;
    }
    Ok(states)
}

// The states at which a move with some arguments is good, where this is so at these pairs.
fn served(game: &mut Game, good: NodeId, one: &Given) -> Result<NodeId, AllocError>
    ensures grows { Carried game.old game.new }
    ensures served { IfOk result (λ id. (d : DesignTree) (zones targets : List NodeId) (shapes : List MoveShape)
        (b : BlockTree) → ServesOne d game.old zones targets shapes b good one.now
        → IsServed d game.new zones targets b id) }
{
    let there = placed(game, good, &one.parts)?;
    let fitting = both(game, there, one.fits)?;
    Ok(fitting)
}
