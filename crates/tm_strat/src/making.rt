//! A driver's blocks from the solution of a game.
ghost use Rattle.std.specs.List.{range_with_len};
ghost use Rattle.std.specs.Prelude.{◌≡◌, ◌+◌, ◌<◌, ◌≤◌, ◌^◌, ℕ, false, true, IfOk, List, length, map};
ghost use Rattle.tm_check.specs.Reads.{IsSized};
ghost use Rattle.tm_cir.specs.Answer.{Answers};
ghost use Rattle.tm_cir.specs.Fit.{FitBlocks};
ghost use Rattle.tm_cir.specs.Tree.{BlockTree};
ghost use Rattle.tm_cir.specs.View.{trees_of};
ghost use Rattle.tm_flat.specs.Inputs.{room};
ghost use Rattle.tm_game.specs.Game.{Grows, IsOf};
ghost use Rattle.tm_dd.specs.declared.node.NodeId.{NodeId};
ghost use Rattle.tm_game.specs.declared.moves.MoveShape.{MoveShape};
ghost use Rattle.tm_sem.specs.Certificates.{DriverSets, MeetsDriver, MeetsMoveForm};
ghost use Rattle.tm_solve.specs.declared.iterates.RankSet.{RankSet};
ghost use Rattle.tm_solve.specs.Iterates as solution;
ghost use Rattle.tm_solve.specs.Iterates.{KnowsAll};
ghost use Rattle.tm_solve_exact.specs.Exact.{IsExactOf, exact_ids};
ghost use Rattle.tm_strat.specs.Choice.{IsChoice};
ghost use Rattle.tm_strat.specs.Chosen.{AreChosen, AreCounted};
ghost use Rattle.tm_strat.specs.Fitting.{FitsCounts};
ghost use Rattle.tm_strat.specs.Goods.{AreGoodMoves, IsGoodFor};
ghost use Rattle.tm_strat.specs.Meeting.{CanCall, Serves};
ghost use Rattle.tm_strat.specs.Prepared.{AreShapesOf, AreWidthsOf, IsPrepared};
ghost use Rattle.tm_strat.specs.Served.{AreGivenFor, AreMadeFor, IsMadeFor, candidate_trees};
ghost use Rattle.tm_strat.specs.Spelled.{draft_tree};
ghost use Rattle.tm_strat.specs.Targets.{AreSetsOf};
ghost use Rattle.tm_strat.specs.Zoned.{AreArgumentLevels};
ghost use Rattle.tm_strat_drafts.specs.Blocks.{AreLater};
ghost use Rattle.tm_strat_drafts.specs.Growth.{Carried};
ghost use Rattle.tm_syntax.specs.Design.{DesignTree};
ghost use Rattle.tm_syntax.specs.Design.View.{design_tree};
ghost use Rattle.tm_verdict.specs.Regular.{IsRegular};

use crate::candidates::Candidate;
use crate::choosing::{Choosing, GoalMoves, TestTable};
use crate::covering::{Chooser, candidates};
use crate::good::{GoodMoves, good_moves, shapes};
use crate::masses::Masses;
use crate::numbers::{Counts, narrow};
use crate::options::all_parameters;
use crate::reading::{Given, candidate_states, read_candidates};
use crate::spelling::{Spelling, fitting, spelled};
use crate::tables::all_tests;
use std::alloc::{AllocError, Global};
use tm_cir::Blocks;
use tm_game::{Game, MoveShape};
use tm_game_bits::ROOM;
use tm_solve::Iterates;
use tm_strat_drafts::{DraftBlock, MoveChoice, strategies};
use tm_syntax::design::Design;

// The most tests of states and goals: 32 bits number them.
const MOST_TESTS: usize = 4294967295;

/// A driver's blocks, and the game from which they were made.
#[derive(Drop)]
pub struct Driven {
    pub game: Game,
    pub blocks: Blocks,
}

/// The blocks of a driver that makes a good move for the ranked sets of a solution wherever there is one, whatever goal
/// is pending.
///
/// A set of states is served by a block that is there where one is good at all of it, else by a candidate move, the
/// first of those that serve most goals, else it is split by the test that leaves the least mixture of candidates on
/// its two sides, unless what serves one side serves the other one, too. The game is taken and given back, since what
/// builds the blocks owns it; its ids mean what they meant. Where the design is that of a text and the ranked sets are
/// a certificate of some strategy, they are one of these blocks. `AllocError` is want of memory; no driver has 2^32
/// blocks.
pub fn driver(
    alloc: Global,
    mut game: Game,
    design: &Design,
    iterates: &Iterates,
) -> Result<Driven, AllocError>
    requires of { IsOf (design_tree design.now) game }
    requires sized { IsSized game }
    requires known { KnowsAll (exact_ids game) iterates.now }
    ensures grows { IfOk result (λ made. Grows game made.game) }
    ensures fits { IfOk result (λ made. FitBlocks (design_tree design.now) (trees_of made.blocks)) }
    ensures meets { IfOk result (λ made. IsRegular (design_tree design.now) → CanCall (design_tree design.now)
        → MeetsMoveForm (design_tree design.now) (solution.driver_sets (exact_ids game) iterates.now)
        → MeetsDriver (design_tree design.now) (Answers (trees_of made.blocks))
        (solution.driver_sets (exact_ids game) iterates.now)) }
{
    tell(&game);
    let _turn = game.turn();
    let prepared = given!(prepare(alloc, &mut game, design, iterates), game);
    build(alloc, game, design, prepared)
}

// What blocks are made from, but for the game.
#[derive(Drop)]
struct Prepared {
    spelling: Spelling,
    masses: Masses,
    tests: TestTable,
    goals: Vec<GoalMoves>,
}

// Makes the good moves of each goal, candidates and tests.
fn prepare(
    alloc: Global,
    game: &mut Game,
    design: &Design,
    iterates: &Iterates,
) -> Result<Prepared, AllocError>
    requires of { IsOf (design_tree design.now) game.old }
    requires sized { IsSized game.old }
    requires sets { AreSetsOf game.old iterates.now }
    ensures grows { Carried game.old game.new }
    ensures counts { IfOk result (λ p. FitsCounts (design_tree design.now) p.spelling.counts) }
    ensures choice { IfOk result (λ p. IsChoice game.new p.tests.holds.items p.goals.items) }
    ensures made { IfOk result (λ p. IsPrepared (design_tree design.now) game.new iterates.now p.spelling
        p.tests.holds.items p.goals.items) }
{
    tell(game);
    let counts = counts_of(design);
    let chooser = given!(chooser_of(alloc, game, design));
    let goods = good_moves(alloc, game, iterates, &chooser.shapes, &chooser.levels);
    let goods = given!(goods, chooser);
    let mut masses = Masses::new(alloc);
    let candidates = candidates(&chooser, game, &mut masses, &goods);
    let candidates = given!(candidates, masses, goods, chooser);
    let tests = all_tests(alloc, game, design, counts, &goods);
    let tests = given!(tests, candidates, masses, goods, chooser);
    let goals = goal_moves(
        alloc,
        game,
        design,
        counts,
        iterates,
        &chooser.shapes,
        &candidates,
        &goods,
    );
    drop(goods);
    let shapes = shapes_of(chooser);
    let goals = given!(goals, tests, candidates, masses, shapes);
    let widths = widths_of(alloc, game);
    let widths = given!(widths, goals, tests, candidates, masses, shapes);
    Ok(Prepared {
        spelling: Spelling {
            counts,
            predicates: tests.predicates,
            shapes,
            widths,
            candidates,
        },
        masses,
        tests: tests.table,
        goals,
    })
}

// The shapes of a chooser's moves.
fn shapes_of(chooser: Chooser) -> Vec<MoveShape>
    ensures { result.items ≡ chooser.shapes.items }
{
    chooser.shapes
}

// What a game tells of the sets that it keeps. It does nothing at run time but read.
fn tell(game: &Game)
    ensures { (d : DesignTree) → IsOf d game.now → IsExactOf d game.now }
{
    let _goals = game.goals();
    let _fairs = game.fairs();
    let _valid = game.valid();
    let _order = game.order();
    let _count = game.terms().count();
}

// How many variables and processes the states of a design have.
fn counts_of(design: &Design) -> Counts
    ensures { FitsCounts (design_tree design.now) result }
{
    Counts {
        vars: design.vars.len(),
        processes: design.processes.len(),
    }
}

// What candidates are chosen with.
fn chooser_of(alloc: Global, game: &Game, design: &Design) -> Result<Chooser, AllocError>
    requires { length game.now.order + 128 < 2 ^ 32 }
    ensures levels { IfOk result (λ c. AreArgumentLevels game.now c.levels.items) }
    ensures few { IfOk result (λ c. length c.shapes.items ≤ 4294967295) }
    ensures all { IfOk result (λ c. AreShapesOf (design_tree design.now) c.shapes.items) }
{
    let tasks = all_parameters(alloc, design, game)?;
    let processes = narrow(design.processes.len());
    let shapes = shapes(alloc, processes, narrow(design.tasks.len()))?;
    let first = narrow(game.order().len());
    let levels = argument_levels(alloc, first)?;
    Ok(Chooser {
        alloc,
        shapes,
        tasks,
        first,
        levels,
    })
}

// The levels of the bits of arguments, from the first on.
fn argument_levels(alloc: Global, first: u32) -> Result<Vec<u32>, AllocError>
    requires { first + 128 < 2 ^ 32 }
    ensures { IfOk result (λ levels. levels.items ≡ range_with_len first room) }
{
    let mut levels = Vec::new(alloc);
    for index in 0..ROOM {
        levels.push(first + index)?;
    }
    Ok(levels)
}

// The widths of the parameters of each task.
fn widths_of(alloc: Global, game: &Game) -> Result<Vec<Vec<u8>>, AllocError>
    ensures { IfOk result (λ rows. AreWidthsOf game.now rows.items) }
{
    let rows = game.flat().parameters.as_slice();
    let mut all = Vec::new(alloc);
    for index in 0..rows.len() {
        let widths = Vec::from_slice(alloc, rows[index].as_slice())?;
        all.push(widths)?;
    }
    Ok(all)
}

// The good moves of each goal, with those of candidates.
fn goal_moves(
    alloc: Global,
    game: &mut Game,
    design: &Design,
    counts: Counts,
    iterates: &Iterates,
    shapes: &[MoveShape],
    candidates: &[Candidate],
    goods: &[GoodMoves],
) -> Result<Vec<GoalMoves>, AllocError>
    requires exact { IsExactOf (design_tree design.now) game.old }
    requires sized { IsSized game.old }
    requires counts { FitsCounts (design_tree design.now) counts }
    requires goods { AreGoodMoves (design_tree design.now) game.old iterates.now shapes.now goods.now }
    ensures grows { Carried game.old game.new }
    ensures count { IfOk result (λ goals. length goals.items ≡ length goods.now) }
    ensures made { IfOk result (λ goals. AreMadeFor (design_tree design.now) game.new iterates.now shapes.now
        (candidate_trees (design_tree design.now) counts shapes.now candidates.now) goals.items) }
{
    let given = read_candidates(alloc, design, game, counts, shapes, candidates)?;
    let mut goals = Vec::new(alloc);
    for index in 0..goods.len() {
        let made = goal_move(alloc, game, &given, &goods[index])?;
        goals.push(made)?;
    }
    Ok(goals)
}

// The good moves of a goal, with those of candidates.
fn goal_move(
    alloc: Global,
    game: &mut Game,
    given: &[Given],
    good: &GoodMoves,
) -> Result<GoalMoves, AllocError>
    ensures grows { Carried game.old game.new }
    ensures made { IfOk result (λ made. (d : DesignTree) (region : NodeId) (ranks : List RankSet) (goal : ℕ)
        (shapes : List MoveShape) (blocks : List BlockTree) → IsExactOf d game.old
        → IsGoodFor d game.old region ranks goal shapes good.now
        → AreGivenFor d game.old shapes blocks given.now (length blocks)
        → IsMadeFor d game.new region ranks goal shapes blocks made) }
{
    let candidates = candidate_states(alloc, game, given, &good.pairs)?;
    let pairs = Vec::from_slice(alloc, &good.pairs)?;
    Ok(GoalMoves {
        pairs,
        candidates,
        care: good.care,
    })
}

// The blocks, from what was prepared.
fn build(
    alloc: Global,
    game: Game,
    design: &Design,
    prepared: Prepared,
) -> Result<Driven, AllocError>
    requires counts { FitsCounts (design_tree design.now) prepared.spelling.counts }
    requires choice { IsChoice game prepared.tests.holds.items prepared.goals.items }
    ensures grows { IfOk result (λ made. Carried game made.game) }
    ensures fits { IfOk result (λ made. FitBlocks (design_tree design.now) (trees_of made.blocks)) }
    ensures meets { IfOk result (λ made. (c : DriverSets) → Serves (design_tree design.now) c game prepared.spelling
        prepared.tests.holds.items prepared.goals.items → MeetsMoveForm (design_tree design.now) c
        → MeetsDriver (design_tree design.now) (Answers (trees_of made.blocks)) c) }
{
    let Prepared {
        spelling,
        masses,
        tests,
        goals,
    } = prepared;
    let choosing = Choosing {
        alloc,
        game,
        masses,
        tests,
        goals,
        pending: 0,
    };
    let drafted = given!(make_drafts(alloc, choosing), spelling);
    let made = spelled_driver(alloc, design, &spelling, drafted);
    drop(spelling);
    made
}

// Drafted blocks, and the game from which they were made.
#[derive(Drop)]
struct Drafted {
    game: Game,
    made: Vec<DraftBlock>,
}

// The blocks of C of drafted ones.
fn spelled_driver(
    alloc: Global,
    design: &Design,
    spelling: &Spelling,
    drafted: Drafted,
) -> Result<Driven, AllocError>
    requires counts { FitsCounts (design_tree design.now) spelling.now.counts }
    requires later { (tests : ℕ) × AreLater tests drafted.made.items }
    ensures grows { IfOk result (λ made. Carried drafted.game made.game) }
    ensures fits { IfOk result (λ made. FitBlocks (design_tree design.now) (trees_of made.blocks)) }
    ensures trees { IfOk result (λ made. trees_of made.blocks
        ≡ map (draft_tree (design_tree design.now) spelling.now) drafted.made.items) }
{
    let Drafted { game, made } = drafted;
    let list = given!(spelled(alloc, design, spelling, &made), made, game);
    drop(made);
    let blocks = fitting(design, list);
    Ok(Driven { game, blocks })
}

// Drafted blocks over all tests.
fn make_drafts(alloc: Global, mut choosing: Choosing) -> Result<Drafted, AllocError>
    ensures good { IfOk result (λ drafted. AreChosen choosing.game choosing.tests.holds.items choosing.goals.items
        drafted.made.items) }
    ensures grows { IfOk result (λ drafted. Carried choosing.game drafted.game) }
    ensures later { IfOk result (λ drafted. (tests : ℕ) × AreLater tests drafted.made.items) }
{
    let made = given!(drafted_blocks(alloc, &mut choosing), choosing);
    let game = game_of(choosing);
    Ok(Drafted { game, made })
}

// The game from which blocks were made.
fn game_of(choosing: Choosing) -> Game
    ensures { result ≡ choosing.game }
{
    choosing.game
}

// Drafted blocks over all tests, or one that idles where there is no goal or 32 bits do not number tests and goals.
fn drafted_blocks(alloc: Global, choosing: &mut Choosing) -> Result<Vec<DraftBlock>, AllocError>
    ensures grows { Carried choosing.old.game choosing.new.game }
    ensures later { IfOk result (λ bs. (tests : ℕ) × AreLater tests bs.items) }
    ensures good { IfOk result (λ bs. AreChosen choosing.old.game choosing.old.tests.holds.items
        choosing.old.goals.items bs.items) }
{
    if choosing.goals.is_empty() {
        return idle_block(alloc);
    }
    if !are_counted(choosing) {
        return idle_block(alloc);
    }
    let states = narrow(choosing.tests.holds.len());
    let goals = narrow(choosing.goals.len());
    let blocks = strategies(alloc, choosing, states, goals)?;
    Ok(blocks)
}

// Whether 32 bits number all tests of states and goals.
fn are_counted(choosing: &Choosing) -> bool
    ensures yes { result ≡ true → AreCounted choosing.now.tests.holds.items choosing.now.goals.items }
    ensures no { result ≡ false → ¬ AreCounted choosing.now.tests.holds.items choosing.now.goals.items }
{
    let tests = choosing.tests.holds.len();
    let goals = choosing.goals.len();
    tests <= MOST_TESTS && goals <= MOST_TESTS - tests
}

// One block, which idles.
#[tactic(auto, using(crate::proofs::Fitted::idle_later))]
fn idle_block(alloc: Global) -> Result<Vec<DraftBlock>, AllocError>
    ensures { IfOk result (λ bs. (tests : ℕ) × AreLater tests bs.items) }
{
    let mut blocks = Vec::new(alloc);
    blocks.push(DraftBlock::Move(MoveChoice::Candidate(0)))?;
    Ok(blocks)
}
