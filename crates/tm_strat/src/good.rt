//! Where moves are good for the ranked sets of a solution.
ghost use Rattle.std.specs.Prelude.{◌≡◌, ◌≤◌, ◌<◌, ◌+◌, ◌∷◌, ◌&&◌, [], ℕ, true, false, not, suc, IfOk, OnOk};
ghost use Rattle.std.specs.Prelude.{Some, length, slice_get};
ghost use Rattle.tm_dd.specs.Table.{Table};
ghost use Rattle.tm_dd.specs.declared.node.TheConstants.{FALSE as NOTHING};
ghost use Rattle.tm_ddops.specs.Manager.{IsFunction};
ghost use Rattle.tm_game.specs.Game.{GameData, IsSet};
ghost use Rattle.tm_game.specs.Moves.{HasTask};
ghost use Rattle.tm_game_bits.specs.Diagrams.{IsSetOf};
ghost use Rattle.tm_game_bits.specs.Functions.{Function};
ghost use Rattle.tm_solve_exact.specs.Exact.{IsExactOf};
ghost use Rattle.tm_strat.specs.Choice.{id_in};
ghost use Rattle.tm_strat.specs.Goods.{AreGoodMoves, IsGoodFor, ranks_in};
ghost use Rattle.tm_strat.specs.Shapes.{all_shapes, AreBehind, calls_of, leaves_of};
ghost use Rattle.tm_strat.specs.Targets.{AreSets, AreSetsOf, HasSets};
ghost use Rattle.tm_strat.specs.Zoned.{AreArgumentLevels, AreShapePairs, AreZonePairs, IsCareOf, IsPairFrom};
ghost use Rattle.tm_strat.specs.Zones.{AreNew, AreTargets, AreWaits, AreZones, failing as fails, falling, Tells};
ghost use Rattle.tm_strat.specs.Zones.{Zoning};
ghost use Rattle.tm_syntax.specs.Design.{DesignTree};
ghost use Rattle.tm_strat_drafts.specs.Growth.{Carried};

use crate::sets::{both, either, rest, somewhere};
use std::alloc::{AllocError, Global};
use tm_dd::{FALSE, NodeId};
use tm_game::{Game, MoveShape};
use tm_solve::{Iterates, RankSet};

/// The good moves while a goal is pending: for each shape the pairs of a state and of arguments at which a move of it
/// is good, and the states at which some move is.
#[derive(Drop)]
pub(crate) struct GoodMoves {
    pub(crate) pairs: Vec<NodeId>,
    pub(crate) care: NodeId,
}

/// The most shapes of moves, which are numbered in 32 bits.
const MOST_SHAPES: usize = 4294967295;

/// The shapes of the driver's moves: to idle, to leave each process, and to call each task.
pub(crate) fn shapes(
    alloc: Global,
    processes: u32,
    tasks: u32,
) -> Result<Vec<MoveShape>, AllocError>
    ensures few { IfOk result (λ all. length all.items ≤ 4294967295) }
    ensures all { IfOk result (λ all. 1 + processes + tasks ≤ 4294967295 → all.items ≡ all_shapes processes tasks) }
{
    let mut shapes = Vec::new(alloc);
    shapes.push(MoveShape::Idle)?;
    push_leaves(&mut shapes, processes)?;
    push_calls(&mut shapes, tasks)?;
    Ok(shapes)
}

// Puts the leaves of processes behind other shapes.
#[tactic(auto, using(crate::proofs::Behind::behind_none, crate::proofs::Behind::leaves_more))]
fn push_leaves(shapes: &mut Vec<MoveShape>, processes: u32) -> Result<(), AllocError>
    requires { length shapes.old.items ≤ 4294967295 }
    ensures { IfOk result (λ done. AreBehind shapes.old.items (leaves_of processes) shapes.new.items) }
{
    for process in 0..processes {
        push_shape(shapes, MoveShape::Leave(process))?;
    }
    Ok(())
}

// Puts the calls of tasks behind other shapes.
#[tactic(auto, using(crate::proofs::Behind::behind_none, crate::proofs::Behind::calls_more))]
fn push_calls(shapes: &mut Vec<MoveShape>, tasks: u32) -> Result<(), AllocError>
    requires { length shapes.old.items ≤ 4294967295 }
    ensures { IfOk result (λ done. AreBehind shapes.old.items (calls_of tasks) shapes.new.items) }
{
    for task in 0..tasks {
        push_shape(shapes, MoveShape::Call(task))?;
    }
    Ok(())
}

// Puts a shape behind others, while 32 bits number them.
#[tactic(auto, using(crate::proofs::Behind::behind_pushed, crate::proofs::Behind::behind_full))]
fn push_shape(shapes: &mut Vec<MoveShape>, shape: MoveShape) -> Result<(), AllocError>
    requires { length shapes.old.items ≤ 4294967295 }
    ensures { IfOk result (λ done. AreBehind shapes.old.items (shape ∷ []) shapes.new.items) }
{
    if shapes.len() < MOST_SHAPES {
        shapes.push(shape)?;
    }
    Ok(())
}

/// The good moves of each goal.
pub(crate) fn good_moves(
    alloc: Global,
    game: &mut Game,
    iterates: &Iterates,
    shapes: &[MoveShape],
    levels: &[u32],
) -> Result<Vec<GoodMoves>, AllocError>
    requires of { (d : DesignTree) × IsExactOf d game.old }
    requires sets { AreSetsOf game.old iterates.now }
    requires levels { AreArgumentLevels game.old levels.now }
    ensures grows { Carried game.old game.new }
    ensures count { IfOk result (λ all. length all.items ≡ length iterates.now.ranks.items) }
    ensures good { IfOk result (λ all. (d : DesignTree) → IsExactOf d game.old
        → AreGoodMoves d game.new iterates.now shapes.now all.items) }
{
    let mut all = Vec::new(alloc);
    for goal in 0..iterates.ranks.len() {
        let ranks = ranks_at(iterates, goal);
        let good = goal_moves(alloc, game, iterates.region, ranks, goal, shapes, levels)?;
        all.push(good)?;
    }
    Ok(all)
}

// The ranked sets of a goal.
fn ranks_at(iterates: &Iterates, goal: usize) -> &[RankSet]
    requires { goal < length iterates.now.ranks.items }
    ensures sets { (g : GameData) → AreSetsOf g iterates.now → HasSets g result.now }
    ensures same { result.now ≡ ranks_in iterates.now goal }
{
    iterates.ranks[goal].sets.as_slice()
}

// The good moves of a goal.
fn goal_moves(
    alloc: Global,
    game: &mut Game,
    region: NodeId,
    ranks: &[RankSet],
    goal: usize,
    shapes: &[MoveShape],
    levels: &[u32],
) -> Result<GoodMoves, AllocError>
    requires of { (d : DesignTree) × IsExactOf d game.old }
    requires region { IsSet game.old region }
    requires ranks { HasSets game.old ranks.now }
    requires levels { AreArgumentLevels game.old levels.now }
    ensures grows { Carried game.old game.new }
    ensures good { IfOk result (λ good. (d : DesignTree) → IsExactOf d game.old
        → IsGoodFor d game.new region ranks.now goal shapes.now good) }
{
    let _turn = game.turn();
    let states = zones(alloc, game, region, ranks, goal)?;
    let ends = targets(alloc, game, region, ranks)?;
    let good = moves_of(alloc, game, &states, &ends, shapes, levels)?;
    Ok(good)
}

// The sets in which moves are to end: the region, and for each rank the states of no higher one.
fn targets(
    alloc: Global,
    game: &mut Game,
    region: NodeId,
    ranks: &[RankSet],
) -> Result<Vec<NodeId>, AllocError>
    requires region { IsSet game.old region }
    requires ranks { HasSets game.old ranks.now }
    ensures grows { Carried game.old game.new }
    ensures sets { IfOk result (λ ids. AreSets game.new ids.items) }
    ensures are { IfOk result (λ ids. (goal : ℕ) (z : Zoning) → Tells game.old region ranks.now goal z
        → AreTargets game.new.diagrams.table z (suc (length ranks.now)) ids.items) }
{
    let mut targets = Vec::new(alloc);
    targets.push(region)?;
    let mut within = FALSE;
    for index in 0..ranks.len() {
        let rank = rank_in(ranks, index);
        within = either(game, within, rank.set)?;
        targets.push(within)?;
    }
    Ok(targets)
}

// For each target the states from which a move is to end in it: in the region where the goal holds, and elsewhere at no
// higher rank, and at a lower one where the condition of the rank holds. From the states of the lowest rank at which it
// holds no move is good.
fn zones(
    alloc: Global,
    game: &mut Game,
    region: NodeId,
    ranks: &[RankSet],
    goal: usize,
) -> Result<Vec<NodeId>, AllocError>
    ensures grows { Carried game.old game.new }
    ensures are { IfOk result (λ ids. (z : Zoning) → Tells game.old region ranks.now goal z
        → AreZones game.new.diagrams.table z (suc (length ranks.now)) ids.items) }
{
    let holds = id_at(game.goals(), goal);
    let turn = game.turn();
    let here = both(game, region, turn)?;
    let met = both(game, here, holds)?;
    let failing = rest(game, here, holds)?;
    let waits = waits(alloc, game, failing, ranks)?;
    let mut zones = Vec::new(alloc);
    zones.push(met)?;
    push_zones(game, &mut zones, &waits)?;
    Ok(zones)
}

// New states of a rank: those at which its condition fails, and those at which it holds.
#[derive(Clone, Copy, Drop)]
struct NewStates {
    waiting: NodeId,
    falling: NodeId,
}

// The new states of each rank, of a set.
fn waits(
    alloc: Global,
    game: &mut Game,
    failing: NodeId,
    ranks: &[RankSet],
) -> Result<Vec<NewStates>, AllocError>
    ensures grows { Carried game.old game.new }
    ensures are { IfOk result (λ waits. (region : NodeId) (goal : ℕ) (z : Zoning)
        → Tells game.old region ranks.now goal z → IsFunction game.old.diagrams.table failing (fails z)
        → AreWaits game.new.diagrams.table z (length ranks.now) waits.items) }
{
    let mut waits = Vec::new(alloc);
    let mut before = FALSE;
    for index in 0..ranks.len() {
        let rank = rank_in(ranks, index);
        let states = new_states(game, failing, before, rank)?;
        waits.push(states)?;
        before = either(game, before, rank.set)?;
    }
    Ok(waits)
}

// The new states of a rank, of a set.
fn new_states(
    game: &mut Game,
    failing: NodeId,
    before: NodeId,
    rank: RankSet,
) -> Result<NewStates, AllocError>
    ensures grows { Carried game.old game.new }
    ensures are { IfOk result (λ n. (f b set fair : Function) → IsFunction game.old.diagrams.table failing f
        → IsFunction game.old.diagrams.table before b → IsFunction game.old.diagrams.table rank.set set
        → IsFunction game.old.diagrams.table (id_in game.old.fairs rank.fair) fair
        → AreNew game.new.diagrams.table (λ v. (f v && set v) && not (b v)) fair n) }
{
    let fair = id_at(game.fairs(), rank.fair as usize);
    let inside = both(game, failing, rank.set)?;
    let added = rest(game, inside, before)?;
    let waiting = rest(game, added, fair)?;
    let falling = both(game, added, fair)?;
    Ok(NewStates { waiting, falling })
}

// Puts for each rank the states that wait at it, and those that fall to it from the next one, behind others.
fn push_zones(
    game: &mut Game,
    zones: &mut Vec<NodeId>,
    waits: &[NewStates],
) -> Result<(), AllocError>
    ensures grows { Carried game.old game.new }
    ensures are { OnOk result ((z : Zoning) → AreZones game.old.diagrams.table z 1 zones.old.items
        → AreWaits game.old.diagrams.table z (length z.ranks) waits.now
        → AreZones game.new.diagrams.table z (suc (length waits.now)) zones.new.items) }
{
    for index in 0..waits.len() {
        let new = states_in(waits, index);
        let falling = falling_to(waits, index);
        let states = either(game, new.waiting, falling)?;
        zones.push(states)?;
    }
    Ok(())
}

// The states that fall to a rank from the next one.
fn falling_to(waits: &[NewStates], index: usize) -> NodeId
    requires { index < length waits.now }
    ensures { (t : Table) (z : Zoning) → AreWaits t z (length z.ranks) waits.now
        → IsFunction t result (falling z (suc index)) }
{
    if index + 1 < waits.len() {
        let next = states_in(waits, index + 1);
        return next.falling;
    }
    FALSE
}

// The new states of the rank of a number.
fn states_in(waits: &[NewStates], index: usize) -> NewStates
    requires { index < length waits.now }
    ensures { slice_get waits.now index ≡ Some result }
{
    waits[index]
}

// The ranked set of a number.
fn rank_in(ranks: &[RankSet], index: usize) -> RankSet
    requires { index < length ranks.now }
    ensures { slice_get ranks.now index ≡ Some result }
{
    ranks[index]
}

/// The id of a number in a list, or `FALSE` where there is none.
pub(crate) fn id_at(ids: &[NodeId], index: usize) -> NodeId
    ensures { result ≡ id_in ids.now index }
{
    if index < ids.len() { ids[index] } else { FALSE }
}

// The good moves over some zones and their targets.
fn moves_of(
    alloc: Global,
    game: &mut Game,
    zones: &[NodeId],
    targets: &[NodeId],
    shapes: &[MoveShape],
    levels: &[u32],
) -> Result<GoodMoves, AllocError>
    requires zones { AreSets game.old zones.now }
    requires targets { AreSets game.old targets.now }
    requires levels { AreArgumentLevels game.old levels.now }
    ensures grows { Carried game.old game.new }
    ensures pairs { IfOk result (λ good. (d : DesignTree) → IsExactOf d game.old
        → AreShapePairs d game.old zones.now targets.now game.new.diagrams.table shapes.now good.pairs.items
        (length shapes.now)) }
    ensures care { IfOk result (λ good. (d : DesignTree) → IsExactOf d game.old
        → IsCareOf game.old game.new.diagrams.table good.pairs.items good.care) }
{
    let mut pairs = Vec::new(alloc);
    let mut care = FALSE;
    for shape in shapes {
        let good = shape_moves(game, zones, targets, *shape)?;
        let states = somewhere(game, good, levels)?;
        care = either(game, care, states)?;
        pairs.push(good)?;
    }
    Ok(GoodMoves { pairs, care })
}

// The pairs of a state and of arguments at which a move of a shape is good in some zone.
fn shape_moves(
    game: &mut Game,
    zones: &[NodeId],
    targets: &[NodeId],
    shape: MoveShape,
) -> Result<NodeId, AllocError>
    requires zones { AreSets game.old zones.now }
    requires targets { AreSets game.old targets.now }
    ensures grows { Carried game.old game.new }
    ensures pairs { IfOk result (λ id. (d : DesignTree) → IsExactOf d game.old
        → AreZonePairs d game.old zones.now targets.now (length targets.now) game.new.diagrams.table shape id) }
{
    let mut good = FALSE;
    for index in 0..targets.len() {
        let target = target_at(targets, index);
        let states = id_at(zones, index);
        let here = zone_moves(game, states, target, shape)?;
        good = either(game, good, here)?;
    }
    Ok(good)
}

// The target of a number.
#[tactic(auto, using(crate::proofs::Carrying::set_at))]
fn target_at(targets: &[NodeId], index: usize) -> NodeId
    requires { index < length targets.now }
    ensures sets { (g : GameData) → AreSets g targets.now → IsSet g result }
    ensures same { result ≡ id_in targets.now index }
{
    targets[index]
}

// The pairs of a state of a zone and of arguments at which a move of a shape is good for a target.
#[tactic(auto, using(crate::proofs::Carrying::carry))]
fn zone_moves(
    game: &mut Game,
    states: NodeId,
    target: NodeId,
    shape: MoveShape,
) -> Result<NodeId, AllocError>
    requires states { IsSet game.old states }
    requires target { IsSet game.old target }
    ensures grows { Carried game.old game.new }
    ensures pairs { IfOk result (λ id. (d : DesignTree) → IsExactOf d game.old
        → IsSetOf game.new.diagrams.table (IsPairFrom d game.old states target shape) id) }
{
    if !may_move(game, states, target, shape) {
        return Ok(FALSE);
    }
    let legal = game.legal_move(shape, target)?;
    let here = both(game, states, legal)?;
    Ok(here)
}

// Whether neither set is empty, and the task of a shape is there.
fn may_move(game: &Game, states: NodeId, target: NodeId, shape: MoveShape) -> bool
    ensures may { result ≡ true → (¬ (states ≡ NOTHING)) × (¬ (target ≡ NOTHING)) × HasTask game.now.flat shape }
    ensures never { result ≡ false → ¬ ((¬ (states ≡ NOTHING)) × (¬ (target ≡ NOTHING))
        × HasTask game.now.flat shape) }
{
    states != FALSE && target != FALSE && has_task(game, shape)
}

// Whether the task of a shape is there.
#[tactic(auto, using(crate::proofs::Carrying::task_there))]
fn has_task(game: &Game, shape: MoveShape) -> bool
    ensures there { result ≡ true → HasTask game.now.flat shape }
    ensures gone { result ≡ false → ¬ HasTask game.now.flat shape }
{
    match shape {
        MoveShape::Idle => true,
        MoveShape::Leave(_) => true,
        MoveShape::Call(task) => (task as usize) < game.flat().tasks.len(),
    }
}
