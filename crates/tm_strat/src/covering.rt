//! Candidate moves, chosen so that few of them serve most states.
ghost use Rattle.std.specs.Prelude.{◌≡◌, ◌<◌, ◌/◌, ◌%◌, ◌^◌, ◌==◌};
ghost use Rattle.tm_strat.specs.Constants.{constant_id};
ghost use Rattle.tm_strat_drafts.specs.Growth.{Carried};

use crate::candidates::{Candidate, shape_at};
use crate::expressions::Expression;
use crate::good::{GoodMoves, id_at};
use crate::masses::Masses;
use crate::numbers::{Number, narrow};
use crate::options::Parameter;
use crate::sets::{both, input_bits, placed, rest, somewhere};
use std::alloc::{AllocError, Global};
use tm_dd::{FALSE, NodeId, TRUE};
use tm_game::{Game, MoveShape};

/// How many candidates a goal adds at most.
const MOST: u32 = 64;

/// What candidates are chosen with: the shapes of moves, the parameters of each task, and the levels of the bits of
/// arguments.
#[derive(Drop)]
pub(crate) struct Chooser {
    pub(crate) alloc: Global,
    pub(crate) shapes: Vec<MoveShape>,
    pub(crate) tasks: Vec<Vec<Parameter>>,
    pub(crate) first: u32,
    pub(crate) levels: Vec<u32>,
}

// A move that was chosen, and how many states it serves.
#[derive(Drop)]
struct ServedMove {
    candidate: Candidate,
    mass: f64,
}

// An argument that was chosen, the pairs of a state and of later arguments that it serves, and how many states these
// have.
#[derive(Clone, Copy, Drop)]
struct ServedArgument {
    argument: Expression,
    set: NodeId,
    mass: f64,
}

/// Candidates for each goal in turn: to idle, and then each time the move that is good at most of what is left.
pub(crate) fn candidates(
    chooser: &Chooser,
    game: &mut Game,
    masses: &mut Masses,
    goals: &[GoodMoves],
) -> Result<Vec<Candidate>, AllocError>
    ensures { Carried game.old game.new }
{
    let mut candidates = Vec::new(chooser.alloc);
    candidates.push(Candidate {
        shape: 0,
        arguments: Vec::new(chooser.alloc),
    })?;
    for goal in goals {
        let left = uncovered(chooser, game, goal, &candidates)?;
        cover(chooser, game, masses, goal, left, &mut candidates)?;
    }
    Ok(candidates)
}

// Adds candidates until no move serves any state of a goal that is left.
fn cover(
    chooser: &Chooser,
    game: &mut Game,
    masses: &mut Masses,
    goal: &GoodMoves,
    left: NodeId,
    candidates: &mut Vec<Candidate>,
) -> Result<(), AllocError>
    ensures { Carried game.old game.new }
{
    let mut left = left;
    for _added in 0..MOST {
        let found = best_move(chooser, game, masses, goal, left)?;
        match found {
            None => return Ok(()),
            Some(candidate) => {
                left = without(chooser, game, goal, left, &candidate)?;
                candidates.push(candidate)?;
            }
        }
    }
    Ok(())
}

// The states of a goal that no candidate serves.
fn uncovered(
    chooser: &Chooser,
    game: &mut Game,
    goal: &GoodMoves,
    candidates: &[Candidate],
) -> Result<NodeId, AllocError>
    ensures { Carried game.old game.new }
{
    let mut left = goal.care;
    for candidate in candidates {
        left = without(chooser, game, goal, left, candidate)?;
    }
    Ok(left)
}

// The states of a set that a candidate does not serve.
fn without(
    chooser: &Chooser,
    game: &mut Game,
    goal: &GoodMoves,
    left: NodeId,
    candidate: &Candidate,
) -> Result<NodeId, AllocError>
    ensures { Carried game.old game.new }
{
    let good = id_at(&goal.pairs, candidate.shape as usize);
    let parts = parts_of(chooser, game, candidate)?;
    let states = placed(game, good, &parts)?;
    let others = rest(game, left, states)?;
    Ok(others)
}

// The functions of the levels of a candidate's arguments.
fn parts_of(
    chooser: &Chooser,
    game: &mut Game,
    candidate: &Candidate,
) -> Result<Vec<(u32, NodeId)>, AllocError>
    ensures { Carried game.old game.new }
{
    let mut parts = Vec::new(chooser.alloc);
    let parameters = parameters_of(chooser, candidate.shape);
    for index in 0..candidate.arguments.len() {
        if index < parameters.len() {
            let parameter = &parameters[index];
            let argument = candidate.arguments[index];
            push_parts(chooser, game, &mut parts, argument, parameter)?;
        }
    }
    Ok(parts)
}

// The parameters of the task that a shape calls.
fn parameters_of(chooser: &Chooser, shape: u32) -> &[Parameter] {
    match shape_at(&chooser.shapes, shape) {
        MoveShape::Idle => &[],
        MoveShape::Leave(_) => &[],
        MoveShape::Call(task) => match chooser.tasks.get(task as usize) {
            Some(parameters) => parameters.as_slice(),
            None => &[],
        },
    }
}

// Puts the functions of the levels of an argument behind others.
fn push_parts(
    chooser: &Chooser,
    game: &mut Game,
    parts: &mut Vec<(u32, NodeId)>,
    argument: Expression,
    parameter: &Parameter,
) -> Result<(), AllocError>
    ensures { Carried game.old game.new }
{
    let bits = argument_bits(chooser.alloc, game, argument, parameter.width)?;
    for index in 0..bits.len() {
        let place = parameter.first.saturating_add(narrow(index));
        let level = chooser.first.saturating_add(place);
        parts.push((level, bits[index]))?;
    }
    Ok(())
}

// The bits of an argument of a width, the most significant first.
fn argument_bits(
    alloc: Global,
    game: &mut Game,
    argument: Expression,
    width: u8,
) -> Result<Vec<NodeId>, AllocError>
    ensures { Carried game.old game.new }
{
    match argument {
        Expression::Constant(number) => constant_bits(alloc, number, width),
        Expression::Number(Number::Variable(var)) => {
            let all = input_bits(alloc, game, var)?;
            low_bits(alloc, &all, 0, width)
        }
        Expression::Part(Number::Variable(var), by, _) => {
            let all = input_bits(alloc, game, var)?;
            low_bits(alloc, &all, by, width)
        }
        _ => constant_bits(alloc, 0, width),
    }
}

// The bits of a constant.
fn constant_bits(alloc: Global, number: u64, width: u8) -> Result<Vec<NodeId>, AllocError> {
    let mut bits = Vec::new(alloc);
    for passed in 0..width {
        bits.push(constant_bit(number, width - 1 - passed))?;
    }
    Ok(bits)
}

/// The bit of a constant of a weight.
pub(crate) fn constant_bit(number: u64, weight: u8) -> NodeId
    ensures { weight < 64 → result ≡ constant_id (number / 2 ^ weight % 2 == 1) }
{
    if weight < 64 && (number >> weight) % 2 == 1 {
        TRUE
    } else {
        FALSE
    }
}

// As many bits of some as the width, without the last ones; those that are not there are 0.
fn low_bits(alloc: Global, all: &[NodeId], by: u8, width: u8) -> Result<Vec<NodeId>, AllocError> {
    let mut bits = Vec::new(alloc);
    for passed in 0..width {
        let weight = usize::from(by) + usize::from(width - 1 - passed);
        bits.push(bit_of(all, weight))?;
    }
    Ok(bits)
}

// The bit of a weight of some bits, which is 0 where there is none.
fn bit_of(bits: &[NodeId], weight: usize) -> NodeId {
    if weight < bits.len() {
        bits[bits.len() - 1 - weight]
    } else {
        FALSE
    }
}

// The move that is good at most of a set, or none where none that is tried serves any state.
fn best_move(
    chooser: &Chooser,
    game: &mut Game,
    masses: &mut Masses,
    goal: &GoodMoves,
    left: NodeId,
) -> Result<Option<Candidate>, AllocError>
    ensures { Carried game.old game.new }
{
    let mut best = None;
    let mut most = 0.0;
    for shape in 0..goal.pairs.len() {
        let here = both(game, left, goal.pairs[shape])?;
        let served = best_of_shape(chooser, game, masses, narrow(shape), here)?;
        if served.mass > most {
            most = served.mass;
            best = Some(served.candidate);
        }
    }
    Ok(best)
}

// The move of a shape that is good at most of a set of pairs.
fn best_of_shape(
    chooser: &Chooser,
    game: &mut Game,
    masses: &mut Masses,
    shape: u32,
    pairs: NodeId,
) -> Result<ServedMove, AllocError>
    ensures { Carried game.old game.new }
{
    let mut arguments = Vec::new(chooser.alloc);
    let mut set = pairs;
    for parameter in parameters_of(chooser, shape) {
        let found = best_argument(chooser, game, masses, parameter, set)?;
        arguments.push(found.argument)?;
        set = found.set;
    }
    let mass = masses.of(game.manager().store(), set)?;
    Ok(ServedMove {
        candidate: Candidate { shape, arguments },
        mass,
    })
}

// The argument of a parameter for which some later arguments are good at most states.
fn best_argument(
    chooser: &Chooser,
    game: &mut Game,
    masses: &mut Masses,
    parameter: &Parameter,
    pairs: NodeId,
) -> Result<ServedArgument, AllocError>
    ensures { Carried game.old game.new }
{
    let mut best = ServedArgument {
        argument: Expression::Constant(0),
        set: FALSE,
        mass: 0.0,
    };
    if pairs == FALSE {
        return Ok(best);
    }
    for option in &parameter.options {
        let served = with_argument(chooser, game, masses, *option, parameter, pairs)?;
        if served.mass > best.mass {
            best = served;
        }
    }
    Ok(best)
}

// What an argument serves.
fn with_argument(
    chooser: &Chooser,
    game: &mut Game,
    masses: &mut Masses,
    argument: Expression,
    parameter: &Parameter,
    pairs: NodeId,
) -> Result<ServedArgument, AllocError>
    ensures { Carried game.old game.new }
{
    let mut parts = Vec::new(chooser.alloc);
    push_parts(chooser, game, &mut parts, argument, parameter)?;
    let set = placed(game, pairs, &parts)?;
    let later = (parameter.first as usize).saturating_add(usize::from(parameter.width));
    let states = somewhere(game, set, levels_from(&chooser.levels, later))?;
    let mass = masses.of(game.manager().store(), states)?;
    Ok(ServedArgument {
        argument,
        set,
        mass,
    })
}

// The levels from one on.
fn levels_from(levels: &[u32], first: usize) -> &[u32] {
    if first <= levels.len() {
        &levels[first..]
    } else {
        &[]
    }
}
