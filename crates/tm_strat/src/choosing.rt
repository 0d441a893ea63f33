//! What a driver's blocks are chosen from.
ghost use Rattle.std.specs.Prelude.{◌≡◌, ◌+◌, ◌<◌, ◌≤◌, ℕ, false, IfOk, length, slice_get, slice_index_or};
ghost use Rattle.tm_dd.specs.Table.{Knows};
ghost use Rattle.tm_dd.specs.declared.node.TheConstants.{FALSE as NOTHING};
ghost use Rattle.tm_solve.specs.Ids.{Is};
ghost use Rattle.tm_solve_exact.specs.Exact.{HasDesign, IsStateSet, exact_game, exact_ids};
ghost use Rattle.tm_strat.specs.Choice.{care_in, constant_set, id_in, IsChoice, IsPairs, setting_of};
ghost use Rattle.tm_strat.specs.Choice.{candidates_of as those_candidates, pairs_of as those_pairs};
ghost use Rattle.tm_strat.specs.Constants.{AreBitsFrom, BitsOrNone, ConstantOrNone, HasBits};
ghost use Rattle.tm_strat_drafts.specs.Growth.{Carried};

use crate::covering::constant_bit;
use crate::good::id_at;
use crate::masses::Masses;
use crate::numbers::narrow;
use crate::sets::{both, chosen, least, placed, rest};
use crate::splits::{Contest, best_test, contest_over};
use std::alloc::{AllocError, Global};
use tm_dd::{FALSE, NodeId};
use tm_game::Game;
use tm_strat_drafts::{MoveChoice, Moves};

/// A goal's good moves: for each shape the pairs of a state and of arguments at which a move of it is good, for each
/// candidate the states at which it is, and the states at which some move is.
#[derive(Drop)]
pub(crate) struct GoalMoves {
    pub(crate) pairs: Vec<NodeId>,
    pub(crate) candidates: Vec<NodeId>,
    pub(crate) care: NodeId,
}

/// The tests of states in tiers, with the number behind the last test of each tier: those of a later tier are tried
/// only where none of an earlier one splits a set.
#[derive(Drop)]
pub(crate) struct TestTable {
    pub(crate) holds: Vec<NodeId>,
    pub(crate) ends: Vec<usize>,
}

/// A game with tests of its states and good moves, while one goal is pending. Behind the tests of states come those
/// whether a goal is pending.
#[derive(Drop)]
pub(crate) struct Choosing {
    pub(crate) alloc: Global,
    pub(crate) game: Game,
    pub(crate) masses: Masses,
    pub(crate) tests: TestTable,
    pub(crate) goals: Vec<GoalMoves>,
    pub(crate) pending: usize,
    pub(crate) ghost is: { IsChoice game tests.holds.items goals.items },
}

// A move of the first shape that has one that is good at some state of a set, with constant arguments; none where no
// shape has one.
fn constant_move(
    game: &mut Game,
    pairs: &[NodeId],
    set: NodeId,
) -> Result<Option<MoveChoice>, AllocError>
    requires design { HasDesign game.old }
    requires few { length pairs.now ≤ 4294967295 }
    requires pairs { (k : ℕ) → IsPairs game.old (id_in pairs.now k) }
    requires set { IsStateSet game.old set }
    ensures grows { Carried game.old game.new }
    ensures value { IfOk result (ConstantOrNone game.old pairs.now set) }
{
    for shape in 0..pairs.len() {
        let found = good_bits(game, pairs[shape], set)?;
        match found {
            Some(bits) => return Ok(Some(MoveChoice::Constant(shape as u32, bits))),
            None => {}
        }
    }
    Ok(None)
}

// The bits of arguments with which a move of a shape is good at some state of a set, none where there are none.
fn good_bits(game: &mut Game, pairs: NodeId, set: NodeId) -> Result<Option<u64>, AllocError>
    requires design { HasDesign game.old }
    requires pairs { IsPairs game.old pairs }
    requires set { IsStateSet game.old set }
    ensures grows { Carried game.old game.new }
    ensures value { IfOk result (BitsOrNone game.old pairs set) }
{
    let here = both(game, pairs, set)?;
    if here == FALSE {
        return Ok(None);
    }
    let bits = argument_bits(game, here)?;
    Ok(Some(bits))
}

// The bits of arguments of the least pair of a set, the first one the most significant of 64.
fn argument_bits(game: &Game, pairs: NodeId) -> Result<u64, AllocError>
    requires known { Knows game.now.diagrams.table pairs }
    requires some { ¬ (pairs ≡ NOTHING) }
    ensures { IfOk result (HasBits game.now pairs) }
{
    match least(game, pairs)? {
        None => Ok(0),
        Some(values) => Ok(bits_from(&values, game.order().len())),
    }
}

// 64 values from one on as a number, the first one the most significant; those that are not there are 0.
fn bits_from(values: &[bool], first: usize) -> u64
    ensures { AreBitsFrom values.now first result }
{
    let mut bits: u64 = 0;
    for index in 0..64 {
        let here = value_at(values, first, index);
        bits = bits * 2 + u64::from(here);
    }
    bits
}

// The value of an index from one on, false where there is none.
fn value_at(values: &[bool], first: usize, index: usize) -> bool
    ensures { result ≡ slice_index_or values.now (first + index) false }
{
    if index < values.len() && first < values.len() - index {
        values[first + index]
    } else {
        false
    }
}

// The states at which a move is good with constant arguments.
fn constant_states(
    alloc: Global,
    game: &mut Game,
    pairs: NodeId,
    bits: u64,
) -> Result<NodeId, AllocError>
    requires design { HasDesign game.old }
    requires pairs { IsPairs game.old pairs }
    ensures grows { Carried game.old game.new }
    ensures value { IfOk result (λ id. Is (exact_game game.old).states (exact_ids game.new) id
        (constant_set game.old pairs bits)) }
{
    let _levels = game.manager().store().levels();
    let first = narrow(game.order().len());
    let mut parts = Vec::new(alloc);
    for index in 0..64_u8 {
        let level = first + u32::from(index);
        parts.push((level, constant_bit(bits, 63 - index)))?;
    }
    let states = placed(game, pairs, &parts)?;
    Ok(states)
}

// Of the candidates that are good at all of a set while a goal is pending, the first one that is so for most goals, or
// the first candidate where there is none: a move that serves other goals, too, comes before one that lets them wait.
fn likely_candidate(
    game: &mut Game,
    goals: &[GoalMoves],
    pending: usize,
    set: NodeId,
) -> Result<MoveChoice, AllocError>
    ensures { Carried game.old game.new }
{
    let mut best = 0;
    let mut most = 0;
    for number in 0..candidates_of(goals, pending).len() {
        let served = goals_served(game, goals, pending, number, set)?;
        if served >= goals.len() {
            return Ok(MoveChoice::Candidate(narrow(number)));
        }
        if served > most {
            most = served;
            best = number;
        }
    }
    Ok(MoveChoice::Candidate(narrow(best)))
}

// For how many goals a candidate is good at all of a set, none where it is not while a goal is pending.
fn goals_served(
    game: &mut Game,
    goals: &[GoalMoves],
    pending: usize,
    number: usize,
    set: NodeId,
) -> Result<usize, AllocError>
    ensures { Carried game.old game.new }
{
    let candidates = candidates_of(goals, pending);
    let left = rest(game, set, id_at(candidates, number))?;
    if left != FALSE {
        return Ok(0);
    }
    count_served(game, goals, number, set)
}

// For how many goals a candidate is good at all states of a set at which some move is.
fn count_served(
    game: &mut Game,
    goals: &[GoalMoves],
    number: usize,
    set: NodeId,
) -> Result<usize, AllocError>
    ensures { Carried game.old game.new }
{
    let mut served: usize = 0;
    for goal in goals {
        let asked = both(game, set, goal.care)?;
        let left = rest(game, asked, id_at(&goal.candidates, number))?;
        if left == FALSE {
            served = served.saturating_add(1);
        }
    }
    Ok(served)
}

// The best test for what is to be told apart, of the first tier that has one.
fn tiered_test(
    game: &mut Game,
    masses: &mut Masses,
    tests: &TestTable,
    contest: &Contest,
) -> Result<Option<u32>, AllocError>
    ensures { Carried game.old game.new }
{
    let holds = tests.holds.as_slice();
    let mut first = 0;
    for end in &tests.ends {
        let found = best_test(game, masses, holds, first, *end, contest)?;
        if found.is_some() {
            return Ok(found);
        }
        first = *end;
    }
    Ok(None)
}

// A number below another one, or else 0.
fn below(number: Option<u32>, end: u32) -> u32
    requires { 0 < end }
    ensures { result < end }
{
    match number {
        Some(found) => { if found < end { found } else { 0 } }
        None => 0,
    }
}

// The best test for what is to be told apart in a set while a goal is pending, none where there is none.
fn any_test(
    alloc: Global,
    game: &mut Game,
    masses: &mut Masses,
    tests: &TestTable,
    candidates: &[NodeId],
    set: NodeId,
) -> Result<Option<u32>, AllocError>
    ensures { Carried game.old game.new }
{
    let contest = given!(contest_over(alloc, game, masses, candidates, set));
    let found = tiered_test(game, masses, tests, &contest);
    drop(contest);
    found
}

// The states at which some move is good while a goal is pending.
fn care_of(goals: &[GoalMoves], goal: usize) -> NodeId
    ensures { result ≡ care_in (slice_get goals.now goal) }
{
    if goal < goals.len() {
        goals[goal].care
    } else {
        FALSE
    }
}

// The good moves of a goal, of each shape.
fn pairs_of(goals: &[GoalMoves], goal: usize) -> &[NodeId]
    ensures { result.now ≡ those_pairs (slice_get goals.now goal) }
{
    if goal < goals.len() {
        goals[goal].pairs.as_slice()
    } else {
        &[]
    }
}

// The states at which each candidate is good while a goal is pending.
fn candidates_of(goals: &[GoalMoves], goal: usize) -> &[NodeId]
    ensures { result.now ≡ those_candidates (slice_get goals.now goal) }
{
    if goal < goals.len() {
        goals[goal].candidates.as_slice()
    } else {
        &[]
    }
}

impl Moves for Choosing {
    ghost setting = { λ c. setting_of c.game c.tests.holds.items c.goals.items c.pending };

    fn turn_to(&mut self, goal: u32) {
        self.pending = goal as usize;
    }

    fn nothing(&self) -> NodeId {
        let _store = self.game.manager().store();
        FALSE
    }

    fn region(&self) -> NodeId {
        care_of(&self.goals, self.pending)
    }

    fn test(&mut self, number: u32) -> Result<NodeId, AllocError> {
        let index = number as usize;
        let count = self.tests.holds.len();
        if index < count {
            return Ok(self.tests.holds[index]);
        }
        if index - count == self.pending {
            return Ok(self.game.valid());
        }
        Ok(FALSE)
    }

    fn good(&mut self, choice: MoveChoice) -> Result<NodeId, AllocError> {
        match choice {
            MoveChoice::Candidate(number) => {
                let candidates = candidates_of(&self.goals, self.pending);
                Ok(id_at(candidates, number as usize))
            }
            MoveChoice::Constant(shape, bits) => {
                let pairs = id_at(pairs_of(&self.goals, self.pending), shape as usize);
                constant_states(self.alloc, &mut self.game, pairs, bits)
            }
        }
    }

    fn some_move(&mut self, set: NodeId) -> Result<MoveChoice, AllocError> {
        let pairs = pairs_of(&self.goals, self.pending);
        let found = constant_move(&mut self.game, pairs, set)?;
        match found {
            Some(choice) => Ok(choice),
            None => Ok(MoveChoice::Candidate(0)),
        }
    }

    fn likely_move(&mut self, set: NodeId) -> Result<MoveChoice, AllocError> {
        likely_candidate(&mut self.game, &self.goals, self.pending, set)
    }

    fn likely_test(&mut self, set: NodeId, tests: u32) -> Result<u32, AllocError> {
        let candidates = candidates_of(&self.goals, self.pending);
        let found = any_test(
            self.alloc,
            &mut self.game,
            &mut self.masses,
            &self.tests,
            candidates,
            set,
        )?;
        Ok(below(found, tests))
    }

    fn meet(&mut self, a: NodeId, b: NodeId) -> Result<NodeId, AllocError> {
        both(&mut self.game, a, b)
    }

    fn without(&mut self, a: NodeId, b: NodeId) -> Result<NodeId, AllocError> {
        rest(&mut self.game, a, b)
    }

    fn choose(&mut self, test: NodeId, a: NodeId, b: NodeId) -> Result<NodeId, AllocError> {
        chosen(&mut self.game, test, a, b)
    }

    ghost told = { λ c. record { told = c.is.told } };
}
