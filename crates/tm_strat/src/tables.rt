//! The tests of states that are tried, in C and as sets.
ghost use Rattle.std.specs.Prelude.{◌≡◌, ◌+◌, ◌++◌, ◌∷◌, [], IfOk, length, sum};
ghost use Rattle.tm_check.specs.Reads.{IsSized};
ghost use Rattle.tm_game.specs.Game.{IsOf};
ghost use Rattle.tm_sem.specs.StateBits.{state_widths as design_widths};
ghost use Rattle.tm_solve_exact.specs.Exact.{IsExactOf};
ghost use Rattle.tm_strat.specs.Fitting.{FitsCounts};
ghost use Rattle.tm_strat.specs.Tested.{AreFewTests, AreTestSets, AreTestsOf, AreTestsSoFar, HasAllBits, IsTestOf};
ghost use Rattle.tm_strat.specs.Tested.{StayFew};
ghost use Rattle.tm_strat.specs.declared.numbers.Counts.{Counts as CountsData};
ghost use Rattle.tm_strat_drafts.specs.Growth.{Carried};
ghost use Rattle.tm_syntax.specs.Design.{DesignTree};
ghost use Rattle.tm_syntax.specs.Design.View.{design_tree};

use crate::choosing::TestTable;
use crate::good::{GoodMoves, id_at};
use crate::numbers::Counts;
use crate::predicates::Predicate;
use crate::reading::read_tests;
use crate::sets::{both, either, rest};
use crate::tests::{bits, low_predicates, predicates};
use indexmap::IndexSet;
use std::alloc::{AllocError, Global};
use tm_dd::{FALSE, NodeId};
use tm_game::Game;
use tm_syntax::design::Design;

// The most tests that are tried before the bits of a state, so that 32 bits number all tests of states and goals.
const MOST_FIRST: usize = 65_536;

// Tests of states, in C and the valid states at which they hold.
#[derive(Drop)]
struct Tests {
    predicates: Vec<Predicate>,
    holds: Vec<NodeId>,
}

/// Tests of states, in C and in tiers.
#[derive(Drop)]
pub(crate) struct AllTests {
    pub(crate) predicates: Vec<Predicate>,
    pub(crate) table: TestTable,
}

// States that tests are to tell apart, and the sets of those of them at which earlier tests hold.
#[derive(Drop)]
struct Told {
    care: NodeId,
    seen: IndexSet<NodeId>,
}

/// The tests that are tried: each of the first ones once that tells some states apart at which a move is good, at most
/// 65,536 of them, those on low bits in a tier of their own, and then the bits of a state, those of who moved last in
/// one, too.
pub(crate) fn all_tests(
    alloc: Global,
    game: &mut Game,
    design: &Design,
    counts: Counts,
    goods: &[GoodMoves],
) -> Result<AllTests, AllocError>
    requires exact { IsExactOf (design_tree design.now) game.old }
    requires sized { IsSized game.old }
    requires counts { FitsCounts (design_tree design.now) counts }
    ensures grows { Carried game.old game.new }
    ensures sets { IfOk result (λ all. AreTestSets (design_tree design.now) game.new counts all.predicates.items
        all.table.holds.items) }
    ensures bits { IfOk result (λ all. HasAllBits (design_tree design.now) counts all.predicates.items) }
    ensures few { IfOk result (λ all. AreFewTests (design_tree design.now) all.predicates.items) }
{
    let mut tests = Tests {
        predicates: Vec::new(alloc),
        holds: Vec::new(alloc),
    };
    let first = push_first(alloc, game, design, counts, goods, &mut tests)?;
    let low = tests.holds.len();
    let last = push_bits(alloc, game, design, counts, &mut tests)?;
    let all = tests.holds.len();
    let ends = Vec::from_slice(alloc, &[first, low, all.saturating_sub(last), all])?;
    Ok(AllTests {
        predicates: tests.predicates,
        table: TestTable {
            holds: tests.holds,
            ends,
        },
    })
}

// Puts the tests that are tried before the bits of a state behind others, and answers how many tests there are with the
// first ones.
fn push_first(
    alloc: Global,
    game: &mut Game,
    design: &Design,
    counts: Counts,
    goods: &[GoodMoves],
    tests: &mut Tests,
) -> Result<usize, AllocError>
    requires { AreTestsSoFar (design_tree design.now) game.old counts tests.old.predicates.items
        tests.old.holds.items }
    ensures grows { Carried game.old game.new }
    ensures sets { IfOk result (λ first. AreTestSets (design_tree design.now) game.new counts
        tests.new.predicates.items tests.new.holds.items) }
    ensures few { IfOk result (λ first. StayFew tests.old.predicates.items tests.new.predicates.items) }
{
    let care = given!(all_care(game, goods));
    let mut told = Told {
        care,
        seen: IndexSet::new(alloc),
    };
    let firsts = given!(predicates(alloc, game, design, counts), told);
    let pushed = push_read(alloc, game, design, counts, &firsts, &mut told, tests);
    drop(firsts);
    given!(pushed, told);
    let first = tests.holds.len();
    let lows = given!(low_predicates(alloc, design), told);
    let pushed = push_read(alloc, game, design, counts, &lows, &mut told, tests);
    drop(lows);
    drop(told);
    given!(pushed);
    Ok(first)
}

// Puts those of some tests behind others that tell states apart as no earlier one does.
fn push_read(
    alloc: Global,
    game: &mut Game,
    design: &Design,
    counts: Counts,
    all: &[Predicate],
    told: &mut Told,
    tests: &mut Tests,
) -> Result<(), AllocError>
    requires { AreTestsSoFar (design_tree design.now) game.old counts tests.old.predicates.items
        tests.old.holds.items }
    ensures grows { Carried game.old game.new }
    ensures sets { IfOk result (λ done. AreTestSets (design_tree design.now) game.new counts
        tests.new.predicates.items tests.new.holds.items) }
    ensures few { IfOk result (λ done. StayFew tests.old.predicates.items tests.new.predicates.items) }
{
    let holds = read_tests(alloc, design, game, counts, all)?;
    push_telling(game, tests, told, all, &holds)?;
    Ok(())
}

// Puts those of some tests behind others that tell states apart as no earlier one does, with the sets where they hold.
fn push_telling(
    game: &mut Game,
    tests: &mut Tests,
    told: &mut Told,
    all: &[Predicate],
    holds: &[NodeId],
) -> Result<(), AllocError>
    ensures grows { Carried game.old game.new }
    ensures sets { IfOk result (λ done. (d : DesignTree) (c : CountsData) → IsExactOf d game.old
        → AreTestsOf d game.old c all.now holds.now (length all.now)
        → AreTestSets d game.old c tests.old.predicates.items tests.old.holds.items
        → AreTestSets d game.new c tests.new.predicates.items tests.new.holds.items) }
    ensures few { IfOk result (λ done. StayFew tests.old.predicates.items tests.new.predicates.items) }
{
    for index in 0..all.len() {
        let there = id_at(holds, index);
        push_test(game, tests, told, all[index], there)?;
    }
    Ok(())
}

// Puts a test behind others where it tells states apart as no earlier one does and there is room for it.
fn push_test(
    game: &mut Game,
    tests: &mut Tests,
    told: &mut Told,
    predicate: Predicate,
    holds: NodeId,
) -> Result<(), AllocError>
    ensures grows { Carried game.old game.new }
    ensures sets { IfOk result (λ done. (d : DesignTree) (c : CountsData) → IsExactOf d game.old
        → IsTestOf d game.old c predicate holds
        → AreTestSets d game.old c tests.old.predicates.items tests.old.holds.items
        → AreTestSets d game.new c tests.new.predicates.items tests.new.holds.items) }
    ensures few { IfOk result (λ done. StayFew tests.old.predicates.items tests.new.predicates.items) }
{
    if tests.predicates.len() >= MOST_FIRST {
        return Ok(());
    }
    let is_new = tells_apart(game, told, holds)?;
    if !is_new {
        return Ok(());
    }
    push_valid(game, tests, predicate, holds)?;
    Ok(())
}

// Whether a test tells states apart that no earlier one tells apart alike.
fn tells_apart(game: &mut Game, told: &mut Told, holds: NodeId) -> Result<bool, AllocError>
    ensures { Carried game.old game.new }
{
    let care = told.care;
    let here = both(game, holds, care)?;
    let others = rest(game, care, holds)?;
    let seen = &mut told.seen;
    if here == FALSE || others == FALSE || seen.contains(&here) || seen.contains(&others) {
        return Ok(false);
    }
    seen.insert(here)?;
    Ok(true)
}

// Puts a test behind others, and the valid states at which it holds.
fn push_valid(
    game: &mut Game,
    tests: &mut Tests,
    predicate: Predicate,
    holds: NodeId,
) -> Result<(), AllocError>
    ensures grows { Carried game.old game.new }
    ensures sets { IfOk result (λ done. (d : DesignTree) (c : CountsData) → IsExactOf d game.old
        → IsTestOf d game.old c predicate holds
        → AreTestSets d game.old c tests.old.predicates.items tests.old.holds.items
        → AreTestSets d game.new c tests.new.predicates.items tests.new.holds.items) }
    ensures there { IfOk result (λ done. tests.new.predicates.items ≡ tests.old.predicates.items ++ predicate ∷ []) }
{
    let valid = game.valid();
    let there = both(game, holds, valid)?;
    tests.predicates.push(predicate)?;
    tests.holds.push(there)?;
    Ok(())
}

// The states at which some move is good for some goal.
fn all_care(game: &mut Game, goods: &[GoodMoves]) -> Result<NodeId, AllocError>
    ensures { Carried game.old game.new }
{
    let mut care = FALSE;
    for good in goods {
        care = either(game, care, good.care)?;
    }
    Ok(care)
}

// Puts the bits of a state behind other tests, and answers how many bits who moved last has.
fn push_bits(
    alloc: Global,
    game: &mut Game,
    design: &Design,
    counts: Counts,
    tests: &mut Tests,
) -> Result<usize, AllocError>
    requires { AreTestsSoFar (design_tree design.now) game.old counts tests.old.predicates.items
        tests.old.holds.items }
    ensures grows { Carried game.old game.new }
    ensures sets { IfOk result (λ done. AreTestSets (design_tree design.now) game.new counts
        tests.new.predicates.items tests.new.holds.items) }
    ensures bits { IfOk result (λ last. HasAllBits (design_tree design.now) counts tests.new.predicates.items) }
    ensures count { IfOk result (λ last. length tests.new.predicates.items
        ≡ length tests.old.predicates.items + sum (design_widths (design_tree design.now))) }
{
    let widths = state_widths(alloc, game, counts)?;
    let all = bits(alloc, &widths, counts)?;
    let holds = read_tests(alloc, design, game, counts, &all)?;
    push_all(game, tests, &all, &holds)?;
    Ok(last_of(&widths))
}

// Puts some tests behind others.
fn push_all(
    game: &mut Game,
    tests: &mut Tests,
    all: &[Predicate],
    holds: &[NodeId],
) -> Result<(), AllocError>
    ensures grows { Carried game.old game.new }
    ensures sets { IfOk result (λ done. (d : DesignTree) (c : CountsData) → IsExactOf d game.old
        → AreTestsOf d game.old c all.now holds.now (length all.now)
        → AreTestSets d game.old c tests.old.predicates.items tests.old.holds.items
        → AreTestSets d game.new c tests.new.predicates.items tests.new.holds.items) }
    ensures there { IfOk result (λ done. tests.new.predicates.items ≡ tests.old.predicates.items ++ all.now) }
{
    for index in 0..all.len() {
        let there = id_at(holds, index);
        push_valid(game, tests, all[index], there)?;
    }
    Ok(())
}

// The last of some widths.
fn last_of(widths: &[u8]) -> usize {
    if widths.is_empty() {
        return 0;
    }
    usize::from(widths[widths.len() - 1])
}

// The widths of the numbers of a state.
fn state_widths(alloc: Global, game: &Game, counts: Counts) -> Result<Vec<u8>, AllocError>
    ensures { IfOk result (λ widths. (d : DesignTree) → IsOf d game.now → FitsCounts d counts
        → widths.items ≡ design_widths d) }
{
    let numbers = counts.vars.saturating_add(counts.processes);
    let widths = &game.flat().widths;
    let count = widths.len();
    let all = widths.as_slice();
    if numbers < count {
        return Vec::from_slice(alloc, &all[..numbers + 1]);
    }
    Vec::from_slice(alloc, all)
}
