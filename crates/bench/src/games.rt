//! The exact games of designs.
ghost use Rattle.std.specs.Prelude.{IfOk, sum};
ghost use Rattle.tm_game_bits.specs.Order.{IsOrder};
ghost use Rattle.tm_refine.specs.Pooled.{CanDecide};
ghost use Rattle.tm_sem.specs.StateBits.{state_widths};
ghost use Rattle.tm_solve.specs.Iterates.{KnowsAll};
ghost use Rattle.tm_solve_exact.specs.Exact.{IsStateSet, exact_ids};
ghost use Rattle.tm_syntax.specs.Design.View.{design_tree};
ghost use Rattle.tm_syntax.specs.Faults.{IsOfText, IsSound};

use std::alloc::{AllocError, Global};
use std::fmt::Write;
use tm_dd::{FALSE, NodeId};
use tm_judge::{ordered_game, sound_designs_of_texts_are_regular};
use tm_orders::{Orders, orders_of};
use tm_solve::{Iterates, Ranking};
use tm_solve_exact::Exact;
use tm_syntax::design::Design;

/// The order of the bits of a design's states that a word names: `weight`, and any other word the control order.
pub fn order_of(alloc: Global, design: &Design, word: &str) -> Result<Vec<u32>, AllocError>
    requires sound { IsSound (design_tree design.now) }
    requires of_text { IsOfText (design_tree design.now).spec }
    ensures { IfOk result (λ order. IsOrder (sum (state_widths (design_tree design.now))) order.items) }
{
    let Orders { weight, control } = orders_of(alloc, design)?;
    match word {
        "weight" => Ok(weight),
        _ => Ok(control),
    }
}

/// The game of a design, to be solved or decided over predicates, in an order of the bits of states that a word names.
pub fn exact_of(alloc: Global, design: &Design, word: &str) -> Result<Exact, AllocError>
    requires sound { IsSound (design_tree design.now) }
    requires of_text { IsOfText (design_tree design.now).spec }
    ensures { IfOk result (λ exact. CanDecide (design_tree design.now) exact.game) }
{
    sound_designs_of_texts_are_regular();
    let order = order_of(alloc, design, word)?;
    let game = ordered_game(alloc, design, &order)?;
    Ok(Exact::new(game))
}

/// How many nodes the game of a design keeps at first.
pub fn made(alloc: Global, design: &Design, word: &str) -> Result<String, AllocError>
    requires sound { IsSound (design_tree design.now) }
    requires of_text { IsOfText (design_tree design.now).spec }
{
    let exact = exact_of(alloc, design, word)?;
    format!(in alloc; "{} nodes kept", exact.game.manager().store().kept())
}

/// Who wins the exact game of a design, and what its solution comes to.
pub fn decided(alloc: Global, design: &Design, word: &str) -> Result<String, AllocError>
    requires sound { IsSound (design_tree design.now) }
    requires of_text { IsOfText (design_tree design.now).spec }
{
    let mut exact = exact_of(alloc, design, word)?;
    let iterates = exact.solve(alloc)?;
    let sizes = sizes_of(alloc, &exact, &iterates)?;
    let winner = winner_of(exact, iterates.region)?;
    format!(in alloc; "{winner}, {sizes}")
}

// What a solution comes to.
fn sizes_of(alloc: Global, exact: &Exact, iterates: &Iterates) -> Result<String, AllocError>
    requires { KnowsAll (exact_ids exact.now.game) iterates.now }
{
    let manager = exact.game.manager();
    let region = manager.size(iterates.region)?;
    let kept = manager.store().kept();
    let levels = iterates.levels.len();
    let ranks = rank_counts(alloc, &iterates.ranks)?;
    format!(in alloc; "ranks{ranks}, levels {levels}, region {region}, {kept} nodes kept")
}

// How many ranked sets each goal has, each number behind a blank.
fn rank_counts(alloc: Global, rankings: &[Ranking]) -> Result<String, AllocError> {
    let mut counts = String::new(alloc);
    for ranking in rankings {
        write!(counts, " {}", ranking.sets.len())?;
    }
    Ok(counts)
}

// Who wins, where the driver wins from a set of states.
fn winner_of(exact: Exact, region: NodeId) -> Result<&'static str, AllocError>
    requires { IsStateSet exact.game region }
{
    let Exact { mut game, .. } = exact;
    let initial = game.initial();
    let left_out = game.and(initial, region.complement())?;
    if left_out == FALSE {
        return Ok("driver");
    }
    Ok("environment")
}
