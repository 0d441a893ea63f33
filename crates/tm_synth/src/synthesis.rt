//! The decision: a driver, the environment, or a budget that is spent.
ghost use Rattle.std.specs.Prelude.{◌≡◌, ℕ, IfOk, Option, sum};
ghost use Rattle.tm_game_bits.specs.Order.{IsOrder};
ghost use Rattle.tm_sem.specs.StateBits.{state_widths};
ghost use Rattle.tm_syntax.specs.Design.View.{design_tree};
ghost use Rattle.tm_syntax.specs.Faults.{IsOfText, IsSound};
ghost use Rattle.tm_synth.specs.Found.{IsFound, KeepsTo};
ghost use Rattle.tm_synth.specs.Shown.{IsWeightOrder};
ghost use Rattle.tm_synth.specs.Traced.{IsGameDecided};
ghost use Rattle.tm_verdict.specs.Regular.{IsRegular};

use crate::driver::driver_files;
use crate::environment::environment_files;
use crate::found::Synthesis;
use std::alloc::{AllocError, Global};
use tm_game::Game;
use tm_judge::{ordered_game, sound_designs_of_texts_are_regular};
use tm_orders::orders_of;
use tm_refine::{Decision, Pooled, Sided, decide};
use tm_solve_exact::Exact;
use tm_syntax::design::Design;

// A game, and what was decided of it.
#[derive(Drop)]
struct DecidedGame {
    game: Game,
    decision: Decision,
}

// The game of a design in an order of the bits of its states, decided over predicates.
fn decided(
    alloc: Global,
    design: &Design,
    order: &[u32],
    budget: Option<u32>,
) -> Result<DecidedGame, AllocError>
    requires sound { IsSound (design_tree design.now) }
    requires of_text { IsOfText (design_tree design.now).spec }
    requires regular { IsRegular (design_tree design.now) }
    requires order { IsOrder (sum (state_widths (design_tree design.now))) order.now }
    ensures { IfOk result (λ r. IsGameDecided (design_tree design.now) budget r.game r.decision) }
{
    let game = match ordered_game(alloc, design, order) {
        Ok(game) => game,
        Err(error) => return Err(error),
    };
    let mut sided = Sided {
        arena: Pooled::new(alloc, Exact::new(game)),
        tracked: Vec::new(alloc),
        upper: false,
    };
    match decide(alloc, &mut sided, budget) {
        Ok(decision) => Ok(DecidedGame {
            game: game_of(sided),
            decision,
        }),
        Err(error) => {
            drop(sided);
            Err(error)
        }
    }
}

// The game that was decided.
fn game_of(sided: Sided<Pooled>) -> Game
    ensures { result ≡ sided.arena.exact.game }
{
    sided.arena.exact.game
}

// The files of what was decided.
fn files_of(
    alloc: Global,
    design: &Design,
    decided: DecidedGame,
    weight: &[u32],
) -> Result<Synthesis, AllocError>
    requires weight { IsWeightOrder (design_tree design.now) weight.now }
    requires sound { IsSound (design_tree design.now) }
    requires of_text { IsOfText (design_tree design.now).spec }
    requires regular { IsRegular (design_tree design.now) }
    requires decided { (budget : Option ℕ) × IsGameDecided (design_tree design.now) budget decided.game
        decided.decision }
    ensures found { (budget : Option ℕ) → IsGameDecided (design_tree design.now) budget decided.game decided.decision
        → IfOk result (IsFound (design_tree design.now) budget) }
    ensures within { (budget : Option ℕ) → IsGameDecided (design_tree design.now) budget decided.game decided.decision
        → IfOk result (KeepsTo budget) }
{
    let DecidedGame { game, decision } = decided;
    match decision {
        Decision::Driver(iterates, trace) => {
            let files = driver_files(alloc, design, game, &iterates, trace, weight);
            drop(iterates);
            files
        }
        Decision::Environment(iterates, trace) => {
            let files = environment_files(alloc, design, &game, &iterates, trace, weight);
            drop(iterates);
            drop(game);
            files
        }
        Decision::Spent(trace) => {
            drop(game);
            Ok(Synthesis::Spent(trace))
        }
    }
}

/// Finds a driver for the design of a text, or shows that none exists (Piterman, Pnueli and Sa'ar 2006), with the text
/// of a certificate that the checker accepts, and with the predicates over whose cells it was found (Walker and Ryzhyk
/// 2014). With a budget at most so many predicates are added to those of the design's claims.
///
/// The game is solved in the control order of the bits of states, and the certificate is written in the weight order.
/// `AllocError` is want of memory.
pub fn synthesise(
    alloc: Global,
    design: &Design,
    budget: Option<u32>,
) -> Result<Synthesis, AllocError>
    requires sound { IsSound (design_tree design.now) }
    requires of_text { IsOfText (design_tree design.now).spec }
    ensures found { IfOk result (IsFound (design_tree design.now) budget) }
    ensures within { IfOk result (KeepsTo budget) }
{
    sound_designs_of_texts_are_regular();
    let orders = match orders_of(alloc, design) {
        Ok(orders) => orders,
        Err(error) => return Err(error),
    };
    match decided(alloc, design, &orders.control, budget) {
        Ok(decided) => files_of(alloc, design, decided, &orders.weight),
        Err(error) => Err(error),
    }
}
