//! The verdict on a driver's certificate.
ghost use Rattle.std.specs.Prelude.{◌≡◌, IfOk, Ok, length, map, sum};
ghost use Rattle.tm_check.specs.Verdict.{IsDriverVerdict};
ghost use Rattle.tm_cir.specs.Answer.{Answers};
ghost use Rattle.tm_cir.specs.View.{trees_of};
ghost use Rattle.tm_game_bits.specs.Order.{IsOrder};
ghost use Rattle.tm_judge.specs.Judged.{CanJudgeDriver};
ghost use Rattle.tm_sem.specs.StateBits.{state_widths};
ghost use Rattle.tm_sem.specs.Strategy.{Good};
ghost use Rattle.tm_verdict.specs.Sets.{driver_sets};
ghost use Rattle.tm_syntax.specs.Design.View.{design_tree};
ghost use Rattle.tm_verdict.specs.declared.verdict.Verdict.{Verdict as Answer};

use crate::orders::are_same;
use crate::{
    ordered_game, sound_designs_of_texts_are_regular, sound_designs_of_texts_have_initial_states,
};
use std::alloc::{AllocError, Global};
use tm_cert::DriverCert;
use tm_check::check_driver;
use tm_cir::Blocks;
use tm_ddops::Manager;
use tm_orders::orders_of;
use tm_reorder::reorder_driver;
use tm_syntax::design::Design;
use tm_verdict::Verdict;

// The verdict, by the game in the order of the certificate.
fn judge_in_order(
    alloc: Global,
    design: &Design,
    blocks: &Blocks,
    cert: &DriverCert,
) -> Result<Verdict, AllocError>
    requires { CanJudgeDriver (design_tree design.now) (trees_of blocks.now) cert.now }
    ensures verdict { IfOk result (IsDriverVerdict (design_tree design.now) (Answers (trees_of blocks.now))
        (driver_sets (design_tree design.now) cert.now)) }
    ensures only { IfOk result (λ verdict. (other : Answer) → IsDriverVerdict (design_tree design.now)
        (Answers (trees_of blocks.now)) (driver_sets (design_tree design.now) cert.now) other → verdict ≡ other) }
    ensures good { result ≡ Ok Verdict.Accepted
        → Good (design_tree design.now) (Answers (trees_of blocks.now)) (map length cert.now.goals) }
{
    sound_designs_of_texts_are_regular();
    sound_designs_of_texts_have_initial_states();
    let mut game = match ordered_game(alloc, design, &cert.order) {
        Ok(game) => game,
        Err(error) => return Err(error),
    };
    let verdict = check_driver(alloc, design, &mut game, blocks, cert);
    drop(game);
    verdict
}

// The verdict, by the game in another order.
fn judge_moved(
    alloc: Global,
    design: &Design,
    blocks: &Blocks,
    cert: &DriverCert,
    order: &[u32],
) -> Result<Verdict, AllocError>
    requires can { CanJudgeDriver (design_tree design.now) (trees_of blocks.now) cert.now }
    requires order { IsOrder (sum (state_widths (design_tree design.now))) order.now }
    ensures verdict { IfOk result (IsDriverVerdict (design_tree design.now) (Answers (trees_of blocks.now))
        (driver_sets (design_tree design.now) cert.now)) }
    ensures only { IfOk result (λ verdict. (other : Answer) → IsDriverVerdict (design_tree design.now)
        (Answers (trees_of blocks.now)) (driver_sets (design_tree design.now) cert.now) other → verdict ≡ other) }
    ensures good { result ≡ Ok Verdict.Accepted
        → Good (design_tree design.now) (Answers (trees_of blocks.now)) (map length cert.now.goals) }
{
    let mut dd = match Manager::new(alloc, order.len() as u32) {
        Ok(dd) => dd,
        Err(error) => return Err(error),
    };
    let moved = reorder_driver(alloc, &mut dd, cert, order);
    drop(dd);
    let moved = match moved {
        Ok(moved) => moved,
        Err(error) => return Err(error),
    };
    let verdict = judge_in_order(alloc, design, blocks, &moved);
    drop(moved);
    verdict
}

/// Whether blocks have a certificate over the design of a text: every condition holds, or the first that fails, by
/// number, then by goal, with its least state by place. It makes the game of the design in the order of the
/// certificate; where that is the weight order, the certificate is put into the control order first, in which its sets
/// are checked at less cost.
///
/// `AllocError` is want of memory.
pub fn judge_driver(
    alloc: Global,
    design: &Design,
    blocks: &Blocks,
    cert: &DriverCert,
) -> Result<Verdict, AllocError>
    requires { CanJudgeDriver (design_tree design.now) (trees_of blocks.now) cert.now }
    ensures verdict { IfOk result (IsDriverVerdict (design_tree design.now) (Answers (trees_of blocks.now))
        (driver_sets (design_tree design.now) cert.now)) }

    // There is no other verdict on it.
    ensures only { IfOk result (λ verdict. (other : Answer) → IsDriverVerdict (design_tree design.now)
        (Answers (trees_of blocks.now)) (driver_sets (design_tree design.now) cert.now) other → verdict ≡ other) }

    // A driver that is accepted is a good one, with as many ranks for a goal as there are ranked regions.
    ensures good { result ≡ Ok Verdict.Accepted
        → Good (design_tree design.now) (Answers (trees_of blocks.now)) (map length cert.now.goals) }
{
    let orders = orders_of(alloc, design)?;
    if are_same(&cert.order, &orders.weight) {
        judge_moved(alloc, design, blocks, cert, &orders.control)
    } else {
        judge_in_order(alloc, design, blocks, cert)
    }
}
