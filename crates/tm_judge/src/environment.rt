//! The verdict on an environment's certificate.
ghost use Rattle.std.specs.Prelude.{◌≡◌, IfOk, Ok, sum};
ghost use Rattle.tm_envcheck.specs.Verdict.{IsEnvironmentVerdict, IsLostWithin};
ghost use Rattle.tm_game_bits.specs.Order.{IsOrder};
ghost use Rattle.tm_judge.specs.Judged.{CanJudgeEnvironment};
ghost use Rattle.tm_sem.specs.StateBits.{state_widths};
ghost use Rattle.tm_sem.specs.Loss.{Lost};
ghost use Rattle.tm_verdict.specs.Sets.{levels_of};
ghost use Rattle.tm_syntax.specs.Design.View.{design_tree};
ghost use Rattle.tm_verdict.specs.declared.verdict.Verdict.{Verdict as Answer};

use crate::orders::are_same;
use crate::{
    ordered_game, sound_designs_of_texts_are_regular, sound_designs_of_texts_have_initial_states,
};
use std::alloc::{AllocError, Global};
use tm_cert::EnvCert;
use tm_ddops::Manager;
use tm_envcheck::check_environment;
use tm_orders::orders_of;
use tm_reorder::reorder_environment;
use tm_syntax::design::Design;
use tm_verdict::Verdict;

// The verdict, by the game in the order of the certificate.
fn judge_in_order(alloc: Global, design: &Design, cert: &EnvCert) -> Result<Verdict, AllocError>
    requires { CanJudgeEnvironment (design_tree design.now) cert.now }
    ensures verdict { IfOk result
        (IsEnvironmentVerdict (design_tree design.now) (levels_of (design_tree design.now) cert.now)) }
    ensures only { IfOk result (λ verdict. (other : Answer) → IsEnvironmentVerdict (design_tree design.now)
        (levels_of (design_tree design.now) cert.now) other → verdict ≡ other) }
    ensures lost { result ≡ Ok Verdict.Accepted → Lost (design_tree design.now) }
    ensures within { result ≡ Ok Verdict.Accepted
        → IsLostWithin (design_tree design.now) (levels_of (design_tree design.now) cert.now) }
{
    sound_designs_of_texts_are_regular();
    sound_designs_of_texts_have_initial_states();
    let mut game = match ordered_game(alloc, design, &cert.order) {
        Ok(game) => game,
        Err(error) => return Err(error),
    };
    let verdict = check_environment(alloc, &mut game, cert);
    drop(game);
    verdict
}

// The verdict, by the game in another order.
fn judge_moved(
    alloc: Global,
    design: &Design,
    cert: &EnvCert,
    order: &[u32],
) -> Result<Verdict, AllocError>
    requires can { CanJudgeEnvironment (design_tree design.now) cert.now }
    requires order { IsOrder (sum (state_widths (design_tree design.now))) order.now }
    ensures verdict { IfOk result
        (IsEnvironmentVerdict (design_tree design.now) (levels_of (design_tree design.now) cert.now)) }
    ensures only { IfOk result (λ verdict. (other : Answer) → IsEnvironmentVerdict (design_tree design.now)
        (levels_of (design_tree design.now) cert.now) other → verdict ≡ other) }
    ensures lost { result ≡ Ok Verdict.Accepted → Lost (design_tree design.now) }
    ensures within { result ≡ Ok Verdict.Accepted
        → IsLostWithin (design_tree design.now) (levels_of (design_tree design.now) cert.now) }
{
    let mut dd = match Manager::new(alloc, order.len() as u32) {
        Ok(dd) => dd,
        Err(error) => return Err(error),
    };
    let moved = reorder_environment(alloc, &mut dd, cert, order);
    drop(dd);
    let moved = match moved {
        Ok(moved) => moved,
        Err(error) => return Err(error),
    };
    let verdict = judge_in_order(alloc, design, &moved);
    drop(moved);
    verdict
}

/// Whether levels are a certificate over the design of a text: every condition holds, or the first that fails, by
/// number, then by level, with its least state by place. It makes the game of the design in the order of the
/// certificate; where that is the weight order, the certificate is put into the control order first, in which its sets
/// are checked at less cost.
///
/// `AllocError` is want of memory.
pub fn judge_environment(
    alloc: Global,
    design: &Design,
    cert: &EnvCert,
) -> Result<Verdict, AllocError>
    requires { CanJudgeEnvironment (design_tree design.now) cert.now }
    ensures verdict { IfOk result
        (IsEnvironmentVerdict (design_tree design.now) (levels_of (design_tree design.now) cert.now)) }

    // There is no other verdict on it.
    ensures only { IfOk result (λ verdict. (other : Answer) → IsEnvironmentVerdict (design_tree design.now)
        (levels_of (design_tree design.now) cert.now) other → verdict ≡ other) }

    // A design whose certificate is accepted is lost, in as many steps as its levels tell.
    ensures lost { result ≡ Ok Verdict.Accepted → Lost (design_tree design.now) }
    ensures within { result ≡ Ok Verdict.Accepted
        → IsLostWithin (design_tree design.now) (levels_of (design_tree design.now) cert.now) }
{
    let orders = orders_of(alloc, design)?;
    if are_same(&cert.order, &orders.weight) {
        judge_moved(alloc, design, cert, &orders.control)
    } else {
        judge_in_order(alloc, design, cert)
    }
}
