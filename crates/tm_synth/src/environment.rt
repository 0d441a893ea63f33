//! The file of the environment.
ghost use Rattle.std.specs.Prelude.{ℕ, IfOk, Option};
ghost use Rattle.tm_judge.specs.Judged.{CanJudgeEnvironment};
ghost use Rattle.tm_sem.specs.Certificates.{MeetsEnvironment};
ghost use Rattle.tm_solve.specs.Iterates as solution;
ghost use Rattle.tm_solve.specs.Iterates.{KnowsAll};
ghost use Rattle.tm_solve_exact.specs.Exact.{IsExactOf, exact_ids};
ghost use Rattle.tm_syntax.specs.Design.View.{design_tree};
ghost use Rattle.tm_syntax.specs.Faults.{IsOfText, IsSound};
ghost use Rattle.tm_refine.specs.Decided.{IsWithin};
ghost use Rattle.tm_synth.specs.Found.{IsFound, KeepsTo};
ghost use Rattle.tm_synth.specs.Shown.{IsEnvironmentShown, IsWeightOrder};
ghost use Rattle.tm_synth.specs.Traced.{TracesLevels};
ghost use Rattle.tm_synth.specs.Written.{IsWrittenLoss};
ghost use Rattle.tm_verdict.specs.Sets.{levels_of};

use crate::found::{EnvironmentFiles, Synthesis};
use crate::ordering::environment_in_order;
use std::alloc::{AllocError, Global};
use tm_cert::{Cert, EnvCert, write_shaped};
use tm_game::Game;
use tm_judge::{judge_environment, longest_chain};
use tm_refine::Trace;
use tm_solve::Iterates;
use tm_strat_cert::environment_cert;
use tm_syntax::design::Design;
use tm_verdict::Verdict;

// The text of a certificate in the weight order.
fn write_cert(
    alloc: Global,
    design: &Design,
    cert: &EnvCert,
    weight: &[u32],
) -> Result<Vec<u8>, AllocError>
    requires weight { IsWeightOrder (design_tree design.now) weight.now }
    requires can { CanJudgeEnvironment (design_tree design.now) cert.now }
    ensures { IfOk result (λ text. IsWrittenLoss (design_tree design.now) cert.now text.items) }
{
    let moved = match environment_in_order(alloc, design, cert, weight) {
        Ok(moved) => Cert::Environment(moved),
        Err(error) => return Err(error),
    };
    let written = write_shaped(alloc, weight.len() as u32, &moved);
    drop(moved);
    written
}

// The text of a certificate in the weight order. The checker accepts the certificate, as it does with each that meets
// all conditions.
fn judged(
    alloc: Global,
    design: &Design,
    cert: &EnvCert,
    weight: &[u32],
) -> Result<Vec<u8>, AllocError>
    requires weight { IsWeightOrder (design_tree design.now) weight.now }
    requires can { CanJudgeEnvironment (design_tree design.now) cert.now }
    requires meets { MeetsEnvironment (design_tree design.now) (levels_of (design_tree design.now) cert.now) }
    ensures shown { IfOk result (λ text. IsEnvironmentShown (design_tree design.now) cert.now) }
    ensures written { IfOk result (λ text. IsWrittenLoss (design_tree design.now) cert.now text.items) }
{
    match judge_environment(alloc, design, cert)? {
        Verdict::Accepted => write_cert(alloc, design, cert, weight),
        Verdict::Refused { .. } => unreachable!(),
    }
}

/// The file of the environment of the iterates of a game. The checker accepts what is made, since its sets are those of
/// the iterates.
pub(crate) fn environment_files(
    alloc: Global,
    design: &Design,
    game: &Game,
    iterates: &Iterates,
    trace: Trace,
    weight: &[u32],
) -> Result<Synthesis, AllocError>
    requires weight { IsWeightOrder (design_tree design.now) weight.now }
    requires sound { IsSound (design_tree design.now) }
    requires of_text { IsOfText (design_tree design.now).spec }
    requires exact { IsExactOf (design_tree design.now) game.now }
    requires known { KnowsAll (exact_ids game.now) iterates.now }
    requires meets { MeetsEnvironment (design_tree design.now)
        (solution.levels_of (exact_ids game.now) iterates.now) }
    requires traced { TracesLevels (design_tree design.now) trace
        (solution.levels_of (exact_ids game.now) iterates.now) }
    ensures found { (budget : Option ℕ) → IfOk result (IsFound (design_tree design.now) budget) }
    ensures within { (budget : Option ℕ) → IsWithin budget trace → IfOk result (KeepsTo budget) }
{
    let made = match environment_cert(alloc, game, iterates) {
        Ok(made) => made,
        Err(error) => {
            drop(trace);
            return Err(error);
        }
    };
    let levels = made.levels.len() as u64;
    let conditions = game.fairs().len() as u64;
    let chain = longest_chain(&made);
    let text = judged(alloc, design, &made, weight);
    drop(made);
    match text {
        Ok(cert) => Ok(Synthesis::Environment(EnvironmentFiles {
            cert,
            levels,
            conditions,
            chain,
            trace,
        })),
        Err(error) => {
            drop(trace);
            Err(error)
        }
    }
}
