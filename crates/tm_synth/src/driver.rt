//! The files of a driver.
ghost use Rattle.std.specs.Prelude.{◌≡◌, ℕ, IfOk, List, Option};
ghost use Rattle.tm_check.specs.Reads.{IsSized};
ghost use Rattle.tm_cir.specs.Answer.{Answers};
ghost use Rattle.tm_cir.specs.Tree.{BlockTree};
ghost use Rattle.tm_cir.specs.View.{trees_of};
ghost use Rattle.tm_judge.specs.Judged.{CanJudgeDriver};
ghost use Rattle.tm_refine.specs.Decided.{IsWithin};
ghost use Rattle.tm_refine.specs.declared.trace.Trace as traces;
ghost use Rattle.tm_sem.specs.Certificates.{MeetsDriver, MeetsMoveForm};
ghost use Rattle.tm_solve.specs.Iterates as solution;
ghost use Rattle.tm_solve.specs.Iterates.{KnowsAll};
ghost use Rattle.tm_solve_exact.specs.Exact.{IsExactOf, exact_ids};
ghost use Rattle.tm_syntax.specs.Design.{DesignTree};
ghost use Rattle.tm_syntax.specs.Design.View.{design_tree};
ghost use Rattle.tm_syntax.specs.Faults.{IsOfText, IsSound};
ghost use Rattle.tm_synth.specs.Found.{IsDriverFound, IsFound, KeepsTo};
ghost use Rattle.tm_synth.specs.Shown.{IsDriverShown, IsWeightOrder};
ghost use Rattle.tm_synth.specs.Traced.{TracesDriver};
ghost use Rattle.tm_synth.specs.Written.{IsWrittenDriver};
ghost use Rattle.tm_verdict.specs.Regular.{IsRegular};
ghost use Rattle.tm_verdict.specs.Sets.{driver_sets};

use crate::found::{DriverFiles, Synthesis};
use crate::ordering::driver_in_order;
use std::alloc::{AllocError, Global};
use tm_cert::{Cert, DriverCert, write_shaped};
use tm_cir::Blocks;
use tm_cprint::print;
use tm_game::Game;
use tm_judge::{judge_driver, ranks_of, sound_designs_of_texts_are_regular};
use tm_refine::Trace;
use tm_solve::Iterates;
use tm_strat::{Driven, driver};
use tm_strat_cert::driver_cert;
use tm_syntax::design::Design;
use tm_verdict::Verdict;

// A driver with its certificate.
#[derive(Drop)]
struct Certified {
    blocks: Blocks,
    cert: DriverCert,
}

// The driver of the iterates of a game, with their certificate in the order of the game.
fn certify(
    alloc: Global,
    design: &Design,
    game: Game,
    iterates: &Iterates,
) -> Result<Certified, AllocError>
    requires sound { IsSound (design_tree design.now) }
    requires of_text { IsOfText (design_tree design.now).spec }
    requires exact { IsExactOf (design_tree design.now) game }
    requires regular { IsRegular (design_tree design.now) }
    requires sized { IsSized game }
    requires known { KnowsAll (exact_ids game) iterates.now }
    requires meets { MeetsMoveForm (design_tree design.now) (solution.driver_sets (exact_ids game) iterates.now) }
    ensures can { IfOk result (λ made. CanJudgeDriver (design_tree design.now) (trees_of made.blocks) made.cert) }
    ensures sets { IfOk result (λ made. driver_sets (design_tree design.now) made.cert
        ≡ solution.driver_sets (exact_ids game) iterates.now) }
    ensures meets { IfOk result (λ made. MeetsDriver (design_tree design.now) (Answers (trees_of made.blocks))
        (driver_sets (design_tree design.now) made.cert)) }
{
    let cert = match driver_cert(alloc, &game, iterates) {
        Ok(cert) => cert,
        Err(error) => {
            drop(game);
            return Err(error);
        }
    };
    match driver(alloc, game, design, iterates) {
        Ok(driven) => Ok(Certified {
            blocks: blocks_of(driven),
            cert,
        }),
        Err(error) => {
            drop(cert);
            Err(error)
        }
    }
}

// The blocks of a driver, without the game from which they were made.
fn blocks_of(driven: Driven) -> Blocks
    ensures { result ≡ driven.blocks }
{
    let Driven { game, blocks } = driven;
    drop(game);
    blocks
}

// The text of a certificate, and how many nodes it lists.
#[derive(Drop)]
struct CertText {
    bytes: Vec<u8>,
    nodes: u64,
}

// The text of a certificate in the weight order.
fn write_cert(
    alloc: Global,
    design: &Design,
    cert: &DriverCert,
    weight: &[u32],
) -> Result<CertText, AllocError>
    requires weight { IsWeightOrder (design_tree design.now) weight.now }
    requires can { (bs : List BlockTree) × CanJudgeDriver (design_tree design.now) bs cert.now }
    ensures { IfOk result (λ text. IsWrittenDriver (design_tree design.now) cert.now text.bytes.items text.nodes) }
{
    let moved = match driver_in_order(alloc, design, cert, weight) {
        Ok(moved) => moved,
        Err(error) => return Err(error),
    };
    let nodes = moved.nodes.len() as u64;
    let moved = Cert::Driver(moved);
    let written = write_shaped(alloc, weight.len() as u32, &moved);
    drop(moved);
    match written {
        Ok(bytes) => Ok(CertText { bytes, nodes }),
        Err(error) => Err(error),
    }
}

// The texts of a driver and of its certificate, and the numbers that are reported.
#[derive(Drop)]
struct Texts {
    driver: Vec<u8>,
    cert: CertText,
    ranks: Vec<u64>,
}

// The texts of a driver that the checker accepted.
fn texts_of(
    alloc: Global,
    design: &Design,
    made: &Certified,
    weight: &[u32],
) -> Result<Texts, AllocError>
    requires weight { IsWeightOrder (design_tree design.now) weight.now }
    requires shown { IsDriverShown (design_tree design.now) (trees_of made.now.blocks) made.now.cert }
    ensures { IfOk result (λ t. (trace : traces.Trace)
        → TracesDriver (design_tree design.now) trace (driver_sets (design_tree design.now) made.now.cert)
        → IsDriverFound (design_tree design.now) t.driver.items t.cert.bytes.items t.ranks.items t.cert.nodes trace) }
{
    sound_designs_of_texts_are_regular();
    let ranks = match ranks_of(alloc, &made.cert) {
        Ok(ranks) => ranks,
        Err(error) => return Err(error),
    };
    let driver = print(alloc, design, &made.blocks)?;
    let cert = write_cert(alloc, design, &made.cert, weight)?;
    Ok(Texts {
        driver,
        cert,
        ranks,
    })
}

// The texts of a driver. The checker accepts it, as it does with each certificate that meets all conditions.
fn judged(
    alloc: Global,
    design: &Design,
    made: &Certified,
    weight: &[u32],
) -> Result<Texts, AllocError>
    requires weight { IsWeightOrder (design_tree design.now) weight.now }
    requires can { CanJudgeDriver (design_tree design.now) (trees_of made.now.blocks) made.now.cert }
    requires meets { MeetsDriver (design_tree design.now) (Answers (trees_of made.now.blocks))
        (driver_sets (design_tree design.now) made.now.cert) }
    ensures { IfOk result (λ t. (trace : traces.Trace)
        → TracesDriver (design_tree design.now) trace (driver_sets (design_tree design.now) made.now.cert)
        → IsDriverFound (design_tree design.now) t.driver.items t.cert.bytes.items t.ranks.items t.cert.nodes trace) }
{
    match judge_driver(alloc, design, &made.blocks, &made.cert)? {
        Verdict::Accepted => texts_of(alloc, design, made, weight),
        Verdict::Refused { .. } => unreachable!(),
    }
}

// The files of these texts.
fn files_of(texts: Texts, trace: Trace) -> DriverFiles
    ensures found { (d : DesignTree)
        → IsDriverFound d texts.driver.items texts.cert.bytes.items texts.ranks.items texts.cert.nodes trace
        → IsDriverFound d result.driver.items result.cert.items result.ranks.items result.nodes result.trace }
    ensures trace { result.trace ≡ trace }
{
    let Texts {
        driver,
        cert,
        ranks,
    } = texts;
    let CertText { bytes, nodes } = cert;
    DriverFiles {
        driver,
        cert: bytes,
        ranks,
        nodes,
        trace,
    }
}

/// The files of the driver of the iterates of a game. The checker accepts what is made, since the blocks make a good
/// move for the ranked sets of the iterates wherever it is their turn.
pub(crate) fn driver_files(
    alloc: Global,
    design: &Design,
    game: Game,
    iterates: &Iterates,
    trace: Trace,
    weight: &[u32],
) -> Result<Synthesis, AllocError>
    requires weight { IsWeightOrder (design_tree design.now) weight.now }
    requires sound { IsSound (design_tree design.now) }
    requires of_text { IsOfText (design_tree design.now).spec }
    requires exact { IsExactOf (design_tree design.now) game }
    requires regular { IsRegular (design_tree design.now) }
    requires sized { IsSized game }
    requires known { KnowsAll (exact_ids game) iterates.now }
    requires meets { MeetsMoveForm (design_tree design.now) (solution.driver_sets (exact_ids game) iterates.now) }
    requires traced { TracesDriver (design_tree design.now) trace
        (solution.driver_sets (exact_ids game) iterates.now) }
    ensures found { (budget : Option ℕ) → IfOk result (IsFound (design_tree design.now) budget) }
    ensures within { (budget : Option ℕ) → IsWithin budget trace → IfOk result (KeepsTo budget) }
{
    let made = match certify(alloc, design, game, iterates) {
        Ok(made) => made,
        Err(error) => {
            drop(trace);
            return Err(error);
        }
    };
    let texts = judged(alloc, design, &made, weight);
    drop(made);
    match texts {
        Ok(texts) => Ok(Synthesis::Driver(files_of(texts, trace))),
        Err(error) => {
            drop(trace);
            Err(error)
        }
    }
}
