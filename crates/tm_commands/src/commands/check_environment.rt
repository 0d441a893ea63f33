//! The command `check` without a driver.
ghost use Rattle.std.specs.Prelude.{◌≡◌, ◌≤◌, IfErr, IfOk, OnErr, Some, length};
ghost use Rattle.tm_commands.specs.Check.{environment_end, environment_text};
ghost use Rattle.tm_commands.specs.Inner.Judging.{HasCutEnvironment, HasJudgedEnvironment};
ghost use Rattle.tm_commands.specs.Inner.Obeying.{Obeys};
ghost use Rattle.tm_report.specs.Putting.{HasPut};
ghost use Rattle.tm_report.specs.Putting.{IsSinkFailure};
ghost use Rattle.tm_commands.specs.Order.{IsDue};
ghost use Rattle.tm_commands.specs.Words.{check_environment as check_words};
ghost use Rattle.tm_commands.specs.World.{OnlyCounts, files_data};
ghost use Rattle.tm_report.specs.Output.{sink_data};
ghost use Rattle.tm_judge.specs.Judged.{CanJudgeEnvironment};
ghost use Rattle.tm_sem.specs.Certificates.{longest_chain as chain_of_levels};
ghost use Rattle.tm_sem.specs.Fairness.{conditions};
ghost use Rattle.tm_verdict.specs.Sets.{levels_of};
ghost use Rattle.tm_syntax.specs.Design.{DesignTree};
ghost use Rattle.tm_syntax.specs.Design.View.{design_tree};

use crate::input::environment::{EnvironmentInputs, load_environment};
use std::alloc::Global;
use tm_base::{Files, Sink};
use tm_cert::EnvCert;
use tm_judge::{judge_environment, longest_chain};
use tm_report::{Ending, Failure, put_levels, put_refused};
use tm_syntax::design::Design;
use tm_verdict::Verdict;

/// What is told of a certificate that is accepted: the numbers of its levels, of fairness conditions, and of sets in
/// its longest chain.
#[derive(Clone, Copy)]
struct Counts {
    levels: u64,
    conditions: u64,
    chain: u64,
}

/// What is told of a certificate for so many fairness conditions.
fn counts_of(cert: &EnvCert, fairs: u32) -> Counts
    ensures levels { result.levels ≡ length cert.now.levels }
    ensures conditions { result.conditions ≡ fairs }
    ensures chain { (d : DesignTree) → result.chain ≡ chain_of_levels (levels_of d cert.now) }
{
    Counts {
        levels: cert.levels.len() as u64,
        conditions: u64::from(fairs),
        chain: longest_chain(cert),
    }
}

/// Puts the lines of a verdict.
fn put_verdict<O: Sink>(
    alloc: Global,
    design: &Design,
    counts: Counts,
    verdict: &Verdict,
    out: &mut O,
) -> Result<(), Failure>
    ensures { HasPut
        (environment_text (design_tree design.now) counts.levels counts.conditions counts.chain verdict.now)
        (sink_data ⟦<O as Sink>⟧ out.old) (sink_data ⟦<O as Sink>⟧ out.new) result }
{
    match verdict {
        Verdict::Accepted => put_levels(alloc, counts.levels, counts.conditions, counts.chain, out),
        Verdict::Refused {
            condition,
            goal,
            state,
        } => put_refused(alloc, design, b"E", *condition, *goal, state, out),
    }
}

/// The end that a verdict is.
fn end_of(counts: Counts, verdict: Verdict) -> Ending
    ensures { result ≡ environment_end counts.levels counts.conditions counts.chain verdict }
{
    match verdict {
        Verdict::Accepted => Ending::AcceptedEnvironment {
            levels: counts.levels,
            conditions: counts.conditions,
            chain: counts.chain,
        },
        Verdict::Refused {
            condition,
            goal,
            state,
        } => Ending::Refused {
            condition,
            goal,
            state,
        },
    }
}

/// Judges what was read, and puts the lines of the verdict.
fn judge<O: Sink>(alloc: Global, inputs: &EnvironmentInputs, out: &mut O) -> Result<Ending, Failure>
    requires can { CanJudgeEnvironment (design_tree inputs.now.design) inputs.now.cert }
    requires fairs { inputs.now.fairs ≡ length (conditions (design_tree inputs.now.design)) }
    ensures judged { IfOk result (HasJudgedEnvironment (design_tree inputs.now.design) inputs.now.cert
        (sink_data ⟦<O as Sink>⟧ out.old) (sink_data ⟦<O as Sink>⟧ out.new)) }
    ensures cut { OnErr result (HasCutEnvironment (design_tree inputs.now.design) inputs.now.cert
        (sink_data ⟦<O as Sink>⟧ out.old) (sink_data ⟦<O as Sink>⟧ out.new)) }
    ensures failure { IfErr result (IsSinkFailure
        (sink_data ⟦<O as Sink>⟧ out.old) (sink_data ⟦<O as Sink>⟧ out.new)) }
    ensures no_fewer_faults { O.faults out.old ≤ O.faults out.new }
{
    let Ok(verdict) = judge_environment(alloc, &inputs.design, &inputs.cert) else {
        return Err(Failure::Memory);
    };
    let counts = counts_of(&inputs.cert, inputs.fairs);
    match put_verdict(alloc, &inputs.design, counts, &verdict, out) {
        Ok(()) => Ok(end_of(counts, verdict)),
        Err(failure) => Err(failure),
    }
}

/// Judges an environment's certificate over the design of a specification, and puts the lines of the verdict: it is
/// accepted, with the numbers of its levels, of fairness conditions and of sets in the longest chain, or a condition
/// fails.
pub fn check_environment<F: Files, O: Sink>(
    alloc: Global,
    files: &mut F,
    out: &mut O,
    spec: &str,
    cert: &str,
) -> Result<Ending, Failure>
    ensures obeys { Obeys (Some (check_words spec.now cert.now))
        (files_data ⟦<F as Files>⟧ files.old) (files_data ⟦<F as Files>⟧ files.new)
        (sink_data ⟦<O as Sink>⟧ out.old) (sink_data ⟦<O as Sink>⟧ out.new) result }
    ensures counts { OnlyCounts (IsDue (F.contents files.old) (Some (check_words spec.now cert.now)))
        (files_data ⟦<F as Files>⟧ files.old) (files_data ⟦<F as Files>⟧ files.new) }
{
    let inputs = match load_environment(alloc, files, spec, cert) {
        Ok(inputs) => inputs,
        Err(stop) => return stop.outcome(),
    };
    let ended = judge(alloc, &inputs, out);
    drop(inputs);
    ended
}
