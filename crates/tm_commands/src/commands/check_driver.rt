//! The command `check` with a driver.
ghost use Rattle.std.specs.Prelude.{◌≡◌, ◌<◌, ◌≤◌, ◌^◌, IfErr, IfOk, OnErr, Some, length};
ghost use Rattle.tm_cir.specs.View.{trees_of};
ghost use Rattle.tm_commands.specs.Check.{driver_end, driver_text};
ghost use Rattle.tm_commands.specs.Inner.Judging.{HasCutDriver, HasJudgedDriver};
ghost use Rattle.tm_commands.specs.Inner.Obeying.{Obeys};
ghost use Rattle.tm_report.specs.Putting.{HasPut};
ghost use Rattle.tm_report.specs.Putting.{IsSinkFailure};
ghost use Rattle.tm_commands.specs.Order.{IsDue};
ghost use Rattle.tm_commands.specs.Words.{check_driver as check_words};
ghost use Rattle.tm_commands.specs.World.{OnlyCounts, files_data};
ghost use Rattle.tm_report.specs.Output.{sink_data};
ghost use Rattle.tm_judge.specs.Judged.{CanJudgeDriver};
ghost use Rattle.tm_syntax.specs.Design.View.{design_tree};

use crate::input::driver::{DriverInputs, load_driver};
use std::alloc::Global;
use tm_base::{Files, Sink};
use tm_judge::{judge_driver, ranks_of};
use tm_report::{Ending, Failure, Ranks, put_accepted, put_refused};
use tm_syntax::design::Design;
use tm_verdict::Verdict;

/// Puts the lines of a verdict.
fn put_verdict<O: Sink>(
    alloc: Global,
    design: &Design,
    ranks: &[u64],
    verdict: &Verdict,
    out: &mut O,
) -> Result<(), Failure>
    requires { length ranks.now < 2 ^ 32 }
    ensures { HasPut (driver_text (design_tree design.now) ranks.now verdict.now)
        (sink_data ⟦<O as Sink>⟧ out.old) (sink_data ⟦<O as Sink>⟧ out.new) result }
{
    match verdict {
        Verdict::Accepted => put_accepted(alloc, design, ranks, out),
        Verdict::Refused {
            condition,
            goal,
            state,
        } => put_refused(alloc, design, b"C", *condition, *goal, state, out),
    }
}

/// The end that a verdict is.
fn end_of(ranks: Vec<u64>, verdict: Verdict) -> Ending
    ensures { result ≡ driver_end ranks.items verdict }
{
    match verdict {
        Verdict::Accepted => Ending::Accepted {
            ranks: Ranks { list: ranks },
        },
        Verdict::Refused {
            condition,
            goal,
            state,
        } => Ending::Refused {
            condition,
            goal,
            state,
        },
    }
}

/// Judges what was read, and puts the lines of the verdict.
fn judge<O: Sink>(alloc: Global, inputs: &DriverInputs, out: &mut O) -> Result<Ending, Failure>
    requires { CanJudgeDriver (design_tree inputs.now.design) (trees_of inputs.now.blocks) inputs.now.cert }
    ensures judged { IfOk result (HasJudgedDriver
        (design_tree inputs.now.design) (trees_of inputs.now.blocks) inputs.now.cert
        (sink_data ⟦<O as Sink>⟧ out.old) (sink_data ⟦<O as Sink>⟧ out.new)) }
    ensures cut { OnErr result (HasCutDriver
        (design_tree inputs.now.design) (trees_of inputs.now.blocks) inputs.now.cert
        (sink_data ⟦<O as Sink>⟧ out.old) (sink_data ⟦<O as Sink>⟧ out.new)) }
    ensures failure { IfErr result (IsSinkFailure
        (sink_data ⟦<O as Sink>⟧ out.old) (sink_data ⟦<O as Sink>⟧ out.new)) }
    ensures no_fewer_faults { O.faults out.old ≤ O.faults out.new }
{
    let Ok(verdict) = judge_driver(alloc, &inputs.design, &inputs.blocks, &inputs.cert) else {
        return Err(Failure::Memory);
    };
    let Ok(ranks) = ranks_of(alloc, &inputs.cert) else {
        return Err(Failure::Memory);
    };
    match put_verdict(alloc, &inputs.design, &ranks, &verdict, out) {
        Ok(()) => Ok(end_of(ranks, verdict)),
        Err(failure) => Err(failure),
    }
}

/// Judges a driver's certificate over the design of a specification, and puts the lines of the verdict: it is accepted,
/// with the number of ranked regions of each goal, or a condition fails.
pub fn check_driver<F: Files, O: Sink>(
    alloc: Global,
    files: &mut F,
    out: &mut O,
    spec: &str,
    driver: &str,
    cert: &str,
) -> Result<Ending, Failure>
    ensures obeys { Obeys (Some (check_words spec.now driver.now cert.now))
        (files_data ⟦<F as Files>⟧ files.old) (files_data ⟦<F as Files>⟧ files.new)
        (sink_data ⟦<O as Sink>⟧ out.old) (sink_data ⟦<O as Sink>⟧ out.new) result }
    ensures counts { OnlyCounts (IsDue (F.contents files.old) (Some (check_words spec.now driver.now cert.now)))
        (files_data ⟦<F as Files>⟧ files.old) (files_data ⟦<F as Files>⟧ files.new) }
{
    let inputs = match load_driver(alloc, files, spec, driver, cert) {
        Ok(inputs) => inputs,
        Err(stop) => return stop.outcome(),
    };
    let ended = judge(alloc, &inputs, out);
    drop(inputs);
    ended
}
