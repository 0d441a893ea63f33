//! The command `synth`.
ghost use Rattle.std.specs.Prelude.{◌≡◌, ◌++◌, ◌∷◌, [], ℕ, IfErr, IfOk, IsTrue, List, OnOk, Option, Some};
ghost use Rattle.std.specs.String.{string_bytes};
ghost use Rattle.tm_commands.specs.Inner.Obeying.{Obeys};
ghost use Rattle.tm_commands.specs.Inner.Stopping.{IsWriteFailure};
ghost use Rattle.tm_commands.specs.Inner.Synthesising.{IsDriverUnwritten, Synthesises};
ghost use Rattle.tm_commands.specs.Synthesise.{cert_name, driver_name};
ghost use Rattle.tm_commands.specs.Order.{IsDue};
ghost use Rattle.tm_commands.specs.Words.{synthesise as synthesise_words};
ghost use Rattle.tm_commands.specs.World.{FilesData, OnlyCounts, OnlyTouches, OnlyWrites, files_data};
ghost use Rattle.tm_refine.specs.Decided.{IsWithin};
ghost use Rattle.tm_report.specs.Output.{sink_data};
ghost use Rattle.tm_synth.specs.Found.{IsBudgetSpent, IsDriverFound, IsEnvironmentFound, IsFound, KeepsTo};
ghost use Rattle.tm_syntax.specs.Design.View.{design_tree};
ghost use Rattle.tm_syntax.specs.Faults.{IsSound};

use crate::commands::write::write_file;
use crate::input::specification::load_specification;
use std::alloc::{AllocError, Global};
use tm_base::{Files, Sink};
use tm_refine::Trace;
use tm_report::{Ending, Failure, Ranks, put_budget, put_driver, put_environment};
use tm_syntax::design::Design;
use tm_synth::{DriverFiles, EnvironmentFiles, Synthesis};

// The name of a file that is written: what the words give, and an ending.
fn name_with(alloc: Global, name: &str, ending: &str) -> Result<String, AllocError>
    ensures { IfOk result (λ whole. string_bytes whole ≡ name.now ++ ending.now) }
{
    let mut whole = String::from_str(alloc, name)?;
    whole.push_str(ending)?;
    Ok(whole)
}

// Writes a file whose name is what the words give, and an ending.
fn write_with<F: Files>(
    alloc: Global,
    files: &mut F,
    name: &str,
    ending: &str,
    bytes: &[u8],
) -> Result<(), Failure>
    ensures written { OnOk result (IsTrue F.tells
        → F.contents files.new (name.now ++ ending.now) ≡ Some bytes.now) }
    ensures failure { IfErr result (IsWriteFailure (name.now ++ ending.now)
        (files_data ⟦<F as Files>⟧ files.old) (files_data ⟦<F as Files>⟧ files.new)) }
    ensures files { OnlyWrites (name.now ++ ending.now)
        (files_data ⟦<F as Files>⟧ files.old) (files_data ⟦<F as Files>⟧ files.new) }
{
    let Ok(whole) = name_with(alloc, name, ending) else {
        return Err(Failure::Memory);
    };
    write_file(alloc, files, whole.as_str(), bytes)
}

// Writes the C text and the certificate of a driver.
fn write_driver<F: Files>(
    alloc: Global,
    files: &mut F,
    name: &str,
    made: &DriverFiles,
) -> Result<(), Failure>
    ensures driver { OnOk result (IsTrue F.tells
        → F.contents files.new (driver_name name.now) ≡ Some made.now.driver.items) }
    ensures cert { OnOk result (IsTrue F.tells
        → F.contents files.new (cert_name name.now) ≡ Some made.now.cert.items) }
    ensures failure { IfErr result (IsDriverUnwritten name.now made.now.driver.items
        (files_data ⟦<F as Files>⟧ files.old) (files_data ⟦<F as Files>⟧ files.new)) }
    ensures files { OnlyTouches [] (driver_name name.now ∷ cert_name name.now ∷ [])
        (files_data ⟦<F as Files>⟧ files.old) (files_data ⟦<F as Files>⟧ files.new) }
{
    match write_with(alloc, files, name, ".c", &made.driver) {
        Ok(()) => write_with(alloc, files, name, ".cert", &made.cert),
        Err(unwritten) => Err(unwritten),
    }
}

// Writes the files of a driver, and puts its lines.
fn end_with_driver<F: Files, O: Sink>(
    alloc: Global,
    files: &mut F,
    out: &mut O,
    design: &Design,
    name: &str,
    made: DriverFiles,
) -> Result<Ending, Failure>
    requires sound { IsSound (design_tree design.now) }
    requires found { IsDriverFound (design_tree design.now) made.driver.items made.cert.items made.ranks.items
        made.nodes made.trace }
    ensures { (budget : Option ℕ) → IsWithin budget made.trace → Synthesises (design_tree design.now) budget name.now
        (files_data ⟦<F as Files>⟧ files.old) (files_data ⟦<F as Files>⟧ files.new)
        (sink_data ⟦<O as Sink>⟧ out.old) (sink_data ⟦<O as Sink>⟧ out.new) result }
{
    match write_driver(alloc, files, name, &made) {
        Ok(()) => {}
        Err(unwritten) => return Err(unwritten),
    }
    let nodes = made.nodes;
    match put_driver(alloc, design, &made.ranks, &made.trace, nodes, out) {
        Ok(()) => Ok(Ending::Driver {
            ranks: Ranks { list: made.ranks },
            trace: made.trace,
            nodes,
        }),
        Err(failure) => Err(failure),
    }
}

// Writes the file of the environment, and puts its lines.
fn end_with_environment<F: Files, O: Sink>(
    alloc: Global,
    files: &mut F,
    out: &mut O,
    design: &Design,
    name: &str,
    made: EnvironmentFiles,
) -> Result<Ending, Failure>
    requires { IsEnvironmentFound (design_tree design.now) made.cert.items made.levels made.conditions made.chain
        made.trace }
    ensures { (budget : Option ℕ) → IsWithin budget made.trace → Synthesises (design_tree design.now) budget name.now
        (files_data ⟦<F as Files>⟧ files.old) (files_data ⟦<F as Files>⟧ files.new)
        (sink_data ⟦<O as Sink>⟧ out.old) (sink_data ⟦<O as Sink>⟧ out.new) result }
{
    match write_with(alloc, files, name, ".cert", &made.cert) {
        Ok(()) => {}
        Err(unwritten) => return Err(unwritten),
    }
    let (levels, conditions, chain) = (made.levels, made.conditions, made.chain);
    match put_environment(alloc, design, levels, conditions, chain, &made.trace, out) {
        Ok(()) => Ok(Ending::Environment {
            levels,
            conditions,
            chain,
            trace: made.trace,
        }),
        Err(failure) => Err(failure),
    }
}

// Puts the lines of a budget that is spent.
fn end_with_budget<O: Sink>(
    alloc: Global,
    out: &mut O,
    design: &Design,
    budget: u32,
    trace: Trace,
) -> Result<Ending, Failure>
    requires { IsBudgetSpent (design_tree design.now) (Some budget) trace }
    ensures { (name : List ℕ) (files : FilesData) → Synthesises (design_tree design.now) (Some budget) name files files
        (sink_data ⟦<O as Sink>⟧ out.old) (sink_data ⟦<O as Sink>⟧ out.new) result }
{
    match put_budget(alloc, design, budget, &trace, out) {
        Ok(()) => Ok(Ending::Budget { budget, trace }),
        Err(failure) => Err(failure),
    }
}

// Writes what was found of a design, and puts its lines.
fn end_with<F: Files, O: Sink>(
    alloc: Global,
    files: &mut F,
    out: &mut O,
    design: &Design,
    name: &str,
    budget: Option<u32>,
    found: Synthesis,
) -> Result<Ending, Failure>
    requires sound { IsSound (design_tree design.now) }
    requires found { IsFound (design_tree design.now) budget found }
    requires within { KeepsTo budget found }
    ensures { Synthesises (design_tree design.now) budget name.now
        (files_data ⟦<F as Files>⟧ files.old) (files_data ⟦<F as Files>⟧ files.new)
        (sink_data ⟦<O as Sink>⟧ out.old) (sink_data ⟦<O as Sink>⟧ out.new) result }
{
    match found {
        Synthesis::Driver(made) => end_with_driver(alloc, files, out, design, name, made),
        Synthesis::Environment(made) => end_with_environment(alloc, files, out, design, name, made),
        Synthesis::Spent(trace) => match budget {
            Some(budget) => end_with_budget(alloc, out, design, budget, trace),
            None => unreachable!(),
        },
    }
}

/// Finds a driver for the design of a specification and writes its C text and its certificate, or shows that none
/// exists and writes the certificate that shows it. The lines of what was found are put once its files are written.
/// With a budget at most so many predicates are added to those of the design's claims; where these decide nothing, no
/// file is written, and the lines tell so.
pub fn synthesise<F: Files, O: Sink>(
    alloc: Global,
    files: &mut F,
    out: &mut O,
    spec: &str,
    name: &str,
    budget: Option<u32>,
) -> Result<Ending, Failure>
    ensures obeys { Obeys (Some (synthesise_words spec.now name.now budget))
        (files_data ⟦<F as Files>⟧ files.old) (files_data ⟦<F as Files>⟧ files.new)
        (sink_data ⟦<O as Sink>⟧ out.old) (sink_data ⟦<O as Sink>⟧ out.new) result }
    ensures counts { OnlyCounts (IsDue (F.contents files.old) (Some (synthesise_words spec.now name.now budget)))
        (files_data ⟦<F as Files>⟧ files.old) (files_data ⟦<F as Files>⟧ files.new) }
{
    let design = match load_specification(alloc, files, spec) {
        Ok(design) => design,
        Err(stop) => return stop.outcome(),
    };
    match tm_synth::synthesise(alloc, &design, budget) {
        Ok(found) => end_with(alloc, files, out, &design, name, budget, found),
        Err(_) => Err(Failure::Memory),
    }
}
