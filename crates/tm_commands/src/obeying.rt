//! What the words of a command line ask for, done and reported.
ghost use Rattle.std.specs.Prelude.{◌≤◌, Some, map, IfOk, IfErr, IsTrue};
ghost use Rattle.std.specs.String.{string_bytes};
ghost use Rattle.tm_commands.specs.Words.{command_of, command_view};
ghost use Rattle.tm_commands.specs.Commands.{MayEnd};
ghost use Rattle.tm_commands.specs.Order.{IsDue};
ghost use Rattle.tm_commands.specs.World.{OnlyCounts, files_data};
ghost use Rattle.tm_report.specs.Output.{sink_data};
ghost use Rattle.tm_commands.specs.Status.{outcome_of};
ghost use Rattle.tm_commands.specs.Headline.{HasCause, IsComplete, IsShown, IsLongShown, Reports, EndsWithLines};
ghost use Rattle.tm_commands.specs.Headline.{KeepsFiles};
ghost use Rattle.tm_commands.specs.Synthesis.{AcceptsGood, AcceptsLost, AlwaysDecides, FindsGood, FindsLost};
ghost use Rattle.tm_commands.specs.Synthesis.{TracesHonestly};
ghost use Rattle.tm_commands.specs.Inner.Obeying.{IsSpelled, Obeys};

use crate::commands::check_driver::check_driver;
use crate::commands::check_environment::check_environment;
use crate::commands::generate::generate;
use crate::commands::migrate::migrate;
use crate::commands::run::run;
use crate::commands::structure::structure;
use crate::commands::synthesise::synthesise;
use crate::commands::unstructure::unstructure;
use crate::status::{Status, status_of};
use crate::words::command::Command;
use crate::words::reading::read_words;
use std::alloc::Global;
use tm_base::{Files, Sink};
use tm_report::{Ending, Failure, put_outcome};

/// Does what a command says. The lines that tell the outcome are left.
fn obey<F: Files, O: Sink>(
    alloc: Global,
    command: Command,
    files: &mut F,
    out: &mut O,
) -> Result<Ending, Failure>
    requires { IsSpelled (command_view command) }
    ensures obeys { Obeys (Some (command_view command.entry))
        (files_data ⟦<F as Files>⟧ files.old) (files_data ⟦<F as Files>⟧ files.new)
        (sink_data ⟦<O as Sink>⟧ out.old) (sink_data ⟦<O as Sink>⟧ out.new) result }
    ensures counts { OnlyCounts (IsDue (F.contents files.old) (Some (command_view command.entry)))
        (files_data ⟦<F as Files>⟧ files.old) (files_data ⟦<F as Files>⟧ files.new) }
{
    match command {
        Command::Run {
            spec,
            driver,
            choices,
        } => run(alloc, files, out, spec, driver, choices),
        Command::Synthesise {
            spec,
            out: name,
            budget,
        } => synthesise(alloc, files, out, spec, name, budget),
        Command::CheckDriver { spec, driver, cert } => {
            check_driver(alloc, files, out, spec, driver, cert)
        }
        Command::CheckEnvironment { spec, cert } => {
            check_environment(alloc, files, out, spec, cert)
        }
        Command::Generate {
            registers,
            out: name,
        } => generate(alloc, files, out, registers, name),
        Command::Migrate {
            spec,
            cert,
            out: name,
        } => migrate(alloc, files, out, spec, cert, name),
        Command::Structure {
            spec,
            driver,
            out: name,
        } => structure(alloc, files, out, spec, driver, name),
        Command::Unstructure {
            spec,
            structured,
            out: name,
        } => unstructure(alloc, files, out, spec, structured, name),
    }
}

/// Does what the words say. The lines that tell the outcome are left.
fn obey_words<F: Files, O: Sink>(
    alloc: Global,
    words: &[String],
    files: &mut F,
    out: &mut O,
) -> Result<Ending, Failure>
    ensures obeys { Obeys (command_of (map string_bytes words.now))
        (files_data ⟦<F as Files>⟧ files.old) (files_data ⟦<F as Files>⟧ files.new)
        (sink_data ⟦<O as Sink>⟧ out.old) (sink_data ⟦<O as Sink>⟧ out.new) result }
    ensures counts { OnlyCounts (IsDue (F.contents files.old) (command_of (map string_bytes words.now)))
        (files_data ⟦<F as Files>⟧ files.old) (files_data ⟦<F as Files>⟧ files.new) }
{
    match read_words(alloc, words)? {
        None => Ok(Ending::Usage),
        Some(command) => obey(alloc, command, files, out),
    }
}

/// Does what the words say, without the program's own name, and puts a report, line by line.
///
/// The files are read in the order of the words, each judged before the next one is read, and a file is written only
/// after all of them. What is wrong with a text of choices is found before any output. `specs/Headline` says what is
/// promised.
pub fn obey_and_report<F: Files, O: Sink>(
    alloc: Global,
    words: &[String],
    files: &mut F,
    out: &mut O,
) -> Status
    // Which end comes is what the words and the files determine, where the files tell; so `Faulty` comes wherever the
    // specification has a fault, `BadText` wherever the first text without a reading is another one, `Accepted`
    // wherever all conditions hold, and `Played` wherever each step has a next state.
    ensures cause { HasCause (files_data ⟦<F as Files>⟧ files.old)
        (command_of (map string_bytes words.now)) (outcome_of result) }
    ensures complete { IsComplete (files_data ⟦<F as Files>⟧ files.old)
        (command_of (map string_bytes words.now)) (outcome_of result) }

    // The synthesis theorem. A driver that is found or accepted is a good one with the ranks that are answered, and a
    // design without a driver, or whose environment is accepted, is lost, where the files tell; and `synth` finds a
    // driver of each design or that there is none, unless a budget is spent, a fault shows or memory runs out.
    ensures found_good { FindsGood (files_data ⟦<F as Files>⟧ files.old) (files_data ⟦<F as Files>⟧ files.new)
        (command_of (map string_bytes words.now)) (outcome_of result) }
    ensures found_lost { FindsLost (files_data ⟦<F as Files>⟧ files.old)
        (command_of (map string_bytes words.now)) (outcome_of result) }
    ensures decided { AlwaysDecides (files_data ⟦<F as Files>⟧ files.old) (files_data ⟦<F as Files>⟧ files.new)
        (sink_data ⟦<O as Sink>⟧ out.old) (sink_data ⟦<O as Sink>⟧ out.new)
        (command_of (map string_bytes words.now)) (outcome_of result) }
    ensures good { AcceptsGood (files_data ⟦<F as Files>⟧ files.old)
        (command_of (map string_bytes words.now)) (outcome_of result) }
    ensures lost { AcceptsLost (files_data ⟦<F as Files>⟧ files.old)
        (command_of (map string_bytes words.now)) (outcome_of result) }

    // The trace is honest: it tells why each predicate was tracked, the sets of the certificate that is written are
    // unions of cells of these predicates, and where a budget is spent they leave the design undecided.
    ensures traced { IsTrue F.tells → TracesHonestly
        (files_data ⟦<F as Files>⟧ files.old) (files_data ⟦<F as Files>⟧ files.new)
        (command_of (map string_bytes words.now)) (outcome_of result) }

    // What is known of an end in any case: `Usage` comes exactly where the words have no reading, a file that is
    // refused is one that the command reads, and a text that is too long shows.
    ensures possible { IfOk (outcome_of result) (MayEnd (command_of (map string_bytes words.now))) }
    ensures long { IfOk (outcome_of result) (IsLongShown
        (files_data ⟦<F as Files>⟧ files.old) (files_data ⟦<F as Files>⟧ files.new)) }

    // A fault is one that a count shows, and where the files tell, those before the file in question were judged well.
    ensures fault { IfErr (outcome_of result) (IsShown (command_of (map string_bytes words.now))
        (files_data ⟦<F as Files>⟧ files.old) (files_data ⟦<F as Files>⟧ files.new)
        (sink_data ⟦<O as Sink>⟧ out.old) (sink_data ⟦<O as Sink>⟧ out.new)) }

    // Whatever is answered, each file is judged before the next one is read: where the files tell, no read of a file
    // failed that was not due.
    ensures order { OnlyCounts (IsDue (F.contents files.old) (command_of (map string_bytes words.now)))
        (files_data ⟦<F as Files>⟧ files.old) (files_data ⟦<F as Files>⟧ files.new) }

    // The count of failed puts does not fall.
    ensures no_fewer_faults { O.faults out.old ≤ O.faults out.new }

    // What the output took is the report, or where it failed or memory ran out some first part of one.
    ensures report { Reports (command_of (map string_bytes words.now))
        (files_data ⟦<F as Files>⟧ files.old) (files_data ⟦<F as Files>⟧ files.new)
        (sink_data ⟦<O as Sink>⟧ out.old) (sink_data ⟦<O as Sink>⟧ out.new) (outcome_of result) }
    ensures last_line { EndsWithLines
        (sink_data ⟦<O as Sink>⟧ out.old) (sink_data ⟦<O as Sink>⟧ out.new) (outcome_of result) }

    // No file changes but those that the command writes. At `Driver`, `Environment`, `Generated`, `Migrated`,
    // `Structured` and `Unstructured` what they hold is the driver with its certificate, the environment's certificate,
    // the text, the certificate or the driver that was asked for; where a read failed, a text is refused or a budget is
    // spent none of them has changed. After a failed write the other file stands that was written before. Where the
    // output failed they are as the outcome says whose lines it did not take.
    ensures files { KeepsFiles (command_of (map string_bytes words.now))
        (files_data ⟦<F as Files>⟧ files.old) (files_data ⟦<F as Files>⟧ files.new) (outcome_of result) }
{
    let outcome = obey_words(alloc, words, files, out);
    match put_outcome(alloc, &outcome, out) {
        Ok(()) => status_of(outcome),
        Err(failure) => status_of(Err(failure)),
    }
}
