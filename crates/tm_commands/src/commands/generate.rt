//! The command `gen`.
ghost use Rattle.std.specs.Prelude.{Some};
ghost use Rattle.tm_commands.specs.Order.{IsDue};
ghost use Rattle.tm_commands.specs.Words.{generate as generate_words};
ghost use Rattle.tm_commands.specs.World.{OnlyCounts, files_data};
ghost use Rattle.tm_report.specs.Output.{sink_data};
ghost use Rattle.tm_commands.specs.Inner.Obeying.{IsSpelled, Obeys};

use crate::commands::write::write_file;
use std::alloc::Global;
use tm_base::{Files, Sink};
use tm_gen::GenError;
use tm_report::{Ending, Failure};

/// Writes the generated specification of so many registers to a file. The line that tells the outcome is left.
pub fn generate<F: Files, O: Sink>(
    alloc: Global,
    files: &mut F,
    out: &mut O,
    registers: u32,
    name: &str,
) -> Result<Ending, Failure>
    requires { IsSpelled (generate_words registers name.now) }
    ensures obeys { Obeys (Some (generate_words registers name.now))
        (files_data ⟦<F as Files>⟧ files.old) (files_data ⟦<F as Files>⟧ files.new)
        (sink_data ⟦<O as Sink>⟧ out.old) (sink_data ⟦<O as Sink>⟧ out.new) result }
    ensures counts { OnlyCounts (IsDue (F.contents files.old) (Some (generate_words registers name.now)))
        (files_data ⟦<F as Files>⟧ files.old) (files_data ⟦<F as Files>⟧ files.new) }
{
    let text = match tm_gen::generate(alloc, registers) {
        Ok(text) => text,
        Err(GenError::TooLarge) => unreachable!(),
        Err(GenError::Memory) => return Err(Failure::Memory),
    };
    match write_file(alloc, files, name, &text) {
        Ok(()) => Ok(Ending::Generated(registers)),
        Err(unwritten) => Err(unwritten),
    }
}
