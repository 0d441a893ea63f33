//! The command `migrate`.
ghost use Rattle.std.specs.Prelude.{Some};
ghost use Rattle.tm_commands.specs.Order.{IsDue};
ghost use Rattle.tm_commands.specs.Words.{migrate as migrate_words};
ghost use Rattle.tm_commands.specs.World.{OnlyCounts, files_data};
ghost use Rattle.tm_report.specs.Output.{sink_data};
ghost use Rattle.tm_commands.specs.Inner.Obeying.{IsSpelled, Obeys};

use crate::commands::write::write_file;
use crate::input::migration::load_migration;
use std::alloc::Global;
use tm_base::{Files, Sink};
use tm_cert::write_shaped;
use tm_report::{Ending, Failure};

/// Reads a certificate for the design of a specification, and writes it to a file in format 2. The line that tells the
/// outcome is left.
pub fn migrate<F: Files, O: Sink>(
    alloc: Global,
    files: &mut F,
    out: &mut O,
    spec: &str,
    cert: &str,
    name: &str,
) -> Result<Ending, Failure>
    requires { IsSpelled (migrate_words spec.now cert.now name.now) }
    ensures obeys { Obeys (Some (migrate_words spec.now cert.now name.now))
        (files_data ⟦<F as Files>⟧ files.old) (files_data ⟦<F as Files>⟧ files.new)
        (sink_data ⟦<O as Sink>⟧ out.old) (sink_data ⟦<O as Sink>⟧ out.new) result }
    ensures counts { OnlyCounts (IsDue (F.contents files.old) (Some (migrate_words spec.now cert.now name.now)))
        (files_data ⟦<F as Files>⟧ files.old) (files_data ⟦<F as Files>⟧ files.new) }
{
    let migration = match load_migration(alloc, files, spec, cert) {
        Ok(migration) => migration,
        Err(stop) => return stop.outcome(),
    };
    let Ok(text) = write_shaped(alloc, migration.shape.bits, &migration.cert) else {
        return Err(Failure::Memory);
    };
    match write_file(alloc, files, name, &text) {
        Ok(()) => Ok(Ending::Migrated),
        Err(unwritten) => Err(unwritten),
    }
}
