//! Writing one file.
ghost use Rattle.std.specs.Prelude.{◌≡◌, Some, IsTrue, OnOk, IfErr};
ghost use Rattle.tm_commands.specs.World.{files_data, OnlyWrites};
ghost use Rattle.tm_commands.specs.Inner.Stopping.{IsWriteFailure};

use std::alloc::Global;
use tm_base::{FileError, Files, Name};
use tm_report::Failure;

/// Makes a file, or replaces all that it holds. After a failure nothing is known of what it holds.
pub fn write_file<F: Files>(
    alloc: Global,
    files: &mut F,
    name: &str,
    bytes: &[u8],
) -> Result<(), Failure>
    ensures written { OnOk result (IsTrue F.tells → F.contents files.new name.now ≡ Some bytes.now) }
    ensures failure { IfErr result (IsWriteFailure name.now
        (files_data ⟦<F as Files>⟧ files.old) (files_data ⟦<F as Files>⟧ files.new)) }
    ensures files { OnlyWrites name.now (files_data ⟦<F as Files>⟧ files.old) (files_data ⟦<F as Files>⟧ files.new) }
{
    match files.write(name, bytes) {
        Ok(()) => Ok(()),
        Err(FileError::Failed) => Err(Failure::WriteFault(Name::from_bytes(
            alloc,
            name.as_bytes(),
        )?)),
        Err(FileError::TooLong) => unreachable!(),
        Err(FileError::Memory) => Err(Failure::Memory),
    }
}
