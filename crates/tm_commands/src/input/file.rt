//! Reading one file, and what stops a command that cannot use it.
ghost use Rattle.std.specs.Prelude.{◌≡◌, ◌≤◌, length, Some, IsTrue, IsNone, IfOk, IfErr, IfSome};
ghost use Rattle.tm_base.specs.Files.{IsLonger};
ghost use Rattle.tm_commands.specs.World.{files_data, OnlyCounts, OnlyReads, TookMoreThan};
ghost use Rattle.tm_commands.specs.Inner.Stopping.{StopsBy, IsReadFailure, IsMemory};

use crate::stop::Stop;
use std::alloc::Global;
use tm_base::{FileError, Files, Name};
use tm_report::{Bad, Ending, Failure};

/// The most bytes of a driver, of a certificate or of choices.
pub const TEXT_BYTES: u64 = 16_777_216;

/// The contents of a file; none where it is longer than the limit.
pub fn read_file<F: Files>(
    alloc: Global,
    files: &mut F,
    name: &str,
    limit: u64,
) -> Result<Option<Vec<u8>>, Failure>
    ensures whole { IfOk result (λ r. IfSome r (λ bytes.
        IsTrue F.tells → F.contents files.old name.now ≡ Some bytes.items)) }
    ensures within { IfOk result (λ r. IfSome r (λ bytes. length bytes.items ≤ limit)) }
    ensures long { IfOk result (λ r. IsNone r → IsTrue F.tells → IsLonger (F.contents files.old name.now) limit) }
    ensures taken { IfOk result (λ r. IsNone r →
        TookMoreThan limit (files_data ⟦<F as Files>⟧ files.old) (files_data ⟦<F as Files>⟧ files.new)) }
    ensures failure { IfErr result (IsReadFailure name.now
        (files_data ⟦<F as Files>⟧ files.old) (files_data ⟦<F as Files>⟧ files.new)) }
    ensures files { OnlyReads (files_data ⟦<F as Files>⟧ files.old) (files_data ⟦<F as Files>⟧ files.new) }
    ensures counts { OnlyCounts (λ n. n ≡ name.now)
        (files_data ⟦<F as Files>⟧ files.old) (files_data ⟦<F as Files>⟧ files.new) }
{
    match files.read(name, limit) {
        Ok(bytes) => Ok(Some(bytes)),
        Err(FileError::TooLong) => Ok(None),
        Err(FileError::Failed) => Err(Failure::ReadFault(Name::from_bytes(
            alloc,
            name.as_bytes(),
        )?)),
        Err(FileError::Memory) => Err(Failure::Memory),
    }
}

/// A file has no reading.
pub fn bad_text(alloc: Global, name: &str, why: Bad) -> Stop
    ensures { StopsBy (λ e. e ≡ Ending.BadText name.now why) IsMemory result }
{
    match Name::from_bytes(alloc, name.as_bytes()) {
        Ok(file) => Stop::Ends(Ending::BadText { file, why }),
        Err(_) => Stop::Fails(Failure::Memory),
    }
}
