//! Code over any files and any sink, which rests on their traits alone.
ghost use Rattle.std.specs.Prelude.{◌≡◌, ◌+◌, ◌++◌, ℕ, false, List, IsTrue, IsErr, IsErrOf, OnOk};
ghost use Rattle.tm_base.specs.Count.{Rose, RoseBy};
ghost use Rattle.tm_base.specs.Files.{IsLonger};

use tm_base::{FileError, Files, Sink, SinkError};

/// Which step failed, and how.
#[derive(Clone, Copy, Debug, PartialEq, Eq)]
pub enum CopyError {
    First(FileError),
    Second(FileError),
    Put(SinkError),
}

/// Puts what two files hold.
pub fn copy_two<F: Files, O: Sink>(
    first: &str,
    second: &str,
    limit: u64,
    files: &mut F,
    out: &mut O,
) -> Result<(), CopyError>
    ensures whole { OnOk result (IsTrue F.tells → IsTrue O.tells → (a b : List ℕ) →
        F.contents files.old first.now ≡ Some a → F.contents files.old second.now ≡ Some b →
        O.written out.new ≡ O.written out.old ++ (a ++ b)) }
    ensures first { IsErrOf result (CopyError.First FileError.Failed) → Rose F.last_count
        (F.read_faults files.old first.now) (F.read_faults files.new first.now) }
    ensures second { IsErrOf result (CopyError.Second FileError.Failed) → Rose F.last_count
        (F.read_faults files.old second.now) (F.read_faults files.new second.now) }
    ensures long { IsErrOf result (CopyError.Second FileError.TooLong) →
        IsTrue F.tells → IsLonger (F.contents files.old second.now) limit }
    ensures taken { IsErrOf result (CopyError.Second FileError.TooLong) → F.tells ≡ false →
        RoseBy F.last_count (limit + 1) (F.bytes_taken files.old) (F.bytes_taken files.new) }
    ensures put { IsErrOf result (CopyError.Put SinkError.Failed) →
        Rose O.last_count (O.faults out.old) (O.faults out.new) }
    ensures missing { IsTrue F.tells → F.contents files.old second.now ≡ None → IsErr result }
    ensures contents { F.contents files.new ≡ F.contents files.old }
    ensures write_faults { F.write_faults files.new ≡ F.write_faults files.old }
{
    let head = files.read(first, limit).map_err(CopyError::First)?;
    let tail = files.read(second, limit).map_err(CopyError::Second)?;
    out.put(&head).map_err(CopyError::Put)?;
    out.put(&tail).map_err(CopyError::Put)
}
