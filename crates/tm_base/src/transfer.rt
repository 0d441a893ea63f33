//! Reads a reader to its end, and writes all of a piece, in bounded numbers of turns.
ghost use Rattle.std.specs.Prelude.{◌≡◌, ◌≢◌, ◌↔◌, ◌+◌, ◌<◌, ◌≤◌, ℕ, length, take, IsTrue, IsErrOf, IfSome, IfOk, OnOk, OnErr, vec_len};
ghost use Rattle.std.specs.IoError.{error_kind};
ghost use Rattle.std.specs.Io.KnownBytes.{Appends, IsAtEnd};
ghost use Rattle.tm_base.specs.Count.{RoseBy, greatest};
ghost use Rattle.tm_base.specs.Transfer.{TakesPiece, TakesTooMany};

use crate::FileError;
use std::alloc::Global;
use std::io::{self, ErrorKind, Read, Write};

const CHUNK: usize = 8192;

/// Whether an error came from want of memory.
pub(crate) fn is_memory(error: &io::Error) -> bool
    ensures { IsTrue result ↔ (error_kind error.now ≡ ErrorKind.OutOfMemory) }
{
    error.kind() == ErrorKind::OutOfMemory
}

/// Why a file was not read or written.
pub(crate) fn file_error(error: io::Error) -> FileError
    ensures memory { (result ≡ FileError.Memory) ↔ (error_kind error ≡ ErrorKind.OutOfMemory) }
    ensures never_long { result ≢ FileError.TooLong }
{
    if is_memory(&error) {
        FileError::Memory
    } else {
        FileError::Failed
    }
}

/// One turn of a read: appends what the reader gives, up to `limit` bytes in all, and says whether
/// that was the end. It adds the number of bytes that were read to `taken`.
fn read_turn<R: Read>(
    from: &mut R,
    limit: u64,
    bytes: &mut Vec<u8>,
    taken: &mut u64,
) -> Result<bool, FileError>
    requires { vec_len bytes.old ≤ limit }
    ensures piece { OnOk result (TakesPiece (R.remaining from.old) (R.remaining from.new)
        bytes.old.items bytes.new.items taken.old taken.new) }
    ensures end { IfOk result (λ is_end. IsTrue is_end → IsAtEnd (R.remaining from.new)) }
    ensures within { OnOk result (vec_len bytes.new ≤ limit) }
    ensures long { IsErrOf result FileError.TooLong →
        TakesTooMany (R.remaining from.old) (R.remaining from.new)
        bytes.old.items limit taken.old taken.new }
    ensures no_fewer { taken.old ≤ taken.new }
{
    let mut chunk = [0u8; CHUNK];
    match from.read(&mut chunk) {
        Ok(0) => Ok(true),
        Ok(n) => {
            *taken = taken.saturating_add(n as u64);
            if n as u64 > limit - bytes.len() as u64 {
                return Err(FileError::TooLong);
            }
            bytes.extend_from_slice(&chunk[..n])?;
            Ok(false)
        }
        Err(error) if error.kind() == ErrorKind::Interrupted => Ok(false),
        Err(error) => Err(file_error(error)),
    }
}

/// All that the reader has left, at most `limit` bytes. It takes at most `limit + 1` turns, and adds
/// the number of bytes that were read to `taken`.
pub(crate) fn read_whole<R: Read>(
    alloc: Global,
    from: &mut R,
    limit: u64,
    taken: &mut u64,
) -> Result<Vec<u8>, FileError>
    ensures whole { IfOk result (λ bytes.
        IfSome (R.remaining from.old) (λ all. bytes.items ≡ all)) }
    ensures within { IfOk result (λ bytes. length bytes.items ≤ limit) }
    ensures long { IsErrOf result FileError.TooLong →
        IfSome (R.remaining from.old) (λ all. limit < length all) }
    ensures taken { IsErrOf result FileError.TooLong →
        RoseBy (Some greatest) (limit + 1) taken.old taken.new }
    ensures no_fewer { taken.old ≤ taken.new }
{
    let mut bytes = Vec::new(alloc);
    for _ in 0..=limit {
        if read_turn(from, limit, &mut bytes, taken)? {
            return Ok(bytes);
        }
    }
    Err(FileError::Failed)
}

/// Writes all the bytes. A write that takes none of them is an error.
pub(crate) fn write_whole<W: Write>(to: &mut W, bytes: &[u8]) -> io::Result<()>
    ensures whole { OnOk result (Appends (W.contents to.old) (W.contents to.new) bytes.now) }
    ensures part { OnErr result ((n : ℕ) ×
        Appends (W.contents to.old) (W.contents to.new) (take n bytes.now)) }
{
    let mut done = 0;
    for _ in 0..u64::MAX {
        if done == bytes.len() {
            return Ok(());
        }
        match to.write(&bytes[done..]) {
            Ok(0) => return Err(ErrorKind::WriteZero.into()),
            Ok(n) => done += n,
            Err(error) if error.kind() == ErrorKind::Interrupted => {}
            Err(error) => return Err(error),
        }
    }
    Err(ErrorKind::TimedOut.into())
}
