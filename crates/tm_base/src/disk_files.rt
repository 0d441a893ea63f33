//! The files of the operating system.
ghost use Rattle.std.specs.Prelude.{◌≡◌, ◌≢◌, ◌+◌, ◌≤◌, None, Some, false, length, IfOk, IsErrOf};
ghost use Rattle.tm_base.specs.Count.{RoseBy, Rose, greatest};

use crate::transfer::{file_error, read_whole, write_whole};
use crate::{FileError, Files};
use std::fs;
use std::marker::Model;

/// The real files. They tell no contents, and each counter stands for every name. A contract sees
/// the counters.
#[derive(Drop)]
pub struct DiskFiles<'a, R> {
    rt: &'a R,
    read_faults: u64,
    write_faults: u64,
    bytes_taken: u64,
}

impl<'a, R> Model for DiskFiles<'a, R> {
    ghost use Rattle.tm_base.specs.DiskCounts.{DiskCounts};

    ghost Value = { DiskCounts };

    ghost view = { λ d. record {
      read_faults = d.read_faults;
      write_faults = d.write_faults;
      bytes_taken = d.bytes_taken;
    } };
}

impl<'a, R> DiskFiles<'a, R> {
    /// The files that this runtime reaches.
    pub fn new(rt: &'a R) -> DiskFiles<'a, R>
        ensures { result ≡ record { read_faults = 0; write_faults = 0; bytes_taken = 0 } }
    {
        DiskFiles {
            rt,
            read_faults: 0,
            write_faults: 0,
            bytes_taken: 0,
        }
    }
}

/// Reads a file of at most `limit` bytes, and adds the number of bytes that were read to `taken`.
fn read_file<R: std::rt::Files + AllocGlobal>(
    rt: &R,
    name: &str,
    limit: u64,
    taken: &mut u64,
) -> Result<Vec<u8>, FileError>
    ensures within { IfOk result (λ bytes. length bytes.items ≤ limit) }
    ensures taken { IsErrOf result FileError.TooLong →
        RoseBy (Some greatest) (limit + 1) taken.old taken.new }
    ensures no_fewer { taken.old ≤ taken.new }
{
    let mut file = fs::open(rt, name).map_err(file_error)?;
    read_whole(rt.alloc(), &mut file, limit, taken)
}

/// Makes the file, or replaces what it holds.
fn write_file<R: std::rt::Files>(rt: &R, name: &str, bytes: &[u8]) -> Result<(), FileError>
    ensures { result ≢ Err FileError.TooLong }
{
    let mut file = fs::create(rt, name).map_err(file_error)?;
    write_whole(&mut file, bytes).map_err(file_error)
}

/// The count after this answer: one more after `Failed`, and never more than the greatest `u64`.
fn counted<T>(count: u64, answer: &Result<T, FileError>) -> u64
    ensures failed { IsErrOf answer.now FileError.Failed → Rose (Some greatest) count result }
    ensures no_fewer { count ≤ result }
{
    match answer {
        Err(FileError::Failed) => count.saturating_add(1),
        _ => count,
    }
}

impl<'a, R: std::rt::Files + AllocGlobal> Files for DiskFiles<'a, R> {
    ghost tells = { false };

    ghost last_count = { Some greatest };

    ghost contents = { λ _ _. None };

    ghost read_faults = { λ d _. d.read_faults };

    ghost write_faults = { λ d _. d.write_faults };

    ghost bytes_taken = { λ d. d.bytes_taken };

    /// It takes at most `limit + 1` turns.
    fn read(&mut self, name: &str, limit: u64) -> Result<Vec<u8>, FileError> {
        let answer = read_file(self.rt, name, limit, &mut self.bytes_taken);
        self.read_faults = counted(self.read_faults, &answer);
        answer
    }

    fn write(&mut self, name: &str, bytes: &[u8]) -> Result<(), FileError> {
        let answer = write_file(self.rt, name, bytes);
        self.write_faults = counted(self.write_faults, &answer);
        answer
    }
}
