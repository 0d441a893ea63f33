//! How many rows get the answer that is wanted.
ghost use Rattle.std.specs.Prelude.{◌≡◌, ◌≢◌, ◌+◌, ◌<◌, ◌^◌};

use crate::table::Row;
use std::io;

/// How many rows got the answer that is wanted.
#[derive(Clone, Copy)]
pub struct Tally {
    pub passed: u64,
}

impl Tally {
    /// No row yet.
    pub fn new() -> Tally
        ensures { result.passed ≡ 0 }
    {
        Tally { passed: 0 }
    }

    /// Counts a row whose answer is the one that is wanted, and prints both answers of any other.
    pub fn note<R: Print>(&mut self, rt: &R, row: &Row, found: &str) -> io::Result<()>
        ensures met { found.now ≡ row.now.wanted.now → self.old.passed + 1 < 2 ^ 64
            → self.new.passed ≡ self.old.passed + 1 }
        ensures missed { found.now ≢ row.now.wanted.now → self.new ≡ self.old }
    {
        if found == row.wanted {
            self.passed = self.passed.saturating_add(1);
            return Ok(());
        }
        println!(rt;
            "line {}: {}: wanted {}, found {found}",
            row.number, row.question, row.wanted
        )
    }

    /// Prints how many rows have passed.
    pub fn tell<R: Print>(&self, rt: &R) -> io::Result<()> {
        println!(rt; "{} rows passed", self.passed)
    }
}
