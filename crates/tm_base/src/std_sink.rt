//! Standard output.
ghost use Rattle.std.specs.Prelude.{◌≡◌, [], Some, false};
ghost use Rattle.tm_base.specs.Count.{greatest};

use crate::transfer::{is_memory, write_whole};
use crate::{Sink, SinkError};
use std::io;
use std::marker::Model;

/// Standard output. It doesn't tell what was written. A contract sees the number of failed calls.
#[derive(Drop)]
pub struct StdSink<'a, R> {
    rt: &'a R,
    faults: u64,
}

impl<'a, R> Model for StdSink<'a, R> {
    ghost use Rattle.std.specs.Prelude.{ℕ};

    ghost Value = { ℕ };

    ghost view = { λ s. s.faults };
}

impl<'a, R> StdSink<'a, R> {
    /// The standard output of this runtime.
    pub fn new(rt: &'a R) -> StdSink<'a, R>
        ensures { result ≡ 0 }
    {
        StdSink { rt, faults: 0 }
    }
}

impl<'a, R: Print> Sink for StdSink<'a, R> {
    ghost tells = { false };

    ghost last_count = { Some greatest };

    ghost written = { λ _. [] };

    ghost faults = { λ s. s };

    fn put(&mut self, piece: &[u8]) -> Result<(), SinkError> {
        match write_whole(&mut io::writer(self.rt), piece) {
            Ok(()) => Ok(()),
            Err(error) if is_memory(&error) => Err(SinkError::Memory),
            Err(_) => {
                self.faults = self.faults.saturating_add(1);
                Err(SinkError::Failed)
            }
        }
    }
}
