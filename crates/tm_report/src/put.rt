//! Putting the lines of a report.
ghost use Rattle.std.specs.Prelude.{◌≡◌, ◌≤◌, ◌++◌, IsTrue, OnOk, OnErr, IfErr};
ghost use Rattle.tm_base.specs.Sink.{AppendsPrefix};
ghost use Rattle.tm_report.specs.Output.{sink_data};
ghost use Rattle.tm_report.specs.Putting.{IsSinkFailure, IsFailureOf};

use crate::ending::Failure;
use std::alloc::Global;
use tm_base::{Name, Sink, SinkError};

/// The failure of a refused `put`: the name of a failed output is empty.
pub fn failure_of(alloc: Global, error: SinkError) -> Failure
    ensures { IsFailureOf error result }
{
    match error {
        SinkError::Failed => Failure::WriteFault(Name::empty(alloc)),
        SinkError::Memory => Failure::Memory,
    }
}

/// Puts a line, its line feed included.
pub fn put_line<O: Sink>(alloc: Global, out: &mut O, line: &[u8]) -> Result<(), Failure>
    ensures ok { OnOk result (IsTrue O.tells → O.written out.new ≡ O.written out.old ++ line.now) }
    ensures err { OnErr result (IsTrue O.tells → AppendsPrefix line.now (O.written out.old) (O.written out.new)) }
    ensures failure { IfErr result (IsSinkFailure
        (sink_data ⟦<O as Sink>⟧ out.old) (sink_data ⟦<O as Sink>⟧ out.new)) }
    ensures no_fewer_faults { O.faults out.old ≤ O.faults out.new }
{
    match out.put(line) {
        Ok(()) => Ok(()),
        Err(error) => Err(failure_of(alloc, error)),
    }
}
