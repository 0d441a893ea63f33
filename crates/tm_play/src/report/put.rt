//! Putting the lines of a play.
ghost use Rattle.std.specs.Prelude.{◌≡◌, ◌≤◌, ◌++◌, IsTrue, IsErrOf, OnOk, OnErr};
ghost use Rattle.tm_base.specs.Count.{Rose};
ghost use Rattle.tm_base.specs.Sink.{AppendsPrefix};

use crate::ending::PlayError;
use tm_base::{Sink, SinkError};

/// Puts a line, its line feed included.
pub fn put_line<O: Sink>(out: &mut O, line: &[u8]) -> Result<(), PlayError>
    ensures ok { OnOk result (IsTrue O.tells → O.written out.new ≡ O.written out.old ++ line.now) }
    ensures err { OnErr result (IsTrue O.tells → AppendsPrefix line.now (O.written out.old) (O.written out.new)) }
    ensures failed { IsErrOf result PlayError.Failed → Rose O.last_count (O.faults out.old) (O.faults out.new) }
    ensures no_fewer_faults { O.faults out.old ≤ O.faults out.new }
{
    match out.put(line) {
        Ok(()) => Ok(()),
        Err(SinkError::Failed) => Err(PlayError::Failed),
        Err(SinkError::Memory) => Err(PlayError::Memory),
    }
}
