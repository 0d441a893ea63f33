//! What is asked of the place where a program's output goes.
ghost use Rattle.std.specs.Prelude.{◌≡◌, ◌≤◌, ◌++◌, ℕ, Bool, List, Option, IsTrue, IsErrOf, OnOk, OnErr};
ghost use Rattle.tm_base.specs.Count.{Rose};
ghost use Rattle.tm_base.specs.Sink.{AppendsPrefix};

use thiserror::Error;

/// Why a piece of output was not taken whole.
#[derive(Clone, Copy, Debug, PartialEq, Eq, Error)]
pub enum SinkError {
    #[error("the output could not be written")]
    Failed,
    #[error("out of memory")]
    Memory,
}

/// Where output goes, piece by piece.
pub trait Sink {
    /// Whether the written bytes are told. Where they are not, no clause speaks of them.
    ghost tells: { Bool };

    /// The last value of the counter of faults, where it has one.
    ghost last_count: { Option ℕ };

    /// All bytes that were written.
    ghost written: { Self → List ℕ };

    /// How many calls have failed.
    ghost faults: { Self → ℕ };

    /// Appends the whole piece, or after an error some first part of it.
    fn put(&mut self, piece: &[u8]) -> Result<(), SinkError>
        ensures whole { OnOk result (IsTrue tells →
            written self.new ≡ written self.old ++ piece.now) }
        ensures part { OnErr result (IsTrue tells →
            AppendsPrefix piece.now (written self.old) (written self.new)) }
        ensures failed { IsErrOf result SinkError.Failed →
            Rose last_count (faults self.old) (faults self.new) }
        ensures no_fewer_faults { faults self.old ≤ faults self.new };
}
