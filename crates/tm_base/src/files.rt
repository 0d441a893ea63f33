//! What is asked of files: they are read and written whole, by name.
ghost use Rattle.std.specs.Prelude.{◌≡◌, ◌≢◌, ◌+◌, ◌≤◌, ℕ, Bool, false, List, Option, length, IsTrue, IsErr, IsErrOf, OnOk, IfOk};
ghost use Rattle.tm_base.specs.Count.{Rose, RoseBy};
ghost use Rattle.tm_base.specs.Files.{IsLonger};

use std::alloc::AllocError;
use thiserror::Error;

/// Why a file was not read or written.
#[derive(Clone, Copy, Debug, PartialEq, Eq, Error)]
pub enum FileError {
    /// The file is missing, or the system failed.
    #[error("the file could not be reached")]
    Failed,
    /// The file is longer than the reader's limit.
    #[error("the file is too long")]
    TooLong,
    #[error("out of memory")]
    Memory,
}

impl From<AllocError> for FileError {
    ghost use Rattle.std.specs.Prelude.{◌≡◌};
    ghost use Rattle.tm_base.specs.declared.files.FileError.TheVariants.{Memory};

    ghost from_gives = { λ _ e. e ≡ Memory };

    fn from(_error: AllocError) -> FileError {
        FileError::Memory
    }
}

/// Files that are read and written whole. In a clause a name is its bytes.
pub trait Files {
    /// Whether the contents are told. Where they are not, no clause speaks of them.
    ghost tells: { Bool };

    /// The last value of the counters, where they have one.
    ghost last_count: { Option ℕ };

    /// What each name holds. `None`: there is no such file.
    ghost contents: { Self → List ℕ → Option (List ℕ) };

    /// How many reads of each name have failed.
    ghost read_faults: { Self → List ℕ → ℕ };

    /// How many writes of each name have failed.
    ghost write_faults: { Self → List ℕ → ℕ };

    /// How many bytes all reads have taken. Only files that tell no contents are asked for it.
    ghost bytes_taken: { Self → ℕ };

    /// The whole contents of a file of at most `limit` bytes. A missing file is a fault.
    fn read(&mut self, name: &str, limit: u64) -> Result<Vec<u8>, FileError>
        ensures whole { IfOk result (λ bytes.
            IsTrue tells → contents self.old name.now ≡ Some bytes.items) }
        ensures within { IfOk result (λ bytes. length bytes.items ≤ limit) }
        ensures missing { IsTrue tells → contents self.old name.now ≡ None → IsErr result }

        // `TooLong` comes only for longer contents, and where these are untold only after more than
        // `limit` bytes were taken.
        ensures long { IsErrOf result FileError.TooLong →
            IsTrue tells → IsLonger (contents self.old name.now) limit }
        ensures taken { IsErrOf result FileError.TooLong →
            tells ≡ false →
            RoseBy last_count (limit + 1) (bytes_taken self.old) (bytes_taken self.new) }
        ensures failed { IsErrOf result FileError.Failed →
            Rose last_count (read_faults self.old name.now) (read_faults self.new name.now) }

        // No count falls. Where contents are told, no other name has a new fault.
        ensures no_fewer_faults { (n : List ℕ) → read_faults self.old n ≤ read_faults self.new n }
        ensures no_fewer_bytes { bytes_taken self.old ≤ bytes_taken self.new }
        ensures other_faults { IsTrue tells →
            (n : List ℕ) → n ≢ name.now → read_faults self.new n ≡ read_faults self.old n }

        ensures write_faults { write_faults self.new ≡ write_faults self.old }
        ensures contents { contents self.new ≡ contents self.old };

    /// Makes the file, or replaces all that it holds. After an error nothing is said of what it
    /// holds.
    fn write(&mut self, name: &str, bytes: &[u8]) -> Result<(), FileError>
        ensures written { OnOk result (IsTrue tells → contents self.new name.now ≡ Some bytes.now) }
        ensures never_long { result ≢ Err FileError.TooLong }
        ensures failed { IsErrOf result FileError.Failed →
            Rose last_count (write_faults self.old name.now) (write_faults self.new name.now) }

        // No count falls. Where contents are told, no other name has a new fault.
        ensures no_fewer_faults { (n : List ℕ) → write_faults self.old n ≤ write_faults self.new n }
        ensures other_faults { IsTrue tells →
            (n : List ℕ) → n ≢ name.now → write_faults self.new n ≡ write_faults self.old n }

        ensures read_faults { read_faults self.new ≡ read_faults self.old }
        ensures bytes_taken { bytes_taken self.new ≡ bytes_taken self.old }
        ensures other_contents { (n : List ℕ) → n ≢ name.now →
            contents self.new n ≡ contents self.old n };
}
