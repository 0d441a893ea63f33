//! Files in memory, some of whose calls fail.
ghost use Rattle.std.specs.Prelude.{◌≡◌, ◌≢◌, ◌+◌, ◌≤◌, ◌⊎◌, ℕ, List, None, true, length, IsErrOf, IfOk, OnOk, OnErr, option_copied};
ghost use Rattle.tm_base.specs.MemFiles.{times_in};

use crate::fail_plan::FailPlan;
use crate::{FileError, Files, Name};
use std::alloc::{AllocError, Global};
use std::collections::BTreeMap;

/// Files in memory, whose calls of `read` and `write` with given numbers fail. The calls of both are
/// counted together, from 1.
#[derive(Drop)]
pub struct MemFiles {
    alloc: Global,
    files: BTreeMap<String, Vec<u8>>,
    plan: FailPlan,
    failed_reads: Vec<Name>,
    failed_writes: Vec<Name>,
}

/// Keeps the name of a failed call.
fn keep_name(alloc: Global, names: &mut Vec<Name>, name: &str) -> Result<(), AllocError>
    ensures ok { OnOk result
        (times_in names.new.items name.now ≡ times_in names.old.items name.now + 1) }
    ensures err { OnErr result (names.new.items ≡ names.old.items) }
    ensures others { (n : List ℕ) → n ≢ name.now →
        times_in names.new.items n ≡ times_in names.old.items n }
    ensures no_fewer { (n : List ℕ) → times_in names.old.items n ≤ times_in names.new.items n }
{
    names.push(Name::from_bytes(alloc, name.as_bytes())?)?;
    Ok(())
}

impl MemFiles {
    ghost use Rattle.tm_base.specs.MemFiles.{contents_of, read_faults_of, write_faults_of, calls_of, fails_of};

    /// No files. The calls with the numbers in `fails` will fail.
    pub fn new(alloc: Global, fails: Vec<u64>) -> MemFiles
        ensures no_files { (n : List ℕ) → contents_of result n ≡ None }
        ensures no_read_faults { (n : List ℕ) → read_faults_of result n ≡ 0 }
        ensures no_write_faults { (n : List ℕ) → write_faults_of result n ≡ 0 }
        ensures no_calls { calls_of result ≡ 0 }
        ensures fails { fails_of result ≡ fails.items }
    {
        MemFiles {
            alloc,
            files: BTreeMap::new(alloc),
            plan: FailPlan::new(fails),
            failed_reads: Vec::new(alloc),
            failed_writes: Vec::new(alloc),
        }
    }

    /// Sets one file. This is no call that is counted.
    #[tactic(auto, using(std::proofs::lemmas::Map::Text::text_keys))]
    pub fn add(&mut self, name: &str, bytes: &[u8]) -> Result<(), AllocError>
        ensures ok { OnOk result (contents_of self.new name.now ≡ Some bytes.now) }
        ensures err { OnErr result (contents_of self.new ≡ contents_of self.old) }
        ensures other_contents { (n : List ℕ) → n ≢ name.now →
            contents_of self.new n ≡ contents_of self.old n }

        // Nothing else changes.
        ensures read_faults { read_faults_of self.new ≡ read_faults_of self.old }
        ensures write_faults { write_faults_of self.new ≡ write_faults_of self.old }
        ensures calls { calls_of self.new ≡ calls_of self.old }
        ensures fails { fails_of self.new ≡ fails_of self.old }
    {
        let name = String::from_str(self.alloc, name)?;
        let bytes = Vec::from_slice(self.alloc, bytes)?;
        self.files.insert(name, bytes)?;
        Ok(())
    }

    /// What the file holds. `None`: there is no such file.
    pub fn contents(&self, name: &str) -> Option<&[u8]>
        ensures { option_copied result ≡ contents_of self.now name.now }
    {
        Some(self.files.get(name)?.as_slice())
    }
}

impl Files for MemFiles {
    ghost use Rattle.tm_base.specs.MemFiles.{contents_of, read_faults_of, write_faults_of, calls_of, fails_of, IsFault};
    ghost use Rattle.tm_base.specs.FailPlan.{next_call, FailsNext};
    ghost use Rattle.tm_base.specs.Files.{IsLonger};

    ghost tells = { true };

    ghost last_count = { None };

    ghost contents = { contents_of };

    ghost read_faults = { read_faults_of };

    ghost write_faults = { write_faults_of };

    /// The contents are told, so no clause speaks of this count.
    ghost bytes_taken = { λ _. 0 };

    fn read(&mut self, name: &str, limit: u64) -> Result<Vec<u8>, FileError>
        ensures whole { IfOk result (λ bytes. contents_of self.old name.now ≡ Some bytes.items) }
        ensures within { IfOk result (λ bytes. length bytes.items ≤ limit) }
        ensures long { IsErrOf result FileError.TooLong →
            IsLonger (contents_of self.old name.now) limit }
        ensures contents { contents_of self.new ≡ contents_of self.old }

        // It fails where it is among the listed calls or the file is missing.
        ensures listed { FailsNext (fails_of self.old) (calls_of self.old) → IsFault result }
        ensures missing { contents_of self.old name.now ≡ None → IsFault result }
        ensures failed { IsErrOf result FileError.Failed →
            FailsNext (fails_of self.old) (calls_of self.old) ⊎
            (contents_of self.old name.now ≡ None) }
        ensures calls { calls_of self.new ≡ next_call (calls_of self.old) }
        ensures fails { fails_of self.new ≡ fails_of self.old }

        // A failed call is counted under its name.
        ensures fault { IsErrOf result FileError.Failed →
            read_faults_of self.new name.now ≡ read_faults_of self.old name.now + 1 }
        ensures no_fault { result ≢ Err FileError.Failed →
            read_faults_of self.new ≡ read_faults_of self.old }
        ensures other_faults { (n : List ℕ) → n ≢ name.now →
            read_faults_of self.new n ≡ read_faults_of self.old n }
        ensures write_faults { write_faults_of self.new ≡ write_faults_of self.old }
        ensures no_fewer_faults { (n : List ℕ) →
            read_faults_of self.old n ≤ read_faults_of self.new n }
    {
        if self.plan.next_fails() {
            keep_name(self.alloc, &mut self.failed_reads, name)?;
            return Err(FileError::Failed);
        }
        let Some(bytes) = self.files.get(name) else {
            keep_name(self.alloc, &mut self.failed_reads, name)?;
            return Err(FileError::Failed);
        };
        if bytes.len() as u64 > limit {
            return Err(FileError::TooLong);
        }
        Ok(Vec::from_slice(self.alloc, bytes)?)
    }

    /// A refused call leaves all files as they were.
    fn write(&mut self, name: &str, bytes: &[u8]) -> Result<(), FileError>
        ensures written { OnOk result (contents_of self.new name.now ≡ Some bytes.now) }
        ensures refused { OnErr result (contents_of self.new ≡ contents_of self.old) }
        ensures other_contents { (n : List ℕ) → n ≢ name.now →
            contents_of self.new n ≡ contents_of self.old n }
        ensures never_long { result ≢ Err FileError.TooLong }

        // It fails where it is among the listed calls.
        ensures listed { FailsNext (fails_of self.old) (calls_of self.old) → IsFault result }
        ensures failed { IsErrOf result FileError.Failed →
            FailsNext (fails_of self.old) (calls_of self.old) }
        ensures calls { calls_of self.new ≡ next_call (calls_of self.old) }
        ensures fails { fails_of self.new ≡ fails_of self.old }

        // A failed call is counted under its name.
        ensures fault { IsErrOf result FileError.Failed →
            write_faults_of self.new name.now ≡ write_faults_of self.old name.now + 1 }
        ensures no_fault { result ≢ Err FileError.Failed →
            write_faults_of self.new ≡ write_faults_of self.old }
        ensures other_faults { (n : List ℕ) → n ≢ name.now →
            write_faults_of self.new n ≡ write_faults_of self.old n }
        ensures read_faults { read_faults_of self.new ≡ read_faults_of self.old }
        ensures no_fewer_faults { (n : List ℕ) →
            write_faults_of self.old n ≤ write_faults_of self.new n }
    {
        if self.plan.next_fails() {
            keep_name(self.alloc, &mut self.failed_writes, name)?;
            return Err(FileError::Failed);
        }
        self.add(name, bytes).map_err(|_| FileError::Memory)
    }
}
