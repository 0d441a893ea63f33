//! A sink in memory, some of whose calls fail.
ghost use Rattle.std.specs.Prelude.{◌≡◌, ◌≢◌, ◌+◌, ◌++◌, [], None, true, IsErrOf, OnOk, OnErr};

use crate::fail_plan::FailPlan;
use crate::{Sink, SinkError};
use std::alloc::Global;

/// A sink in memory. The calls of `put` with the given numbers, counted from 1, fail.
#[derive(Drop)]
pub struct MemSink {
    bytes: Vec<u8>,
    plan: FailPlan,
    failed_calls: Vec<u64>,
}

impl MemSink {
    ghost use Rattle.tm_base.specs.MemSink.{written_of, faults_of, calls_of, fails_of};

    /// A sink that took nothing yet. The calls with the numbers in `fails` will fail.
    pub fn new(alloc: Global, fails: Vec<u64>) -> MemSink
        ensures nothing_written { written_of result ≡ [] }
        ensures no_faults { faults_of result ≡ 0 }
        ensures no_calls { calls_of result ≡ 0 }
        ensures fails { fails_of result ≡ fails.items }
    {
        MemSink {
            bytes: Vec::new(alloc),
            plan: FailPlan::new(fails),
            failed_calls: Vec::new(alloc),
        }
    }

    /// All bytes that were put.
    pub fn bytes(&self) -> &[u8]
        ensures { result.now ≡ written_of self.now }
    {
        self.bytes.as_slice()
    }
}

impl Sink for MemSink {
    ghost use Rattle.tm_base.specs.MemSink.{written_of, faults_of, calls_of, fails_of, IsFault};
    ghost use Rattle.tm_base.specs.FailPlan.{next_call, FailsNext};
    ghost use Rattle.tm_base.specs.Sink.{AppendsPrefix};

    ghost tells = { true };

    ghost last_count = { None };

    ghost written = { written_of };

    ghost faults = { faults_of };

    /// A refused call appends nothing.
    fn put(&mut self, piece: &[u8]) -> Result<(), SinkError>
        ensures whole { OnOk result (written_of self.new ≡ written_of self.old ++ piece.now) }
        ensures refused { OnErr result (written_of self.new ≡ written_of self.old) }
        ensures part { OnErr result
            (AppendsPrefix piece.now (written_of self.old) (written_of self.new)) }

        // It fails where it is among the listed calls, and is counted then.
        ensures listed { FailsNext (fails_of self.old) (calls_of self.old) → IsFault result }
        ensures failed { IsErrOf result SinkError.Failed →
            FailsNext (fails_of self.old) (calls_of self.old) }
        ensures calls { calls_of self.new ≡ next_call (calls_of self.old) }
        ensures fails { fails_of self.new ≡ fails_of self.old }
        ensures fault { IsErrOf result SinkError.Failed →
            faults_of self.new ≡ faults_of self.old + 1 }
        ensures no_fault { result ≢ Err SinkError.Failed →
            faults_of self.new ≡ faults_of self.old }
    {
        if self.plan.next_fails() {
            self.failed_calls
                .push(self.plan.calls())
                .map_err(|_| SinkError::Memory)?;
            return Err(SinkError::Failed);
        }
        self.bytes
            .extend_from_slice(piece)
            .map_err(|_| SinkError::Memory)
    }
}
