//! Which calls of files or a sink in memory are to fail.
ghost use Rattle.std.specs.Prelude.{◌≡◌, ◌↔◌, IsTrue};
ghost use Rattle.tm_base.specs.FailPlan.{next_call, FailsNext};

/// The numbers of the calls that are to fail, counted from 1, and how many calls there were.
#[derive(Drop)]
pub(crate) struct FailPlan {
    fails: Vec<u64>,
    calls: u64,
}

impl FailPlan {
    pub(crate) fn new(fails: Vec<u64>) -> FailPlan
        ensures { result ≡ record { fails = fails; calls = 0 } }
    {
        FailPlan { fails, calls: 0 }
    }

    /// Counts one more call, and says whether it is to fail.
    pub(crate) fn next_fails(&mut self) -> bool
        ensures fails { IsTrue result ↔ FailsNext self.old.fails.items self.old.calls }
        ensures counted { self.new ≡ record self.old { calls = next_call self.old.calls } }
    {
        self.calls = self.calls.saturating_add(1);
        self.fails.contains(&self.calls)
    }

    /// How many calls there were.
    pub(crate) fn calls(&self) -> u64
        ensures { result ≡ self.now.calls }
    {
        self.calls
    }
}
