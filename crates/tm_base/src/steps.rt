//! The step counter, for bounds on the number of steps that a call takes.
ghost use Rattle.std.specs.Prelude.{◌≡◌, ◌+◌, min};

use std::marker::Model;

/// How many steps were taken under a ledger. A contract sees the number.
///
/// The ledger is moved in, so code that is generic over `L` can't make another counter of that `L`.
#[derive(Drop)]
pub struct Steps<L> {
    ledger: L,
    count: u64,
}

impl<L> Model for Steps<L> {
    ghost use Rattle.std.specs.Prelude.{ℕ};

    ghost Value = { ℕ };

    ghost view = { λ s. s.count };
}

impl<L> Steps<L> {
    /// A counter that has counted nothing.
    pub fn new(ledger: L) -> Steps<L>
        ensures { result ≡ 0 }
    {
        Steps { ledger, count: 0 }
    }

    /// Counts one step. The count stays at the greatest `u64` once it is reached.
    pub fn tick(&mut self)
        ensures { self.new ≡ min (self.old + 1) u64.MAX }
    {
        self.count = self.count.saturating_add(1);
    }

    /// How many steps were counted.
    pub fn count(&self) -> u64
        ensures { result ≡ self.now }
    {
        self.count
    }
}
