//! Numbers that are drawn, the same in each run.

/// Draws numbers by a linear congruence.
#[derive(Drop)]
pub struct Draw {
    last: u64,
}

impl Draw {
    /// Draws that begin at a seed.
    pub fn new(seed: u64) -> Draw {
        Draw { last: seed }
    }

    /// A number below a bound, and 0 where the bound is 0.
    pub fn below(&mut self, bound: usize) -> usize {
        self.last = self
            .last
            .wrapping_mul(6364136223846793005)
            .wrapping_add(1442695040888963407);
        let high = (self.last >> 33) as usize;
        if bound == 0 { 0 } else { high % bound }
    }
}
