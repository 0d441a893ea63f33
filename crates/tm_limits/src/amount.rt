//! Counts that stop at the greatest number of 64 bits, which is far above every limit.
ghost use Rattle.std.specs.Prelude.{◌≡◌, ◌+◌, ◌*◌, ℕ, max};
ghost use Rattle.tm_limits.specs.Amount.{capped};

// The sum of two counts.
pub(crate) fn sum(first: u64, second: u64) -> u64
    ensures { (m n : ℕ) → first ≡ capped m → second ≡ capped n → result ≡ capped (m + n) }
{
    first.saturating_add(second)
}

// The product of two counts.
pub(crate) fn product(first: u64, second: u64) -> u64
    ensures { (m n : ℕ) → first ≡ capped m → second ≡ capped n → result ≡ capped (m * n) }
{
    first.saturating_mul(second)
}

// The greater of two counts.
pub(crate) fn greater(first: u64, second: u64) -> u64
    ensures { (m n : ℕ) → first ≡ capped m → second ≡ capped n → result ≡ capped (max m n) }
{
    first.max(second)
}
