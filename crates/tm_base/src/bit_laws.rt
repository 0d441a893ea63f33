//! Arithmetic on unsigned numbers of 1 to 64 bits: modulo 2 to the width.
ghost use Rattle.std.specs.Prelude.{◌≡◌, ◌<◌, ◌^◌, ℕ};
ghost use Rattle.tm_base.specs.Bits.{number_of, bits_of};

/// A number is the number of its bits.
#[tactic(auto, using(crate::proofs::NumberBits::number_is_its_bits))]
pub fn numbers_are_their_bits()
    ensures { (w n : ℕ) → n < 2 ^ w → number_of (bits_of w n) ≡ n }
{}
