//! A hasher of keys that are written as one number.
ghost use Rattle.std.specs.Prelude.{◌≡◌, slice_index};
ghost use Rattle.tm_dd.specs.Hasher.{taken};

use crate::node::FACTOR;
use std::hash::Hasher;

/// A hasher of keys that are written as one number of 64 bits, such as `mixed` gives: multiplicative hashing (Knuth
/// 1973).
///
/// Of each write it takes the first eight bytes, the lowest first, with zeros for those that are not there. It has no
/// seed, so whoever picks the keys can make them collide.
#[derive(Clone, Copy)]
pub struct NumberHasher {
    state: u64,
}

impl Default for NumberHasher {
    ghost is_default = { λ h. h.state ≡ 0 };

    fn default() -> NumberHasher {
        NumberHasher { state: 0 }
    }
}

impl Hasher for NumberHasher {
    ghost use Rattle.tm_dd.specs.Hasher.{written};

    ghost write = { written };

    ghost finish = { λ h. h.state };

    fn finish(&self) -> u64 {
        self.state
    }

    fn write(&mut self, bytes: &[u8]) {
        let number = u64::from_le_bytes([
            byte(bytes, 0),
            byte(bytes, 1),
            byte(bytes, 2),
            byte(bytes, 3),
            byte(bytes, 4),
            byte(bytes, 5),
            byte(bytes, 6),
            byte(bytes, 7),
        ]);
        *self = self.taking(number);
    }

    fn write_u64(&mut self, number: u64) {
        *self = self.taking(number);
    }
}

impl NumberHasher {
    // The hasher after one more number.
    fn taking(self, number: u64) -> NumberHasher
        ensures { result ≡ taken self number }
    {
        NumberHasher {
            state: self.state.wrapping_add(number).wrapping_mul(FACTOR),
        }
    }
}

// The byte at a place, or 0 behind the last one.
fn byte(bytes: &[u8], place: usize) -> u8
    ensures { result ≡ slice_index bytes.now place }
{
    match bytes.get(place) {
        Some(byte) => *byte,
        None => 0,
    }
}
