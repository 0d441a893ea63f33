//! Numbers side by side in one word.

use std::alloc::{AllocError, Global};

/// How many bits each of some numbers has, that stand side by side in a word: the first has its most significant bits.
#[derive(Drop)]
pub struct Fields {
    widths: Vec<u8>,
    /// How many bits all of them have.
    pub bits: u32,
}

/// The low bits of a word, as many as a width tells.
fn low_bits(word: u64, width: u8) -> u64 {
    let above = 1u64.checked_shl(u32::from(width)).unwrap_or(0);
    word & above.wrapping_sub(1)
}

impl Fields {
    /// Numbers of these widths.
    pub fn new(alloc: Global, widths: &[u8]) -> Result<Fields, AllocError> {
        let mut bits = 0u32;
        for width in widths {
            bits = bits.saturating_add(u32::from(*width));
        }
        Ok(Fields {
            widths: Vec::from_slice(alloc, widths)?,
            bits,
        })
    }

    /// How many words there are with bits for all numbers and no more.
    pub fn words(&self) -> u64 {
        1u64.checked_shl(self.bits).unwrap_or(0)
    }

    /// The numbers in a word.
    pub fn split(&self, alloc: Global, word: u64) -> Result<Vec<u64>, AllocError> {
        let mut numbers = Vec::new(alloc);
        let mut left = self.bits;
        for width in &self.widths {
            left = left.saturating_sub(u32::from(*width));
            numbers.push(low_bits(word.checked_shr(left).unwrap_or(0), *width))?;
        }
        Ok(numbers)
    }

    /// The word of some numbers.
    pub fn join(&self, numbers: &[u64]) -> u64 {
        let mut word = 0u64;
        for (width, number) in self.widths.iter().zip(numbers) {
            word = word.checked_shl(u32::from(*width)).unwrap_or(0) | *number;
        }
        word
    }

    /// The bits of a word, by place.
    pub fn bits_of(&self, alloc: Global, word: u64) -> Result<Vec<bool>, AllocError> {
        let mut bits = Vec::new(alloc);
        let mut left = self.bits;
        for _ in 0..self.bits {
            left = left.saturating_sub(1);
            bits.push(word.checked_shr(left).unwrap_or(0) & 1 == 1)?;
        }
        Ok(bits)
    }
}
