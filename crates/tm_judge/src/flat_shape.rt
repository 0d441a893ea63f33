//! What certificates have to fit for a design that is given as guarded updates.
ghost use Rattle.std.specs.Prelude.{◌≡◌, sum};
ghost use Rattle.tm_flat.specs.Flat.{flat_terms};
ghost use Rattle.tm_judge.specs.FlatShape.{flat_shape, capped, flat_bits};

use tm_cert::{CertShape, Kind};
use tm_flat::Flat;

/// How many inputs stand behind those of a state: 64 bits of choices and 64 bits of arguments.
const CHOICES_AND_ARGUMENTS: usize = 128;

/// What a certificate of a wanted kind has to fit. Linear in the inputs, and takes no memory.
pub(crate) fn shape_of(flat: &Flat, wanted: Kind) -> CertShape
    ensures { result ≡ flat_shape (flat_terms flat.now) wanted }
{
    CertShape {
        bits: state_bits(flat),
        goals: capped_count(flat.goals.len()),
        fairs: capped_count(flat.fairs.len()),
        wanted,
    }
}

/// How many bits a state has. Linear in the inputs, and takes no memory.
pub(crate) fn state_bits(flat: &Flat) -> u32
    ensures { result ≡ capped (flat_bits (flat_terms flat.now)) }
{
    let widths = flat.widths.as_slice();
    let count = widths.len().saturating_sub(CHOICES_AND_ARGUMENTS);
    sum_of(&widths[..count])
}

// The sum of some widths, which stops at the greatest number of 32 bits.
fn sum_of(widths: &[u8]) -> u32
    ensures { result ≡ capped (sum widths.now) }
{
    let mut bits = 0u32;
    for width in widths {
        bits = bits.saturating_add(u32::from(*width));
    }
    bits
}

// A count, which stops at the greatest number of 32 bits.
fn capped_count(count: usize) -> u32
    ensures { result ≡ capped count }
{
    count.min(u32::MAX as usize) as u32
}
