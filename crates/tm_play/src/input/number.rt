//! Numbers in words and in a text of choices.
ghost use Rattle.std.specs.Prelude.{◌≡◌, ℕ, List, [], ◌∷◌, ◌<◌, ◌^◌, map, IfOk, IfSome};
ghost use Rattle.std.specs.Option.{option_map};
ghost use Rattle.tm_play.specs.Choices.{is_shortest as has_no_needless_zero, number_of, numbers_of};
ghost use Rattle.tm_play.specs.Numbers.{digits_after};

use std::alloc::{AllocError, Global};

/// The number that a digit makes behind others, where it is one and the number is below 2^64.
fn append_digit(n: u64, digit: u8) -> Option<u64>
    ensures longer { result ≡ digits_after n (digit ∷ []) }
    ensures below { IfSome result (λ m. m < 2 ^ 64) }
{
    if !digit.is_ascii_digit() {
        return None;
    }
    let value = u64::from(digit - b'0');
    if n <= (u64::MAX - value) / 10 {
        Some(n * 10 + value)
    } else {
        None
    }
}

/// The number that decimal digits write, where it is below 2^64.
pub fn read_digits(field: &[u8]) -> Option<u64>
    ensures { result ≡ digits_after 0 field.now }
{
    let mut n = 0;
    for digit in field {
        let Some(longer) = append_digit(n, *digit) else {
            return None;
        };
        n = longer;
    }
    Some(n)
}

fn is_shortest(field: &[u8]) -> bool
    ensures { result ≡ has_no_needless_zero field.now }
{
    match field {
        [] => false,
        [_] => true,
        [first, ..] => *first != b'0',
    }
}

/// A number: decimal digits without a zero before them, below 2^64.
pub fn read_number(field: &[u8]) -> Option<u64>
    ensures { result ≡ number_of field.now }
{
    if is_shortest(field) {
        read_digits(field)
    } else {
        None
    }
}

/// The numbers of fields that are all numbers.
pub fn read_numbers(alloc: Global, fields: &[&[u8]]) -> Result<Option<Vec<u64>>, AllocError>
    ensures { IfOk result (λ r. option_map (λ v. v.items) r ≡ numbers_of (map (λ f. f.now) fields.now)) }
{
    let mut numbers = Vec::new(alloc);
    for field in fields {
        let Some(n) = read_number(field) else {
            return Ok(None);
        };
        numbers.push(n)?;
    }
    Ok(Some(numbers))
}
