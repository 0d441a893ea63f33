//! Which numbers fit the type or the place in which they stand.
ghost use Rattle.std.specs.Prelude.{◌≡◌, ◌^◌, min, true, nat_lt, unwrap_or};
ghost use Rattle.std.specs.Option.{option_map_or};
ghost use Rattle.tm_syntax.specs.Faults.Literals.{is_below, is_from_to, number_fits, shift_fits};
ghost use Rattle.tm_scope.specs.Types.{ty_of};

use tm_scope::ExprType;
use tm_syntax::tree::Num;

/// The greatest width in bits.
pub(crate) const GREATEST_WIDTH: u64 = 64;

/// The greatest length of an array.
pub(crate) const GREATEST_LENGTH: u64 = 256;

// Whether a number lies from one number to another one.
pub(crate) fn is_from_to(low: u64, high: u64, n: Num) -> bool
    ensures { result ≡ is_from_to low high n }
{
    match n.value {
        Some(value) => low <= value && value <= high,
        None => false,
    }
}

// Whether a value is below 2 to the number of bits; all widths from 64 on hold each value.
fn is_within_width(bits: Option<u64>, value: u64) -> bool
    ensures { result ≡ nat_lt value (2 ^ min (unwrap_or bits (2 ^ 64)) 64) }
{
    match bits {
        Some(bits) => bits >= GREATEST_WIDTH || value < 1 << bits,
        None => true,
    }
}

// Whether a number fits a type.
pub(crate) fn number_fits(ty: ExprType, n: Num) -> bool
    ensures { result ≡ number_fits (ty_of ty.entry) n }
{
    let Some(value) = n.value else {
        return false;
    };
    match ty {
        ExprType::Bool => true,
        ExprType::Uint(bits) => is_within_width(bits, value),
        ExprType::Enum(_) => true,
    }
}

// Whether a shift is by less than the width.
pub(crate) fn shift_fits(ty: ExprType, n: Num) -> bool
    ensures { result ≡ shift_fits (ty_of ty.entry) n }
{
    let Some(value) = n.value else {
        return false;
    };
    match ty {
        ExprType::Bool => true,
        ExprType::Uint(None) => true,
        ExprType::Uint(Some(bits)) => value < bits,
        ExprType::Enum(_) => true,
    }
}

// Whether an index is below a length, where there is one.
pub(crate) fn is_below(length: Option<Num>, n: Num) -> bool
    ensures { result ≡ is_below length n }
{
    let Some(value) = n.value else {
        return false;
    };
    match length {
        Some(length) => is_below_value(length.value, value),
        None => true,
    }
}

// Whether a value is below another one, where this one is there.
fn is_below_value(bound: Option<u64>, value: u64) -> bool
    ensures { result ≡ option_map_or (λ s. nat_lt value s) bound true }
{
    match bound {
        Some(bound) => value < bound,
        None => true,
    }
}
