//! How many values a type has, and in how many bits they are written.
ghost use Rattle.std.specs.Prelude.{◌≡◌, ◌+◌, ◌-◌, ◌^◌, ◌≤◌, nat_lt, unwrap_or};
ghost use Rattle.std.specs.List.{position_or_len, range_with_len};
ghost use Rattle.tm_base.specs.Arithmetic.{IsWidth};
ghost use Rattle.tm_syntax.specs.declared.design.Ty.TheVariants as resolved;
ghost use Rattle.tm_syntax.specs.Tree.View.{spec_tree};
ghost use Rattle.tm_syntax.specs.Design.Sizes.{bits_of_number, type_bits, type_size};
ghost use Rattle.tm_scope.specs.Types.{ty_of};
ghost use Rattle.tm_typing.specs.HasType.{IsSized};

use tm_base::greatest;
use tm_scope::{ExprType, Scopes};

// The least count of bits from one on that a number needs, or 64.
fn bits_from(number: u64, count: u8) -> u8
    requires low { 1 ≤ count }
    requires high { count ≤ 64 }
    ensures bits { result
        ≡ count + position_or_len (λ c. nat_lt number (2 ^ c)) (range_with_len count (64 - count)) }
    ensures is_width { IsWidth result }
{
    if count >= 64 || number <= greatest(count) {
        count
    } else {
        bits_from(number, count + 1)
    }
}

/// The bits that a number needs, at least one.
pub fn bits_of_number(number: u64) -> u8
    ensures bits { result ≡ bits_of_number number }
    ensures is_width { IsWidth result }
{
    bits_from(number, 1)
}

// How many constants the enum of a name has.
fn count_of_constants(scopes: &Scopes, name: &[u8]) -> u64
    ensures { result ≡ type_size (spec_tree scopes.now) (resolved.Enum name.now) }
{
    match scopes.enum_number(name) {
        Some(number) => scopes.spec().enums[number].constants.len() as u64,
        None => 0,
    }
}

// How many numbers of a width there are; 2^64 is `None`.
fn count_of_numbers(width: u8) -> Option<u64>
    requires { IsWidth width }
    ensures { unwrap_or result (2 ^ 64) ≡ 2 ^ width }
{
    greatest(width).checked_add(1)
}

/// How many values a type has whose numbers have a width that they can have; 2^64 is `None`. In constant time.
pub fn type_size(scopes: &Scopes, ty: ExprType<'_>) -> Option<u64>
    requires { IsSized (ty_of ty) }
    ensures { unwrap_or result (2 ^ 64) ≡ type_size (spec_tree scopes.now) (ty_of ty.entry) }
{
    match ty {
        ExprType::Bool => Some(2),
        ExprType::Uint(bits) => count_of_numbers(bits.unwrap_or(64) as u8),
        ExprType::Enum(name) => Some(count_of_constants(scopes, name)),
    }
}

/// The bits of a type whose numbers have a width that they can have: as many as its greatest value needs. In constant
/// time.
pub fn type_bits(scopes: &Scopes, ty: ExprType<'_>) -> u8
    requires { IsSized (ty_of ty) }
    ensures bits { result ≡ type_bits (spec_tree scopes.now) (ty_of ty.entry) }
    ensures is_width { IsWidth result }
{
    match ty {
        ExprType::Bool => 1,
        ExprType::Uint(bits) => bits.unwrap_or(64) as u8,
        ExprType::Enum(name) => bits_of_number(count_of_constants(scopes, name).saturating_sub(1)),
    }
}
