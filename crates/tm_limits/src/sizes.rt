//! The bits of types.
ghost use Rattle.std.specs.Prelude.{◌≡◌, ◌-◌, ℕ};
ghost use Rattle.tm_syntax.specs.Design.Sizes.{bits_of_number, type_bits, type_size};
ghost use Rattle.tm_syntax.specs.declared.design.Ty.TheVariants as types;
ghost use Rattle.tm_scope.specs.Types.{ty_of};
ghost use Rattle.tm_syntax.specs.Tree.View.{spec_tree};
ghost use Rattle.tm_limits.specs.Amount.{capped};

use tm_scope::{ExprType, Scopes};

/// The bits that a number needs, at least one.
pub(crate) fn bits_of_number(number: u64) -> u64
    ensures { (n : ℕ) → number ≡ capped n → result ≡ bits_of_number n }
{
    for bits in 1..64 {
        if number >> bits == 0 {
            return bits;
        }
    }
    64
}

/// The bits of a type.
pub(crate) fn type_bits(scopes: &Scopes, ty: ExprType) -> u64
    ensures { result ≡ capped (type_bits (spec_tree scopes.now) (ty_of ty.entry)) }
{
    match ty {
        ExprType::Bool => 1,
        ExprType::Uint(bits) => bits.unwrap_or(u64::MAX),
        ExprType::Enum(name) => bits_of_number(greatest_constant(scopes, name)),
    }
}

// The greatest value of the enum of a name, 0 where there is none.
fn greatest_constant(scopes: &Scopes, name: &[u8]) -> u64
    ensures { result ≡ capped (type_size (spec_tree scopes.now) (types.Enum name.now) - 1) }
{
    let enums = scopes.spec().enums.as_slice();
    match scopes.enum_number(name) {
        Some(number) => (enums[number].constants.len() as u64).saturating_sub(1),
        None => 0,
    }
}
