//! Which numbers are values of a type.
ghost use Rattle.std.specs.Prelude.{◌≡◌, ◌^◌, nat_lt, unwrap_or};
ghost use Rattle.tm_syntax.specs.Tree.View.{spec_tree};
ghost use Rattle.tm_syntax.specs.Design.Sizes.{type_size};
ghost use Rattle.tm_scope.specs.Types.{ty_of};
ghost use Rattle.tm_typing.specs.HasType.{IsSized};

use tm_design::type_size;
use tm_scope::{ExprType, Scopes};

/// Whether a number is a value of a type whose numbers have a width that they can have.
pub(crate) fn is_value(scopes: &Scopes, ty: ExprType<'_>, value: u64) -> bool
    ensures { IsSized (ty_of ty.entry) → result ≡ nat_lt value (type_size (spec_tree scopes.now) (ty_of ty.entry)) }
{
    match ty {
        ExprType::Bool => value < 2,
        ExprType::Uint(Some(bits)) => has_bits(bits, value),
        ExprType::Uint(None) => true,
        ExprType::Enum(_) => is_below(type_size(scopes, ty), value),
    }
}

// Whether a number has at most so many bits.
fn has_bits(bits: u64, value: u64) -> bool
    ensures { result ≡ nat_lt value (2 ^ bits) }
{
    bits >= 64 || value >> bits == 0
}

// Whether a number is below a size; 2^64 is `None`.
fn is_below(size: Option<u64>, value: u64) -> bool
    ensures { result ≡ nat_lt value (unwrap_or size (2 ^ 64)) }
{
    match size {
        Some(size) => value < size,
        None => true,
    }
}
