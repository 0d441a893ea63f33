//! Which numbers are values of a type.
ghost use Rattle.std.specs.Prelude.{◌≡◌, nat_lt};
ghost use Rattle.tm_syntax.specs.Tree.View.{spec_tree};
ghost use Rattle.tm_syntax.specs.Design.Sizes.{type_size};
ghost use Rattle.tm_typing.specs.HasType.{IsSized};

use tm_design::type_size;
use tm_scope::{ExprType, Scopes};
use tm_syntax::design::Ty;

/// Whether a number is a value of a type whose numbers have a width that they can have. In constant time, and takes no
/// memory.
pub(crate) fn is_value(scopes: &Scopes, ty: &Ty, value: u64) -> bool
    requires { IsSized ty.now }
    ensures { result ≡ nat_lt value (type_size (spec_tree scopes.now) ty.now) }
{
    match type_size(scopes, ExprType::of_variable(ty)) {
        Some(size) => value < size,
        None => true,
    }
}
