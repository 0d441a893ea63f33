//! The types of expressions, by the text alone.
ghost use Rattle.std.specs.Prelude.{◌≡◌};
ghost use Rattle.std.specs.Option.{option_map};
ghost use Rattle.tm_syntax.specs.Scopes.Names.{type_of};
ghost use Rattle.tm_syntax.specs.Scopes.Types.{either_type};
ghost use Rattle.tm_scope.specs.Types.{ty_of};
ghost use Rattle.tm_scope.specs.Inner.Operators.{joins_numbers};

use tm_syntax::tree::{BinaryOperator, TypeName};

/// A type, resolved. The name of an enum stays in the text. All widths from 2^64 on are one, which is `None`.
#[derive(Clone, Copy, PartialEq, Eq, Debug)]
pub enum ExprType<'a> {
    Bool,
    Uint(Option<u64>),
    Enum(&'a [u8]),
}

impl<'a> ExprType<'a> {
    /// The type that a type of the text is.
    pub fn of(written: &'a TypeName) -> ExprType<'a>
        ensures { ty_of result ≡ type_of written.now }
    {
        match written {
            TypeName::Bool(_) => ExprType::Bool,
            TypeName::Uint(_, bits) => ExprType::Uint(bits.value),
            TypeName::Enum(name) => ExprType::Enum(name.text.as_bytes()),
        }
    }
}

// The first of two types that is there.
pub(crate) fn either_type<'a>(
    first: Option<ExprType<'a>>,
    second: Option<ExprType<'a>>,
) -> Option<ExprType<'a>>
    ensures { option_map ty_of result ≡ either_type (option_map ty_of first.entry) (option_map ty_of second.entry) }
{
    match first {
        Some(ty) => Some(ty),
        None => second,
    }
}

// Whether the type of an operator's operands is its own: it is no bool.
pub(crate) fn joins_numbers(op: BinaryOperator) -> bool
    ensures { result ≡ joins_numbers op }
{
    match op {
        BinaryOperator::Add
        | BinaryOperator::Subtract
        | BinaryOperator::And
        | BinaryOperator::Or
        | BinaryOperator::Xor => true,
        BinaryOperator::Equal
        | BinaryOperator::NotEqual
        | BinaryOperator::Less
        | BinaryOperator::LessEqual
        | BinaryOperator::Greater
        | BinaryOperator::GreaterEqual
        | BinaryOperator::AndAlso
        | BinaryOperator::OrElse => false,
    }
}
