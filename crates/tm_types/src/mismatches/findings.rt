//! Which operands fit their operator.
ghost use Rattle.std.specs.Prelude.{◌≡◌, List};
ghost use Rattle.std.specs.Option.{option_map};
ghost use Rattle.tm_base.specs.declared.place.Place as stands;
ghost use Rattle.tm_syntax.specs.Faults.Operands as text;
ghost use Rattle.tm_scope.specs.Types.{ty_of};
ghost use Rattle.tm_types.specs.Firsts.{first_of};
ghost use Rattle.tm_types.specs.Findings.{finding_of};

use tm_base::Place;
use tm_scope::ExprType;
use tm_syntax::tree::{BinaryOperator, UnaryOperator};

/// What an expression is found to be: at fault within, without a type of its own, or of a type.
#[derive(Clone, Copy)]
pub(crate) enum Finding<'a> {
    AtFault,
    Untyped,
    Typed(ExprType<'a>),
}

/// Whether two types are one.
pub(crate) fn same_type(a: ExprType, b: ExprType) -> bool
    ensures { result ≡ text.same_type (ty_of a.entry) (ty_of b.entry) }
{
    match (a, b) {
        (ExprType::Bool, ExprType::Bool) => true,
        (ExprType::Uint(m), ExprType::Uint(n)) => m == n,
        (ExprType::Enum(m), ExprType::Enum(n)) => m == n,
        _ => false,
    }
}

/// Whether a type is one of numbers.
pub(crate) fn is_uint(ty: ExprType) -> bool
    ensures { result ≡ text.is_uint (ty_of ty.entry) }
{
    match ty {
        ExprType::Bool => false,
        ExprType::Uint(_) => true,
        ExprType::Enum(_) => false,
    }
}

impl<'a> Finding<'a> {
    /// What an expression of this first fault and this type of its own is found to be: one that holds a fault has no
    /// type.
    pub(crate) fn of(first: Option<Place>, ty: Option<ExprType<'a>>) -> Finding<'a>
        ensures { (within : List stands.Place) → first ≡ first_of within
            → finding_of result ≡ text.finding within (option_map ty_of ty.entry) }
    {
        match (first, ty) {
            (Some(_), _) => Finding::AtFault,
            (None, Some(ty)) => Finding::Typed(ty),
            (None, None) => Finding::Untyped,
        }
    }

    /// Whether this may be where a bool is wanted.
    pub(crate) fn may_be_bool(self) -> bool
        ensures { result ≡ text.may_be_bool (finding_of self.entry) }
    {
        match self {
            Finding::AtFault => true,
            Finding::Untyped => false,
            Finding::Typed(ty) => same_type(ExprType::Bool, ty),
        }
    }

    /// Whether this may be where a number is wanted.
    pub(crate) fn may_be_uint(self) -> bool
        ensures { result ≡ text.may_be_uint (finding_of self.entry) }
    {
        match self {
            Finding::AtFault => true,
            Finding::Untyped => true,
            Finding::Typed(ty) => is_uint(ty),
        }
    }

    /// Whether this is a number with a type of its own.
    pub(crate) fn is_number_typed(self) -> bool
        ensures { result ≡ text.is_number_typed (finding_of self.entry) }
    {
        match self {
            Finding::AtFault => true,
            Finding::Untyped => false,
            Finding::Typed(ty) => is_uint(ty),
        }
    }

    /// Whether this is a value of the type that is asked for.
    pub(crate) fn is_value_of(self, asked: ExprType<'a>) -> bool
        ensures { result ≡ text.value_fits (ty_of asked.entry) (finding_of self.entry) }
    {
        match self {
            Finding::AtFault => true,
            Finding::Untyped => is_uint(asked),
            Finding::Typed(ty) => same_type(asked, ty),
        }
    }
}

/// Whether two may be of one type: what has none of its own takes that of the other one, if it is one of numbers.
pub(crate) fn are_alike(a: Finding, b: Finding) -> bool
    ensures { result ≡ text.are_alike (finding_of a.entry) (finding_of b.entry) }
{
    match (a, b) {
        (Finding::Untyped, Finding::Typed(ty)) => is_uint(ty),
        (Finding::Typed(ty), Finding::Untyped) => is_uint(ty),
        (Finding::Typed(a), Finding::Typed(b)) => same_type(a, b),
        _ => true,
    }
}

// Whether two may be compared: one of them has a type.
fn are_comparable(a: Finding, b: Finding) -> bool
    ensures { result ≡ text.are_comparable (finding_of a.entry) (finding_of b.entry) }
{
    match (a, b) {
        (Finding::Untyped, Finding::Untyped) => false,
        _ => are_alike(a, b),
    }
}

// Whether two may be added: both are numbers, of one width.
fn are_addable(a: Finding, b: Finding) -> bool
    ensures { result ≡ text.are_addable (finding_of a.entry) (finding_of b.entry) }
{
    a.may_be_uint() && b.may_be_uint() && are_alike(a, b)
}

// Whether two may be ordered.
fn are_ordered(a: Finding, b: Finding) -> bool
    ensures { result ≡ text.are_ordered (finding_of a.entry) (finding_of b.entry) }
{
    a.may_be_uint() && b.may_be_uint() && are_comparable(a, b)
}

/// Whether an operand fits its operator.
pub(crate) fn operand_fits(op: UnaryOperator, e: Finding) -> bool
    ensures { result ≡ text.operand_fits op (finding_of e.entry) }
{
    match op {
        UnaryOperator::Complement => e.may_be_uint(),
        UnaryOperator::Not => e.may_be_bool(),
    }
}

/// Whether two operands fit the operator between them.
pub(crate) fn operands_fit(op: BinaryOperator, a: Finding, b: Finding) -> bool
    ensures { result ≡ text.operands_fit op (finding_of a.entry) (finding_of b.entry) }
{
    match op {
        BinaryOperator::Equal | BinaryOperator::NotEqual => are_comparable(a, b),
        BinaryOperator::Less
        | BinaryOperator::LessEqual
        | BinaryOperator::Greater
        | BinaryOperator::GreaterEqual => are_ordered(a, b),
        BinaryOperator::Add
        | BinaryOperator::Subtract
        | BinaryOperator::And
        | BinaryOperator::Or
        | BinaryOperator::Xor => are_addable(a, b),
        BinaryOperator::AndAlso | BinaryOperator::OrElse => a.may_be_bool() && b.may_be_bool(),
    }
}

/// Whether a test and two branches fit `? :`.
pub(crate) fn branches_fit(e: Finding, a: Finding, b: Finding) -> bool
    ensures { result ≡ text.branches_fit (finding_of e.entry) (finding_of a.entry) (finding_of b.entry) }
{
    e.may_be_bool() && are_alike(a, b)
}
