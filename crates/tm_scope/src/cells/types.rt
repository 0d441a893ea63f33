//! The types of expressions and cells, and the lengths of arrays, in a body of an instance.
ghost use Rattle.std.specs.Prelude.{◌≡◌, ◌^◌, unwrap_or};
ghost use Rattle.std.specs.Option.{option_and_then, option_map};
ghost use Rattle.tm_syntax.specs.Tree.View.{expr_tree};
ghost use Rattle.tm_syntax.specs.Scopes.Types.{named_type};
ghost use Rattle.tm_syntax.specs.Design.{DesignTree};
ghost use Rattle.tm_syntax.specs.Design.Cells.{cell_type};
ghost use Rattle.tm_syntax.specs.Design.Scope.{context, length_in, type_in};
ghost use Rattle.tm_syntax.specs.Design.Sizes.{width};
ghost use Rattle.tm_scope.specs.Cells.{HasCells, cell_at, scope_of, slot_in};
ghost use Rattle.tm_scope.specs.Types.{ty_of};

use crate::cells::scope::CellScope;
use crate::cells::site_body::CellNumber;
use crate::members::SlotNumber;
use crate::types::ExprType;
use tm_syntax::design::Ty;
use tm_syntax::tree::{Expr, Ident};

impl<'a> ExprType<'a> {
    /// The type that a state variable has.
    pub fn of_variable(ty: &'a Ty) -> ExprType<'a>
        ensures { ty_of result ≡ ty.now }
    {
        match ty {
            Ty::Bool => ExprType::Bool,
            Ty::Uint(bits) => ExprType::Uint(Some(u64::from(*bits))),
            Ty::Enum(name) => ExprType::Enum(name.as_bytes()),
        }
    }

    /// The width of the arithmetic on a type: all widths from 2^64 on are one, which is `None`.
    pub fn width(self) -> Option<u64>
        ensures { unwrap_or result (2 ^ 64) ≡ width (ty_of self.entry) }
    {
        match self {
            ExprType::Bool => Some(1),
            ExprType::Uint(bits) => bits,
            ExprType::Enum(_) => Some(64),
        }
    }
}

impl<'s> CellScope<'s> {
    /// An expression's own type: a number has none, nor has what joins numbers alone. Linear in the expression, and as
    /// deep as it nests.
    pub fn own_type(&self, e: &Expr) -> Option<ExprType<'s>>
        ensures { (d : DesignTree) → HasCells self.now.tables d →
            option_map ty_of result ≡ type_in d (scope_of self.now.at) (expr_tree e.now) }
    {
        self.names.own_type(e)
    }

    /// The type of what a path means: a parameter or local before a variable, or an array's elements.
    pub fn named_type(&self, path: &[Ident]) -> Option<ExprType<'s>>
        ensures { (d : DesignTree) → HasCells self.now.tables d →
            option_map ty_of result
            ≡ option_and_then (λ c. named_type c path.now) (context d (scope_of self.now.at)) }
    {
        self.names.named_type(path)
    }

    /// The length of the array that a path means. A length of 2^64 or more counts as 0.
    pub fn array_length(&self, path: &[Ident]) -> Option<u64>
        ensures { (d : DesignTree) → HasCells self.now.tables d →
            result ≡ length_in d (scope_of self.now.at) path.now }
    {
        self.names.array_length(path)
    }

    /// The type of what the cell of a number holds, in constant time.
    pub fn cell_type(&self, cell: CellNumber) -> Option<ExprType<'s>>
        ensures { (d : DesignTree) → HasCells self.now.tables d →
            option_map ty_of result
            ≡ option_and_then (cell_type d) (cell_at self.now.tables self.now.at cell) }
    {
        match cell {
            CellNumber::State(number) => {
                let var = self.cells.var(number)?;
                Some(ExprType::of_variable(&var.ty))
            }
            CellNumber::Step(slot) => self.slot_type(slot),
        }
    }

    // The type of the parameter or local of a number.
    fn slot_type(&self, slot: SlotNumber) -> Option<ExprType<'s>>
        ensures { option_map ty_of result
            ≡ option_map (λ s. s.ty) (slot_in self.now.tables self.now.at slot) }
    {
        self.names.numbered_type(slot)
    }
}
