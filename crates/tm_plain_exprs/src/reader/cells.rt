//! The cells that the paths of a body mean, and what is put into them.
ghost use Rattle.std.specs.Prelude.{◌≡◌, OnOk, Some, nat_lt};
ghost use Rattle.std.specs.Option.{option_and_then, option_map};
ghost use Rattle.tm_syntax.specs.Scopes.Context.{Context};
ghost use Rattle.tm_syntax.specs.Scopes.Types.{named_type};
ghost use Rattle.tm_syntax.specs.Design.{DesignTree};
ghost use Rattle.tm_syntax.specs.Design.Cells.{cell};
ghost use Rattle.tm_syntax.specs.Design.Sizes.{type_size};
ghost use Rattle.tm_scope.specs.Cells.{HasCells, IsCellNumber, cell_at, scope_of};
ghost use Rattle.tm_scope.specs.Types.{ty_of};
ghost use Rattle.tm_sem.specs.Run.{asked_by, put_in};
ghost use Rattle.tm_sem.specs.Value as run;
ghost use Rattle.tm_typing.specs.HasType.{IsSized};
ghost use Rattle.tm_design.specs.StepCells.{AreApart};
ghost use Rattle.tm_plain_exprs.specs.Kept.{Keeps};
ghost use Rattle.tm_design.specs.Typed.{context_at};

use crate::reader::Reader;
use crate::reader::sizes::is_value;
use crate::store::Store;
use std::alloc::AllocError;
use tm_scope::{CellNumber, ExprType};
use tm_syntax::tree::Ident;

impl<'a> Reader<'a> {
    /// The cell that a path means, with the index of an element where there is one. Linear in the path.
    pub fn cell(&self, path: &[Ident], index: Option<u64>) -> Option<CellNumber>
        ensures is_there { IsCellNumber self.now.tables self.now.at result }
        ensures cell { (d : DesignTree) → HasCells self.now.tables d →
            option_and_then (cell_at self.now.tables self.now.at) result
            ≡ cell d (scope_of self.now.at) path.now index }
    {
        self.scope.cell(path, index)
    }

    /// The type of what a path means: a parameter or local before a variable, or an array's elements.
    pub fn named_type(&self, path: &[Ident]) -> Option<ExprType<'a>>
        ensures { (c : Context) → context_at self.now ≡ Some c → option_map ty_of result ≡ named_type c path.now }
    {
        self.scope.named_type(path)
    }

    /// Whether a number is a value of the type of a cell; where there is no cell, whether it is one of a bool.
    pub fn takes(&self, cell: Option<CellNumber>, value: u64) -> bool
        ensures { (d : DesignTree) → HasCells self.now.tables d →
            IsSized (asked_by d (option_and_then (cell_at self.now.tables self.now.at) cell)) →
            result ≡ nat_lt value (type_size d.spec
            (asked_by d (option_and_then (cell_at self.now.tables self.now.at) cell))) }
    {
        is_value(self.scopes, self.asked_by(cell), value)
    }

    // The type that a target asks for.
    fn asked_by(&self, cell: Option<CellNumber>) -> ExprType<'_>
        ensures { (d : DesignTree) → HasCells self.now.tables d →
            ty_of result ≡ asked_by d (option_and_then (cell_at self.now.tables self.now.at) cell) }
    {
        match cell {
            Some(cell) => self.scope.cell_type(cell).unwrap_or(ExprType::Bool),
            None => ExprType::Bool,
        }
    }

    /// Puts a value into a cell, if there is one. `AllocError` is want of memory.
    pub fn put(
        &self,
        store: &mut Store,
        cell: Option<CellNumber>,
        value: u64,
    ) -> Result<(), AllocError>
        requires { IsCellNumber self.now.tables self.now.at cell }
        ensures { OnOk result ((m : run.Memory) → AreApart self.now.tables → Keeps self.now.tables store.old m →
            Keeps self.now.tables store.new
            (put_in m (option_and_then (cell_at self.now.tables self.now.at) cell) value)) }
    {
        match cell {
            Some(cell) => store.put(self.at, cell, value),
            None => Ok(()),
        }
    }
}
