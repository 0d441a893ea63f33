//! The terms of cells and constants.
ghost use Rattle.std.specs.Prelude.{◌≡◌, ◌^◌, ◌<◌, IfOk, Some};
ghost use Rattle.tm_syntax.specs.Tree as trees;
ghost use Rattle.tm_scope.specs.Types.{ty_of};
ghost use Rattle.tm_typing.specs.HasType.{IsSized};
ghost use Rattle.tm_flat_exprs.specs.Kept.{type_at};
ghost use Rattle.tm_flat_exprs.specs.Made.{Makes};
ghost use Rattle.tm_design.specs.Typed.{HasTypeAt};
ghost use Rattle.tm_flat_exprs.specs.Valued.{CellHasType, Finds, FindsCell, FindsTerm, IsReady, bits_in};

use crate::gates::make;
use crate::memory::TermMemory;
use crate::reader::TermReader;
use crate::valued::Valued;
use std::alloc::AllocError;
use tm_scope::{CellNumber, ExprType};
use tm_syntax::tree::Ident;
use tm_term::{Term, TermId, Terms};

impl<'s> TermReader<'s> {
    /// The term of a number of a type.
    pub fn number_term(
        &self,
        terms: &mut Terms,
        number: u64,
        ty: ExprType<'s>,
    ) -> Result<TermId, AllocError>
        requires sized { IsSized (ty_of ty) }
        requires below { number < 2 ^ bits_in self.now (ty_of ty) }
        ensures { IfOk result (λ id.
            Makes terms.old terms.new (bits_in self.now (ty_of ty.entry)) id (λ u v. number)) }
    {
        let width = self.bits(ty);
        let id = make(terms, Term::Const(width, number))?;
        Ok(id)
    }

    // The term in the cell of a number, which has this type; a cell in which there is none has the value 0.
    fn term_in(
        &self,
        terms: &mut Terms,
        memory: &TermMemory,
        cell: CellNumber,
        ty: ExprType<'s>,
    ) -> Result<TermId, AllocError>
        requires sized { IsSized (ty_of ty) }
        requires typed { type_at self.now.tables self.now.at cell ≡ Some (ty_of ty) }
        requires ready { IsReady self.now terms.old memory.now }
        ensures { IfOk result (λ id.
            FindsTerm self.now memory.now (ty_of ty.entry) cell terms.old terms.new id) }
    {
        let width = self.bits(ty);
        let id = memory.read(terms, self.at, cell, width)?;
        Ok(id)
    }

    /// The term in the cell that a path means, with the index of an element where there is one.
    pub(crate) fn cell_term(
        &self,
        terms: &mut Terms,
        memory: &TermMemory,
        path: &[Ident],
        index: Option<u64>,
        ty: ExprType<'s>,
    ) -> Result<Option<TermId>, AllocError>
        requires sized { IsSized (ty_of ty) }
        requires typed { CellHasType self.now path.now index (ty_of ty) }
        requires ready { IsReady self.now terms.old memory.now }
        ensures { IfOk result
            (FindsCell self.now memory.now (ty_of ty.entry) path.now index terms.old terms.new) }
    {
        match self.scope.cell(path, index) {
            Some(cell) => {
                let id = self.term_in(terms, memory, cell, ty)?;
                Ok(Some(id))
            }
            None => Ok(None),
        }
    }

    /// The term of what a path means: of its cell, or of the enum constant.
    pub(crate) fn path_term(
        &self,
        terms: &mut Terms,
        memory: &TermMemory,
        path: &[Ident],
        asked: ExprType<'s>,
    ) -> Result<Valued, AllocError>
        requires typed { HasTypeAt self.now (ty_of asked) (trees.path path.now) }
        requires ready { IsReady self.now terms.old memory.now }
        ensures { IfOk result
            (Finds self.now memory.now (ty_of asked.entry) (trees.path path.now) terms.old terms.new) }
    {
        match self.cell_term(terms, memory, path, None, asked)? {
            Some(value) => Ok(Valued {
                value,
                overrun: None,
            }),
            None => {
                let number = self.constant(path);
                let value = self.number_term(terms, number, asked)?;
                Ok(Valued {
                    value,
                    overrun: None,
                })
            }
        }
    }
}
