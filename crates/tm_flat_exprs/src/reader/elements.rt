//! The terms of elements of arrays.
ghost use Rattle.std.specs.Prelude.{◌≡◌, ◌^◌, ◌<◌, ◌≤◌, ℕ, IfOk, Some, min, nat_le};
ghost use Rattle.tm_syntax.specs.Tree as trees;
ghost use Rattle.tm_scope.specs.Types.{ty_of};
ghost use Rattle.tm_base.specs.Arithmetic.{IsWidth};
ghost use Rattle.tm_term.specs.Table.{IsKnown, IsSound, width_of};
ghost use Rattle.tm_term.specs.Value.{value_of};
ghost use Rattle.tm_typing.specs.HasType.{IsSized};
ghost use Rattle.tm_flat.specs.Steps.{IsTerm};
ghost use Rattle.tm_flat_exprs.specs.Made.{MakesTruth};
ghost use Rattle.tm_design.specs.Typed.{HasTypeAt};
ghost use Rattle.tm_flat_exprs.specs.Valued.{CellHasType, Finds, FindsElement, FindsElements, IsOneMoreElement, IsReady};
ghost use Rattle.tm_flat_exprs.specs.Valued.{bits_in};

use crate::gates::{denial, make};
use crate::memory::TermMemory;
use crate::reader::TermReader;
use crate::valued::Valued;
use std::alloc::AllocError;
use tm_base::greatest;
use tm_scope::ExprType;
use tm_syntax::tree::{Ident, Num};
use tm_term::{Term, TermId, Terms};

/// How many elements an index of a width can number in an array of a length.
pub(crate) fn reachable(width: u8, length: u64) -> u64
    requires { IsWidth width }
    ensures { result ≡ min length (2 ^ width) }
{
    let most = greatest(width);
    if length <= most { length } else { most + 1 }
}

/// Whether an index is not below the length of its array: never, where all numbers of its width are.
pub(crate) fn past_end(
    terms: &mut Terms,
    index: TermId,
    length: u64,
) -> Result<Option<TermId>, AllocError>
    requires known { IsKnown terms.old index }
    requires sound { IsSound terms.old }
    ensures { IfOk result (λ id. MakesTruth terms.old terms.new id (λ u v. nat_le length (value_of u v index))) }
{
    let width = terms.width(index);
    if length > greatest(width) {
        return Ok(None);
    }
    let end = make(terms, Term::Const(width, length))?;
    let within = make(terms, Term::Less(index, end))?;
    let past = denial(terms, within)?;
    Ok(Some(past))
}

impl<'s> TermReader<'s> {
    /// The term of the element of a number; where there is none it is 0.
    pub fn element_at(
        &self,
        terms: &mut Terms,
        memory: &TermMemory,
        path: &[Ident],
        index: u64,
        ty: ExprType<'s>,
    ) -> Result<TermId, AllocError>
        requires sized { IsSized (ty_of ty) }
        requires typed { CellHasType self.now path.now (Some index) (ty_of ty) }
        requires ready { IsReady self.now terms.old memory.now }
        ensures { IfOk result
            (FindsElement self.now memory.now (ty_of ty.entry) path.now index terms.old terms.new) }
    {
        match self.cell_term(terms, memory, path, Some(index), ty)? {
            Some(id) => Ok(id),
            None => {
                let zero = self.number_term(terms, 0, ty)?;
                Ok(zero)
            }
        }
    }

    // The term of the element that a term numbers, where this is one more number beside those of the others.
    fn one_more_element(
        &self,
        terms: &mut Terms,
        memory: &TermMemory,
        path: &[Ident],
        number: u64,
        index: TermId,
        others: TermId,
        ty: ExprType<'s>,
    ) -> Result<TermId, AllocError>
        requires sized { IsSized (ty_of ty) }
        requires typed { CellHasType self.now path.now (Some number) (ty_of ty) }
        requires ready { IsReady self.now terms.old memory.now }
        requires known { IsKnown terms.old index }
        requires below { number < 2 ^ width_of terms.old index }
        requires others { IsTerm terms.old (bits_in self.now (ty_of ty)) others }
        ensures { IfOk result (IsOneMoreElement self.now memory.now (ty_of ty.entry) path.now number index others
            terms.old terms.new) }
    {
        let element = self.element_at(terms, memory, path, number, ty)?;
        let width = terms.width(index);
        let constant = make(terms, Term::Const(width, number))?;
        let here = make(terms, Term::Eq(index, constant))?;
        let id = make(terms, Term::Ite(here, element, others))?;
        Ok(id)
    }

    /// The term of the element that a term numbers, one of so many, each of which the index can number; where it is
    /// none of them it is 0. Linear in the count.
    pub(crate) fn elements(
        &self,
        terms: &mut Terms,
        memory: &TermMemory,
        path: &[Ident],
        index: TermId,
        count: u64,
        ty: ExprType<'s>,
    ) -> Result<TermId, AllocError>
        requires sized { IsSized (ty_of ty) }
        requires typed { (k : ℕ) → CellHasType self.now path.now (Some k) (ty_of ty) }
        requires ready { IsReady self.now terms.old memory.now }
        requires known { IsKnown terms.old index }
        requires within { count ≤ 2 ^ width_of terms.old index }
        ensures { IfOk result
            (FindsElements self.now memory.now (ty_of ty.entry) path.now index count terms.old terms.new) }
    {
        let mut id = self.number_term(terms, 0, ty)?;
        for number in 0..count {
            id = self.one_more_element(terms, memory, path, number, index, id, ty)?;
        }
        Ok(id)
    }

    /// The term of the element that a number of the text numbers: it never overruns.
    pub(crate) fn element_of_number(
        &self,
        terms: &mut Terms,
        memory: &TermMemory,
        path: &[Ident],
        index: &Num,
        asked: ExprType<'s>,
    ) -> Result<Valued, AllocError>
        requires typed { HasTypeAt self.now (ty_of asked) (trees.element path.now (trees.number index.now)) }
        requires ready { IsReady self.now terms.old memory.now }
        ensures { IfOk result (Finds self.now memory.now (ty_of asked.entry)
            (trees.element path.now (trees.number index.now)) terms.old terms.new) }
    {
        let number = index.value.unwrap_or(0);
        let value = self.element_at(terms, memory, path, number, asked)?;
        Ok(Valued {
            value,
            overrun: None,
        })
    }
}
