//! The terms of the bits of a state that are no atoms.
ghost use Rattle.std.specs.Prelude.{◌≡◌, ◌&&◌, ◌<◌, ◌/◌, ◌%◌, ◌^◌, IfOk, OnOk, Some, length, slice_get, slice_index};
ghost use Rattle.tm_syntax.specs.Design.Atoms.{pool_atoms};
ghost use Rattle.tm_syntax.specs.Design.View.{design_tree};
ghost use Rattle.tm_term.specs.Table.{IsKnown, IsSound, width_of};
ghost use Rattle.tm_term.specs.Value.{value_of};
ghost use Rattle.tm_sem.specs.StateBits.{downwards, state_widths};
ghost use Rattle.tm_flat.specs.Inputs.{input_widths};
ghost use Rattle.tm_flat.specs.Steps.{IsInput};
ghost use Rattle.tm_flat_exprs.specs.Made.{Makes};
ghost use Rattle.tm_flat_states.specs.Markable.{IsMarkable};
ghost use Rattle.tm_flat_pool.specs.Predicates.{is_bool as is_bool_type};
ghost use Rattle.tm_flat_pool.specs.Inner.Bits.{AreBitTerms, PushesBits, PushesNumber, is_marked};
ghost use Rattle.tm_flat_pool.specs.Inner.Marks.{AreMarked};

use crate::pooler::Pooler;
use std::alloc::{AllocError, Global};
use tm_flat_exprs::make;
use tm_syntax::design::Ty;
use tm_term::{Term, TermId, Terms};

// The bit of a weight of a term.
fn bit_term(terms: &mut Terms, of: TermId, weight: u8) -> Result<TermId, AllocError>
    requires sound { IsSound terms.old }
    requires known { IsKnown terms.old of }
    requires weight { weight < width_of terms.old of }
    ensures { IfOk result (λ id. Makes terms.old terms.new 1 id (λ u v. value_of u v of / 2 ^ weight % 2)) }
{
    let shifted = make(terms, Term::Shr(of, weight))?;
    let id = make(terms, Term::Resize(1, shifted))?;
    Ok(id)
}

// Pushes the bits of an input of more than one bit.
fn push_each(
    terms: &mut Terms,
    ids: &mut Vec<TermId>,
    index: u32,
    input: TermId,
    width: u8,
) -> Result<(), AllocError>
    requires sound { IsSound terms.old }
    requires input { IsInput terms.old index input }
    requires width { width ≡ width_of terms.old input }
    ensures { OnOk result (PushesBits index (downwards width) terms.old terms.new ids.old.items ids.new.items) }
{
    for passed in 0..width {
        let id = bit_term(terms, input, width - 1 - passed)?;
        ids.push(id)?;
    }
    Ok(())
}

// Pushes the bits of an input, the most significant first: the input itself where it has one.
fn push_bits(terms: &mut Terms, ids: &mut Vec<TermId>, index: u32) -> Result<(), AllocError>
    requires sound { IsSound terms.old }
    requires inside { index < length terms.old.inputs }
    ensures { OnOk result (PushesBits index (downwards (slice_index terms.old.inputs index)) terms.old terms.new
        ids.old.items ids.new.items) }
{
    let input = terms.mk(Term::Input(index))?;
    let width = terms.width(input);
    if width == 1 {
        ids.push(input)?;
        return Ok(());
    }
    push_each(terms, ids, index, input, width)?;
    Ok(())
}

// Whether a type is that of bools.
fn is_bool(ty: &Ty) -> bool
    ensures { result ≡ is_bool_type ty.now }
{
    match ty {
        Ty::Bool => true,
        Ty::Uint(_) => false,
        Ty::Enum(_) => false,
    }
}

// The mark of a number.
fn mark_at(marks: &[bool], index: usize) -> bool
    requires { index < length marks.now }
    ensures { slice_get marks.now index ≡ Some result }
{
    marks[index]
}

// Whether both of two tests pass.
fn both(a: bool, b: bool) -> bool
    ensures { result ≡ a && b }
{
    a && b
}

impl<'s> Pooler<'s> {
    // Whether a number of a state is a bool variable that is an atom.
    fn is_marked(&self, marks: &[bool], index: usize) -> bool
        requires { length marks.now ≡ length self.now.design.now.vars.items }
        ensures { result ≡ is_marked (design_tree self.now.design.now) marks.now index }
    {
        match self.design.vars.get(index) {
            None => false,
            Some(var) => both(is_bool(&var.ty), mark_at(marks, index)),
        }
    }

    // Pushes the bits of a number of a state, unless it is an atom.
    fn push_number(
        &self,
        terms: &mut Terms,
        ids: &mut Vec<TermId>,
        marks: &[bool],
        index: usize,
    ) -> Result<(), AllocError>
        requires markable { IsMarkable self.now.design.now }
        requires sound { IsSound terms.old }
        requires inputs { terms.old.inputs ≡ input_widths (design_tree self.now.design.now) }
        requires marks { AreMarked (design_tree self.now.design.now) (pool_atoms (design_tree self.now.design.now))
            marks.now }
        requires index { index < length (state_widths (design_tree self.now.design.now)) }
        ensures { OnOk result (PushesNumber (design_tree self.now.design.now) index terms.old terms.new ids.old.items
            ids.new.items) }
    {
        if self.is_marked(marks, index) {
            return Ok(());
        }
        push_bits(terms, ids, index as u32)?;
        Ok(())
    }

    /// The terms of the bits of a state that are no atoms, by place. Linear in the bits. `AllocError` is want of
    /// memory.
    pub(crate) fn bit_terms(
        &self,
        alloc: Global,
        terms: &mut Terms,
        marks: &[bool],
    ) -> Result<Vec<TermId>, AllocError>
        requires markable { IsMarkable self.now.design.now }
        requires sound { IsSound terms.old }
        requires inputs { terms.old.inputs ≡ input_widths (design_tree self.now.design.now) }
        requires marks { AreMarked (design_tree self.now.design.now) (pool_atoms (design_tree self.now.design.now))
            marks.now }
        ensures { IfOk result (λ ids. AreBitTerms (design_tree self.now.design.now)
            (length (state_widths (design_tree self.now.design.now))) terms.old terms.new ids.items) }
    {
        let mut ids = Vec::new(alloc);
        for index in 0..self.design.vars.len() + self.design.processes.len() + 1 {
            self.push_number(terms, &mut ids, marks, index)?;
        }
        Ok(ids)
    }
}
