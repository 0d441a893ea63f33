//! The terms of the initial and of the valid states.
ghost use Rattle.std.specs.Prelude.{◌≡◌, ◌-◌, IfOk, map};
ghost use Rattle.tm_syntax.specs.Tree.View.{spec_tree};
ghost use Rattle.tm_syntax.specs.Design.Sizes.{type_size as size_of};
ghost use Rattle.tm_syntax.specs.Design.View.{design_tree};
ghost use Rattle.tm_typing.specs.HasType.{IsSized};
ghost use Rattle.tm_locations.specs.declared.table.Locations as listed;
ghost use Rattle.tm_states.specs.States.{AreSized, HaveLocations, end_of};
ghost use Rattle.tm_term.specs.Table.{IsSound};
ghost use Rattle.tm_sem.specs.Step.{IsInitial, IsState};
ghost use Rattle.tm_flat.specs.Inputs.{input_widths};
ghost use Rattle.tm_flat.specs.IsFlat.{IsStateTerm};
ghost use Rattle.tm_flat_states.specs.declared.bounds.Bound.TheVariants as limits;
ghost use Rattle.tm_flat_states.specs.Bounds.{first_bound, initial_bounds, valid_bounds, value_bound};
ghost use Rattle.tm_flat_states.specs.Markable.{IsMarkable};
ghost use Rattle.tm_flat_states.specs.Marks.{MakesSuch};

use crate::bounds::{Bound, are_within};
use crate::marker::Marker;
use std::alloc::{AllocError, Global};
use tm_design::type_size;
use tm_locations::Locations;
use tm_scope::{ExprType, Scopes};
use tm_states::end_number;
use tm_syntax::design::{Ty, Var};
use tm_term::{TermId, Terms};

// The greatest value of a type.
fn greatest_of(scopes: &Scopes, ty: &Ty) -> u64
    requires { IsSized ty.now }
    ensures { result ≡ size_of (spec_tree scopes.now) ty.now - 1 }
{
    match type_size(scopes, ExprType::of_variable(ty)) {
        Some(size) => size.saturating_sub(1),
        None => u64::MAX,
    }
}

// Which values a variable may have.
fn value_bound(scopes: &Scopes, var: &Var) -> Bound
    requires { IsSized var.now.ty }
    ensures { result ≡ value_bound (spec_tree scopes.now) var.now }
{
    Bound::AtMost(greatest_of(scopes, &var.ty))
}

// Which values it may have at first.
fn first_bound(scopes: &Scopes, var: &Var) -> Bound
    requires { IsSized var.now.ty }
    ensures { result ≡ first_bound (spec_tree scopes.now) var.now }
{
    match var.init {
        Some(value) => Bound::Exactly(value),
        None => value_bound(scopes, var),
    }
}

// Which values variables may have.
fn value_bounds(alloc: Global, scopes: &Scopes, vars: &[Var]) -> Result<Vec<Bound>, AllocError>
    requires { AreSized vars.now }
    ensures { IfOk result (λ bs. bs.items ≡ map (value_bound (spec_tree scopes.now)) vars.now) }
{
    let mut bounds = Vec::new(alloc);
    for var in vars {
        bounds.push(value_bound(scopes, var))?;
    }
    Ok(bounds)
}

// Which values they may have at first.
fn first_bounds(alloc: Global, scopes: &Scopes, vars: &[Var]) -> Result<Vec<Bound>, AllocError>
    requires { AreSized vars.now }
    ensures { IfOk result (λ bs. bs.items ≡ map (first_bound (spec_tree scopes.now)) vars.now) }
{
    let mut bounds = Vec::new(alloc);
    for var in vars {
        bounds.push(first_bound(scopes, var))?;
    }
    Ok(bounds)
}

// At which locations processes may stand.
fn place_bounds(alloc: Global, tables: &[Locations<'_>]) -> Result<Vec<Bound>, AllocError>
    ensures { IfOk result (λ bs. bs.items ≡ map (λ (t : listed.Locations). limits.AtMost (end_of t)) tables.now) }
{
    let mut places = Vec::new(alloc);
    for table in tables {
        places.push(Bound::AtMost(end_number(table) as u64))?;
    }
    Ok(places)
}

// All of them stand at their starts.
fn start_bounds(alloc: Global, tables: &[Locations<'_>]) -> Result<Vec<Bound>, AllocError>
    ensures { IfOk result (λ bs. bs.items ≡ map (λ (_ : listed.Locations). limits.Exactly 0) tables.now) }
{
    let mut starts = Vec::new(alloc);
    for _table in tables {
        starts.push(Bound::Exactly(0))?;
    }
    Ok(starts)
}

impl<'s> Marker<'s> {
    // Which numbers the inputs of a valid state may have.
    fn valid_bounds(&self, alloc: Global) -> Result<Vec<Bound>, AllocError>
        requires located { HaveLocations (design_tree self.now.design.now) self.now.locations.now }
        requires markable { IsMarkable self.now.design.now }
        ensures { IfOk result (λ bs. bs.items ≡ valid_bounds (design_tree self.now.design.now)) }
    {
        let mut all = value_bounds(alloc, self.scopes, self.design.vars.as_slice())?;
        let places = place_bounds(alloc, self.locations)?;
        all.extend_from_slice(places.as_slice())?;
        all.push(Bound::AtMost(1 + self.design.processes.len() as u64))?;
        Ok(all)
    }

    // Which numbers those of an initial one may have.
    fn initial_bounds(&self, alloc: Global) -> Result<Vec<Bound>, AllocError>
        requires located { HaveLocations (design_tree self.now.design.now) self.now.locations.now }
        requires markable { IsMarkable self.now.design.now }
        ensures { IfOk result (λ bs. bs.items ≡ initial_bounds (design_tree self.now.design.now)) }
    {
        let mut all = first_bounds(alloc, self.scopes, self.design.vars.as_slice())?;
        let places = start_bounds(alloc, self.locations)?;
        all.extend_from_slice(places.as_slice())?;
        all.push(Bound::Exactly(0))?;
        Ok(all)
    }

    /// A term that is 1 exactly where the inputs tell a valid state. Linear in the numbers of a state. `AllocError` is
    /// want of memory.
    pub fn valid(&self, alloc: Global, terms: &mut Terms) -> Result<TermId, AllocError>
        requires located { HaveLocations (design_tree self.now.design.now) self.now.locations.now }
        requires markable { IsMarkable self.now.design.now }
        requires sound { IsSound terms.old }
        requires inputs { terms.old.inputs ≡ input_widths (design_tree self.now.design.now) }
        ensures { IfOk result (MakesSuch terms.old terms.new (λ u id.
            IsStateTerm u (design_tree self.now.design.now) (IsState (design_tree self.now.design.now)) id)) }
    {
        let bounds = self.valid_bounds(alloc)?;
        let id = are_within(terms, bounds.as_slice())?;
        Ok(id)
    }

    /// A term that is 1 exactly where the inputs tell an initial state. Linear in the numbers of a state. `AllocError`
    /// is want of memory.
    pub fn initial(&self, alloc: Global, terms: &mut Terms) -> Result<TermId, AllocError>
        requires located { HaveLocations (design_tree self.now.design.now) self.now.locations.now }
        requires markable { IsMarkable self.now.design.now }
        requires sound { IsSound terms.old }
        requires inputs { terms.old.inputs ≡ input_widths (design_tree self.now.design.now) }
        ensures { IfOk result (MakesSuch terms.old terms.new (λ u id.
            IsStateTerm u (design_tree self.now.design.now) (IsInitial (design_tree self.now.design.now)) id)) }
    {
        let bounds = self.initial_bounds(alloc)?;
        let id = are_within(terms, bounds.as_slice())?;
        Ok(id)
    }
}
