//! The widths of the inputs.
ghost use Rattle.std.specs.Prelude.{◌≡◌, ◌++◌, IfOk, OnOk, map, replicate};
ghost use Rattle.tm_syntax.specs.declared.design.Var as declared;
ghost use Rattle.tm_syntax.specs.Tree.View.{spec_tree};
ghost use Rattle.tm_syntax.specs.Design.Sizes.{bits_of_number as number_bits, type_bits as bits_of_type};
ghost use Rattle.tm_syntax.specs.Design.View.{design_tree};
ghost use Rattle.tm_locations.specs.declared.table.Locations as listed;
ghost use Rattle.tm_design.specs.Values.{HasValues};
ghost use Rattle.tm_states.specs.States.{AreSized, HaveLocations, end_of};
ghost use Rattle.tm_flat.specs.Inputs.{input_widths, room};

use crate::marker::Marker;
use std::alloc::{AllocError, Global};
use tm_design::{bits_of_number, type_bits};
use tm_locations::Locations;
use tm_scope::{ExprType, Scopes};
use tm_states::end_number;
use tm_syntax::design::Var;

// The bits of the values of variables.
fn value_widths(alloc: Global, scopes: &Scopes, vars: &[Var]) -> Result<Vec<u8>, AllocError>
    requires { AreSized vars.now }
    ensures { IfOk result (λ widths.
        widths.items ≡ map (λ (v : declared.Var). bits_of_type (spec_tree scopes.now) v.ty) vars.now) }
{
    let mut widths = Vec::new(alloc);
    for var in vars {
        widths.push(type_bits(scopes, ExprType::of_variable(&var.ty)))?;
    }
    Ok(widths)
}

// The bits of the numbers of processes' locations.
fn place_widths(alloc: Global, tables: &[Locations<'_>]) -> Result<Vec<u8>, AllocError>
    ensures { IfOk result (λ widths.
        widths.items ≡ map (λ (t : listed.Locations). number_bits (end_of t)) tables.now) }
{
    let mut widths = Vec::new(alloc);
    for table in tables {
        widths.push(bits_of_number(end_number(table) as u64))?;
    }
    Ok(widths)
}

// As many inputs of one bit as there are for choices, or for arguments.
fn push_bits(widths: &mut Vec<u8>) -> Result<(), AllocError>
    ensures { OnOk result (widths.new.items ≡ widths.old.items ++ replicate room 1) }
{
    for _count in 0..64u32 {
        widths.push(1)?;
    }
    Ok(())
}

impl<'s> Marker<'s> {
    /// The widths of the inputs: of the variables, of the locations of the processes, of who has moved, and of 64 bits
    /// of choices and 64 bits of arguments. Linear in the variables and processes. `AllocError` is want of memory.
    pub fn inputs(&self, alloc: Global) -> Result<Vec<u8>, AllocError>
        requires located { HaveLocations (design_tree self.now.design.now) self.now.locations.now }
        requires values { HasValues (design_tree self.now.design.now) }
        ensures { IfOk result (λ widths. widths.items ≡ input_widths (design_tree self.now.design.now)) }
    {
        let mut widths = value_widths(alloc, self.scopes, self.design.vars.as_slice())?;
        let places = place_widths(alloc, self.locations)?;
        widths.extend_from_slice(places.as_slice())?;
        widths.push(bits_of_number(1 + self.design.processes.len() as u64))?;
        push_bits(&mut widths)?;
        push_bits(&mut widths)?;
        Ok(widths)
    }
}
