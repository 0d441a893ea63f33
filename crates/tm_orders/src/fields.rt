//! The numbers of a state, with the last value of each.
ghost use Rattle.std.specs.Prelude.{◌≡◌, ◌-◌, IfOk, length, map};
ghost use Rattle.tm_locations.specs.declared.table.Locations as listed;
ghost use Rattle.tm_orders.specs.Fields as fields;
ghost use Rattle.tm_plain.specs.Machine.{AreLocated, IsRunnable};
ghost use Rattle.tm_reorder.specs.Fields.{AreFields};
ghost use Rattle.tm_states.specs.States.{AreSized, end_of};
ghost use Rattle.tm_syntax.specs.Design.Sizes.{type_size as size_of};
ghost use Rattle.tm_syntax.specs.Design.View.{design_tree};
ghost use Rattle.tm_syntax.specs.Faults.{IsOfText, IsSound};
ghost use Rattle.tm_syntax.specs.Tree.View.{spec_tree};
ghost use Rattle.tm_typing.specs.HasType.{IsSized};

use std::alloc::{AllocError, Global};
use tm_design::{bits_of_number, type_bits, type_size};
use tm_flat_design::sound_designs_of_texts_are_markable;
use tm_locations::Locations;
use tm_plain::{Tables, locate};
use tm_reorder::Field;
use tm_scope::{ExprType, Scopes};
use tm_states::end_number;
use tm_syntax::design::{Design, Ty, Var};

// The greatest value of a type.
fn greatest_of(scopes: &Scopes, ty: &Ty) -> u64
    requires { IsSized ty.now }
    ensures { result ≡ size_of (spec_tree scopes.now) ty.now - 1 }
{
    match type_size(scopes, ExprType::of_variable(ty)) {
        Some(size) => size.saturating_sub(1),
        None => u64::MAX,
    }
}

// The value of a variable.
fn value_field(scopes: &Scopes, var: &Var) -> Field
    requires { IsSized var.now.ty }
    ensures { result ≡ fields.value_field (spec_tree scopes.now) var.now }
{
    Field {
        width: type_bits(scopes, ExprType::of_variable(&var.ty)),
        last: greatest_of(scopes, &var.ty),
    }
}

// A number up to this one.
fn field_to(last: u64) -> Field
    ensures { result ≡ fields.field_to last }
{
    Field {
        width: bits_of_number(last),
        last,
    }
}

// The values of variables.
fn value_fields(alloc: Global, scopes: &Scopes, vars: &[Var]) -> Result<Vec<Field>, AllocError>
    requires { AreSized vars.now }
    ensures { IfOk result (λ all. all.items ≡ map (fields.value_field (spec_tree scopes.now)) vars.now) }
{
    let mut all = Vec::new(alloc);
    for var in vars {
        all.push(value_field(scopes, var))?;
    }
    Ok(all)
}

// The locations of processes.
fn place_fields(alloc: Global, tables: &[Locations<'_>]) -> Result<Vec<Field>, AllocError>
    ensures { IfOk result (λ all.
        all.items ≡ map (λ (t : listed.Locations). fields.field_to (end_of t)) tables.now) }
{
    let mut all = Vec::new(alloc);
    for table in tables {
        all.push(field_to(end_number(table) as u64))?;
    }
    Ok(all)
}

// The numbers of the states of a design, with the greatest value of each, by its tables and its locations.
fn fields_in(
    alloc: Global,
    tables: &Tables<'_>,
    locations: &[Locations<'_>],
) -> Result<Vec<Field>, AllocError>
    requires runnable { IsRunnable tables.now }
    requires located { AreLocated tables.now (length tables.now.processes.items) locations.now }
    ensures { IfOk result (λ all. AreFields (design_tree tables.now) all.items) }
{
    sound_designs_of_texts_are_markable();
    let design = tables.design();
    let mut all = value_fields(alloc, tables.scopes(), design.vars.as_slice())?;
    let places = place_fields(alloc, locations)?;
    all.extend_from_slice(places.as_slice())?;
    all.push(field_to(1 + design.processes.len() as u64))?;
    Ok(all)
}

// The numbers of the states of a design, with the greatest value of each, by the tables of its text.
fn fields_by(alloc: Global, tables: &Tables<'_>) -> Result<Vec<Field>, AllocError>
    requires { IsRunnable tables.now }
    ensures { IfOk result (λ all. AreFields (design_tree tables.now) all.items) }
{
    let locations = locate(alloc, tables)?;
    fields_in(alloc, tables, locations.as_slice())
}

/// The numbers of the states of a design of a text, with the greatest value that each has at a valid state: the values
/// of its variables, the locations of its processes, and who moved last.
///
/// Linear in the text and in the statements of its processes, with the bodies that these call. `AllocError` is want of
/// memory.
pub fn fields_of(alloc: Global, design: &Design) -> Result<Vec<Field>, AllocError>
    requires sound { IsSound (design_tree design.now) }
    requires of_text { IsOfText (design_tree design.now).spec }
    ensures { IfOk result (λ all. AreFields (design_tree design.now) all.items) }
{
    let tables = match Tables::new(alloc, design) {
        Ok(tables) => tables,
        Err(error) => return Err(error),
    };
    let fields = fields_by(alloc, &tables);
    drop(tables);
    fields
}
