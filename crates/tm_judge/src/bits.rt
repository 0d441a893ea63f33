//! How many bits a state has.
ghost use Rattle.std.specs.Prelude.{◌≡◌, ◌<◌, ◌≤◌, ◌*◌, ◌^◌, length, sum_by};
ghost use Rattle.tm_syntax.specs.declared.design.Var as declared;
ghost use Rattle.tm_syntax.specs.Tree.View.{spec_tree};
ghost use Rattle.tm_syntax.specs.Design.Sizes.{bits_of_number as number_bits, type_bits as bits_of_type};
ghost use Rattle.tm_syntax.specs.Design.View.{design_tree};
ghost use Rattle.tm_syntax.specs.Faults.{IsSound};
ghost use Rattle.tm_locations.specs.declared.table.Locations as listed;
ghost use Rattle.tm_states.specs.States.{AreSized, HaveLocations, end_of};
ghost use Rattle.tm_judge.specs.Shape.{state_bit_count};

use tm_design::{bits_of_number, type_bits};
use tm_locations::Locations;
use tm_scope::{ExprType, Scopes};
use tm_states::end_number;
use tm_syntax::design::{Design, Var};

// The bits of the values of variables.
fn variable_bits(scopes: &Scopes, vars: &[Var]) -> u32
    requires sized { AreSized vars.now }
    requires few { sum_by (λ (v : declared.Var). bits_of_type (spec_tree scopes.now) v.ty) vars.now < 2 ^ 32 }
    ensures { result ≡ sum_by (λ (v : declared.Var). bits_of_type (spec_tree scopes.now) v.ty) vars.now }
{
    let mut bits = 0;
    for var in vars {
        bits += u32::from(type_bits(scopes, ExprType::of_variable(&var.ty)));
    }
    bits
}

// The bits of the numbers of processes' locations.
fn location_bits(locations: &[Locations<'_>]) -> u32
    requires { length locations.now < 2 ^ 16 }
    ensures bits { result ≡ sum_by (λ (t : listed.Locations). number_bits (end_of t)) locations.now }
    ensures few { result ≤ 64 * length locations.now }
{
    let mut bits = 0;
    for table in locations {
        bits += u32::from(bits_of_number(end_number(table) as u64));
    }
    bits
}

/// How many bits a state of a design has: those of its variables, of the locations of its processes, and of who moved
/// last. Linear in the variables and processes, and takes no memory.
pub(crate) fn state_bits(design: &Design, scopes: &Scopes, locations: &[Locations<'_>]) -> u32
    requires text { scopes.now ≡ design.now.spec }
    requires sound { IsSound (design_tree design.now) }
    requires locations { HaveLocations (design_tree design.now) locations.now }
    ensures { result ≡ state_bit_count (design_tree design.now) }
{
    let variables = variable_bits(scopes, design.vars.as_slice());
    let places = location_bits(locations);
    let last = bits_of_number(design.processes.len() as u64 + 1);
    variables + places + u32::from(last)
}
