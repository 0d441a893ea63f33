//! Which states are valid ones of a design.
ghost use Rattle.std.specs.Prelude.{◌≡◌, ◌<◌, ◌≤◌, ◌↔◌, IsTrue};
ghost use Rattle.std.specs.List.{AllZip};
ghost use Rattle.tm_syntax.specs.declared.design.Var as declared;
ghost use Rattle.tm_syntax.specs.Tree.View.{spec_tree};
ghost use Rattle.tm_syntax.specs.Design.View.{design_tree};
ghost use Rattle.tm_syntax.specs.Design.Sizes.{type_size};
ghost use Rattle.tm_sem.specs.Step.{IsState};
ghost use Rattle.tm_locations.specs.declared.table.Locations as listed;
ghost use Rattle.tm_states.specs.States.{AreSized, HaveLocations, end_of};

use crate::ends::end_number;
use crate::types::is_value;
use tm_locations::Locations;
use tm_scope::Scopes;
use tm_sem::state::State;
use tm_syntax::design::{Design, Var};

// Whether these are as many values as there are variables, each in its type.
fn values_fit(scopes: &Scopes, vars: &[Var], values: &[u64]) -> bool
    requires { AreSized vars.now }
    ensures { IsTrue result ↔ AllZip (λ (v : declared.Var) n. n < type_size (spec_tree scopes.now) v.ty)
        vars.now values.now }
{
    for (index, var) in vars.iter().enumerate() {
        match values.get(index) {
            Some(value) => {
                if !is_value(scopes, &var.ty, *value) {
                    return false;
                }
            }
            None => return false,
        }
    }
    values.len() == vars.len()
}

// Whether these are as many locations as there are tables, none beyond its table's end.
fn places_fit(locations: &[Locations<'_>], places: &[u32]) -> bool
    ensures { IsTrue result ↔ AllZip (λ (t : listed.Locations) k. k ≤ end_of t) locations.now places.now }
{
    for (process, table) in locations.iter().enumerate() {
        match places.get(process) {
            Some(place) => {
                if *place as usize > end_number(table) {
                    return false;
                }
            }
            None => return false,
        }
    }
    places.len() == locations.len()
}

// Whether these values, places and last mover are a valid state.
fn parts_fit(
    design: &Design,
    scopes: &Scopes,
    locations: &[Locations<'_>],
    values: &[u64],
    places: &[u32],
    last: u32,
) -> bool
    requires text { scopes.now ≡ design.now.spec }
    requires sized { AreSized design.now.vars.items }
    requires locations { HaveLocations (design_tree design.now) locations.now }
    ensures { IsTrue result ↔ IsState (design_tree design.now)
        (record { values = values.now; places = places.now; last = last }) }
{
    if !values_fit(scopes, design.vars.as_slice(), values) {
        return false;
    }
    if !places_fit(locations, places) {
        return false;
    }
    (last as usize) < 2 + design.processes.len()
}

/// Whether a state is a valid one of a design: the counts match, and every value, location and the last mover are in
/// range. The types of its variables have widths that numbers can have, and there is a table of locations for each of
/// its processes. Linear in the values and processes, and takes no memory.
pub fn fits(design: &Design, scopes: &Scopes, locations: &[Locations<'_>], state: &State) -> bool
    requires text { scopes.now ≡ design.now.spec }
    requires sized { AreSized design.now.vars.items }
    requires locations { HaveLocations (design_tree design.now) locations.now }
    ensures { IsTrue result ↔ IsState (design_tree design.now) state.now }
{
    parts_fit(
        design,
        scopes,
        locations,
        state.values.as_slice(),
        state.places.as_slice(),
        state.last,
    )
}
