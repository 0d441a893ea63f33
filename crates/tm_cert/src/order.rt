//! The order of the levels.
ghost use Rattle.std.specs.Prelude.{◌≡◌, ℕ, [], ◌∷◌, ◌++◌, Ok, IfOk, IfErr};
ghost use Rattle.serde_json.specs.View.{view, items_view};
ghost use Rattle.tm_cert.specs.Judged.{each, IsRefusalOf};
ghost use Rattle.tm_cert.specs.Order.{order_at, place_at};
ghost use Rattle.tm_cert.specs.Path.{path_text};

use crate::part::{out_of_range, read_below, read_counted};
use crate::path::Path;
use crate::refusal::ReadCertError;
use indexmap::IndexSet;
use serde_json::Value;
use std::alloc::Global;

/// The place of the state bit of each level: each place once.
#[tactic(auto, unfolding(crate::specs::Order::order_at))]
pub(crate) fn read_order(
    alloc: Global,
    path: &Path<'_>,
    bits: u32,
    value: &Value,
) -> Result<Vec<u32>, ReadCertError>
    ensures ok { IfOk result
        (λ order. order_at (path_text path.now) bits (view value.now) ≡ Ok order.items) }
    ensures refused { IfErr result (IsRefusalOf (order_at (path_text path.now) bits (view value.now))) }
{
    match read_counted(alloc, path, bits, value) {
        Ok(places) => read_places(alloc, path, bits, places),
        Err(error) => Err(error),
    }
}

/// The places in a list, each for the first time.
fn read_places(
    alloc: Global,
    path: &Path<'_>,
    bits: u32,
    places: &[Value],
) -> Result<Vec<u32>, ReadCertError>
    ensures ok { IfOk result (λ order.
        each (place_at (path_text path.now) bits) [] (items_view places.now) ≡ Ok order.items) }
    ensures refused { IfErr result
        (IsRefusalOf (each (place_at (path_text path.now) bits) [] (items_view places.now))) }
{
    let mut order = IndexSet::new(alloc);
    for value in places {
        given!(read_place(alloc, path, bits, &mut order, value), order);
    }
    Ok(order.into_iter().collect(alloc)?)
}

/// Adds one place to those before it.
fn read_place(
    alloc: Global,
    path: &Path<'_>,
    bits: u32,
    order: &mut IndexSet<u32>,
    value: &Value,
) -> Result<(), ReadCertError>
    ensures ok { IfOk result (λ _. (place : ℕ)
        × (place_at (path_text path.now) bits order.old.keys (view value.now) ≡ Ok place)
        × (order.new.keys ≡ order.old.keys ++ place ∷ [])) }
    ensures refused { IfErr result
        (IsRefusalOf (place_at (path_text path.now) bits order.old.keys (view value.now))) }
{
    let path = Path::Index(path, order.len());
    let place = given!(read_below(alloc, &path, u64::from(bits), value));
    match order.insert(place as u32) {
        Ok(true) => Ok(()),
        Ok(false) => Err(out_of_range(alloc, &path)),
        Err(_) => Err(ReadCertError::Memory),
    }
}
