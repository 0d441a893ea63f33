//! The simple parts: numbers, lists, objects and their keys.
ghost use Rattle.std.specs.Prelude.{◌≡◌, ◌⊎◌, ◌<◌, Ok, map, option_map, bytes_eq, IfOk, IfErr, OnOk};
ghost use Rattle.std.specs.List.{list_any};
ghost use Rattle.serde_json.specs.Find.{get_member};
ghost use Rattle.serde_json.specs.View.{view, items_view, members_view};
ghost use Rattle.tm_cert.specs.Judged.{IsRefusalOf};
ghost use Rattle.tm_cert.specs.Part.{counted_items_at, items_at, members_at, number_at, number_below_at, other_key, only_keys, value_at};
ghost use Rattle.tm_cert.specs.Path.{member_path, path_text};
ghost use Rattle.tm_cert.specs.declared.refusal.BadCert.TheVariants.{Shape, Range};

use crate::path::Path;
use crate::refusal::{BadCert, ReadCertError};
use serde_json::{Map, Value};
use std::alloc::Global;

/// The refusal of a part for its shape, or want of memory for its path.
#[cold]
pub(crate) fn wrong_shape(alloc: Global, path: &Path<'_>) -> ReadCertError
    ensures { (result ≡ ReadCertError.Memory)
        ⊎ (result ≡ ReadCertError.Bad (Shape (path_text path.now))) }
{
    match path.name(alloc) {
        Ok(name) => ReadCertError::Bad(BadCert::Shape(name)),
        Err(_) => ReadCertError::Memory,
    }
}

/// The refusal of a part for its range, or want of memory for its path.
#[cold]
pub(crate) fn out_of_range(alloc: Global, path: &Path<'_>) -> ReadCertError
    ensures { (result ≡ ReadCertError.Memory)
        ⊎ (result ≡ ReadCertError.Bad (Range (path_text path.now))) }
{
    match path.name(alloc) {
        Ok(name) => ReadCertError::Bad(BadCert::Range(name)),
        Err(_) => ReadCertError::Memory,
    }
}

/// A number without sign, fraction and exponent, below 2^64.
pub(crate) fn read_number(
    alloc: Global,
    path: &Path<'_>,
    value: &Value,
) -> Result<u64, ReadCertError>
    ensures ok { IfOk result (λ n. number_at (path_text path.now) (view value.now) ≡ Ok n) }
    ensures refused { IfErr result (IsRefusalOf (number_at (path_text path.now) (view value.now))) }
{
    match value.as_u64() {
        Some(number) => Ok(number),
        None => Err(wrong_shape(alloc, path)),
    }
}

/// A number below a limit.
pub(crate) fn read_below(
    alloc: Global,
    path: &Path<'_>,
    limit: u64,
    value: &Value,
) -> Result<u64, ReadCertError>
    ensures ok { IfOk result
        (λ n. number_below_at (path_text path.now) limit (view value.now) ≡ Ok n) }
    ensures below { IfOk result (λ n. n < limit) }
    ensures refused { IfErr result
        (IsRefusalOf (number_below_at (path_text path.now) limit (view value.now))) }
{
    match read_number(alloc, path, value) {
        Ok(number) if number < limit => Ok(number),
        Ok(_) => Err(out_of_range(alloc, path)),
        Err(error) => Err(error),
    }
}

/// The items of a list.
pub(crate) fn read_items<'v>(
    alloc: Global,
    path: &Path<'_>,
    value: &'v Value,
) -> Result<&'v [Value], ReadCertError>
    ensures ok { IfOk result
        (λ items. items_at (path_text path.now) (view value.now) ≡ Ok (items_view items.now)) }
    ensures refused { IfErr result (IsRefusalOf (items_at (path_text path.now) (view value.now))) }
{
    match value.as_array() {
        Some(list) => Ok(list.as_slice()),
        None => Err(wrong_shape(alloc, path)),
    }
}

/// The items of a list of so many.
#[tactic(auto, using(crate::proofs::Keys::counted_items))]
pub(crate) fn read_counted<'v>(
    alloc: Global,
    path: &Path<'_>,
    count: u32,
    value: &'v Value,
) -> Result<&'v [Value], ReadCertError>
    ensures ok { IfOk result (λ items.
        counted_items_at (path_text path.now) count (view value.now) ≡ Ok (items_view items.now)) }
    ensures refused { IfErr result
        (IsRefusalOf (counted_items_at (path_text path.now) count (view value.now))) }
{
    match read_items(alloc, path, value) {
        Ok(items) if items.len() == count as usize => Ok(items),
        Ok(_) => Err(out_of_range(alloc, path)),
        Err(error) => Err(error),
    }
}

/// The members of an object.
pub(crate) fn read_members<'v>(
    alloc: Global,
    path: &Path<'_>,
    value: &'v Value,
) -> Result<&'v Map<String, Value>, ReadCertError>
    ensures ok { IfOk result
        (λ map. members_at (path_text path.now) (view value.now) ≡ Ok (members_view map.now.entries)) }
    ensures refused { IfErr result (IsRefusalOf (members_at (path_text path.now) (view value.now))) }
{
    match value.as_object() {
        Some(map) => Ok(map),
        None => Err(wrong_shape(alloc, path)),
    }
}

/// The value of a key, which has to be there.
pub(crate) fn read_value<'v>(
    alloc: Global,
    path: &Path<'_>,
    map: &'v Map<String, Value>,
    key: &str,
) -> Result<&'v Value, ReadCertError>
    ensures ok { IfOk result (λ value.
        value_at (path_text path.now) key.now (members_view map.now.entries) ≡ Ok (view value.now)) }
    ensures refused { IfErr result
        (IsRefusalOf (value_at (path_text path.now) key.now (members_view map.now.entries))) }
{
    match find_member(map, key) {
        Some(value) => Ok(value),
        None => Err(wrong_shape(alloc, path)),
    }
}

fn find_member<'v>(map: &'v Map<String, Value>, key: &str) -> Option<&'v Value>
    ensures { option_map (λ value. view value.now) result
        ≡ get_member key.now (members_view map.now.entries) }
{
    map.get(key)
}

/// Refuses an object that has another key than these, at the first such key in byte order.
pub(crate) fn refuse_other(
    alloc: Global,
    path: &Path<'_>,
    members: &Map<String, Value>,
    keys: &[&str],
) -> Result<(), ReadCertError>
    ensures ok { OnOk result (only_keys (member_path (path_text path.now))
        (map (λ key. key.now) keys.now) (members_view members.now.entries) ≡ Ok tt) }
    ensures refused { IfErr result (IsRefusalOf (only_keys (member_path (path_text path.now))
        (map (λ key. key.now) keys.now) (members_view members.now.entries))) }
{
    match other_key(members, keys) {
        Some(key) => Err(wrong_shape(alloc, &Path::Member(path, key))),
        None => Ok(()),
    }
}

/// The first key of an object, in byte order, that is none of these.
pub(crate) fn other_key<'v>(object: &'v Map<String, Value>, keys: &[&str]) -> Option<&'v str>
    ensures { option_map (λ key. key.now) result
        ≡ other_key (map (λ key. key.now) keys.now) (members_view object.now.entries) }
{
    for key in object.keys() {
        if !is_among(keys, key.as_str()) {
            return Some(key.as_str());
        }
    }
    None
}

fn is_among(keys: &[&str], key: &str) -> bool
    ensures { result ≡ list_any (λ known. bytes_eq key.now known.now) keys.now }
{
    keys.iter().any(|known| key == *known)
}
