//! The nodes of the diagrams.
ghost use Rattle.std.specs.Prelude.{◌≡◌, [], ◌∷◌, ◌++◌, Ok, Some, None, IfOk, IfErr, OnOk, if◌then◌else◌};
ghost use Rattle.serde_json.specs.View.{view, items_view};
ghost use Rattle.tm_cert.specs.Judged.{and_then, each, IsRefusalOf};
ghost use Rattle.tm_cert.specs.Nodes.{entry_at, is_above_child, is_over, new_node, nodes_at, three_at, three_numbers};
ghost use Rattle.tm_cert.specs.Part.{items_at};
ghost use Rattle.tm_cert.specs.Path.{path_text};
ghost use Rattle.tm_cert.specs.Three.{entry_of};
ghost use Rattle.tm_cert.specs.declared.cert.Entry.{Entry as EntryData};

use crate::cert::Entry;
use crate::part::{read_items, read_number, wrong_shape};
use crate::path::Path;
use crate::refusal::{BadCert, ReadCertError};
use indexmap::IndexSet;
use serde_json::Value;
use std::alloc::Global;
use std::hash::BuildHasherDefault;
use tm_dd::NumberHasher;

/// The entries so far, each once.
type Entries = IndexSet<Entry, BuildHasherDefault<NumberHasher>>;

/// The numbers of an entry, as they stand in the list.
#[derive(Clone, Copy)]
struct Three {
    level: u64,
    lo: u64,
    hi: u64,
}

/// The entries, each a new node over those before it.
#[tactic(auto, unfolding(crate::specs::Nodes::nodes_at))]
pub(crate) fn read_nodes(
    alloc: Global,
    path: &Path<'_>,
    bits: u32,
    value: &Value,
) -> Result<Vec<Entry>, ReadCertError>
    ensures ok { IfOk result
        (λ nodes. nodes_at (path_text path.now) bits (view value.now) ≡ Ok nodes.items) }
    ensures refused { IfErr result (IsRefusalOf (nodes_at (path_text path.now) bits (view value.now))) }
{
    match read_items(alloc, path, value) {
        Ok(entries) => read_entries(alloc, path, bits, entries),
        Err(error) => Err(error),
    }
}

/// The entries in a list.
fn read_entries(
    alloc: Global,
    path: &Path<'_>,
    bits: u32,
    entries: &[Value],
) -> Result<Vec<Entry>, ReadCertError>
    ensures ok { IfOk result (λ nodes.
        each (entry_at (path_text path.now) bits) [] (items_view entries.now) ≡ Ok nodes.items) }
    ensures refused { IfErr result
        (IsRefusalOf (each (entry_at (path_text path.now) bits) [] (items_view entries.now))) }
{
    let mut nodes = Entries::with_capacity_and_hasher(
        alloc,
        entries.len(),
        BuildHasherDefault::new(),
    )?;
    for value in entries {
        given!(read_entry(alloc, path, bits, &mut nodes, value), nodes);
    }
    Ok(nodes.into_iter().collect(alloc)?)
}

/// Adds one entry to those before it.
fn read_entry(
    alloc: Global,
    path: &Path<'_>,
    bits: u32,
    nodes: &mut Entries,
    value: &Value,
) -> Result<(), ReadCertError>
    ensures ok { IfOk result (λ _. (entry : EntryData)
        × (entry_at (path_text path.now) bits nodes.old.keys (view value.now) ≡ Ok entry)
        × (nodes.new.keys ≡ nodes.old.keys ++ entry ∷ [])) }
    ensures refused { IfErr result
        (IsRefusalOf (entry_at (path_text path.now) bits nodes.old.keys (view value.now))) }
{
    match read_three(alloc, &Path::Index(path, nodes.len()), value) {
        Ok(three) => put_entry(bits, nodes, three),
        Err(error) => Err(error),
    }
}

/// Adds the entry of these numbers to those before it, if it is a new node over them.
fn put_entry(bits: u32, nodes: &mut Entries, three: Three) -> Result<(), ReadCertError>
    ensures ok { OnOk result ((new_node bits nodes.old.keys (entry_of three) ≡ Ok (entry_of three))
        × (nodes.new.keys ≡ nodes.old.keys ++ entry_of three ∷ [])) }
    ensures refused { IfErr result (IsRefusalOf (new_node bits nodes.old.keys (entry_of three))) }
{
    let id = nodes.len() as u64 + 2;
    match entry_over(bits, nodes, three) {
        Some(entry) => match nodes.insert(entry) {
            Ok(true) => Ok(()),
            Ok(false) => Err(ReadCertError::Bad(BadCert::Node(id))),
            Err(_) => Err(ReadCertError::Memory),
        },
        None => Err(ReadCertError::Bad(BadCert::Node(id))),
    }
}

/// The three numbers of an entry.
#[tactic(auto, using(crate::proofs::Lists::three_parts))]
fn read_three(alloc: Global, path: &Path<'_>, value: &Value) -> Result<Three, ReadCertError>
    ensures ok { IfOk result (λ three.
        and_then (items_at (path_text path.now) (view value.now)) (three_at (path_text path.now))
        ≡ Ok (entry_of three)) }
    ensures refused { IfErr result (IsRefusalOf
        (and_then (items_at (path_text path.now) (view value.now)) (three_at (path_text path.now)))) }
{
    match read_items(alloc, path, value) {
        Ok(parts) if parts.len() == 3 => {
            read_numbers(alloc, path, &parts[0], &parts[1], &parts[2])
        }
        Ok(_) => Err(wrong_shape(alloc, path)),
        Err(error) => Err(error),
    }
}

fn read_numbers(
    alloc: Global,
    path: &Path<'_>,
    level: &Value,
    lo: &Value,
    hi: &Value,
) -> Result<Three, ReadCertError>
    ensures ok { IfOk result (λ three. three_numbers (path_text path.now)
        (view level.now) (view lo.now) (view hi.now) ≡ Ok (entry_of three)) }
    ensures refused { IfErr result (IsRefusalOf
        (three_numbers (path_text path.now) (view level.now) (view lo.now) (view hi.now))) }
{
    Ok(Three {
        level: given!(read_number(alloc, &Path::Index(path, 0), level)),
        lo: given!(read_number(alloc, &Path::Index(path, 1), lo)),
        hi: given!(read_number(alloc, &Path::Index(path, 2), hi)),
    })
}

/// The entry of these numbers, if it is a node over those before it.
fn entry_over(bits: u32, nodes: &Entries, three: Three) -> Option<Entry>
    ensures { result
        ≡ (if is_over bits nodes.now.keys (entry_of three) then Some (entry_of three) else None) }
{
    let ids = nodes.len() as u64 + 2;
    let is_over = three.level < u64::from(bits)
        && three.lo < ids
        && three.hi < ids
        && three.lo != three.hi
        && is_above_child(nodes, three.level, three.lo)
        && is_above_child(nodes, three.level, three.hi);
    if is_over {
        Some(Entry {
            level: three.level as u32,
            lo: three.lo,
            hi: three.hi,
        })
    } else {
        None
    }
}

/// Whether the level is above that of a child, if the child is no constant.
fn is_above_child(nodes: &Entries, level: u64, id: u64) -> bool
    ensures { result ≡ is_above_child nodes.now.keys level id }
{
    if id < 2 {
        return true;
    }
    match nodes.get_index(id as usize - 2) {
        Some(child) => level < u64::from(child.level),
        None => true,
    }
}
