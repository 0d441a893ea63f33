//! What is told of functions.
ghost use Rattle.tm_dd.specs.Table.{Knows};

use super::counting::count;
use super::names::Names;
use crate::functions::value_at;
use crate::texts::{number_text, truth_text};
use std::alloc::{AllocError, Global};
use tm_dd::{NodeId, Store};
use tm_ddops::Manager;

/// The level and the children of a function's node.
fn node_text(alloc: Global, store: &Store, names: &Names, id: NodeId) -> Result<String, AllocError>
    requires { Knows store.now id }
{
    if id.is_constant() {
        return String::from_str(alloc, "constant");
    }
    let node = store.node(id);
    let lo = names.word(alloc, node.lo)?;
    let hi = names.word(alloc, node.hi)?;
    format!(in alloc; "{} {lo} {hi}", node.level)
}

/// The digit of a value.
fn digit(value: Option<bool>) -> char {
    match value {
        Some(true) => '1',
        Some(false) => '0',
        None => '?',
    }
}

/// All values of a function, a digit for each.
fn values_text(alloc: Global, store: &Store, id: NodeId) -> Result<String, AllocError> {
    let mut text = String::new(alloc);
    for row in 0..1u8.checked_shl(store.levels()).unwrap_or(0) {
        text.push(digit(value_at(store, id, row)))?;
    }
    Ok(text)
}

/// How many nodes are kept or reached from a function, or how many values make it true.
fn counted(alloc: Global, dd: &Manager, verb: &str, f: NodeId) -> Result<u64, AllocError>
    requires { Knows dd.now.table f }
{
    match verb {
        "kept" => Ok(dd.store().kept()),
        "size" => dd.size(f),
        _ => count(alloc, dd.store(), f),
    }
}

/// A number of nodes or values, as text.
fn counted_text(alloc: Global, dd: &Manager, verb: &str, f: NodeId) -> Result<String, AllocError>
    requires { Knows dd.now.table f }
{
    match counted(alloc, dd, verb, f) {
        Ok(count) => number_text(alloc, count),
        Err(error) => Err(error),
    }
}

/// The least values that make a function true.
fn least_text(alloc: Global, dd: &Manager, f: NodeId) -> Result<String, AllocError>
    requires { Knows dd.now.table f }
{
    match dd.least(f) {
        Ok(Some(values)) => format!(in alloc; "{values:?}"),
        Ok(None) => String::from_str(alloc, "none"),
        Err(error) => Err(error),
    }
}

/// The levels that a function depends on.
fn support_text(alloc: Global, dd: &Manager, f: NodeId) -> Result<String, AllocError>
    requires { Knows dd.now.table f }
{
    match dd.support(f) {
        Ok(levels) => format!(in alloc; "{levels:?}"),
        Err(error) => Err(error),
    }
}

/// Whether just one of two ids is marked, or the first is less than the second.
fn is_so(verb: &str, f: NodeId, g: NodeId) -> bool {
    if verb == "marks" {
        f.is_marked() != g.is_marked()
    } else {
        f < g
    }
}

/// The answer to a question about two functions, the first of which is known.
pub fn reading(
    alloc: Global,
    dd: &Manager,
    names: &Names,
    verb: &str,
    f: NodeId,
    g: NodeId,
) -> Result<String, AllocError>
    requires { Knows dd.now.table f }
{
    match verb {
        "kept" | "size" | "count" => counted_text(alloc, dd, verb, f),
        "node" => node_text(alloc, dd.store(), names, f),
        "values" => values_text(alloc, dd.store(), f),
        "support" => support_text(alloc, dd, f),
        "least" => least_text(alloc, dd, f),
        _ => truth_text(alloc, is_so(verb, f, g)),
    }
}
