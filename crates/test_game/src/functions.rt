//! Functions of two or three levels, and their tables: bit k of a table is the value where the values of the levels
//! are the bits of k, that of level 0 the highest.

use crate::workbench::Workbench;
use std::alloc::AllocError;
use tm_dd::{FALSE, NodeId, Store, TRUE};

/// Whether a bit of a table is set.
pub fn is_set(table: u8, row: u8) -> bool {
    table >> (row % 8) & 1 == 1
}

/// The constant that a bit of a table is.
fn leaf(table: u8, row: u8) -> NodeId {
    if is_set(table, row) { TRUE } else { FALSE }
}

/// The function of the last level that two bits of a table are, from this one on.
fn last_level(bench: &mut Workbench, table: u8, row: u8) -> Result<NodeId, AllocError> {
    bench.node(2, leaf(table, row), leaf(table, row | 1))
}

/// The function of the last two levels that four bits of a table are, from this one on.
fn last_levels(bench: &mut Workbench, table: u8, row: u8) -> Result<NodeId, AllocError> {
    let lo = last_level(bench, table, row)?;
    let hi = last_level(bench, table, row | 2)?;
    bench.node(1, lo, hi)
}

/// The function of a table.
pub fn from_table(bench: &mut Workbench, table: u8) -> Result<NodeId, AllocError> {
    let lo = last_levels(bench, table, 0)?;
    let hi = last_levels(bench, table, 4)?;
    bench.node(0, lo, hi)
}

/// The value of a function where all levels have these values, if it is known and there is one for each level.
pub fn value_of(store: &Store, id: NodeId, values: &[bool]) -> Option<bool> {
    if values.len() != store.levels() as usize || !store.knows(id) {
        return None;
    }
    Some(store.eval(id, values))
}

/// The value of a function at a row of its table.
pub fn value_at(store: &Store, id: NodeId, row: u8) -> Option<bool> {
    let values = [is_set(row, 2), is_set(row, 1), is_set(row, 0)];
    match store.levels() {
        3 => value_of(store, id, &values),
        2 => value_of(store, id, &values[1..]),
        _ => None,
    }
}

/// The table of a function of three levels, if it is known.
pub fn table_of(store: &Store, id: NodeId) -> Option<u8> {
    let mut table = 0u8;
    for row in 0..8u8 {
        match value_at(store, id, row) {
            Some(true) => table |= 1u8 << row,
            Some(false) => {}
            None => return None,
        }
    }
    Some(table)
}
