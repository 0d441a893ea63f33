//! Operations on all functions of three levels, against their truth tables.
ghost use Rattle.std.specs.Prelude.{◌<◌};

use crate::functions::{from_table, is_set, table_of, value_at};
use crate::texts::number_text;
use crate::workbench::Workbench;
use std::alloc::{AllocError, Global};
use tm_dd::{FALSE, NodeId, Store};

/// The functions of three levels, at the places of their tables.
type Functions = [NodeId; 256];

/// The function of a table.
fn function_of(functions: &Functions, table: u8) -> NodeId {
    functions[table as usize]
}

/// Fills in all functions.
fn fill(bench: &mut Workbench, functions: &mut Functions) -> Result<(), AllocError> {
    for table in 0..=255u8 {
        functions[table as usize] = from_table(bench, table)?;
    }
    Ok(())
}

/// The table of `f` where the variable of this bit has the value of `g`.
fn substituted(f: u8, g: u8, bit: u8) -> u8
    requires { bit < 3 }
{
    let mut table = 0u8;
    for row in 0..8u8 {
        let without = row & !(1u8 << bit);
        let there = if is_set(g, row) {
            without | 1u8 << bit
        } else {
            without
        };
        if is_set(f, there) {
            table |= 1u8 << row;
        }
    }
    table
}

/// The table that an operation gives of two tables and their exclusive sum, at the level of this bit.
fn wanted(verb: &str, a: u8, b: u8, bit: u8) -> u8
    requires { bit < 3 }
{
    match verb {
        "and" => a & b,
        "or" => a | b,
        "xor" => a ^ b,
        "ite" => a & b | !a & (a ^ b),
        "exists" => substituted(a, 0, bit) | substituted(a, 255, bit),
        "forall" => substituted(a, 0, bit) & substituted(a, 255, bit),
        _ => substituted(a, a ^ b, bit),
    }
}

/// What an operation gives: `ite` of three functions, connectives of the first two, and `compose` of the first and the
/// last one.
fn applied(
    bench: &mut Workbench,
    verb: &str,
    of: [NodeId; 3],
    level: u32,
) -> Result<NodeId, AllocError> {
    let [f, g, h] = of;
    match verb {
        "ite" => bench.chosen(f, g, h),
        "exists" | "forall" => bench.quantified(verb, f, &[level]),
        "compose" => bench.composed(f, &[(level, h)]),
        _ => bench.joined(verb, f, g),
    }
}

/// The table of one of 16 functions: this one, and others that lie a multiple of 17 further.
fn other(table: u8, number: u8) -> u8 {
    table.wrapping_add(number.wrapping_mul(17))
}

/// Whether an operation at the level of this number, on the function of a table, another one of this number and their
/// exclusive sum, gives what the tables do.
fn agrees(
    bench: &mut Workbench,
    verb: &str,
    functions: &Functions,
    a: u8,
    number: u8,
) -> Result<bool, AllocError> {
    let level = number % 3;
    let b = other(a, number);
    let of = [
        function_of(functions, a),
        function_of(functions, b),
        function_of(functions, a ^ b),
    ];
    match applied(bench, verb, of, u32::from(level)) {
        Ok(found) => Ok(found == function_of(functions, wanted(verb, a, b, 2 - level))),
        Err(error) => Err(error),
    }
}

/// Whether the function of a table is none of an earlier one, with its complement and its values.
fn is_own(store: &Store, functions: &Functions, table: u8) -> bool {
    let id = function_of(functions, table);
    function_of(functions, 255 - table) == id.complement()
        && !functions[..table as usize].contains(&id)
        && table_of(store, id) == Some(table)
}

/// Whether what is asked of a table, and of another number, is so.
fn is_so(
    bench: &mut Workbench,
    verb: &str,
    functions: &Functions,
    table: u8,
    number: u8,
) -> Result<bool, AllocError> {
    match verb {
        "" => Ok(is_own(bench.dd.store(), functions, table)),
        "values" => {
            let value = value_at(bench.dd.store(), function_of(functions, table), number);
            Ok(value == Some(is_set(table, number)))
        }
        _ => agrees(bench, verb, functions, table, number),
    }
}

/// The last number that is asked of beside a table: none, a place, a level or that of another table.
fn last_number(verb: &str) -> u8 {
    match verb {
        "" => 0,
        "values" => 7,
        "exists" | "forall" => 2,
        _ => 15,
    }
}

/// For how many numbers what is asked of a table is so.
fn count_numbers(
    bench: &mut Workbench,
    verb: &str,
    functions: &Functions,
    table: u8,
) -> Result<u32, AllocError> {
    let mut count = 0u32;
    for number in 0..=last_number(verb) {
        let one = u32::from(is_so(bench, verb, functions, table, number)?);
        count = count.saturating_add(one);
    }
    Ok(count)
}

/// How often what is asked of all tables is so.
fn count_tables(
    bench: &mut Workbench,
    verb: &str,
    functions: &Functions,
) -> Result<u32, AllocError> {
    let mut count = 0u32;
    for table in 0..=255u8 {
        count = count.saturating_add(count_numbers(bench, verb, functions, table)?);
    }
    Ok(count)
}

/// How often what is asked of all tables is so, as text.
pub fn tables_text(alloc: Global, bench: &mut Workbench, verb: &str) -> Result<String, AllocError> {
    let mut functions = [FALSE; 256];
    fill(bench, &mut functions)?;
    match count_tables(bench, verb, &functions) {
        Ok(count) => number_text(alloc, u64::from(count)),
        Err(error) => Err(error),
    }
}
