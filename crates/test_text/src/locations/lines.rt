//! The lines of what is left to be done.

use std::alloc::{AllocError, Global};
use std::fmt::Write;
use tm_locations::{Locations, Work};
use tm_syntax::tree::Stmt;

/// The most parts of what is left that are told.
const MOST_PARTS: usize = 8;

/// The line of a statement, and 0 for a sort of statement that no case has.
fn stmt_line(stmt: &Stmt) -> u32 {
    match stmt {
        Stmt::Call(path, _) => path.names.first().map_or(0, |name| name.place.line),
        Stmt::Assign(path, _, _) => path.names.first().map_or(0, |name| name.place.line),
        Stmt::Pause(at) => at.line,
        Stmt::Wait(at, _) => at.line,
        Stmt::Magic(at) => at.line,
        _ => 0,
    }
}

/// Puts the lines of work behind others.
fn push_work(told: &mut String, work: &Work) -> Result<(), AllocError> {
    match work {
        Work::Locals(locals) => {
            for local in *locals {
                write!(told, " {}", local.name.place.line)?;
            }
            Ok(())
        }
        Work::Stmts(stmts) => {
            for stmt in *stmts {
                write!(told, " {}", stmt_line(stmt))?;
            }
            Ok(())
        }
        Work::Assume(at, _) => write!(told, " {}", at.line),
    }
}

/// The lines of what is left by a number, each behind a blank.
pub fn lines_left(alloc: Global, table: &Locations, number: usize) -> Result<String, AllocError> {
    let mut told = String::new(alloc);
    let mut at = number;
    for _count in 0..MOST_PARTS {
        let Some(node) = table.rest(at) else {
            break;
        };
        push_work(&mut told, &node.work)?;
        at = node.then;
    }
    Ok(told)
}
