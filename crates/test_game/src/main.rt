//! Cases of decision diagrams, of bits of terms, of games over bits, of guarded updates, of symbolic games, of the
//! cells of predicates and of certificates, table by table.
//!
//! The input is tables of `case_rows`; the module of a table's name tells what its rows ask.
#![tactic(auto)]

mod bits;
mod cells;
mod certificates;
mod designs;
mod diagrams;
mod flat;
mod forcing;
mod functions;
mod games;
mod knowing;
mod solving;
mod states;
mod steps;
mod subject;
mod texts;
mod updates;
mod workbench;

use case_rows::check_tables;
use std::io;
use subject::Subject;

fn main(rt: HostRuntime) -> io::Result<()> {
    check_tables::<Subject, HostRuntime>(&rt)
}
