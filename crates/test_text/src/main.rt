//! Cases of the crates that read, judge, number and run texts and that read and print drivers, table by table.
//!
//! The input is tables of `case_rows`; the module of a table's name tells what its rows ask.
#![tactic(auto)]

ghost use Rattle.tm_syntax.specs.Tree.View.{spec_tree};
ghost use Rattle.tm_syntax.specs.Design.View.{design_tree};
ghost use Rattle.tm_syntax.specs.Faults.{IsOfText, IsSound};

mod atoms;
mod cells;
mod deep_calls;
mod designs;
mod drivers;
mod faults;
mod limits;
mod locations;
mod machines;
mod operands;
mod pausing;
mod reading;
mod scopes;
mod spelling;
mod states;
mod structured;
mod texts;
mod types;

use case_rows::{Answers, check_tables};
use std::alloc::{AllocError, Global};
use std::io;
use tm_inst::read_design;
use tm_plain::Tables;
use tm_sem::state::State;
use tm_syntax::design::Design;

/// The answer to a question about a design by its tables, in a table of this name, behind a last state.
fn answer_by_tables(
    alloc: Global,
    table: &str,
    design: &Design,
    tables: &Tables,
    last: &mut State,
    question: &str,
) -> Result<String, AllocError>
    requires sound { IsSound (design_tree design.now) }
    requires read { IsOfText (spec_tree design.now.spec) }
{
    match table {
        "locations" => locations::answer_to(alloc, tables, question),
        "machines" => machines::answer_to(alloc, design, tables, last, question),
        _ => String::from_str(alloc, "no such table"),
    }
}

/// The answer to a question about a design by tables that are made of it, in a table of this name, behind a last state.
fn answer_with_tables(
    alloc: Global,
    table: &str,
    design: &Design,
    last: &mut State,
    question: &str,
) -> Result<String, AllocError>
    requires sound { IsSound (design_tree design.now) }
    requires read { IsOfText (spec_tree design.now.spec) }
{
    match Tables::new(alloc, design) {
        Ok(tables) => {
            let found = answer_by_tables(alloc, table, design, &tables, last, question);
            drop(tables);
            found
        }
        Err(error) => Err(error),
    }
}

/// The answer to a question about a design by the design alone where that is enough, in a table of this name, behind a
/// last state.
fn answer_by_design(
    alloc: Global,
    table: &str,
    design: &Design,
    last: &mut State,
    question: &str,
) -> Result<String, AllocError>
    requires sound { IsSound (design_tree design.now) }
    requires read { IsOfText (spec_tree design.now.spec) }
{
    match table {
        "cells" => cells::answer_to(alloc, design, question),
        "drivers" => drivers::answer_to(alloc, design, question),
        "states" => states::answer_to(alloc, design, question),
        "structured" => structured::answer_to(alloc, design, question),
        _ => answer_with_tables(alloc, table, design, last, question),
    }
}

/// The answer to a question about a design by its text, in a table of this name, behind a last state, or `faulty`.
fn answer_by_text(
    alloc: Global,
    table: &str,
    text: &[u8],
    last: &mut State,
    question: &str,
) -> Result<String, AllocError> {
    match read_design(alloc, text) {
        Some(design) => answer_by_design(alloc, table, &design, last, question),
        None => String::from_str(alloc, "faulty"),
    }
}

/// What answers rows: the last state of a play.
#[derive(Drop)]
struct Rows {
    last: State,
}

impl Answers for Rows {
    fn new(alloc: Global, _table: &str, _text: &str) -> Result<Rows, AllocError> {
        Ok(Rows {
            last: State {
                values: Vec::new(alloc),
                places: Vec::new(alloc),
                last: 0,
            },
        })
    }

    fn answer(
        &mut self,
        alloc: Global,
        table: &str,
        text: &str,
        question: &str,
    ) -> Result<String, AllocError> {
        let text = text.as_bytes();
        match table {
            "atoms" => atoms::answer_to(alloc, text, question),
            "designs" => designs::answer_to(alloc, text, question),
            "limits" => limits::answer_to(alloc, text, question),
            "operands" => operands::answer_to(alloc, question),
            "scopes" => scopes::answer_to(alloc, text, question),
            "texts" => texts::answer_to(alloc, question),
            "types" => types::answer_to(alloc, text, question),
            _ => answer_by_text(alloc, table, text, &mut self.last, question),
        }
    }
}

fn main(rt: HostRuntime) -> io::Result<()> {
    check_tables::<Rows, HostRuntime>(&rt)
}
