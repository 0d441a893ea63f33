//! Solves games, decides them over predicates and parts drawn sets of states, and tells what comes of it.
//!
//! The input is a table of `case_rows` whose rows want no answer. A row asks of the specification that stands above it,
//! `WORD TIMES` or `WORD TIMES weight`, and is printed with what comes of the last time. Games are in the control order
//! of the bits of states, or in the weight order where that is asked for. No module tells a time: the scripts of the
//! folder `bench` do.
//!
//! - `make`: how many nodes the game keeps at first;
//! - `decide`: who wins the exact game, how many ranked sets each goal has, how many levels lead out of the region, and
//!   how many nodes the region has and the game keeps;
//! - `refine`: who wins the game decided over predicates, how many are tracked and how many of them were added, in how
//!   many rounds, and how many solutions over cells were sought;
//! - `draw`, `lower`, `upper`: how many nodes so many drawn sets have, and then these sets, their lower or their upper
//!   parts over the cells of the first predicates of the pool.
#![tactic(auto)]

ghost use Rattle.tm_syntax.specs.Design.View.{design_tree};
ghost use Rattle.tm_syntax.specs.Faults.{IsOfText, IsSound};

mod cells;
mod counting;
mod drawing;
mod games;
mod refining;

use case_rows::{Case, number, read_cases, read_table, split_word};
use cells::{Side, parted};
use games::{decided, made};
use refining::refined;
use std::alloc::{AllocError, Global};
use std::io;
use tm_inst::read_design;
use tm_syntax::design::Design;

/// What comes of what a word asks for, in an order of the bits of states.
fn done(alloc: Global, design: &Design, word: &str, order: &str) -> Result<String, AllocError>
    requires sound { IsSound (design_tree design.now) }
    requires of_text { IsOfText (design_tree design.now).spec }
{
    match word {
        "make" => made(alloc, design, order),
        "decide" => decided(alloc, design, order),
        "refine" => refined(alloc, design, order),
        _ => String::from_str(alloc, "nothing that is measured"),
    }
}

/// What comes of it the last of so many times.
fn repeated(
    alloc: Global,
    design: &Design,
    word: &str,
    order: &str,
    times: u32,
) -> Result<String, AllocError>
    requires sound { IsSound (design_tree design.now) }
    requires of_text { IsOfText (design_tree design.now).spec }
{
    let mut told = String::new(alloc);
    for _time in 0..times {
        told = done(alloc, design, word, order)?;
    }
    Ok(told)
}

/// What is asked of a design: a word, how many times, and an order of the bits of states.
fn measured(
    alloc: Global,
    design: &Design,
    word: &str,
    order: &str,
    times: u32,
) -> Result<String, AllocError>
    requires sound { IsSound (design_tree design.now) }
    requires of_text { IsOfText (design_tree design.now).spec }
{
    match word {
        "draw" => parted(alloc, design, Side::Itself, times),
        "lower" => parted(alloc, design, Side::Lower, times),
        "upper" => parted(alloc, design, Side::Upper, times),
        _ => repeated(alloc, design, word, order, times),
    }
}

/// The answer to a row about a text.
fn answer(alloc: Global, text: &[u8], question: &str) -> Result<String, AllocError> {
    let (word, rest) = split_word(question);
    let (times, order) = split_word(rest);
    match read_design(alloc, text) {
        Some(design) => measured(alloc, &design, word, order, number(times)),
        None => String::from_str(alloc, "faulty"),
    }
}

/// Prints the rows of a case with what comes of them.
fn print_case<R: Print + AllocGlobal>(rt: &R, case: &Case) -> io::Result<()> {
    for row in &case.rows {
        let found = answer(rt.alloc(), case.text.as_bytes(), row.question)?;
        println!(rt; "{}: {found}", row.question)?;
    }
    Ok(())
}

fn main(rt: HostRuntime) -> io::Result<()> {
    let table = read_table(&rt)?;
    for case in &read_cases(rt.alloc(), table.as_str())? {
        print_case(&rt, case)?;
    }
    Ok(())
}
