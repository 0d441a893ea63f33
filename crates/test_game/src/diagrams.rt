//! Diagrams: the functions that a store keeps, each once, and those that operations on diagrams give.
//!
//! A text is a number of levels, at most 512: the rows below it ask one behind the other of a manager of so many.
//! Functions are written `true`, `false`, as the number of the level whose value they are or as a letter, and with `!`
//! in front where their complement is meant. A row `LETTER = CALL` lets the letter stand for the function that the call
//! gives. It is answered, as the call alone is, by how that function was written before, or by `new`. The calls are a
//! function as it is written, `and`, `or`, `xor` and `most` (where at most one is true) of any number of functions,
//! `not F`, `ite F F F`, `make LEVEL F F` for the node with these children, `exists F LEVELS`, `forall F LEVELS`, and
//! `compose F` with a word `LEVEL:F` for each level in whose place a function is put; and `and`, `or` or `xor of CALL;
//! CALL; ..`.
//!
//! The other rows are:
//!
//! - `kept`: how many nodes are kept;
//! - `steps`: how many steps were counted since steps were asked for, and `steps N`: whether they are at most N;
//! - `node F`: the level and the children of a function's node, or `constant`; `values F`: its values over two or three
//!   levels, the lowest level throughout the highest digit of the place; `marks F F`: whether just one of two ids is
//!   marked; `less F F`: whether an id is less than another;
//! - `size F`: how many ids of inner nodes are reached, a function and its complement by two; `support F`; `least F`;
//!   and `count F`: at how many values of the levels it is true, below 2 ^ 64;
//! - `copy F` and `copy F F`: what is kept behind these roots alone is copied, letters that are these roots stand for
//!   the copies, and no other letter stands for anything;
//! - `tables`: how many truth tables of three levels have a function of their own, with their complement and their
//!   values; `tables CALL` and `tables values`: for how many functions of three levels, each with 16 of them, with its
//!   levels or with its places, the manager gives what their tables do.
//!
//! A row is answered `unknown` where a function in it is none that the manager knows.

mod calls;
mod counting;
mod names;
mod reading;
mod tables;

use crate::texts::{number_text, truth_text};
use crate::workbench::{Workbench, known};
use calls::{called, nth, operands};
use case_rows::split_word;
use names::Names;
use reading::reading;
use std::alloc::{AllocError, Global};
use tables::tables_text;
use tm_dd::NodeId;

/// The greatest number of levels.
const MOST: u32 = 512;

/// A manager of diagrams, the letters that stand for functions, and how many steps were told.
#[derive(Drop)]
pub struct Diagrams {
    pub bench: Workbench,
    pub names: Names,
    told: u64,
}

/// How many steps were counted since this was asked, or whether they are at most a limit.
fn steps_text(alloc: Global, on: &mut Diagrams, limit: &str) -> Result<String, AllocError> {
    let all = on.bench.steps.count();
    let count = all.saturating_sub(on.told);
    on.told = all;
    match limit.parse::<u64>() {
        Ok(limit) => truth_text(alloc, count <= limit),
        Err(_) => number_text(alloc, count),
    }
}

/// Copies what the functions reach that words spell.
fn copy_text(alloc: Global, on: &mut Diagrams, words: &str) -> Result<String, AllocError> {
    let mut roots = operands(alloc, on, words)?;
    if !on.bench.copied(&mut roots)? {
        return String::from_str(alloc, "unknown");
    }
    let (first, second) = split_word(words);
    on.names
        .reset(first, nth(&roots, 0), second, nth(&roots, 1));
    String::from_str(alloc, "copied")
}

/// The answer to a question about functions that words spell.
fn reading_text(
    alloc: Global,
    on: &mut Diagrams,
    verb: &str,
    words: &str,
) -> Result<String, AllocError> {
    let ids = operands(alloc, on, words)?;
    let f = known(&on.bench.dd, &mut on.bench.is_lost, nth(&ids, 0));
    reading(alloc, &on.bench.dd, &on.names, verb, f, nth(&ids, 1))
}

/// How a function is written. A letter then stands for it, if it is known.
fn named(alloc: Global, on: &mut Diagrams, letter: &str, id: NodeId) -> Result<String, AllocError> {
    let word = on.names.word(alloc, id);
    if !on.bench.is_lost {
        on.names.set(letter, id);
    }
    word
}

/// How the function of a call is written. The letter then stands for it.
fn called_text(
    alloc: Global,
    on: &mut Diagrams,
    letter: &str,
    call: &str,
) -> Result<String, AllocError> {
    match called(alloc, on, call) {
        Ok(id) => named(alloc, on, letter, id),
        Err(error) => Err(error),
    }
}

/// Whether a word asks what is told of functions.
fn is_reading(verb: &str) -> bool {
    matches!(
        verb,
        "kept" | "node" | "values" | "marks" | "less" | "size" | "support" | "count" | "least"
    )
}

/// The answer to a question without a letter in front, where all functions in it are known.
fn found(alloc: Global, on: &mut Diagrams, question: &str) -> Result<String, AllocError> {
    let (verb, rest) = split_word(question);
    match verb {
        "copy" => copy_text(alloc, on, rest),
        "steps" => steps_text(alloc, on, rest),
        "tables" => tables_text(alloc, &mut on.bench, rest),
        _ if is_reading(verb) => reading_text(alloc, on, verb, rest),
        _ => called_text(alloc, on, "", question),
    }
}

/// The answer to the question of a row, where all functions in it are known.
fn answer_to(alloc: Global, on: &mut Diagrams, question: &str) -> Result<String, AllocError> {
    match question.split_once(" = ") {
        Some((letter, call)) => called_text(alloc, on, letter, call),
        None => found(alloc, on, question),
    }
}

impl Diagrams {
    /// A manager of functions of so many levels, of which nothing is written yet.
    pub fn new(alloc: Global, levels: u32) -> Result<Diagrams, AllocError> {
        match Workbench::new(alloc, levels.min(MOST)) {
            Ok(bench) => Ok(Diagrams {
                bench,
                names: Names::new(),
                told: 0,
            }),
            Err(error) => Err(error),
        }
    }

    /// The answer to the question of a row.
    pub fn answer(&mut self, alloc: Global, question: &str) -> Result<String, AllocError> {
        match answer_to(alloc, self, question) {
            Ok(answer) => self.bench.told(alloc, answer),
            Err(error) => Err(error),
        }
    }
}
