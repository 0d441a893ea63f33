//! Comparisons of a game with the interpreter, over sets that are drawn.

use super::allowing::allowed;
use super::questions::{Question, answer, questions};
use super::table::{Members, Table};
use crate::states::{Formula, is_true, set_of};
use crate::steps::{Draw, Reach, number_at};
use case_rows::numbers;
use std::alloc::{AllocError, Global};
use tm_dd::NodeId;
use tm_game::{Game, numbers_of};
use tm_plain::Machine;

/// At how many states the answers were yes to each of the questions about sets.
#[derive(Clone, Copy)]
struct Counts {
    calm: u64,
    stay: u64,
    force: u64,
    good: u64,
}

impl Counts {
    /// Counts the answers to a question.
    fn add(&mut self, question: Question, more: u64) {
        match question {
            Question::Valid | Question::Turn | Question::Goal(_) | Question::Set => {}
            Question::Calm => self.calm = self.calm.saturating_add(more),
            Question::Stay => self.stay = self.stay.saturating_add(more),
            Question::Force => self.force = self.force.saturating_add(more),
            Question::Good(_, _) => self.good = self.good.saturating_add(more),
        }
    }
}

/// Whether a diagram is true for values of all levels, with those of arguments from a level on.
fn is_true_with(
    alloc: Global,
    game: &Game,
    id: NodeId,
    values: &[bool],
    from: usize,
    arguments: &[bool],
) -> Result<bool, AllocError> {
    if arguments.is_empty() {
        return Ok(is_true(game, id, values));
    }
    let mut changed = Vec::from_slice(alloc, values)?;
    for (number, argument) in arguments.iter().enumerate() {
        if let Some(value) = changed.get_mut(from.saturating_add(number)) {
            *value = *argument;
        }
    }
    Ok(is_true(game, id, &changed))
}

/// At how many words a diagram is true, if it is true where a question is to be answered by yes.
fn agreed(
    alloc: Global,
    game: &Game,
    table: &Table,
    question: Question,
    id: NodeId,
    members: &Members,
) -> Result<Option<u64>, AllocError> {
    let from = table.fields.bits as usize;
    let arguments = table.arguments(question);
    let mut count = 0u64;
    for (word, spot) in table.spots.iter().enumerate() {
        let is_so = is_true_with(alloc, game, id, &spot.levels, from, arguments)?;
        if is_so != members.is_wanted(question, word, spot) {
            return Ok(None);
        }
        count = count.saturating_add(u64::from(is_so));
    }
    Ok(Some(count))
}

/// Whether a game answers a question about the set of a formula as it is wanted, which counts.
fn agrees(
    alloc: Global,
    game: &mut Game,
    table: &Table,
    question: Question,
    formula: &Formula,
    members: &Members,
    counts: &mut Counts,
) -> Result<bool, AllocError> {
    let set = set_of(game, formula)?;
    let id = answer(game, question, set)?;
    match agreed(alloc, game, table, question, id, members)? {
        Some(more) => {
            counts.add(question, more);
            Ok(true)
        }
        None => Ok(false),
    }
}

/// The number of the first question about the set of a formula that is not answered as it is wanted.
fn first_wrong(
    alloc: Global,
    game: &mut Game,
    table: &Table,
    questions: &[Question],
    formula: &Formula,
    members: &Members,
    counts: &mut Counts,
) -> Result<Option<usize>, AllocError> {
    for (number, question) in questions.iter().enumerate() {
        if !agrees(alloc, game, table, *question, formula, members, counts)? {
            return Ok(Some(number));
        }
    }
    Ok(None)
}

/// Whether the least state of a formula's set is the one that is wanted.
fn is_least(
    alloc: Global,
    game: &mut Game,
    table: &Table,
    formula: &Formula,
    members: &Members,
) -> Result<bool, AllocError> {
    let set = set_of(game, formula)?;
    match game.least(set)? {
        Some(state) => {
            let numbers = numbers_of(alloc, &state)?;
            Ok(table.least(members) == Some(table.fields.join(&numbers)))
        }
        None => Ok(table.least(members).is_none()),
    }
}

/// What is not as it is wanted of the set of a formula, as text.
fn difference(
    alloc: Global,
    game: &mut Game,
    table: &Table,
    questions: &[Question],
    formula: &Formula,
    counts: &mut Counts,
) -> Result<Option<String>, AllocError> {
    let members = table.members(alloc, formula)?;
    match first_wrong(alloc, game, table, questions, formula, &members, counts)? {
        Some(number) => Ok(Some(format!(in alloc; "question {number} differs")?)),
        None if is_least(alloc, game, table, formula, &members)? => Ok(None),
        None => Ok(Some(String::from_str(alloc, "the least state differs")?)),
    }
}

/// Compares the answers about so many sets: what is not as it is wanted, as text.
fn compare_sets(
    alloc: Global,
    game: &mut Game,
    table: &Table,
    questions: &[Question],
    sets: u64,
    counts: &mut Counts,
) -> Result<Option<String>, AllocError> {
    let mut draw = Draw::new(1);
    for _ in 0..sets {
        let formula = Formula::drawn(alloc, &mut draw, table.fields.bits as usize)?;
        if let Some(text) = difference(alloc, game, table, questions, &formula, counts)? {
            return Ok(Some(text));
        }
    }
    Ok(None)
}

/// Compares which moves are allowed: what all counts come to, or that these moves differ.
fn compare_allowed(
    alloc: Global,
    game: &mut Game,
    table: &Table,
    counts: &Counts,
) -> Result<String, AllocError> {
    match allowed(game, table)? {
        Some(allowed) => format!(in alloc;
            "{} states: calm {}, stay {}, force {}, good {}, allowed {allowed}",
            table.count(),
            counts.calm,
            counts.stay,
            counts.force,
            counts.good
        ),
        None => String::from_str(alloc, "allowed moves differ"),
    }
}

/// Compares a game with the table of its design, over so many sets.
fn compare(alloc: Global, game: &mut Game, table: &Table, sets: u64) -> Result<String, AllocError> {
    let mut counts = Counts {
        calm: 0,
        stay: 0,
        force: 0,
        good: 0,
    };
    let questions = questions(alloc, game.goals().len(), &table.moves)?;
    match compare_sets(alloc, game, table, &questions, sets, &mut counts)? {
        Some(text) => Ok(text),
        None => compare_allowed(alloc, game, table, &counts),
    }
}

/// The answer to a question that asks for a comparison.
pub fn compare_answer(
    alloc: Global,
    machine: &Machine,
    game: &mut Game,
    words: &str,
) -> Result<String, AllocError> {
    let numbers = numbers(alloc, words)?;
    let reach = Reach {
        length: number_at(&numbers, 0),
        range: number_at(&numbers, 1),
    };
    let table = Table::of(alloc, machine, game, reach)?;
    compare(alloc, game, &table, number_at(&numbers, 2))
}
