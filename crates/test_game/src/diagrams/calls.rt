//! Calls of operations, as words spell them.

use super::Diagrams;
use case_rows::{number, split_word};
use std::alloc::{AllocError, Global};
use tm_dd::{FALSE, NodeId, TRUE};

/// The function that a word without a mark spells: a number, a letter or a constant.
fn plain(on: &mut Diagrams, word: &str) -> Result<NodeId, AllocError> {
    if let Ok(level) = word.parse::<u32>() {
        return on.bench.node(level, FALSE, TRUE);
    }
    match on.names.id(word) {
        Some(id) => Ok(id),
        None => Ok(on.bench.unknown()),
    }
}

/// The function that a word spells.
fn operand(on: &mut Diagrams, word: &str) -> Result<NodeId, AllocError> {
    let Some(rest) = word.strip_prefix('!') else {
        return plain(on, word);
    };
    match plain(on, rest) {
        Ok(id) => Ok(id.complement()),
        Err(error) => Err(error),
    }
}

/// The functions that words spell.
pub fn operands(alloc: Global, on: &mut Diagrams, words: &str) -> Result<Vec<NodeId>, AllocError> {
    let mut ids = Vec::new(alloc);
    for word in words.split_whitespace() {
        match operand(on, word) {
            Ok(id) => ids.push(id)?,
            Err(error) => return Err(error),
        }
    }
    Ok(ids)
}

/// One of several functions, and `FALSE` behind them.
pub fn nth(ids: &[NodeId], place: usize) -> NodeId {
    ids.get(place).copied().unwrap_or(FALSE)
}

/// The levels that words spell.
fn levels_of(alloc: Global, words: &str) -> Result<Vec<u32>, AllocError> {
    let mut levels = Vec::new(alloc);
    for word in words.split_whitespace() {
        levels.push(number(word))?;
    }
    Ok(levels)
}

/// The level that a word spells, and the function in its place.
fn part_of(on: &mut Diagrams, word: &str) -> Result<(u32, NodeId), AllocError> {
    let (level, function) = word.split_once(':').unwrap_or((word, ""));
    match operand(on, function) {
        Ok(id) => Ok((number(level), id)),
        Err(error) => Err(error),
    }
}

/// The levels that words spell, each with the function in its place.
fn parts_of(
    alloc: Global,
    on: &mut Diagrams,
    words: &str,
) -> Result<Vec<(u32, NodeId)>, AllocError> {
    let mut parts = Vec::new(alloc);
    for word in words.split_whitespace() {
        match part_of(on, word) {
            Ok(part) => parts.push(part)?,
            Err(error) => return Err(error),
        }
    }
    Ok(parts)
}

/// The node of a level with the children that words spell.
fn made(alloc: Global, on: &mut Diagrams, level: u32, words: &str) -> Result<NodeId, AllocError> {
    match operands(alloc, on, words) {
        Ok(ids) => on.bench.node(level, nth(&ids, 0), nth(&ids, 1)),
        Err(error) => Err(error),
    }
}

/// A function at some or all values of the levels that words spell.
fn quantified(
    alloc: Global,
    on: &mut Diagrams,
    verb: &str,
    f: NodeId,
    words: &str,
) -> Result<NodeId, AllocError> {
    match levels_of(alloc, words) {
        Ok(levels) => on.bench.quantified(verb, f, &levels),
        Err(error) => Err(error),
    }
}

/// A function with those that words spell in the places of levels.
fn composed(
    alloc: Global,
    on: &mut Diagrams,
    f: NodeId,
    words: &str,
) -> Result<NodeId, AllocError> {
    match parts_of(alloc, on, words) {
        Ok(parts) => on.bench.composed(f, &parts),
        Err(error) => Err(error),
    }
}

/// The function that a call with levels behind a function gives.
fn changed(
    alloc: Global,
    on: &mut Diagrams,
    verb: &str,
    words: &str,
) -> Result<NodeId, AllocError> {
    let (first, rest) = split_word(words);
    match operand(on, first) {
        Ok(f) if verb == "compose" => composed(alloc, on, f, rest),
        Ok(f) => quantified(alloc, on, verb, f, rest),
        Err(error) => Err(error),
    }
}

/// What an operation makes of functions.
fn applied(on: &mut Diagrams, verb: &str, ids: &[NodeId]) -> Result<NodeId, AllocError> {
    match verb {
        "not" => on.bench.opposite(nth(ids, 0)),
        "ite" => on.bench.chosen(nth(ids, 0), nth(ids, 1), nth(ids, 2)),
        "most" => on.bench.most_one(ids),
        _ => on.bench.folded(verb, ids),
    }
}

/// The function that a call gives which has functions alone behind its verb.
fn applied_to(
    alloc: Global,
    on: &mut Diagrams,
    verb: &str,
    words: &str,
) -> Result<NodeId, AllocError> {
    match operands(alloc, on, words) {
        Ok(ids) => applied(on, verb, &ids),
        Err(error) => Err(error),
    }
}

/// The function that a call gives.
fn call(alloc: Global, on: &mut Diagrams, words: &str) -> Result<NodeId, AllocError> {
    let (verb, rest) = split_word(words);
    match verb {
        "make" => {
            let (level, children) = split_word(rest);
            made(alloc, on, number(level), children)
        }
        "exists" | "forall" | "compose" => changed(alloc, on, verb, rest),
        _ if rest.is_empty() => operand(on, verb),
        _ => applied_to(alloc, on, verb, rest),
    }
}

/// The functions that calls give.
fn all_calls(alloc: Global, on: &mut Diagrams, calls: &str) -> Result<Vec<NodeId>, AllocError> {
    let mut ids = Vec::new(alloc);
    for words in calls.split("; ") {
        match call(alloc, on, words) {
            Ok(id) => ids.push(id)?,
            Err(error) => return Err(error),
        }
    }
    Ok(ids)
}

/// The function that a call gives, or a connective of several calls.
pub fn called(alloc: Global, on: &mut Diagrams, words: &str) -> Result<NodeId, AllocError> {
    let Some((verb, calls)) = words.split_once(" of ") else {
        return call(alloc, on, words);
    };
    match all_calls(alloc, on, calls) {
        Ok(ids) => on.bench.folded(verb, &ids),
        Err(error) => Err(error),
    }
}
