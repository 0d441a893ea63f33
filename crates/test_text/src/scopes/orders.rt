//! Which tasks reach themselves, and which order their calls have.

use crate::faults::numbered;
use crate::reading::tree_of;
use case_rows::numbers;
use std::alloc::{AllocError, Global};
use std::fmt::Write;
use tm_lex::MAX_TEXT_LEN;
use tm_scope::{Scopes, TaskSet, call_order, looping_tasks};
use tm_syntax::member::Member;
use tm_syntax::tree::Spec;

/// Adds a call of each of these tasks.
fn push_calls(text: &mut String, callees: &[u64]) -> Result<(), AllocError> {
    for callee in callees {
        write!(text, "t{callee}();")?;
    }
    Ok(())
}

/// A specification of tasks that make these calls.
fn specification(alloc: Global, calls: &[Vec<u64>]) -> Result<String, AllocError> {
    let mut text = String::from_str(alloc, "template main")?;
    for (number, callees) in calls.iter().enumerate() {
        write!(text, " task uncontrollable t{number}() {{")?;
        push_calls(&mut text, callees)?;
        text.push('}')?;
    }
    text.push_str(" endtemplate")?;
    Ok(text)
}

/// Whether these tasks are all in a list.
fn are_in(callees: &[u64], order: &[Member]) -> bool {
    for callee in callees {
        let member = Member {
            template: 0,
            index: *callee as usize,
        };
        if !order.contains(&member) {
            return false;
        }
    }
    true
}

/// Whether each task stands behind all that it calls.
fn stands_behind(calls: &[Vec<u64>], order: &[Member]) -> bool {
    for (place, caller) in order.iter().enumerate() {
        let Some(callees) = calls.get(caller.index) else {
            return false;
        };
        if !are_in(callees, &order[..place]) {
            return false;
        }
    }
    order.len() == calls.len()
}

/// Which of so many tasks are in a set.
fn members(alloc: Global, set: &TaskSet, count: usize) -> Result<Vec<usize>, AllocError> {
    let mut found = Vec::new(alloc);
    for index in 0..count {
        if set.has(Member { template: 0, index }) {
            found.push(index)?;
        }
    }
    Ok(found)
}

/// What is told of an order of calls.
fn order_word(calls: &[Vec<u64>], order: &[Member]) -> &'static str {
    if stands_behind(calls, order) {
        "ordered"
    } else {
        "out of order"
    }
}

/// What is told of calls, by the tables of the names of their tasks.
fn told(alloc: Global, scopes: &Scopes, calls: &[Vec<u64>]) -> Result<String, AllocError> {
    let looping = members(alloc, &looping_tasks(alloc, scopes)?, calls.len())?;
    let ordered = match call_order(alloc, scopes)? {
        Some(order) => order_word(calls, &order),
        None => "not ordered",
    };
    format!(in alloc; "{looping:?} {ordered}")
}

/// What is told of a tree with these calls.
fn tree_told(alloc: Global, spec: &Spec, calls: &[Vec<u64>]) -> Result<String, AllocError> {
    let scopes = Scopes::new(alloc, spec)?;
    told(alloc, &scopes, calls)
}

/// What is told of a text with these calls.
fn text_told(alloc: Global, text: &[u8], calls: &[Vec<u64>]) -> Result<String, AllocError> {
    if text.len() > MAX_TEXT_LEN {
        return String::from_str(alloc, "too long");
    }
    match tree_of(alloc, text) {
        Ok(spec) => tree_told(alloc, &spec, calls),
        Err(error) => numbered(alloc, &error),
    }
}

/// The calls that words spell.
fn calls_of(alloc: Global, words: &str) -> Result<Vec<Vec<u64>>, AllocError> {
    let mut calls = Vec::new(alloc);
    for callees in words.split(';') {
        calls.push(numbers(alloc, callees)?)?;
    }
    Ok(calls)
}

/// What is told of tasks that make the calls that words spell.
pub fn calls_text(alloc: Global, words: &str) -> Result<String, AllocError> {
    let calls = calls_of(alloc, words)?;
    let text = specification(alloc, &calls)?;
    text_told(alloc, text.as_bytes(), &calls)
}
