//! Designs and faults of texts. The lines are written by hand from the rules of numbering.
//!
//! The rows are answered by the instances, variables, processes, controllable tasks, goals and fairness conditions of
//! a design, or by a fault:
//!
//! - `design`: of the specification that stands above;
//! - `wide N`: of one beside whose `main` stand templates of which one would be 2^N instances.

use crate::faults::{details, push_name};
use case_rows::{number, split_word};
use std::alloc::{AllocError, Global};
use std::fmt::Write;
use tm_inst::{MOST_BYTES, read_specification};
use tm_syntax::design::{Design, Instance, Item, Var};
use tm_syntax::fault::{Faulty, FrontError};

/// Adds what instances are: a path, a template's number, and the numbers of ports and children.
fn push_instances(told: &mut String, nodes: &[Instance]) -> Result<(), AllocError> {
    for node in nodes {
        push_name(told, &node.path)?;
        let ports = &node.ports;
        let children = &node.children;
        write!(told, ":{}{ports:?}{children:?} ", node.template)?;
    }
    told.push_str("| ")
}

/// Adds what variables are: a path, the initial value and the instance.
fn push_vars(told: &mut String, vars: &[Var]) -> Result<(), AllocError> {
    for var in vars {
        push_name(told, &var.path)?;
        match var.init {
            Some(value) => write!(told, "={value}")?,
            None => {}
        }
        write!(told, "@{} ", var.instance)?;
    }
    told.push_str("|")
}

/// Adds the paths of items.
fn push_items(told: &mut String, items: &[Item]) -> Result<(), AllocError> {
    for item in items {
        told.push(' ')?;
        push_name(told, &item.path)?;
    }
    told.push(';')
}

/// A design as a line.
fn design_told(alloc: Global, design: &Design) -> Result<String, AllocError> {
    let mut told = String::new(alloc);
    push_instances(&mut told, design.instances.as_slice())?;
    push_vars(&mut told, design.vars.as_slice())?;
    push_items(&mut told, design.processes.as_slice())?;
    push_items(&mut told, design.tasks.as_slice())?;
    push_items(&mut told, design.goals.as_slice())?;
    push_items(&mut told, design.fairs.as_slice())?;
    Ok(told)
}

/// A fault as a line.
fn fault_told(alloc: Global, fault: &Faulty) -> Result<String, AllocError> {
    let rest = details(alloc, fault)?;
    format!(in alloc; "{:?} {rest}", fault.kind)
}

/// What a text gets: its design, or its fault.
fn answer(alloc: Global, text: &[u8]) -> Result<String, AllocError> {
    if text.len() > MOST_BYTES {
        return String::from_str(alloc, "too long");
    }
    match read_specification(alloc, text) {
        Ok(read) => design_told(alloc, &read.design),
        Err(FrontError::Memory) => Err(AllocError),
        Err(FrontError::Faulty(fault)) => fault_told(alloc, &fault),
    }
}

/// A text whose template `main` holds nothing, and beside it templates of which one would be 2^N instances.
fn wide_text(alloc: Global, levels: u32) -> Result<String, AllocError> {
    let mut text = String::from_str(
        alloc,
        "template main bool x; endtemplate template t0 endtemplate",
    )?;
    for below in 0..levels {
        let template = below.saturating_add(1);
        write!(
            text,
            " template t{template} instance t{below} a; instance t{below} b; endtemplate"
        )?;
    }
    Ok(text)
}

/// The answer to the question of a row.
pub fn answer_to(alloc: Global, text: &[u8], question: &str) -> Result<String, AllocError> {
    let (verb, rest) = split_word(question);
    match verb {
        "design" => answer(alloc, text),
        "wide" => answer(alloc, wide_text(alloc, number(rest))?.as_bytes()),
        _ => String::from_str(alloc, "no question"),
    }
}
