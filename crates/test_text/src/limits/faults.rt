//! The faults of templates and of limits.
ghost use Rattle.tm_syntax.specs.Tree.View.{spec_tree};
ghost use Rattle.tm_scope.specs.Graph.{graph_of};
ghost use Rattle.tm_limits.specs.TemplateOrders.{AreOrdered};

use crate::faults::{details, numbered, push_name};
use crate::reading::tree_of;
use std::alloc::{AllocError, Global};
use tm_lex::MAX_TEXT_LEN;
use tm_limits::{TemplateOrder, first_limit, template_order};
use tm_scope::{Scopes, call_order};
use tm_syntax::tree::{Ident, Spec};

/// What is told of a template that holds itself: its place and its name.
fn cycle_told(alloc: Global, name: &Ident) -> Result<String, AllocError> {
    let mut told = format!(in alloc; "{}:{} ", name.place.line, name.place.column)?;
    push_name(&mut told, &name.text)?;
    Ok(told)
}

/// The first limit of a text that is not kept, given an order of its templates.
fn limit_answer(
    alloc: Global,
    scopes: &Scopes,
    graph: &[Vec<usize>],
    order: &[usize],
) -> Result<String, AllocError>
    requires { AreOrdered (spec_tree scopes.now) (graph_of graph.now) order.now }
{
    match call_order(alloc, scopes)? {
        Some(calls) => match first_limit(alloc, scopes, graph, order, &calls)? {
            Some(fault) => details(alloc, &fault),
            None => format!(in alloc; "none"),
        },
        None => format!(in alloc; "calls"),
    }
}

/// What is told of the templates and limits of a text, by the tables of its names.
fn judged(alloc: Global, scopes: &Scopes) -> Result<String, AllocError> {
    match template_order(alloc, scopes)? {
        TemplateOrder::Cyclic(name) => cycle_told(alloc, name),
        TemplateOrder::Ordered(graph, order) => limit_answer(alloc, scopes, &graph, &order),
    }
}

/// What is told of the templates and limits of a tree.
fn told(alloc: Global, spec: &Spec) -> Result<String, AllocError> {
    let scopes = Scopes::new(alloc, spec)?;
    judged(alloc, &scopes)
}

/// What a text gets: `none`, or its fault.
pub fn fault_of(alloc: Global, text: &[u8]) -> Result<String, AllocError> {
    if text.len() > MAX_TEXT_LEN {
        return String::from_str(alloc, "too long");
    }
    match tree_of(alloc, text) {
        Ok(spec) => told(alloc, &spec),
        Err(error) => numbered(alloc, &error),
    }
}
