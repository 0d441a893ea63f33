//! The first template that holds itself.
ghost use Rattle.std.specs.Prelude.{◌≡◌, ◌↔◌, ◌&&◌, ℕ, IfOk, false, get_or};
ghost use Rattle.std.specs.Option.{option_copied, option_map};
ghost use Rattle.tm_syntax.specs.Places.{is_before};
ghost use Rattle.tm_syntax.specs.Faults.Cycles.{TemplateMark};
ghost use Rattle.tm_syntax.specs.Faults.Marks.{named};
ghost use Rattle.tm_scope.specs.Graph.{IsWalk, LeadsTo, graph_of};
ghost use Rattle.tm_limits.specs.Firsts.{IsFirstOf};
ghost use Rattle.tm_limits.specs.Inner.Cycles.{IsMarked, marks_of, stands_before};

use std::alloc::{AllocError, Global};
use tm_base::Place;
use tm_scope::Walked;
use tm_syntax::tree::{Ident, Template};

/// For each node of a graph whether it reaches itself, as a walk over it found. `AllocError` is want of memory.
pub(crate) fn looping_nodes(
    alloc: Global,
    graph: &[Vec<usize>],
    walk: &[Walked],
) -> Result<Vec<bool>, AllocError>
    requires { IsWalk (graph_of graph.now) walk.now }
    ensures { IfOk result (λ marks. (a : ℕ) → IsMarked marks.items a ↔ LeadsTo (graph_of graph.now) a a) }
{
    let mut marks = Vec::new(alloc);
    marks.resize(graph.len(), false)?;
    for walked in walk {
        marks[walked.node] = walked.loops;
    }
    Ok(marks)
}

/// The name of the first template by its place whose number is marked.
pub(crate) fn first_marked<'a>(marks: &[bool], templates: &'a [Template]) -> Option<&'a Ident>
    ensures { IsFirstOf (λ (t : TemplateMark). t.mark) (λ (t : TemplateMark). IsMarked marks.now t.number)
        (marks_of templates.now) (option_map named (option_copied result)) }
{
    let mut first = None;
    for (number, template) in templates.iter().enumerate() {
        if comes_first(marks, number, &template.name, first) {
            first = Some(&template.name);
        }
    }
    first
}

// Whether the template of a number is marked, and stands before the first one that was found.
fn comes_first(marks: &[bool], number: usize, name: &Ident, first: Option<&Ident>) -> bool
    ensures { result ≡ (get_or marks.now number false && stands_before name.now (option_copied first.entry)) }
{
    is_marked(marks, number) && stands_before(name, first)
}

// Whether a number is marked.
fn is_marked(marks: &[bool], number: usize) -> bool
    ensures { result ≡ get_or marks.now number false }
{
    marks.get(number).copied().unwrap_or(false)
}

// Whether a name stands before another one, if there is one.
fn stands_before(name: &Ident, other: Option<&Ident>) -> bool
    ensures { result ≡ stands_before name.now (option_copied other.entry) }
{
    match other {
        Some(other) => is_before(name.place, other.place),
        None => true,
    }
}

// Whether a place stands before another one.
fn is_before(a: Place, b: Place) -> bool
    ensures { result ≡ is_before a b }
{
    a.line < b.line || (a.line == b.line && a.column < b.column)
}
