//! How many atoms texts have.
ghost use Rattle.std.specs.Prelude.{◌≤◌, length};
ghost use Rattle.tm_syntax.specs.Tree.View.{spec_tree};
ghost use Rattle.tm_scope.specs.Cells.{ArePausing};

use crate::pausing::pausing;
use crate::reading::tree_of;
use std::alloc::{AllocError, Global};
use tm_atoms::{Conditions, list_atoms};
use tm_inst::read_specification;
use tm_lex::MAX_TEXT_LEN;
use tm_scope::{Cells, Scopes, TaskSet};
use tm_syntax::design::Design;
use tm_syntax::fault::FrontError;
use tm_syntax::tree::Spec;

/// What is told of the atoms of a text whose instances, variables and items are those of a design.
fn counted(
    alloc: Global,
    scopes: &Scopes,
    pausing: &TaskSet,
    design: &Design,
) -> Result<String, AllocError>
    requires { ArePausing (spec_tree scopes.now) pausing.now }
{
    let instances = design.instances.as_slice();
    let vars = design.vars.as_slice();
    let cells = Cells::new(alloc, scopes.spec(), scopes, instances, vars, pausing)?;
    let conditions = Conditions {
        goals: design.goals.as_slice(),
        fairs: design.fairs.as_slice(),
        processes: design.processes.as_slice(),
        tasks: design.tasks.as_slice(),
    };
    let atoms = list_atoms(alloc, &cells, scopes, instances, conditions)?;
    format!(in alloc; "{} {}", atoms.len(), atoms.first())
}

/// What is told of the atoms of a text, or that its calls go in a circle.
fn told(alloc: Global, scopes: &Scopes, design: &Design) -> Result<String, AllocError> {
    match pausing(alloc, scopes)? {
        Some(pausing) => counted(alloc, scopes, &pausing, design),
        None => String::from_str(alloc, "calls in a circle"),
    }
}

/// What is told of the atoms of a tree whose instances, variables and items are those of a design.
fn tree_told(alloc: Global, spec: &Spec, design: &Design) -> Result<String, AllocError> {
    let scopes = Scopes::new(alloc, spec)?;
    told(alloc, &scopes, design)
}

/// A fault in words.
fn fault_text(alloc: Global, error: &FrontError) -> Result<String, AllocError> {
    match error {
        FrontError::Memory => Err(AllocError),
        FrontError::Faulty(fault) => format!(in alloc; "{:?}", fault.kind),
    }
}

/// What is told of the atoms of a specification.
pub fn atoms_of(alloc: Global, text: &[u8]) -> Result<String, AllocError> {
    if text.len() > MAX_TEXT_LEN {
        return String::from_str(alloc, "too long");
    }
    match read_specification(alloc, text) {
        Ok(read) => tree_told(alloc, &read.design.spec, &read.design),
        Err(error) => fault_text(alloc, &error),
    }
}

/// What is told of the atoms of a text with the items of a design.
fn text_told(alloc: Global, text: &[u8], design: &Design) -> Result<String, AllocError>
    requires { length text.now ≤ MAX_TEXT_LEN }
{
    match tree_of(alloc, text) {
        Ok(spec) => tree_told(alloc, &spec, design),
        Err(error) => fault_text(alloc, &error),
    }
}

/// What is told of the atoms of a text with the items of a specification.
pub fn atoms_with_items(alloc: Global, text: &[u8], items: &[u8]) -> Result<String, AllocError> {
    if text.len() > MAX_TEXT_LEN || items.len() > MAX_TEXT_LEN {
        return String::from_str(alloc, "too long");
    }
    match read_specification(alloc, items) {
        Ok(read) => text_told(alloc, text, &read.design),
        Err(error) => fault_text(alloc, &error),
    }
}
