//! Cells: those that paths and parameters mean. They are numbered by hand from the rules of the language.
//!
//! Above the rows stands a specification. A row tells an instance, a body of it (`outside`, `process N` or `task N`)
//! and, behind `: `, what is asked. Cells are told as `state N`, `parameter N` and `local N`:
//!
//! - `PATH` or `PATH[INDEX]`: the cell that the path means there, or `none`;
//! - `its parameters`: the cells of the parameters of the task.
ghost use Rattle.std.specs.Prelude.{◌≡◌};
ghost use Rattle.tm_syntax.specs.Tree.View.{spec_tree};
ghost use Rattle.tm_scope.specs.Cells.{ArePausing};

mod answers;
mod parameters;

use crate::pausing::pausing;
use answers::answer_by_cells;
use std::alloc::{AllocError, Global};
use tm_scope::{Cells, Scopes, TaskSet};
use tm_syntax::design::Design;

/// The answer to a question by the tables of names, and the tasks that may pause.
fn answer_by_scopes(
    alloc: Global,
    design: &Design,
    scopes: &Scopes,
    pausing: &TaskSet,
    question: &str,
) -> Result<String, AllocError>
    requires text { scopes.now ≡ design.now.spec }
    requires pausing { ArePausing (spec_tree design.now.spec) pausing.now }
{
    let spec = &design.spec;
    let instances = design.instances.as_slice();
    let vars = design.vars.as_slice();
    let cells = Cells::new(alloc, spec, scopes, instances, vars, pausing)?;
    answer_by_cells(alloc, &cells, spec, instances, question)
}

/// The answer to a question about the cells of a design.
pub fn answer_to(alloc: Global, design: &Design, question: &str) -> Result<String, AllocError> {
    let scopes = Scopes::new(alloc, &design.spec)?;
    match pausing(alloc, &scopes)? {
        Some(pausing) => answer_by_scopes(alloc, design, &scopes, &pausing, question),
        None => String::from_str(alloc, "calls go in a circle"),
    }
}
