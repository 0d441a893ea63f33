//! The table of the locations of a process.
ghost use Rattle.std.specs.Prelude.{◌≡◌, ◌≤◌, ℕ, IfOk, [], Some, length, map, slice_get, suc};
ghost use Rattle.std.specs.List.{AllZip};
ghost use Rattle.tm_syntax.specs.Tree.View.{process_tree, spec_tree};
ghost use Rattle.tm_syntax.specs.Scopes.Parts.{body_stmts};
ghost use Rattle.tm_syntax.specs.Scopes.Pauses.{call_depth};
ghost use Rattle.tm_syntax.specs.Design.{DesignTree};
ghost use Rattle.tm_syntax.specs.Design.Locations.{body_locations};
ghost use Rattle.tm_syntax.specs.Design.Work.{perform};
ghost use Rattle.tm_scope.specs.CallOrder.{CoversTasks, IsCallOrder};
ghost use Rattle.tm_scope.specs.Cells.{ArePausing, scope_of};
ghost use Rattle.tm_scope.specs.Instances.{IsOver};
ghost use Rattle.tm_locations.specs.Locations.{AreLocations, IsRest, IsRow, LeadsByText, table_of};

use crate::callees::{Callees, ProcessAt};
use crate::table::Locations;
use crate::walk::Walk;
use std::alloc::{AllocError, Global};
use tm_scope::{Scopes, TaskSet};
use tm_syntax::design::{Instance, Item};
use tm_syntax::member::Member;

/// The locations of a process of a design, with what is left to be done after each. `instances` are those of the
/// design, `pausing` the tasks of the text that may pause, and `order` has all tasks, each behind those that it calls.
///
/// Linear in the statements of the process and of the bodies that it calls and that may pause, as often as they are
/// called; no other body is entered. `AllocError` is want of memory.
pub fn find_locations<'t>(
    alloc: Global,
    scopes: &Scopes<'t>,
    instances: &[Instance],
    pausing: &TaskSet,
    order: &[Member],
    process: &Item,
) -> Result<Locations<'t>, AllocError>
    requires pausing { ArePausing (spec_tree scopes.now) pausing.now }
    requires ordered { IsCallOrder (spec_tree scopes.now) order.now }
    requires covers { CoversTasks (spec_tree scopes.now) order.now }
    requires short { length order.now ≤ call_depth (spec_tree scopes.now) }
    ensures { IfOk result (λ t. (d : DesignTree) → (p : ℕ) →
        IsOver (record { spec = scopes.now; instances = instances.now }) d → LeadsByText d
        → slice_get d.processes p ≡ Some process.now → AreLocations (table_of t) d p) }
{
    let callees = Callees::new(scopes, instances, pausing);
    match callees.process(process) {
        None => Walk::new(alloc).into_table(alloc, 0),
        Some(found) => walk_process(alloc, &callees, &found, order.len()),
    }
}

// The locations of a process below which calls nest at most so deep.
fn walk_process<'t>(
    alloc: Global,
    callees: &Callees<'_, 't>,
    at: &ProcessAt<'t>,
    depth: usize,
) -> Result<Locations<'t>, AllocError>
    ensures rows { IfOk result (λ t. (d : DesignTree) → IsOver callees.now d → LeadsByText d
        → depth ≤ call_depth d.spec → AllZip (IsRow (table_of t).trails (table_of t).rests) (table_of t).rows
        (body_locations (suc depth) d (scope_of at.now.scope) [] (process_tree at.now.process.now).body [])) }
    ensures start { IfOk result (λ t. IsRest (table_of t).trails (table_of t).rests (table_of t).start
        (map (perform (scope_of at.now.scope) []) (body_stmts (process_tree at.now.process.now).body))) }
{
    let mut walk = Walk::new(alloc);
    given!(walk.begin(at.scope, &at.process.body, depth), walk);
    given!(walk.run(callees), walk);
    let start = given!(walk.start_of(at.scope, &at.process.body), walk);
    walk.into_table(alloc, start)
}
