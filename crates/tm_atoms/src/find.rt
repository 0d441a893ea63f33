//! Finds the atoms of a design's conditions.
ghost use Rattle.std.specs.Prelude.{◌≡◌, ◌++◌, ℕ, IfOk, IfSome, Ok, OnOk, Option, length, map};
ghost use Rattle.std.specs.List.{flat_map};
ghost use Rattle.std.specs.Option.{option_map};
ghost use Rattle.tm_syntax.specs.Tree as tree;
ghost use Rattle.tm_syntax.specs.Tree.View.{body_tree};
ghost use Rattle.tm_syntax.specs.Design.{DesignTree};
ghost use Rattle.tm_syntax.specs.Design.Atoms.{claim_atoms, first_atoms, named_atoms, pool_atoms, process_atoms, task_atoms};
ghost use Rattle.tm_syntax.specs.Design.Scope.{Scope};
ghost use Rattle.tm_scope.specs.Cells.{HasCells, scope_of};
ghost use Rattle.tm_atoms.specs.Atoms.{atom_of, listed};
ghost use Rattle.tm_locations.specs.Locations.{LeadsByText};
ghost use Rattle.tm_atoms.specs.Conditions.{HasConditions};
ghost use Rattle.tm_atoms.specs.Orders.{HasCallOrder};
ghost use Rattle.tm_atoms.specs.Pool.{with_atoms};
ghost use Rattle.tm_atoms.specs.Inner.Bodies.{claims_of, seen};
ghost use Rattle.tm_atoms.specs.Inner.Pools.{noted_atoms};
ghost use Rattle.tm_atoms.specs.Inner.Ranks.{IsRanked};
ghost use Rattle.tm_atoms.specs.Inner.Walks.{HasWalked, IsIdle, IsRoot, seen_atoms, tables_of};

use crate::atoms::Atoms;
use crate::bodies::{Bodies, BodyAt, Claim};
use crate::walk::Walk;
use std::alloc::{AllocError, Global};
use tm_scope::{BodyName, Cells, Scopes, SiteBody};
use tm_syntax::design::{Instance, Item};

/// The items of a design whose conditions have atoms.
#[derive(Clone, Copy)]
pub struct Conditions<'i> {
    pub goals: &'i [Item],
    /// The declared fairness conditions.
    pub fairs: &'i [Item],
    pub processes: &'i [Item],
    /// The controllable tasks.
    pub tasks: &'i [Item],
}

/// The atoms of a design's conditions, each once, in order: those of the goals and of the declared fairness conditions,
/// then those of the conditions in processes and in controllable tasks, with called bodies at the place of the call.
/// Atoms that mention what lives for one step are left out.
///
/// `instances` are those of the cells. Where paths lead by the text, and calls are in the order that `call_order` of
/// `tm_scope` finds, these are the atoms of the design's pool, and their number is the one that is limited.
///
/// Linear in the goals, fairness conditions, and bodies of the instances, but for the heights of comparisons within
/// comparisons: a called body is walked once for each instance, however many calls reach it. `AllocError` is want of
/// memory.
pub fn list_atoms<'t>(
    alloc: Global,
    cells: &Cells,
    scopes: &Scopes<'t>,
    instances: &[Instance],
    conditions: Conditions<'_>,
) -> Result<Atoms<'t>, AllocError>
    requires text { scopes.now ≡ cells.now.spec }
    requires instances { instances.now ≡ cells.now.instances }
    ensures atoms { IfOk result (λ t. (d : DesignTree) → HasCells cells.now d → HasConditions conditions.entry d →
        LeadsByText d → HasCallOrder d.spec → map atom_of (listed t) ≡ pool_atoms d) }
    ensures count { IfOk result (λ t. (d : DesignTree) → HasCells cells.now d → HasConditions conditions.entry d →
        LeadsByText d → HasCallOrder d.spec → length (listed t) ≡ length (pool_atoms d)) }
    ensures first { IfOk result (λ t. (d : DesignTree) → HasCells cells.now d → HasConditions conditions.entry d →
        t.first ≡ first_atoms d) }
{
    let bodies = Bodies::new(cells, scopes, instances);
    let mut walk = Walk::new(alloc);
    let first = note_all(&mut walk, &bodies, conditions);
    drop(bodies);
    atoms_of(walk, first)
}

// The atoms that have been noted, given how many of them stand in goals and fairness conditions.
fn atoms_of<'t>(walk: Walk<'t>, first: Result<usize, AllocError>) -> Result<Atoms<'t>, AllocError>
    ensures { IfOk result (λ t. (first ≡ Ok t.first) × (t.atoms.entries ≡ walk.entry.pool.atoms.entries)) }
{
    match first {
        Ok(first) => Ok(Atoms {
            atoms: walk.into_atoms(),
            first,
        }),
        Err(error) => {
            drop(walk);
            Err(error)
        }
    }
}

// Notes the atoms of all conditions, and counts those that have been noted once goals and fairness conditions are.
fn note_all<'t>(
    walk: &mut Walk<'t>,
    bodies: &Bodies<'_, 't>,
    conditions: Conditions<'_>,
) -> Result<usize, AllocError>
    ensures all { OnOk result ((d : DesignTree) → HasCells bodies.now d → HasConditions conditions.entry d →
        (rank : Scope → ℕ) → IsRanked d rank → IsIdle d (tables_of walk.old) →
        HasWalked d (tables_of walk.old) (tables_of walk.new)
        (claim_atoms d ++ flat_map (process_atoms d) d.processes ++ flat_map (task_atoms d) d.tasks)) }
    ensures first { IfOk result (λ first. (d : DesignTree) → HasCells bodies.now d → HasConditions conditions.entry d →
        IsIdle d (tables_of walk.old) →
        first ≡ length (with_atoms d (noted_atoms (tables_of walk.old).pool) (claim_atoms d))) }
{
    note_claims(walk, bodies, Claim::Goal, conditions.goals)?;
    note_claims(walk, bodies, Claim::Fairness, conditions.fairs)?;
    let first = walk.pool.atoms.len();
    note_processes(walk, bodies, conditions.processes)?;
    note_tasks(walk, bodies, conditions.tasks)?;
    Ok(first)
}

// Notes the atoms of goals or of fairness conditions.
fn note_claims<'t>(
    walk: &mut Walk<'t>,
    bodies: &Bodies<'_, 't>,
    sort: Claim,
    items: &[Item],
) -> Result<(), AllocError>
    ensures { OnOk result ((d : DesignTree) → HasCells bodies.now d → IsIdle d (tables_of walk.old) →
        HasWalked d (tables_of walk.old) (tables_of walk.new) (flat_map (named_atoms d (claims_of sort)) items.now)) }
{
    for item in items {
        note_claim(walk, bodies, sort, item)?;
    }
    Ok(())
}

// Notes the atoms of processes.
fn note_processes<'t>(
    walk: &mut Walk<'t>,
    bodies: &Bodies<'_, 't>,
    processes: &[Item],
) -> Result<(), AllocError>
    ensures { OnOk result ((d : DesignTree) → HasCells bodies.now d → (rank : Scope → ℕ) → IsRanked d rank →
        IsIdle d (tables_of walk.old) →
        HasWalked d (tables_of walk.old) (tables_of walk.new) (flat_map (process_atoms d) processes.now)) }
{
    for item in processes {
        note_body(walk, bodies, bodies.process(item))?;
    }
    Ok(())
}

// Notes the atoms of controllable tasks.
fn note_tasks<'t>(
    walk: &mut Walk<'t>,
    bodies: &Bodies<'_, 't>,
    tasks: &[Item],
) -> Result<(), AllocError>
    ensures { OnOk result ((d : DesignTree) → HasCells bodies.now d → (rank : Scope → ℕ) → IsRanked d rank →
        IsIdle d (tables_of walk.old) →
        HasWalked d (tables_of walk.old) (tables_of walk.new) (flat_map (task_atoms d) tasks.now)) }
{
    for item in tasks {
        note_body(walk, bodies, bodies.task(item))?;
    }
    Ok(())
}

// Notes the atoms of a goal or a fairness condition, if it is there.
fn note_claim<'t>(
    walk: &mut Walk<'t>,
    bodies: &Bodies<'_, 't>,
    sort: Claim,
    item: &Item,
) -> Result<(), AllocError>
    ensures { OnOk result ((d : DesignTree) → HasCells bodies.now d → IsIdle d (tables_of walk.old) →
        HasWalked d (tables_of walk.old) (tables_of walk.new) (named_atoms d (claims_of sort) item.now)) }
{
    let outside = SiteBody {
        instance: item.instance,
        body: BodyName::Outside,
    };
    match bodies.claim(sort, item) {
        Some(e) => walk.note_condition(bodies, outside, e),
        None => Ok(()),
    }
}

// Notes the atoms of a body, if it is there.
fn note_body<'t>(
    walk: &mut Walk<'t>,
    bodies: &Bodies<'_, 't>,
    at: Option<BodyAt<'t>>,
) -> Result<(), AllocError>
    ensures { OnOk result ((d : DesignTree) → HasCells bodies.now d → (rank : Scope → ℕ) → IsRanked d rank →
        (found : Option (Scope × tree.BodyTree)) →
        option_map (λ b. seen (scope_of b.scope) (body_tree b.body.now)) at.entry ≡ found →
        IfSome found (IsRoot d rank) → IsIdle d (tables_of walk.old) →
        HasWalked d (tables_of walk.old) (tables_of walk.new) (seen_atoms d found)) }
{
    match at {
        Some(at) => walk.walk_body(bodies, at.scope, at.body),
        None => Ok(()),
    }
}
