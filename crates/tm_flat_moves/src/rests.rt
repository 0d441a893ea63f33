//! Leads runs through what is left to be done at a location.
ghost use Rattle.std.specs.Prelude.{◌+◌, ◌<◌, ◌≡◌, ◌^◌, ℕ, IfNone, IfOk, IfSome, List, None, if◌then◌else◌};
ghost use Rattle.tm_base.specs.declared.place.Place as placed;
ghost use Rattle.tm_syntax.specs.Tree as trees;
ghost use Rattle.tm_syntax.specs.Tree.{row_of};
ghost use Rattle.tm_syntax.specs.Tree.View.{expr_tree};
ghost use Rattle.tm_syntax.specs.Design.{DesignTree};
ghost use Rattle.tm_syntax.specs.Design.Locations.{is_magic_at, rest};
ghost use Rattle.tm_syntax.specs.Design.Scope.{site};
ghost use Rattle.tm_syntax.specs.Design.View.{design_tree};
ghost use Rattle.tm_scope.specs.Cells.{HasCells, scope_of};
ghost use Rattle.tm_flat.specs.Inputs.{first_choice};
ghost use Rattle.tm_locations.specs.Locations.{AreLocations, IsRest, IsTrail, table_of, work_stmts};
ghost use Rattle.tm_flat_bodies.specs.Tables.{known_by};
ghost use Rattle.tm_flat_bodies.specs.Walks.{RowLeads, RowWalks, StmtLeads, StmtWalks};
ghost use Rattle.tm_flat_moves.specs.Items.{ItemsLead, ItemsWalk, StmtsLead, WorkWalks};
ghost use Rattle.tm_flat_moves.specs.Movable.{IsStandAt, tables_by};

use crate::mover::Mover;
use std::alloc::AllocError;
use tm_flat_bodies::{Course, Stand, Walker};
use tm_flat_exprs::TermReader;
use tm_flat_stmts::{Flow, assumed};
use tm_locations::{Locations, RestNode, Work};
use tm_scope::SiteBody;
use tm_syntax::tree::Expr;

// The number of what is left to be done at a location.
fn rest_number(locations: &Locations<'_>, place: u32) -> usize
    ensures { (d : DesignTree) (p : ℕ) → AreLocations (table_of locations.now) d p
        → IsRest (table_of locations.now).trails (table_of locations.now).rests result (rest d p place) }
{
    if place == 0 {
        return locations.start();
    }
    match locations.rows().get(place as usize - 1) {
        Some(row) => row.rest,
        None => 0,
    }
}

/// Whether a location is a magic block.
pub(crate) fn is_magic(locations: &Locations<'_>, place: u32) -> bool
    ensures { (d : DesignTree) (p : ℕ) → AreLocations (table_of locations.now) d p → result ≡ is_magic_at d p place }
{
    if place == 0 {
        return false;
    }
    match locations.rows().get(place as usize - 1) {
        Some(row) => row.is_magic,
        None => false,
    }
}

// The number of who has moved, behind a step of a process.
fn number_of(magic: bool, process: u32) -> u32
    requires { 2 + process < 2 ^ 32 }
    ensures { result ≡ (if magic then 1 else 2 + process) }
{
    if magic {
        return 1;
    }
    2 + process
}

/// The number of who has moved, behind a step of a process from a location.
pub(crate) fn mover_number(locations: &Locations<'_>, place: u32, process: u32) -> u32
    requires { 2 + process < 2 ^ 32 }
    ensures { (d : DesignTree) (p : ℕ) → AreLocations (table_of locations.now) d p
        → result ≡ (if is_magic_at d p place then 1 else 2 + process) }
{
    let magic = is_magic(locations, place);
    number_of(magic, process)
}

// Leads runs on at which the condition of a `wait` of a body of an instance holds.
fn wait_over(
    walker: &Walker<'_>,
    stand: &Stand<'_>,
    course: &mut Course,
    e: &Expr,
    flow: Flow,
) -> Result<Option<Flow>, AllocError>
    requires { (at : placed.Place)
        × StmtWalks (known_by walker.now) stand.now (trees.assume at (expr_tree e.now)) course.old flow }
    ensures { (at : placed.Place) → IfOk result
        (StmtLeads (known_by walker.now) stand.now (trees.assume at (expr_tree e.now)) course.old course.new flow) }
{
    let _walker = walker;
    let goes = assumed(&stand.reader, &mut course.terms, &mut course.ends, flow, e)?;
    Ok(Some(goes))
}

// Leads runs through work of a body of an instance.
fn walk_node<'s>(
    walker: &Walker<'s>,
    stand: &Stand<'s>,
    course: &mut Course,
    work: &Work<'s>,
    flow: Flow,
) -> Result<Option<Flow>, AllocError>
    requires { RowWalks (known_by walker.now) stand.now (row_of (work_stmts work.now)) course.old flow }
    ensures { IfOk result
        (RowLeads (known_by walker.now) stand.now (row_of (work_stmts work.now)) course.old course.new flow) }
{
    match *work {
        Work::Locals(locals) => walker.walk_locals(stand, course, locals, flow),
        Work::Stmts(stmts) => walker.walk_row(stand, course, stmts, flow),
        Work::Assume(_, e) => {
            let left = wait_over(walker, stand, course, e, flow)?;
            Ok(left)
        }
    }
}

impl<'s> Mover<'s> {
    /// A body of an instance, whose statements are walked where the trail of a number has reached it. There is none
    /// exactly where the design has no such instance.
    pub fn stand(&self, at: SiteBody, trail: usize) -> Option<Stand<'s>>
        ensures found { IfSome result (IsStandAt self.now at trail) }
        ensures none { IfNone result (site (design_tree self.now.design.now) at.instance ≡ None) }
    {
        match self.cells.scope(at) {
            None => None,
            Some(scope) => {
                let reader = TermReader::new(scope, self.scopes, at);
                Some(Stand {
                    reader,
                    depth: self.depth,
                    trail: Some(trail),
                })
            }
        }
    }

    // Leads runs through the work of a node.
    fn walk_work(
        &self,
        walker: &Walker<'s>,
        course: &mut Course,
        node: &RestNode<'s>,
        flow: Flow,
    ) -> Result<Option<Flow>, AllocError>
        requires walker { known_by walker.now ≡ tables_by self.now }
        requires work { WorkWalks (tables_by self.now) (design_tree self.now.design.now) self.now.process node.now
            course.old flow }
        ensures { IfOk result (λ left. (d : DesignTree) (p : ℕ) → HasCells (tables_by self.now).tables d
            → AreLocations (table_of self.now.locations.now) d p → (trail : List placed.Place)
            → IsTrail (table_of self.now.locations.now).trails node.now.trail trail
            → StmtsLead (tables_by self.now) d p (scope_of node.now.scope) trail (work_stmts node.now.work) course.old
            course.new flow left) }
    {
        match self.stand(node.scope, node.trail) {
            None => Ok(Some(flow)),
            Some(stand) => {
                let left = walk_node(walker, &stand, course, &node.work, flow)?;
                Ok(left)
            }
        }
    }

    // Leads runs through what is left to be done at a location, by a walker.
    fn walk_rest(
        &self,
        walker: &Walker<'s>,
        course: &mut Course,
        place: u32,
        flow: Flow,
    ) -> Result<Option<Flow>, AllocError>
        requires walker { known_by walker.now ≡ tables_by self.now }
        requires rest { ItemsWalk (tables_by self.now) (design_tree self.now.design.now) self.now.process
            (rest (design_tree self.now.design.now) self.now.process place) course.old flow }
        ensures { IfOk result (ItemsLead (tables_by self.now) (design_tree self.now.design.now) self.now.process
            (rest (design_tree self.now.design.now) self.now.process place) course.old course.new flow) }
    {
        let mut left = rest_number(self.locations, place);
        let mut here = flow;
        'nodes: while let Some(node) = self.locations.rest(left) {
            match self.walk_work(walker, course, &node, here)? {
                Some(next) => here = next,
                None => return Ok(None),
            }
            left = node.then;
        }
        Ok(Some(here))
    }

    /// A walker by the tables of the design. `first` is the number of the first input that is a bit of choices.
    pub fn walker(&self, first: u32) -> Walker<'s>
        requires { first ≡ first_choice (design_tree self.now.design.now) }
        ensures { known_by result ≡ tables_by self.now }
    {
        let instances = self.design.instances.as_slice();
        Walker::new(self.scopes, self.cells, instances, self.locations, first)
    }

    /// Leads runs through what is left to be done at a location: the flow of those that come to its end, if some may.
    /// `AllocError` is want of memory.
    pub(crate) fn walk_from(
        &self,
        course: &mut Course,
        place: u32,
        flow: Flow,
    ) -> Result<Option<Flow>, AllocError>
        requires few { first_choice (design_tree self.now.design.now) < 2 ^ 32 }
        requires rest { ItemsWalk (tables_by self.now) (design_tree self.now.design.now) self.now.process
            (rest (design_tree self.now.design.now) self.now.process place) course.old flow }
        ensures { IfOk result (ItemsLead (tables_by self.now) (design_tree self.now.design.now) self.now.process
            (rest (design_tree self.now.design.now) self.now.process place) course.old course.new flow) }
    {
        let first = self.vars() + (self.processes() + 1);
        let walker = self.walker(first);
        let left = self.walk_rest(&walker, course, place, flow)?;
        Ok(left)
    }
}
