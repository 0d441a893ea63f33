//! What is left to be done at the locations of processes.
ghost use Rattle.std.specs.Prelude.{◌≡◌, ◌<◌, ◌++◌, ℕ, IfNone, IfOk, IfSome, List, None, [], false, length, true};
ghost use Rattle.tm_base.specs.declared.place.Place as placed;
ghost use Rattle.tm_syntax.specs.Design.{DesignTree};
ghost use Rattle.tm_syntax.specs.Design.Locations.{location_number};
ghost use Rattle.tm_syntax.specs.Design.Scope.{site};
ghost use Rattle.tm_syntax.specs.Design.View.{design_tree};
ghost use Rattle.tm_locations.specs.Locations.{AreLocations, IsTrail, table_of, work_stmts};
ghost use Rattle.tm_scope.specs.Cells.{scope_of};
ghost use Rattle.tm_plain_bodies.specs.Frames.{IsFrame};
ghost use Rattle.tm_plain_bodies.specs.Runs.{DoesRow};
ghost use Rattle.tm_plain_bodies.specs.Tables.{body_of};
ghost use Rattle.tm_plain.specs.Ends.{IsEndOf, RestEnds};
ghost use Rattle.tm_states.specs.Standing.{StmtsStand};

use crate::machine::Machine;
use crate::machine::places::rest_number;
use std::alloc::AllocError;
use tm_base::Place;
use tm_locations::{Locations, RestNode, Work};
use tm_plain_bodies::{Course, Frame, Halt, Trail, assume};

/// How the work of a process ends: at the location of a number, in an error, or with no outcome.
#[derive(Clone, Copy, Debug, Drop)]
pub(crate) enum End {
    At(usize),
    Failed,
    Blocked,
}

// The number of the location at a place that calls have reached, from a body that the trail of a number has reached.
fn location_behind(locations: &Locations<'_>, at: Place, before: usize, calls: &Trail) -> usize
    ensures { (d : DesignTree) (p : ℕ) (trail : List placed.Place) → AreLocations (table_of locations.now) d p
        → IsTrail (table_of locations.now).trails before trail
        → result ≡ location_number d p at (calls.now ++ trail) }
{
    let mut number = before;
    for call in calls.calls() {
        match locations.trail_behind(*call, number) {
            Some(next) => number = next,
            None => return locations.rows().len() + 1,
        }
    }
    locations.number(at, number)
}

// How work that halts ends; it has begun in a body that the trail of a number has reached.
fn end_of(
    locations: &Locations<'_>,
    halt: Halt,
    before: usize,
    calls: &Trail,
) -> Result<End, AllocError>
    ensures { (d : DesignTree) (p : ℕ) (trail : List placed.Place) → AreLocations (table_of locations.now) d p
        → IsTrail (table_of locations.now).trails before trail
        → IfOk result (IsEndOf d p (calls.now ++ trail) halt) }
{
    match halt {
        Halt::Stopped(at) => Ok(End::At(location_behind(locations, at, before, calls))),
        Halt::Failed => Ok(End::Failed),
        Halt::Blocked => Ok(End::Blocked),
        Halt::Memory => Err(AllocError),
    }
}

// Whether nothing is to be done first.
fn is_idle(node: &RestNode<'_>) -> bool
    ensures idle { result ≡ true → work_stmts node.now.work ≡ [] }
    ensures filled { result ≡ false → ¬ (work_stmts node.now.work ≡ []) }
{
    match node.work {
        Work::Locals(locals) => locals.is_empty(),
        Work::Stmts(stmts) => stmts.is_empty(),
        Work::Assume(_, _) => false,
    }
}

impl<'s> Machine<'s> {
    // Does work of a body of an instance.
    fn perform_work(&self, node: &RestNode<'_>, course: &mut Course) -> Result<(), Halt>
        requires { StmtsStand (design_tree self.now) (scope_of node.now.scope) (work_stmts node.now.work) }
        ensures { DoesRow (body_of self.now node.now.scope) (work_stmts node.now.work) course.old course.new result }
    {
        if is_idle(node) {
            return Ok(());
        }
        let found = self.runner.frame(node.scope);
        self.work_in(node, &found, course)
    }

    // Does work of a body of an instance, of which this is the frame. A frame that is lent in an `Option` is cheap to
    // check; one that is taken out of it is not.
    fn work_in<'a>(
        &'a self,
        node: &RestNode<'_>,
        found: &Option<Frame<'a>>,
        course: &mut Course,
    ) -> Result<(), Halt>
        requires filled { ¬ (work_stmts node.now.work ≡ []) }
        requires stand { StmtsStand (design_tree self.now) (scope_of node.now.scope) (work_stmts node.now.work) }
        requires frame { IfSome found.now (IsFrame self.now node.now.scope) }
        requires none { IfNone found.now (site (design_tree self.now) node.now.scope.instance ≡ None) }
        ensures { DoesRow (body_of self.now node.now.scope) (work_stmts node.now.work) course.old course.new result }
    {
        match found {
            Some(frame) => self.work_by(node, frame, course),
            None => unreachable!(),
        }
    }

    // Does work of a body of an instance by its frame.
    fn work_by<'a>(
        &'a self,
        node: &RestNode<'_>,
        frame: &Frame<'a>,
        course: &mut Course,
    ) -> Result<(), Halt>
        requires filled { ¬ (work_stmts node.now.work ≡ []) }
        requires stand { StmtsStand (design_tree self.now) (scope_of node.now.scope) (work_stmts node.now.work) }
        requires frame { IsFrame self.now node.now.scope frame.now }
        ensures { DoesRow (body_of self.now node.now.scope) (work_stmts node.now.work) course.old course.new result }
    {
        match node.work {
            Work::Locals(locals) => self.runner.perform_locals(frame, course, locals),
            Work::Stmts(stmts) => self.runner.perform_row(frame, course, stmts),
            Work::Assume(_, e) => assume(&frame.reader, course, e),
        }
    }

    /// Does what is left to be done at a location of a process. Memory is wanting where it answers `AllocError`.
    pub(crate) fn perform_rest(
        &self,
        process: usize,
        place: u32,
        course: &mut Course,
    ) -> Result<End, AllocError>
        requires process { process < length self.now.processes.items }
        requires trail { course.old.trail ≡ [] }
        ensures { IfOk result (RestEnds self.now process place course.old.store course.old.choices course.new.store) }
    {
        let locations = &self.locations[process];
        let mut left = rest_number(locations, place);
        'nodes: while let Some(node) = locations.rest(left) {
            if let Err(halt) = self.perform_work(&node, course) {
                return end_of(locations, halt, node.trail, &course.trail);
            }
            left = node.then;
        }
        if course.choices.is_empty() {
            Ok(End::At(locations.rows().len() + 1))
        } else {
            Ok(End::Blocked)
        }
    }
}
