//! The calls that the driver makes.
ghost use Rattle.std.specs.Prelude.{◌≡◌, ℕ, IfNone, IfOk, IfSome, List, None, Some, is_some, length, true};
ghost use Rattle.std.specs.Option.{option_map};
ghost use Rattle.tm_syntax.specs.declared.design.Design as designs;
ghost use Rattle.tm_syntax.specs.Design.View.{design_tree};
ghost use Rattle.tm_syntax.specs.Design.Work as works;
ghost use Rattle.tm_scope.specs.declared.context.BodyName.TheVariants.{Task};
ghost use Rattle.tm_syntax.specs.Faults.{IsSound};
ghost use Rattle.tm_sem.specs.State.{StateData};
ghost use Rattle.tm_sem.specs.Step.{Comes, Step, call_work, memory_of, task_of};
ghost use Rattle.tm_sem.specs.Value as run;
ghost use Rattle.tm_sem.specs.declared.state.Move.TheVariants as moves;
ghost use Rattle.tm_sem.specs.declared.state.Outcome.TheVariants as outcomes;
ghost use Rattle.tm_design.specs.Parameters.{task_at};
ghost use Rattle.tm_plain_bodies.specs.Tables.{body_of, tables_of};
ghost use Rattle.tm_plain_exprs.specs.Kept.{Keeps, put_all};
ghost use Rattle.tm_plain.specs.Ends.{HaltsSo, Leads, driver_work};
ghost use Rattle.tm_plain.specs.Tasks.{IsDriverTask, IsFoundTask};

use crate::machine::Machine;
use crate::machine::moves::{begin, left_state};
use std::alloc::{AllocError, Global};
use tm_plain_bodies::{Course, Frame, Halt};
use tm_scope::{BodyName, SiteBody};
use tm_sem::state::{Outcome, State};
use tm_syntax::design::Design;
use tm_syntax::tree::TaskDef;

/// A controllable task, with the body of an instance in which it is done.
#[derive(Drop)]
pub(crate) struct DriverTask<'a> {
    pub frame: Frame<'a>,
    pub task: &'a TaskDef,
}

// The state behind a call of the driver: no process has moved.
fn driven(alloc: Global, state: &State, course: &Course) -> Result<Outcome, AllocError>
    ensures { (d : designs.Design) (n : run.Memory) → Keeps (tables_of d) course.now.store n
        → length n.values ≡ length state.now.values
        → IfOk result (λ o. o ≡ outcomes.Next (record { values = n.values; places = state.now.places; last = 1 })) }
{
    let places = Vec::from_slice(alloc, state.places.as_slice())?;
    left_state(alloc, course, state.values.len(), places, 1)
}

// What a call of the driver leads to that has halted.
fn halted(alloc: Global, state: &State, course: &Course, halt: Halt) -> Result<Outcome, AllocError>
    ensures { (d : designs.Design) (items : List works.WorkItem) (m : run.Memory) (choices : List ℕ)
        → length m.values ≡ length state.now.values → HaltsSo d items m choices course.now halt
        → IfOk result (Comes (design_tree d) state.now (driver_work items m) choices) }
{
    match halt {
        Halt::Stopped(_) => driven(alloc, state, course),
        Halt::Failed => Ok(Outcome::Error),
        Halt::Blocked => Ok(Outcome::NoOutcome),
        Halt::Memory => Err(AllocError),
    }
}

// What a call of the driver leads to, of whose body this was done.
fn called_outcome(
    alloc: Global,
    state: &State,
    course: &Course,
    done: Result<(), Halt>,
) -> Result<Outcome, AllocError>
    ensures { (d : designs.Design) (items : List works.WorkItem) (m : run.Memory) (choices : List ℕ)
        → length m.values ≡ length state.now.values → Leads d items m choices course.now done
        → IfOk result (Comes (design_tree d) state.now (driver_work items m) choices) }
{
    if let Err(halt) = done {
        return halted(alloc, state, course, halt);
    }
    if course.choices.is_empty() {
        driven(alloc, state, course)
    } else {
        Ok(Outcome::NoOutcome)
    }
}

// Gives the parameters of a controllable task the values of arguments.
fn give(
    alloc: Global,
    called: &DriverTask<'_>,
    course: &mut Course,
    args: &[u64],
) -> Result<(), AllocError>
    requires { task_at called.now.frame.reader ≡ Some called.now.task.now }
    ensures trail { IfOk result (λ _. course.new.trail ≡ course.old.trail) }
    ensures choices { IfOk result (λ _. course.new.choices ≡ course.old.choices) }
    ensures given { IfOk result (λ _. (d : designs.Design) (number : ℕ)
        (of : IsDriverTask d number called.now.frame called.now.task.now) (s : StateData) → IsSound (design_tree d)
        → Keeps (tables_of d) course.old.store (memory_of s)
        → Keeps (tables_of d) course.new.store (put_all (memory_of s) of.called.params args.now)) }
{
    let reader = &called.frame.reader;
    let cells = reader.parameters(alloc, called.task)?;
    reader.put_all(&mut course.store, cells.as_slice(), args)?;
    Ok(())
}

// The task of a number of an instance of a design.
fn task_def(design: &Design, instance: u32, index: usize) -> Option<&TaskDef>
    ensures { option_map (λ task. task.now) result
        ≡ task_at (body_of design.now (record { instance = instance; body = Task index })) }
{
    match design.instances.get(instance as usize) {
        Some(node) => match design.spec.templates.get(node.template as usize) {
            Some(template) => template.tasks.get(index),
            None => None,
        },
        None => None,
    }
}

impl<'s> Machine<'s> {
    // The controllable task of a number.
    pub(crate) fn controllable(&self, number: u32) -> Option<DriverTask<'_>>
        ensures found { IfSome result (λ k. IsDriverTask self.now number k.frame k.task.now) }
        ensures none { IfNone result (task_of (design_tree self.now) number ≡ None) }
    {
        let item = self.design.tasks.get(number as usize)?;
        let index = item.index? as usize;
        let task = task_def(self.design, item.instance, index)?;
        let at = SiteBody {
            instance: item.instance,
            body: BodyName::Task(index),
        };
        match self.runner.frame(at) {
            Some(frame) => Some(DriverTask { frame, task }),
            None => None,
        }
    }

    // The driver calls a controllable task, where the turn rule permits it.
    pub(crate) fn call_task(
        &self,
        alloc: Global,
        state: &State,
        number: u32,
        args: &[u64],
        choices: &[u64],
    ) -> Result<Outcome, AllocError>
        requires { is_some (call_work (design_tree self.now) state.now number args.now) ≡ true }
        ensures { IfOk result (Step (design_tree self.now) state.now (moves.Call number args.now) choices.now) }
    {
        let called = self.controllable(number);
        self.call_found(alloc, state, &called, args, choices)
    }

    // The driver calls a controllable task that was found, and that it may call. A task with a frame is lent in its
    // `Option`: to take it out would cost the check of the caller ten times as much.
    fn call_found<'a>(
        &'a self,
        alloc: Global,
        state: &State,
        called: &Option<DriverTask<'a>>,
        args: &[u64],
        choices: &[u64],
    ) -> Result<Outcome, AllocError>
        requires { (number : ℕ) × IsFoundTask self.now number called.now }
        ensures { (number : ℕ) → is_some (call_work (design_tree self.now) state.now number args.now) ≡ true
            → IsFoundTask self.now number called.now
            → IfOk result (Step (design_tree self.now) state.now (moves.Call number args.now) choices.now) }
    {
        match called {
            Some(called) => self.call(alloc, state, called, args, choices),
            None => unreachable!(),
        }
    }

    // The driver calls a controllable task that it may call.
    fn call<'a>(
        &'a self,
        alloc: Global,
        state: &State,
        called: &DriverTask<'a>,
        args: &[u64],
        choices: &[u64],
    ) -> Result<Outcome, AllocError>
        requires { (number : ℕ) × IsDriverTask self.now number called.now.frame called.now.task.now }
        ensures { (number : ℕ) → is_some (call_work (design_tree self.now) state.now number args.now) ≡ true
            → IsDriverTask self.now number called.now.frame called.now.task.now
            → IfOk result (Step (design_tree self.now) state.now (moves.Call number args.now) choices.now) }
    {
        let mut course = match begin(alloc, state, choices) {
            Ok(course) => course,
            Err(error) => return Err(error),
        };
        match give(alloc, called, &mut course, args) {
            Ok(()) => {
                let done = self
                    .runner
                    .perform_body(&called.frame, &mut course, &called.task.body);
                let outcome = called_outcome(alloc, state, &course, done);
                drop(course);
                outcome
            }
            Err(error) => {
                drop(course);
                Err(error)
            }
        }
    }
}
