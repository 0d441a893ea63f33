//! Which moves the turn rule permits.
ghost use Rattle.std.specs.Prelude.{◌≡◌, IfOk, IfSome, List, Some, is_some, map};
ghost use Rattle.std.specs.List.{AllByRecursion};
ghost use Rattle.tm_syntax.specs.Design.{DesignTree};
ghost use Rattle.tm_syntax.specs.Design.Cells.{Cell};
ghost use Rattle.tm_syntax.specs.Design.View.{design_tree};
ghost use Rattle.tm_scope.specs.Cells.{HasCells, cell_at};
ghost use Rattle.tm_sem.specs.Run.{asked_by};
ghost use Rattle.tm_sem.specs.Step.{arguments_fit as fit_so, call_work, process_work, work};
ghost use Rattle.tm_typing.specs.HasType.{IsSized};
ghost use Rattle.tm_design.specs.Parameters.{task_at};
ghost use Rattle.tm_plain.specs.Tasks.{Suits, Takes};

use crate::machine::Machine;
use crate::machine::places::place_of;
use crate::machine::tasks::DriverTask;
use std::alloc::{AllocError, Global};
use tm_plain_exprs::Reader;
use tm_scope::CellNumber;
use tm_sem::state::{Move, State};

// Whether arguments are as many as there are parameters, each a value of its parameter's type.
fn arguments_fit(reader: &Reader<'_>, cells: &[CellNumber], args: &[u64]) -> bool
    ensures { (d : DesignTree) (params : List Cell) → HasCells reader.now.tables d
        → map (cell_at reader.now.tables reader.now.at) cells.now ≡ map Some params
        → AllByRecursion (λ c. IsSized (asked_by d (Some c))) params → result ≡ fit_so d params args.now }
{
    if cells.len() != args.len() {
        return false;
    }
    for index in 0..cells.len() {
        if !reader.takes(Some(cells[index]), args[index]) {
            return false;
        }
    }
    true
}

// Whether these arguments fit the parameters of a controllable task.
fn suits(alloc: Global, called: &DriverTask<'_>, args: &[u64]) -> Result<bool, AllocError>
    requires { task_at called.now.frame.reader ≡ Some called.now.task.now }
    ensures { IfOk result (Suits called.now args.now) }
{
    let reader = &called.frame.reader;
    let cells = reader.parameters(alloc, called.task)?;
    Ok(arguments_fit(reader, cells.as_slice(), args))
}

// Whether a controllable task was found, and these arguments fit its parameters.
fn takes(alloc: Global, found: &Option<DriverTask<'_>>, args: &[u64]) -> Result<bool, AllocError>
    requires { IfSome found.now (λ k. task_at k.frame.reader ≡ Some k.task.now) }
    ensures { IfOk result (Takes found.now args.now) }
{
    match found {
        Some(called) => suits(alloc, called, args),
        None => Ok(false),
    }
}

impl<'s> Machine<'s> {
    // Whether a process may run: it stands before its end, and at no magic block.
    fn may_run(&self, state: &State, process: u32) -> bool
        ensures { result ≡ is_some (process_work (design_tree self.now) state.now process) }
    {
        let number = process as usize;
        if self.stands_at_magic(state, number) {
            return false;
        }
        match self.locations.get(number) {
            Some(locations) => place_of(state, number) as usize <= locations.rows().len(),
            None => false,
        }
    }

    // Whether the driver may call a controllable task with these arguments.
    fn may_call(
        &self,
        alloc: Global,
        state: &State,
        number: u32,
        args: &[u64],
    ) -> Result<bool, AllocError>
        ensures { IfOk result (λ may. may ≡ is_some (call_work (design_tree self.now) state.now number args.now)) }
    {
        if !self.magic(state) {
            return Ok(false);
        }
        let called = self.controllable(number);
        takes(alloc, &called, args)
    }

    /// Whether the turn rule permits a move: a process runs from before its end, at no magic block; the driver moves
    /// where some process stands at a magic block, leaves such a block, and calls a task with as many arguments as it
    /// has parameters, each in its type. Linear in the processes and parameters. `AllocError` is want of memory.
    pub fn permits(&self, alloc: Global, state: &State, action: &Move) -> Result<bool, AllocError>
        ensures { IfOk result (λ permits. permits ≡ is_some (work (design_tree self.now) state.now action.now)) }
    {
        match action {
            Move::Stutter => Ok(true),
            Move::Process(process) => Ok(self.may_run(state, *process)),
            Move::Idle => Ok(self.magic(state)),
            Move::Leave(process) => Ok(self.stands_at_magic(state, *process as usize)),
            Move::Call(task, args) => self.may_call(alloc, state, *task, args.list.as_slice()),
        }
    }
}
