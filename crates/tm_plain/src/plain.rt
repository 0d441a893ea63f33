//! The calls of the interpreter over a design alone: each makes the tables of the design anew.
ghost use Rattle.std.specs.Prelude.{◌≡◌, ◌<◌, Err, IfOk, length};
ghost use Rattle.tm_syntax.specs.Tree.View.{spec_tree};
ghost use Rattle.tm_syntax.specs.Design.View.{design_tree};
ghost use Rattle.tm_syntax.specs.Faults.{IsOfText, IsSound};
ghost use Rattle.tm_sem.specs.First.{IsFirst};
ghost use Rattle.tm_sem.specs.Play.{goal_holds};
ghost use Rattle.tm_sem.specs.State.{StateData};
ghost use Rattle.tm_sem.specs.Step.{IsInitial, IsState, LeadsToState, Step, is_driver_turn as is_turn};

use crate::machine::Machine;
use crate::tables::Tables;
use std::alloc::{AllocError, Global};
use tm_sem::SemError;
use tm_sem::state::{Move, Outcome, State};
use tm_syntax::design::Design;

// The state that these choices give to begin with.
fn first_by(alloc: Global, tables: &Tables, choices: &[u64]) -> Result<State, SemError>
    ensures ok { IfOk result (IsFirst (design_tree tables.now) choices.now) }
    ensures bad { result ≡ Err SemError.BadChoices → (s : StateData) →
        ¬ IsFirst (design_tree tables.now) choices.now s }
    ensures initial { IfOk result (IsInitial (design_tree tables.now)) }
    ensures valid { IfOk result (IsState (design_tree tables.now)) }
{
    let machine = match Machine::new(alloc, tables) {
        Ok(machine) => machine,
        Err(AllocError) => return Err(SemError::Memory),
    };
    let state = machine.first_state(alloc, choices);
    drop(machine);
    state
}

// What a move leads to.
fn step_by(
    alloc: Global,
    tables: &Tables,
    state: &State,
    action: &Move,
    choices: &[u64],
) -> Result<Outcome, AllocError>
    ensures outcome { IfOk result (Step (design_tree tables.now) state.now action.now choices.now) }
    ensures valid { IsState (design_tree tables.now) state.now →
        IfOk result (LeadsToState (design_tree tables.now)) }
{
    let machine = match Machine::new(alloc, tables) {
        Ok(machine) => machine,
        Err(error) => return Err(error),
    };
    let outcome = machine.step(alloc, state, action, choices);
    drop(machine);
    outcome
}

// Whether some process stands at a magic block.
fn magic_by(alloc: Global, tables: &Tables, state: &State) -> Result<bool, AllocError>
    ensures { IfOk result (λ magic. magic ≡ is_turn (design_tree tables.now) state.now) }
{
    let machine = match Machine::new(alloc, tables) {
        Ok(machine) => machine,
        Err(error) => return Err(error),
    };
    let magic = machine.magic(state);
    drop(machine);
    Ok(magic)
}

// Whether a goal holds.
fn holds_by(alloc: Global, tables: &Tables, state: &State, goal: u32) -> Result<bool, AllocError>
    requires { goal < length tables.now.goals.items }
    ensures { IfOk result (λ holds. holds ≡ goal_holds (design_tree tables.now) state.now goal) }
{
    let machine = match Machine::new(alloc, tables) {
        Ok(machine) => machine,
        Err(error) => return Err(error),
    };
    let holds = machine.holds(alloc, state, goal);
    drop(machine);
    holds
}

/// The state that these choices give a design to begin with, as `Machine::first_state` tells it.
///
/// `BadChoices` comes exactly where the number or a range of the choices is wrong. `Memory` is want of memory.
pub fn first_state(alloc: Global, design: &Design, choices: &[u64]) -> Result<State, SemError>
    requires sound { IsSound (design_tree design.now) }
    requires read { IsOfText (spec_tree design.now.spec) }
    ensures ok { IfOk result (IsFirst (design_tree design.now) choices.now) }
    ensures bad { result ≡ Err SemError.BadChoices → (s : StateData) →
        ¬ IsFirst (design_tree design.now) choices.now s }
    ensures initial { IfOk result (IsInitial (design_tree design.now)) }
    ensures valid { IfOk result (IsState (design_tree design.now)) }
{
    let tables = match Tables::new(alloc, design) {
        Ok(tables) => tables,
        Err(AllocError) => return Err(SemError::Memory),
    };
    let state = first_by(alloc, &tables, choices);
    drop(tables);
    state
}

/// What a move with these choices leads to at a state of a design, as `Machine::step` tells it. `AllocError` is want of
/// memory.
pub fn step(
    alloc: Global,
    design: &Design,
    state: &State,
    action: &Move,
    choices: &[u64],
) -> Result<Outcome, AllocError>
    requires sound { IsSound (design_tree design.now) }
    requires read { IsOfText (spec_tree design.now.spec) }
    ensures outcome { IfOk result (Step (design_tree design.now) state.now action.now choices.now) }
    ensures valid { IsState (design_tree design.now) state.now →
        IfOk result (LeadsToState (design_tree design.now)) }
{
    let tables = match Tables::new(alloc, design) {
        Ok(tables) => tables,
        Err(error) => return Err(error),
    };
    let outcome = step_by(alloc, &tables, state, action, choices);
    drop(tables);
    outcome
}

/// Whether some process stands at a magic block at a state of a design, as `Machine::magic` tells it. `AllocError` is
/// want of memory.
pub fn magic(alloc: Global, design: &Design, state: &State) -> Result<bool, AllocError>
    requires sound { IsSound (design_tree design.now) }
    requires read { IsOfText (spec_tree design.now.spec) }
    ensures { IfOk result (λ magic. magic ≡ is_turn (design_tree design.now) state.now) }
{
    let tables = match Tables::new(alloc, design) {
        Ok(tables) => tables,
        Err(error) => return Err(error),
    };
    let magic = magic_by(alloc, &tables, state);
    drop(tables);
    magic
}

/// Whether the goal of a number holds at a state of a design, as `Machine::holds` tells it. `AllocError` is want of
/// memory.
pub fn holds(alloc: Global, design: &Design, state: &State, goal: u32) -> Result<bool, AllocError>
    requires sound { IsSound (design_tree design.now) }
    requires read { IsOfText (spec_tree design.now.spec) }
    requires goal { goal < length design.now.goals.items }
    ensures { IfOk result (λ holds. holds ≡ goal_holds (design_tree design.now) state.now goal) }
{
    let tables = match Tables::new(alloc, design) {
        Ok(tables) => tables,
        Err(error) => return Err(error),
    };
    let holds = holds_by(alloc, &tables, state, goal);
    drop(tables);
    holds
}
