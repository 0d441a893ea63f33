//! The states with which plays begin.
ghost use Rattle.std.specs.Prelude.{◌≡◌, Err, IfOk};
ghost use Rattle.tm_syntax.specs.Design.View.{design_tree};
ghost use Rattle.tm_sem.specs.First.{IsFirst};
ghost use Rattle.tm_sem.specs.State.{StateData};
ghost use Rattle.tm_sem.specs.Step.{IsInitial, IsState};

use crate::machine::Machine;
use std::alloc::Global;
use tm_sem::SemError;
use tm_sem::state::State;

impl<'s> Machine<'s> {
    /// The state that these choices give the design to begin with: the choices are the values of the template variables
    /// that have no declared one, elements of arrays among them, in order. Linear in the variables and processes.
    ///
    /// `BadChoices` comes exactly where the number or a range of the choices is wrong. `Memory` is want of memory.
    pub fn first_state(&self, alloc: Global, choices: &[u64]) -> Result<State, SemError>
        ensures ok { IfOk result (IsFirst (design_tree self.now) choices.now) }
        ensures bad { result ≡ Err SemError.BadChoices → (s : StateData) →
            ¬ IsFirst (design_tree self.now) choices.now s }
        ensures initial { IfOk result (IsInitial (design_tree self.now)) }
        ensures valid { IfOk result (IsState (design_tree self.now)) }
    {
        tm_states::first_state(alloc, self.design, self.scopes, choices)
    }
}
