//! Which states are valid ones.
ghost use Rattle.std.specs.Prelude.{◌↔◌, IsTrue};
ghost use Rattle.tm_syntax.specs.Design.View.{design_tree};
ghost use Rattle.tm_sem.specs.Step.{IsState};

use crate::machine::Machine;
use tm_sem::state::State;

impl<'s> Machine<'s> {
    /// Whether a state is a valid one of the design: the counts match, and every value, location and the last mover are
    /// in range. Linear in the values and processes, and takes no memory.
    pub fn fits(&self, state: &State) -> bool
        ensures { IsTrue result ↔ IsState (design_tree self.now) state.now }
    {
        tm_states::fits(self.design, self.scopes, self.locations.as_slice(), state)
    }
}
