//! Whether a move of the driver is allowed.
ghost use Rattle.std.specs.Prelude.{◌↔◌, IfOk, IsTrue, MatchOption};
ghost use Rattle.tm_flat.specs.Flat.{flat_terms};
ghost use Rattle.tm_game.specs.Game.{Grows, IsOf};
ghost use Rattle.tm_game.specs.Inner.Called.{AreArgumentBits, IsCallable};
ghost use Rattle.tm_game.specs.Inner.Values.{AreValuesAt};
ghost use Rattle.tm_sem.specs.Step.{IsAllowed, IsState};
ghost use Rattle.tm_sem.specs.declared.state.Move.TheVariants as moves;
ghost use Rattle.tm_syntax.specs.Design.{DesignTree};

use crate::game::Game;
use crate::numbers::{have_widths, push_numbers};
use crate::permitted::{permitted_leaves, permitted_step};
use crate::values::{bits_of_state, values_at};
use std::alloc::{AllocError, Global};
use tm_flat::Flat;
use tm_sem::state::{Move, State};

impl Game {
    /// Whether a move is one of the driver's that is allowed at a valid state: the driver can be picked, the
    /// arguments of a call are as many as its task has parameters and in range, and some choices give an outcome. Of
    /// other states nothing is said.
    ///
    /// Every id keeps its meaning, also where memory runs out.
    pub fn allowed(&mut self, state: &State, action: &Move) -> Result<bool, AllocError>
        ensures grows { Grows self.old self.new }
        ensures answer { IfOk result (λ yes. (d : DesignTree) → IsOf d self.old → IsState d state.now
            → IsTrue yes ↔ IsAllowed d state.now action.now) }
    {
        match action {
            Move::Stutter | Move::Process(_) => Ok(false),
            Move::Idle => self.idle_allowed(state),
            Move::Leave(process) => self.leave_allowed(state, *process),
            Move::Call(task, arguments) => self.call_allowed(state, *task, &arguments.list),
        }
    }

    // Whether the move to idle is one of the driver's that is allowed at a valid state.
    fn idle_allowed(&mut self, state: &State) -> Result<bool, AllocError>
        ensures grows { Grows self.old self.new }
        ensures answer { IfOk result (λ yes. (d : DesignTree) → IsOf d self.old → IsState d state.now
            → IsTrue yes ↔ IsAllowed d state.now moves.Idle) }
    {
        let values = self.values(state, &[])?;
        let permitted = permitted_step(&self.made, &mut self.dd, 0)?;
        Ok(self.dd.store().eval(permitted, &values))
    }

    // Whether leaving the magic block at which a process stands is a move that is allowed at a valid state.
    fn leave_allowed(&mut self, state: &State, process: u32) -> Result<bool, AllocError>
        ensures grows { Grows self.old self.new }
        ensures answer { IfOk result (λ yes. (d : DesignTree) → IsOf d self.old → IsState d state.now
            → IsTrue yes ↔ IsAllowed d state.now (moves.Leave process)) }
    {
        let values = self.values(state, &[])?;
        let first = self.flat.tasks.len() + 1;
        let permitted = permitted_leaves(&self.made, &mut self.dd, first, process as usize)?;
        Ok(self.dd.store().eval(permitted, &values))
    }

    // Whether a call is a move that is allowed at a valid state.
    fn call_allowed(
        &mut self,
        state: &State,
        task: u32,
        arguments: &[u64],
    ) -> Result<bool, AllocError>
        ensures grows { Grows self.old self.new }
        ensures answer { IfOk result (λ yes. (d : DesignTree) → IsOf d self.old → IsState d state.now
            → IsTrue yes ↔ IsAllowed d state.now (moves.Call task arguments.now)) }
    {
        let alloc = self.encoding.alloc;
        let Some(bits) = argument_bits(alloc, &self.flat, task as usize, arguments)? else {
            return Ok(false);
        };
        let values = self.values(state, &bits)?;
        let permitted = permitted_step(&self.made, &mut self.dd, task as usize + 1)?;
        Ok(self.dd.store().eval(permitted, &values))
    }

    // The values of all levels at a state, with these bits of arguments.
    fn values(&self, state: &State, arguments: &[bool]) -> Result<Vec<bool>, AllocError>
        ensures { IfOk result (λ values. AreValuesAt self.now state.now arguments.now values.items) }
    {
        let alloc = self.encoding.alloc;
        let widths = &self.flat.widths[..self.encoding.numbers];
        let bits = bits_of_state(alloc, widths, state)?;
        let count = self.dd.store().levels();
        let values = values_at(alloc, &self.order, &bits, arguments, count)?;
        Ok(values)
    }
}

// The bits of the arguments of a call, where its task is there and they have the widths of its parameters.
fn argument_bits(
    alloc: Global,
    flat: &Flat,
    task: usize,
    arguments: &[u64],
) -> Result<Option<Vec<bool>>, AllocError>
    ensures { IfOk result (λ found. MatchOption found (¬ IsCallable (flat_terms flat.now) task arguments.now)
        (λ bits. AreArgumentBits (flat_terms flat.now) task arguments.now bits.items)) }
{
    if task >= flat.tasks.len() {
        return Ok(None);
    }
    let Some(widths) = flat.parameters.get(task) else {
        return Ok(None);
    };
    if !have_widths(widths, arguments) {
        return Ok(None);
    }
    let mut bits = Vec::new(alloc);
    push_numbers(&mut bits, widths, arguments)?;
    Ok(Some(bits))
}
