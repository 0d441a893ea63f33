//! What a run keeps on its way.
ghost use Rattle.std.specs.Prelude.{◌≡◌, [], IfOk};
ghost use Rattle.tm_scope.specs.Cells.{CellTables};
ghost use Rattle.tm_sem.specs.Value as run;
ghost use Rattle.tm_plain_exprs.specs.Kept.{Keeps};
ghost use Rattle.tm_plain_bodies.specs.Runs.{at_end};

use crate::choices::Choices;
use crate::halt::Halt;
use crate::trail::Trail;
use std::alloc::{AllocError, Global};
use tm_plain_exprs::Store;

/// What a run keeps on its way: its memory, the calls that led to where it stands, and the choices that are left.
#[derive(Drop)]
pub struct Course {
    pub alloc: Global,
    pub store: Store,
    pub trail: Trail,
    pub choices: Choices,
}

impl Course {
    /// The beginning of a run over the values of a state, with these choices. `AllocError` is want of memory.
    pub fn new(alloc: Global, values: Vec<u64>, choices: &[u64]) -> Result<Course, AllocError>
        ensures keeps { IfOk result (λ c. (x : CellTables) → Keeps x c.store (run.plain_memory values.items)) }
        ensures trail { IfOk result (λ c. c.trail ≡ []) }
        ensures choices { IfOk result (λ c. c.choices ≡ choices.now) }
    {
        let choices = Choices::new(alloc, choices)?;
        Ok(Course {
            alloc,
            store: Store::new(alloc, values),
            trail: Trail::new(alloc),
            choices,
        })
    }

    /// An end of a run counts only where no choices are left: else there is no outcome.
    pub fn at_end(&self, halt: Halt) -> Halt
        ensures { result ≡ at_end self.now.choices halt }
    {
        if self.choices.is_empty() {
            halt
        } else {
            Halt::Blocked
        }
    }
}
