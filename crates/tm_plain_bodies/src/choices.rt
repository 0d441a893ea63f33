//! The choices of a run.
ghost use Rattle.std.specs.Prelude.{◌≡◌, ◌∷◌, ◌↔◌, [], IfNone, IfOk, IfSome, IsTrue};

use std::alloc::{AllocError, Global};
use std::marker::Model;

/// The choices that a run has left, the next one at the end. Contracts see them with the next one first.
#[derive(Drop)]
pub struct Choices {
    left: Vec<u64>,
}

impl Model for Choices {
    ghost use Rattle.std.specs.Prelude.{ℕ, List, reverse};

    ghost Value = { List ℕ };

    ghost view = { λ c. reverse c.left.items };
}

impl Choices {
    /// These choices. `AllocError` is want of memory.
    pub fn new(alloc: Global, choices: &[u64]) -> Result<Choices, AllocError>
        ensures { IfOk result (λ c. c ≡ choices.now) }
    {
        let mut left = Vec::from_slice(alloc, choices)?;
        left.reverse();
        Ok(Choices { left })
    }

    /// Takes the next choice, if there is one.
    pub fn next(&mut self) -> Option<u64>
        ensures next { IfSome result (λ n. self.old ≡ n ∷ self.new) }
        ensures none { IfNone result (self.old ≡ []) }
    {
        self.left.pop()
    }

    /// Whether none is left.
    pub fn is_empty(&self) -> bool
        ensures { IsTrue result ↔ (self.now ≡ []) }
    {
        self.left.is_empty()
    }
}
