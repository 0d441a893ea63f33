//! The parts of an expression that wait for their operands, one within the other.
ghost use Rattle.std.specs.Prelude.{◌≡◌, ◌∷◌, [], MatchOption, OnOk};
ghost use Rattle.tm_cparse.specs.Inner.Parts.{part_trees, wanted};

use crate::part::{Part, Sort, part_sort};
use std::alloc::{AllocError, Global};
use std::marker::Model;

/// The parts that wait, as a stack. Contracts see a list of them, the innermost first.
#[derive(Drop)]
pub struct WaitingParts {
    parts: Vec<Part>,
}

impl Model for WaitingParts {
    ghost use Rattle.std.specs.Prelude.{List, reverse};
    ghost use Rattle.tm_cparse.specs.declared.part.Part.{Part};
    ghost use Rattle.std.specs.Coded.{codes};
    ghost use Rattle.tm_cir.specs.contracts.block.Num64 as number;
    ghost use Rattle.tm_cir.specs.contracts.block.Truth as truth;

    ghost Value = { List Part };

    ghost coded = { Prim.hlevel (codes, number.the_row.coded, truth.the_row.coded) };

    ghost view = { λ w. reverse w.parts.items };
}

impl WaitingParts {
    /// No part.
    pub fn new(alloc: Global) -> WaitingParts
        ensures { result ≡ [] }
    {
        WaitingParts {
            parts: Vec::new(alloc),
        }
    }

    /// Puts a part within the others.
    pub fn push(&mut self, part: Part) -> Result<(), AllocError>
        ensures { OnOk result (self.new ≡ part ∷ self.old) }
    {
        self.parts.push(part)?;
        Ok(())
    }

    /// Takes the innermost part, if one waits.
    pub fn pop(&mut self) -> Option<Part>
        ensures { MatchOption result (self.old ≡ []) (λ part. self.old ≡ part ∷ self.new) }
    {
        self.parts.pop()
    }

    /// What the innermost part asks for, or where none waits, the place of the whole.
    pub fn wanted(&self, sort: Sort) -> Sort
        ensures { result ≡ wanted sort (part_trees self.now) }
    {
        match self.parts.last() {
            Some(part) => part_sort(part),
            None => sort,
        }
    }
}
