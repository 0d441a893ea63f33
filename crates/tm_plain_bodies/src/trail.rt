//! The calls that led to where a run stands.
ghost use Rattle.std.specs.Prelude.{◌≡◌, ◌++◌, [], List, OnOk, reverse};
ghost use Rattle.tm_base.specs.declared.place.Place as places;
ghost use Rattle.tm_syntax.specs.Design.Work.{call_place};

use std::alloc::{AllocError, Global};
use std::marker::Model;
use tm_base::Place;
use tm_syntax::tree::Ident;

/// The places of the calls that led to where a run stands. Contracts see them with the newest first.
#[derive(Drop)]
pub struct Trail {
    calls: Vec<Place>,
}

impl Model for Trail {
    ghost use Rattle.std.specs.Prelude.{List, reverse};
    ghost use Rattle.tm_base.specs.declared.place.Place.{Place};

    ghost Value = { List Place };

    ghost view = { λ t. reverse t.calls.items };
}

impl Trail {
    /// No call has been made.
    pub fn new(alloc: Global) -> Trail
        ensures { result ≡ [] }
    {
        Trail {
            calls: Vec::new(alloc),
        }
    }

    /// Goes into the call of a path. `AllocError` is want of memory.
    pub fn enter(&mut self, path: &[Ident]) -> Result<(), AllocError>
        ensures { OnOk result (self.new ≡ call_place path.now ++ self.old) }
    {
        if let Some(name) = path.first() {
            self.calls.push(name.place)?;
        }
        Ok(())
    }

    /// Leaves the call of a path, which was entered.
    pub fn leave(&mut self, path: &[Ident])
        ensures { (before : List places.Place) → self.old ≡ call_place path.now ++ before → self.new ≡ before }
    {
        if !path.is_empty() {
            self.calls.pop();
        }
    }

    /// The places of the calls, the oldest first.
    pub fn calls(&self) -> &[Place]
        ensures { self.now ≡ reverse result.now }
    {
        self.calls.as_slice()
    }
}
