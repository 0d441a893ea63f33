//! Operations that remember no result: where none is asked for again they take less.
ghost use Rattle.std.specs.Prelude.{◌≡◌, ◌&&◌, ◌||◌, IfOk};
ghost use Rattle.tm_dd.specs.Reduced.{Extends};
ghost use Rattle.tm_dd.specs.Table.{Knows, means};
ghost use Rattle.tm_ddops.specs.Manager.{IsFunction, IsManager};

use crate::manager::Manager;
use std::alloc::AllocError;
use tm_dd::{FALSE, NodeId, TRUE};

impl Manager {
    /// Both of two functions. It remembers no result.
    pub fn and_once(&mut self, f: NodeId, g: NodeId) -> Result<NodeId, AllocError>
        requires f { Knows self.old.table f }
        requires g { Knows self.old.table g }

        ensures manager { IsManager self.new }
        ensures extends { Extends self.old.table self.new.table }
        ensures results { self.new.results ≡ self.old.results }
        ensures answer { IfOk result (λ id.
            IsFunction self.new.table id (λ v. means self.new.table f v && means self.new.table g v)) }
    {
        self.ite_once(f, g, FALSE)
    }

    /// At least one of two functions. It remembers no result.
    pub fn or_once(&mut self, f: NodeId, g: NodeId) -> Result<NodeId, AllocError>
        requires f { Knows self.old.table f }
        requires g { Knows self.old.table g }

        ensures manager { IsManager self.new }
        ensures extends { Extends self.old.table self.new.table }
        ensures results { self.new.results ≡ self.old.results }
        ensures answer { IfOk result (λ id.
            IsFunction self.new.table id (λ v. means self.new.table f v || means self.new.table g v)) }
    {
        self.ite_once(f, TRUE, g)
    }
}
