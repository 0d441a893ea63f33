//! Quantification: one walk for all levels.
ghost use Rattle.std.specs.Prelude.{IfOk};
ghost use Rattle.tm_dd.specs.Table.{Knows};
ghost use Rattle.tm_ddops.specs.Manager.{Grows, IsManager};
ghost use Rattle.tm_ddops.specs.Quantified.{IsExists, IsForall};

use crate::manager::Manager;
use std::alloc::AllocError;
use tm_dd::NodeId;

impl Manager {
    /// The function that is true where `f` is true for some values of the levels.
    pub fn exists(&mut self, f: NodeId, levels: &[u32]) -> Result<NodeId, AllocError>
        requires known { Knows self.old.table f }
        ensures manager { IsManager self.new }
        ensures grows { Grows self.old self.new }
        ensures answer { IfOk result (IsExists self.new.table levels.now f) }
    {
        self.eliminate(f, levels)
    }

    /// The function that is true where `f` is true for all values of the levels.
    pub fn forall(&mut self, f: NodeId, levels: &[u32]) -> Result<NodeId, AllocError>
        requires known { Knows self.old.table f }
        ensures manager { IsManager self.new }
        ensures grows { Grows self.old self.new }
        ensures answer { IfOk result (IsForall self.new.table levels.now f) }
    {
        let opposite = self.exists(f.complement(), levels)?;
        Ok(opposite.complement())
    }
}
