//! If-then-else of three functions.
ghost use Rattle.std.specs.Prelude.{IfOk, if◌then◌else◌};
ghost use Rattle.tm_dd.specs.Table.{Knows, means};
ghost use Rattle.tm_ddops.specs.Manager.{Grows, IsFunction, IsManager};
ghost use Rattle.tm_ddops.specs.Remembering.{RemembersResult};
ghost use Rattle.tm_ddops.specs.declared.operation.Operation.TheVariants as operation;

use crate::choice::Choice;
use crate::manager::Manager;
use crate::operation::Operation;
use std::alloc::AllocError;
use tm_base::Steps;
use tm_dd::NodeId;

impl Manager {
    /// The function that is `g` where `f` is true, and `h` where it is false.
    pub fn ite(&mut self, f: NodeId, g: NodeId, h: NodeId) -> Result<NodeId, AllocError>
        requires f { Knows self.old.table f }
        requires g { Knows self.old.table g }
        requires h { Knows self.old.table h }

        ensures manager { IsManager self.new }
        ensures grows { Grows self.old self.new }
        ensures answer { IfOk result (λ id.
            IsFunction self.new.table id (λ v.
            if means self.new.table f v then means self.new.table g v else means self.new.table h v)) }
        ensures remembers { RemembersResult (operation.Ite f g h) self.old self.new result }
    {
        let choice = Choice {
            test: f,
            if_true: g,
            if_false: h,
        };
        let mut steps = Steps::new(());
        self.answered(Operation::Ite(f, g, h), choice, &mut steps)
    }
}
