//! The tasks that paths call.
ghost use Rattle.std.specs.Prelude.{◌≡◌, IfNone, IfSome, None};
ghost use Rattle.tm_syntax.specs.Design.{DesignTree};
ghost use Rattle.tm_syntax.specs.Design.Cells.{called};
ghost use Rattle.tm_scope.specs.Cells.{HasCells, scope_of};
ghost use Rattle.tm_design.specs.Callees.{IsCallee};
ghost use Rattle.tm_plain_bodies.specs.Tables.{tables_of};

use crate::runner::Runner;
use tm_design::{Callee, called_task};
use tm_scope::SiteBody;
use tm_syntax::tree::Ident;

impl<'s> Runner<'s> {
    /// The task or procedure that a path of a body of an instance calls. Linear in the path.
    pub(crate) fn callee(&self, at: SiteBody, path: &[Ident]) -> Option<Callee<'s>>
        ensures found { IfSome result (λ c. IsCallee (tables_of self.now) at path.now c.at c.task.now) }
        ensures none { IfNone result ((d : DesignTree) → HasCells (tables_of self.now) d →
            called d (scope_of at) path.now ≡ None) }
    {
        called_task(&self.design.spec, &self.sites, at, path)
    }
}
