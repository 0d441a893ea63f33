//! The tasks that paths call.
ghost use Rattle.std.specs.Prelude.{◌≡◌, IfNone, IfSome, None};
ghost use Rattle.tm_syntax.specs.Design.{DesignTree};
ghost use Rattle.tm_syntax.specs.Design.Cells.{called};
ghost use Rattle.tm_scope.specs.Cells.{HasCells, scope_of};
ghost use Rattle.tm_design.specs.Callees.{IsCallee};

use crate::walker::Walker;
use tm_design::{Callee, called_task};
use tm_scope::SiteBody;
use tm_syntax::tree::Ident;

impl<'s> Walker<'s> {
    /// The task or procedure that a path of a body of an instance calls. Linear in the path.
    pub(crate) fn callee(&self, at: SiteBody, path: &[Ident]) -> Option<Callee<'s>>
        ensures found { IfSome result (λ c. IsCallee self.now.cells.now at path.now c.at c.task.now) }
        ensures none { IfNone result ((d : DesignTree) → HasCells self.now.cells.now d →
            called d (scope_of at) path.now ≡ None) }
    {
        called_task(self.scopes.spec(), &self.sites, at, path)
    }
}
