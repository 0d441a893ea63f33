//! Whether conditions hold.
ghost use Rattle.std.specs.Prelude.{◌≡◌, IfOk, OnErr};
ghost use Rattle.tm_syntax.specs.declared.design.Ty.TheVariants as resolved;
ghost use Rattle.tm_syntax.specs.Tree.View.{expr_tree};
ghost use Rattle.tm_scope.specs.declared.context.BodyName.TheVariants.{Outside};
ghost use Rattle.tm_sem.specs.Value as run;
ghost use Rattle.tm_plain_exprs.specs.Kept.{Keeps};
ghost use Rattle.tm_design.specs.Typed.{HasTypeAt};
ghost use Rattle.tm_plain_exprs.specs.Valued.{Holds, Overruns};

use crate::overrun::Overrun;
use crate::reader::Reader;
use crate::store::Store;
use tm_scope::ExprType;
use tm_syntax::tree::Expr;

impl<'a> Reader<'a> {
    /// Whether a condition holds. `Overrun` comes exactly where an index that is valued is not below the length of its
    /// array.
    pub fn holds(&self, store: &Store, e: &Expr) -> Result<bool, Overrun>
        requires { HasTypeAt self.now resolved.Bool (expr_tree e.now) }
        ensures holds { IfOk result (Holds self.now store.now (expr_tree e.now)) }
        ensures overrun { OnErr result (Overruns self.now store.now (expr_tree e.now)) }
    {
        let value = self.value(store, e, ExprType::Bool)?;
        Ok(value != 0)
    }

    /// Whether a condition holds that stands outside of all bodies: no index overruns there.
    pub fn holds_outside(&self, store: &Store, e: &Expr) -> bool
        requires typed { HasTypeAt self.now resolved.Bool (expr_tree e.now) }
        requires outside { self.now.at.body ≡ Outside }
        requires kept { (m : run.Memory) × Keeps self.now.tables store.now m }
        ensures { Holds self.now store.now (expr_tree e.now) result }
    {
        match self.holds(store, e) {
            Ok(holds) => holds,
            Err(Overrun) => unreachable!(),
        }
    }
}
