//! The expressions that statements value, and the statements that go on only where a condition holds.
ghost use Rattle.std.specs.Prelude.{IfErr, IfOk};
ghost use Rattle.tm_base.specs.declared.place.Place.{Place as places};
ghost use Rattle.tm_syntax.specs.declared.design.Ty.TheVariants as resolved;
ghost use Rattle.tm_syntax.specs.Tree as trees;
ghost use Rattle.tm_syntax.specs.Tree.View.{expr_tree};
ghost use Rattle.tm_scope.specs.Types.{ty_of};
ghost use Rattle.tm_design.specs.Typed.{HasTypeAt};
ghost use Rattle.tm_plain_bodies.specs.Runs.{DoesStmt, HaltsAt, IsSame};
ghost use Rattle.tm_plain_exprs.specs.Valued.{Holds, IsValued};

use crate::course::Course;
use crate::halt::Halt;
use tm_plain_exprs::{Overrun, Reader};
use tm_scope::ExprType;
use tm_syntax::tree::Expr;

/// The value of an expression that a statement values. It halts where the expression overruns.
pub(crate) fn operand<'a>(
    reader: &Reader<'a>,
    course: &mut Course,
    e: &Expr,
    asked: ExprType<'a>,
) -> Result<u64, Halt>
    requires { HasTypeAt reader.now (ty_of asked) (expr_tree e.now) }
    ensures same { IsSame course.old course.new }
    ensures value { IfOk result (IsValued reader.now course.old.store (ty_of asked.entry) (expr_tree e.now)) }
    ensures halts { IfErr result (HaltsAt reader.now course.old (expr_tree e.now)) }
{
    match reader.value(&course.store, e, asked) {
        Ok(value) => Ok(value),
        Err(Overrun) => Err(course.at_end(Halt::Failed)),
    }
}

/// Whether a condition holds that a statement values. It halts where the condition overruns.
pub(crate) fn condition(reader: &Reader<'_>, course: &mut Course, e: &Expr) -> Result<bool, Halt>
    requires { HasTypeAt reader.now resolved.Bool (expr_tree e.now) }
    ensures same { IsSame course.old course.new }
    ensures holds { IfOk result (Holds reader.now course.old.store (expr_tree e.now)) }
    ensures halts { IfErr result (HaltsAt reader.now course.old (expr_tree e.now)) }
{
    match reader.holds(&course.store, e) {
        Ok(holds) => Ok(holds),
        Err(Overrun) => Err(course.at_end(Halt::Failed)),
    }
}

/// Does an `assert`: it goes on where the condition holds, and else fails.
pub(crate) fn assert(reader: &Reader<'_>, course: &mut Course, e: &Expr) -> Result<(), Halt>
    requires { HasTypeAt reader.now resolved.Bool (expr_tree e.now) }
    ensures { (at : places) → DoesStmt reader.now (trees.assert at (expr_tree e.now)) course.old course.new result }
{
    let holds = condition(reader, course, e)?;
    if holds {
        Ok(())
    } else {
        Err(course.at_end(Halt::Failed))
    }
}

/// Does an `assume`: it goes on where the condition holds, and else has no outcome.
pub fn assume(reader: &Reader<'_>, course: &mut Course, e: &Expr) -> Result<(), Halt>
    requires { HasTypeAt reader.now resolved.Bool (expr_tree e.now) }
    ensures { (at : places) → DoesStmt reader.now (trees.assume at (expr_tree e.now)) course.old course.new result }
{
    let holds = condition(reader, course, e)?;
    if holds { Ok(()) } else { Err(Halt::Blocked) }
}
