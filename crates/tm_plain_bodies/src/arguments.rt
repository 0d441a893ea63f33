//! The arguments of calls.
ghost use Rattle.std.specs.Prelude.{◌≡◌, IfErr, IfOk, Some};
ghost use Rattle.tm_syntax.specs.Tree.View.{expr_trees};
ghost use Rattle.tm_design.specs.Parameters.{task_at};
ghost use Rattle.tm_plain_bodies.specs.Arguments.{AreGiven, AreValued, HaltsAtSome};
ghost use Rattle.tm_plain_bodies.specs.Frames.{AreArguments};
ghost use Rattle.tm_plain_bodies.specs.Runs.{IsSame};

use crate::conditions::operand;
use crate::course::Course;
use crate::frame::CalledTask;
use crate::halt::Halt;
use tm_plain_exprs::Reader;
use tm_scope::ExprType;
use tm_syntax::tree::{Expr, Param};

// The values of arguments, each of which is asked for its parameter's type. It halts where one overruns, or memory is
// wanting.
fn argument_values<'a>(
    reader: &Reader<'a>,
    course: &mut Course,
    params: &'a [Param],
    args: &[Expr],
) -> Result<Vec<u64>, Halt>
    requires { AreArguments reader.now params.now (expr_trees args.now) }
    ensures same { IsSame course.old course.new }
    ensures values { IfOk result (λ values. AreValued reader.now course.old.store params.now (expr_trees args.now)
        values.items) }
    ensures halts { IfErr result (HaltsAtSome reader.now course.old (expr_trees args.now)) }
{
    let mut values = Vec::new(course.alloc);
    for index in 0..args.len() {
        let ty = ExprType::of(&params[index].ty);
        let value = operand(reader, course, &args[index], ty)?;
        values.push(value)?;
    }
    Ok(values)
}

impl<'a> CalledTask<'a> {
    /// Gives the parameters the values of arguments, which are valued first. It halts where one overruns, or memory is
    /// wanting.
    pub(crate) fn arguments(
        &self,
        outer: &Reader<'a>,
        course: &mut Course,
        args: &[Expr],
    ) -> Result<(), Halt>
        requires tables { self.now.frame.reader.tables ≡ outer.now.tables }
        requires task { task_at self.now.frame.reader ≡ Some self.now.task.now }
        requires args { AreArguments outer.now self.now.task.now.params.items (expr_trees args.now) }
        ensures given { IfOk result (λ _. AreGiven outer.now self.now.frame.reader.at (expr_trees args.now) course.old
            course.new) }
        ensures halts { IfErr result (HaltsAtSome outer.now course.old (expr_trees args.now)) }
    {
        let values = argument_values(outer, course, self.task.params.as_slice(), args)?;
        let inner = &self.frame.reader;
        let cells = inner.parameters(course.alloc, self.task)?;
        inner.put_all(&mut course.store, cells.as_slice(), values.as_slice())?;
        Ok(())
    }
}
