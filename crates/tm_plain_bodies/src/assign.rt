//! Assignments.
ghost use Rattle.std.specs.Prelude.{IfErr, IfOk, Some};
ghost use Rattle.std.specs.Option.{option_map};
ghost use Rattle.tm_base.specs.declared.place.Place.{Place as places};
ghost use Rattle.tm_syntax.specs.Tree as trees;
ghost use Rattle.tm_syntax.specs.Tree.View.{expr_tree};
ghost use Rattle.tm_plain_bodies.specs.Runs.{
  DoesStmt,
  HaltsAt,
  HaltsAtTarget,
  HasTargetType,
  IsAssigned,
  IsSame,
  IsTarget,
  TargetAt,
};

use crate::conditions::operand;
use crate::course::Course;
use crate::halt::Halt;
use tm_plain_exprs::{Overrun, Reader};
use tm_scope::CellNumber;
use tm_syntax::tree::{Expr, Ident};

/// The cell of the target of an assignment. It halts where the index overruns.
pub(crate) fn target(
    reader: &Reader<'_>,
    course: &mut Course,
    path: &[Ident],
    index: &Option<Expr>,
) -> Result<Option<CellNumber>, Halt>
    requires { TargetAt reader.now path.now (option_map expr_tree index.now) }
    ensures same { IsSame course.old course.new }
    ensures cell { IfOk result (IsTarget reader.now course.old.store path.now (option_map expr_tree index.now)) }
    ensures halts { IfErr result (HaltsAtTarget reader.now course.old path.now (option_map expr_tree index.now)) }
{
    match index {
        Some(index) => element_target(reader, course, path, index),
        None => Ok(reader.cell(path, None)),
    }
}

// The cell of an element that is assigned.
fn element_target(
    reader: &Reader<'_>,
    course: &mut Course,
    path: &[Ident],
    index: &Expr,
) -> Result<Option<CellNumber>, Halt>
    requires { TargetAt reader.now path.now (Some (expr_tree index.now)) }
    ensures same { IsSame course.old course.new }
    ensures cell { IfOk result (IsTarget reader.now course.old.store path.now (Some (expr_tree index.now))) }
    ensures halts { IfErr result (HaltsAtTarget reader.now course.old path.now (Some (expr_tree index.now))) }
{
    match reader.index(&course.store, path, index) {
        Ok(number) => Ok(reader.cell(path, Some(number))),
        Err(Overrun) => Err(course.at_end(Halt::Failed)),
    }
}

/// Gives a target the next choice, which has to be a value of its type.
pub(crate) fn assign_choice(
    reader: &Reader<'_>,
    course: &mut Course,
    path: &[Ident],
    index: &Option<Expr>,
) -> Result<(), Halt>
    requires { TargetAt reader.now path.now (option_map expr_tree index.now) }
    ensures { (at : places) → DoesStmt reader.now
        (trees.assign path.now (option_map expr_tree index.now) (trees.star at)) course.old course.new result }
{
    let cell = target(reader, course, path, index)?;
    let Some(choice) = course.choices.next() else {
        return Err(Halt::Blocked);
    };
    if reader.takes(cell, choice) {
        reader.put(&mut course.store, cell, choice)?;
        Ok(())
    } else {
        Err(Halt::Blocked)
    }
}

/// Gives a target the value of an expression.
pub(crate) fn assign_value(
    reader: &Reader<'_>,
    course: &mut Course,
    path: &[Ident],
    index: &Option<Expr>,
    e: &Expr,
) -> Result<(), Halt>
    requires target { TargetAt reader.now path.now (option_map expr_tree index.now) }
    requires value { HasTargetType reader.now path.now (expr_tree e.now) }
    ensures { DoesStmt reader.now
        (trees.assign path.now (option_map expr_tree index.now) (trees.plain (expr_tree e.now))) course.old course.new
        result }
{
    let cell = target(reader, course, path, index)?;
    let value = target_value(reader, course, path, e)?;
    reader.put(&mut course.store, cell, value)?;
    Ok(())
}

// The value of an expression that a target of this path gets.
fn target_value(
    reader: &Reader<'_>,
    course: &mut Course,
    path: &[Ident],
    e: &Expr,
) -> Result<u64, Halt>
    requires { HasTargetType reader.now path.now (expr_tree e.now) }
    ensures same { IsSame course.old course.new }
    ensures value { IfOk result (IsAssigned reader.now course.old.store path.now (expr_tree e.now)) }
    ensures halts { IfErr result (HaltsAt reader.now course.old (expr_tree e.now)) }
{
    match reader.named_type(path) {
        Some(ty) => operand(reader, course, e, ty),
        None => unreachable!(),
    }
}
