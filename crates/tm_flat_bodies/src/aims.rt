//! The targets of assignments of what calls return.
ghost use Rattle.std.specs.Prelude.{IfOk, Some};
ghost use Rattle.std.specs.Option.{option_map};
ghost use Rattle.tm_syntax.specs.declared.design.Ty as resolved;
ghost use Rattle.tm_syntax.specs.Tree as trees;
ghost use Rattle.tm_syntax.specs.Tree.View.{expr_tree};
ghost use Rattle.tm_term.specs.Table.{IsSound};
ghost use Rattle.tm_design.specs.Typed.{HasTypeAt};
ghost use Rattle.tm_flat_stmts.specs.Flows.{AreEnds, IsFlow};
ghost use Rattle.tm_flat_stmts.specs.Statements.{AreSettledCells};
ghost use Rattle.tm_flat_bodies.specs.Asked.{TargetIsTyped};
ghost use Rattle.tm_flat_bodies.specs.Inner.Aimed.{Aims};

use crate::course::Course;
use std::alloc::AllocError;
use tm_flat_exprs::TermReader;
use tm_flat_stmts::{Flow, TargetPlace, element, element_place, target_type};
use tm_syntax::tree::{Expr, Ident};

/// The runs at which the target of an assignment does not overrun, and where the target is there.
#[derive(Drop)]
pub(crate) struct Aim {
    pub flow: Flow,
    pub place: TargetPlace,
}

// Finds an element of an array as a target where runs stand.
fn aimed_element(
    reader: &TermReader<'_>,
    course: &mut Course,
    path: &[Ident],
    index: &Expr,
    flow: Flow,
) -> Result<Aim, AllocError>
    requires typed { (ty : resolved.Ty) × HasTypeAt reader.now ty (trees.element path.now (expr_tree index.now)) }
    requires settled { AreSettledCells reader.now }
    requires sound { IsSound course.old.terms }
    requires flow { IsFlow reader.now.tables course.old.terms flow }
    requires ends { AreEnds reader.now.tables course.old.terms course.old.ends }
    ensures { IfOk result (Aims reader.now path.now (Some (expr_tree index.now)) course.old course.new flow) }
{
    let place = element_place(reader, &mut course.terms, &flow, path, index)?;
    let asked = target_type(reader, path);
    let within = element(
        reader,
        &mut course.terms,
        &mut course.ends,
        flow,
        path,
        index,
        asked,
    )?;
    Ok(Aim {
        flow: within.flow,
        place,
    })
}

/// Finds where a target is where runs stand: those fail at which it overruns. `AllocError` is want of memory.
pub(crate) fn aimed(
    reader: &TermReader<'_>,
    course: &mut Course,
    path: &[Ident],
    index: &Option<Expr>,
    flow: Flow,
) -> Result<Aim, AllocError>
    requires typed { (ty : resolved.Ty) × TargetIsTyped reader.now ty path.now (option_map expr_tree index.now) }
    requires settled { AreSettledCells reader.now }
    requires sound { IsSound course.old.terms }
    requires flow { IsFlow reader.now.tables course.old.terms flow }
    requires ends { AreEnds reader.now.tables course.old.terms course.old.ends }
    ensures { IfOk result
        (Aims reader.now path.now (option_map expr_tree index.now) course.old course.new flow) }
{
    match index {
        None => Ok(Aim {
            flow,
            place: TargetPlace::Whole,
        }),
        Some(e) => {
            let aim = aimed_element(reader, course, path, e, flow)?;
            Ok(aim)
        }
    }
}
