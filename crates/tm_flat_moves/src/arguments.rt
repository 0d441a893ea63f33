//! The arguments of calls of the driver, read from bits.
ghost use Rattle.std.specs.Prelude.{◌+◌, ◌<◌, ◌≡◌, ◌^◌, [], ◌∷◌, IfOk};
ghost use Rattle.tm_scope.specs.Types.{ty_of};
ghost use Rattle.tm_syntax.specs.Design.Cells as cells;
ghost use Rattle.tm_syntax.specs.Design.View.{design_tree};
ghost use Rattle.tm_term.specs.Table.{IsSound};
ghost use Rattle.tm_flat.specs.Inputs.{first_choice, input_widths, room};
ghost use Rattle.tm_flat_stmts.specs.Flows.{IsFlow};
ghost use Rattle.tm_flat_exprs.specs.Tables.{cells_of};
ghost use Rattle.tm_flat_moves.specs.Arguments.{ReadsArguments, params_of};
ghost use Rattle.tm_flat_moves.specs.Inner.Reading.{AreParameters, IsParameter, IsReadable};

use crate::callees::Controllable;
use crate::tasks::Tasks;
use std::alloc::AllocError;
use tm_design::{parameter_cells, type_bits, type_size};
use tm_flat_bodies::Course;
use tm_flat_stmts::{Flow, choice_number, within};
use tm_scope::{CellNumber, CellScope, ExprType, SiteBody};
use tm_syntax::tree::Param;
use tm_term::Terms;

impl<'s> Tasks<'s> {
    // The runs of a flow at which the argument that bits hold from a position on is a value of a type, after it was put
    // into the cell of a parameter.
    fn read_argument(
        &self,
        terms: &mut Terms,
        at: SiteBody,
        cell: CellNumber,
        ty: ExprType<'_>,
        position: u64,
        flow: Flow,
    ) -> Result<Flow, AllocError>
        requires parameter { (c : cells.Cell) × IsParameter (cells_of self.now.design.now)
            (design_tree self.now.design.now) at cell (ty_of ty) c position }
        requires inputs { terms.old.inputs ≡ input_widths (design_tree self.now.design.now) }
        requires few { first_choice (design_tree self.now.design.now) + (room + room) < 2 ^ 32 }
        requires sound { IsSound terms.old }
        requires flow { IsFlow (cells_of self.now.design.now) terms.old flow }
        ensures { (c : cells.Cell) → IsParameter (cells_of self.now.design.now)
            (design_tree self.now.design.now) at cell (ty_of ty.entry) c position → IfOk result
            (ReadsArguments (cells_of self.now.design.now) terms.old terms.new (design_tree self.now.design.now)
            (c ∷ []) position flow) }
    {
        let first = self.first() + 64;
        let width = type_bits(self.scopes, ty);
        let number = choice_number(terms, first, position, width)?;
        let size = type_size(self.scopes, ty);
        let goes = within(terms, flow, number, width, size)?;
        let given = goes.with(at, cell, number)?;
        Ok(given)
    }

    // The runs of a flow at which all arguments that bits hold are values of the types of their parameters, after they
    // were put into the cells of these.
    fn read_all(
        &self,
        terms: &mut Terms,
        at: SiteBody,
        cells: &[CellNumber],
        params: &[Param],
        flow: Flow,
    ) -> Result<Flow, AllocError>
        requires parameters { AreParameters (cells_of self.now.design.now) (design_tree self.now.design.now) at
            cells.now params.now }
        requires inputs { terms.old.inputs ≡ input_widths (design_tree self.now.design.now) }
        requires few { first_choice (design_tree self.now.design.now) + (room + room) < 2 ^ 32 }
        requires sound { IsSound terms.old }
        requires flow { IsFlow (cells_of self.now.design.now) terms.old flow }
        ensures { IfOk result (ReadsArguments (cells_of self.now.design.now) terms.old terms.new
            (design_tree self.now.design.now) (params_of (design_tree self.now.design.now) at) 0 flow) }
    {
        let mut goes = flow;
        let mut position = 0;
        for index in 0..cells.len() {
            let ty = ExprType::of(&params[index].ty);
            goes = self.read_argument(terms, at, cells[index], ty, position, goes)?;
            position += u64::from(type_bits(self.scopes, ty));
        }
        Ok(goes)
    }

    /// The runs of a flow at which all arguments of a controllable task are in range, after they were put into its
    /// parameters. `scope` is its body. Linear in the bits of the arguments. `AllocError` is want of memory.
    pub(crate) fn read_arguments(
        &self,
        course: &mut Course,
        scope: &CellScope<'_>,
        called: &Controllable<'_>,
        flow: Flow,
    ) -> Result<Flow, AllocError>
        requires scope { scope.now ≡ record { tables = cells_of self.now.design.now; at = called.now.at } }
        requires readable { IsReadable (cells_of self.now.design.now) (design_tree self.now.design.now) called.now.at
            called.now.task.now }
        requires inputs { course.old.terms.inputs ≡ input_widths (design_tree self.now.design.now) }
        requires few { first_choice (design_tree self.now.design.now) + (room + room) < 2 ^ 32 }
        requires sound { IsSound course.old.terms }
        requires flow { IsFlow (cells_of self.now.design.now) course.old.terms flow }
        ensures reads { IfOk result (ReadsArguments (cells_of self.now.design.now) course.old.terms course.new.terms
            (design_tree self.now.design.now) (params_of (design_tree self.now.design.now) called.now.at) 0 flow) }
        ensures ends { course.new.ends ≡ course.old.ends }
    {
        let cells = parameter_cells(course.alloc, scope, called.task)?;
        let params = called.task.params.as_slice();
        let given = self.read_all(&mut course.terms, called.at, cells.as_slice(), params, flow)?;
        Ok(given)
    }
}
