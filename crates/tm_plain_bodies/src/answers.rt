//! What called procedures return.
ghost use Rattle.std.specs.Prelude.{◌≡◌, IfErr, IfOk, Some};
ghost use Rattle.tm_syntax.specs.declared.tree.TaskKind.TheVariants.{Procedure};
ghost use Rattle.tm_syntax.specs.declared.tree.TypeName as written;
ghost use Rattle.tm_syntax.specs.Tree.{ExprTree};
ghost use Rattle.tm_syntax.specs.Tree.View.{body_tree};
ghost use Rattle.tm_syntax.specs.Scopes.Names.{type_of};
ghost use Rattle.tm_scope.specs.Cells.{IsCellNumber};
ghost use Rattle.tm_design.specs.Typed.{HasTypeAt};
ghost use Rattle.tm_plain_bodies.specs.Arguments.{HaltsAtAnswer, IsAnswered};

use crate::conditions::operand;
use crate::course::Course;
use crate::frame::CalledTask;
use crate::halt::Halt;
use tm_plain_exprs::Reader;
use tm_scope::{CellNumber, ExprType};
use tm_syntax::tree::{TaskKind, TypeName};

impl<'a> CalledTask<'a> {
    // The type of what a procedure returns that has a result.
    fn answer_type(&self) -> &'a TypeName
        requires { (ty : written.TypeName) × (self.now.task.now.kind ≡ Procedure (Some ty)) }
        ensures { self.now.task.now.kind ≡ Procedure (Some result.now) }
    {
        let TaskKind::Procedure(ty) = &self.task.kind else {
            unreachable!()
        };
        let Some(ty) = ty else { unreachable!() };
        ty
    }

    /// Gives a cell what a procedure returns that has a result, if it returns something. It halts where this
    /// overruns, or memory is wanting.
    pub(crate) fn answer(
        &self,
        outer: &Reader<'a>,
        course: &mut Course,
        cell: Option<CellNumber>,
    ) -> Result<(), Halt>
        requires tables { self.now.frame.reader.tables ≡ outer.now.tables }
        requires there { IsCellNumber outer.now.tables outer.now.at cell }
        requires result { (ty : written.TypeName) × (self.now.task.now.kind ≡ Procedure (Some ty)) }
        requires typed { (ty : written.TypeName) (e : ExprTree) → self.now.task.now.kind ≡ Procedure (Some ty) →
            (body_tree self.now.task.now.body).answer ≡ Some e → HasTypeAt self.now.frame.reader (type_of ty) e }
        ensures answered { IfOk result (λ _. (ty : written.TypeName) → self.now.task.now.kind ≡ Procedure (Some ty) →
            IsAnswered outer.now self.now.frame.reader (type_of ty) (body_tree self.now.task.now.body).answer cell
            course.old course.new) }
        ensures halts { IfErr result (HaltsAtAnswer self.now.frame.reader (body_tree self.now.task.now.body).answer
            course.old) }
    {
        match &self.task.body.answer {
            Some(e) => {
                let ty = ExprType::of(self.answer_type());
                let value = operand(&self.frame.reader, course, e, ty)?;
                outer.put(&mut course.store, cell, value)?;
                Ok(())
            }
            None => Ok(()),
        }
    }
}
