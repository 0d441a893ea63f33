//! Statements that hold no others.
ghost use Rattle.std.specs.Prelude.{IfOk, None, Some, false};
ghost use Rattle.std.specs.Option.{option_map};
ghost use Rattle.tm_base.specs.declared.place.Place as placed;
ghost use Rattle.tm_sem.specs.Run.{stopped};
ghost use Rattle.tm_syntax.specs.Tree as trees;
ghost use Rattle.tm_syntax.specs.Tree.View.{expr_tree};
ghost use Rattle.tm_flat_bodies.specs.Tables.{known_by};
ghost use Rattle.tm_flat_bodies.specs.Walks.{IsStand, IsStanding, LeadsAt, StmtLeads, StmtWalks};

use crate::course::Course;
use crate::stand::Stand;
use crate::trails::location;
use crate::walker::Walker;
use std::alloc::AllocError;
use tm_base::Place;
use tm_flat_stmts::{Flow, asserted, assigned, assigned_element, assumed, chosen, chosen_element};
use tm_syntax::tree::{Expr, Ident};

impl<'s> Walker<'s> {
    // Leads runs through an `assert`.
    pub(crate) fn assert(
        &self,
        stand: &Stand<'s>,
        course: &mut Course,
        e: &Expr,
        flow: Flow,
    ) -> Result<Option<Flow>, AllocError>
        requires { (at : placed.Place)
            × StmtWalks (known_by self.now) stand.now (trees.assert at (expr_tree e.now)) course.old flow }
        ensures { (at : placed.Place) → IfOk result
            (StmtLeads (known_by self.now) stand.now (trees.assert at (expr_tree e.now)) course.old course.new flow) }
    {
        let goes = asserted(&stand.reader, &mut course.terms, &mut course.ends, flow, e)?;
        Ok(Some(goes))
    }

    // Leads runs through an `assume`.
    pub(crate) fn assume(
        &self,
        stand: &Stand<'s>,
        course: &mut Course,
        e: &Expr,
        flow: Flow,
    ) -> Result<Option<Flow>, AllocError>
        requires { (at : placed.Place)
            × StmtWalks (known_by self.now) stand.now (trees.assume at (expr_tree e.now)) course.old flow }
        ensures { (at : placed.Place) → IfOk result
            (StmtLeads (known_by self.now) stand.now (trees.assume at (expr_tree e.now)) course.old course.new flow) }
    {
        let goes = assumed(&stand.reader, &mut course.terms, &mut course.ends, flow, e)?;
        Ok(Some(goes))
    }

    // Leads runs through an assignment of a value.
    pub(crate) fn assign_value(
        &self,
        stand: &Stand<'s>,
        course: &mut Course,
        path: &[Ident],
        index: &Option<Expr>,
        e: &Expr,
        flow: Flow,
    ) -> Result<Option<Flow>, AllocError>
        requires { StmtWalks (known_by self.now) stand.now
            (trees.assign path.now (option_map expr_tree index.now) (trees.plain (expr_tree e.now))) course.old flow }
        ensures { IfOk result (StmtLeads (known_by self.now) stand.now
            (trees.assign path.now (option_map expr_tree index.now) (trees.plain (expr_tree e.now))) course.old
            course.new flow) }
    {
        match index {
            None => {
                let goes = assigned(
                    &stand.reader,
                    &mut course.terms,
                    &mut course.ends,
                    flow,
                    path,
                    e,
                )?;
                Ok(Some(goes))
            }
            Some(index) => {
                let goes = assigned_element(
                    &stand.reader,
                    &mut course.terms,
                    &mut course.ends,
                    flow,
                    path,
                    index,
                    e,
                )?;
                Ok(Some(goes))
            }
        }
    }

    // Leads runs through an assignment of a choice.
    pub(crate) fn assign_choice(
        &self,
        stand: &Stand<'s>,
        course: &mut Course,
        path: &[Ident],
        index: &Option<Expr>,
        flow: Flow,
    ) -> Result<Option<Flow>, AllocError>
        requires { (at : placed.Place) × StmtWalks (known_by self.now) stand.now
            (trees.assign path.now (option_map expr_tree index.now) (trees.star at)) course.old flow }
        ensures { (at : placed.Place) → IfOk result (StmtLeads (known_by self.now) stand.now
            (trees.assign path.now (option_map expr_tree index.now) (trees.star at)) course.old course.new flow) }
    {
        match index {
            None => {
                let goes = chosen(&stand.reader, &mut course.terms, flow, path, self.first)?;
                Ok(Some(goes))
            }
            Some(index) => {
                let goes = chosen_element(
                    &stand.reader,
                    &mut course.terms,
                    &mut course.ends,
                    flow,
                    path,
                    index,
                    self.first,
                )?;
                Ok(Some(goes))
            }
        }
    }

    // Leads runs to the location at a place.
    pub(crate) fn stop(
        &self,
        stand: &Stand<'s>,
        course: &mut Course,
        at: Place,
        flow: Flow,
    ) -> Result<Option<Flow>, AllocError>
        requires stand { IsStand (known_by self.now) stand.now }
        requires standing { IsStanding (known_by self.now) course.old flow }
        ensures { IfOk result (LeadsAt (known_by self.now) stand.now (λ r trail k v. stopped at trail) (λ r k. None)
            (λ r k i. false) course.old course.new flow) }
    {
        let number = location(self.locations, stand.trail, at);
        course
            .ends
            .stop(course.alloc, &mut course.terms, number, flow)?;
        Ok(None)
    }
}
