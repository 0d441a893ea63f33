//! A design with the tables by which it is run.
ghost use Rattle.std.specs.Prelude.{◌≡◌, ◌≤◌, IfNone, IfOk, IfSome, None, Some, length};
ghost use Rattle.std.specs.Option.{option_map};
ghost use Rattle.tm_syntax.specs.Tree.View.{spec_tree};
ghost use Rattle.tm_syntax.specs.Scopes.Pauses.{call_depth};
ghost use Rattle.tm_syntax.specs.Design.View.{design_tree};
ghost use Rattle.tm_syntax.specs.Design.Scope.{site};
ghost use Rattle.tm_syntax.specs.Faults.{IsOfText, IsSound};
ghost use Rattle.tm_scope.specs.CallOrder.{CoversTasks, IsCallOrder};
ghost use Rattle.tm_scope.specs.Cells.{ArePausing};
ghost use Rattle.tm_design.specs.Typed.{context_at};
ghost use Rattle.tm_syntax.specs.Scopes.Context.{Context};
ghost use Rattle.tm_plain_bodies.specs.Frames.{IsFrame};
ghost use Rattle.tm_plain_bodies.specs.Inner.Owed.{frame_of};
ghost use Rattle.tm_plain_bodies.specs.Tables.{body_of};

use crate::frame::Frame;
use crate::todo::Level;
use std::alloc::{AllocError, Global};
use std::marker::Model;
use tm_plain_exprs::Reader;
use tm_scope::{Cells, Scopes, SiteBody, Sites, TaskSet};
use tm_syntax::design::Design;
use tm_syntax::member::Member;

/// A design with the tables by which its names are found.
///
/// Contracts see the design.
#[derive(Drop)]
pub struct Runner<'s> {
    pub(crate) design: &'s Design,
    scopes: &'s Scopes<'s>,
    cells: Cells<'s>,
    pub(crate) sites: Sites<'s>,
    pub(crate) order: &'s [Member],
}

impl<'s> Model for Runner<'s> {
    ghost use Rattle.std.specs.Prelude.{◌≡◌};
    ghost use Rattle.tm_syntax.specs.declared.design.Design.{Design};
    ghost use Rattle.tm_syntax.specs.contracts.design.Design as design_contract;
    ghost use Rattle.tm_plain_bodies.specs.Tables.{IsReady, sites_of, tables_of};

    ghost Value = { Design };

    ghost view = { λ m. m.design.now };

    ghost invariant = { λ m. (m.scopes.now ≡ m.design.now.spec) × (m.cells ≡ tables_of m.design.now)
        × (m.sites ≡ sites_of m.design.now) × IsReady m.design.now m.order.now };

    ghost coded = { design_contract.the_row.coded };
}

impl<'s> Runner<'s> {
    /// The tables of a design that keeps its facts, in time linear in the paths of its variables. `pausing` are the
    /// tasks of the text that may pause, and `order` has all tasks, each behind those that it calls. `AllocError` is
    /// want of memory.
    pub fn new(
        alloc: Global,
        design: &'s Design,
        scopes: &'s Scopes<'s>,
        pausing: &'s TaskSet,
        order: &'s [Member],
    ) -> Result<Runner<'s>, AllocError>
        requires text { scopes.now ≡ design.now.spec }
        requires pausing { ArePausing (spec_tree design.now.spec) pausing.now }
        requires ordered { IsCallOrder (spec_tree design.now.spec) order.now }
        requires covers { CoversTasks (spec_tree design.now.spec) order.now }
        requires short { length order.now ≤ call_depth (spec_tree design.now.spec) }
        requires sound { IsSound (design_tree design.now) }
        requires read { IsOfText (spec_tree design.now.spec) }
        ensures { IfOk result (λ m. m ≡ design.now) }
    {
        let cells = Cells::new(
            alloc,
            &design.spec,
            scopes,
            design.instances.as_slice(),
            design.vars.as_slice(),
            pausing,
        )?;
        let sites = Sites::new(scopes, design.instances.as_slice());
        Ok(Runner {
            design,
            scopes,
            cells,
            sites,
            order,
        })
    }

    /// A body of an instance, or what stands outside of the bodies of its template. There is none exactly where the
    /// design has no such instance.
    pub fn reader(&self, at: SiteBody) -> Option<Reader<'_>>
        ensures { result ≡ option_map (λ _. body_of self.now at) (site (design_tree self.now) at.instance) }
    {
        let scope = self.cells.scope(at)?;
        Some(Reader::new(scope, self.scopes, at))
    }

    // The frame of a body of an instance that the design has.
    pub(crate) fn frame_here(&self, level: Level) -> Frame<'_>
        requires { (c : Context) × (context_at (body_of self.now level.at) ≡ Some c) }
        ensures { result ≡ frame_of self.now level }
    {
        match self.reader(level.at) {
            Some(reader) => Frame {
                reader,
                depth: level.depth,
            },
            None => unreachable!(),
        }
    }

    /// A body of an instance, below which calls nest as deep as the text lets them. There is none exactly where the
    /// design has no such instance.
    pub fn frame(&self, at: SiteBody) -> Option<Frame<'_>>
        ensures found { IfSome result (IsFrame self.now at) }
        ensures none { IfNone result (site (design_tree self.now) at.instance ≡ None) }
    {
        let reader = self.reader(at)?;
        Some(Frame {
            reader,
            depth: self.order.len(),
        })
    }
}
