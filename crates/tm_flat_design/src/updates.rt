//! A design as guarded updates.
ghost use Rattle.std.specs.Prelude.{◌≡◌, IfOk, length};
ghost use Rattle.std.specs.List.{AllZip};
ghost use Rattle.tm_syntax.specs.Design.Atoms.{first_atoms};
ghost use Rattle.tm_syntax.specs.Design.View.{design_tree};
ghost use Rattle.tm_syntax.specs.Faults as facts;
ghost use Rattle.tm_term.specs.Table.{IsSound};
ghost use Rattle.tm_term.specs.Value.{Extends};
ghost use Rattle.tm_flat.specs.Flat.{flat_terms};
ghost use Rattle.tm_flat.specs.Inputs.{input_widths};
ghost use Rattle.tm_flat.specs.IsFlat.{IsFlat};
ghost use Rattle.tm_flat_exprs.specs.Tables.{cells_of};
ghost use Rattle.tm_plain.specs.Machine.{AreLocated, IsRunnable};
ghost use Rattle.tm_flat_states.specs.Marks.{MakesSuch};
ghost use Rattle.tm_flat_pool.specs.Predicates.{pool};
ghost use Rattle.tm_flat_pool.specs.PoolTerms.{IsPredicateTerm};
ghost use Rattle.tm_flat_design.specs.Making.{AreOver, IsWhole, MayUpdate};

use crate::claims::claims_of;
use crate::layout::layout_of;
use crate::sound_designs_of_texts_are_markable;
use crate::updater::{Updater, find_cells};
use std::alloc::{AllocError, Global};
use std::mem;
use tm_flat::Flat;
use tm_flat_bodies::Course;
use tm_flat_stmts::Ends;
use tm_locations::Locations;
use tm_plain::{Tables, locate};
use tm_scope::Cells;
use tm_syntax::design::Design;
use tm_term::Terms;

impl<'s> Updater<'s> {
    // The design as guarded updates, over the terms of a course.
    fn updates(&self, course: &mut Course) -> Result<Flat, AllocError>
        requires design { MayUpdate self.now }
        requires terms { AreOver self.now.design.now course.old.terms }
        ensures { IfOk result (MakesSuch course.old.terms course.new.terms
            (IsWhole (design_tree self.now.design.now))) }
    {
        let marker = self.marker();
        sound_designs_of_texts_are_markable();
        let layout = layout_of(course.alloc, &marker)?;
        let moves = self.moves(course)?;
        let steps = moves.processes.as_slice();
        let claims = claims_of(course.alloc, &marker, &mut course.terms, steps)?;
        let predicates = self.predicates(course)?;
        Ok(Flat {
            processes: moves.processes,
            tasks: moves.tasks,
            parameters: layout.parameters,
            magic: layout.magic,
            goals: claims.goals,
            fairs: claims.fairs,
            initial: claims.initial,
            valid: claims.valid,
            pool: predicates.ids,
            first: predicates.first,
            widths: layout.widths,
        })
    }

    // The design as guarded updates, over terms that are lent: they stand in a course while it is made, and are put
    // back whatever comes.
    fn updates_over(&self, alloc: Global, terms: &mut Terms) -> Result<Flat, AllocError>
        requires design { MayUpdate self.now }
        requires terms { AreOver self.now.design.now terms.old }
        ensures { IfOk result
            (MakesSuch terms.old terms.new (IsWhole (design_tree self.now.design.now))) }
    {
        let mut course = Course {
            alloc,
            terms: Terms::new(alloc, &[])?,
            ends: Ends::new(alloc, 0)?,
        };
        mem::swap(terms, &mut course.terms);
        let flat = self.updates(&mut course);
        mem::swap(terms, &mut course.terms);
        flat
    }
}

// A design as guarded updates, by its tables, its cells and the locations of its processes.
fn flatten_in(
    alloc: Global,
    tables: &Tables<'_>,
    cells: &Cells<'_>,
    locations: &[Locations<'_>],
    terms: &mut Terms,
) -> Result<Flat, AllocError>
    requires runnable { IsRunnable tables.now }
    requires cells { cells.now ≡ cells_of tables.now }
    requires located { AreLocated tables.now (length tables.now.processes.items) locations.now }
    requires terms { AreOver tables.now terms.old }
    ensures { IfOk result (MakesSuch terms.old terms.new (IsWhole (design_tree tables.now))) }
{
    let updater = Updater::new(tables, cells, locations);
    sound_designs_of_texts_are_markable();
    updater.updates_over(alloc, terms)
}

// A design as guarded updates, by the tables of its text.
fn flatten_by(alloc: Global, tables: &Tables<'_>, terms: &mut Terms) -> Result<Flat, AllocError>
    requires runnable { IsRunnable tables.now }
    requires terms { AreOver tables.now terms.old }
    ensures { IfOk result (MakesSuch terms.old terms.new (IsWhole (design_tree tables.now))) }
{
    let locations = match locate(alloc, tables) {
        Ok(locations) => locations,
        Err(error) => return Err(error),
    };
    let cells = match find_cells(alloc, tables) {
        Ok(cells) => cells,
        Err(error) => {
            drop(locations);
            return Err(error);
        }
    };
    let flat = flatten_in(alloc, tables, &cells, locations.as_slice(), terms);
    drop(cells);
    drop(locations);
    flat
}

/// A design of a text as guarded updates over terms of its `inputs`: for each process and location, and for each
/// controllable task, terms that tell exactly the outcomes of the step, for every state and every list of choices; its
/// goals, its fairness conditions, its initial and its valid states; and the pool of predicates, with the number of
/// those that the abstraction begins with. Each id that was handed out before means what it meant, where no want of
/// memory is answered; where it is, nothing is said of the terms.
///
/// Takes time linear in what is left to be done at each location and in each task, with the bodies that these call, and
/// in the cells at each join. `AllocError` is want of memory.
pub fn flatten(alloc: Global, design: &Design, terms: &mut Terms) -> Result<Flat, AllocError>
    requires sound { facts.IsSound (design_tree design.now) }
    requires read { facts.IsOfText (design_tree design.now).spec }
    requires terms { IsSound terms.old }
    requires inputs { terms.old.inputs ≡ input_widths (design_tree design.now) }
    ensures flat { IfOk result (λ f. IsFlat terms.new (design_tree design.now) (flat_terms f)) }
    ensures pool { IfOk result (λ f. AllZip (IsPredicateTerm terms.new (design_tree design.now))
        (pool (design_tree design.now)) f.pool.items) }
    ensures first { IfOk result (λ f. f.first ≡ first_atoms (design_tree design.now)) }
    ensures earlier { IfOk result (λ _. Extends terms.old terms.new) }
    ensures sound { IfOk result (λ _. IsSound terms.new) }
{
    let tables = match Tables::new(alloc, design) {
        Ok(tables) => tables,
        Err(error) => return Err(error),
    };
    let flat = flatten_by(alloc, &tables, terms);
    drop(tables);
    flat
}
