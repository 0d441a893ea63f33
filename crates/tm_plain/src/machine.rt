//! A design with the tables by which it is run.
ghost use Rattle.std.specs.Prelude.{◌≡◌, IfOk, length};
ghost use Rattle.tm_plain.specs.Machine.{AreLocated};

mod first;
mod goals;
mod moves;
mod permits;
mod places;
mod rests;
mod tasks;
mod validity;

use crate::tables::Tables;
use std::alloc::{AllocError, Global};
use std::marker::Model;
use tm_locations::{Locations, find_locations};
use tm_plain_bodies::Runner;
use tm_scope::Scopes;
use tm_syntax::design::Design;

/// A design with the tables by which it is run: those of its names, and the locations of each process.
///
/// Contracts see the design.
#[derive(Drop)]
pub struct Machine<'s> {
    design: &'s Design,
    scopes: &'s Scopes<'s>,
    runner: Runner<'s>,
    locations: Vec<Locations<'s>>,
}

impl<'s> Model for Machine<'s> {
    ghost use Rattle.std.specs.Prelude.{◌≡◌, length};
    ghost use Rattle.tm_syntax.specs.declared.design.Design.{Design};
    ghost use Rattle.tm_syntax.specs.contracts.design.Design as design_contract;
    ghost use Rattle.tm_plain.specs.Machine.{AreLocated, IsRunnable};

    ghost Value = { Design };

    ghost view = { λ m. m.design.now };

    ghost invariant = { λ m. (m.runner ≡ m.design.now) × IsRunnable m.design.now
        × AreLocated m.design.now (length m.design.now.processes.items)
        m.locations.items × (m.scopes.now ≡ m.design.now.spec) };

    ghost coded = { design_contract.the_row.coded };
}

/// The locations of each process of a design, in order. Linear in the statements of the processes and of the bodies
/// that these call and that may pause. `AllocError` is want of memory.
pub fn locate<'s>(alloc: Global, tables: &'s Tables<'s>) -> Result<Vec<Locations<'s>>, AllocError>
    ensures { IfOk result (λ all. AreLocated tables.now (length tables.now.processes.items) all.items) }
{
    let design = tables.design;
    let scopes = &tables.scopes;
    let pausing = &tables.pausing;
    let order = tables.order.as_slice();
    let instances = design.instances.as_slice();
    let mut all = Vec::new(alloc);
    for process in &design.processes {
        let found = find_locations(alloc, scopes, instances, pausing, order, process)?;
        all.push(found)?;
    }
    Ok(all)
}

impl<'s> Machine<'s> {
    /// A machine that runs a design, in time linear in the paths of its variables and in the statements of its
    /// processes, with the bodies that these call. `AllocError` is want of memory.
    pub fn new(alloc: Global, tables: &'s Tables<'s>) -> Result<Machine<'s>, AllocError>
        ensures { IfOk result (λ m. m ≡ tables.now) }
    {
        let locations = match locate(alloc, tables) {
            Ok(locations) => locations,
            Err(error) => return Err(error),
        };
        let design = tables.design;
        let scopes = &tables.scopes;
        let order = tables.order.as_slice();
        match Runner::new(alloc, design, scopes, &tables.pausing, order) {
            Ok(runner) => Ok(Machine {
                design,
                scopes,
                runner,
                locations,
            }),
            Err(error) => {
                drop(locations);
                Err(error)
            }
        }
    }

    /// The design.
    pub fn design(&self) -> &Design
        ensures { result.now ≡ self.now }
    {
        self.design
    }
}
