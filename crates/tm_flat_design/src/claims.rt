//! What a design says of states.
ghost use Rattle.std.specs.Prelude.{IfOk};
ghost use Rattle.tm_syntax.specs.Design.View.{design_tree};
ghost use Rattle.tm_states.specs.States.{HaveLocations};
ghost use Rattle.tm_flat_states.specs.Actors.{HaveSteps};
ghost use Rattle.tm_flat_states.specs.Markable.{IsMarkable};
ghost use Rattle.tm_flat_states.specs.Marks.{MakesSuch};
ghost use Rattle.tm_flat_design.specs.Making.{AreClaims, AreOver};

use std::alloc::{AllocError, Global};
use tm_flat::FlatStep;
use tm_flat_states::Marker;
use tm_term::{TermId, Terms};

/// The terms of what a design says of states: of its goals, of its fairness conditions, and of which states are initial
/// and valid.
#[derive(Drop)]
pub(crate) struct Claims {
    pub goals: Vec<TermId>,
    pub fairs: Vec<TermId>,
    pub initial: TermId,
    pub valid: TermId,
}

/// What a design says of states, by the steps of its processes. `AllocError` is want of memory.
pub(crate) fn claims_of(
    alloc: Global,
    marker: &Marker<'_>,
    terms: &mut Terms,
    processes: &[Vec<FlatStep>],
) -> Result<Claims, AllocError>
    requires located { HaveLocations (design_tree marker.now.design.now) marker.now.locations.now }
    requires markable { IsMarkable marker.now.design.now }
    requires terms { AreOver marker.now.design.now terms.old }
    requires steps { HaveSteps terms.old (design_tree marker.now.design.now) processes.now }
    ensures { IfOk result
        (MakesSuch terms.old terms.new (AreClaims (design_tree marker.now.design.now))) }
{
    let fairs = marker.fairs(alloc, terms, processes)?;
    let goals = marker.goals(alloc, terms)?;
    let initial = marker.initial(alloc, terms)?;
    let valid = marker.valid(alloc, terms)?;
    Ok(Claims {
        goals,
        fairs,
        initial,
        valid,
    })
}
