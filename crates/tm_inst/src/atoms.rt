//! The limit on the atoms of a design.
ghost use Rattle.std.specs.Prelude.{◌≡◌, IfErr, IfOk, length};
ghost use Rattle.tm_syntax.specs.Tree.View.{spec_tree};
ghost use Rattle.tm_syntax.specs.Design.Atoms.{pool_atoms};
ghost use Rattle.tm_syntax.specs.Faults.{HasTreeFault, IsTyped};
ghost use Rattle.tm_scope.specs.Cells.{ArePausing};
ghost use Rattle.tm_atoms.specs.Orders.{HasCallOrder};
ghost use Rattle.tm_inst.specs.Answer.{IsMemoryOr};
ghost use Rattle.tm_inst.specs.Inner.Parts.{HasParts, HasSoundParts, parts_tree};

use crate::parts::Parts;
use std::alloc::{AllocError, Global};
use tm_atoms::{Conditions, list_atoms};
use tm_base::Place;
use tm_limits::above;
use tm_locations::joined_designs_lead_by_text;
use tm_scope::{Cells, Scopes, TaskSet};
use tm_syntax::fault::{FrontError, Quantity};

// The first place of a text.
const START: Place = Place { line: 1, column: 1 };

// The greatest number of atoms.
const MOST_ATOMS: usize = 512;

/// The parts of a design, unless its atoms are above their limit, which is the fault then. Linear in the bodies of the
/// instances, but for the heights of comparisons within comparisons.
pub(crate) fn with_few_atoms(
    alloc: Global,
    scopes: &Scopes,
    pausing: &TaskSet,
    parts: Parts,
) -> Result<Parts, FrontError>
    requires typed { IsTyped (spec_tree scopes.now) }
    requires order { HasCallOrder (spec_tree scopes.now) }
    requires pausing { ArePausing (spec_tree scopes.now) pausing.now }
    requires parts { HasParts (spec_tree scopes.now) parts }
    ensures ok { IfOk result (HasSoundParts (spec_tree scopes.now)) }
    ensures faulty { IfErr result (IsMemoryOr (HasTreeFault (spec_tree scopes.now))) }
{
    let found = count_atoms(alloc, scopes, pausing, &parts)?;
    if found > MOST_ATOMS {
        Err(FrontError::Faulty(above(START, Quantity::Atoms, found as u64)))
    } else {
        Ok(parts)
    }
}

// How many atoms a design has.
fn count_atoms(
    alloc: Global,
    scopes: &Scopes,
    pausing: &TaskSet,
    parts: &Parts,
) -> Result<usize, AllocError>
    requires typed { IsTyped (spec_tree scopes.now) }
    requires order { HasCallOrder (spec_tree scopes.now) }
    requires pausing { ArePausing (spec_tree scopes.now) pausing.now }
    requires parts { HasParts (spec_tree scopes.now) parts.now }
    ensures { IfOk result (λ n. n ≡ length (pool_atoms (parts_tree (spec_tree scopes.now) parts.now))) }
{
    let instances = parts.instances.as_slice();
    let vars = parts.vars.as_slice();
    let cells = match Cells::new(alloc, scopes.spec(), scopes, instances, vars, pausing) {
        Ok(cells) => cells,
        Err(error) => return Err(error),
    };
    let conditions = Conditions {
        goals: parts.items.goals.as_slice(),
        fairs: parts.items.fairs.as_slice(),
        processes: parts.items.processes.as_slice(),
        tasks: parts.items.tasks.as_slice(),
    };
    let listed = list_atoms(alloc, &cells, scopes, instances, conditions);
    drop(cells);
    joined_designs_lead_by_text();
    match listed {
        Ok(atoms) => Ok(atoms.len()),
        Err(error) => Err(error),
    }
}
