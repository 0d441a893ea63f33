//! What a certificate for a design has to fit.
ghost use Rattle.std.specs.Prelude.{◌≡◌, IfOk};
ghost use Rattle.tm_syntax.specs.Design.View.{design_tree};
ghost use Rattle.tm_syntax.specs.Faults.{IsOfText, IsSound};
ghost use Rattle.tm_judge.specs.Shape.{shape_of};

use crate::bits::state_bits;
use crate::fairness::condition_count;
use std::alloc::{AllocError, Global};
use tm_cert::{CertShape, Kind};
use tm_plain::{Tables, locate};
use tm_syntax::design::Design;

// The numbers of a design that its certificates of a wanted kind speak of, by its tables.
fn shape_by_tables(alloc: Global, tables: &Tables, wanted: Kind) -> Result<CertShape, AllocError>
    requires { IsSound (design_tree tables.now) }
    ensures { IfOk result (λ shape. shape ≡ shape_of (design_tree tables.now) wanted) }
{
    let locations = match locate(alloc, tables) {
        Ok(locations) => locations,
        Err(error) => return Err(error),
    };
    let design = tables.design();
    let bits = state_bits(design, tables.scopes(), locations.as_slice());
    drop(locations);
    Ok(CertShape {
        bits,
        goals: design.goals.len() as u32,
        fairs: condition_count(design),
        wanted,
    })
}

/// The numbers of a design of a text that its certificates speak of, for a wanted kind of certificate. Linear in the
/// text and in the statements of its processes, with the bodies that these call. `AllocError` is want of memory.
pub fn cert_shape(alloc: Global, design: &Design, wanted: Kind) -> Result<CertShape, AllocError>
    requires sound { IsSound (design_tree design.now) }
    requires read { IsOfText (design_tree design.now).spec }
    ensures { IfOk result (λ shape. shape ≡ shape_of (design_tree design.now) wanted) }
{
    let tables = match Tables::new(alloc, design) {
        Ok(tables) => tables,
        Err(error) => return Err(error),
    };
    let shape = shape_by_tables(alloc, &tables, wanted);
    drop(tables);
    shape
}
