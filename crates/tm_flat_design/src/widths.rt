//! The widths of the inputs of the terms of a design.
ghost use Rattle.std.specs.Prelude.{◌≡◌, All, IfOk, length};
ghost use Rattle.tm_base.specs.Arithmetic.{IsWidth};
ghost use Rattle.tm_syntax.specs.Design.View.{design_tree};
ghost use Rattle.tm_syntax.specs.Faults.{IsOfText, IsSound};
ghost use Rattle.tm_flat.specs.Inputs.{input_widths};
ghost use Rattle.tm_flat_exprs.specs.Tables.{cells_of};
ghost use Rattle.tm_plain.specs.Machine.{AreLocated, IsRunnable};

use crate::sound_designs_of_texts_are_markable;
use crate::updater::{Updater, find_cells};
use std::alloc::{AllocError, Global};
use tm_locations::Locations;
use tm_plain::{Tables, locate};
use tm_scope::Cells;
use tm_syntax::design::Design;

// The widths of the inputs of a design's terms, by its tables, its cells and the locations of its processes.
fn inputs_in(
    alloc: Global,
    tables: &Tables<'_>,
    cells: &Cells<'_>,
    locations: &[Locations<'_>],
) -> Result<Vec<u8>, AllocError>
    requires runnable { IsRunnable tables.now }
    requires cells { cells.now ≡ cells_of tables.now }
    requires located { AreLocated tables.now (length tables.now.processes.items) locations.now }
    ensures { IfOk result (λ widths. widths.items ≡ input_widths (design_tree tables.now)) }
{
    let updater = Updater::new(tables, cells, locations);
    sound_designs_of_texts_are_markable();
    let marker = updater.marker();
    let widths = marker.inputs(alloc)?;
    Ok(widths)
}

// The widths of the inputs of a design's terms, by the tables of its text.
fn inputs_by(alloc: Global, tables: &Tables<'_>) -> Result<Vec<u8>, AllocError>
    requires { IsRunnable tables.now }
    ensures { IfOk result (λ widths. widths.items ≡ input_widths (design_tree tables.now)) }
{
    let locations = match locate(alloc, tables) {
        Ok(locations) => locations,
        Err(error) => return Err(error),
    };
    let cells = match find_cells(alloc, tables) {
        Ok(cells) => cells,
        Err(error) => {
            drop(locations);
            return Err(error);
        }
    };
    let widths = inputs_in(alloc, tables, &cells, locations.as_slice());
    drop(cells);
    drop(locations);
    widths
}

/// The widths of the inputs of the terms of a design of a text, each 1 to 64: those of its variables, of the locations
/// of its processes and of who moved last, then 64 bits of choices and 64 bits of arguments. Linear in the text and in
/// the statements of its processes, with the bodies that these call. `AllocError` is want of memory.
pub fn inputs(alloc: Global, design: &Design) -> Result<Vec<u8>, AllocError>
    requires sound { IsSound (design_tree design.now) }
    requires read { IsOfText (design_tree design.now).spec }
    ensures widths { IfOk result (λ widths. widths.items ≡ input_widths (design_tree design.now)) }
    ensures in_range { IfOk result (λ widths. All IsWidth widths.items) }
{
    let tables = match Tables::new(alloc, design) {
        Ok(tables) => tables,
        Err(error) => return Err(error),
    };
    sound_designs_of_texts_are_markable();
    let widths = inputs_by(alloc, &tables);
    drop(tables);
    widths
}
