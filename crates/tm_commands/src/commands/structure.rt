//! The command `structure`.
ghost use Rattle.std.specs.Prelude.{Some, IfOk};
ghost use Rattle.tm_syntax.specs.Design.View.{design_tree};
ghost use Rattle.tm_cir.specs.Fit.{FitBlocks};
ghost use Rattle.tm_cir.specs.View.{trees_of};
ghost use Rattle.tm_commands.specs.Structure.{IsShapeText};
ghost use Rattle.tm_commands.specs.Order.{IsDue};
ghost use Rattle.tm_commands.specs.Words.{structure as structure_words};
ghost use Rattle.tm_commands.specs.World.{OnlyCounts, files_data};
ghost use Rattle.tm_report.specs.Output.{sink_data};
ghost use Rattle.tm_commands.specs.Inner.Obeying.{IsSpelled, Obeys};

use crate::commands::write::write_file;
use crate::input::structure::load_structure;
use std::alloc::{AllocError, Global};
use tm_base::{Files, Sink};
use tm_cir::Blocks;
use tm_report::{Ending, Failure};
use tm_struct::print_structured;
use tm_syntax::design::Design;

/// A structured driver as text, with the number of its functions.
#[derive(Drop)]
struct ShapeText {
    text: Vec<u8>,
    functions: u64,
}

/// The shape of blocks, as text.
fn shape_text(alloc: Global, design: &Design, blocks: &Blocks) -> Result<ShapeText, AllocError>
    requires { FitBlocks (design_tree design.now) (trees_of blocks.now) }
    ensures { IfOk result (λ made.
        IsShapeText (design_tree design.now) (trees_of blocks.now) made.text.items made.functions) }
{
    let program = tm_struct::structure(alloc, design, blocks)?;
    let text = print_structured(alloc, design, &program)?;
    let functions = program.functions.len() as u64;
    Ok(ShapeText { text, functions })
}

/// Reads a driver for the design of a specification, and writes its shape to a file. The line that tells the outcome is
/// left.
pub fn structure<F: Files, O: Sink>(
    alloc: Global,
    files: &mut F,
    out: &mut O,
    spec: &str,
    driver: &str,
    name: &str,
) -> Result<Ending, Failure>
    requires { IsSpelled (structure_words spec.now driver.now name.now) }
    ensures obeys { Obeys (Some (structure_words spec.now driver.now name.now))
        (files_data ⟦<F as Files>⟧ files.old) (files_data ⟦<F as Files>⟧ files.new)
        (sink_data ⟦<O as Sink>⟧ out.old) (sink_data ⟦<O as Sink>⟧ out.new) result }
    ensures counts { OnlyCounts (IsDue (F.contents files.old) (Some (structure_words spec.now driver.now name.now)))
        (files_data ⟦<F as Files>⟧ files.old) (files_data ⟦<F as Files>⟧ files.new) }
{
    let inputs = match load_structure(alloc, files, spec, driver) {
        Ok(inputs) => inputs,
        Err(stop) => return stop.outcome(),
    };
    let Ok(made) = shape_text(alloc, &inputs.design, &inputs.blocks) else {
        return Err(Failure::Memory);
    };
    match write_file(alloc, files, name, &made.text) {
        Ok(()) => Ok(Ending::Structured(made.functions)),
        Err(unwritten) => Err(unwritten),
    }
}
