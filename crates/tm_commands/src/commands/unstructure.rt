//! The command `unstructure`.
ghost use Rattle.std.specs.Prelude.{Some, IfOk};
ghost use Rattle.tm_syntax.specs.Design.View.{design_tree};
ghost use Rattle.tm_struct.specs.Fit.{FitsProgram};
ghost use Rattle.tm_struct.specs.View.{program_tree};
ghost use Rattle.tm_commands.specs.Structure.{AreBlocksOf};
ghost use Rattle.tm_commands.specs.Order.{IsDue};
ghost use Rattle.tm_commands.specs.Words.{unstructure as unstructure_words};
ghost use Rattle.tm_commands.specs.World.{OnlyCounts, files_data};
ghost use Rattle.tm_report.specs.Output.{sink_data};
ghost use Rattle.tm_commands.specs.Inner.Obeying.{IsSpelled, Obeys};

use crate::commands::write::write_file;
use crate::input::unstructure::load_unstructure;
use std::alloc::{AllocError, Global};
use tm_base::{Files, Sink};
use tm_cprint::print;
use tm_report::{Ending, Failure};
use tm_struct::{Structured, blocks_of};
use tm_syntax::design::Design;

/// A driver with `goto` as text, with the number of its blocks.
#[derive(Drop)]
struct BlocksText {
    text: Vec<u8>,
    blocks: u64,
}

/// The blocks of a structured driver, as text.
fn blocks_text(
    alloc: Global,
    design: &Design,
    program: &Structured,
) -> Result<BlocksText, AllocError>
    requires { FitsProgram (design_tree design.now) (program_tree program.now) }
    ensures { IfOk result (λ made.
        AreBlocksOf (design_tree design.now) (program_tree program.now) made.text.items made.blocks) }
{
    let blocks = blocks_of(alloc, design, program)?;
    let text = print(alloc, design, &blocks)?;
    let count = blocks.blocks().len() as u64;
    Ok(BlocksText {
        text,
        blocks: count,
    })
}

/// Reads a structured driver for the design of a specification, and writes its blocks to a file, with `goto`. The line
/// that tells the outcome is left.
pub fn unstructure<F: Files, O: Sink>(
    alloc: Global,
    files: &mut F,
    out: &mut O,
    spec: &str,
    structured: &str,
    name: &str,
) -> Result<Ending, Failure>
    requires { IsSpelled (unstructure_words spec.now structured.now name.now) }
    ensures obeys { Obeys (Some (unstructure_words spec.now structured.now name.now))
        (files_data ⟦<F as Files>⟧ files.old) (files_data ⟦<F as Files>⟧ files.new)
        (sink_data ⟦<O as Sink>⟧ out.old) (sink_data ⟦<O as Sink>⟧ out.new) result }
    ensures counts { OnlyCounts
        (IsDue (F.contents files.old) (Some (unstructure_words spec.now structured.now name.now)))
        (files_data ⟦<F as Files>⟧ files.old) (files_data ⟦<F as Files>⟧ files.new) }
{
    let inputs = match load_unstructure(alloc, files, spec, structured) {
        Ok(inputs) => inputs,
        Err(stop) => return stop.outcome(),
    };
    let Ok(made) = blocks_text(alloc, &inputs.design, &inputs.program) else {
        return Err(Failure::Memory);
    };
    match write_file(alloc, files, name, &made.text) {
        Ok(()) => Ok(Ending::Unstructured(made.blocks)),
        Err(unwritten) => Err(unwritten),
    }
}
