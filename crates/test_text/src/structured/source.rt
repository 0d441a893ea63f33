//! The structured drivers that sources tell.
ghost use Rattle.std.specs.Prelude.{IfOk};
ghost use Rattle.tm_syntax.specs.Design.View.{design_tree};
ghost use Rattle.tm_cir.specs.View.{trees_of};
ghost use Rattle.tm_cir.specs.Fit.{FitBlocks};
ghost use Rattle.tm_struct.specs.View.{program_tree};
ghost use Rattle.tm_struct.specs.Fit.{FitsProgram};

use super::text::{nested, open, turn};
use crate::drivers::source::{Refusal, blocks_of, fitting};
use case_rows::{number, split_word, unescaped};
use std::alloc::{AllocError, Global};
use tm_cir::{Block, Blocks, Num64, Truth};
use tm_struct::{Structured, structure};
use tm_struct_parse::{BadStructured, ReadStructuredError, read_structured};
use tm_syntax::design::Design;

/// Why a source tells no structured driver.
#[derive(Clone, Copy)]
pub enum NoProgram {
    /// It tells no blocks.
    Blocks(Refusal),
    /// Its text has this fault.
    Bad(BadStructured),
    /// Want of memory.
    Memory,
}

impl From<AllocError> for NoProgram {
    fn from(_: AllocError) -> NoProgram {
        NoProgram::Memory
    }
}

/// The driver of a structured text.
fn read(alloc: Global, design: &Design, text: &[u8]) -> Result<Structured, NoProgram>
    ensures { IfOk result (λ program. FitsProgram (design_tree design.now) (program_tree program)) }
{
    match read_structured(alloc, design, text) {
        Ok(program) => Ok(program),
        Err(ReadStructuredError::Bad(fault)) => Err(NoProgram::Bad(fault)),
        Err(ReadStructuredError::Memory) => Err(NoProgram::Memory),
    }
}

/// The shape of blocks.
fn shape(alloc: Global, design: &Design, blocks: &Blocks) -> Result<Structured, NoProgram>
    requires { FitBlocks (design_tree design.now) (trees_of blocks.now) }
    ensures { IfOk result (λ program. FitsProgram (design_tree design.now) (program_tree program)) }
{
    match structure(alloc, design, blocks) {
        Ok(program) => Ok(program),
        Err(_) => Err(NoProgram::Memory),
    }
}

/// The structured text that a source stands for, if it stands for one.
fn text_of(alloc: Global, kind: &str, rest: &str) -> Result<Option<Vec<u8>>, AllocError> {
    match kind {
        "text" => Ok(Some(unescaped(alloc, rest)?)),
        "turn" => Ok(Some(turn(alloc, rest)?)),
        "nested" => Ok(Some(nested(alloc, number(rest))?)),
        "open" => Ok(Some(open(alloc, number(rest))?)),
        "blanks" => Ok(Some(vec![in alloc; b' '; number(rest) as usize]?)),
        _ => Ok(None),
    }
}

/// So many tests of variable 0, and a call of task 0. Each test leads to the next block, and by its other branch to the
/// call, or to the next block, too.
fn tests(alloc: Global, count: u32, is_doubled: bool) -> Result<Vec<Block>, AllocError> {
    let mut blocks = Vec::new(alloc);
    for at in 0..count {
        let next = at + 1;
        let other = if is_doubled { next } else { count };
        blocks.push(Block::Test(Truth::Num(Num64::Var(0)), next, other))?;
    }
    blocks.push(Block::Call(0, Vec::new(alloc)))?;
    Ok(blocks)
}

/// The blocks that a source stands for.
fn source_blocks(alloc: Global, design: &Design, source: &str) -> Result<Blocks, Refusal>
    ensures { IfOk result (λ blocks. FitBlocks (design_tree design.now) (trees_of blocks)) }
{
    match split_word(source) {
        ("chain", count) => fitting(design, tests(alloc, number(count), false)?),
        ("doubled", count) => fitting(design, tests(alloc, number(count), true)?),
        _ => blocks_of(alloc, design, source),
    }
}

/// The structured driver of a source.
pub fn program_of(alloc: Global, design: &Design, source: &str) -> Result<Structured, NoProgram>
    ensures { IfOk result (λ program. FitsProgram (design_tree design.now) (program_tree program)) }
{
    let (kind, rest) = split_word(source);
    if let Some(text) = text_of(alloc, kind, rest)? {
        return read(alloc, design, text.as_slice());
    }
    match source_blocks(alloc, design, source) {
        Ok(blocks) => shape(alloc, design, &blocks),
        Err(refusal) => Err(NoProgram::Blocks(refusal)),
    }
}
