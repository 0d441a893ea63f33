//! The blocks that sources tell.
ghost use Rattle.std.specs.Prelude.{IfOk};
ghost use Rattle.tm_syntax.specs.Design.View.{design_tree};
ghost use Rattle.tm_cir.specs.View.{trees_of};
ghost use Rattle.tm_cir.specs.Fit.{FitBlocks};

use super::blocks::{blocks, negated};
use super::text::{driver, nested, writer};
use super::worked::{mixed, wrapping};
use case_rows::{number, split_word, unescaped};
use std::alloc::{AllocError, Global};
use tm_cir::{Block, Blocks};
use tm_cparse::{BadDriver, ReadDriverError, read_driver};
use tm_syntax::design::Design;

/// Why a source tells no blocks.
#[derive(Clone, Copy)]
pub enum Refusal {
    /// Its first word names no kind of source.
    Unknown,
    /// Its blocks do not fit the design.
    Misfit,
    /// Its text has this fault.
    Bad(BadDriver),
    /// Want of memory.
    Memory,
}

impl From<AllocError> for Refusal {
    fn from(_: AllocError) -> Refusal {
        Refusal::Memory
    }
}

/// The blocks of a C text.
fn read(alloc: Global, design: &Design, text: &[u8]) -> Result<Blocks, Refusal>
    ensures { IfOk result (λ blocks. FitBlocks (design_tree design.now) (trees_of blocks)) }
{
    match read_driver(alloc, design, text) {
        Ok(blocks) => Ok(blocks),
        Err(ReadDriverError::Bad(fault)) => Err(Refusal::Bad(fault)),
        Err(ReadDriverError::Memory) => Err(Refusal::Memory),
    }
}

/// These blocks, if they fit.
pub fn fitting(design: &Design, list: Vec<Block>) -> Result<Blocks, Refusal>
    ensures { IfOk result (λ blocks. FitBlocks (design_tree design.now) (trees_of blocks)) }
{
    match Blocks::new(design, list) {
        Some(blocks) => Ok(blocks),
        None => Err(Refusal::Misfit),
    }
}

/// The C text that a source stands for, if it stands for one.
fn text_of(alloc: Global, kind: &str, rest: &str) -> Result<Option<Vec<u8>>, AllocError> {
    match kind {
        "text" => Ok(Some(unescaped(alloc, rest)?)),
        "body" => Ok(Some(driver(alloc, rest)?)),
        "write" => Ok(Some(writer(alloc, rest)?)),
        "nested" => Ok(Some(nested(alloc, number(rest))?)),
        "blanks" => Ok(Some(vec![in alloc; b' '; number(rest) as usize]?)),
        _ => Ok(None),
    }
}

/// The blocks that a source spells, if it spells some.
fn list_of(alloc: Global, kind: &str, rest: &str) -> Result<Option<Vec<Block>>, AllocError> {
    match kind {
        "blocks" => Ok(Some(blocks(alloc, rest)?)),
        "negated" => Ok(Some(negated(alloc, number(rest))?)),
        "wrapping" => Ok(Some(wrapping(alloc)?)),
        "mixed" => Ok(Some(mixed(alloc)?)),
        _ => Ok(None),
    }
}

/// The blocks of a source.
pub fn blocks_of(alloc: Global, design: &Design, source: &str) -> Result<Blocks, Refusal>
    ensures { IfOk result (λ blocks. FitBlocks (design_tree design.now) (trees_of blocks)) }
{
    let (kind, rest) = split_word(source);
    if let Some(text) = text_of(alloc, kind, rest)? {
        return read(alloc, design, text.as_slice());
    }
    match list_of(alloc, kind, rest)? {
        Some(list) => fitting(design, list),
        None => Err(Refusal::Unknown),
    }
}
