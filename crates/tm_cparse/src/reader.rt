//! The reader.
ghost use Rattle.std.specs.Prelude.{◌≡◌, ◌≤◌, ◌^◌, List, map, length, All, Err, IsTrue, IfOk, IfErr, OnOk, MatchResult};
ghost use Rattle.tm_syntax.specs.Limits.{file_limit};
ghost use Rattle.tm_syntax.specs.Design.View.{design_tree};
ghost use Rattle.tm_cir.specs.Fit.{FitBlocks};
ghost use Rattle.tm_cir.specs.Tree.{BlockTree};
ghost use Rattle.tm_cir.specs.View.{block_tree, block_trees, trees_of};
ghost use Rattle.tm_cparse.specs.declared.bad.BadDriver.{BadDriver};
ghost use Rattle.tm_cparse.specs.declared.bad.ReadDriverError.TheVariants.{Bad, Memory};
ghost use Rattle.tm_cparse.specs.View.{tokens_of, statement_tree, written_tree};
ghost use Rattle.tm_cparse.specs.Written.{AreWritten};
ghost use Rattle.tm_cparse.specs.Faults.{IsDriverFile, HasNames, HasFault};
ghost use Rattle.tm_cparse.specs.Answer.{IsFaultOf, IsMemoryOr};
ghost use Rattle.tm_cparse.specs.Inner.Blocks.{IsStuckAt};
ghost use Rattle.tm_cparse.specs.Inner.Bodies.{IsBody, IsBodyFault, IsTextLine, IsTextFault, IsSmallBlock, block_of};

use crate::bad::{BadDriver, ReadDriverError};
use crate::include::behind_include;
use crate::names::first_fault;
use crate::scan::{Scan, tokens_of};
use crate::statement::{Labelled, NoFunction, Statement, function};
use std::alloc::{AllocError, Global};
use tm_cir::{Block, Blocks};
use tm_syntax::design::Design;

/// The most bytes that a text may have: 16 MiB.
pub const MOST_BYTES: usize = 16_777_216;

/// The blocks that a C text (ISO/IEC 9899:2011, the subset that `tm_cprint::print` writes, in any layout) is over a
/// design.
///
/// `Bad` is the first fault of a text that is no driver: `TooLong` above 16,777,216 bytes; else `Text` at the first
/// token that can continue no driver, whatever it names (a constant of more than 64 bits, a shift amount above 63 and
/// the 2,049th parenthesis that is open at once are such tokens), or at the end of a text that ends too early; else, in
/// the order of the text, `UnknownName`, `BackwardGoto`, or `Text` for a `goto` beyond the last block, a label out of
/// order or a wrong number of arguments. `Memory` is want of memory.
///
/// Over a design whose items have names in C (each path a name with `_` for each dot, fewer than 2^32 of a sort) this
/// is exact. Linear in the text, and as deep as parentheses nest, 2,048 at most.
pub fn read_driver(alloc: Global, design: &Design, text: &[u8]) -> Result<Blocks, ReadDriverError>
    ensures read { IfOk result (λ blocks. IsDriverFile (design_tree design.now) text.now (trees_of blocks)) }
    ensures faulty { IfErr result (IsFaultOf (design_tree design.now) text.now) }

    // A text with blocks is answered by them or by want of memory, and a text with a fault by that fault or by want of
    // memory.
    ensures blocks { (bs : List BlockTree) → HasNames (design_tree design.now)
        → IsDriverFile (design_tree design.now) text.now bs
        → MatchResult result (λ found. trees_of found ≡ bs) (λ e. e ≡ Memory) }
    ensures fault { (bad : BadDriver) → HasNames (design_tree design.now)
        → HasFault (design_tree design.now) text.now bad
        → MatchResult result (λ _. ⊥) (IsMemoryOr bad) }
{
    read_text(alloc, design, text)
}

/// What `read_driver` answers. The contract tells what is read of a text or faulty in it, by the answer alone.
fn read_text(alloc: Global, design: &Design, text: &[u8]) -> Result<Blocks, ReadDriverError>
    ensures read { IfOk result (λ blocks. IsDriverFile (design_tree design.now) text.now (trees_of blocks)) }
    ensures faulty { IfErr result (IsFaultOf (design_tree design.now) text.now) }
{
    if text.len() > MOST_BYTES {
        return bad(BadDriver::TooLong);
    }
    match behind_include(text) {
        Ok((body, line)) => driver_behind(alloc, design, body, line),
        Err(line) => bad(BadDriver::Text(line)),
    }
}

/// The blocks of the text behind the include, which begins on this line.
fn driver_behind(
    alloc: Global,
    design: &Design,
    body: &[u8],
    line: u64,
) -> Result<Blocks, ReadDriverError>
    requires short { length body.now ≤ file_limit }
    requires low { line ≤ 2 ^ 31 }
    ensures read { IfOk result (λ blocks. IsBody (design_tree design.now) line body.now (trees_of blocks)) }
    ensures faulty { IfErr result (IsBodyFault (design_tree design.now) line body.now) }
{
    let scan = tokens_of(alloc, design, body, line)?;
    let written = written(alloc, &scan)?;
    match first_fault(design, scan.spots.as_slice()) {
        Some(fault) => bad(fault),
        None => driver_of(alloc, design, written),
    }
}

/// The blocks of a driver whose names are those of the design.
fn driver_of(
    alloc: Global,
    design: &Design,
    written: Vec<Labelled>,
) -> Result<Blocks, ReadDriverError>
    requires fits { FitBlocks (design_tree design.now) (map block_of (map written_tree written.items)) }
    requires small { All IsSmallBlock (map block_of (map written_tree written.items)) }
    ensures read { IfOk result (λ blocks. trees_of blocks ≡ map block_of (map written_tree written.items)) }
    ensures refused { IfErr result (λ e. e ≡ Memory) }
{
    match Blocks::new(design, blocks(alloc, written)?) {
        Some(blocks) => Ok(blocks),
        None => unreachable!(),
    }
}

fn bad(fault: BadDriver) -> Result<Blocks, ReadDriverError>
    ensures { result ≡ Err (Bad fault) }
{
    Err(ReadDriverError::Bad(fault))
}

/// The blocks as they are written, where the tokens are those of a driver with any names.
fn written(alloc: Global, scan: &Scan) -> Result<Vec<Labelled>, ReadDriverError>
    ensures whole { OnOk result (IsTrue scan.now.is_whole) }
    ensures taken { IfOk result (λ bs. AreWritten (tokens_of scan.now.spots.items) (map written_tree bs.items)) }
    ensures refused { IfErr result (IsTextFault scan.now.spots.items scan.now.line scan.now.is_whole) }
{
    match function(alloc, scan.spots.as_slice()) {
        Ok(written) => {
            if scan.is_whole {
                Ok(written)
            } else {
                Err(ReadDriverError::Bad(BadDriver::Text(scan.line)))
            }
        }
        Err(NoFunction::At(place)) => Err(ReadDriverError::Bad(BadDriver::Text(line_at(
            scan, place,
        )))),
        Err(NoFunction::Memory) => Err(ReadDriverError::Memory),
    }
}

/// The line of a token that continues no driver, or of the end where there is none.
fn line_at(scan: &Scan, place: usize) -> u64
    requires { IsStuckAt (tokens_of scan.now.spots.items) place }
    ensures { IsTextLine scan.now.spots.items scan.now.line scan.now.is_whole result }
{
    match scan.spots.get(place) {
        Some(spot) => spot.line as u64,
        None => scan.line,
    }
}

/// The blocks without their labels.
fn blocks(alloc: Global, written: Vec<Labelled>) -> Result<Vec<Block>, AllocError>
    requires { All IsSmallBlock (map block_of (map written_tree written.items)) }
    ensures { IfOk result (λ r. block_trees r.items ≡ map block_of (map written_tree written.items)) }
{
    let mut written = written;
    let mut blocks = Vec::new(alloc);
    while let Some(labelled) = written.pop() {
        blocks.push(block(labelled.statement))?;
    }
    blocks.reverse();
    Ok(blocks)
}

fn block(statement: Statement) -> Block
    requires { IsSmallBlock (statement_tree statement) }
    ensures { block_tree result ≡ statement_tree statement }
{
    match statement {
        Statement::Test(truth, first, second) => Block::Test(truth, first as u32, second as u32),
        Statement::Call(task, args) => Block::Call(task, args),
        Statement::Leave(process) => Block::Leave(process as u32),
        Statement::Idle => Block::Idle,
    }
}
