//! The reader.
ghost use Rattle.std.specs.Prelude.{◌≡◌, ◌≤◌, ◌^◌, length, Err, IsTrue, IfOk, IfErr, OnOk, MatchResult};
ghost use Rattle.tm_syntax.specs.Limits.{file_limit};
ghost use Rattle.tm_syntax.specs.Design.View.{design_tree};
ghost use Rattle.tm_cparse.specs.View.{tokens_of};
ghost use Rattle.tm_cparse.specs.Faults.{HasNames};
ghost use Rattle.tm_struct.specs.Tree.{ProgramTree};
ghost use Rattle.tm_struct.specs.View.{program_tree};
ghost use Rattle.tm_struct_parse.specs.declared.bad.BadStructured.{BadStructured};
ghost use Rattle.tm_struct_parse.specs.declared.bad.ReadStructuredError.TheVariants.{Bad, Memory};
ghost use Rattle.tm_struct_parse.specs.View.{draft_program};
ghost use Rattle.tm_struct_parse.specs.Written.{AreWritten};
ghost use Rattle.tm_struct_parse.specs.Faults.{IsStructuredFile, HasFault};
ghost use Rattle.tm_struct_parse.specs.Answer.{IsFaultOf, IsMemoryOr};
ghost use Rattle.tm_struct_parse.specs.Inner.Forms.{IsStuckAt};
ghost use Rattle.tm_struct_parse.specs.Inner.Bodies.{IsFileBody, IsFileFault, IsTextLine, IsTextFault};

use crate::bad::{BadStructured, ReadStructuredError};
use crate::draft::{ProgramDraft, structured};
use crate::names::first_fault;
use crate::program::{NoProgram, program};
use crate::scan::tokens_of;
use std::alloc::Global;
use tm_cparse::MOST_BYTES;
use tm_cparse::include::behind_include;
use tm_cparse::scan::Scan;
use tm_struct::Structured;
use tm_syntax::design::Design;

/// The structured driver that a text (ISO/IEC 9899:2011, the subset that `tm_struct::print_structured` writes, in any
/// layout) is over a design.
///
/// `Bad` is the first fault of a text that is no structured driver: `TooLong` above 16,777,216 bytes; else `Text` at
/// the first token that can continue none, whatever it names (a constant of more than 64 bits, a shift amount above
/// 63, the 2,049th parenthesis and the 129th `if` that are open at once are such tokens), or at the end of a text that
/// ends too early; else, in the order of the text, `UnknownName`, `ForwardCall`, or `Text` for a function out of order,
/// a call beyond the last function or a wrong number of arguments. `Memory` is want of memory.
///
/// Over a design whose items have names in C this is exact. Linear in the text; it goes down by recursion as deep as
/// `if` are open, 128 at most.
pub fn read_structured(
    alloc: Global,
    design: &Design,
    text: &[u8],
) -> Result<Structured, ReadStructuredError>
    ensures read { IfOk result (λ program. IsStructuredFile (design_tree design.now) text.now (program_tree program)) }
    ensures faulty { IfErr result (IsFaultOf (design_tree design.now) text.now) }

    // A text with a driver is answered by it or by want of memory, and a text with a fault by that fault or by want of
    // memory.
    ensures program { (p : ProgramTree) → HasNames (design_tree design.now)
        → IsStructuredFile (design_tree design.now) text.now p
        → MatchResult result (λ found. program_tree found ≡ p) (λ e. e ≡ Memory) }
    ensures fault { (bad : BadStructured) → HasNames (design_tree design.now)
        → HasFault (design_tree design.now) text.now bad
        → MatchResult result (λ _. ⊥) (IsMemoryOr bad) }
{
    read_text(alloc, design, text)
}

/// What the text is, by what it answers alone.
fn read_text(alloc: Global, design: &Design, text: &[u8]) -> Result<Structured, ReadStructuredError>
    ensures read { IfOk result (λ program. IsStructuredFile (design_tree design.now) text.now (program_tree program)) }
    ensures faulty { IfErr result (IsFaultOf (design_tree design.now) text.now) }
{
    if text.len() > MOST_BYTES {
        return bad(BadStructured::TooLong);
    }
    match behind_include(text) {
        Ok((body, line)) => program_behind(alloc, design, body, line),
        Err(line) => bad(BadStructured::Text(line)),
    }
}

/// The driver of the text behind the include, which begins on this line.
fn program_behind(
    alloc: Global,
    design: &Design,
    body: &[u8],
    line: u64,
) -> Result<Structured, ReadStructuredError>
    requires short { length body.now ≤ file_limit }
    requires low { line ≤ 2 ^ 31 }
    ensures read { IfOk result (λ program. IsFileBody (design_tree design.now) line body.now (program_tree program)) }
    ensures faulty { IfErr result (IsFileFault (design_tree design.now) line body.now) }
{
    let scan = tokens_of(alloc, design, body, line)?;
    let draft = read!(drafted(alloc, &scan), scan);
    match first_fault(design, scan.spots.as_slice()) {
        Some(fault) => {
            drop(draft);
            drop(scan);
            bad(fault)
        }
        None => {
            drop(scan);
            Ok(structured(alloc, draft)?)
        }
    }
}

fn bad(fault: BadStructured) -> Result<Structured, ReadStructuredError>
    ensures { result ≡ Err (Bad fault) }
{
    Err(ReadStructuredError::Bad(fault))
}

/// The driver as it is written, where the tokens are those of one with any names.
fn drafted(alloc: Global, scan: &Scan) -> Result<ProgramDraft, ReadStructuredError>
    ensures whole { OnOk result (IsTrue scan.now.is_whole) }
    ensures taken { IfOk result (λ draft. AreWritten (tokens_of scan.now.spots.items) (draft_program draft)) }
    ensures refused { IfErr result (IsTextFault scan.now.spots.items scan.now.line scan.now.is_whole) }
{
    match program(alloc, scan.spots.as_slice()) {
        Ok(draft) => {
            if scan.is_whole {
                Ok(draft)
            } else {
                drop(draft);
                Err(ReadStructuredError::Bad(BadStructured::Text(scan.line)))
            }
        }
        Err(NoProgram::At(place)) => Err(ReadStructuredError::Bad(BadStructured::Text(line_at(
            scan, place,
        )))),
        Err(NoProgram::Memory) => Err(ReadStructuredError::Memory),
    }
}

/// The line of a token that continues no driver, or of the end where there is none.
fn line_at(scan: &Scan, place: usize) -> u64
    requires { IsStuckAt (tokens_of scan.now.spots.items) place }
    ensures { IsTextLine scan.now.spots.items scan.now.line scan.now.is_whole result }
{
    match scan.spots.get(place) {
        Some(spot) => spot.line as u64,
        None => scan.line,
    }
}
