//! Readers of the functions and of `driver_turn`.
ghost use Rattle.std.specs.Prelude.{◌≡◌, ◌<◌, ◌≤◌, [], map, length, IfOk, IfErr};
ghost use Rattle.tm_cparse.specs.View.{tokens_of};
ghost use Rattle.tm_cparse.specs.Inner.Reading.{IsRefused};
ghost use Rattle.tm_struct_parse.specs.View.{draft_tree, named_tree, draft_program};
ghost use Rattle.tm_struct_parse.specs.Written.{AreWritten};
ghost use Rattle.tm_struct_parse.specs.Inner.Forms.{IsBody, IsFunction, IsTurn, IsProgram, AreFunctions, IsNoProgram};

use crate::action::block;
use crate::draft::{Draft, NamedDraft, ProgramDraft};
use crate::scan::STATIC;
use std::alloc::Global;
use tm_cparse::spot::{Read, Spot, Stop, label, need, need_sign, taken};
use tm_cparse::token::{Sign, Token, Word};

/// Why tokens are no driver: the one at this place continues none, or they end there too early; or memory is wanting.
#[derive(Clone, Copy)]
pub enum NoProgram {
    At(usize),
    Memory,
}

/// The driver: all of these tokens.
pub fn program(alloc: Global, spots: &[Spot]) -> Result<ProgramDraft, NoProgram>
    ensures taken { IfOk result (λ draft. AreWritten (tokens_of spots.now) (draft_program draft)) }
    ensures refused { IfErr result (IsNoProgram (tokens_of spots.now)) }
{
    match program_in_front(alloc, spots) {
        Ok((draft, rest)) => {
            if rest.is_empty() {
                Ok(draft)
            } else {
                drop(draft);
                Err(NoProgram::At(spots.len() - rest.len()))
            }
        }
        Err(Stop::Unexpected(rest)) => Err(NoProgram::At(spots.len() - rest.len())),
        Err(Stop::Memory) => Err(NoProgram::Memory),
    }
}

/// The driver, and what follows it.
fn program_in_front(alloc: Global, spots: &[Spot]) -> Read<'_, ProgramDraft>
    ensures taken { IfOk result (λ r.
        IsProgram [] (draft_program r.0) (tokens_of spots.now) (tokens_of r.1.now)) }
    ensures shorter { IfOk result (λ r. length r.1.now ≤ length spots.now) }
    ensures refused { IfErr result (IsRefused (IsProgram []) (tokens_of spots.now)) }
{
    let (functions, rest) = read!(functions(alloc, spots));
    let (main, rest) = read!(driver_turn(alloc, rest), functions);
    Ok((ProgramDraft { functions, main }, rest))
}

/// Functions, if there are any.
fn functions(alloc: Global, spots: &[Spot]) -> Read<'_, Vec<NamedDraft>>
    ensures taken { IfOk result (λ r.
        AreFunctions (map named_tree r.0.items) (tokens_of spots.now) (tokens_of r.1.now)) }
    ensures shorter { IfOk result (λ r. length r.1.now ≤ length spots.now) }
    ensures refused { IfErr result (IsRefused (IsProgram []) (tokens_of spots.now)) }
{
    let mut functions = Vec::new(alloc);
    let mut rest = spots;
    while let Some(behind) = taken(rest, STATIC) {
        let (named, behind) = read!(function(alloc, behind), functions);
        functions.push(named)?;
        rest = behind;
    }
    Ok((functions, rest))
}

/// A function, behind `static`.
fn function(alloc: Global, spots: &[Spot]) -> Read<'_, NamedDraft>
    ensures taken { IfOk result (λ r. IsFunction (named_tree r.0) (tokens_of spots.now) (tokens_of r.1.now)) }
    ensures shorter { IfOk result (λ r. length r.1.now < length spots.now) }
    ensures refused { IfErr result (IsRefused IsFunction (tokens_of spots.now)) }
{
    let rest = read!(need(spots, Token::Word(Word::Void)));
    let (number, rest) = read!(label(rest));
    let (draft, rest) = read!(body(alloc, rest));
    Ok((NamedDraft { number, draft }, rest))
}

/// What `driver_turn` does.
fn driver_turn(alloc: Global, spots: &[Spot]) -> Read<'_, Draft>
    ensures taken { IfOk result (λ r. IsTurn (draft_tree r.0) (tokens_of spots.now) (tokens_of r.1.now)) }
    ensures shorter { IfOk result (λ r. length r.1.now < length spots.now) }
    ensures refused { IfErr result (IsRefused IsTurn (tokens_of spots.now)) }
{
    let rest = read!(need(spots, Token::Word(Word::Void)));
    let rest = read!(need(rest, Token::Word(Word::DriverTurn)));
    body(alloc, rest)
}

/// What a function does, behind its name.
fn body(alloc: Global, spots: &[Spot]) -> Read<'_, Draft>
    ensures taken { IfOk result (λ r. IsBody (draft_tree r.0) (tokens_of spots.now) (tokens_of r.1.now)) }
    ensures shorter { IfOk result (λ r. length r.1.now < length spots.now) }
    ensures refused { IfErr result (IsRefused IsBody (tokens_of spots.now)) }
{
    let rest = read!(need_sign(spots, Sign::OpenParenthesis));
    let rest = read!(need(rest, Token::Word(Word::Void)));
    let rest = read!(need_sign(rest, Sign::CloseParenthesis));
    block(alloc, 0, rest)
}
