//! Readers of the arguments of a call.
ghost use Rattle.std.specs.Prelude.{◌<◌, [], map, length, IfOk, IfErr};
ghost use Rattle.tm_cir.specs.View.{num_tree};
ghost use Rattle.tm_cparse.specs.View.{tokens_of};
ghost use Rattle.tm_cparse.specs.Inner.Reading.{IsRefused};
ghost use Rattle.tm_cparse.specs.Inner.Statements.{AreArguments, AreArgumentsLeft};

use crate::expression::number;
use crate::spot::{Read, Spot, need_sign, taken};
use crate::token::{Sign, Token};
use std::alloc::Global;
use tm_cir::Num64;

/// Arguments with commas between them, and the parenthesis that closes.
pub fn arguments(alloc: Global, spots: &[Spot]) -> Read<'_, Vec<Num64>>
    ensures taken { IfOk result (λ r.
        AreArguments (map num_tree r.0.items) (tokens_of spots.now) (tokens_of r.1.now)) }
    ensures shorter { IfOk result (λ r. length r.1.now < length spots.now) }
    ensures refused { IfErr result (IsRefused AreArguments (tokens_of spots.now)) }
{
    if let Some(rest) = taken(spots, Token::Sign(Sign::CloseParenthesis)) {
        return Ok((Vec::new(alloc), rest));
    }
    some_arguments(alloc, spots)
}

/// One or more arguments, and the parenthesis that closes.
fn some_arguments(alloc: Global, spots: &[Spot]) -> Read<'_, Vec<Num64>>
    ensures taken { IfOk result (λ r.
        AreArgumentsLeft [] (map num_tree r.0.items) (tokens_of spots.now) (tokens_of r.1.now)) }
    ensures shorter { IfOk result (λ r. length r.1.now < length spots.now) }
    ensures refused { IfErr result (IsRefused (AreArgumentsLeft []) (tokens_of spots.now)) }
{
    let mut args = Vec::new(alloc);
    let (arg, rest) = number(alloc, spots)?;
    args.push(arg)?;
    let mut rest = rest;
    while let Some(behind) = taken(rest, Token::Sign(Sign::Comma)) {
        let (arg, behind) = number(alloc, behind)?;
        args.push(arg)?;
        rest = behind;
    }
    let rest = need_sign(rest, Sign::CloseParenthesis)?;
    Ok((args, rest))
}
