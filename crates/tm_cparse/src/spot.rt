//! Tokens where they stand in a text, and readers of single ones.
ghost use Rattle.std.specs.Prelude.{◌≡◌, ◌≢◌, ◌<◌, ◌∷◌, [], Some, length, MatchOption, IfOk, IfErr, IfSome};
ghost use Rattle.tm_cir.specs.Text.Token.{label, constant, sign};
ghost use Rattle.tm_cparse.specs.View.{token_tree, sign_tree, tokens_of};
ghost use Rattle.tm_cparse.specs.Inner.Reading.{first_of, label_number, constant_value, IsMissing, IsNoLabel, IsNoConstant, IsNoAmount};

use crate::token::{Sign, Token};
use std::alloc::{AllocError, AllocFailed};

/// A token in a text: whether it is spelled so over the design (a name of no item is not, nor is a label of more than
/// 32 bits), and its line. There is one for each token of a text, so it is kept small.
#[derive(Clone, Copy, Debug)]
pub struct Spot {
    pub token: Token,
    pub known: bool,
    pub line: u32,
}

/// The first of these tokens continues no driver, or none is left where one is needed; or memory is wanting.
#[derive(Clone, Copy)]
pub enum Stop<'a> {
    Unexpected(&'a [Spot]),
    Memory,
}

impl From<AllocError> for Stop<'_> {
    ghost use Rattle.std.specs.Prelude.{◌≡◌};
    ghost use Rattle.tm_cparse.specs.declared.spot.Stop.TheVariants.{Memory};

    ghost from_gives = { λ _ e. e ≡ Memory };

    fn from(_: AllocError) -> Self {
        Stop::Memory
    }
}

impl<T: Drop> From<AllocFailed<T>> for Stop<'_> {
    ghost use Rattle.std.specs.Prelude.{◌≡◌};
    ghost use Rattle.tm_cparse.specs.declared.spot.Stop.TheVariants.{Memory};

    ghost from_gives = { λ _ e. e ≡ Memory };

    fn from(_: AllocFailed<T>) -> Self {
        Stop::Memory
    }
}

/// What was read, and the tokens behind it.
pub type Read<'a, T> = Result<(T, &'a [Spot]), Stop<'a>>;

/// The first token, and the tokens behind it.
pub fn parted(spots: &[Spot]) -> Option<(Token, &[Spot])>
    ensures whole { MatchOption result (tokens_of spots.now ≡ [])
        (λ r. tokens_of spots.now ≡ token_tree r.0 ∷ tokens_of r.1.now) }
    ensures shorter { IfSome result (λ r. length r.1.now < length spots.now) }
{
    let (first, rest) = spots.split_first()?;
    Some((first.token, rest))
}

/// The tokens behind the first one, if it is this one.
pub fn taken(spots: &[Spot], token: Token) -> Option<&[Spot]>
    ensures whole { MatchOption result (first_of (tokens_of spots.now) ≢ Some (token_tree token))
        (λ rest. tokens_of spots.now ≡ token_tree token ∷ tokens_of rest.now) }
    ensures shorter { IfSome result (λ rest. length rest.now < length spots.now) }
{
    let (first, rest) = parted(spots)?;
    if first == token { Some(rest) } else { None }
}

/// The tokens behind the first one, which has to be this one.
pub fn need(spots: &[Spot], token: Token) -> Result<&[Spot], Stop<'_>>
    ensures taken { IfOk result (λ rest. tokens_of spots.now ≡ token_tree token ∷ tokens_of rest.now) }
    ensures shorter { IfOk result (λ rest. length rest.now < length spots.now) }
    ensures refused { IfErr result (IsMissing (token_tree token) spots.now) }
{
    match taken(spots, token) {
        Some(rest) => Ok(rest),
        None => Err(Stop::Unexpected(spots)),
    }
}

/// The tokens behind the first one, which has to be this sign.
pub fn need_sign(spots: &[Spot], needed: Sign) -> Result<&[Spot], Stop<'_>>
    ensures taken { IfOk result (λ rest. tokens_of spots.now ≡ sign (sign_tree needed) ∷ tokens_of rest.now) }
    ensures shorter { IfOk result (λ rest. length rest.now < length spots.now) }
    ensures refused { IfErr result (IsMissing (sign (sign_tree needed)) spots.now) }
{
    need(spots, Token::Sign(needed))
}

/// The number of a label.
pub fn label(spots: &[Spot]) -> Read<'_, u32>
    ensures taken { IfOk result (λ r. tokens_of spots.now ≡ label r.0 ∷ tokens_of r.1.now) }
    ensures shorter { IfOk result (λ r. length r.1.now < length spots.now) }
    ensures refused { IfErr result (IsNoLabel spots.now) }
{
    match parted(spots) {
        Some((token, rest)) => match label_number(token) {
            Some(number) => Ok((number, rest)),
            None => Err(Stop::Unexpected(spots)),
        },
        None => Err(Stop::Unexpected(spots)),
    }
}

fn label_number(token: Token) -> Option<u32>
    ensures { result ≡ label_number (token_tree token) }
{
    match token {
        Token::Label(number) => Some(number),
        _ => None,
    }
}

/// A constant.
pub fn constant(spots: &[Spot]) -> Read<'_, u64>
    ensures taken { IfOk result (λ r. tokens_of spots.now ≡ constant r.0 ∷ tokens_of r.1.now) }
    ensures shorter { IfOk result (λ r. length r.1.now < length spots.now) }
    ensures refused { IfErr result (IsNoConstant spots.now) }
{
    match parted(spots) {
        Some((token, rest)) => match constant_value(token) {
            Some(number) => Ok((number, rest)),
            None => Err(Stop::Unexpected(spots)),
        },
        None => Err(Stop::Unexpected(spots)),
    }
}

fn constant_value(token: Token) -> Option<u64>
    ensures { result ≡ constant_value (token_tree token) }
{
    match token {
        Token::Constant(number) => Some(number),
        _ => None,
    }
}

/// A shift amount: a constant below 64.
pub fn amount(spots: &[Spot]) -> Read<'_, u8>
    ensures taken { IfOk result (λ r. tokens_of spots.now ≡ constant r.0 ∷ tokens_of r.1.now) }
    ensures low { IfOk result (λ r. r.0 < 64) }
    ensures shorter { IfOk result (λ r. length r.1.now < length spots.now) }
    ensures refused { IfErr result (IsNoAmount spots.now) }
{
    let (number, rest) = match constant(spots) {
        Ok(read) => read,
        Err(stop) => return Err(stop),
    };
    if number < 64 {
        Ok((number as u8, rest))
    } else {
        Err(Stop::Unexpected(spots))
    }
}
