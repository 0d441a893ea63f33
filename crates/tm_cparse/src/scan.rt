//! Cuts a text into its tokens by longest match, as far as it has any, with their lines.
ghost use Rattle.std.specs.Prelude.{◌≡◌, ◌↔◌, ◌+◌, ◌^◌, ◌<◌, ◌≤◌, IsTrue, MatchOption, IfOk, IfSome, drop, length, count_by};
ghost use Rattle.std.specs.List.{prefix_len};
ghost use Rattle.tm_syntax.specs.Tokens.{is_blank, is_line_feed, continues_name};
ghost use Rattle.tm_syntax.specs.Design.{DesignTree};
ghost use Rattle.tm_syntax.specs.Design.View.{design_tree};
ghost use Rattle.tm_cparse.specs.View.{token_tree};
ghost use Rattle.tm_cparse.specs.Cut.{open_behind, MayStand, line_behind, BeginsNoBlank};
ghost use Rattle.tm_cparse.specs.Inner.Scanning.{BeginsNoToken, IsFirstToken, IsNoSpot, IsNextSpot, IsBehindBlanks, IsScan};

use crate::shape::{Found, continues_name, run_token};
use crate::sign::sign_in_front;
use crate::spot::Spot;
use crate::token::{Sign, Token};
use std::alloc::{AllocError, Global};
use tm_syntax::design::Design;

/// The most parentheses that may be open at once. So many levels the readers of expressions go down at most, and so
/// do `Blocks::new`, `answer` and dropping for blocks that come from a text.
pub const MOST_OPEN: u32 = 2048;

/// The tokens of a text up to its end, or up to the first bytes that are no token or would open one parenthesis too
/// many.
#[derive(Drop)]
pub struct Scan {
    pub spots: Vec<Spot>,
    /// The line of the first byte behind the tokens and blanks, or of the end.
    pub line: u64,
    pub is_whole: bool,
}

/// The tokens of a text, which begins on this line.
pub fn tokens_of(alloc: Global, design: &Design, text: &[u8], line: u64) -> Result<Scan, AllocError>
    requires { line + length text.now < 2 ^ 32 }
    ensures { IfOk result (λ scan.
        IsScan (design_tree design.now) line text.now scan.spots.items scan.line scan.is_whole) }
{
    let mut spots = Vec::new(alloc);
    let mut open_count = 0;
    let (behind, behind_line) = behind_blanks(text, line);
    let mut rest = behind;
    let mut last = behind_line;
    while let Some((spot, len)) = next_spot(design, rest, open_count, last) {
        open_count = open_behind(open_count, spot.token);
        spots.push(spot)?;
        let (behind, behind_line) = behind_blanks(&rest[len..], last);
        rest = behind;
        last = behind_line;
    }
    Ok(Scan {
        spots,
        line: last,
        is_whole: rest.is_empty(),
    })
}

/// What stands behind the blanks in front, and its line.
pub fn behind_blanks(text: &[u8], line: u64) -> (&[u8], u64)
    requires { line + length text.now < 2 ^ 64 }
    ensures { IsBehindBlanks text.now line result.0.now result.1 }
{
    let (blanks, rest) = text.split_at(blanks_len(text));
    (rest, line_after(line, blanks))
}

/// How many blanks stand in front.
fn blanks_len(text: &[u8]) -> usize
    ensures value { result ≡ prefix_len is_blank text.now }
    ensures within { result ≤ length text.now }
{
    text.iter().take_while(|byte| is_blank(**byte)).count()
}

/// The line behind bytes that begin on this line.
fn line_after(line: u64, bytes: &[u8]) -> u64
    requires { line + length bytes.now < 2 ^ 64 }
    ensures { result ≡ line + count_by is_line_feed bytes.now }
{
    let mut last = line;
    for byte in bytes {
        last = line_behind(last, *byte);
    }
    last
}

/// A space, a tab, a carriage return or a line feed.
pub fn is_blank(byte: u8) -> bool
    ensures { result ≡ is_blank byte }
{
    byte == b' ' || byte == b'\t' || byte == b'\r' || byte == b'\n'
}

/// The line of the byte behind one on this line.
pub fn line_behind(line: u64, byte: u8) -> u64
    requires { line + 1 < 2 ^ 64 }
    ensures { result ≡ line_behind line byte }
{
    if byte == b'\n' { line + 1 } else { line }
}

/// The token in front, where so many parentheses are open, and the number of its bytes.
pub fn next_spot(design: &Design, text: &[u8], open_count: u32, line: u64) -> Option<(Spot, usize)>
    requires no_blank { BeginsNoBlank text.now }
    requires low { line < 2 ^ 32 }
    ensures { MatchOption result (IsNoSpot open_count line text.now)
        (λ r. IsNextSpot (design_tree design.now) open_count line text.now r.0 r.1) }
{
    let (found, len) = first_token(design, text)?;
    if !may_stand(open_count, found.token) {
        return None;
    }
    let spot = Spot {
        token: found.token,
        known: found.known,
        line: line as u32,
    };
    Some((spot, len))
}

/// Whether a token may stand where so many parentheses are open.
fn may_stand(open_count: u32, token: Token) -> bool
    ensures { IsTrue result ↔ MayStand open_count (token_tree token) }
{
    match token {
        Token::Sign(Sign::OpenParenthesis) => open_count < MOST_OPEN,
        _ => true,
    }
}

/// How many parentheses are open behind a token, where so many are before it.
pub fn open_behind(open_count: u32, token: Token) -> u32
    requires { MayStand open_count (token_tree token) }
    ensures { result ≡ open_behind open_count (token_tree token) }
{
    match token {
        Token::Sign(Sign::OpenParenthesis) => open_count + 1,
        Token::Sign(Sign::CloseParenthesis) => open_count.saturating_sub(1),
        _ => open_count,
    }
}

/// The token in front, and the number of its bytes.
fn first_token(design: &Design, text: &[u8]) -> Option<(Found, usize)>
    ensures { MatchOption result (BeginsNoToken text.now)
        (λ r. IsFirstToken (design_tree design.now) text.now r.0 r.1) }
{
    let len = run_len(text);
    if len == 0 {
        first_sign(text)
    } else {
        first_run(design, text, len)
    }
}

/// The sign in front, where no letter, digit or `_` stands there.
fn first_sign(text: &[u8]) -> Option<(Found, usize)>
    requires { prefix_len continues_name text.now ≡ 0 }
    ensures { MatchOption result (BeginsNoToken text.now)
        (λ r. (d : DesignTree) → IsFirstToken d text.now r.0 r.1) }
{
    if text.is_empty() {
        return None;
    }
    let (sign, len) = sign_in_front(text)?;
    let found = Found {
        token: Token::Sign(sign),
        known: true,
    };
    Some((found, len))
}

/// The word, name or constant that the letters, digits and `_` in front are.
fn first_run(design: &Design, text: &[u8], len: usize) -> Option<(Found, usize)>
    requires some { 0 < len }
    requires all { len ≡ prefix_len continues_name text.now }
    requires within { len ≤ length text.now }
    ensures { MatchOption result (BeginsNoToken text.now)
        (λ r. IsFirstToken (design_tree design.now) text.now r.0 r.1) }
{
    let found = run_token(design, &text[..len])?;
    Some((found, len))
}

/// How many letters, digits and `_` stand in front.
pub fn run_len(text: &[u8]) -> usize
    ensures value { result ≡ prefix_len continues_name text.now }
    ensures within { result ≤ length text.now }
{
    text.iter()
        .take_while(|byte| continues_name(**byte))
        .count()
}
