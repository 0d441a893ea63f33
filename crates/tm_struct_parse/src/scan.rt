//! Cuts a structured text into its tokens. They are those of the C text with jumps, but that this text has the word
//! `static` in the place of `goto`, and the names of functions in the place of labels: so readers of expressions serve
//! both.
ghost use Rattle.std.specs.Prelude.{◌≡◌, ◌+◌, ◌^◌, ◌<◌, ◌∷◌, ℕ, length, IfOk, MatchOption};
ghost use Rattle.tm_syntax.specs.Design.{DesignTree};
ghost use Rattle.tm_syntax.specs.Design.View.{design_tree};
ghost use Rattle.tm_cparse.specs.View.{token_tree};
ghost use Rattle.tm_cparse.specs.Cut.{IsNumber, BeginsNoBlank};
ghost use Rattle.tm_struct_parse.specs.Cut.{IsFunctionName};
ghost use Rattle.tm_struct_parse.specs.Inner.Scanning.{is_common, IsOwnToken, IsNoOwnToken, BeginsNoOwnToken, IsNoSpot};
ghost use Rattle.tm_struct_parse.specs.Inner.Scanning.{IsNextSpot, IsScan};

use std::alloc::{AllocError, Global};
use tm_cparse::scan::{Scan, behind_blanks, open_behind, run_len};
use tm_cparse::shape::{is_exact, is_number, item_number, parted};
use tm_cparse::spot::Spot;
use tm_cparse::token::{Token, Word};
use tm_syntax::design::Design;

/// The word `static`, where the C text with jumps has `goto`.
pub const STATIC: Token = Token::Word(Word::Goto);

/// The tokens of a text, which begins on this line.
pub fn tokens_of(alloc: Global, design: &Design, text: &[u8], line: u64) -> Result<Scan, AllocError>
    requires { line + length text.now < 2 ^ 32 }
    ensures { IfOk result (λ scan.
        IsScan (design_tree design.now) line text.now scan.spots.items scan.line scan.is_whole) }
{
    let mut spots = Vec::new(alloc);
    let mut open_count = 0;
    let (behind, behind_line) = behind_blanks(text, line);
    let mut rest = behind;
    let mut last = behind_line;
    while let Some((spot, len)) = next_spot(design, rest, open_count, last) {
        open_count = open_behind(open_count, spot.token);
        spots.push(spot)?;
        let (behind, behind_line) = behind_blanks(&rest[len..], last);
        rest = behind;
        last = behind_line;
    }
    Ok(Scan {
        spots,
        line: last,
        is_whole: rest.is_empty(),
    })
}

/// The token in front, where so many parentheses are open, and the number of its bytes.
fn next_spot(design: &Design, text: &[u8], open_count: u32, line: u64) -> Option<(Spot, usize)>
    requires no_blank { BeginsNoBlank text.now }
    requires low { line < 2 ^ 32 }
    ensures { MatchOption result (IsNoSpot open_count line text.now)
        (λ r. IsNextSpot (design_tree design.now) open_count line text.now r.0 r.1) }
{
    match tm_cparse::scan::next_spot(design, text, open_count, line) {
        Some((spot, len)) => {
            if is_common(spot.token) {
                Some((spot, len))
            } else {
                None
            }
        }
        None => own_spot(text, line),
    }
}

/// Whether both sorts of texts have a token.
fn is_common(token: Token) -> bool
    ensures { result ≡ is_common (token_tree token) }
{
    match token {
        Token::Label(_) | Token::Word(Word::Goto) => false,
        _ => true,
    }
}

/// The token in front that this text alone has, and the number of its bytes.
fn own_spot(text: &[u8], line: u64) -> Option<(Spot, usize)>
    requires { line < 2 ^ 32 }
    ensures { MatchOption result (BeginsNoOwnToken text.now)
        (λ r. (d : DesignTree) (open_count : ℕ) → IsNextSpot d open_count line text.now r.0 r.1) }
{
    let len = run_len(text);
    match own_token(&text[..len]) {
        Some((token, known)) => {
            let spot = Spot {
                token,
                known,
                line: line as u32,
            };
            Some((spot, len))
        }
        None => None,
    }
}

/// The word `static` or the name of a function that letters, digits and `_` are, and whether its number has 32 bits.
fn own_token(run: &[u8]) -> Option<(Token, bool)>
    ensures { MatchOption result (IsNoOwnToken run.now) (λ r. IsOwnToken run.now (token_tree r.0) r.1) }
{
    if run == b"static".as_slice() {
        return Some((STATIC, true));
    }
    match function_digits(run) {
        Some(digits) => Some(function_token(digits)),
        None => None,
    }
}

/// The digits of a function's name, if the run is one.
fn function_digits(run: &[u8]) -> Option<&[u8]>
    ensures { MatchOption result ((k : ℕ) → ¬ IsFunctionName k run.now)
        (λ digits. IsNumber digits.now × (run.now ≡ 98 ∷ digits.now)) }
{
    let (first, digits) = parted(run)?;
    if first == b'b' && is_number(digits) {
        Some(digits)
    } else {
        None
    }
}

/// The name of a function, by its digits.
fn function_token(digits: &[u8]) -> (Token, bool)
    requires { IsNumber digits.now }
    ensures { IsOwnToken (98 ∷ digits.now) (token_tree result.0) result.1 }
{
    let number = item_number(digits);
    (Token::Label(number), is_exact(digits, number))
}
