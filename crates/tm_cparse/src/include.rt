//! The line of the include.
ghost use Rattle.std.specs.Prelude.{◌≡◌, ◌<◌, ◌^◌, List, ℕ, length, IfOk, IfErr, MatchOption};
ghost use Rattle.tm_cir.specs.Text.Spelling.{EndsLine};
ghost use Rattle.tm_cparse.specs.Cut.{BeginsNoBlank};
ghost use Rattle.tm_cparse.specs.Inner.Fronts.{AreBlanks, IsBehindInclude, IsNoInclude, is_space, BeginsNoSpace, EndsAlike};

use crate::scan::{is_blank, line_behind};

const INCLUDE: &[u8] = b"#include \"termite.h\"";

/// What stands behind the line of the include, and the line on which that begins; or the line at fault.
pub fn behind_include(text: &[u8]) -> Result<(&[u8], u64), u64>
    requires { length text.now < 2 ^ 32 }
    ensures found { IfOk result (λ r. IsBehindInclude text.now r.0.now r.1) }
    ensures missing { IfErr result (IsNoInclude text.now) }
{
    let (rest, line) = behind_blanks(text);
    let Some(rest) = rest.strip_prefix(INCLUDE) else {
        return Err(line);
    };
    match behind_line(rest) {
        Some(body) => Ok((body, line + 1)),
        None => Err(line),
    }
}

/// What stands behind the blanks in front, and its line.
fn behind_blanks(text: &[u8]) -> (&[u8], u64)
    requires { length text.now < 2 ^ 32 }
    ensures blanks { AreBlanks text.now result.0.now result.1 }
    ensures no_blank { BeginsNoBlank result.0.now }
    ensures low { result.1 < 2 ^ 33 }
{
    let mut rest = text;
    let mut line = 1;
    while let Some((first, behind)) = rest.split_first() {
        if !is_blank(*first) {
            break;
        }
        line = line_behind(line, *first);
        rest = behind;
    }
    (rest, line)
}

/// What stands behind spaces and tabs, at most one carriage return, and a line feed.
fn behind_line(text: &[u8]) -> Option<&[u8]>
    ensures { MatchOption result ((body : List ℕ) → ¬ EndsLine text.now body) (λ body. EndsLine text.now body.now) }
{
    line_end(behind_spaces(text))
}

fn behind_spaces(text: &[u8]) -> &[u8]
    ensures alike { EndsAlike text.now result.now }
    ensures no_space { BeginsNoSpace result.now }
{
    let mut rest = text;
    while let Some((first, behind)) = rest.split_first() {
        if !is_space(*first) {
            break;
        }
        rest = behind;
    }
    rest
}

/// A space or a tab.
fn is_space(byte: u8) -> bool
    ensures { result ≡ is_space byte }
{
    byte == b' ' || byte == b'\t'
}

/// What stands behind at most one carriage return, and a line feed.
fn line_end(text: &[u8]) -> Option<&[u8]>
    requires { BeginsNoSpace text.now }
    ensures { MatchOption result ((body : List ℕ) → ¬ EndsLine text.now body) (λ body. EndsLine text.now body.now) }
{
    let (first, behind) = text.split_first()?;
    if *first == b'\n' {
        return Some(behind);
    }
    let (second, behind) = behind.split_first()?;
    if *first == b'\r' && *second == b'\n' {
        Some(behind)
    } else {
        None
    }
}
