//! The lines of a text of choices, and their fields.
ghost use Rattle.std.specs.Prelude.{◌≡◌, ◌==◌, ℕ, ◌+◌, ◌<◌, ◌≤◌, ◌^◌, [], ◌∷◌, length, map, position, unwrap_or, IfOk};
ghost use Rattle.std.specs.Prelude.{IfNone, IfSome};
ghost use Rattle.std.specs.Str.Lines.{lines, strip_carriage_return};
ghost use Rattle.tm_play.specs.Choices.{fields_of, separates_fields as is_blank_byte, is_kept as is_kept_line};
ghost use Rattle.tm_play.specs.Choices.{kept_lines};

use std::alloc::{AllocError, Global};

/// A line that is not passed over, its number in the file, and what stands behind it.
#[derive(Clone, Copy)]
pub struct Line<'a> {
    pub number: u64,
    pub bytes: &'a [u8],
    pub rest: &'a [u8],
}

fn without_carriage_return(line: &[u8]) -> &[u8]
    ensures { result.now ≡ strip_carriage_return line.now }
{
    match line {
        [front @ .., b'\r'] => front,
        _ => line,
    }
}

fn first_feed(text: &[u8]) -> Option<usize>
    ensures { result ≡ position (λ b. b == 10) text.now }
{
    text.iter().position(|b| *b == b'\n')
}

/// The place of the first line feed, or the end.
fn line_end(text: &[u8]) -> usize
    ensures { result ≡ unwrap_or (position (λ b. b == 10) text.now) (length text.now) }
{
    first_feed(text).unwrap_or(text.len())
}

/// The first line of a text, and what stands behind it.
fn split_line(text: &[u8]) -> Option<(&[u8], &[u8])>
    ensures first { IfSome result (λ r. lines text.now ≡ r.0.now ∷ lines r.1.now) }
    ensures shorter { IfSome result (λ r. length r.1.now < length text.now) }
    ensures none { IfNone result (lines text.now ≡ []) }
{
    if text.is_empty() {
        return None;
    }
    let end = line_end(text);
    if end < text.len() {
        Some((without_carriage_return(&text[..end]), &text[end + 1..]))
    } else {
        Some((text, &text[end..]))
    }
}

fn is_kept(line: &[u8]) -> bool
    ensures { result ≡ is_kept_line line.now }
{
    match line {
        [] => false,
        [first, ..] => *first != b'#',
    }
}

/// The first line that is not passed over, of a text whose first line has this number.
pub fn next_line(text: &[u8], number: u64) -> Option<Line<'_>>
    requires { number + length text.now < 2 ^ 64 }
    ensures first { IfSome result (λ line.
        kept_lines number text.now ≡ (line.number, line.bytes.now) ∷ kept_lines (line.number + 1) line.rest.now) }
    ensures shorter { IfSome result (λ line. length line.rest.now < length text.now) }
    ensures below { IfSome result (λ line. line.number + 1 + length line.rest.now ≤ number + length text.now) }
    ensures none { IfNone result (kept_lines number text.now ≡ []) }
{
    let mut rest = text;
    let mut at = number;
    while let Some((bytes, after)) = split_line(rest) {
        if is_kept(bytes) {
            return Some(Line {
                number: at,
                bytes,
                rest: after,
            });
        }
        rest = after;
        at += 1;
    }
    None
}

fn separates_fields(byte: u8) -> bool
    ensures { result ≡ is_blank_byte byte }
{
    byte == b' ' || byte == b'\t'
}

/// The fields of a line, which stand apart by blanks.
pub fn fields(alloc: Global, line: &[u8]) -> Result<Vec<&[u8]>, AllocError>
    ensures { IfOk result (λ v. map (λ f. f.now) v.items ≡ fields_of line.now) }
{
    line.split(|b| separates_fields(*b))
        .filter(|field| !field.is_empty())
        .collect(alloc)
}
