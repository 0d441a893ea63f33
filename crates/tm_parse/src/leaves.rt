//! Names, numbers, paths and types.

ghost use Rattle.std.specs.Prelude.{◌≡◌, ◌<◌, ◌≤◌, ℕ, List, map, length, slice_range, IfOk, IfErr};
ghost use Rattle.std.specs.Char.{digit_value};
ghost use Rattle.std.specs.Str.Parse.{digits_value};
ghost use Rattle.tm_syntax.specs.declared.token.TokenKind.TheVariants as token;
ghost use Rattle.tm_syntax.specs.declared.token.Sign.TheVariants as sign;
ghost use Rattle.tm_syntax.specs.Grammar.Parts.{IsName, IsNumber, AreParted, IsPath, below_limit, written_number};
ghost use Rattle.tm_syntax.specs.Grammar.Statements.{IsType};
ghost use Rattle.tm_parse.specs.Reading.{Takes, IsRefused, AnyOf, GoesOn, Nothing};
ghost use Rattle.tm_parse.specs.Width.{IsWidth};

use crate::marks::{Read, mark, need, token};
use crate::stop::Stop;
use std::alloc::Global;
use tm_base::Name;
use tm_syntax::token::{Sign, Token, TokenKind, Word};
use tm_syntax::tree::{Ident, Num, Path, TypeName};

/// The bytes of a token; as many of them as the text has.
fn bytes_of<'a>(text: &'a [u8], token: &Token) -> &'a [u8]
    ensures { result.now ≡ slice_range text.now token.now.start token.now.end }
{
    let end = text.len().min(token.end as usize);
    let start = end.min(token.start as usize);
    &text[start..end]
}

/// The value of a digit: of `0` to `9`, or of a letter of either case, from 10 on.
fn digit_value(byte: u8) -> u64
    ensures { result ≡ digit_value byte }
{
    match byte {
        b'0'..=b'9' => byte as u64 - 48,
        b'A'..=b'Z' => byte as u64 - 55,
        b'a'..=b'z' => byte as u64 - 87,
        _ => 36,
    }
}

/// The number that digits write in a base, if it is below 2^64.
fn digits_value(base: u64, digits: &[u8]) -> Option<u64>
    requires { 1 ≤ base }
    ensures { result ≡ below_limit (digits_value base digits.now) }
{
    let mut value = 0u64;
    for digit in digits {
        let product = value.checked_mul(base)?;
        value = product.checked_add(digit_value(*digit))?;
    }
    Some(value)
}

/// The number that bytes write, hexadecimal behind `0x` and else decimal, if it is below 2^64.
fn written_number(bytes: &[u8]) -> Option<u64>
    ensures { result ≡ below_limit (written_number bytes.now) }
{
    if bytes.len() > 1 && bytes[1] == b'x' {
        digits_value(16, &bytes[2..])
    } else {
        digits_value(10, bytes)
    }
}

/// NUMBER.
pub fn number<'a>(text: &[u8], tokens: &'a [Token]) -> Read<'a, Num>
    ensures taken { IfOk result (λ r. Takes (λ _. IsNumber text.now) Nothing r.0 tokens.now r.1.now) }
    ensures shorter { IfOk result (λ r. length r.1.now < length tokens.now) }
    ensures refused { IfErr result (IsRefused (AnyOf (λ _. IsNumber text.now)) Nothing tokens.now) }
{
    let Some((first, rest)) = token(tokens, TokenKind::Number) else {
        return Err(Stop::Unexpected(tokens));
    };
    let value = written_number(bytes_of(text, first));
    Ok((
        Num {
            value,
            place: first.place,
        },
        rest,
    ))
}

/// NAME.
pub fn name<'a>(alloc: Global, text: &[u8], tokens: &'a [Token]) -> Read<'a, Ident>
    ensures taken { IfOk result (λ r. Takes (λ _. IsName text.now) Nothing r.0 tokens.now r.1.now) }
    ensures shorter { IfOk result (λ r. length r.1.now < length tokens.now) }
    ensures refused { IfErr result (IsRefused (AnyOf (λ _. IsName text.now)) Nothing tokens.now) }
{
    let Some((first, rest)) = token(tokens, TokenKind::Name) else {
        return Err(Stop::Unexpected(tokens));
    };
    let text = Name::from_bytes(alloc, bytes_of(text, first))?;
    Ok((
        Ident {
            text,
            place: first.place,
        },
        rest,
    ))
}

/// Names with a sign between two.
pub fn names<'a>(alloc: Global, text: &[u8], by: Sign, tokens: &'a [Token]) -> Read<'a, Vec<Ident>>
    ensures taken { IfOk result (λ r.
        Takes (λ _. AreParted by (IsName text.now)) (GoesOn by Nothing) r.0.items tokens.now r.1.now) }
    ensures shorter { IfOk result (λ r. length r.1.now < length tokens.now) }
    ensures refused { IfErr result
        (IsRefused (AnyOf (λ _. AreParted by (IsName text.now))) (GoesOn by Nothing) tokens.now) }
{
    let (first, rest) = read!(name(alloc, text, tokens));
    let mut names = vec![in alloc; first]?;
    let mut rest = rest;
    while let Some((_, behind)) = mark(rest, TokenKind::Sign(by)) {
        let (next, behind) = read!(name(alloc, text, behind));
        names.push(next)?;
        rest = behind;
    }
    Ok((names, rest))
}

/// A path.
pub fn path<'a>(alloc: Global, text: &[u8], tokens: &'a [Token]) -> Read<'a, Path>
    ensures taken { IfOk result (λ r.
        Takes (λ _. IsPath text.now) (GoesOn sign.Dot Nothing) r.0.names.items tokens.now r.1.now) }
    ensures shorter { IfOk result (λ r. length r.1.now < length tokens.now) }
    ensures refused { IfErr result (IsRefused (AnyOf (λ _. IsPath text.now)) (GoesOn sign.Dot Nothing) tokens.now) }
{
    let (names, rest) = read!(names(alloc, text, Sign::Dot, tokens));
    Ok((Path { names }, rest))
}

/// `<`, NUMBER, `>`: the width of numbers.
pub fn width<'a>(text: &[u8], tokens: &'a [Token]) -> Read<'a, Num>
    ensures taken { IfOk result (λ r. Takes (λ _. IsWidth text.now) Nothing r.0 tokens.now r.1.now) }
    ensures shorter { IfOk result (λ r. length r.1.now < length tokens.now) }
    ensures refused { IfErr result (IsRefused (AnyOf (λ _. IsWidth text.now)) Nothing tokens.now) }
{
    let (_, rest) = read!(need(tokens, TokenKind::Sign(Sign::Less)));
    let (width, rest) = read!(number(text, rest));
    let (_, rest) = read!(need(rest, TokenKind::Sign(Sign::Greater)));
    Ok((width, rest))
}

/// A type.
pub fn type_name<'a>(alloc: Global, text: &[u8], tokens: &'a [Token]) -> Read<'a, TypeName>
    ensures taken { IfOk result (λ r. Takes (λ _. IsType text.now) Nothing r.0 tokens.now r.1.now) }
    ensures shorter { IfOk result (λ r. length r.1.now < length tokens.now) }
    ensures refused { IfErr result (IsRefused (AnyOf (λ _. IsType text.now)) Nothing tokens.now) }
{
    if let Some((at, rest)) = mark(tokens, TokenKind::Word(Word::Bool)) {
        return Ok((TypeName::Bool(at), rest));
    }
    if let Some((at, rest)) = mark(tokens, TokenKind::Word(Word::Uint)) {
        let (width, rest) = read!(width(text, rest));
        return Ok((TypeName::Uint(at, width), rest));
    }
    let (name, rest) = read!(name(alloc, text, tokens));
    Ok((TypeName::Enum(name), rest))
}
