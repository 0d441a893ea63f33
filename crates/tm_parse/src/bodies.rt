//! Readers of bodies.

ghost use Rattle.std.specs.Prelude.{◌≡◌, ◌<◌, ◌≤◌, map, length, IfOk, IfErr};
ghost use Rattle.std.specs.Option.{option_map};
ghost use Rattle.tm_syntax.specs.declared.token.TokenKind.TheVariants as token;
ghost use Rattle.tm_syntax.specs.declared.token.Word.TheVariants as word;
ghost use Rattle.tm_syntax.specs.Tree.View.{expr_tree, stmt_trees, local_tree, body_tree};
ghost use Rattle.tm_parse.specs.Reading.{Takes, IsRefused, AnyOf, Nothing};
ghost use Rattle.tm_parse.specs.Commands.{GoesAt, GoesBody, ALocal, AreBody, AnAnswer, ABraced, AnAnswering, begins_name, begins_local};

use crate::assignments::value;
use crate::expressions::expr;
use crate::leaves::{name, type_name};
use crate::marks::{Read, first_kind, mark, need, open};
use crate::statements::stmts;
use std::alloc::Global;
use tm_syntax::token::{Sign, Token, TokenKind, Word};
use tm_syntax::tree::{Body, Expr, LocalDef, Stmt};

/// The declaration of a local.
fn local<'a>(alloc: Global, text: &[u8], depth: u8, tokens: &'a [Token]) -> Read<'a, LocalDef>
    requires { depth ≤ 128 }
    ensures taken { IfOk result (λ r. Takes (ALocal text.now depth) Nothing (local_tree r.0) tokens.now r.1.now) }
    ensures shorter { IfOk result (λ r. length r.1.now < length tokens.now) }
    ensures refused { IfErr result (IsRefused (AnyOf (ALocal text.now depth)) Nothing tokens.now) }
{
    let (ty, rest) = read!(type_name(alloc, text, tokens));
    let (name, rest) = read!(name(alloc, text, rest));
    let (_, rest) = read!(need(rest, TokenKind::Sign(Sign::Assign)));
    let (value, rest) = read!(value(alloc, text, depth, rest));
    let (_, rest) = read!(need(rest, TokenKind::Sign(Sign::Semicolon)), value);
    Ok((LocalDef { ty, name, value }, rest))
}

/// Whether a name begins here.
fn begins_name(tokens: &[Token]) -> bool
    ensures { result ≡ begins_name tokens.now }
{
    let Some(kind) = first_kind(tokens) else {
        return false;
    };
    match kind {
        TokenKind::Name => true,
        _ => false,
    }
}

/// Whether the declaration of a local begins here: with `bool`, `uint` or two names.
fn begins_local(tokens: &[Token]) -> bool
    ensures { result ≡ begins_local tokens.now }
{
    let Some((first, rest)) = tokens.split_first() else {
        return false;
    };
    match first.kind {
        TokenKind::Word(Word::Bool) => true,
        TokenKind::Word(Word::Uint) => true,
        TokenKind::Name => begins_name(rest),
        _ => false,
    }
}

/// The declarations of locals, as many as stand here, and statements.
fn locals_stmts<'a>(
    alloc: Global,
    text: &[u8],
    depth: u8,
    tokens: &'a [Token],
) -> Read<'a, (Vec<LocalDef>, Vec<Stmt>)>
    requires { depth ≤ 128 }
    ensures taken { IfOk result (λ r.
        Takes (AreBody text.now depth) GoesBody (map local_tree r.0.0.items, stmt_trees r.0.1.items)
        tokens.now r.1.now) }
    ensures shorter { IfOk result (λ r. length r.1.now ≤ length tokens.now) }
    ensures refused { IfErr result (IsRefused (AnyOf (AreBody text.now depth)) GoesBody tokens.now) }
{
    let mut locals = Vec::new(alloc);
    let mut rest = tokens;
    'declarations: while begins_local(rest) {
        let (local, behind) = read!(local(alloc, text, depth, rest));
        locals.push(local)?;
        rest = behind;
    }
    let (stmts, rest) = read!(stmts(alloc, text, depth, rest));
    Ok(((locals, stmts), rest))
}

/// `return`, an expression and a semicolon, if they stand here.
fn answer<'a>(alloc: Global, text: &[u8], depth: u8, tokens: &'a [Token]) -> Read<'a, Option<Expr>>
    requires { depth ≤ 128 }
    ensures taken { IfOk result (λ r.
        Takes (AnAnswer text.now depth) (GoesAt (token.Word word.Return)) (option_map expr_tree r.0)
        tokens.now r.1.now) }
    ensures shorter { IfOk result (λ r. length r.1.now ≤ length tokens.now) }
    ensures refused { IfErr result
        (IsRefused (AnyOf (AnAnswer text.now depth)) (GoesAt (token.Word word.Return)) tokens.now) }
{
    let Some((_, rest)) = mark(tokens, TokenKind::Word(Word::Return)) else {
        return Ok((None, tokens));
    };
    let (answer, rest) = read!(expr(alloc, text, depth, rest));
    let (_, rest) = read!(need(rest, TokenKind::Sign(Sign::Semicolon)), answer);
    Ok((Some(answer), rest))
}

/// A body in braces that returns nothing.
pub fn silent_body<'a>(alloc: Global, text: &[u8], depth: u8, tokens: &'a [Token]) -> Read<'a, Body>
    requires { depth ≤ 128 }
    ensures taken { IfOk result (λ r. Takes (ABraced text.now depth) Nothing (body_tree r.0) tokens.now r.1.now) }
    ensures shorter { IfOk result (λ r. length r.1.now < length tokens.now) }
    ensures refused { IfErr result (IsRefused (AnyOf (ABraced text.now depth)) Nothing tokens.now) }
{
    let (_, rest) = read!(open(depth, tokens, TokenKind::Sign(Sign::OpenBrace)));
    let (body, rest) = read!(locals_stmts(alloc, text, depth + 1, rest));
    let (_, rest) = read!(need(rest, TokenKind::Sign(Sign::CloseBrace)));
    Ok((
        Body {
            locals: body.0,
            stmts: body.1,
            answer: None,
        },
        rest,
    ))
}

/// A procedure's body in braces, which may return a value at its end.
pub fn answering_body<'a>(
    alloc: Global,
    text: &[u8],
    depth: u8,
    tokens: &'a [Token],
) -> Read<'a, Body>
    requires { depth ≤ 128 }
    ensures taken { IfOk result (λ r. Takes (AnAnswering text.now depth) Nothing (body_tree r.0) tokens.now r.1.now) }
    ensures shorter { IfOk result (λ r. length r.1.now < length tokens.now) }
    ensures refused { IfErr result (IsRefused (AnyOf (AnAnswering text.now depth)) Nothing tokens.now) }
{
    let (_, rest) = read!(open(depth, tokens, TokenKind::Sign(Sign::OpenBrace)));
    let (body, rest) = read!(locals_stmts(alloc, text, depth + 1, rest));
    let (answer, rest) = read!(answer(alloc, text, depth + 1, rest));
    let (_, rest) = read!(need(rest, TokenKind::Sign(Sign::CloseBrace)), answer);
    Ok((
        Body {
            locals: body.0,
            stmts: body.1,
            answer,
        },
        rest,
    ))
}
