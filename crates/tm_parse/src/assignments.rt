//! Readers of assignments and calls, and of the values and arguments in them.

ghost use Rattle.std.specs.Prelude.{◌≡◌, ◌<◌, ◌≤◌, length, Some, IfOk, IfErr};
ghost use Rattle.std.specs.Option.{option_map};
ghost use Rattle.tm_syntax.specs.declared.token.TokenKind.TheVariants as token;
ghost use Rattle.tm_syntax.specs.declared.token.Sign.TheVariants as sign;
ghost use Rattle.tm_syntax.specs.Tree.View.{expr_tree, expr_trees, value_tree, stmt_tree};
ghost use Rattle.tm_parse.specs.Reading.{first_kind, Takes, IsRefused, AnyOf, GoesOn, Nothing};
ghost use Rattle.tm_parse.specs.Operands.{GoesExpr};
ghost use Rattle.tm_parse.specs.declared.statements.StmtSort.TheVariants as sort;
ghost use Rattle.tm_parse.specs.Commands.{GoesAt, AreExprs, AreArgs, AValue, GoesValue, IsValueFrom, AnIndex, IsStmtFrom, AStmtOf, GoesStmt};

use crate::expressions::{enclosed, expr, expr_from, place_from};
use crate::leaves::path;
use crate::marks::{Read, first_kind, mark, need, open};
use std::alloc::Global;
use tm_syntax::token::{Sign, Token, TokenKind};
use tm_syntax::tree::{Expr, Path, Stmt, Value};

/// A statement that begins with a path: an assignment or a call.
pub fn path_stmt<'a>(alloc: Global, text: &[u8], depth: u8, tokens: &'a [Token]) -> Read<'a, Stmt>
    requires { depth ≤ 128 }
    ensures taken { IfOk result (λ r.
        Takes (AStmtOf text.now depth sort.Path) GoesStmt (stmt_tree r.0) tokens.now r.1.now) }
    ensures shorter { IfOk result (λ r. length r.1.now < length tokens.now) }
    ensures refused { IfErr result (IsRefused (AnyOf (AStmtOf text.now depth sort.Path)) GoesStmt tokens.now) }
{
    let (path, rest) = read!(path(alloc, text, tokens));
    if first_kind(rest) == Some(TokenKind::Sign(Sign::OpenParenthesis)) {
        return call_from(alloc, text, depth, path, rest);
    }
    assignment_from(alloc, text, depth, path, rest)
}

/// The call of what a path names, which stands before these tokens.
fn call_from<'a>(
    alloc: Global,
    text: &[u8],
    depth: u8,
    path: Path,
    tokens: &'a [Token],
) -> Read<'a, Stmt>
    requires within { depth ≤ 128 }
    requires opens { first_kind tokens.now ≡ Some (token.Sign sign.OpenParenthesis) }
    ensures taken { IfOk result (λ r.
        Takes (IsStmtFrom text.now depth path.names.items) Nothing (stmt_tree r.0) tokens.now r.1.now) }
    ensures shorter { IfOk result (λ r. length r.1.now < length tokens.now) }
    ensures refused { IfErr result
        (IsRefused (AnyOf (IsStmtFrom text.now depth path.names.items)) Nothing tokens.now) }
{
    let (arguments, rest) = read!(arguments(alloc, text, depth, tokens));
    let (_, rest) = read!(need(rest, TokenKind::Sign(Sign::Semicolon)));
    Ok((Stmt::Call(path, arguments), rest))
}

/// The assignment to what a path names, which stands before these tokens.
fn assignment_from<'a>(
    alloc: Global,
    text: &[u8],
    depth: u8,
    path: Path,
    tokens: &'a [Token],
) -> Read<'a, Stmt>
    requires within { depth ≤ 128 }
    requires opens { ¬ (first_kind tokens.now ≡ Some (token.Sign sign.OpenParenthesis)) }
    ensures taken { IfOk result (λ r.
        Takes (IsStmtFrom text.now depth path.names.items) Nothing (stmt_tree r.0) tokens.now r.1.now) }
    ensures shorter { IfOk result (λ r. length r.1.now < length tokens.now) }
    ensures refused { IfErr result
        (IsRefused (AnyOf (IsStmtFrom text.now depth path.names.items)) Nothing tokens.now) }
{
    let (index, rest) = read!(index(alloc, text, depth, tokens));
    let (_, rest) = read!(need(rest, TokenKind::Sign(Sign::Assign)), index);
    let (value, rest) = read!(value(alloc, text, depth, rest), index);
    let (_, rest) = read!(need(rest, TokenKind::Sign(Sign::Semicolon)), index, value);
    Ok((Stmt::Assign(path, index, value), rest))
}

/// An expression in brackets, if one stands here.
fn index<'a>(alloc: Global, text: &[u8], depth: u8, tokens: &'a [Token]) -> Read<'a, Option<Expr>>
    requires { depth ≤ 128 }
    ensures taken { IfOk result (λ r.
        Takes (AnIndex text.now depth) (GoesAt (token.Sign sign.OpenBracket)) (option_map expr_tree r.0)
        tokens.now r.1.now) }
    ensures shorter { IfOk result (λ r. length r.1.now ≤ length tokens.now) }
    ensures refused { IfErr result
        (IsRefused (AnyOf (AnIndex text.now depth)) (GoesAt (token.Sign sign.OpenBracket)) tokens.now) }
{
    if first_kind(tokens) != Some(TokenKind::Sign(Sign::OpenBracket)) {
        return Ok((None, tokens));
    }
    let (index, rest) = read!(enclosed(
        alloc,
        text,
        depth,
        Sign::OpenBracket,
        Sign::CloseBracket,
        tokens,
    ));
    Ok((Some(index.expr), rest))
}

/// Arguments of a call, in their parentheses.
fn arguments<'a>(alloc: Global, text: &[u8], depth: u8, tokens: &'a [Token]) -> Read<'a, Vec<Expr>>
    requires { depth ≤ 128 }
    ensures taken { IfOk result (λ r.
        Takes (AreArgs text.now depth) Nothing (expr_trees r.0.items) tokens.now r.1.now) }
    ensures shorter { IfOk result (λ r. length r.1.now < length tokens.now) }
    ensures refused { IfErr result (IsRefused (AnyOf (AreArgs text.now depth)) Nothing tokens.now) }
{
    let (_, rest) = read!(open(depth, tokens, TokenKind::Sign(Sign::OpenParenthesis)));
    if let Some((_, rest)) = mark(rest, TokenKind::Sign(Sign::CloseParenthesis)) {
        return Ok((Vec::new(alloc), rest));
    }
    let (arguments, rest) = read!(exprs(alloc, text, depth + 1, rest));
    let (_, rest) = read!(need(rest, TokenKind::Sign(Sign::CloseParenthesis)));
    Ok((arguments, rest))
}

/// Expressions with commas between them.
fn exprs<'a>(alloc: Global, text: &[u8], depth: u8, tokens: &'a [Token]) -> Read<'a, Vec<Expr>>
    requires { depth ≤ 128 }
    ensures taken { IfOk result (λ r.
        Takes (AreExprs text.now depth) (GoesOn sign.Comma (GoesExpr 0)) (expr_trees r.0.items) tokens.now r.1.now) }
    ensures shorter { IfOk result (λ r. length r.1.now < length tokens.now) }
    ensures refused { IfErr result
        (IsRefused (AnyOf (AreExprs text.now depth)) (GoesOn sign.Comma (GoesExpr 0)) tokens.now) }
{
    let (first, rest) = read!(expr(alloc, text, depth, tokens));
    let mut exprs = vec![in alloc; first]?;
    let mut rest = rest;
    while let Some((_, behind)) = mark(rest, TokenKind::Sign(Sign::Comma)) {
        let (next, behind) = read!(expr(alloc, text, depth, behind));
        exprs.push(next)?;
        rest = behind;
    }
    Ok((exprs, rest))
}

/// What is assigned: any value, a call, or an expression.
pub fn value<'a>(alloc: Global, text: &[u8], depth: u8, tokens: &'a [Token]) -> Read<'a, Value>
    requires { depth ≤ 128 }
    ensures taken { IfOk result (λ r. Takes (AValue text.now depth) GoesValue (value_tree r.0) tokens.now r.1.now) }
    ensures shorter { IfOk result (λ r. length r.1.now < length tokens.now) }
    ensures refused { IfErr result (IsRefused (AnyOf (AValue text.now depth)) GoesValue tokens.now) }
{
    if let Some((at, rest)) = mark(tokens, TokenKind::Sign(Sign::Star)) {
        return Ok((Value::Star(at), rest));
    }
    if first_kind(tokens) == Some(TokenKind::Name) {
        let (path, rest) = read!(path(alloc, text, tokens));
        return value_from(alloc, text, depth, path, rest);
    }
    let (expr, rest) = read!(expr(alloc, text, depth, tokens));
    Ok((Value::Plain(expr), rest))
}

/// The value that begins with a path, which stands before these tokens: a call, or an expression.
fn value_from<'a>(
    alloc: Global,
    text: &[u8],
    depth: u8,
    path: Path,
    tokens: &'a [Token],
) -> Read<'a, Value>
    requires { depth ≤ 128 }
    ensures taken { IfOk result (λ r.
        Takes (IsValueFrom text.now depth path.names.items) GoesValue (value_tree r.0) tokens.now r.1.now) }
    ensures shorter { IfOk result (λ r. length r.1.now ≤ length tokens.now) }
    ensures refused { IfErr result
        (IsRefused (AnyOf (IsValueFrom text.now depth path.names.items)) GoesValue tokens.now) }
{
    if first_kind(tokens) == Some(TokenKind::Sign(Sign::OpenParenthesis)) {
        let (arguments, rest) = read!(arguments(alloc, text, depth, tokens));
        return Ok((Value::Call(path, arguments), rest));
    }
    let (first, rest) = read!(place_from(alloc, text, depth, path, tokens));
    let (whole, rest) = read!(expr_from(alloc, text, depth, first, rest));
    Ok((Value::Plain(whole.expr), rest))
}
