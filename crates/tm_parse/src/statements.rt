//! Readers of statements. They descend only where a level is opened.

ghost use Rattle.std.specs.Prelude.{◌≡◌, ◌<◌, ◌≤◌, ◌++◌, [], ◌∷◌, map, length, IfOk, IfErr, OnOk, None};
ghost use Rattle.tm_syntax.specs.declared.token.TokenKind.TheVariants as token;
ghost use Rattle.tm_syntax.specs.declared.token.Word.TheVariants as word;
ghost use Rattle.tm_syntax.specs.Tree.View.{expr_tree, stmt_tree, stmt_trees};
ghost use Rattle.tm_parse.specs.Reading.{first_kind, Takes, IsRefused, AnyOf, Nothing};
ghost use Rattle.tm_parse.specs.declared.statements.StmtSort.TheVariants as sort;
ghost use Rattle.tm_parse.specs.Commands.{GoesAt, row_tree, ACondition, IsTest, IsShort, ABlock, AnIfFrom, AnElse, AnElseFrom, IsOrBlock, IsChoice, stmt_sort, AStmtOf, GoesStmt, SomeStmts, GoesStmts};

use crate::assignments::path_stmt;
use crate::expressions::enclosed;
use crate::marks::{Read, first_kind, mark, need, open};
use std::alloc::{AllocError, Global};
use tm_base::Place;
use tm_syntax::token::{Sign, Token, TokenKind, Word};
use tm_syntax::tree::{Expr, Stmt};

/// The statements, by their first tokens.
#[derive(Clone, Copy)]
pub enum StmtSort {
    Path,
    If,
    While,
    Forever,
    Choice,
    Flat(FlatSort),
}

/// The statements that hold no other and begin with no path.
#[derive(Clone, Copy)]
pub enum FlatSort {
    Assert,
    Assume,
    Pause,
    Wait,
    Magic,
}

/// A condition in its parentheses.
fn condition<'a>(alloc: Global, text: &[u8], depth: u8, tokens: &'a [Token]) -> Read<'a, Expr>
    requires { depth ≤ 128 }
    ensures taken { IfOk result (λ r. Takes (ACondition text.now depth) Nothing (expr_tree r.0) tokens.now r.1.now) }
    ensures shorter { IfOk result (λ r. length r.1.now < length tokens.now) }
    ensures refused { IfErr result (IsRefused (AnyOf (ACondition text.now depth)) Nothing tokens.now) }
{
    let (condition, rest) = read!(enclosed(
        alloc,
        text,
        depth,
        Sign::OpenParenthesis,
        Sign::CloseParenthesis,
        tokens,
    ));
    Ok((condition.expr, rest))
}

/// A word, a condition and a semicolon.
fn test<'a>(
    alloc: Global,
    text: &[u8],
    depth: u8,
    word: Word,
    tokens: &'a [Token],
) -> Read<'a, (Place, Expr)>
    requires { depth ≤ 128 }
    ensures taken { IfOk result (λ r.
        Takes (IsTest text.now word depth) Nothing (r.0.0, expr_tree r.0.1) tokens.now r.1.now) }
    ensures shorter { IfOk result (λ r. length r.1.now < length tokens.now) }
    ensures refused { IfErr result (IsRefused (AnyOf (IsTest text.now word depth)) Nothing tokens.now) }
{
    let (at, rest) = read!(need(tokens, TokenKind::Word(word)));
    let (test, rest) = read!(condition(alloc, text, depth, rest));
    let (_, rest) = read!(need(rest, TokenKind::Sign(Sign::Semicolon)), test);
    Ok(((at, test), rest))
}

/// A token and a semicolon.
fn short(tokens: &[Token], kind: TokenKind) -> Read<'_, Place>
    ensures taken { IfOk result (λ r. Takes (IsShort kind) Nothing r.0 tokens.now r.1.now) }
    ensures shorter { IfOk result (λ r. length r.1.now < length tokens.now) }
    ensures refused { IfErr result (IsRefused (AnyOf (IsShort kind)) Nothing tokens.now) }
{
    let (at, rest) = read!(need(tokens, kind));
    let (_, rest) = read!(need(rest, TokenKind::Sign(Sign::Semicolon)));
    Ok((at, rest))
}

/// The statement that begins here.
fn stmt_sort(tokens: &[Token]) -> Option<StmtSort>
    ensures { result ≡ stmt_sort (first_kind tokens.now) }
{
    match tokens.first()?.kind {
        TokenKind::Name => Some(StmtSort::Path),
        TokenKind::Word(Word::If) => Some(StmtSort::If),
        TokenKind::Word(Word::While) => Some(StmtSort::While),
        TokenKind::Word(Word::Forever) => Some(StmtSort::Forever),
        TokenKind::Word(Word::Choice) => Some(StmtSort::Choice),
        TokenKind::Word(Word::Assert) => Some(StmtSort::Flat(FlatSort::Assert)),
        TokenKind::Word(Word::Assume) => Some(StmtSort::Flat(FlatSort::Assume)),
        TokenKind::Word(Word::Pause) => Some(StmtSort::Flat(FlatSort::Pause)),
        TokenKind::Word(Word::Wait) => Some(StmtSort::Flat(FlatSort::Wait)),
        TokenKind::Sign(Sign::Ellipsis) => Some(StmtSort::Flat(FlatSort::Magic)),
        _ => None,
    }
}

/// Puts a statement behind others. The first one gets room for itself alone: many blocks hold no other.
fn push_stmt(stmts: &mut Vec<Stmt>, stmt: Stmt) -> Result<(), AllocError>
    ensures { OnOk result (stmts.new.items ≡ stmts.old.items ++ stmt ∷ []) }
{
    if stmts.is_empty() {
        read!(stmts.reserve_exact(1), stmt);
    }
    stmts.push(stmt)?;
    Ok(())
}

/// Statements, as many as stand here.
#[cycle(statement)]
pub fn stmts<'a>(alloc: Global, text: &[u8], depth: u8, tokens: &'a [Token]) -> Read<'a, Vec<Stmt>>
    requires { depth ≤ 128 }
    ensures taken { IfOk result (λ r.
        Takes (SomeStmts text.now depth) GoesStmts (stmt_trees r.0.items) tokens.now r.1.now) }
    ensures shorter { IfOk result (λ r. length r.1.now ≤ length tokens.now) }
    ensures ended { IfOk result (λ r. stmt_sort (first_kind r.1.now) ≡ None) }
    ensures refused { IfErr result (IsRefused (AnyOf (SomeStmts text.now depth)) GoesStmts tokens.now) }
{
    let mut stmts = Vec::new(alloc);
    let mut rest = tokens;
    while let Some(sort) = stmt_sort(rest) {
        let (stmt, behind) = read!(stmt(alloc, text, depth, sort, rest));
        push_stmt(&mut stmts, stmt)?;
        rest = behind;
    }
    Ok((stmts, rest))
}

/// A statement of this sort.
#[cycle(statement)]
fn stmt<'a>(
    alloc: Global,
    text: &[u8],
    depth: u8,
    sort: StmtSort,
    tokens: &'a [Token],
) -> Read<'a, Stmt>
    requires { depth ≤ 128 }
    ensures taken { IfOk result (λ r.
        Takes (AStmtOf text.now depth sort) GoesStmt (stmt_tree r.0) tokens.now r.1.now) }
    ensures shorter { IfOk result (λ r. length r.1.now < length tokens.now) }
    ensures refused { IfErr result (IsRefused (AnyOf (AStmtOf text.now depth sort)) GoesStmt tokens.now) }
{
    match sort {
        StmtSort::Path => path_stmt(alloc, text, depth, tokens),
        StmtSort::If => if_stmt(alloc, text, depth, tokens),
        StmtSort::While => while_stmt(alloc, text, depth, tokens),
        StmtSort::Forever => forever_stmt(alloc, text, depth, tokens),
        StmtSort::Choice => choice_stmt(alloc, text, depth, tokens),
        StmtSort::Flat(flat) => flat_stmt(alloc, text, depth, flat, tokens),
    }
}

/// A statement of this sort, that holds no other.
fn flat_stmt<'a>(
    alloc: Global,
    text: &[u8],
    depth: u8,
    flat: FlatSort,
    tokens: &'a [Token],
) -> Read<'a, Stmt>
    requires { depth ≤ 128 }
    ensures taken { IfOk result (λ r.
        Takes (AStmtOf text.now depth (sort.Flat flat)) GoesStmt (stmt_tree r.0) tokens.now r.1.now) }
    ensures shorter { IfOk result (λ r. length r.1.now < length tokens.now) }
    ensures refused { IfErr result (IsRefused (AnyOf (AStmtOf text.now depth (sort.Flat flat))) GoesStmt tokens.now) }
{
    match flat {
        FlatSort::Assert => {
            let (asserted, rest) = read!(test(alloc, text, depth, Word::Assert, tokens));
            Ok((Stmt::Assert(asserted.0, asserted.1), rest))
        }
        FlatSort::Assume => {
            let (assumed, rest) = read!(test(alloc, text, depth, Word::Assume, tokens));
            Ok((Stmt::Assume(assumed.0, assumed.1), rest))
        }
        FlatSort::Wait => {
            let (awaited, rest) = read!(test(alloc, text, depth, Word::Wait, tokens));
            Ok((Stmt::Wait(awaited.0, awaited.1), rest))
        }
        FlatSort::Pause => {
            let (pause, rest) = read!(short(tokens, TokenKind::Word(Word::Pause)));
            Ok((Stmt::Pause(pause), rest))
        }
        FlatSort::Magic => {
            let (magic, rest) = read!(short(tokens, TokenKind::Sign(Sign::Ellipsis)));
            Ok((Stmt::Magic(magic), rest))
        }
    }
}

/// `if` and what stands behind it.
#[cycle(statement)]
fn if_stmt<'a>(alloc: Global, text: &[u8], depth: u8, tokens: &'a [Token]) -> Read<'a, Stmt>
    requires { depth ≤ 128 }
    ensures taken { IfOk result (λ r.
        Takes (AStmtOf text.now depth sort.If) GoesStmt (stmt_tree r.0) tokens.now r.1.now) }
    ensures shorter { IfOk result (λ r. length r.1.now < length tokens.now) }
    ensures refused { IfErr result (IsRefused (AnyOf (AStmtOf text.now depth sort.If)) GoesStmt tokens.now) }
{
    let (_, rest) = read!(need(tokens, TokenKind::Word(Word::If)));
    if_from(alloc, text, depth, rest)
}

/// The condition of an `if`, its block, and what stands behind an `else`.
#[cycle(statement)]
fn if_from<'a>(alloc: Global, text: &[u8], depth: u8, tokens: &'a [Token]) -> Read<'a, Stmt>
    requires { depth ≤ 128 }
    ensures taken { IfOk result (λ r.
        Takes (AnIfFrom text.now depth) (GoesAt (token.Word word.Else)) (stmt_tree r.0) tokens.now r.1.now) }
    ensures shorter { IfOk result (λ r. length r.1.now < length tokens.now) }
    ensures refused { IfErr result
        (IsRefused (AnyOf (AnIfFrom text.now depth)) (GoesAt (token.Word word.Else)) tokens.now) }
{
    let (test, rest) = read!(condition(alloc, text, depth, tokens));
    let (yes, rest) = read!(block(alloc, text, depth, rest), test);
    let (no, rest) = read!(else_branch(alloc, text, depth, rest), test);
    Ok((Stmt::If(test, yes, no), rest))
}

/// `else` and what stands behind it, or nothing.
#[cycle(statement)]
fn else_branch<'a>(
    alloc: Global,
    text: &[u8],
    depth: u8,
    tokens: &'a [Token],
) -> Read<'a, Vec<Stmt>>
    requires { depth ≤ 128 }
    ensures taken { IfOk result (λ r.
        Takes (AnElse text.now depth) (GoesAt (token.Word word.Else)) (row_tree r.0) tokens.now r.1.now) }
    ensures shorter { IfOk result (λ r. length r.1.now ≤ length tokens.now) }
    ensures refused { IfErr result
        (IsRefused (AnyOf (AnElse text.now depth)) (GoesAt (token.Word word.Else)) tokens.now) }
{
    let Some((_, rest)) = mark(tokens, TokenKind::Word(Word::Else)) else {
        return Ok((Vec::new(alloc), tokens));
    };
    else_from(alloc, text, depth, rest)
}

/// A block, or an `if`, which opens a level.
#[cycle(statement)]
fn else_from<'a>(alloc: Global, text: &[u8], depth: u8, tokens: &'a [Token]) -> Read<'a, Vec<Stmt>>
    requires { depth ≤ 128 }
    ensures taken { IfOk result (λ r.
        Takes (AnElseFrom text.now depth) (GoesAt (token.Word word.Else)) (row_tree r.0) tokens.now r.1.now) }
    ensures shorter { IfOk result (λ r. length r.1.now < length tokens.now) }
    ensures refused { IfErr result
        (IsRefused (AnyOf (AnElseFrom text.now depth)) (GoesAt (token.Word word.Else)) tokens.now) }
{
    if first_kind(tokens) != Some(TokenKind::Word(Word::If)) {
        return block(alloc, text, depth, tokens);
    }
    let (_, rest) = read!(open(depth, tokens, TokenKind::Word(Word::If)));
    let (stmt, rest) = read!(if_from(alloc, text, depth + 1, rest));
    let branch = vec![in alloc; stmt]?;
    Ok((branch, rest))
}

/// `while`, its condition and its block.
#[cycle(statement)]
fn while_stmt<'a>(alloc: Global, text: &[u8], depth: u8, tokens: &'a [Token]) -> Read<'a, Stmt>
    requires { depth ≤ 128 }
    ensures taken { IfOk result (λ r.
        Takes (AStmtOf text.now depth sort.While) GoesStmt (stmt_tree r.0) tokens.now r.1.now) }
    ensures shorter { IfOk result (λ r. length r.1.now < length tokens.now) }
    ensures refused { IfErr result (IsRefused (AnyOf (AStmtOf text.now depth sort.While)) GoesStmt tokens.now) }
{
    let (at, rest) = read!(need(tokens, TokenKind::Word(Word::While)));
    let (test, rest) = read!(condition(alloc, text, depth, rest));
    let (body, rest) = read!(block(alloc, text, depth, rest), test);
    Ok((Stmt::While(at, test, body), rest))
}

/// `forever` and its block.
#[cycle(statement)]
fn forever_stmt<'a>(alloc: Global, text: &[u8], depth: u8, tokens: &'a [Token]) -> Read<'a, Stmt>
    requires { depth ≤ 128 }
    ensures taken { IfOk result (λ r.
        Takes (AStmtOf text.now depth sort.Forever) GoesStmt (stmt_tree r.0) tokens.now r.1.now) }
    ensures shorter { IfOk result (λ r. length r.1.now < length tokens.now) }
    ensures refused { IfErr result (IsRefused (AnyOf (AStmtOf text.now depth sort.Forever)) GoesStmt tokens.now) }
{
    let (at, rest) = read!(need(tokens, TokenKind::Word(Word::Forever)));
    let (body, rest) = read!(block(alloc, text, depth, rest));
    Ok((Stmt::Forever(at, body), rest))
}

/// `choice` and its alternatives.
#[cycle(statement)]
fn choice_stmt<'a>(alloc: Global, text: &[u8], depth: u8, tokens: &'a [Token]) -> Read<'a, Stmt>
    requires { depth ≤ 128 }
    ensures taken { IfOk result (λ r.
        Takes (AStmtOf text.now depth sort.Choice) GoesStmt (stmt_tree r.0) tokens.now r.1.now) }
    ensures shorter { IfOk result (λ r. length r.1.now < length tokens.now) }
    ensures refused { IfErr result (IsRefused (AnyOf (AStmtOf text.now depth sort.Choice)) GoesStmt tokens.now) }
{
    let (at, rest) = read!(need(tokens, TokenKind::Word(Word::Choice)));
    let (choices, rest) = read!(alternatives(alloc, text, depth, rest));
    Ok((Stmt::Choice(at, choices), rest))
}

/// The alternatives of a choice: two or more.
#[cycle(statement)]
fn alternatives<'a>(
    alloc: Global,
    text: &[u8],
    depth: u8,
    tokens: &'a [Token],
) -> Read<'a, Vec<Vec<Stmt>>>
    requires { depth ≤ 128 }
    ensures taken { IfOk result (λ r.
        Takes (IsChoice text.now depth) (GoesAt (token.Word word.Or)) (map row_tree r.0.items) tokens.now r.1.now) }
    ensures shorter { IfOk result (λ r. length r.1.now < length tokens.now) }
    ensures refused { IfErr result
        (IsRefused (AnyOf (IsChoice text.now depth)) (GoesAt (token.Word word.Or)) tokens.now) }
{
    let (first, rest) = read!(block(alloc, text, depth, tokens));
    let (second, rest) = read!(or_block(alloc, text, depth, rest));
    let mut rows = Vec::new(alloc);
    rows.push(first)?;
    rows.push(second)?;
    let mut rest = rest;
    'others: while first_kind(rest) == Some(TokenKind::Word(Word::Or)) {
        let (next, behind) = read!(or_block(alloc, text, depth, rest));
        rows.push(next)?;
        rest = behind;
    }
    Ok((rows, rest))
}

/// `or` and a block.
#[cycle(statement)]
fn or_block<'a>(alloc: Global, text: &[u8], depth: u8, tokens: &'a [Token]) -> Read<'a, Vec<Stmt>>
    requires { depth ≤ 128 }
    ensures taken { IfOk result (λ r. Takes (IsOrBlock text.now depth) Nothing (row_tree r.0) tokens.now r.1.now) }
    ensures shorter { IfOk result (λ r. length r.1.now < length tokens.now) }
    ensures refused { IfErr result (IsRefused (AnyOf (IsOrBlock text.now depth)) Nothing tokens.now) }
{
    let (_, rest) = read!(need(tokens, TokenKind::Word(Word::Or)));
    block(alloc, text, depth, rest)
}

/// Statements in braces.
#[cycle(statement)]
fn block<'a>(alloc: Global, text: &[u8], depth: u8, tokens: &'a [Token]) -> Read<'a, Vec<Stmt>>
    requires { depth ≤ 128 }
    ensures taken { IfOk result (λ r.
        Takes (ABlock text.now depth) Nothing (stmt_trees r.0.items) tokens.now r.1.now) }
    ensures shorter { IfOk result (λ r. length r.1.now < length tokens.now) }
    ensures refused { IfErr result (IsRefused (AnyOf (ABlock text.now depth)) Nothing tokens.now) }
{
    let (_, rest) = read!(open(depth, tokens, TokenKind::Sign(Sign::OpenBrace)));
    let (stmts, rest) = read!(stmts(alloc, text, depth + 1, rest));
    let (_, rest) = read!(need(rest, TokenKind::Sign(Sign::CloseBrace)));
    Ok((stmts, rest))
}
