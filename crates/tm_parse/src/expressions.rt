//! Readers of expressions. They descend only where a level is opened, or from an operator to a stronger one, so no text
//! makes them deeper than about ten times the limit of levels.

ghost use Rattle.std.specs.Prelude.{◌≡◌, ◌≢◌, ◌+◌, ◌<◌, ◌≤◌, min, length, Some, IfSome, IfOk, IfErr, IsNone};
ghost use Rattle.tm_syntax.specs.declared.token.TokenKind.TheVariants as token;
ghost use Rattle.tm_syntax.specs.Tree.View.{expr_tree};
ghost use Rattle.tm_syntax.specs.Grammar.Parts.{IsMark};
ghost use Rattle.tm_syntax.specs.Grammar.Expressions.{height, unary_sign};
ghost use Rattle.tm_parse.specs.Reading.{first_kind, Takes, IsRefused, AnyOf, Nothing};
ghost use Rattle.tm_parse.specs.Operands.{AnExpr, GoesExpr, GoesJoined, IsPrefix, IsEnclosed, IsPlaceFrom, IsJoined, ATail, IsChoiceFrom, IsExprFrom, infix_sign, infix_strength, primary_at};
ghost use Rattle.tm_parse.specs.declared.operators.Primary.{Primary};

use crate::leaves::{number, path, width};
use crate::marks::{LIMIT, Read, first_kind, need, open};
use crate::operators::{Infix, Primary, infix_of, prefix_of, primary_at, strength};
use crate::stop::Stop;
use std::alloc::Global;
use tm_base::Place;
use tm_syntax::token::{Sign, Token, TokenKind, Word};
use tm_syntax::tree::{Expr, Path, UnaryOperator};

/// An expression, and its height, or the limit where it is higher.
#[derive(Drop)]
pub struct Measured {
    pub expr: Expr,
    pub height: u8,
}

/// An expression on the heap, and its height, or the limit where it is higher.
#[derive(Drop)]
struct Boxed {
    expr: Box<Expr>,
    height: u8,
}

/// The height of an expression whose highest part has this height.
fn above(height: u8) -> u8
    ensures { result ≡ min (height + 1) 128 }
{
    if height < LIMIT { height + 1 } else { LIMIT }
}

/// A name or a constant.
fn low(expr: Expr) -> Measured
    ensures expr { result.expr ≡ expr }
    ensures height { result.height ≡ 1 }
{
    Measured { expr, height: 1 }
}

/// An expression, where `depth` levels are open.
pub fn expr<'a>(alloc: Global, text: &[u8], depth: u8, tokens: &'a [Token]) -> Read<'a, Expr>
    requires { depth ≤ 128 }
    ensures taken { IfOk result (λ r.
        Takes (AnExpr text.now 0 depth) (GoesExpr 0) (expr_tree r.0) tokens.now r.1.now) }
    ensures shorter { IfOk result (λ r. length r.1.now < length tokens.now) }
    ensures refused { IfErr result (IsRefused (AnyOf (AnExpr text.now 0 depth)) (GoesExpr 0) tokens.now) }
{
    let (whole, rest) = read!(whole(alloc, text, depth, tokens));
    Ok((whole.expr, rest))
}

/// An expression with its height.
#[cycle(expression)]
fn whole<'a>(alloc: Global, text: &[u8], depth: u8, tokens: &'a [Token]) -> Read<'a, Measured>
    requires { depth ≤ 128 }
    ensures taken { IfOk result (λ r.
        Takes (AnExpr text.now 0 depth) (GoesExpr 0) (expr_tree r.0.expr) tokens.now r.1.now) }
    ensures height { IfOk result (λ r. r.0.height ≡ min (height (expr_tree r.0.expr)) 128) }
    ensures shorter { IfOk result (λ r. length r.1.now < length tokens.now) }
    ensures refused { IfErr result (IsRefused (AnyOf (AnExpr text.now 0 depth)) (GoesExpr 0) tokens.now) }
{
    let (first, rest) = read!(operand(alloc, text, depth, tokens));
    expr_from(alloc, text, depth, first, rest)
}

/// An expression, put on the heap.
#[cycle(expression)]
fn boxed_expr<'a>(alloc: Global, text: &[u8], depth: u8, tokens: &'a [Token]) -> Read<'a, Boxed>
    requires { depth ≤ 128 }
    ensures taken { IfOk result (λ r.
        Takes (AnExpr text.now 0 depth) (GoesExpr 0) (expr_tree r.0.expr.value) tokens.now r.1.now) }
    ensures height { IfOk result (λ r. r.0.height ≡ min (height (expr_tree r.0.expr.value)) 128) }
    ensures shorter { IfOk result (λ r. length r.1.now < length tokens.now) }
    ensures refused { IfErr result (IsRefused (AnyOf (AnExpr text.now 0 depth)) (GoesExpr 0) tokens.now) }
{
    let (whole, rest) = read!(whole(alloc, text, depth, tokens));
    let height = whole.height;
    let expr = Box::new(alloc, whole.expr)?;
    Ok((Boxed { expr, height }, rest))
}

/// The expression that begins with an operand, which stands before these tokens.
#[cycle(expression)]
pub fn expr_from<'a>(
    alloc: Global,
    text: &[u8],
    depth: u8,
    first: Measured,
    tokens: &'a [Token],
) -> Read<'a, Measured>
    requires within { depth ≤ 128 }
    requires height { first.height ≡ min (height (expr_tree first.expr)) 128 }
    ensures taken { IfOk result (λ r.
        Takes (IsExprFrom text.now depth (expr_tree first.expr)) (GoesExpr 0) (expr_tree r.0.expr) tokens.now r.1.now) }
    ensures height { IfOk result (λ r. r.0.height ≡ min (height (expr_tree r.0.expr)) 128) }
    ensures shorter { IfOk result (λ r. length r.1.now ≤ length tokens.now) }
    ensures refused { IfErr result
        (IsRefused (AnyOf (IsExprFrom text.now depth (expr_tree first.expr))) (GoesExpr 0) tokens.now) }
{
    let (test, rest) = read!(joined_from(alloc, text, depth, 1, first, tokens));
    choice_from(alloc, text, depth, test, rest)
}

/// The conditional expression that begins with a test, which stands before these tokens, or the test alone.
#[cycle(expression)]
fn choice_from<'a>(
    alloc: Global,
    text: &[u8],
    depth: u8,
    test: Measured,
    tokens: &'a [Token],
) -> Read<'a, Measured>
    requires within { depth ≤ 128 }
    requires height { test.height ≡ min (height (expr_tree test.expr)) 128 }
    ensures taken { IfOk result (λ r.
        Takes (IsChoiceFrom text.now depth (expr_tree test.expr)) (GoesExpr 0) (expr_tree r.0.expr)
        tokens.now r.1.now) }
    ensures height { IfOk result (λ r. r.0.height ≡ min (height (expr_tree r.0.expr)) 128) }
    ensures shorter { IfOk result (λ r. length r.1.now ≤ length tokens.now) }
    ensures refused { IfErr result
        (IsRefused (AnyOf (IsChoiceFrom text.now depth (expr_tree test.expr))) (GoesExpr 0) tokens.now) }
{
    if first_kind(tokens) != Some(TokenKind::Sign(Sign::Question)) {
        return Ok((test, tokens));
    }
    let height = test.height;
    let test = Box::new(alloc, test.expr)?;
    let (at, rest) = read!(open(depth, tokens, TokenKind::Sign(Sign::Question)));
    let (yes, rest) = read!(boxed_expr(alloc, text, depth + 1, rest));
    let (_, rest) = read!(need(rest, TokenKind::Sign(Sign::Colon)));
    let (no, rest) = read!(boxed_expr(alloc, text, depth + 1, rest));
    let height = above(height.max(yes.height).max(no.height));
    let expr = Expr::Conditional(at, test, yes.expr, no.expr);
    let whole = Measured { expr, height };
    Ok((whole, rest))
}

/// What an operand, which stands before these tokens, is joined to by operators that bind at least so strongly, each
/// no more strongly than the one before it.
#[cycle(expression)]
fn joined_from<'a>(
    alloc: Global,
    text: &[u8],
    depth: u8,
    least: u8,
    first: Measured,
    tokens: &'a [Token],
) -> Read<'a, Measured>
    requires within { depth ≤ 128 }
    requires least { 1 ≤ least }
    requires most { least ≤ 10 }
    requires height { first.height ≡ min (height (expr_tree first.expr)) 128 }
    ensures taken { IfOk result (λ r.
        Takes (ATail text.now least depth (expr_tree first.expr)) (GoesExpr least) (expr_tree r.0.expr)
        tokens.now r.1.now) }
    ensures height { IfOk result (λ r. r.0.height ≡ min (height (expr_tree r.0.expr)) 128) }
    ensures shorter { IfOk result (λ r. length r.1.now ≤ length tokens.now) }
    ensures refused { IfErr result
        (IsRefused (AnyOf (ATail text.now least depth (expr_tree first.expr))) (GoesExpr least) tokens.now) }
{
    let mut left = first;
    let mut rest = tokens;
    let mut most = 9;
    while let Some((operator, at, behind)) = infix_between(least, most, rest) {
        if left.height >= LIMIT {
            drop(left);
            return Err(Stop::TooDeep(rest));
        }
        let (joined, behind) = read!(joined(alloc, text, depth, left, operator, at, behind));
        left = joined;
        rest = behind;
        most = strength(operator);
    }
    Ok((left, rest))
}

/// A first token that is an operator which binds so strongly.
fn infix_between(least: u8, most: u8, tokens: &[Token]) -> Option<(Infix, Place, &[Token])>
    ensures taken { IfSome result (λ r.
        Takes (λ _. IsMark (token.Sign (infix_sign r.0))) Nothing r.1 tokens.now r.2.now) }
    ensures some { IfSome result (λ r. first_kind tokens.now ≡ Some (token.Sign (infix_sign r.0))) }
    ensures least { IfSome result (λ r. least ≤ infix_strength r.0) }
    ensures most { IfSome result (λ r. infix_strength r.0 ≤ most) }
    ensures shorter { IfSome result (λ r. length r.2.now < length tokens.now) }
    ensures none { IsNone result → (op : Infix) → least ≤ infix_strength op → infix_strength op ≤ most
        → first_kind tokens.now ≢ Some (token.Sign (infix_sign op)) }
{
    let (first, rest) = tokens.split_first()?;
    let operator = infix_of(first.kind)?;
    let strength = strength(operator);
    if least <= strength && strength <= most {
        Some((operator, first.place, rest))
    } else {
        None
    }
}

/// The left operand joined by this operator to the right one, with which the tokens begin.
#[cycle(expression)]
fn joined<'a>(
    alloc: Global,
    text: &[u8],
    depth: u8,
    left: Measured,
    operator: Infix,
    at: Place,
    tokens: &'a [Token],
) -> Read<'a, Measured>
    requires within { depth ≤ 128 }
    requires height { left.height ≡ min (height (expr_tree left.expr)) 128 }
    ensures taken { IfOk result (λ r.
        Takes (λ free. IsJoined text.now depth free (expr_tree left.expr) at operator) (GoesJoined operator)
        (expr_tree r.0.expr) tokens.now r.1.now) }
    ensures height { IfOk result (λ r. r.0.height ≡ min (height (expr_tree r.0.expr)) 128) }
    ensures shorter { IfOk result (λ r. length r.1.now < length tokens.now) }
    ensures refused { IfErr result
        (IsRefused (AnyOf (λ free. IsJoined text.now depth free (expr_tree left.expr) at operator))
        (GoesJoined operator) tokens.now) }
{
    let height = left.height;
    let left = Box::new(alloc, left.expr)?;
    match operator {
        Infix::Binary(binary) => {
            let (first, rest) = read!(operand(alloc, text, depth, tokens));
            let least = strength(operator) + 1;
            let (right, rest) = read!(joined_from(alloc, text, depth, least, first, rest));
            let height = above(height.max(right.height));
            let right = Box::new(alloc, right.expr)?;
            let expr = Expr::Binary(at, binary, left, right);
            Ok((Measured { expr, height }, rest))
        }
        Infix::Shift(shift) => {
            let (by, rest) = read!(number(text, tokens));
            let height = above(height);
            let expr = Expr::Shift(at, shift, left, by);
            Ok((Measured { expr, height }, rest))
        }
    }
}

/// A primary, or prefix operators before one.
#[cycle(expression)]
pub fn operand<'a>(alloc: Global, text: &[u8], depth: u8, tokens: &'a [Token]) -> Read<'a, Measured>
    requires { depth ≤ 128 }
    ensures taken { IfOk result (λ r.
        Takes (AnExpr text.now 10 depth) (GoesExpr 10) (expr_tree r.0.expr) tokens.now r.1.now) }
    ensures height { IfOk result (λ r. r.0.height ≡ min (height (expr_tree r.0.expr)) 128) }
    ensures shorter { IfOk result (λ r. length r.1.now < length tokens.now) }
    ensures refused { IfErr result (IsRefused (AnyOf (AnExpr text.now 10 depth)) (GoesExpr 10) tokens.now) }
{
    let Some(kind) = first_kind(tokens) else {
        return Err(Stop::Unexpected(tokens));
    };
    match prefix_of(kind) {
        None => primary(alloc, text, depth, kind, tokens),
        Some(operator) => prefixed(alloc, text, depth, operator, kind, tokens),
    }
}

/// A prefix operator and its operand.
#[cycle(expression)]
fn prefixed<'a>(
    alloc: Global,
    text: &[u8],
    depth: u8,
    operator: UnaryOperator,
    kind: TokenKind,
    tokens: &'a [Token],
) -> Read<'a, Measured>
    requires within { depth ≤ 128 }
    requires sign { kind ≡ token.Sign (unary_sign operator) }
    requires kind { first_kind tokens.now ≡ Some kind }
    ensures taken { IfOk result (λ r.
        Takes (AnExpr text.now 10 depth) (GoesExpr 10) (expr_tree r.0.expr) tokens.now r.1.now) }
    ensures height { IfOk result (λ r. r.0.height ≡ min (height (expr_tree r.0.expr)) 128) }
    ensures shorter { IfOk result (λ r. length r.1.now < length tokens.now) }
    ensures refused { IfErr result (IsRefused (AnyOf (AnExpr text.now 10 depth)) (GoesExpr 10) tokens.now) }
{
    let (at, rest) = read!(open(depth, tokens, kind));
    let (operand, rest) = read!(operand(alloc, text, depth + 1, rest));
    let height = above(operand.height);
    let operand = Box::new(alloc, operand.expr)?;
    let expr = Expr::Unary(at, operator, operand);
    Ok((Measured { expr, height }, rest))
}

/// A primary, whose first token is of this kind.
#[cycle(expression)]
fn primary<'a>(
    alloc: Global,
    text: &[u8],
    depth: u8,
    kind: TokenKind,
    tokens: &'a [Token],
) -> Read<'a, Measured>
    requires within { depth ≤ 128 }
    requires kind { first_kind tokens.now ≡ Some kind }
    requires primary { ¬ IsPrefix kind }
    ensures taken { IfOk result (λ r.
        Takes (AnExpr text.now 10 depth) (GoesExpr 10) (expr_tree r.0.expr) tokens.now r.1.now) }
    ensures height { IfOk result (λ r. r.0.height ≡ min (height (expr_tree r.0.expr)) 128) }
    ensures shorter { IfOk result (λ r. length r.1.now < length tokens.now) }
    ensures refused { IfErr result (IsRefused (AnyOf (AnExpr text.now 10 depth)) (GoesExpr 10) tokens.now) }
{
    match primary_at(tokens) {
        Some(Primary::Number) => {
            let (number, rest) = read!(number(text, tokens));
            Ok((low(Expr::Number(number)), rest))
        }
        Some(Primary::True) => {
            let (at, rest) = read!(need(tokens, TokenKind::Word(Word::True)));
            Ok((low(Expr::Truth(at, true)), rest))
        }
        Some(Primary::False) => {
            let (at, rest) = read!(need(tokens, TokenKind::Word(Word::False)));
            Ok((low(Expr::Truth(at, false)), rest))
        }
        Some(Primary::Place) => {
            let (path, rest) = read!(path(alloc, text, tokens));
            place_from(alloc, text, depth, path, rest)
        }
        Some(Primary::Group) => group(alloc, text, depth, tokens),
        Some(Primary::Cast) => cast(alloc, text, depth, tokens),
        None => Err(Stop::Unexpected(tokens)),
    }
}

/// An expression in parentheses, as an operand.
#[cycle(expression)]
fn group<'a>(alloc: Global, text: &[u8], depth: u8, tokens: &'a [Token]) -> Read<'a, Measured>
    requires within { depth ≤ 128 }
    requires primary { primary_at tokens.now ≡ Some Primary.Group }
    ensures taken { IfOk result (λ r.
        Takes (AnExpr text.now 10 depth) (GoesExpr 10) (expr_tree r.0.expr) tokens.now r.1.now) }
    ensures height { IfOk result (λ r. r.0.height ≡ min (height (expr_tree r.0.expr)) 128) }
    ensures shorter { IfOk result (λ r. length r.1.now < length tokens.now) }
    ensures refused { IfErr result (IsRefused (AnyOf (AnExpr text.now 10 depth)) (GoesExpr 10) tokens.now) }
{
    let (at, rest) = read!(open(depth, tokens, TokenKind::Sign(Sign::OpenParenthesis)));
    let (inner, rest) = read!(boxed_expr(alloc, text, depth + 1, rest));
    let (_, rest) = read!(need(rest, TokenKind::Sign(Sign::CloseParenthesis)));
    let height = above(inner.height);
    let expr = Expr::Group(at, inner.expr);
    Ok((Measured { expr, height }, rest))
}

/// `uint`, a width and an expression in parentheses.
#[cycle(expression)]
fn cast<'a>(alloc: Global, text: &[u8], depth: u8, tokens: &'a [Token]) -> Read<'a, Measured>
    requires within { depth ≤ 128 }
    requires primary { primary_at tokens.now ≡ Some Primary.Cast }
    ensures taken { IfOk result (λ r.
        Takes (AnExpr text.now 10 depth) (GoesExpr 10) (expr_tree r.0.expr) tokens.now r.1.now) }
    ensures height { IfOk result (λ r. r.0.height ≡ min (height (expr_tree r.0.expr)) 128) }
    ensures shorter { IfOk result (λ r. length r.1.now < length tokens.now) }
    ensures refused { IfErr result (IsRefused (AnyOf (AnExpr text.now 10 depth)) (GoesExpr 10) tokens.now) }
{
    let (at, rest) = read!(need(tokens, TokenKind::Word(Word::Uint)));
    let (width, rest) = read!(width(text, rest));
    let (inner, rest) = read!(enclosed(
        alloc,
        text,
        depth,
        Sign::OpenParenthesis,
        Sign::CloseParenthesis,
        rest,
    ));
    let height = above(inner.height);
    let inner = Box::new(alloc, inner.expr)?;
    let expr = Expr::Cast(at, width, inner);
    Ok((Measured { expr, height }, rest))
}

/// The place that begins with a path, which stands before these tokens: a variable or an element.
#[cycle(expression)]
pub fn place_from<'a>(
    alloc: Global,
    text: &[u8],
    depth: u8,
    path: Path,
    tokens: &'a [Token],
) -> Read<'a, Measured>
    requires { depth ≤ 128 }
    ensures taken { IfOk result (λ r.
        Takes (IsPlaceFrom text.now path.names.items depth) (GoesExpr 10) (expr_tree r.0.expr) tokens.now r.1.now) }
    ensures height { IfOk result (λ r. r.0.height ≡ min (height (expr_tree r.0.expr)) 128) }
    ensures shorter { IfOk result (λ r. length r.1.now ≤ length tokens.now) }
    ensures refused { IfErr result
        (IsRefused (AnyOf (IsPlaceFrom text.now path.names.items depth)) (GoesExpr 10) tokens.now) }
{
    if first_kind(tokens) != Some(TokenKind::Sign(Sign::OpenBracket)) {
        return Ok((low(Expr::Path(path)), tokens));
    }
    let (index, rest) = read!(enclosed(
        alloc,
        text,
        depth,
        Sign::OpenBracket,
        Sign::CloseBracket,
        tokens,
    ));
    let height = above(index.height);
    let index = Box::new(alloc, index.expr)?;
    let expr = Expr::Element(path, index);
    Ok((Measured { expr, height }, rest))
}

/// An expression between two signs, of which the second goes on with no expression.
#[cycle(expression)]
pub fn enclosed<'a>(
    alloc: Global,
    text: &[u8],
    depth: u8,
    opening: Sign,
    closing: Sign,
    tokens: &'a [Token],
) -> Read<'a, Measured>
    requires within { depth ≤ 128 }
    requires closes { ¬ GoesExpr 0 (Some (token.Sign closing)) }
    ensures taken { IfOk result (λ r.
        Takes (IsEnclosed text.now opening closing depth) Nothing (expr_tree r.0.expr) tokens.now r.1.now) }
    ensures height { IfOk result (λ r. r.0.height ≡ min (height (expr_tree r.0.expr)) 128) }
    ensures shorter { IfOk result (λ r. length r.1.now < length tokens.now) }
    ensures refused { IfErr result
        (IsRefused (AnyOf (IsEnclosed text.now opening closing depth)) Nothing tokens.now) }
{
    let (_, rest) = read!(open(depth, tokens, TokenKind::Sign(opening)));
    let (inner, rest) = read!(whole(alloc, text, depth + 1, rest));
    let (_, rest) = read!(need(rest, TokenKind::Sign(closing)), inner);
    Ok((inner, rest))
}
