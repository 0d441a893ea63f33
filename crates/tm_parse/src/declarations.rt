//! Readers of what a template declares.

ghost use Rattle.std.specs.Prelude.{◌≡◌, ◌<◌, ◌≤◌, ◌∷◌, [], map, length, IfOk, IfErr};
ghost use Rattle.std.specs.Option.{option_map};
ghost use Rattle.tm_syntax.specs.declared.token.TokenKind.TheVariants as token;
ghost use Rattle.tm_syntax.specs.declared.token.Word.TheVariants as word;
ghost use Rattle.tm_syntax.specs.declared.token.Sign.TheVariants as sign;
ghost use Rattle.tm_syntax.specs.Tree.View.{expr_tree, var_tree, named_tree, instance_tree, process_tree, task_tree};
ghost use Rattle.tm_syntax.specs.Grammar.Parts.{IsName, AreParted, IsOptional};
ghost use Rattle.tm_syntax.specs.Grammar.Declarations.{IsLiteral, IsLength, IsInitial, IsVar, IsParam};
ghost use Rattle.tm_syntax.specs.declared.tree.Ident.{Ident};
ghost use Rattle.tm_syntax.specs.Tree.{path};
ghost use Rattle.tm_parse.specs.Reading.{Takes, IsRefused, AnyOf, GoesOn, Nothing};
ghost use Rattle.tm_parse.specs.Commands.{GoesAt, InArguments};
ghost use Rattle.tm_parse.specs.Items.{ANamed, InParentheses, AnInstance, AProcess, IsLaziness, IsTaskKind, IsResult, IsProcedureKind, IsHeading, IsControlled, IsProcedure};

use crate::bodies::{answering_body, silent_body};
use crate::expressions::expr;
use crate::leaves::{name, names, number, type_name};
use crate::marks::{Read, first_kind, mark, need, open};
use std::alloc::Global;
use tm_syntax::token::{Sign, Token, TokenKind, Word};
use tm_syntax::tree::{
    Expr, Ident, InstanceDef, Named, Num, Param, Path, ProcessDef, TaskDef, TaskKind, TypeName,
    VarDef,
};

/// The value of a variable at the start: a number, a truth or a constant's name.
fn literal<'a>(alloc: Global, text: &[u8], tokens: &'a [Token]) -> Read<'a, Expr>
    ensures taken { IfOk result (λ r. Takes (λ _. IsLiteral text.now) Nothing (expr_tree r.0) tokens.now r.1.now) }
    ensures shorter { IfOk result (λ r. length r.1.now < length tokens.now) }
    ensures refused { IfErr result (IsRefused (AnyOf (λ _. IsLiteral text.now)) Nothing tokens.now) }
{
    if first_kind(tokens) == Some(TokenKind::Number) {
        let (number, rest) = read!(number(text, tokens));
        return Ok((Expr::Number(number), rest));
    }
    if let Some((at, rest)) = mark(tokens, TokenKind::Word(Word::True)) {
        return Ok((Expr::Truth(at, true), rest));
    }
    if let Some((at, rest)) = mark(tokens, TokenKind::Word(Word::False)) {
        return Ok((Expr::Truth(at, false), rest));
    }
    constant(alloc, text, tokens)
}

/// A constant's name.
fn constant<'a>(alloc: Global, text: &[u8], tokens: &'a [Token]) -> Read<'a, Expr>
    ensures taken { IfOk result (λ r. (name : Ident) × (expr_tree r.0 ≡ path (name ∷ []))
        × Takes (λ _. IsName text.now) Nothing name tokens.now r.1.now) }
    ensures shorter { IfOk result (λ r. length r.1.now < length tokens.now) }
    ensures refused { IfErr result (IsRefused (AnyOf (λ _. IsName text.now)) Nothing tokens.now) }
{
    let (name, rest) = read!(name(alloc, text, tokens));
    let mut names = Vec::new(alloc);
    names.push(name)?;
    Ok((Expr::Path(Path { names }), rest))
}

/// The length of an array in its brackets, which open no level, if it stands here.
fn length<'a>(text: &[u8], tokens: &'a [Token]) -> Read<'a, Option<Num>>
    ensures taken { IfOk result (λ r.
        Takes (λ _. IsOptional (IsLength text.now)) (GoesAt (token.Sign sign.OpenBracket)) r.0 tokens.now r.1.now) }
    ensures shorter { IfOk result (λ r. length r.1.now ≤ length tokens.now) }
    ensures refused { IfErr result
        (IsRefused (AnyOf (λ _. IsOptional (IsLength text.now))) (GoesAt (token.Sign sign.OpenBracket)) tokens.now) }
{
    let Some((_, rest)) = mark(tokens, TokenKind::Sign(Sign::OpenBracket)) else {
        return Ok((None, tokens));
    };
    let (length, rest) = read!(number(text, rest));
    let (_, rest) = read!(need(rest, TokenKind::Sign(Sign::CloseBracket)));
    Ok((Some(length), rest))
}

/// `=` and a literal, if they stand here.
fn initial<'a>(alloc: Global, text: &[u8], tokens: &'a [Token]) -> Read<'a, Option<Expr>>
    ensures taken { IfOk result (λ r.
        Takes (λ _. IsOptional (IsInitial text.now)) (GoesAt (token.Sign sign.Assign)) (option_map expr_tree r.0)
        tokens.now r.1.now) }
    ensures shorter { IfOk result (λ r. length r.1.now ≤ length tokens.now) }
    ensures refused { IfErr result
        (IsRefused (AnyOf (λ _. IsOptional (IsInitial text.now))) (GoesAt (token.Sign sign.Assign)) tokens.now) }
{
    let Some((_, rest)) = mark(tokens, TokenKind::Sign(Sign::Assign)) else {
        return Ok((None, tokens));
    };
    let (literal, rest) = read!(literal(alloc, text, rest));
    Ok((Some(literal), rest))
}

/// A variable or an array.
pub fn variable<'a>(alloc: Global, text: &[u8], tokens: &'a [Token]) -> Read<'a, VarDef>
    ensures taken { IfOk result (λ r. Takes (λ _. IsVar text.now) Nothing (var_tree r.0) tokens.now r.1.now) }
    ensures shorter { IfOk result (λ r. length r.1.now < length tokens.now) }
    ensures refused { IfErr result (IsRefused (AnyOf (λ _. IsVar text.now)) Nothing tokens.now) }
{
    let (ty, rest) = read!(type_name(alloc, text, tokens));
    let (name, rest) = read!(name(alloc, text, rest));
    let (length, rest) = read!(length(text, rest));
    let (init, rest) = read!(initial(alloc, text, rest));
    let (_, rest) = read!(need(rest, TokenKind::Sign(Sign::Semicolon)), init);
    Ok((
        VarDef {
            ty,
            name,
            length,
            init,
        },
        rest,
    ))
}

/// The name, `=` and the expression of a goal or a fairness condition.
pub fn named<'a>(alloc: Global, text: &[u8], depth: u8, tokens: &'a [Token]) -> Read<'a, Named>
    requires { depth ≤ 128 }
    ensures taken { IfOk result (λ r. Takes (ANamed text.now depth) Nothing (named_tree r.0) tokens.now r.1.now) }
    ensures shorter { IfOk result (λ r. length r.1.now < length tokens.now) }
    ensures refused { IfErr result (IsRefused (AnyOf (ANamed text.now depth)) Nothing tokens.now) }
{
    let (name, rest) = read!(name(alloc, text, tokens));
    let (_, rest) = read!(need(rest, TokenKind::Sign(Sign::Assign)));
    let (expr, rest) = read!(expr(alloc, text, depth, rest));
    let (_, rest) = read!(need(rest, TokenKind::Sign(Sign::Semicolon)), expr);
    Ok((Named { name, expr }, rest))
}

/// The names that an instance's ports stand for, in their parentheses, if they stand here.
fn port_names<'a>(
    alloc: Global,
    text: &[u8],
    depth: u8,
    tokens: &'a [Token],
) -> Read<'a, Vec<Ident>>
    ensures taken { IfOk result (λ r.
        Takes (InParentheses depth (λ _. IsName text.now)) (GoesAt (token.Sign sign.OpenParenthesis)) r.0.items
        tokens.now r.1.now) }
    ensures shorter { IfOk result (λ r. length r.1.now ≤ length tokens.now) }
    ensures refused { IfErr result
        (IsRefused (AnyOf (InParentheses depth (λ _. IsName text.now))) (GoesAt (token.Sign sign.OpenParenthesis))
        tokens.now) }
{
    if first_kind(tokens) != Some(TokenKind::Sign(Sign::OpenParenthesis)) {
        return Ok((Vec::new(alloc), tokens));
    }
    let (_, rest) = read!(open(depth, tokens, TokenKind::Sign(Sign::OpenParenthesis)));
    let (names, rest) = read!(names(alloc, text, Sign::Comma, rest));
    let (_, rest) = read!(need(rest, TokenKind::Sign(Sign::CloseParenthesis)));
    Ok((names, rest))
}

/// An instance.
pub fn instance<'a>(
    alloc: Global,
    text: &[u8],
    depth: u8,
    tokens: &'a [Token],
) -> Read<'a, InstanceDef>
    ensures taken { IfOk result (λ r.
        Takes (AnInstance text.now depth) Nothing (instance_tree r.0) tokens.now r.1.now) }
    ensures shorter { IfOk result (λ r. length r.1.now < length tokens.now) }
    ensures refused { IfErr result (IsRefused (AnyOf (AnInstance text.now depth)) Nothing tokens.now) }
{
    let (_, rest) = read!(need(tokens, TokenKind::Word(Word::Instance)));
    let (template, rest) = read!(name(alloc, text, rest));
    let (name, rest) = read!(name(alloc, text, rest));
    let (args, rest) = read!(port_names(alloc, text, depth, rest));
    let (_, rest) = read!(need(rest, TokenKind::Sign(Sign::Semicolon)));
    Ok((
        InstanceDef {
            template,
            name,
            args,
        },
        rest,
    ))
}

/// A process, lazy or not.
pub fn process<'a>(
    alloc: Global,
    text: &[u8],
    depth: u8,
    tokens: &'a [Token],
) -> Read<'a, ProcessDef>
    requires { depth ≤ 128 }
    ensures taken { IfOk result (λ r. Takes (AProcess text.now depth) Nothing (process_tree r.0) tokens.now r.1.now) }
    ensures shorter { IfOk result (λ r. length r.1.now < length tokens.now) }
    ensures refused { IfErr result (IsRefused (AnyOf (AProcess text.now depth)) Nothing tokens.now) }
{
    let (lazy, rest) = laziness(tokens);
    let (_, rest) = read!(need(rest, TokenKind::Word(Word::Process)));
    let (name, rest) = read!(name(alloc, text, rest));
    let (body, rest) = read!(silent_body(alloc, text, depth, rest));
    Ok((ProcessDef { lazy, name, body }, rest))
}

/// Whether `lazy` stands here.
fn laziness(tokens: &[Token]) -> (bool, &[Token])
    ensures taken { Takes (λ _. IsLaziness) (GoesAt (token.Word word.Lazy)) result.0 tokens.now result.1.now }
    ensures shorter { length result.1.now ≤ length tokens.now }
{
    match mark(tokens, TokenKind::Word(Word::Lazy)) {
        None => (false, tokens),
        Some((_, rest)) => (true, rest),
    }
}

/// A parameter.
fn param<'a>(alloc: Global, text: &[u8], tokens: &'a [Token]) -> Read<'a, Param>
    ensures taken { IfOk result (λ r. Takes (λ _. IsParam text.now) Nothing r.0 tokens.now r.1.now) }
    ensures shorter { IfOk result (λ r. length r.1.now < length tokens.now) }
    ensures refused { IfErr result (IsRefused (AnyOf (λ _. IsParam text.now)) Nothing tokens.now) }
{
    let (ty, rest) = read!(type_name(alloc, text, tokens));
    let (name, rest) = read!(name(alloc, text, rest));
    Ok((Param { ty, name }, rest))
}

/// Parameters with commas between them.
fn listed_params<'a>(alloc: Global, text: &[u8], tokens: &'a [Token]) -> Read<'a, Vec<Param>>
    ensures taken { IfOk result (λ r.
        Takes (λ _. AreParted sign.Comma (IsParam text.now)) (GoesOn sign.Comma Nothing) r.0.items tokens.now r.1.now) }
    ensures shorter { IfOk result (λ r. length r.1.now < length tokens.now) }
    ensures refused { IfErr result
        (IsRefused (AnyOf (λ _. AreParted sign.Comma (IsParam text.now))) (GoesOn sign.Comma Nothing) tokens.now) }
{
    let (first, rest) = read!(param(alloc, text, tokens));
    let mut params = Vec::new(alloc);
    params.push(first)?;
    let mut rest = rest;
    while let Some((_, behind)) = mark(rest, TokenKind::Sign(Sign::Comma)) {
        let (next, behind) = read!(param(alloc, text, behind));
        params.push(next)?;
        rest = behind;
    }
    Ok((params, rest))
}

/// Parameters in their parentheses.
fn params<'a>(alloc: Global, text: &[u8], depth: u8, tokens: &'a [Token]) -> Read<'a, Vec<Param>>
    ensures taken { IfOk result (λ r.
        Takes (InArguments depth (λ _. IsParam text.now)) Nothing r.0.items tokens.now r.1.now) }
    ensures shorter { IfOk result (λ r. length r.1.now < length tokens.now) }
    ensures refused { IfErr result (IsRefused (AnyOf (InArguments depth (λ _. IsParam text.now))) Nothing tokens.now) }
{
    let (_, rest) = read!(open(depth, tokens, TokenKind::Sign(Sign::OpenParenthesis)));
    if let Some((_, rest)) = mark(rest, TokenKind::Sign(Sign::CloseParenthesis)) {
        return Ok((Vec::new(alloc), rest));
    }
    let (params, rest) = read!(listed_params(alloc, text, rest));
    let (_, rest) = read!(need(rest, TokenKind::Sign(Sign::CloseParenthesis)));
    Ok((params, rest))
}

/// The name and the parameters of a task.
fn heading<'a>(
    alloc: Global,
    text: &[u8],
    depth: u8,
    tokens: &'a [Token],
) -> Read<'a, (Ident, Vec<Param>)>
    ensures taken { IfOk result (λ r.
        Takes (IsHeading text.now depth) Nothing (r.0.0, r.0.1.items) tokens.now r.1.now) }
    ensures shorter { IfOk result (λ r. length r.1.now < length tokens.now) }
    ensures refused { IfErr result (IsRefused (AnyOf (IsHeading text.now depth)) Nothing tokens.now) }
{
    let (name, rest) = read!(name(alloc, text, tokens));
    let (params, rest) = read!(params(alloc, text, depth, rest));
    Ok(((name, params), rest))
}

/// `task`, and whether the driver may call it.
fn task_kind(tokens: &[Token]) -> Read<'_, TaskKind>
    ensures taken { IfOk result (λ r. Takes (λ _. IsTaskKind) Nothing r.0 tokens.now r.1.now) }
    ensures shorter { IfOk result (λ r. length r.1.now < length tokens.now) }
    ensures refused { IfErr result (IsRefused (AnyOf (λ _. IsTaskKind)) Nothing tokens.now) }
{
    let (_, rest) = read!(need(tokens, TokenKind::Word(Word::Task)));
    if let Some((_, rest)) = mark(rest, TokenKind::Word(Word::Controllable)) {
        return Ok((TaskKind::Controllable, rest));
    }
    let (_, rest) = read!(need(rest, TokenKind::Word(Word::Uncontrollable)));
    Ok((TaskKind::Uncontrollable, rest))
}

/// The type of a result, or `void`.
fn result_type<'a>(alloc: Global, text: &[u8], tokens: &'a [Token]) -> Read<'a, Option<TypeName>>
    ensures taken { IfOk result (λ r. Takes (λ _. IsResult text.now) Nothing r.0 tokens.now r.1.now) }
    ensures shorter { IfOk result (λ r. length r.1.now < length tokens.now) }
    ensures refused { IfErr result (IsRefused (AnyOf (λ _. IsResult text.now)) Nothing tokens.now) }
{
    if let Some((_, rest)) = mark(tokens, TokenKind::Word(Word::Void)) {
        return Ok((None, rest));
    }
    let (ty, rest) = read!(type_name(alloc, text, tokens));
    Ok((Some(ty), rest))
}

/// `procedure`, and the type of its result.
fn procedure_kind<'a>(alloc: Global, text: &[u8], tokens: &'a [Token]) -> Read<'a, TaskKind>
    ensures taken { IfOk result (λ r. Takes (λ _. IsProcedureKind text.now) Nothing r.0 tokens.now r.1.now) }
    ensures shorter { IfOk result (λ r. length r.1.now < length tokens.now) }
    ensures refused { IfErr result (IsRefused (AnyOf (λ _. IsProcedureKind text.now)) Nothing tokens.now) }
{
    let (_, rest) = read!(need(tokens, TokenKind::Word(Word::Procedure)));
    let (ty, rest) = read!(result_type(alloc, text, rest));
    Ok((TaskKind::Procedure(ty), rest))
}

/// A task.
pub fn task<'a>(alloc: Global, text: &[u8], depth: u8, tokens: &'a [Token]) -> Read<'a, TaskDef>
    requires { depth ≤ 128 }
    ensures taken { IfOk result (λ r. Takes (IsControlled text.now depth) Nothing (task_tree r.0) tokens.now r.1.now) }
    ensures shorter { IfOk result (λ r. length r.1.now < length tokens.now) }
    ensures refused { IfErr result (IsRefused (AnyOf (IsControlled text.now depth)) Nothing tokens.now) }
{
    let (kind, rest) = read!(task_kind(tokens));
    let ((name, params), rest) = read!(heading(alloc, text, depth, rest));
    let (body, rest) = read!(silent_body(alloc, text, depth, rest));
    Ok((
        TaskDef {
            kind,
            name,
            params,
            body,
        },
        rest,
    ))
}

/// A procedure.
pub fn procedure<'a>(
    alloc: Global,
    text: &[u8],
    depth: u8,
    tokens: &'a [Token],
) -> Read<'a, TaskDef>
    requires { depth ≤ 128 }
    ensures taken { IfOk result (λ r. Takes (IsProcedure text.now depth) Nothing (task_tree r.0) tokens.now r.1.now) }
    ensures shorter { IfOk result (λ r. length r.1.now < length tokens.now) }
    ensures refused { IfErr result (IsRefused (AnyOf (IsProcedure text.now depth)) Nothing tokens.now) }
{
    let (kind, rest) = read!(procedure_kind(alloc, text, tokens));
    let ((name, params), rest) = read!(heading(alloc, text, depth, rest));
    let (body, rest) = read!(answering_body(alloc, text, depth, rest));
    Ok((
        TaskDef {
            kind,
            name,
            params,
            body,
        },
        rest,
    ))
}
