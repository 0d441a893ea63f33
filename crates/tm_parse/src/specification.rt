//! Readers of templates, enums and whole specifications.

ghost use Rattle.std.specs.Prelude.{◌≡◌, ◌<◌, ◌≤◌, ◌∷◌, [], length, IfOk, IfErr};
ghost use Rattle.tm_syntax.specs.declared.token.TokenKind.TheVariants as token;
ghost use Rattle.tm_syntax.specs.declared.token.Sign.TheVariants as sign;
ghost use Rattle.tm_syntax.specs.Tree.View.{template_tree, enum_tree, spec_tree};
ghost use Rattle.tm_syntax.specs.Grammar.Parts.{AreParted};
ghost use Rattle.tm_syntax.specs.Grammar.Specification.{IsPort};
ghost use Rattle.tm_parse.specs.Reading.{first_kind, Takes, IsRefused, AnyOf, GoesOn, Nothing};
ghost use Rattle.tm_parse.specs.Commands.{GoesAt};
ghost use Rattle.tm_parse.specs.Items.{InParentheses, ADeclOf, decl_sort, GoesDecls, decl_tree, with_decls, IsExtended, IsHead, ATemplate, AnEnum, AnItem, item_tree, with_items, ASpec, GoesOnAtAll};

use crate::declarations::{instance, named, procedure, process, task, variable};
use crate::leaves::{name, names};
use crate::marks::{Read, first_kind, mark, need, open};
use crate::stop::Stop;
use std::alloc::{AllocError, Global};
use tm_syntax::token::{Sign, Token, TokenKind, Word};
use tm_syntax::tree::{
    EnumDef, InstanceDef, Named, Port, ProcessDef, Spec, TaskDef, Template, VarDef,
};

/// The declarations, by their first tokens.
#[derive(Clone, Copy)]
enum DeclSort {
    Instance,
    Variable,
    Goal,
    Fairness,
    Process,
    Task,
    Procedure,
}

/// One declaration of a template.
#[derive(Drop)]
enum Declaration {
    Instance(InstanceDef),
    Variable(VarDef),
    Goal(Named),
    Fairness(Named),
    Process(ProcessDef),
    Task(TaskDef),
}

/// One item of a specification.
#[derive(Drop)]
enum ItemDef {
    Enum(EnumDef),
    Template(Template),
}

/// The declaration that begins here.
fn decl_sort(tokens: &[Token]) -> Option<DeclSort>
    ensures { result ≡ decl_sort (first_kind tokens.now) }
{
    match tokens.first()?.kind {
        TokenKind::Name => Some(DeclSort::Variable),
        TokenKind::Word(Word::Bool) => Some(DeclSort::Variable),
        TokenKind::Word(Word::Uint) => Some(DeclSort::Variable),
        TokenKind::Word(Word::Instance) => Some(DeclSort::Instance),
        TokenKind::Word(Word::Goal) => Some(DeclSort::Goal),
        TokenKind::Word(Word::Fair) => Some(DeclSort::Fairness),
        TokenKind::Word(Word::Lazy) => Some(DeclSort::Process),
        TokenKind::Word(Word::Process) => Some(DeclSort::Process),
        TokenKind::Word(Word::Task) => Some(DeclSort::Task),
        TokenKind::Word(Word::Procedure) => Some(DeclSort::Procedure),
        _ => None,
    }
}

/// A declaration of this sort.
fn decl<'a>(
    alloc: Global,
    text: &[u8],
    sort: DeclSort,
    tokens: &'a [Token],
) -> Read<'a, Declaration>
    ensures taken { IfOk result (λ r. Takes (ADeclOf text.now sort) Nothing (decl_tree r.0) tokens.now r.1.now) }
    ensures shorter { IfOk result (λ r. length r.1.now < length tokens.now) }
    ensures refused { IfErr result (IsRefused (AnyOf (ADeclOf text.now sort)) Nothing tokens.now) }
{
    match sort {
        DeclSort::Instance => {
            let (instance, rest) = read!(instance(alloc, text, 0, tokens));
            Ok((Declaration::Instance(instance), rest))
        }
        DeclSort::Variable => {
            let (variable, rest) = read!(variable(alloc, text, tokens));
            Ok((Declaration::Variable(variable), rest))
        }
        DeclSort::Goal => {
            let (_, rest) = read!(need(tokens, TokenKind::Word(Word::Goal)));
            let (goal, rest) = read!(named(alloc, text, 0, rest));
            Ok((Declaration::Goal(goal), rest))
        }
        DeclSort::Fairness => {
            let (_, rest) = read!(need(tokens, TokenKind::Word(Word::Fair)));
            let (fairness, rest) = read!(named(alloc, text, 0, rest));
            Ok((Declaration::Fairness(fairness), rest))
        }
        DeclSort::Process => {
            let (process, rest) = read!(process(alloc, text, 0, tokens));
            Ok((Declaration::Process(process), rest))
        }
        DeclSort::Task => {
            let (task, rest) = read!(task(alloc, text, 0, tokens));
            Ok((Declaration::Task(task), rest))
        }
        DeclSort::Procedure => {
            let (procedure, rest) = read!(procedure(alloc, text, 0, tokens));
            Ok((Declaration::Task(procedure), rest))
        }
    }
}

/// Adds a declaration to a template, behind those of its kind.
fn push_decl(template: &mut Template, decl: Declaration) -> Result<(), AllocError>
    ensures { IfOk result (λ _.
        template_tree template.new ≡ with_decls (template_tree template.old) (decl_tree decl ∷ [])) }
{
    match decl {
        Declaration::Instance(instance) => {
            template.instances.push(instance)?;
            Ok(())
        }
        Declaration::Variable(variable) => {
            template.vars.push(variable)?;
            Ok(())
        }
        Declaration::Goal(goal) => {
            template.goals.push(goal)?;
            Ok(())
        }
        Declaration::Fairness(fairness) => {
            template.fairs.push(fairness)?;
            Ok(())
        }
        Declaration::Process(process) => {
            template.processes.push(process)?;
            Ok(())
        }
        Declaration::Task(task) => {
            template.tasks.push(task)?;
            Ok(())
        }
    }
}

/// A port.
fn port<'a>(alloc: Global, text: &[u8], tokens: &'a [Token]) -> Read<'a, Port>
    ensures taken { IfOk result (λ r. Takes (λ _. IsPort text.now) Nothing r.0 tokens.now r.1.now) }
    ensures shorter { IfOk result (λ r. length r.1.now < length tokens.now) }
    ensures refused { IfErr result (IsRefused (AnyOf (λ _. IsPort text.now)) Nothing tokens.now) }
{
    let (template, rest) = read!(name(alloc, text, tokens));
    let (name, rest) = read!(name(alloc, text, rest));
    Ok((Port { template, name }, rest))
}

/// Ports with commas between them.
fn listed_ports<'a>(alloc: Global, text: &[u8], tokens: &'a [Token]) -> Read<'a, Vec<Port>>
    ensures taken { IfOk result (λ r.
        Takes (λ _. AreParted sign.Comma (IsPort text.now)) (GoesOn sign.Comma Nothing) r.0.items tokens.now r.1.now) }
    ensures shorter { IfOk result (λ r. length r.1.now < length tokens.now) }
    ensures refused { IfErr result
        (IsRefused (AnyOf (λ _. AreParted sign.Comma (IsPort text.now))) (GoesOn sign.Comma Nothing) tokens.now) }
{
    let (first, rest) = read!(port(alloc, text, tokens));
    let mut ports = Vec::new(alloc);
    ports.push(first)?;
    let mut rest = rest;
    while let Some((_, behind)) = mark(rest, TokenKind::Sign(Sign::Comma)) {
        let (next, behind) = read!(port(alloc, text, behind));
        ports.push(next)?;
        rest = behind;
    }
    Ok((ports, rest))
}

/// Ports in their parentheses, if they stand here.
fn ports<'a>(alloc: Global, text: &[u8], tokens: &'a [Token]) -> Read<'a, Vec<Port>>
    ensures taken { IfOk result (λ r.
        Takes (InParentheses 0 (λ _. IsPort text.now)) (GoesAt (token.Sign sign.OpenParenthesis)) r.0.items
        tokens.now r.1.now) }
    ensures shorter { IfOk result (λ r. length r.1.now ≤ length tokens.now) }
    ensures refused { IfErr result
        (IsRefused (AnyOf (InParentheses 0 (λ _. IsPort text.now))) (GoesAt (token.Sign sign.OpenParenthesis))
        tokens.now) }
{
    if first_kind(tokens) != Some(TokenKind::Sign(Sign::OpenParenthesis)) {
        return Ok((Vec::new(alloc), tokens));
    }
    let (_, rest) = read!(open(0, tokens, TokenKind::Sign(Sign::OpenParenthesis)));
    let (ports, rest) = read!(listed_ports(alloc, text, rest));
    let (_, rest) = read!(need(rest, TokenKind::Sign(Sign::CloseParenthesis)));
    Ok((ports, rest))
}

/// The head of a template, which declares nothing yet.
fn head<'a>(alloc: Global, text: &[u8], tokens: &'a [Token]) -> Read<'a, Template>
    ensures taken { IfOk result (λ r.
        Takes (IsHead text.now) (GoesAt (token.Sign sign.OpenParenthesis)) (template_tree r.0) tokens.now r.1.now) }
    ensures shorter { IfOk result (λ r. length r.1.now < length tokens.now) }
    ensures refused { IfErr result
        (IsRefused (AnyOf (IsHead text.now)) (GoesAt (token.Sign sign.OpenParenthesis)) tokens.now) }
{
    let (_, rest) = read!(need(tokens, TokenKind::Word(Word::Template)));
    let (name, rest) = read!(name(alloc, text, rest));
    let (ports, rest) = read!(ports(alloc, text, rest));
    Ok((
        Template {
            name,
            ports,
            instances: Vec::new(alloc),
            vars: Vec::new(alloc),
            goals: Vec::new(alloc),
            fairs: Vec::new(alloc),
            processes: Vec::new(alloc),
            tasks: Vec::new(alloc),
        },
        rest,
    ))
}

/// Declarations, as many as stand here, added to a template.
fn extended<'a>(
    alloc: Global,
    text: &[u8],
    template: Template,
    tokens: &'a [Token],
) -> Read<'a, Template>
    ensures taken { IfOk result (λ r.
        Takes (IsExtended text.now (template_tree template)) GoesDecls (template_tree r.0) tokens.now r.1.now) }
    ensures shorter { IfOk result (λ r. length r.1.now ≤ length tokens.now) }
    ensures refused { IfErr result
        (IsRefused (AnyOf (IsExtended text.now (template_tree template))) GoesDecls tokens.now) }
{
    let mut template = template;
    let mut rest = tokens;
    while let Some(sort) = decl_sort(rest) {
        let (decl, behind) = read!(decl(alloc, text, sort, rest), template);
        push_decl(&mut template, decl)?;
        rest = behind;
    }
    Ok((template, rest))
}

/// A template.
fn template<'a>(alloc: Global, text: &[u8], tokens: &'a [Token]) -> Read<'a, Template>
    ensures taken { IfOk result (λ r. Takes (ATemplate text.now) Nothing (template_tree r.0) tokens.now r.1.now) }
    ensures shorter { IfOk result (λ r. length r.1.now < length tokens.now) }
    ensures refused { IfErr result (IsRefused (AnyOf (ATemplate text.now)) Nothing tokens.now) }
{
    let (head, rest) = read!(head(alloc, text, tokens));
    let (template, rest) = read!(extended(alloc, text, head, rest));
    let (_, rest) = read!(need(rest, TokenKind::Word(Word::EndTemplate)), template);
    Ok((template, rest))
}

/// An enum.
fn enum_def<'a>(alloc: Global, text: &[u8], tokens: &'a [Token]) -> Read<'a, EnumDef>
    ensures taken { IfOk result (λ r. Takes (AnEnum text.now) Nothing (enum_tree r.0) tokens.now r.1.now) }
    ensures shorter { IfOk result (λ r. length r.1.now < length tokens.now) }
    ensures refused { IfErr result (IsRefused (AnyOf (AnEnum text.now)) Nothing tokens.now) }
{
    let (_, rest) = read!(need(tokens, TokenKind::Word(Word::Typedef)));
    let (_, rest) = read!(need(rest, TokenKind::Word(Word::Enum)));
    let (_, rest) = read!(open(0, rest, TokenKind::Sign(Sign::OpenBrace)));
    let (constants, rest) = read!(names(alloc, text, Sign::Comma, rest));
    let (_, rest) = read!(need(rest, TokenKind::Sign(Sign::CloseBrace)));
    let (name, rest) = read!(name(alloc, text, rest));
    let (_, rest) = read!(need(rest, TokenKind::Sign(Sign::Semicolon)));
    Ok((EnumDef { name, constants }, rest))
}

/// An item: an enum or a template.
fn item<'a>(alloc: Global, text: &[u8], tokens: &'a [Token]) -> Read<'a, ItemDef>
    ensures taken { IfOk result (λ r. Takes (AnItem text.now) Nothing (item_tree r.0) tokens.now r.1.now) }
    ensures shorter { IfOk result (λ r. length r.1.now < length tokens.now) }
    ensures refused { IfErr result (IsRefused (AnyOf (AnItem text.now)) Nothing tokens.now) }
{
    if first_kind(tokens) == Some(TokenKind::Word(Word::Typedef)) {
        let (enum_def, rest) = read!(enum_def(alloc, text, tokens));
        return Ok((ItemDef::Enum(enum_def), rest));
    }
    let (template, rest) = read!(template(alloc, text, tokens));
    Ok((ItemDef::Template(template), rest))
}

/// Adds an item to a specification, behind those of its kind.
fn push_item(spec: &mut Spec, item: ItemDef) -> Result<(), AllocError>
    ensures { IfOk result (λ _. spec_tree spec.new ≡ with_items (spec_tree spec.old) (item_tree item ∷ [])) }
{
    match item {
        ItemDef::Enum(enum_def) => {
            spec.enums.push(enum_def)?;
            Ok(())
        }
        ItemDef::Template(template) => {
            spec.templates.push(template)?;
            Ok(())
        }
    }
}

/// A specification, behind which nothing may stand.
pub fn spec<'a>(alloc: Global, text: &[u8], tokens: &'a [Token]) -> Result<Spec, Stop<'a>>
    ensures taken { IfOk result (λ spec. Takes (ASpec text.now) GoesOnAtAll (spec_tree spec) tokens.now []) }
    ensures refused { IfErr result (IsRefused (AnyOf (ASpec text.now)) GoesOnAtAll tokens.now) }
{
    let mut spec = Spec {
        enums: Vec::new(alloc),
        templates: Vec::new(alloc),
    };
    let (first, rest) = read!(item(alloc, text, tokens));
    push_item(&mut spec, first)?;
    let mut rest = rest;
    while !rest.is_empty() {
        let (next, behind) = read!(item(alloc, text, rest));
        push_item(&mut spec, next)?;
        rest = behind;
    }
    Ok(spec)
}
