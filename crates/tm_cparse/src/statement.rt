//! Readers of what blocks do.
ghost use Rattle.std.specs.Prelude.{◌≡◌, ◌<◌, ◌≤◌, [], ◌∷◌, map, length, IfOk, IfErr};
ghost use Rattle.tm_cir.specs.Text.Token.{word, task, if_word, termite_leave, return_word};
ghost use Rattle.std.specs.Option.{option_map};
ghost use Rattle.tm_cparse.specs.View.{token_tree, tokens_of, statement_tree, written_tree};
ghost use Rattle.tm_cparse.specs.Written.{AreWritten};
ghost use Rattle.tm_cparse.specs.Inner.Blocks.{IsBlock, AreBlocksLeft, IsFunction, IsNoFunction};
ghost use Rattle.tm_cparse.specs.Inner.Reading.{IsRefused};
ghost use Rattle.tm_cparse.specs.Inner.Statements.{IsStatement, first_token, beginning_of};

use crate::call::arguments;
use crate::expression::truth;
use crate::row::{Slot, row};
use crate::spot::{Read, Spot, Stop, need_sign, parted, taken};
use crate::token::{Sign, Token, Word};
use std::alloc::Global;
use tm_cir::{Num64, Truth};

/// A block as it is written, with the label before it; nothing is known of labels and of the process that leaves.
#[derive(Drop)]
pub struct Labelled {
    pub label: u64,
    pub statement: Statement,
}

/// A statement of the function: a test with the labels of both branches, a call of a task with its arguments, a leave
/// of a process's magic block, or nothing.
#[derive(Drop)]
pub enum Statement {
    Test(Truth, u64, u64),
    Call(u32, Vec<Num64>),
    Leave(u64),
    Idle,
}

/// What begins the function.
const HEAD: [Slot; 6] = [
    Slot::Given(Token::Word(Word::Void)),
    Slot::Given(Token::Word(Word::DriverTurn)),
    Slot::Given(Token::Sign(Sign::OpenParenthesis)),
    Slot::Given(Token::Word(Word::Void)),
    Slot::Given(Token::Sign(Sign::CloseParenthesis)),
    Slot::Given(Token::Sign(Sign::OpenBrace)),
];

/// What stands before what a block does.
const LABEL: [Slot; 2] = [Slot::Label, Slot::Given(Token::Sign(Sign::Colon))];

/// What follows the condition of a test.
const BRANCHES: [Slot; 8] = [
    Slot::Given(Token::Sign(Sign::CloseParenthesis)),
    Slot::Given(Token::Word(Word::Goto)),
    Slot::Label,
    Slot::Given(Token::Sign(Sign::Semicolon)),
    Slot::Given(Token::Word(Word::Else)),
    Slot::Given(Token::Word(Word::Goto)),
    Slot::Label,
    Slot::Given(Token::Sign(Sign::Semicolon)),
];

/// What follows `termite_leave`.
const LEAVE: [Slot; 6] = [
    Slot::Given(Token::Sign(Sign::OpenParenthesis)),
    Slot::Constant,
    Slot::Given(Token::Sign(Sign::CloseParenthesis)),
    Slot::Given(Token::Sign(Sign::Semicolon)),
    Slot::Given(Token::Word(Word::Return)),
    Slot::Given(Token::Sign(Sign::Semicolon)),
];

/// What follows the arguments of a call.
const END: [Slot; 3] = [
    Slot::Given(Token::Sign(Sign::Semicolon)),
    Slot::Given(Token::Word(Word::Return)),
    Slot::Given(Token::Sign(Sign::Semicolon)),
];

/// Why tokens are no driver: the one at this place continues none, or they end there too early; or memory is wanting.
#[derive(Clone, Copy, Debug)]
pub enum NoFunction {
    At(usize),
    Memory,
}

/// The one function: all of these tokens.
pub fn function(alloc: Global, spots: &[Spot]) -> Result<Vec<Labelled>, NoFunction>
    ensures taken { IfOk result (λ bs. AreWritten (tokens_of spots.now) (map written_tree bs.items)) }
    ensures refused { IfErr result (IsNoFunction (tokens_of spots.now)) }
{
    match function_in_front(alloc, spots) {
        Ok((blocks, rest)) if rest.is_empty() => Ok(blocks),
        Ok((_, rest)) => Err(NoFunction::At(spots.len() - rest.len())),
        Err(Stop::Unexpected(rest)) => Err(NoFunction::At(spots.len() - rest.len())),
        Err(Stop::Memory) => Err(NoFunction::Memory),
    }
}

/// The function, and what follows it.
fn function_in_front(alloc: Global, spots: &[Spot]) -> Read<'_, Vec<Labelled>>
    ensures taken { IfOk result (λ r.
        IsFunction (map written_tree r.0.items) (tokens_of spots.now) (tokens_of r.1.now)) }
    ensures shorter { IfOk result (λ r. length r.1.now ≤ length spots.now) }
    ensures refused { IfErr result (IsRefused IsFunction (tokens_of spots.now)) }
{
    let (_, rest) = row(alloc, &HEAD, spots)?;
    some_blocks(alloc, rest)
}

/// Blocks, at least one, and the brace that closes.
fn some_blocks(alloc: Global, spots: &[Spot]) -> Read<'_, Vec<Labelled>>
    ensures taken { IfOk result (λ r.
        AreBlocksLeft [] (map written_tree r.0.items) (tokens_of spots.now) (tokens_of r.1.now)) }
    ensures shorter { IfOk result (λ r. length r.1.now < length spots.now) }
    ensures refused { IfErr result (IsRefused (AreBlocksLeft []) (tokens_of spots.now)) }
{
    let mut blocks = Vec::new(alloc);
    let (first_block, rest) = block(alloc, spots)?;
    blocks.push(first_block)?;
    let mut rest = rest;
    loop {
        if let Some(behind) = taken(rest, Token::Sign(Sign::CloseBrace)) {
            return Ok((blocks, behind));
        }
        let (next, behind) = block(alloc, rest)?;
        blocks.push(next)?;
        rest = behind;
    }
}

/// A label, its colon, and what the block does.
fn block(alloc: Global, spots: &[Spot]) -> Read<'_, Labelled>
    ensures taken { IfOk result (λ r. IsBlock (written_tree r.0) (tokens_of spots.now) (tokens_of r.1.now)) }
    ensures shorter { IfOk result (λ r. length r.1.now < length spots.now) }
    ensures refused { IfErr result (IsRefused IsBlock (tokens_of spots.now)) }
{
    let (labels, rest) = row(alloc, &LABEL, spots)?;
    let (statement, rest) = statement_of_block(alloc, rest)?;
    Ok((
        Labelled {
            label: labels[0],
            statement,
        },
        rest,
    ))
}

fn statement_of_block(alloc: Global, spots: &[Spot]) -> Read<'_, Statement>
    ensures taken { IfOk result (λ r.
        IsStatement [] (statement_tree r.0) (tokens_of spots.now) (tokens_of r.1.now)) }
    ensures shorter { IfOk result (λ r. length r.1.now < length spots.now) }
    ensures refused { IfErr result (IsRefused (IsStatement []) (tokens_of spots.now)) }
{
    let Some((token, rest)) = parted(spots) else {
        return Err(Stop::Unexpected(spots));
    };
    match beginning(token) {
        Some(StatementBeginning::Test) => test(alloc, rest),
        Some(StatementBeginning::Call(number)) => call(alloc, number, rest),
        Some(StatementBeginning::Leave) => leave(alloc, rest),
        Some(StatementBeginning::Idle) => idle(rest),
        None => Err(Stop::Unexpected(spots)),
    }
}

/// What a block does, as its first token tells.
#[derive(Clone, Copy, Debug)]
enum StatementBeginning {
    Test,
    Call(u32),
    Leave,
    Idle,
}

/// What begins with a token, if a block may do something that begins so.
fn beginning(token: Token) -> Option<StatementBeginning>
    ensures { option_map first_token result ≡ beginning_of (token_tree token) }
{
    match token {
        Token::Word(Word::If) => Some(StatementBeginning::Test),
        Token::Word(Word::TermiteLeave) => Some(StatementBeginning::Leave),
        Token::Word(Word::Return) => Some(StatementBeginning::Idle),
        Token::Task(number) => Some(StatementBeginning::Call(number)),
        _ => None,
    }
}

/// A test, behind `if`.
fn test(alloc: Global, spots: &[Spot]) -> Read<'_, Statement>
    ensures taken { IfOk result (λ r.
        IsStatement (word if_word ∷ []) (statement_tree r.0) (tokens_of spots.now) (tokens_of r.1.now)) }
    ensures shorter { IfOk result (λ r. length r.1.now < length spots.now) }
    ensures refused { IfErr result (IsRefused (IsStatement (word if_word ∷ [])) (tokens_of spots.now)) }
{
    let rest = need_sign(spots, Sign::OpenParenthesis)?;
    let (truth, rest) = truth(alloc, rest)?;
    match row(alloc, &BRANCHES, rest) {
        Ok((labels, rest)) => Ok((Statement::Test(truth, labels[0], labels[1]), rest)),
        Err(stop) => {
            drop(truth);
            Err(stop)
        }
    }
}

/// A call, behind its task.
fn call(alloc: Global, number: u32, spots: &[Spot]) -> Read<'_, Statement>
    ensures taken { IfOk result (λ r.
        IsStatement (task number ∷ []) (statement_tree r.0) (tokens_of spots.now) (tokens_of r.1.now)) }
    ensures shorter { IfOk result (λ r. length r.1.now < length spots.now) }
    ensures refused { IfErr result (IsRefused (IsStatement (task number ∷ [])) (tokens_of spots.now)) }
{
    let rest = need_sign(spots, Sign::OpenParenthesis)?;
    let (args, rest) = arguments(alloc, rest)?;
    let (_, rest) = row(alloc, &END, rest)?;
    Ok((Statement::Call(number, args), rest))
}

/// A leave, behind its word.
fn leave(alloc: Global, spots: &[Spot]) -> Read<'_, Statement>
    ensures taken { IfOk result (λ r.
        IsStatement (word termite_leave ∷ []) (statement_tree r.0) (tokens_of spots.now) (tokens_of r.1.now)) }
    ensures shorter { IfOk result (λ r. length r.1.now < length spots.now) }
    ensures refused { IfErr result (IsRefused (IsStatement (word termite_leave ∷ [])) (tokens_of spots.now)) }
{
    let (processes, rest) = row(alloc, &LEAVE, spots)?;
    Ok((Statement::Leave(processes[0]), rest))
}

/// The end of a turn, behind `return`.
fn idle(spots: &[Spot]) -> Read<'_, Statement>
    ensures taken { IfOk result (λ r.
        IsStatement (word return_word ∷ []) (statement_tree r.0) (tokens_of spots.now) (tokens_of r.1.now)) }
    ensures shorter { IfOk result (λ r. length r.1.now < length spots.now) }
    ensures refused { IfErr result (IsRefused (IsStatement (word return_word ∷ [])) (tokens_of spots.now)) }
{
    let rest = need_sign(spots, Sign::Semicolon)?;
    Ok((Statement::Idle, rest))
}
