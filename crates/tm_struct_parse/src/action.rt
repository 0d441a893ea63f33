//! Readers of what functions do.
ghost use Rattle.std.specs.Prelude.{◌≡◌, ◌<◌, ℕ, [], ◌∷◌, length, IfOk, IfErr};
ghost use Rattle.std.specs.Option.{option_map};
ghost use Rattle.tm_cir.specs.View.{truth_tree};
ghost use Rattle.tm_cir.specs.Text.Token.{word, label, task, if_word, termite_leave, return_word};
ghost use Rattle.tm_cparse.specs.View.{token_tree, tokens_of};
ghost use Rattle.tm_cparse.specs.Inner.Reading.{IsRefused};
ghost use Rattle.tm_struct.specs.Tree.{choose};
ghost use Rattle.tm_struct_parse.specs.View.{draft_tree};
ghost use Rattle.tm_struct_parse.specs.Inner.Forms.{IsAction, IsCondition, AreBranches, IsBlock, first_token};
ghost use Rattle.tm_struct_parse.specs.Inner.Forms.{beginning_of};

use crate::draft::Draft;
use std::alloc::{AllocError, Global};
use tm_cir::Truth;
use tm_cparse::call::arguments;
use tm_cparse::expression::truth;
use tm_cparse::spot::{Read, Spot, Stop, constant, need, need_sign, parted};
use tm_cparse::token::{Sign, Token, Word};
use tm_struct::MOST_IFS;

/// What a function does, inside so many open `if`. It goes down by recursion as deep as these, 128 at most.
#[cycle(reading)]
pub fn action(alloc: Global, open_ifs: u32, spots: &[Spot]) -> Read<'_, Draft>
    ensures taken { IfOk result (λ r.
        IsAction open_ifs [] (draft_tree r.0) (tokens_of spots.now) (tokens_of r.1.now)) }
    ensures shorter { IfOk result (λ r. length r.1.now < length spots.now) }
    ensures refused { IfErr result (IsRefused (IsAction open_ifs []) (tokens_of spots.now)) }
{
    let Some((token, rest)) = parted(spots) else {
        return Err(Stop::Unexpected(spots));
    };
    match beginning_of(token) {
        Some(Beginning::Test) => {
            if open_ifs < MOST_IFS {
                test(alloc, open_ifs, rest)
            } else {
                Err(Stop::Unexpected(spots))
            }
        }
        Some(Beginning::Call(task)) => call(alloc, task, rest),
        Some(Beginning::Leave) => leave(rest),
        Some(Beginning::Go(number)) => go(number, rest),
        Some(Beginning::Idle) => idle(rest),
        None => Err(Stop::Unexpected(spots)),
    }
}

/// What an action is, as its first token tells.
#[derive(Clone, Copy)]
enum Beginning {
    Test,
    Call(u32),
    Leave,
    Go(u32),
    Idle,
}

/// What begins with a token, if an action may begin so.
fn beginning_of(token: Token) -> Option<Beginning>
    ensures { option_map first_token result ≡ beginning_of (token_tree token) }
{
    match token {
        Token::Word(Word::If) => Some(Beginning::Test),
        Token::Word(Word::TermiteLeave) => Some(Beginning::Leave),
        Token::Word(Word::Return) => Some(Beginning::Idle),
        Token::Task(task) => Some(Beginning::Call(task)),
        Token::Label(number) => Some(Beginning::Go(number)),
        _ => None,
    }
}

/// A test, behind its `if`.
#[cycle(reading)]
fn test(alloc: Global, open_ifs: u32, spots: &[Spot]) -> Read<'_, Draft>
    requires { open_ifs < MOST_IFS }
    ensures taken { IfOk result (λ r.
        IsAction open_ifs (word if_word ∷ []) (draft_tree r.0) (tokens_of spots.now) (tokens_of r.1.now)) }
    ensures shorter { IfOk result (λ r. length r.1.now < length spots.now) }
    ensures refused { IfErr result (IsRefused (IsAction open_ifs (word if_word ∷ [])) (tokens_of spots.now)) }
{
    let (truth, rest) = read!(condition(alloc, spots));
    let ((first, second), rest) = read!(branches(alloc, open_ifs + 1, rest), truth);
    let draft = choice(alloc, truth, first, second)?;
    Ok((draft, rest))
}

/// A truth value between parentheses.
fn condition(alloc: Global, spots: &[Spot]) -> Read<'_, Truth>
    ensures taken { IfOk result (λ r.
        IsCondition (truth_tree r.0) (tokens_of spots.now) (tokens_of r.1.now)) }
    ensures shorter { IfOk result (λ r. length r.1.now < length spots.now) }
    ensures refused { IfErr result (IsRefused IsCondition (tokens_of spots.now)) }
{
    let rest = read!(need_sign(spots, Sign::OpenParenthesis));
    let (truth, rest) = read!(truth(alloc, rest));
    let rest = read!(need_sign(rest, Sign::CloseParenthesis), truth);
    Ok((truth, rest))
}

/// Both branches of a test, inside so many open `if` with its own.
#[cycle(reading)]
fn branches(alloc: Global, open_ifs: u32, spots: &[Spot]) -> Read<'_, (Draft, Draft)>
    ensures taken { IfOk result (λ r.
        AreBranches open_ifs (draft_tree r.0.0, draft_tree r.0.1) (tokens_of spots.now) (tokens_of r.1.now)) }
    ensures shorter { IfOk result (λ r. length r.1.now < length spots.now) }
    ensures refused { IfErr result (IsRefused (AreBranches open_ifs) (tokens_of spots.now)) }
{
    let (first, rest) = read!(block(alloc, open_ifs, spots));
    let rest = read!(need(rest, Token::Word(Word::Else)), first);
    let (second, rest) = read!(block(alloc, open_ifs, rest), first);
    Ok(((first, second), rest))
}

/// What a test does, by its branches.
fn choice(alloc: Global, truth: Truth, first: Draft, second: Draft) -> Result<Draft, AllocError>
    ensures { IfOk result (λ draft.
        draft_tree draft ≡ choose (truth_tree truth) (draft_tree first) (draft_tree second)) }
{
    let first = boxed!(alloc, first, second, truth);
    let second = boxed!(alloc, second, first, truth);
    Ok(Draft::If(truth, first, second))
}

/// An action between braces.
#[cycle(reading)]
pub fn block(alloc: Global, open_ifs: u32, spots: &[Spot]) -> Read<'_, Draft>
    ensures taken { IfOk result (λ r.
        IsBlock open_ifs (draft_tree r.0) (tokens_of spots.now) (tokens_of r.1.now)) }
    ensures shorter { IfOk result (λ r. length r.1.now < length spots.now) }
    ensures refused { IfErr result (IsRefused (IsBlock open_ifs) (tokens_of spots.now)) }
{
    let rest = read!(need_sign(spots, Sign::OpenBrace));
    let (draft, rest) = read!(action(alloc, open_ifs, rest));
    let rest = read!(need_sign(rest, Sign::CloseBrace), draft);
    Ok((draft, rest))
}

/// A call of a task, behind its name.
fn call(alloc: Global, number: u32, spots: &[Spot]) -> Read<'_, Draft>
    ensures taken { IfOk result (λ r. (open_ifs : ℕ) →
        IsAction open_ifs (task number ∷ []) (draft_tree r.0) (tokens_of spots.now) (tokens_of r.1.now)) }
    ensures shorter { IfOk result (λ r. length r.1.now < length spots.now) }
    ensures refused { IfErr result (λ e. (open_ifs : ℕ) →
        IsRefused (IsAction open_ifs (task number ∷ [])) (tokens_of spots.now) e) }
{
    let rest = read!(need_sign(spots, Sign::OpenParenthesis));
    let (args, rest) = read!(arguments(alloc, rest));
    let rest = read!(need_sign(rest, Sign::Semicolon), args);
    Ok((Draft::Call(number, args), rest))
}

/// A leave, behind its word.
fn leave(spots: &[Spot]) -> Read<'_, Draft>
    ensures taken { IfOk result (λ r. (open_ifs : ℕ) →
        IsAction open_ifs (word termite_leave ∷ []) (draft_tree r.0) (tokens_of spots.now) (tokens_of r.1.now)) }
    ensures shorter { IfOk result (λ r. length r.1.now < length spots.now) }
    ensures refused { IfErr result (λ e. (open_ifs : ℕ) →
        IsRefused (IsAction open_ifs (word termite_leave ∷ [])) (tokens_of spots.now) e) }
{
    let rest = read!(need_sign(spots, Sign::OpenParenthesis));
    let (process, rest) = read!(constant(rest));
    let rest = read!(need_sign(rest, Sign::CloseParenthesis));
    let rest = read!(need_sign(rest, Sign::Semicolon));
    Ok((Draft::Leave(process), rest))
}

/// A call of a function, behind its name.
fn go(number: u32, spots: &[Spot]) -> Read<'_, Draft>
    ensures taken { IfOk result (λ r. (open_ifs : ℕ) →
        IsAction open_ifs (label number ∷ []) (draft_tree r.0) (tokens_of spots.now) (tokens_of r.1.now)) }
    ensures shorter { IfOk result (λ r. length r.1.now < length spots.now) }
    ensures refused { IfErr result (λ e. (open_ifs : ℕ) →
        IsRefused (IsAction open_ifs (label number ∷ [])) (tokens_of spots.now) e) }
{
    let rest = read!(need_sign(spots, Sign::OpenParenthesis));
    let rest = read!(need_sign(rest, Sign::CloseParenthesis));
    let rest = read!(need_sign(rest, Sign::Semicolon));
    Ok((Draft::Go(number), rest))
}

/// The end of a turn, behind `return`.
fn idle(spots: &[Spot]) -> Read<'_, Draft>
    ensures taken { IfOk result (λ r. (open_ifs : ℕ) →
        IsAction open_ifs (word return_word ∷ []) (draft_tree r.0) (tokens_of spots.now) (tokens_of r.1.now)) }
    ensures shorter { IfOk result (λ r. length r.1.now < length spots.now) }
    ensures refused { IfErr result (λ e. (open_ifs : ℕ) →
        IsRefused (IsAction open_ifs (word return_word ∷ [])) (tokens_of spots.now) e) }
{
    let rest = read!(need_sign(spots, Sign::Semicolon));
    Ok((Draft::Idle, rest))
}
