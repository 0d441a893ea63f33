//! What a text names: the items of the design, and the blocks that labels stand before and lead to. An item's name has
//! its number, so one look-up in the design's own lists tells whether it is there.
ghost use Rattle.std.specs.Prelude.{◌≡◌, ◌+◌, ◌^◌, ◌<◌, ◌≤◌, ◌++◌, ◌∷◌, ◌↔◌, ℕ, Bool, true, IsTrue, List, MatchOption, IfSome, length};
ghost use Rattle.tm_syntax.specs.Design.{DesignTree};
ghost use Rattle.tm_syntax.specs.Design.View.{design_tree};
ghost use Rattle.tm_cir.specs.Tree.{NumTree};
ghost use Rattle.tm_cir.specs.Fit.{parameter_count};
ghost use Rattle.tm_cir.specs.Text.Token.{label, constant, task, sign, semicolon};
ghost use Rattle.tm_cir.specs.Text.Grammar.{parenthesized, argument_tokens};
ghost use Rattle.tm_cparse.specs.View.{token_tree, tokens_of};
ghost use Rattle.tm_cparse.specs.Written.{WrittenBlock, AreWritten};
ghost use Rattle.tm_cparse.specs.Faults.{names_item, TakesArguments};
ghost use Rattle.tm_cparse.specs.declared.names.Before.TheVariants.{Process};
ghost use Rattle.tm_cparse.specs.Inner.Names.{TokenList, before_behind, labels_behind, place_behind, place_after, first_place, IsRightLabel, IsRightConstant, IsRight, AreRight, AreKnown, IsFaultAt, IsFirstFault, HaveArguments, is_comma, is_semicolon, comma_count};

use crate::bad::BadDriver;
use crate::spot::{Spot, parted, taken};
use crate::token::{Sign, Token, Word};
use tm_cir::block::MOST_ARGUMENTS;
use tm_cir::parameter_count;
use tm_syntax::design::Design;

/// What stands before a token, as far as it tells what the token names: `goto`, `termite_leave`, that word and a
/// parenthesis, or anything else.
#[derive(Clone, Copy, Debug, PartialEq, Eq)]
enum Before {
    Goto,
    Leave,
    Process,
    Other,
}

/// Where a token of a driver stands: behind the labels of so many blocks, and behind what.
#[derive(Clone, Copy, Debug)]
struct TokenPlace {
    labels: usize,
    before: Before,
}

/// The first token of a driver that names what there is not, in the order of the text.
pub fn first_fault(design: &Design, spots: &[Spot]) -> Option<BadDriver>
    requires { (bs : List WrittenBlock) × AreWritten (tokens_of spots.now) bs }
    ensures { MatchOption result
        (AreKnown spots.now × AreRight (design_tree design.now) ((place_after first_place (tokens_of spots.now)).labels)
        first_place (tokens_of spots.now))
        (IsFirstFault (design_tree design.now) ((place_after first_place (tokens_of spots.now)).labels) first_place
        spots.now) }
{
    fault_within(design, label_count(spots), spots)
}

/// How many blocks a driver has.
fn label_count(spots: &[Spot]) -> usize
    ensures { result ≡ (place_after first_place (tokens_of spots.now)).labels }
{
    let mut place = FIRST_PLACE;
    let mut rest = spots;
    while let Some((token, behind)) = parted(rest) {
        place = place_behind(place, token);
        rest = behind;
    }
    place.labels
}

/// The place of a driver's first token.
const FIRST_PLACE: TokenPlace = TokenPlace {
    labels: 0,
    before: Before::Other,
};

/// The first token at fault of a driver with so many blocks.
#[tactic(auto, using(crate::proofs::NameSteps::first_fault_steps))]
fn fault_within(design: &Design, count: usize, spots: &[Spot]) -> Option<BadDriver>
    requires { HaveArguments (tokens_of spots.now) }
    ensures { MatchOption result
        (AreKnown spots.now × AreRight (design_tree design.now) count first_place (tokens_of spots.now))
        (IsFirstFault (design_tree design.now) count first_place spots.now) }
{
    let mut place = FIRST_PLACE;
    let mut rest = spots;
    while let Some((first, behind)) = rest.split_first() {
        if let Some(fault) = fault_at(design, count, place, *first, behind) {
            return Some(fault);
        }
        place = place_behind(place, first.token);
        rest = behind;
    }
    None
}

/// The place behind a token.
fn place_behind(place: TokenPlace, token: Token) -> TokenPlace
    requires { place.labels + 1 < 2 ^ 64 }
    ensures { result ≡ place_behind place (token_tree token) }
{
    TokenPlace {
        labels: labels_behind(place.labels, place.before, token),
        before: before_behind(place.before, token),
    }
}

fn labels_behind(labels: usize, before: Before, token: Token) -> usize
    requires { labels + 1 < 2 ^ 64 }
    ensures { result ≡ labels_behind labels before (token_tree token) }
{
    match token {
        Token::Label(_) if before != Before::Goto => labels + 1,
        _ => labels,
    }
}

fn before_behind(before: Before, token: Token) -> Before
    ensures { result ≡ before_behind before (token_tree token) }
{
    match token {
        Token::Word(Word::Goto) => Before::Goto,
        Token::Word(Word::TermiteLeave) => Before::Leave,
        Token::Sign(Sign::OpenParenthesis) if before == Before::Leave => Before::Process,
        _ => Before::Other,
    }
}

/// What is wrong with what the token names, where a driver has so many blocks.
fn fault_at(
    design: &Design,
    count: usize,
    place: TokenPlace,
    spot: Spot,
    others: &[Spot],
) -> Option<BadDriver>
    requires { HaveArguments (token_tree spot.token ∷ tokens_of others.now) }
    ensures { MatchOption result
        ((names_item (token_tree spot.token) ≡ true → spot.known ≡ true)
        × IsRight (design_tree design.now) count place (token_tree spot.token) (tokens_of others.now))
        (IsFaultAt (design_tree design.now) count place (token_tree spot.token) spot.known spot.line
        (tokens_of others.now)) }
{
    let line = spot.line as u64;
    if names_item(spot.token) && !spot.known {
        return Some(BadDriver::UnknownName(line));
    }
    match spot.token {
        Token::Label(number) => label_fault(count, place, number as usize, line),
        Token::Constant(number) => constant_fault(design, place, number, line),
        Token::Task(task) => arguments_fault(design, task, others, line),
        _ => None,
    }
}

/// Whether a token is the name of an item: of a variable, of a process's location or of a task.
pub fn names_item(token: Token) -> bool
    ensures { result ≡ names_item (token_tree token) }
{
    match token {
        Token::Variable(_) | Token::Location(_) | Token::Task(_) => true,
        _ => false,
    }
}

/// The fault of a label: of a target that is no later block, or of a block's label that is not its number.
fn label_fault(count: usize, place: TokenPlace, number: usize, line: u64) -> Option<BadDriver>
    ensures { (d : DesignTree) (known : Bool) (others : TokenList)
        → MatchOption result (IsRight d count place (label number) others)
        (IsFaultAt d count place (label number) known line others) }
{
    if place.before != Before::Goto {
        if number == place.labels {
            None
        } else {
            Some(BadDriver::Text(line))
        }
    } else if number < place.labels {
        Some(BadDriver::BackwardGoto(line))
    } else if number >= count {
        Some(BadDriver::Text(line))
    } else {
        None
    }
}

/// The fault of a constant: of the number of no process where a process leaves.
fn constant_fault(design: &Design, place: TokenPlace, number: u64, line: u64) -> Option<BadDriver>
    ensures { (count : ℕ) (known : Bool) (others : TokenList)
        → MatchOption result (IsRight (design_tree design.now) count place (constant number) others)
        (IsFaultAt (design_tree design.now) count place (constant number) known line others) }
{
    if place.before == Before::Process && !is_process(design, number) {
        Some(BadDriver::UnknownName(line))
    } else {
        None
    }
}

/// Whether the design has a process of this number.
pub fn is_process(design: &Design, number: u64) -> bool
    ensures { IsTrue result ↔ IsRightConstant (design_tree design.now) Process number }
{
    number < design.processes.len() as u64 && number <= u64::from(u32::MAX)
}

/// The fault of a call, whose task stands before these tokens, where its number of arguments is wrong.
fn arguments_fault(design: &Design, number: u32, others: &[Spot], line: u64) -> Option<BadDriver>
    requires { (args : List NumTree) × (rest : TokenList) ×
        (tokens_of others.now ≡ parenthesized (argument_tokens args) ++ sign semicolon ∷ rest) }
    ensures { (count : ℕ) (place : TokenPlace)
        → MatchOption result (IsRight (design_tree design.now) count place (task number) (tokens_of others.now))
        (IsFaultAt (design_tree design.now) count place (task number) true line (tokens_of others.now)) }
{
    if takes(design, number, argument_count(others)) {
        None
    } else {
        Some(BadDriver::Text(line))
    }
}

/// Whether so many arguments fit a controllable task.
pub fn takes(design: &Design, number: u32, count: usize) -> bool
    ensures { IsTrue result ↔ TakesArguments (design_tree design.now) number count }
{
    match parameter_count(design, number) {
        Some(parameters) => parameters == count && count <= MOST_ARGUMENTS,
        None => false,
    }
}

/// How many arguments stand between the parentheses of a call: none, or one more than commas before the semicolon.
pub fn argument_count(spots: &[Spot]) -> usize
    ensures { (args : List NumTree) (rest : TokenList)
        → tokens_of spots.now ≡ parenthesized (argument_tokens args) ++ sign semicolon ∷ rest
        → result ≡ length args }
{
    let Some((_, behind)) = parted(spots) else {
        return 0;
    };
    match taken(behind, Token::Sign(Sign::CloseParenthesis)) {
        Some(_) => 0,
        None => comma_count(behind) + 1,
    }
}

/// How many commas stand before the first semicolon.
fn comma_count(spots: &[Spot]) -> usize
    ensures is { result ≡ comma_count (tokens_of spots.now) }
    ensures few { result ≤ length spots.now }
{
    let mut commas = 0;
    let mut rest = spots;
    while let Some((token, behind)) = parted(rest) {
        if is_semicolon(token) {
            break;
        }
        if is_comma(token) {
            commas += 1;
        }
        rest = behind;
    }
    commas
}

fn is_semicolon(token: Token) -> bool
    ensures { result ≡ is_semicolon (token_tree token) }
{
    token == Token::Sign(Sign::Semicolon)
}

fn is_comma(token: Token) -> bool
    ensures { result ≡ is_comma (token_tree token) }
{
    token == Token::Sign(Sign::Comma)
}
