//! What a structured text names: the items of the design, and functions.

ghost use Rattle.std.specs.Prelude.{◌≡◌, ◌+◌, ◌^◌, ◌<◌, ◌++◌, ◌∷◌, ℕ, Bool, true, List, MatchOption, length};
ghost use Rattle.tm_syntax.specs.Design.{DesignTree};
ghost use Rattle.tm_syntax.specs.Design.View.{design_tree};
ghost use Rattle.tm_cir.specs.Tree.{NumTree};
ghost use Rattle.tm_cir.specs.Text.Token.{label, constant, task, sign, semicolon};
ghost use Rattle.tm_cir.specs.Text.Grammar.{parenthesized, argument_tokens};
ghost use Rattle.tm_cparse.specs.View.{token_tree, tokens_of};
ghost use Rattle.tm_cparse.specs.Faults.{names_item};
ghost use Rattle.tm_cparse.specs.Inner.Names.{TokenList, AreKnown, HaveArguments};
ghost use Rattle.tm_struct_parse.specs.Written.{WrittenProgram, AreWritten};
ghost use Rattle.tm_struct_parse.specs.Inner.Names.{functions_behind, turn_behind, before_behind, place_behind};
ghost use Rattle.tm_struct_parse.specs.Inner.Names.{callable_at, place_after, first_place, IsRight, AreRight};
ghost use Rattle.tm_struct_parse.specs.Inner.Names.{IsFaultAt, IsFirstFault};

use crate::bad::BadStructured;
use tm_cparse::names::{argument_count, is_process, names_item, takes};
use tm_cparse::spot::{Spot, parted};
use tm_cparse::token::{Sign, Token, Word};
use tm_syntax::design::Design;

/// What stands before a token, as far as it tells what the token names: `void`, `termite_leave`, that word and a
/// parenthesis, or anything else.
#[derive(Clone, Copy, PartialEq, Eq)]
enum Before {
    Void,
    Leave,
    Process,
    Other,
}

/// Where a token of a driver stands: behind the names of so many functions, whether in `driver_turn`, and behind what.
#[derive(Clone, Copy)]
struct TokenPlace {
    functions: usize,
    in_turn: bool,
    before: Before,
}

/// The place of a driver's first token.
const FIRST_PLACE: TokenPlace = TokenPlace {
    functions: 0,
    in_turn: false,
    before: Before::Other,
};

/// The first token of a driver that names what there is not, in the order of the text.
pub fn first_fault(design: &Design, spots: &[Spot]) -> Option<BadStructured>
    requires { (p : WrittenProgram) × AreWritten (tokens_of spots.now) p }
    ensures { MatchOption result
        (AreKnown spots.now × AreRight (design_tree design.now) first_place (tokens_of spots.now))
        (IsFirstFault (design_tree design.now) ((place_after first_place (tokens_of spots.now)).functions) first_place
        spots.now) }
{
    fault_within(design, function_count(spots), spots)
}

/// How many functions a driver has.
fn function_count(spots: &[Spot]) -> usize
    ensures { result ≡ (place_after first_place (tokens_of spots.now)).functions }
{
    let mut place = FIRST_PLACE;
    let mut rest = spots;
    while let Some((token, behind)) = parted(rest) {
        place = place_behind(place, token);
        rest = behind;
    }
    place.functions
}

/// The first token at fault of a driver with so many functions.
#[tactic(auto, using(crate::proofs::NameSteps::first_fault_steps))]
fn fault_within(design: &Design, count: usize, spots: &[Spot]) -> Option<BadStructured>
    requires { HaveArguments (tokens_of spots.now) }
    ensures { MatchOption result
        (AreKnown spots.now × AreRight (design_tree design.now) first_place (tokens_of spots.now))
        (IsFirstFault (design_tree design.now) count first_place spots.now) }
{
    let mut place = FIRST_PLACE;
    let mut rest = spots;
    while let Some((first, behind)) = rest.split_first() {
        if let Some(fault) = fault_at(design, count, place, *first, behind) {
            return Some(fault);
        }
        place = place_behind(place, first.token);
        rest = behind;
    }
    None
}

/// The place behind a token.
fn place_behind(place: TokenPlace, token: Token) -> TokenPlace
    requires { place.functions + 1 < 2 ^ 64 }
    ensures { result ≡ place_behind place (token_tree token) }
{
    TokenPlace {
        functions: functions_behind(place, token),
        in_turn: turn_behind(place.in_turn, token),
        before: before_behind(place.before, token),
    }
}

fn functions_behind(place: TokenPlace, token: Token) -> usize
    requires { place.functions + 1 < 2 ^ 64 }
    ensures { result ≡ functions_behind place (token_tree token) }
{
    match token {
        Token::Label(_) if place.before == Before::Void => place.functions + 1,
        _ => place.functions,
    }
}

fn turn_behind(in_turn: bool, token: Token) -> bool
    ensures { result ≡ turn_behind in_turn (token_tree token) }
{
    match token {
        Token::Word(Word::DriverTurn) => true,
        _ => in_turn,
    }
}

fn before_behind(before: Before, token: Token) -> Before
    ensures { result ≡ before_behind before (token_tree token) }
{
    match token {
        Token::Word(Word::Void) => Before::Void,
        Token::Word(Word::TermiteLeave) => Before::Leave,
        Token::Sign(Sign::OpenParenthesis) if before == Before::Leave => Before::Process,
        _ => Before::Other,
    }
}

/// What is wrong with what the token names, where a driver has so many functions.
fn fault_at(
    design: &Design,
    count: usize,
    place: TokenPlace,
    spot: Spot,
    others: &[Spot],
) -> Option<BadStructured>
    requires { HaveArguments (token_tree spot.token ∷ tokens_of others.now) }
    ensures { MatchOption result
        ((names_item (token_tree spot.token) ≡ true → spot.known ≡ true)
        × IsRight (design_tree design.now) place (token_tree spot.token) (tokens_of others.now))
        (IsFaultAt (design_tree design.now) count place (token_tree spot.token) spot.known spot.line
        (tokens_of others.now)) }
{
    let line = spot.line as u64;
    if names_item(spot.token) && !spot.known {
        return Some(BadStructured::UnknownName(line));
    }
    match spot.token {
        Token::Label(number) => function_fault(count, place, number as usize, line),
        Token::Constant(number) => constant_fault(design, place, number, line),
        Token::Task(task) => arguments_fault(design, task, others, line),
        _ => None,
    }
}

/// The fault of a function's name: where it is out of order, or not an earlier function's where it is called.
fn function_fault(
    count: usize,
    place: TokenPlace,
    number: usize,
    line: u64,
) -> Option<BadStructured>
    ensures { (d : DesignTree) (known : Bool) (others : TokenList)
        → MatchOption result (IsRight d place (label number) others)
        (IsFaultAt d count place (label number) known line others) }
{
    if place.before == Before::Void {
        if number == place.functions {
            None
        } else {
            Some(BadStructured::Text(line))
        }
    } else if number >= count {
        Some(BadStructured::Text(line))
    } else if number >= callable_at(place) {
        Some(BadStructured::ForwardCall(line))
    } else {
        None
    }
}

/// How many functions may be named at a place.
fn callable_at(place: TokenPlace) -> usize
    ensures { result ≡ callable_at place }
{
    if place.in_turn {
        place.functions
    } else {
        place.functions.saturating_sub(1)
    }
}

/// The fault of a constant: of the number of no process where a process leaves.
fn constant_fault(
    design: &Design,
    place: TokenPlace,
    number: u64,
    line: u64,
) -> Option<BadStructured>
    ensures { (count : ℕ) (known : Bool) (others : TokenList)
        → MatchOption result (IsRight (design_tree design.now) place (constant number) others)
        (IsFaultAt (design_tree design.now) count place (constant number) known line others) }
{
    if place.before == Before::Process && !is_process(design, number) {
        Some(BadStructured::UnknownName(line))
    } else {
        None
    }
}

/// The fault of a call, whose task stands before these tokens, where its number of arguments is wrong.
fn arguments_fault(
    design: &Design,
    number: u32,
    others: &[Spot],
    line: u64,
) -> Option<BadStructured>
    requires { (args : List NumTree) × (rest : TokenList) ×
        (tokens_of others.now ≡ parenthesized (argument_tokens args) ++ sign semicolon ∷ rest) }
    ensures { (count : ℕ) (place : TokenPlace)
        → MatchOption result (IsRight (design_tree design.now) place (task number) (tokens_of others.now))
        (IsFaultAt (design_tree design.now) count place (task number) true line (tokens_of others.now)) }
{
    if takes(design, number, argument_count(others)) {
        None
    } else {
        Some(BadStructured::Text(line))
    }
}
