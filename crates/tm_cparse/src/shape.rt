//! The shapes of words, names and constants: `L3`, `v0_path`, `7ULL`.
ghost use Rattle.std.specs.Prelude.{◌≡◌, ◌≢◌, ◌≤◌, ◌↔◌, ℕ, List, ◌++◌, ◌∷◌, [], Some, IsTrue, MatchOption, map, length, codes};
ghost use Rattle.std.specs.Char.{is_ascii_digit};
ghost use Rattle.std.specs.Fmt.{decimal};
ghost use Rattle.std.specs.List.{prefix_len, list_all};
ghost use Rattle.std.specs.Str.Parse.{digits_value};
ghost use Rattle.tm_syntax.specs.Tokens.{continues_name, begins_name, IsWordLike};
ghost use Rattle.tm_syntax.specs.Grammar.Parts.{below_limit};
ghost use Rattle.tm_syntax.specs.Design.{DesignTree};
ghost use Rattle.tm_syntax.specs.Design.View.{design_tree};
ghost use Rattle.tm_cir.specs.Text.Token as c;
ghost use Rattle.tm_cir.specs.Text.Spelling.{word_text, token_text, name_byte};
ghost use Rattle.tm_cparse.specs.View.{word_tree};
ghost use Rattle.tm_cparse.specs.Cut.{IsNumber, item_number, IsItemName, IsLabel, IsConstant};
ghost use Rattle.tm_cparse.specs.Inner.Scanning.{AreNameParts, IsNoRun, IsRun};

use crate::token::{Token, Word};
use tm_syntax::design::Design;

/// A token with its spelling looked up: whether it is spelled so over the design.
#[derive(Clone, Copy, Debug)]
pub struct Found {
    pub token: Token,
    pub known: bool,
}

/// A letter, a digit or `_`.
pub fn continues_name(byte: u8) -> bool
    ensures { result ≡ continues_name byte }
{
    byte.is_ascii_alphanumeric() || byte == b'_'
}

/// The word, name or constant that a run of letters, digits and `_` is, if it is one.
pub fn run_token(design: &Design, run: &[u8]) -> Option<Found>
    ensures { MatchOption result (IsNoRun run.now) (IsRun (design_tree design.now) run.now) }
{
    match word_of(run) {
        Some(word) => Some(Found {
            token: Token::Word(word),
            known: true,
        }),
        None => name_or_constant(design, run),
    }
}

/// The name or constant that a run is, if it is one.
fn name_or_constant(design: &Design, run: &[u8]) -> Option<Found>
    requires { (w : c.Word) → run.now ≢ word_text w }
    ensures { MatchOption result (IsNoRun run.now) (IsRun (design_tree design.now) run.now) }
{
    let (first, rest) = parted(run)?;
    match first {
        b'L' => label(rest),
        b'v' => variable(design, rest),
        b'p' => location(design, rest),
        b't' => task(design, rest),
        _ => constant(run),
    }
}

const WORDS: [Word; 9] = [
    Word::Void,
    Word::DriverTurn,
    Word::If,
    Word::Else,
    Word::Goto,
    Word::Return,
    Word::TermiteLeave,
    Word::TermiteGoal,
    Word::TermiteLast,
];

/// The word that is spelled so, if there is one.
fn word_of(run: &[u8]) -> Option<Word>
    ensures { MatchOption result ((w : c.Word) → run.now ≢ word_text w) (λ w. run.now ≡ word_text (word_tree w)) }
{
    for word in WORDS {
        if run == spelling_of(word) {
            return Some(word);
        }
    }
    None
}

fn spelling_of(word: Word) -> &'static [u8]
    ensures { result.now ≡ word_text (word_tree word) }
{
    match word {
        Word::Void => b"void",
        Word::DriverTurn => b"driver_turn",
        Word::If => b"if",
        Word::Else => b"else",
        Word::Goto => b"goto",
        Word::Return => b"return",
        Word::TermiteLeave => b"termite_leave",
        Word::TermiteGoal => b"termite_goal",
        Word::TermiteLast => b"termite_last",
    }
}

/// A label, behind its letter.
fn label(digits: &[u8]) -> Option<Found>
    ensures { MatchOption result ((k : ℕ) → ¬ IsLabel k (76 ∷ digits.now))
        (λ found. (d : DesignTree) → IsRun d (76 ∷ digits.now) found) }
{
    if !is_number(digits) {
        return None;
    }
    let number = item_number(digits);
    Some(Found {
        token: Token::Label(number),
        known: is_exact(digits, number),
    })
}

fn constant(run: &[u8]) -> Option<Found>
    ensures { MatchOption result ((n : ℕ) → ¬ IsConstant n run.now)
        (λ found. (d : DesignTree) → IsRun d run.now found) }
{
    let digits = before_suffix(run)?;
    if !is_number(digits) {
        return None;
    }
    let value = value(digits)?;
    Some(Found {
        token: Token::Constant(value),
        known: true,
    })
}

/// What stands before the suffix of a constant, if a run ends with it.
fn before_suffix(run: &[u8]) -> Option<&[u8]>
    ensures { MatchOption result ((front : List ℕ) → run.now ≢ front ++ codes "ULL")
        (λ front. run.now ≡ front.now ++ codes "ULL") }
{
    run.strip_suffix(b"ULL")
}

/// A variable, behind its letter.
fn variable(design: &Design, rest: &[u8]) -> Option<Found>
    ensures { MatchOption result ((k : ℕ) → ¬ IsItemName 118 k (118 ∷ rest.now))
        (IsRun (design_tree design.now) (118 ∷ rest.now)) }
{
    let (digits, path) = name_parts(rest)?;
    let number = item_number(digits);
    Some(Found {
        token: Token::Variable(number),
        known: has_variable(design, number, digits, path),
    })
}

fn has_variable(design: &Design, number: u32, digits: &[u8], path: &[u8]) -> bool
    requires { IsNumber digits.now }
    ensures { IsTrue result
        ↔ (token_text (design_tree design.now) (c.variable number) ≡ Some (118 ∷ (digits.now ++ 95 ∷ path.now))) }
{
    match design.vars.get(number as usize) {
        Some(var) => is_named(number, var.path.as_bytes(), digits, path),
        None => false,
    }
}

/// The location of a process, behind its letter.
fn location(design: &Design, rest: &[u8]) -> Option<Found>
    ensures { MatchOption result ((k : ℕ) → ¬ IsItemName 112 k (112 ∷ rest.now))
        (IsRun (design_tree design.now) (112 ∷ rest.now)) }
{
    let (digits, path) = name_parts(rest)?;
    let number = item_number(digits);
    Some(Found {
        token: Token::Location(number),
        known: has_process(design, number, digits, path),
    })
}

fn has_process(design: &Design, number: u32, digits: &[u8], path: &[u8]) -> bool
    requires { IsNumber digits.now }
    ensures { IsTrue result
        ↔ (token_text (design_tree design.now) (c.location number) ≡ Some (112 ∷ (digits.now ++ 95 ∷ path.now))) }
{
    match design.processes.get(number as usize) {
        Some(process) => is_named(number, process.path.as_bytes(), digits, path),
        None => false,
    }
}

/// A controllable task, behind its letter.
fn task(design: &Design, rest: &[u8]) -> Option<Found>
    ensures { MatchOption result ((k : ℕ) → ¬ IsItemName 116 k (116 ∷ rest.now))
        (IsRun (design_tree design.now) (116 ∷ rest.now)) }
{
    let (digits, path) = name_parts(rest)?;
    let number = item_number(digits);
    Some(Found {
        token: Token::Task(number),
        known: has_task(design, number, digits, path),
    })
}

fn has_task(design: &Design, number: u32, digits: &[u8], path: &[u8]) -> bool
    requires { IsNumber digits.now }
    ensures { IsTrue result
        ↔ (token_text (design_tree design.now) (c.task number) ≡ Some (116 ∷ (digits.now ++ 95 ∷ path.now))) }
{
    match design.tasks.get(number as usize) {
        Some(task) => is_named(number, task.path.as_bytes(), digits, path),
        None => false,
    }
}

/// The number and the path of a name, behind its letter.
fn name_parts(rest: &[u8]) -> Option<(&[u8], &[u8])>
    ensures { MatchOption result ((digits path : List ℕ) → ¬ AreNameParts rest.now digits path)
        (λ r. AreNameParts rest.now r.0.now r.1.now) }
{
    let (digits, behind) = rest.split_at(digits_len(rest));
    let path = behind_mark(behind)?;
    if is_number(digits) && is_path(path) {
        Some((digits, path))
    } else {
        None
    }
}

/// What stands behind `_`, if the text begins with it.
fn behind_mark(text: &[u8]) -> Option<&[u8]>
    ensures { MatchOption result ((rest : List ℕ) → text.now ≢ 95 ∷ rest) (λ rest. text.now ≡ 95 ∷ rest.now) }
{
    let (first, behind) = parted(text)?;
    if first == b'_' { Some(behind) } else { None }
}

/// How many decimal digits stand in front.
fn digits_len(text: &[u8]) -> usize
    ensures value { result ≡ prefix_len is_ascii_digit text.now }
    ensures within { result ≤ length text.now }
{
    text.iter().take_while(|byte| byte.is_ascii_digit()).count()
}

/// Whether a name has this number and the path of an item, with `_` for each dot.
fn is_named(number: u32, item: &[u8], digits: &[u8], path: &[u8]) -> bool
    requires { IsNumber digits.now }
    ensures { IsTrue result
        ↔ (decimal number ++ 95 ∷ map name_byte item.now ≡ digits.now ++ 95 ∷ path.now) }
{
    is_exact(digits, number) && is_written(item, path)
}

/// Whether a path is written so: `_` stands for each dot.
fn is_written(path: &[u8], written: &[u8]) -> bool
    ensures { IsTrue result ↔ (map name_byte path.now ≡ written.now) }
{
    let mut left = path;
    let mut rest = written;
    while let Some((byte, others)) = parted(left) {
        let Some((first, behind)) = parted(rest) else {
            return false;
        };
        if first != name_byte(byte) {
            return false;
        }
        left = others;
        rest = behind;
    }
    rest.is_empty()
}

fn name_byte(byte: u8) -> u8
    ensures { result ≡ name_byte byte }
{
    if byte == b'.' { b'_' } else { byte }
}

/// A letter or `_`, and then letters, digits and `_`.
fn is_path(path: &[u8]) -> bool
    ensures { IsTrue result ↔ IsWordLike path.now }
{
    match parted(path) {
        Some((first, others)) => begins_name(first) && all_continue(others),
        None => false,
    }
}

/// A letter or `_`.
fn begins_name(byte: u8) -> bool
    ensures { result ≡ begins_name byte }
{
    byte.is_ascii_alphabetic() || byte == b'_'
}

/// Letters, digits and `_`.
fn all_continue(bytes: &[u8]) -> bool
    ensures { result ≡ list_all continues_name bytes.now }
{
    bytes.iter().all(|byte| continues_name(*byte))
}

/// Decimal digits without a leading zero.
pub fn is_number(digits: &[u8]) -> bool
    ensures { IsTrue result ↔ IsNumber digits.now }
{
    match parted(digits) {
        Some((first, others)) => are_digits(digits) && (first != b'0' || others.is_empty()),
        None => false,
    }
}

fn are_digits(bytes: &[u8]) -> bool
    ensures { result ≡ list_all is_ascii_digit bytes.now }
{
    bytes.iter().all(|byte| byte.is_ascii_digit())
}

/// The first byte and the others.
pub fn parted(bytes: &[u8]) -> Option<(u8, &[u8])>
    ensures { MatchOption result (bytes.now ≡ []) (λ r. bytes.now ≡ r.0 ∷ r.1.now) }
{
    let (first, others) = bytes.split_first()?;
    Some((*first, others))
}

/// Whether these digits are those of a number.
pub fn is_exact(digits: &[u8], number: u32) -> bool
    requires { IsNumber digits.now }
    ensures { IsTrue result ↔ (decimal number ≡ digits.now) }
{
    match value(digits) {
        Some(value) => value == u64::from(number),
        None => false,
    }
}

/// The number that digits write, and of more than 32 bits the greatest.
pub fn item_number(digits: &[u8]) -> u32
    requires { IsNumber digits.now }
    ensures { result ≡ item_number digits.now }
{
    match value(digits) {
        Some(value) => value.min(4_294_967_295) as u32,
        None => u32::MAX,
    }
}

/// The number that digits write, if it has at most 64 bits.
fn value(digits: &[u8]) -> Option<u64>
    requires { IsNumber digits.now }
    ensures { result ≡ below_limit (digits_value 10 digits.now) }
{
    let mut value = 0u64;
    for digit in digits {
        let product = value.checked_mul(10)?;
        value = product.checked_add(u64::from(*digit - b'0'))?;
    }
    Some(value)
}
