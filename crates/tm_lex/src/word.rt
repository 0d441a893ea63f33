//! Names and reserved words.

ghost use Rattle.std.specs.Prelude.{◌≡◌, ◌≢◌, ◌<◌, length, slice_index, MatchOption};
ghost use Rattle.std.specs.List.{prefix_len};
ghost use Rattle.tm_syntax.specs.declared.token.Word.{Word};
ghost use Rattle.tm_syntax.specs.Tokens.{continues_name, word_text};
ghost use Rattle.tm_lex.specs.Class.{class_of};
ghost use Rattle.tm_lex.specs.Front.{IsFirstPiece};
ghost use Rattle.tm_lex.specs.Words.{words_from};

use crate::class::Class;
use crate::piece::Piece;
use tm_syntax::token::{TokenKind, Word};

/// The name or the reserved word at the front of bytes that begin with a letter or `_`.
pub fn word_or_name(bytes: &[u8]) -> Piece
    requires some { 0 < length bytes.now }
    requires letter { class_of (slice_index bytes.now 0) ≡ Class.Letter }
    ensures { IsFirstPiece bytes.now result.kind result.len }
{
    let len = name_len(bytes);
    let kind = match word_of(&bytes[..len]) {
        Some(word) => TokenKind::Word(word),
        None => TokenKind::Name,
    };
    Piece {
        kind: Some(kind),
        len,
    }
}

/// How many bytes at the front are letters, digits or `_`.
fn name_len(bytes: &[u8]) -> usize
    ensures { result ≡ prefix_len continues_name bytes.now }
{
    bytes
        .iter()
        .take_while(|byte| continues_name(**byte))
        .count()
}

fn continues_name(byte: u8) -> bool
    ensures { result ≡ continues_name byte }
{
    byte.is_ascii_alphanumeric() || byte == b'_'
}

/// The reserved word that is spelled so, if there is one.
fn word_of(text: &[u8]) -> Option<Word>
    ensures { MatchOption result ((w : Word) → text.now ≢ word_text w) (λ w. text.now ≡ word_text w) }
{
    let first = text.first()?;
    for word in words_from(*first) {
        if text == spelling_of(*word) {
            return Some(*word);
        }
    }
    None
}

/// The reserved words that begin with a byte.
fn words_from(first: u8) -> &'static [Word]
    ensures { result.now ≡ words_from first }
{
    match first {
        b'a' => &[Word::Assert, Word::Assume],
        b'b' => &[Word::Bool],
        b'c' => &[Word::Controllable, Word::Choice],
        b'e' => &[Word::Enum, Word::EndTemplate, Word::Else],
        b'f' => &[Word::Fair, Word::Forever, Word::False],
        b'g' => &[Word::Goal],
        b'i' => &[Word::Instance, Word::If],
        b'l' => &[Word::Lazy],
        b'o' => &[Word::Or],
        b'p' => &[Word::Process, Word::Procedure, Word::Pause],
        b'r' => &[Word::Return],
        b't' => &[Word::Typedef, Word::Template, Word::Task, Word::True],
        b'u' => &[Word::Uint, Word::Uncontrollable],
        b'v' => &[Word::Void],
        b'w' => &[Word::While, Word::Wait],
        _ => &[],
    }
}

fn spelling_of(word: Word) -> &'static [u8]
    ensures { result.now ≡ word_text word }
{
    match word {
        Word::Typedef => b"typedef",
        Word::Enum => b"enum",
        Word::Template => b"template",
        Word::EndTemplate => b"endtemplate",
        Word::Instance => b"instance",
        Word::Bool => b"bool",
        Word::Uint => b"uint",
        Word::Goal => b"goal",
        Word::Fair => b"fair",
        Word::Lazy => b"lazy",
        Word::Process => b"process",
        Word::Task => b"task",
        Word::Controllable => b"controllable",
        Word::Uncontrollable => b"uncontrollable",
        Word::Procedure => b"procedure",
        Word::Void => b"void",
        Word::Return => b"return",
        Word::If => b"if",
        Word::Else => b"else",
        Word::While => b"while",
        Word::Forever => b"forever",
        Word::Choice => b"choice",
        Word::Or => b"or",
        Word::Assert => b"assert",
        Word::Assume => b"assume",
        Word::Pause => b"pause",
        Word::Wait => b"wait",
        Word::True => b"true",
        Word::False => b"false",
    }
}
