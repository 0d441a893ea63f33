//! Signs.
ghost use Rattle.std.specs.Prelude.{◌≡◌, ◌≢◌, ◌<◌, ◌∷◌, [], length, MatchOption};
ghost use Rattle.tm_cir.specs.Text.Token as c;
ghost use Rattle.tm_cir.specs.Text.Spelling.{sign_text};
ghost use Rattle.tm_cparse.specs.View.{sign_tree};
ghost use Rattle.tm_cparse.specs.Inner.Scanning.{BeginsNoSign, IsFirstSign};

use crate::token::Sign;
use tm_base::ShiftOperator;
use tm_cir::block::{Comparison, Junction, NumOperator};

/// The longest sign in front of a text, and the number of its bytes.
pub fn sign_in_front(text: &[u8]) -> Option<(Sign, usize)>
    requires { 0 < length text.now }
    ensures { MatchOption result (BeginsNoSign text.now) (λ r. IsFirstSign text.now (sign_tree r.0) r.1) }
{
    if text.len() > 1 {
        if let Some(sign) = long_sign(text[0], text[1]) {
            return Some((sign, 2));
        }
    }
    if let Some(sign) = short_sign(text[0]) {
        return Some((sign, 1));
    }
    None
}

/// The sign of two bytes.
fn long_sign(first: u8, second: u8) -> Option<Sign>
    ensures { MatchOption result
        ((s : c.Sign) → sign_text s ≢ first ∷ second ∷ [])
        (λ s. sign_text (sign_tree s) ≡ first ∷ second ∷ []) }
{
    match (first, second) {
        (b'=', b'=') => Some(Sign::Comparing(Comparison::Equal)),
        (b'!', b'=') => Some(Sign::Comparing(Comparison::NotEqual)),
        (b'<', b'=') => Some(Sign::Comparing(Comparison::LessEqual)),
        (b'>', b'=') => Some(Sign::Comparing(Comparison::GreaterEqual)),
        (b'<', b'<') => Some(Sign::Shifting(ShiftOperator::Left)),
        (b'>', b'>') => Some(Sign::Shifting(ShiftOperator::Right)),
        (b'&', b'&') => Some(Sign::Joining(Junction::And)),
        (b'|', b'|') => Some(Sign::Joining(Junction::Or)),
        _ => None,
    }
}

/// The sign of one byte.
fn short_sign(byte: u8) -> Option<Sign>
    ensures { MatchOption result
        ((s : c.Sign) → sign_text s ≢ byte ∷ [])
        (λ s. sign_text (sign_tree s) ≡ byte ∷ []) }
{
    match byte {
        b'(' => Some(Sign::OpenParenthesis),
        b')' => Some(Sign::CloseParenthesis),
        b'{' => Some(Sign::OpenBrace),
        b'}' => Some(Sign::CloseBrace),
        b':' => Some(Sign::Colon),
        b';' => Some(Sign::Semicolon),
        b',' => Some(Sign::Comma),
        b'?' => Some(Sign::Question),
        b'~' => Some(Sign::Tilde),
        b'!' => Some(Sign::Bang),
        b'+' => Some(Sign::Arithmetic(NumOperator::Add)),
        b'-' => Some(Sign::Arithmetic(NumOperator::Subtract)),
        b'&' => Some(Sign::Arithmetic(NumOperator::And)),
        b'|' => Some(Sign::Arithmetic(NumOperator::Or)),
        b'^' => Some(Sign::Arithmetic(NumOperator::Xor)),
        b'<' => Some(Sign::Comparing(Comparison::Less)),
        b'>' => Some(Sign::Comparing(Comparison::Greater)),
        _ => None,
    }
}
