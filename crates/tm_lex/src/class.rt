//! What may begin with a byte.

ghost use Rattle.std.specs.Prelude.{◌≡◌};
ghost use Rattle.tm_syntax.specs.Tokens.{is_blank, begins_name};
ghost use Rattle.tm_lex.specs.Class.{class_of};

/// What may begin with a byte: a blank, a comment, a name or a reserved word, a number, or a sign.
#[derive(Clone, Copy, Debug, PartialEq, Eq)]
pub enum Class {
    Blank,
    Slash,
    Letter,
    Digit,
    Mark,
}

/// What may begin with this byte.
pub fn class_of(byte: u8) -> Class
    ensures { result ≡ class_of byte }
{
    if is_blank(byte) {
        return Class::Blank;
    }
    if byte == b'/' {
        return Class::Slash;
    }
    if begins_name(byte) {
        return Class::Letter;
    }
    if byte.is_ascii_digit() {
        return Class::Digit;
    }
    Class::Mark
}

fn is_blank(byte: u8) -> bool
    ensures { result ≡ is_blank byte }
{
    byte == b' ' || byte == b'\t' || byte == b'\r' || byte == b'\n'
}

fn begins_name(byte: u8) -> bool
    ensures { result ≡ begins_name byte }
{
    byte.is_ascii_alphabetic() || byte == b'_'
}
