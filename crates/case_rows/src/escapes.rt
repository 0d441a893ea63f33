//! Texts of rows in which a `\` and a letter stand for a byte.

use std::alloc::{AllocError, Global};

/// The byte that a letter behind a `\` stands for: any but these for itself.
fn meant(letter: u8) -> u8 {
    match letter {
        b'n' => b'\n',
        b'r' => b'\r',
        b't' => b'\t',
        b'0' => 0,
        b'd' => 127,
        b'8' => 128,
        b'e' => 254,
        b'f' => 255,
        _ => letter,
    }
}

/// The bytes that a text of a row stands for. A `\` at its end stands for none.
pub fn unescaped(alloc: Global, text: &str) -> Result<Vec<u8>, AllocError> {
    let mut bytes = Vec::new(alloc);
    let mut is_letter = false;
    for &byte in text.as_bytes() {
        let is_escape = byte == b'\\' && !is_letter;
        if !is_escape {
            bytes.push(if is_letter { meant(byte) } else { byte })?;
        }
        is_letter = is_escape;
    }
    Ok(bytes)
}

/// The spelling in a row of an ASCII text whose only controls are line feeds and tabs.
pub fn escaped(alloc: Global, bytes: &[u8]) -> Result<String, AllocError> {
    let mut text = String::new(alloc);
    for byte in bytes {
        match *byte {
            b'\n' => text.push_str("\\n")?,
            b'\t' => text.push_str("\\t")?,
            b'\\' => text.push_str("\\\\")?,
            byte => text.push(char::from(byte))?,
        }
    }
    Ok(text)
}
