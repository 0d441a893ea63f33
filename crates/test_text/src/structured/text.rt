//! Structured texts.

use case_rows::unescaped;
use std::alloc::{AllocError, Global};

/// A driver that does this in its turn.
pub fn turn(alloc: Global, body: &str) -> Result<Vec<u8>, AllocError> {
    let text = format!(in alloc;
        "#include \"termite.h\"\n\nvoid driver_turn(void)\n{{\n{body}}}\n"
    )?;
    unescaped(alloc, text.as_str())
}

/// A driver with so many tests one inside the other.
pub fn nested(alloc: Global, count: u32) -> Result<Vec<u8>, AllocError> {
    let mut body = String::new(alloc);
    for _level in 0..count {
        body.push_str("if (v0_b) {\n")?;
    }
    body.push_str("return;\n")?;
    for _level in 0..count {
        body.push_str("} else { return; }\n")?;
    }
    turn(alloc, body.as_str())
}

/// A driver with a test whose condition opens so many parentheses, that of the `if` among them.
pub fn open(alloc: Global, count: u32) -> Result<Vec<u8>, AllocError> {
    let mut body = String::from_str(alloc, "if (")?;
    for _level in 1..count {
        body.push_str("(!")?;
    }
    body.push_str("v0_b")?;
    for _level in 1..count {
        body.push_str(")")?;
    }
    body.push_str(") { return; } else { return; }\n")?;
    turn(alloc, body.as_str())
}
