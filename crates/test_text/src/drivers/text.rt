//! C texts.

use case_rows::unescaped;
use std::alloc::{AllocError, Global};

/// A driver with this between its braces.
pub fn driver(alloc: Global, body: &str) -> Result<Vec<u8>, AllocError> {
    let text = format!(in alloc;
        "#include \"termite.h\"\n\nvoid driver_turn(void)\n{{\n{body}}}\n"
    )?;
    unescaped(alloc, text.as_str())
}

/// A driver that calls `t1_write` with this.
pub fn writer(alloc: Global, argument: &str) -> Result<Vec<u8>, AllocError> {
    let body = format!(in alloc; "L0:\nt1_write({argument});\nreturn;\n")?;
    driver(alloc, body.as_str())
}

/// A driver with a test whose condition opens so many parentheses, that of the `if` among them.
pub fn nested(alloc: Global, count: u32) -> Result<Vec<u8>, AllocError> {
    let mut body = String::from_str(alloc, "L0:\nif (")?;
    for _level in 1..count {
        body.push_str("(!")?;
    }
    body.push_str("v0_b")?;
    for _level in 1..count {
        body.push_str(")")?;
    }
    body.push_str(") goto L1; else goto L1;\nL1:\nreturn;\n")?;
    driver(alloc, body.as_str())
}
