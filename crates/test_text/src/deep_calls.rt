//! Texts in which a body is reached along many paths.

use std::alloc::{AllocError, Global};
use std::fmt::Write;

/// A text in which a body is reached along 2^N paths: with what that body does, and with what each of the others does
/// behind its two calls.
pub fn deep_calls(
    alloc: Global,
    levels: u32,
    does: &str,
    more: &str,
) -> Result<String, AllocError> {
    let mut text = format!(in alloc;
        "template main bool x; process p {{ t{levels}(); }} procedure void t0() {{ {does} }}"
    )?;
    for below in 0..levels {
        let task = below.saturating_add(1);
        write!(
            text,
            " procedure void t{task}() {{ t{below}(); t{below}();{more} }}"
        )?;
    }
    text.push_str(" endtemplate")?;
    Ok(text)
}
