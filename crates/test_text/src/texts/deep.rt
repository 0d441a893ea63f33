//! Texts in which a part stands many times.

use std::alloc::{AllocError, Global};

/// Puts a part behind a text, so many times.
fn push_times(text: &mut String, part: &str, times: u32) -> Result<(), AllocError> {
    for _time in 0..times {
        text.push_str(part)?;
    }
    Ok(())
}

/// A part of a text, and what stands behind the `#` that ends it.
fn split_part(text: &str) -> (&str, &str) {
    text.split_once('#').unwrap_or((text, ""))
}

/// The text of these parts, in which the second and the fourth one stand so many times.
pub fn deep_text(alloc: Global, times: u32, parts: &str) -> Result<String, AllocError> {
    let (before, parts) = split_part(parts);
    let (opening, parts) = split_part(parts);
    let (middle, parts) = split_part(parts);
    let (closing, behind) = split_part(parts);
    let mut text = String::from_str(alloc, before)?;
    push_times(&mut text, opening, times)?;
    text.push_str(middle)?;
    push_times(&mut text, closing, times)?;
    text.push_str(behind)?;
    Ok(text)
}
