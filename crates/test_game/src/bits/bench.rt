//! A table of terms, and a manager with levels for its inputs.
ghost use Rattle.std.specs.Prelude.{IsTrue, All};
ghost use Rattle.tm_base.specs.Arithmetic.{IsWidth};

use case_rows::split_word;
use std::alloc::{AllocError, Global};
use tm_base::is_width;
use tm_ddops::Manager;
use tm_term::Terms;

/// A table of terms, a manager of diagrams, and the levels of each input there.
#[derive(Drop)]
pub struct Bench {
    pub terms: Terms,
    pub levels: Vec<Vec<u32>>,
    pub dd: Manager,
}

/// Whether all of these are widths.
fn are_widths(widths: &[u8]) -> bool
    ensures { IsTrue result → All IsWidth widths.now }
{
    for width in widths {
        if !is_width(*width) {
            return false;
        }
    }
    true
}

/// So many levels, each `step` behind the one before it.
fn levels_from(alloc: Global, first: u32, step: u32, width: u8) -> Result<Vec<u32>, AllocError> {
    let mut levels = Vec::new(alloc);
    let mut level = first;
    for _bit in 0..width {
        levels.push(level)?;
        level = level.saturating_add(step);
    }
    Ok(levels)
}

/// The levels of inputs that are laid out so: those of the first two in turn, or each behind those of the one before.
fn levels_laid(alloc: Global, layout: &str, widths: &[u8]) -> Result<Vec<Vec<u32>>, AllocError> {
    let mut levels = Vec::new(alloc);
    let mut behind = 0u32;
    let mut index = 0u32;
    for width in widths {
        let is_in_turn = layout == "turn" && index < 2;
        let (first, step) = if is_in_turn { (index, 2) } else { (behind, 1) };
        levels.push(levels_from(alloc, first, step, *width)?)?;
        behind = behind.saturating_add(u32::from(*width));
        index = index.saturating_add(1);
    }
    Ok(levels)
}

/// How many bits the inputs have.
fn total(widths: &[u8]) -> u32 {
    let mut total = 0u32;
    for width in widths {
        total = total.saturating_add(u32::from(*width));
    }
    total
}

/// A bench of inputs of these widths, whose levels are laid out so, if these are widths.
fn bench_of(alloc: Global, layout: &str, widths: &[u8]) -> Result<Option<Bench>, AllocError> {
    if !are_widths(widths) {
        return Ok(None);
    }
    let levels = levels_laid(alloc, layout, widths)?;
    let terms = Terms::new(alloc, widths)?;
    let dd = Manager::new(alloc, total(widths))?;
    Ok(Some(Bench { terms, levels, dd }))
}

/// The widths that words spell.
fn widths_of(alloc: Global, words: &str) -> Result<Vec<u8>, AllocError> {
    let mut widths = Vec::new(alloc);
    for word in words.split_whitespace() {
        widths.push(word.parse().unwrap_or(0))?;
    }
    Ok(widths)
}

/// The bench of a text: its layout, and the widths of its inputs.
pub fn bench_of_text(alloc: Global, text: &str) -> Result<Option<Bench>, AllocError> {
    let (layout, words) = split_word(text);
    match widths_of(alloc, words) {
        Ok(widths) => bench_of(alloc, layout, &widths),
        Err(error) => Err(error),
    }
}
