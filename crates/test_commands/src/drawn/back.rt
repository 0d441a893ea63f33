//! Drivers that are drawn, printed and read back.

use super::draw::blocks;
use super::specification::design;
use anyhow::{Context, Result};
use rand_core::SeedableRng;
use rand_pcg::Pcg32;
use std::alloc::{AllocError, Global};
use tm_cir::Blocks;
use tm_cparse::read_driver;
use tm_cprint::print;
use tm_syntax::design::Design;

/// The text of the driver of a seed.
fn printed(alloc: Global, design: &Design, seed: u64) -> Result<Option<Vec<u8>>, AllocError> {
    let mut rng = Pcg32::seed_from_u64(seed);
    match Blocks::new(design, blocks(alloc, &mut rng)?) {
        Some(blocks) => Ok(Some(print(alloc, design, &blocks)?)),
        None => Ok(None),
    }
}

/// The text of the blocks that a text is read as.
fn printed_again(
    alloc: Global,
    design: &Design,
    text: &[u8],
) -> Result<Option<Vec<u8>>, AllocError> {
    match read_driver(alloc, design, text) {
        Ok(blocks) => Ok(Some(print(alloc, design, &blocks)?)),
        Err(_) => Ok(None),
    }
}

/// Whether the driver of a seed is printed, and its text is read as the same blocks. A text is one list of blocks, so
/// those that are printed alike are the same.
fn is_read_back(alloc: Global, design: &Design, seed: u64) -> Result<bool, AllocError> {
    let Some(text) = printed(alloc, design, seed)? else {
        return Ok(false);
    };
    match printed_again(alloc, design, text.as_slice())? {
        Some(again) => Ok(again.as_slice() == text.as_slice()),
        None => Ok(false),
    }
}

/// Of how many of so many drivers, those of the seeds from 0 on, the text is read back, in words.
pub fn told_back(alloc: Global, drivers: u64) -> Result<String> {
    let design = design(alloc)?.with_context(|| "no design")?;
    let mut count = 0u64;
    for seed in 0..drivers {
        if is_read_back(alloc, &design, seed)? {
            count = count.saturating_add(1);
        }
    }
    Ok(format!(in alloc; "{count} of {drivers} drivers are read back\n")?)
}
