//! A drawn driver as text.
use super::answers::push_answers;
use super::draw::blocks;
use super::specification::design;
use anyhow::{Context, Result};
use rand_core::SeedableRng;
use rand_pcg::Pcg32;
use std::alloc::Global;
use tm_cir::Blocks;
use tm_cprint::print;

/// The driver of a seed: its C text, a line `answers`, and a line for each of some states with the answer there.
pub fn sample(alloc: Global, seed: u64) -> Result<String> {
    let design = design(alloc)?.with_context(|| "no design")?;
    let mut rng = Pcg32::seed_from_u64(seed);
    let blocks = Blocks::new(&design, blocks(alloc, &mut rng)?).with_context(|| "no driver")?;
    let mut text = String::from_utf8(print(alloc, &design, &blocks)?).with_context(|| "no text")?;
    text.push_str("answers\n")?;
    push_answers(alloc, &design, &blocks, &mut rng, &mut text)?;
    Ok(text)
}
