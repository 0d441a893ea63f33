//! Drawn drivers as structured text, and back.
ghost use Rattle.std.specs.Prelude.{IfOk, IfSome};
ghost use Rattle.tm_syntax.specs.Design.View.{design_tree};
ghost use Rattle.tm_cir.specs.View.{trees_of};
ghost use Rattle.tm_cir.specs.Fit.{FitBlocks};

use super::answers::{push_answers, push_structured_answers};
use super::draw::blocks;
use super::specification::design;
use anyhow::{Context, Result};
use rand_core::SeedableRng;
use rand_pcg::Pcg32;
use std::alloc::{AllocError, Global};
use tm_cir::Blocks;
use tm_struct::{blocks_of, print_structured, structure};
use tm_struct_parse::read_structured;
use tm_syntax::design::Design;

/// The driver of a seed as structured text, a line `answers`, and a line for each of some states with the answer there.
pub fn sample(alloc: Global, seed: u64) -> Result<String> {
    let design = design(alloc)?.with_context(|| "no design")?;
    let mut rng = Pcg32::seed_from_u64(seed);
    let blocks = Blocks::new(&design, blocks(alloc, &mut rng)?).with_context(|| "no driver")?;
    let program = structure(alloc, &design, &blocks)?;
    let printed = print_structured(alloc, &design, &program)?;
    let mut text = String::from_utf8(printed).with_context(|| "no text")?;
    text.push_str("answers\n")?;
    push_structured_answers(alloc, &design, &program, &mut rng, &mut text)?;
    Ok(text)
}

/// The blocks of the structured text of blocks, if it is read.
fn blocks_again(
    alloc: Global,
    design: &Design,
    blocks: &Blocks,
) -> Result<Option<Blocks>, AllocError>
    requires { FitBlocks (design_tree design.now) (trees_of blocks.now) }
    ensures { IfOk result (λ found. IfSome found (λ again. FitBlocks (design_tree design.now) (trees_of again))) }
{
    let text = print_structured(alloc, design, &structure(alloc, design, blocks)?)?;
    match read_structured(alloc, design, text.as_slice()) {
        Ok(program) => Ok(Some(blocks_of(alloc, design, &program)?)),
        Err(_) => Ok(None),
    }
}

/// The answers of blocks at the states of a seed.
fn answers_of(
    alloc: Global,
    design: &Design,
    blocks: &Blocks,
    seed: u64,
) -> Result<String, AllocError>
    requires { FitBlocks (design_tree design.now) (trees_of blocks.now) }
{
    let mut rng = Pcg32::seed_from_u64(seed);
    let mut text = String::new(alloc);
    push_answers(alloc, design, blocks, &mut rng, &mut text)?;
    Ok(text)
}

/// Whether the driver of a seed goes to structured text and back with the same answers at drawn states.
fn comes_back(alloc: Global, design: &Design, seed: u64) -> Result<bool, AllocError> {
    let mut rng = Pcg32::seed_from_u64(seed);
    let Some(blocks) = Blocks::new(design, blocks(alloc, &mut rng)?) else {
        return Ok(false);
    };
    let Some(again) = blocks_again(alloc, design, &blocks)? else {
        return Ok(false);
    };
    let answers = answers_of(alloc, design, &blocks, seed)?;
    Ok(answers_of(alloc, design, &again, seed)?.as_str() == answers.as_str())
}

/// How many of so many drivers, those of the seeds from 0 on, come back, in words.
pub fn told_back(alloc: Global, drivers: u64) -> Result<String> {
    let design = design(alloc)?.with_context(|| "no design")?;
    let mut count = 0u64;
    for seed in 0..drivers {
        if comes_back(alloc, &design, seed)? {
            count = count.saturating_add(1);
        }
    }
    Ok(format!(in alloc;
        "{count} of {drivers} drivers come back from structured text with the same answers\n"
    )?)
}
