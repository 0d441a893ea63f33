//! What a game is made with: terms, and the levels of their inputs.
ghost use Rattle.std.specs.Prelude.{◌≡◌, ◌+◌, ◌-◌, ◌<◌, ◌≤◌, ◌^◌, IfOk, length, sum, take};
ghost use Rattle.tm_flat.specs.Flat.{flat_terms};
ghost use Rattle.tm_game.specs.Inner.Starts.{IsStart};
ghost use Rattle.tm_game.specs.Start.{CanStart, state_bits_in};
ghost use Rattle.tm_game_bits.specs.Order.{IsOrder};
ghost use Rattle.tm_syntax.specs.Design.{DesignTree};

use std::alloc::{AllocError, Global};
use tm_flat::Flat;
use tm_game_bits::input_levels;
use tm_game_steps::{Encoding, Place, pass_terms, place_terms};
use tm_term::{TermId, Terms};

/// How many inputs are bits of choices or of arguments.
const BITS: usize = 128;

/// Terms with the levels of their inputs, the places of processes, and the numbers of a state that passes.
#[derive(Drop)]
pub(crate) struct Start {
    pub(crate) encoding: Encoding,
    pub(crate) places: Vec<Place>,
    pub(crate) stutter: Vec<TermId>,
    pub(crate) idle: Vec<TermId>,
}

/// The number of bits of a state, where these are the widths of all inputs.
pub(crate) fn state_bits(widths: &[u8]) -> u32
    requires inputs { 128 ≤ length widths.now }
    requires count { sum (take (length widths.now - 128) widths.now) < 2 ^ 32 }
    ensures { result ≡ sum (take (length widths.now - 128) widths.now) }
{
    let numbers = &widths[..widths.len() - BITS];
    let mut count = 0;
    for width in numbers {
        count += u32::from(*width);
    }
    count
}

/// What a game is made with.
pub(crate) fn prepare(
    alloc: Global,
    flat: &Flat,
    mut terms: Terms,
    order: &[u32],
) -> Result<Start, AllocError>
    requires design { (d : DesignTree) × CanStart d terms (flat_terms flat.now) }
    requires order { IsOrder (state_bits_in (flat_terms flat.now)) order.now }
    ensures { IfOk result (IsStart terms (flat_terms flat.now) order.now) }
{
    let numbers = flat.widths.len() - BITS;
    let first = numbers - 1 - flat.processes.len();
    let levels = given!(input_levels(alloc, order, &flat.widths[..numbers]), terms);
    let places = given!(
        place_terms(alloc, &mut terms, &flat.magic, first),
        levels,
        terms
    );
    let stutter = given!(
        pass_terms(alloc, &mut terms, numbers, 0),
        places,
        levels,
        terms
    );
    let idle = given!(
        pass_terms(alloc, &mut terms, numbers, 1),
        stutter,
        places,
        levels,
        terms
    );
    Ok(Start {
        encoding: Encoding {
            alloc,
            terms,
            levels,
            state_levels: order.len() as u32,
            numbers,
            first,
        },
        places,
        stutter,
        idle,
    })
}
