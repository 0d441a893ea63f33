//! The weight order and the control order of the bits of a design's states.
ghost use Rattle.std.specs.Prelude.{◌≡◌, IfOk, sum};
ghost use Rattle.tm_game_bits.specs.Order.{IsOrder};
ghost use Rattle.tm_sem.specs.StateBits as state_bits;
ghost use Rattle.tm_syntax.specs.Design.View.{design_tree};
ghost use Rattle.tm_syntax.specs.Faults.{IsOfText, IsSound};

use crate::control::control_order;
use crate::widths::state_widths;
use std::alloc::{AllocError, Global};
use tm_game_bits::weight_order;
use tm_syntax::design::Design;

/// Two orders of the bits of a design's states. Each has every place once.
#[derive(Drop)]
pub struct Orders {
    /// The weight order, in which certificates are written: bits that are farther from the least significant bit of
    /// their number come first, and equally far ones by place.
    pub weight: Vec<u32>,
    /// The control order, in which games are solved and certificates checked: first where processes stand and who moved
    /// last, then values of at most 3 bits, each by place, then wider values as in the weight order.
    ///
    /// On models of devices the sets of a solution are 20 to 180 times dearer in the weight order, in which a test of
    /// where a process stands is below most values.
    pub control: Vec<u32>,
}

/// The orders of the bits of the states of a design of a text.
///
/// Linear in the text and in the statements of its processes, with the bodies that these call; it sorts the bits of a
/// state. `AllocError` is want of memory.
pub fn orders_of(alloc: Global, design: &Design) -> Result<Orders, AllocError>
    requires sound { IsSound (design_tree design.now) }
    requires of_text { IsOfText (design_tree design.now).spec }
    ensures by_weight { IfOk result
        (λ o. o.weight.items ≡ state_bits.weight_order (state_bits.state_widths (design_tree design.now))) }
    ensures weight { IfOk result
        (λ o. IsOrder (sum (state_bits.state_widths (design_tree design.now))) o.weight.items) }
    ensures control { IfOk result
        (λ o. IsOrder (sum (state_bits.state_widths (design_tree design.now))) o.control.items) }
{
    let widths = state_widths(alloc, design)?;
    let weight = weight_order(alloc, &widths)?;
    let control = control_order(alloc, &widths, &weight, design.vars.len())?;
    Ok(Orders { weight, control })
}
