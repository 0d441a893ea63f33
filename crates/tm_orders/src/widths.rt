//! The widths of the numbers of a state.
ghost use Rattle.std.specs.Prelude.{◌≡◌, ◌≤◌, All, IfOk};
ghost use Rattle.tm_sem.specs.StateBits.{state_widths as widths_of_state};
ghost use Rattle.tm_syntax.specs.Design.View.{design_tree};
ghost use Rattle.tm_syntax.specs.Faults.{IsOfText, IsSound};

use std::alloc::{AllocError, Global};
use tm_flat_design::inputs;
use tm_syntax::design::Design;

// How many inputs of a design are bits of choices and of arguments: all behind the numbers of a state.
const BITS: usize = 128;

// The widths of the numbers of a state: of the variables, of the locations of the processes, and of who moved last.
pub(crate) fn state_widths(alloc: Global, design: &Design) -> Result<Vec<u8>, AllocError>
    requires sound { IsSound (design_tree design.now) }
    requires of_text { IsOfText (design_tree design.now).spec }
    ensures widths { IfOk result (λ widths. widths.items ≡ widths_of_state (design_tree design.now)) }
    ensures small { IfOk result (λ widths. All (λ w. w ≤ 64) widths.items) }
{
    let mut widths = inputs(alloc, design)?;
    let count = widths.len() - BITS;
    widths.truncate(count);
    Ok(widths)
}
