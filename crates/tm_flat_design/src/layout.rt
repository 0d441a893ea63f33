//! What a design tells of its numbers.
ghost use Rattle.std.specs.Prelude.{IfOk};
ghost use Rattle.tm_syntax.specs.Design.View.{design_tree};
ghost use Rattle.tm_states.specs.States.{HaveLocations};
ghost use Rattle.tm_flat_states.specs.Markable.{IsMarkable};
ghost use Rattle.tm_flat_design.specs.Making.{IsLayout};

use std::alloc::{AllocError, Global};
use tm_flat_states::Marker;

/// The widths of the inputs of a design and of the parameters of its controllable tasks, and which of its locations are
/// magic blocks.
#[derive(Drop)]
pub(crate) struct Layout {
    pub widths: Vec<u8>,
    pub parameters: Vec<Vec<u8>>,
    pub magic: Vec<Vec<bool>>,
}

/// What a design tells of its numbers. `AllocError` is want of memory.
pub(crate) fn layout_of(alloc: Global, marker: &Marker<'_>) -> Result<Layout, AllocError>
    requires located { HaveLocations (design_tree marker.now.design.now) marker.now.locations.now }
    requires markable { IsMarkable marker.now.design.now }
    ensures { IfOk result (IsLayout (design_tree marker.now.design.now)) }
{
    let widths = marker.inputs(alloc)?;
    let parameters = marker.parameters(alloc)?;
    let magic = marker.magic(alloc)?;
    Ok(Layout {
        widths,
        parameters,
        magic,
    })
}
