//! A driver's calls, with their arguments in the places of the levels of arguments.
ghost use Rattle.std.specs.List.{range_with_len};
ghost use Rattle.std.specs.Prelude.{◌≡◌, ◌+◌, ◌<◌, ◌^◌, All, IfOk, length, map, min};
ghost use Rattle.tm_check.specs.Arguments.{placed};
ghost use Rattle.tm_check.specs.Reads.{Reads};
ghost use Rattle.tm_check.specs.Replies.{IsMove, move_of};
ghost use Rattle.tm_cir.specs.Fit.{FitsNum};
ghost use Rattle.tm_cir.specs.Tree as blocks;
ghost use Rattle.tm_cir.specs.View.{num_tree};
ghost use Rattle.tm_game.specs.Game.{Grows};
ghost use Rattle.tm_syntax.specs.Design.{DesignTree};

use crate::arguments::read_arguments;
use crate::terms::Reading;
use std::alloc::{AllocError, Global};
use tm_cir::Num64;
use tm_dd::NodeId;
use tm_game::{Game, MoveShape};
use tm_game_bits::ROOM;

/// Where the arguments of a call fit into their bits, and the functions of the levels of arguments.
#[derive(Drop)]
pub(crate) struct Placed {
    pub(crate) fits: NodeId,
    pub(crate) parts: Vec<(u32, NodeId)>,
}

/// A call of a task.
pub(crate) fn call(
    alloc: Global,
    game: &mut Game,
    reading: Reading,
    task: u32,
    args: &[Num64],
) -> Result<Placed, AllocError>
    requires reads { (d : DesignTree) × Reads d game.old reading }
    requires task { task < length game.old.flat.tasks }
    requires fits { All (λ n. FitsNum reading.vars reading.processes (num_tree n)) args.now }

    ensures grows { Grows game.old game.new }
    ensures call { IfOk result (λ p. (d : DesignTree) → Reads d game.old reading
        → IsMove d game.old.order game.new.diagrams.table
        (move_of reading.goal (blocks.call task (map num_tree args.now))) (MoveShape.Call task) p.fits p.parts.items) }
{
    let row = game.flat().parameters[task as usize].as_slice();
    let widths = Vec::from_slice(alloc, row)?;
    let first = game.order().len() as u32;
    let given = read_arguments(alloc, game, reading, args, &widths)?;
    let parts = places(alloc, first, &given.bits)?;
    Ok(Placed {
        fits: given.fit,
        parts,
    })
}

// The bits of arguments in the places of their levels, from the first on.
fn places(alloc: Global, first: u32, bits: &[NodeId]) -> Result<Vec<(u32, NodeId)>, AllocError>
    requires { first + 64 < 2 ^ 32 }
    ensures { IfOk result (λ parts. parts.items
        ≡ map (placed first bits.now) (range_with_len 0 (min (length bits.now) 64))) }
{
    let count = bits.len().min(ROOM as usize);
    let mut parts = Vec::new(alloc);
    for index in 0..count {
        parts.push((first + index as u32, bits[index]))?;
    }
    Ok(parts)
}
