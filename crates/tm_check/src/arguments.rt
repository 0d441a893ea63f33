//! The arguments of a driver's calls, as the diagrams of their bits.
ghost use Rattle.std.specs.Prelude.{◌≤◌, All, IfOk, map};
ghost use Rattle.tm_check.specs.Arguments.{AreArguments, IsArgument, IsFitting};
ghost use Rattle.tm_check.specs.Reads.{IsSized, Reads};
ghost use Rattle.tm_cir.specs.Fit.{FitsNum};
ghost use Rattle.tm_cir.specs.View.{num_tree};
ghost use Rattle.tm_dd.specs.Table.{Knows};
ghost use Rattle.tm_flat.specs.Steps.{IsTerm};
ghost use Rattle.tm_game.specs.Game.{Grows, IsOf};
ghost use Rattle.tm_syntax.specs.Design.{DesignTree};

use crate::terms::Reading;
use std::alloc::{AllocError, Global};
use tm_cir::Num64;
use tm_dd::{FALSE, NodeId, TRUE};
use tm_game::Game;
use tm_term::{Term, TermId};

/// How many bits a number has in C.
const WIDTH: u8 = 64;

/// The arguments of a call: where each fits into the bits of its parameter, since elsewhere it is none of its type, and
/// the bits of all, one parameter behind the other, each with its most significant bit first.
#[derive(Drop)]
pub(crate) struct Arguments {
    pub(crate) fit: NodeId,
    pub(crate) bits: Vec<NodeId>,
}

/// The arguments of a call, whose parameters have these widths.
pub(crate) fn read_arguments(
    alloc: Global,
    game: &mut Game,
    reading: Reading,
    nums: &[Num64],
    widths: &[u8],
) -> Result<Arguments, AllocError>
    requires reads { (d : DesignTree) × Reads d game.old reading }
    requires fits { All (λ n. FitsNum reading.vars reading.processes (num_tree n)) nums.now }
    requires widths { All (λ w. w ≤ 64) widths.now }

    ensures grows { Grows game.old game.new }
    ensures are { IfOk result (λ a. (d : DesignTree) → Reads d game.old reading
        → AreArguments d game.old.order game.new.diagrams.table reading.goal widths.now (map num_tree nums.now) a.fit
        a.bits.items) }
{
    let mut fit = TRUE;
    let mut bits = Vec::new(alloc);
    if widths.len() != nums.len() {
        return Ok(Arguments { fit: FALSE, bits });
    }
    for index in 0..nums.len() {
        fit = put_argument(game, reading, &nums[index], widths[index], fit, &mut bits)?;
    }
    Ok(Arguments { fit, bits })
}

// Puts the low bits of an argument behind those before it, and answers where it fits, too.
fn put_argument(
    game: &mut Game,
    reading: Reading,
    num: &Num64,
    width: u8,
    fit: NodeId,
    bits: &mut Vec<NodeId>,
) -> Result<NodeId, AllocError>
    requires reads { (d : DesignTree) × Reads d game.old reading }
    requires fits { FitsNum reading.vars reading.processes (num_tree num.now) }
    requires width { width ≤ 64 }
    requires known { Knows game.old.diagrams.table fit }

    ensures grows { Grows game.old game.new }
    ensures put { IfOk result (λ id. (d : DesignTree) → Reads d game.old reading
        → IsArgument d game.old.order game.old.diagrams.table game.new.diagrams.table reading.goal (num_tree num.now)
        width fit id bits.old.items bits.new.items) }
{
    let argument = reading.num(game, num)?;
    let all = game.bits(argument)?;
    let fits = fitting(game, argument, width)?;
    let both = game.and(fit, fits)?;
    bits.extend_from_slice(&all[(WIDTH - width) as usize..])?;
    Ok(both)
}

// Where a number is one of a width.
fn fitting(game: &mut Game, num: TermId, width: u8) -> Result<NodeId, AllocError>
    requires of { (d : DesignTree) × IsOf d game.old }
    requires num { IsTerm game.old.terms 64 num }
    requires width { width ≤ 64 }

    ensures grows { Grows game.old game.new }
    ensures fitting { IfOk result (λ id. (d : DesignTree) → IsOf d game.old → IsSized game.old
        → IsFitting d game.old.order game.old.terms game.new.diagrams.table num width id) }
{
    if width == WIDTH {
        return Ok(TRUE);
    }
    let limit = game.mk(Term::Const(WIDTH, 1 << width))?;
    let test = game.mk(Term::Less(num, limit))?;
    let bits = game.bits(test)?;
    Ok(bits[0])
}
