//! The numbers of sets of states among the entries of a certificate.
ghost use Rattle.std.specs.Prelude.{◌≡◌, IfOk, length};
ghost use Rattle.tm_dd.specs.Reduced.{IsReduced, RanksRise};
ghost use Rattle.tm_game.specs.Start.{state_bits_in};
ghost use Rattle.tm_game_bits.specs.Order.{IsOrder};
ghost use Rattle.tm_numbering.specs.Numbers.{HasNumber};
ghost use Rattle.tm_solve_exact.specs.Exact.{IsStateSet};
ghost use Rattle.tm_strat_cert.specs.Inner.Placed.{IsNumbering, Places};

use indexmap::IndexSet;
use std::alloc::{AllocError, Global};
use tm_cert::Entry;
use tm_dd::NodeId;
use tm_game::Game;
use tm_numbering::number;

// The number of a set: its nodes are put behind the others where they are not there.
pub(crate) fn place(
    game: &Game,
    kept: &mut IndexSet<NodeId>,
    nodes: &mut Vec<Entry>,
    set: NodeId,
) -> Result<u64, AllocError>
    requires set { IsStateSet game.now set }
    requires numbered { IsNumbering game.now kept.old.keys nodes.old.items }
    ensures { IfOk result (λ n. Places game.now kept.old.keys kept.new.keys nodes.new.items
        (HasNumber kept.new.keys set n)) }
{
    let store = game.manager().store();
    number(store, kept, nodes, set)
}

// The place of the bit of each level, as a certificate has it.
pub(crate) fn order_of(alloc: Global, game: &Game) -> Result<Vec<u32>, AllocError>
    ensures order { IfOk result (λ order. order.items ≡ game.now.order) }
    ensures places { IsOrder (state_bits_in game.now.flat) game.now.order }
    ensures reduced { IsReduced game.now.diagrams.table }
    ensures rises { RanksRise (length game.now.order) game.now.diagrams.table }
{
    let _store = game.manager().store();
    Vec::from_slice(alloc, game.order())
}
