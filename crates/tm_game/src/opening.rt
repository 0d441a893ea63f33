//! A game from guarded updates and an order of the levels of a state.
ghost use Rattle.std.specs.List.{range_with_len};
ghost use Rattle.std.specs.Prelude.{◌≡◌, ◌+◌, ◌<◌, ◌≤◌, ◌^◌, IfOk, length};
ghost use Rattle.tm_dd.specs.Reduced.{Extends as ExtendsDiagrams, RanksRise};
ghost use Rattle.tm_flat.specs.Flat.{flat_terms};
ghost use Rattle.tm_game.specs.Game.{IsOf};
ghost use Rattle.tm_game.specs.Inner.Starts.{AreSetsKept, IsStart};
ghost use Rattle.tm_game.specs.Start.{CanStart, state_bits_in};
ghost use Rattle.tm_game_bits.specs.Order.{IsOrder};
ghost use Rattle.tm_game_steps.specs.Made.{IsMadeGame};
ghost use Rattle.tm_game_steps.specs.Setting.{IsReady, setting_of};
ghost use Rattle.tm_game_steps.specs.Telling.{HasTerms};
ghost use Rattle.tm_syntax.specs.Design.{DesignTree};
ghost use Rattle.tm_term.specs.Value.{Extends};

use crate::game::Game;
use crate::start::{prepare, state_bits};
use std::alloc::{AllocError, Global};
use tm_base::Steps;
use tm_blast::TermBits;
use tm_dd::NodeId;
use tm_ddops::Manager;
use tm_flat::Flat;
use tm_game_bits::{ROOM, Recent, levels_above, place_order, ranks_among};
use tm_game_steps::{Encoding, MadeGame};
use tm_term::Terms;

/// The ids that a game keeps beside those of its steps.
#[derive(Drop)]
pub(crate) struct Kept {
    pub(crate) goals: Vec<NodeId>,
    pub(crate) fairs: Vec<NodeId>,
    pub(crate) initial: NodeId,
    pub(crate) turn: NodeId,
}

impl Game {
    /// The game of guarded updates, whose levels of a state are the places in order.
    ///
    /// `AllocError` is want of memory.
    pub fn new(alloc: Global, flat: Flat, terms: Terms) -> Result<Game, AllocError>
        requires { (d : DesignTree) × CanStart d terms (flat_terms flat) }

        ensures flat { IfOk result (λ g. g.flat ≡ flat_terms flat) }
        ensures terms { IfOk result (λ g. Extends terms g.terms) }
        ensures order { IfOk result (λ g. g.order ≡ range_with_len 0 (state_bits_in (flat_terms flat))) }
        ensures goals { IfOk result (λ g. length g.goals ≡ length g.flat.goals) }
        ensures fairs { IfOk result (λ g. length g.fairs ≡ length g.flat.fairs) }
        ensures of { IfOk result (λ g. (d : DesignTree) → CanStart d terms (flat_terms flat) → IsOf d g) }
    {
        let count = state_bits(&flat.widths);
        let order = given!(place_order(alloc, count), flat, terms);
        let game = given!(Game::with_order(alloc, flat, terms, order));
        Ok(game)
    }

    /// The game of guarded updates, whose levels of a state follow an order of the places of its bits. Behind them
    /// stand the levels of bits of arguments, of bits of choices, and one for each predicate of the pool.
    ///
    /// `AllocError` is want of memory.
    pub fn with_order(
        alloc: Global,
        flat: Flat,
        terms: Terms,
        order: Vec<u32>,
    ) -> Result<Game, AllocError>
        requires design { (d : DesignTree) × CanStart d terms (flat_terms flat) }
        requires order { IsOrder (state_bits_in (flat_terms flat)) order.items }

        ensures flat { IfOk result (λ g. g.flat ≡ flat_terms flat) }
        ensures terms { IfOk result (λ g. Extends terms g.terms) }
        ensures order { IfOk result (λ g. g.order ≡ order.items) }
        ensures goals { IfOk result (λ g. length g.goals ≡ length g.flat.goals) }
        ensures fairs { IfOk result (λ g. length g.fairs ≡ length g.flat.fairs) }
        ensures of { IfOk result (λ g. (d : DesignTree) → CanStart d terms (flat_terms flat) → IsOf d g) }
    {
        let mut bits = TermBits::new(alloc);
        let mut dd = given!(
            manager(alloc, &flat, &terms, &order),
            bits,
            flat,
            terms,
            order
        );
        let start = given!(prepare(alloc, &flat, terms, &order), dd, bits, flat, order);
        let steps = start.encoding.game(
            &flat,
            &start.places,
            &start.stutter,
            &start.idle,
            &mut bits,
            &mut dd,
        );
        let made = given!(steps, start, dd, bits, flat, order);
        let ids = kept_ids(&start.encoding, &flat, &made, &mut bits, &mut dd);
        let kept = given!(ids, made, start, dd, bits, flat, order);
        Ok(Game {
            flat,
            order,
            encoding: start.encoding,
            bits,
            dd,
            made,
            recent: Recent::new(),
            kept,
        })
    }
}

// A manager with the levels of a game. Those of bits of arguments and choices stand among those of a state in diagrams.
fn manager(alloc: Global, flat: &Flat, terms: &Terms, order: &[u32]) -> Result<Manager, AllocError>
    requires { length order.now + 128 + length (flat_terms flat.now).pool < 2 ^ 32 }
    ensures levels { IfOk result (λ m.
        m.table.levels ≡ length order.now + 128 + length (flat_terms flat.now).pool) }
    ensures rises { IfOk result (λ m. RanksRise (length order.now) m.table) }
{
    let states = order.len() as u32;
    let levels = states + 2 * ROOM + flat.pool.len() as u32;
    let above = levels_above(alloc, flat, terms, order)?;
    let ranks = ranks_among(alloc, states, levels, &above)?;
    let dd = Manager::arranged(alloc, levels, ranks)?;
    Ok(dd)
}

// The ids that a game keeps.
fn kept_ids(
    encoding: &Encoding,
    flat: &Flat,
    made: &MadeGame,
    bits: &mut TermBits,
    dd: &mut Manager,
) -> Result<Kept, AllocError>
    requires terms { HasTerms (setting_of encoding.now) (flat_terms flat.now) }
    requires made { IsMadeGame (setting_of encoding.now) (flat_terms flat.now) dd.old.table made.now }
    requires ready { IsReady (setting_of encoding.now) dd.old.table bits.old }

    ensures earlier { ExtendsDiagrams dd.old.table dd.new.table }
    ensures ready { IsReady (setting_of encoding.now) dd.new.table bits.new }
    ensures kept { IfOk result (AreSetsKept (setting_of encoding.now) (flat_terms flat.now) dd.new.table made.now) }
{
    let valid = made.steps.valid;
    let turn = dd.and(valid, made.steps.turn, &mut Steps::new(()))?;
    let goals = encoding.sets(valid, &flat.goals, bits, dd)?;
    let fairs = encoding.always_sets(valid, &flat.fairs, bits, dd)?;
    let initial = encoding.set(valid, flat.initial, bits, dd)?;
    Ok(Kept {
        goals,
        fairs,
        initial,
        turn,
    })
}
