//! The symbolic game of a design.
ghost use Rattle.std.specs.Prelude.{◌≡◌, ◌+◌, ◌≤◌, length};
ghost use Rattle.tm_dd.specs.Reduced.{RanksRise};
ghost use Rattle.tm_flat.specs.Flat.{flat_terms};
ghost use Rattle.tm_game.specs.Start.{state_bits_in};
ghost use Rattle.tm_game_bits.specs.Order.{IsOrder};

use crate::opening::Kept;
use std::marker::Model;
use tm_blast::TermBits;
use tm_ddops::Manager;
use tm_flat::Flat;
use tm_game_bits::Recent;
use tm_game_steps::{Encoding, MadeGame};
use tm_term::Terms;

/// The symbolic game of a design, from its guarded updates: sets of states are diagrams over the levels of a state.
///
/// Contracts see it as its guarded updates, terms, order and diagrams, and the ids that it keeps. What they promise
/// they promise of every design that has these guarded updates. An id means the same until `copy_roots`.
#[derive(Drop)]
pub struct Game {
    pub(crate) flat: Flat,
    pub(crate) order: Vec<u32>,
    pub(crate) encoding: Encoding,
    pub(crate) bits: TermBits,
    pub(crate) dd: Manager,
    pub(crate) made: MadeGame,
    pub(crate) recent: Recent,
    pub(crate) kept: Kept,
}

impl Model for Game {
    ghost use Rattle.tm_game.specs.Game.{GameData};

    ghost Value = { GameData };

    ghost use Rattle.tm_game.specs.Layout.{IsGame, game_data};

    ghost view = { game_data };

    ghost invariant = { IsGame };
}

impl Game {
    /// The place of the bit of each level of a state: each place once. In diagrams these levels stand in the order of
    /// their numbers. Behind them come 128 of bits of arguments and of choices, and then one for each predicate of the
    /// pool. It takes no memory.
    pub fn order(&self) -> &[u32]
        ensures value { result.now ≡ self.now.order }
        ensures places { IsOrder (state_bits_in self.now.flat) self.now.order }
        ensures rises { RanksRise (length self.now.order) self.now.diagrams.table }
        ensures levels { length self.now.order + 128 ≤ self.now.diagrams.table.levels }
        ensures predicates { length self.now.order + 128 + length self.now.flat.pool
            ≤ self.now.diagrams.table.levels }
    {
        &self.order
    }

    /// The guarded updates. It takes no memory.
    pub fn flat(&self) -> &Flat
        ensures { flat_terms result.now ≡ self.now.flat }
    {
        &self.flat
    }

    /// The terms. It takes no memory.
    pub fn terms(&self) -> &Terms
        ensures { result.now ≡ self.now.terms }
    {
        &self.encoding.terms
    }

    /// The diagrams. It takes no memory.
    pub fn manager(&self) -> &Manager
        ensures { result.now ≡ self.now.diagrams }
    {
        &self.dd
    }
}
