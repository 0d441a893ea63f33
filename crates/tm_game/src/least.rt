//! The least valid state of a set.
ghost use Rattle.std.specs.Prelude.{◌≡◌, ◌+◌, ◌<◌, ◌≤◌, ◌^◌, All, IfOk, MatchOption, drop, length, sum};
ghost use Rattle.tm_game_bits.specs.AssignedStates.{numbers_from};
ghost use Rattle.tm_dd.specs.Reduced.{Extends};
ghost use Rattle.tm_dd.specs.Table.{Knows, assignment};
ghost use Rattle.tm_game.specs.Game.{Grows, IsOf, IsSet};
ghost use Rattle.tm_game.specs.Inner.LeastBits.{AreLeastBits, IsNowhere};
ghost use Rattle.tm_game.specs.Least.{HoldsNowhere, test_of};
ghost use Rattle.tm_game_bits.specs.Order.{IsOrder};
ghost use Rattle.tm_sem.specs.StateBits.{IsLeast, state_numbers};
ghost use Rattle.tm_syntax.specs.Design.{DesignTree};

use crate::game::Game;
use crate::numbers::{numbers_at, shortened};
use std::alloc::{AllocError, Global};
use tm_base::Steps;
use tm_dd::NodeId;
use tm_ddops::Manager;
use tm_game_bits::levels_by_place;
use tm_sem::state::State;

impl Game {
    /// The least valid state of a set, by place: at the first bit at which two states differ the lesser one has 0.
    ///
    /// `None` comes exactly where the set holds at no valid state. Every id keeps its meaning, also where memory runs
    /// out.
    pub fn least(&mut self, set: NodeId) -> Result<Option<State>, AllocError>
        requires { IsSet self.old set }
        ensures grows { Grows self.old self.new }
        ensures least { IfOk result (λ found. (d : DesignTree) → IsOf d self.old
            → MatchOption found (HoldsNowhere d (test_of d self.old set)) (IsLeast d (test_of d self.old set))) }
    {
        let alloc = self.encoding.alloc;
        let valid = self.made.steps.valid;
        let Some(bits) = least_bits(alloc, &self.order, valid, set, &mut self.dd)? else {
            return Ok(None);
        };
        let widths = &self.flat.widths[..self.encoding.numbers];
        let state = state_at(alloc, &bits, widths, self.encoding.first)?;
        Ok(Some(state))
    }
}

// The bits by place at which two functions are true and none come before.
fn least_bits(
    alloc: Global,
    order: &[u32],
    valid: NodeId,
    set: NodeId,
    dd: &mut Manager,
) -> Result<Option<Vec<bool>>, AllocError>
    requires order { IsOrder (length order.now) order.now }
    requires few { length order.now < 2 ^ 32 }
    requires levels { length order.now ≤ dd.old.table.levels }
    requires valid { Knows dd.old.table valid }
    requires set { Knows dd.old.table set }

    ensures extends { Extends dd.old.table dd.new.table }
    ensures least { IfOk result (λ found. MatchOption found (IsNowhere dd.old.table valid set)
        (λ bits. AreLeastBits dd.old.table valid set order.now bits.items)) }
{
    let both = dd.and(valid, set, &mut Steps::new(()))?;
    let levels = levels_by_place(alloc, order)?;
    let bits = tm_game_bits::least(alloc, dd, both, &levels)?;
    Ok(bits)
}

// The state whose numbers have these widths and bits. `first` is the number of the first location.
fn state_at(alloc: Global, bits: &[bool], widths: &[u8], first: usize) -> Result<State, AllocError>
    requires first { first < length widths.now }
    requires bits { sum widths.now ≤ length bits.now }
    requires widths { All (λ w. w ≤ 64) widths.now }
    requires short { All (λ w. w ≤ 32) (drop first widths.now) }
    ensures numbers { IfOk result (λ s. state_numbers s ≡ numbers_from widths.now (assignment bits.now) 0) }
    ensures values { IfOk result (λ s. length s.values ≡ first) }
    ensures places { IfOk result (λ s. first + length s.places + 1 ≡ length widths.now) }
{
    let numbers = numbers_at(alloc, bits, widths)?;
    let last = widths.len() - 1;
    let values = Vec::from_slice(alloc, &numbers[..first])?;
    let places = shortened(alloc, &numbers[first..last])?;
    Ok(State {
        values,
        places,
        last: numbers[last] as u32,
    })
}
