//! Formulas as sets of a game.
ghost use Rattle.std.specs.Prelude.{IfOk};
ghost use Rattle.tm_game.specs.Game.{GameData, Grows, IsSet};

use super::formula::{Formula, Joint, Literal, Part};
use std::alloc::AllocError;
use tm_dd::{FALSE, NodeId, TRUE};
use tm_game::Game;

/// All states, or none.
fn constant_set(is_full: bool) -> NodeId
    ensures { (g : GameData) → IsSet g result }
{
    if is_full { TRUE } else { FALSE }
}

/// The set of a literal, and none of the states where the level is not one of a state.
pub fn literal_set(game: &mut Game, literal: Literal) -> Result<NodeId, AllocError>
    ensures grows { Grows game.old game.new }
    ensures set { IfOk result (IsSet game.new) }
{
    if literal.level as usize >= game.order().len() {
        return Ok(FALSE);
    }
    if literal.negated {
        game.make(literal.level, TRUE, FALSE)
    } else {
        game.make(literal.level, FALSE, TRUE)
    }
}

/// The set of two literals, both of which have to hold.
pub fn both(game: &mut Game, one: Literal, other: Literal) -> Result<NodeId, AllocError>
    ensures grows { Grows game.old game.new }
    ensures set { IfOk result (IsSet game.new) }
{
    let first = literal_set(game, one)?;
    let second = literal_set(game, other)?;
    game.and(first, second)
}

/// Two sets as one.
fn joined(game: &mut Game, joint: Joint, before: NodeId, part: NodeId) -> Result<NodeId, AllocError>
    requires before { IsSet game.old before }
    requires part { IsSet game.old part }
    ensures grows { Grows game.old game.new }
    ensures set { IfOk result (IsSet game.new) }
{
    match joint {
        Joint::And => game.and(before, part),
        Joint::Or => game.or(before, part),
        Joint::Xor => game.xor(before, part),
    }
}

/// A set with a part more.
fn longer(game: &mut Game, before: NodeId, part: Part) -> Result<NodeId, AllocError>
    requires { IsSet game.old before }
    ensures grows { Grows game.old game.new }
    ensures set { IfOk result (IsSet game.new) }
{
    let cube = both(game, part.one, part.other)?;
    joined(game, part.joint, before, cube)
}

/// The set of a formula.
pub fn set_of(game: &mut Game, formula: &Formula) -> Result<NodeId, AllocError>
    ensures grows { Grows game.old game.new }
    ensures set { IfOk result (IsSet game.new) }
{
    let mut set = constant_set(formula.begins_full);
    for part in &formula.parts {
        set = longer(game, set, *part)?;
    }
    Ok(set)
}
