//! What a text of choices says.

use std::marker::Model;

/// Who moves in a step. A process goes by its number.
#[derive(Clone, Copy, Debug, PartialEq, Eq)]
pub enum Actor {
    Stutter,
    Process(u32),
    Driver,
}

/// A step: who moves, and with which choices.
#[derive(Drop)]
pub struct Turn {
    pub actor: Actor,
    pub choices: Vec<u64>,
}

impl Model for Turn {
    ghost use Rattle.tm_play.specs.Script.{TurnData};

    ghost Value = { TurnData };

    ghost view = { λ t. record { actor = t.actor; choices = t.choices.items } };
}

/// The choices of the initial state, and the steps in order.
#[derive(Drop)]
pub struct Script {
    pub start: Vec<u64>,
    pub turns: Vec<Turn>,
}

impl Model for Script {
    ghost use Rattle.tm_play.specs.Script.{ScriptData};

    ghost Value = { ScriptData };

    ghost view = { λ s. record { start = s.start.items; turns = s.turns.items } };
}
