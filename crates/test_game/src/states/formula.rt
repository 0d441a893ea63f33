//! Sets of states as formulas over the levels of a state.

use super::levels::is_at;
use crate::steps::{Draw, word};
use std::alloc::{AllocError, Global};

/// A level of a state, and whether it is to be false.
#[derive(Clone, Copy)]
pub struct Literal {
    pub level: u32,
    pub negated: bool,
}

/// How a part is joined to what stands in front of it.
#[derive(Clone, Copy)]
pub enum Joint {
    And,
    Or,
    Xor,
}

/// Two literals, both of which have to hold, and how they are joined to what stands in front of them.
#[derive(Clone, Copy)]
pub struct Part {
    pub joint: Joint,
    pub one: Literal,
    pub other: Literal,
}

/// A set of states: its parts are joined from the left to all states, or to none.
#[derive(Drop)]
pub struct Formula {
    pub begins_full: bool,
    pub parts: Vec<Part>,
}

/// The most parts of a formula.
const MOST_PARTS: usize = 7;

impl Literal {
    /// A literal of one of so many levels.
    fn drawn(draw: &mut Draw, levels: usize) -> Literal {
        Literal {
            level: word(draw.below(levels) as u64),
            negated: draw.below(2) == 1,
        }
    }

    /// Whether it holds for these values of levels.
    fn holds(self, values: &[bool]) -> bool {
        is_at(values, self.level as usize) != self.negated
    }
}

impl Joint {
    /// One of the three.
    fn drawn(draw: &mut Draw) -> Joint {
        match draw.below(3) {
            0 => Joint::And,
            1 => Joint::Or,
            _ => Joint::Xor,
        }
    }

    /// What two truth values come to.
    fn join(self, before: bool, part: bool) -> bool {
        match self {
            Joint::And => before && part,
            Joint::Or => before || part,
            Joint::Xor => before != part,
        }
    }
}

impl Formula {
    /// A formula over so many levels.
    pub fn drawn(alloc: Global, draw: &mut Draw, levels: usize) -> Result<Formula, AllocError> {
        let begins_full = draw.below(2) == 1;
        let count = draw.below(MOST_PARTS);
        let mut parts = Vec::new(alloc);
        for _ in 0..count {
            parts.push(Part {
                joint: Joint::drawn(draw),
                one: Literal::drawn(draw, levels),
                other: Literal::drawn(draw, levels),
            })?;
        }
        Ok(Formula { begins_full, parts })
    }

    /// Whether it holds for these values of levels.
    pub fn holds(&self, values: &[bool]) -> bool {
        let mut holds = self.begins_full;
        for part in &self.parts {
            let both = part.one.holds(values) && part.other.holds(values);
            holds = part.joint.join(holds, both);
        }
        holds
    }
}
