//! How functions of the first levels of a game are written.

use crate::states::{Literal, both, literal_set};
use std::alloc::AllocError;
use tm_dd::{FALSE, NodeId, TRUE};
use tm_game::Game;

/// The words for the two constants, the values of the first two levels, both of these, and the first one's complement.
const WORDS: [&str; 6] = ["false", "true", "x", "y", "b", "z"];

/// The functions that the words stand for.
#[derive(Clone, Copy)]
pub struct Letters {
    ids: [NodeId; 6],
}

impl Letters {
    /// Makes these functions in a game. A level that is not one of a state is never true.
    pub fn of(game: &mut Game) -> Result<Letters, AllocError> {
        let first = Literal {
            level: 0,
            negated: false,
        };
        let second = Literal {
            level: 1,
            negated: false,
        };
        let opposite = Literal {
            level: 0,
            negated: true,
        };
        let x = literal_set(game, first)?;
        let y = literal_set(game, second)?;
        let b = both(game, first, second)?;
        let z = literal_set(game, opposite)?;
        Ok(Letters {
            ids: [FALSE, TRUE, x, y, b, z],
        })
    }

    /// The function that a word stands for, and `FALSE` for any other word.
    pub fn id(&self, word: &str) -> NodeId {
        for (place, known) in WORDS.iter().enumerate() {
            if *known == word {
                return self.ids.get(place).copied().unwrap_or(FALSE);
            }
        }
        FALSE
    }

    /// The word for a function, and `new` for one that has none.
    pub fn word(&self, id: NodeId) -> &'static str {
        for (place, known) in self.ids.iter().enumerate() {
            if *known == id {
                return WORDS.get(place).copied().unwrap_or("new");
            }
        }
        "new"
    }
}
