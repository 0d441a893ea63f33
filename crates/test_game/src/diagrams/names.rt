//! How functions are written.

use crate::texts::truth_text;
use std::alloc::{AllocError, Global};
use tm_dd::{FALSE, NodeId, TRUE};

/// The letters that may stand for functions.
const LETTERS: [&str; 26] = [
    "a", "b", "c", "d", "e", "f", "g", "h", "i", "j", "k", "l", "m", "n", "o", "p", "q", "r", "s",
    "t", "u", "v", "w", "x", "y", "z",
];

/// The functions that letters stand for.
#[derive(Clone, Copy)]
pub struct Names {
    ids: [Option<NodeId>; 26],
}

/// The place of a letter.
fn place_of(word: &str) -> Option<usize> {
    LETTERS.iter().position(|letter| *letter == word)
}

impl Names {
    /// No letter stands for a function yet.
    pub fn new() -> Names {
        Names { ids: [None; 26] }
    }

    /// Lets a letter stand for a function.
    pub fn set(&mut self, letter: &str, id: NodeId) {
        if let Some(place) = place_of(letter) {
            if place < 26 {
                self.ids[place] = Some(id);
            }
        }
    }

    /// Lets two letters alone stand for functions.
    pub fn reset(&mut self, first: &str, f: NodeId, second: &str, g: NodeId) {
        *self = Names::new();
        self.set(first, f);
        self.set(second, g);
    }

    /// The function that a letter or the word of a constant stands for.
    pub fn id(&self, word: &str) -> Option<NodeId> {
        match word {
            "true" => Some(TRUE),
            "false" => Some(FALSE),
            _ => match place_of(word) {
                Some(place) if place < 26 => self.ids[place],
                _ => None,
            },
        }
    }

    /// How a function is written.
    pub fn word(&self, alloc: Global, id: NodeId) -> Result<String, AllocError> {
        if id.is_constant() {
            return truth_text(alloc, id == TRUE);
        }
        for place in 0..26usize {
            let letter = LETTERS[place];
            if self.ids[place] == Some(id) {
                return String::from_str(alloc, letter);
            }
            if self.ids[place] == Some(id.complement()) {
                return format!(in alloc; "!{letter}");
            }
        }
        String::from_str(alloc, "new")
    }
}
