//! What the answers of a game are compared with.

use super::moves::{Asked, moves_of};
use super::places::{Place, place_at};
use super::questions::Question;
use crate::states::{Fields, Formula, is_at, levels_at, state_fields};
use crate::steps::Reach;
use std::alloc::{AllocError, Global};
use tm_game::Game;
use tm_plain::Machine;

/// The state of a word: the values of all levels at its bits, and what its moves lead to if it is valid.
#[derive(Drop)]
pub struct Spot {
    pub levels: Vec<bool>,
    pub place: Option<Place>,
}

/// What the answers of a game are compared with: the numbers of a state, the moves, and the state of each word of such
/// numbers.
#[derive(Drop)]
pub struct Table {
    pub fields: Fields,
    pub moves: Vec<Asked>,
    pub spots: Vec<Spot>,
}

/// The words in a set, and those outside.
#[derive(Drop)]
pub struct Members {
    inside: Vec<bool>,
    outside: Vec<bool>,
}

impl Members {
    // Whether a question about the set is to be answered by yes at a valid state.
    fn is_so(&self, question: Question, place: &Place) -> bool {
        match question {
            Question::Valid => true,
            Question::Turn => place.is_turn,
            Question::Goal(goal) => is_at(&place.goals, goal),
            Question::Set => false,
            Question::Calm => place.is_calm(&self.inside),
            Question::Stay => place.stays(&self.inside),
            Question::Force => !place.stays(&self.outside),
            Question::Good(_, number) => place.is_good(number, &self.inside),
        }
    }

    /// Whether a question about the set is to be answered by yes at a word.
    pub fn is_wanted(&self, question: Question, word: usize, spot: &Spot) -> bool {
        match (question, &spot.place) {
            (Question::Set, _) => is_at(&self.inside, word),
            (_, Some(place)) => self.is_so(question, place),
            (_, None) => false,
        }
    }
}

impl Table {
    /// The table of a machine's design, whose game this is, where choices are tried within a reach.
    pub fn of(
        alloc: Global,
        machine: &Machine,
        game: &Game,
        reach: Reach,
    ) -> Result<Table, AllocError> {
        let fields = state_fields(alloc, game)?;
        let moves = moves_of(alloc, game.flat())?;
        let mut spots = Vec::new(alloc);
        for word in 0..fields.words() {
            let place = place_at(alloc, machine, &fields, &moves, reach, word)?;
            let levels = levels_at(alloc, game, &fields, word)?;
            spots.push(Spot { levels, place })?;
        }
        Ok(Table {
            fields,
            moves,
            spots,
        })
    }

    /// The words of the set of a formula.
    pub fn members(&self, alloc: Global, formula: &Formula) -> Result<Members, AllocError> {
        let mut inside = Vec::new(alloc);
        let mut outside = Vec::new(alloc);
        for spot in &self.spots {
            let holds = formula.holds(&spot.levels);
            inside.push(holds)?;
            outside.push(!holds)?;
        }
        Ok(Members { inside, outside })
    }

    /// The bits of the arguments of the move that a question is about.
    pub fn arguments(&self, question: Question) -> &[bool] {
        if let Question::Good(_, number) = question
            && let Some(asked) = self.moves.get(number)
        {
            return &asked.arguments;
        }
        &[]
    }

    /// The word of the least valid state of a set.
    pub fn least(&self, members: &Members) -> Option<u64> {
        for (word, spot) in self.spots.iter().enumerate() {
            if spot.place.is_some() && is_at(&members.inside, word) {
                return Some(word as u64);
            }
        }
        None
    }

    /// How many states are valid.
    pub fn count(&self) -> u64 {
        let mut count = 0u64;
        for spot in &self.spots {
            count = count.saturating_add(u64::from(spot.place.is_some()));
        }
        count
    }
}
