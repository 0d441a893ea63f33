//! The last sets in which the driver was asked to stay.
ghost use Rattle.std.specs.Prelude.{◌≡◌, IfSome};
ghost use Rattle.tm_dd.specs.Table.{Table, Knows, means};
ghost use Rattle.tm_game_bits.specs.Functions.{GameFunctions};

use tm_dd::{FALSE, NodeId};

/// How many answers are remembered: a fixpoint asks for three sets in turn, and the next one for many of the same.
const ROOM: usize = 256;

/// A set, and where the driver stays in it.
#[derive(Clone, Copy)]
pub(crate) struct Answer {
    pub(crate) set: NodeId,
    pub(crate) stays: NodeId,
}

/// The answers on the last sets that a game was asked for, so that none is found anew.
///
/// They are right for the game and the manager with which they were found, and stay so when diagrams are added.
/// `Manager::copy_roots` voids them.
#[derive(Drop)]
pub struct Recent {
    // The one that was used last comes first.
    answers: [Answer; ROOM],
}

impl Recent {
    ghost use Rattle.tm_game_bits.specs.Diagrams.{IsSetOf};
    ghost use Rattle.tm_game_bits.specs.Forcing.{Stays};
    ghost use Rattle.tm_game_bits.specs.Recent.{AreAnswers, IsAnswer};

    /// No answers but the one that the driver cannot stay in the empty set.
    pub fn new() -> Recent
        ensures { (s : Table) (g : GameFunctions) → AreAnswers s g result }
    {
        let nowhere = Answer {
            set: FALSE,
            stays: FALSE,
        };
        Recent {
            answers: [nowhere; ROOM],
        }
    }

    // The answer on a set.
    pub(crate) fn recall(&self, set: NodeId) -> Option<NodeId>
        ensures { (s : Table) (g : GameFunctions) → AreAnswers s g self.now → IfSome result
            (IsSetOf s (Stays g (means s set))) }
    {
        for answer in &self.answers {
            if answer.set == set {
                return Some(answer.stays);
            }
        }
        None
    }

    // Puts an answer in front. An older one on its set is dropped, or else the first one on the empty set, which needs
    // none, or else the last one.
    pub(crate) fn note(&mut self, set: NodeId, stays: NodeId)
        ensures { (s : Table) (g : GameFunctions) → AreAnswers s g self.old → Knows s set →
            IsSetOf s (Stays g (means s set)) stays → AreAnswers s g self.new }
    {
        let mut carried = Answer { set, stays };
        for place in 0..ROOM {
            let earlier = self.answers[place];
            self.answers[place] = carried;
            if earlier.set == set || earlier.set == FALSE {
                return;
            }
            carried = earlier;
        }
    }
}

impl Default for Recent {
    fn default() -> Recent {
        Recent::new()
    }
}
