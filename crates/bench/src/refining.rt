//! Games decided over predicates.
ghost use Rattle.tm_syntax.specs.Design.View.{design_tree};
ghost use Rattle.tm_syntax.specs.Faults.{IsOfText, IsSound};

use crate::counting::{Counted, Tally};
use crate::games::exact_of;
use std::alloc::{AllocError, Global};
use tm_refine::{Decision, Pooled, Sided, Trace, decide};
use tm_syntax::design::Design;

/// Who wins the game of a design, over how many predicates, how many of them were added, in how many rounds, and how
/// many solutions over cells were sought in all.
///
/// A round is one solution over the cells of the tracked predicates, after which, if no side wins, some are added. The
/// other solutions are those that sought the shortest prefix of the additions over which the side wins.
pub fn refined(alloc: Global, design: &Design, word: &str) -> Result<String, AllocError>
    requires sound { IsSound (design_tree design.now) }
    requires of_text { IsOfText (design_tree design.now).spec }
{
    let exact = exact_of(alloc, design, word)?;
    let pooled = Pooled::new(alloc, exact);
    let mut sided = Sided {
        arena: Counted {
            arena: pooled,
            tally: Tally::new(),
        },
        tracked: Vec::new(alloc),
        upper: false,
    };
    let decision = decide(alloc, &mut sided, None)?;
    told(alloc, &decision, &sided.arena.tally)
}

// What comes of a decision with these solutions.
fn told(alloc: Global, decision: &Decision, tally: &Tally) -> Result<String, AllocError> {
    match decision {
        Decision::Driver(_, trace) => line(alloc, "driver", trace, tally),
        Decision::Environment(_, trace) => line(alloc, "environment", trace, tally),
        Decision::Spent(trace) => line(alloc, "undecided", trace, tally),
    }
}

// The line that tells it.
fn line(alloc: Global, winner: &str, trace: &Trace, tally: &Tally) -> Result<String, AllocError> {
    let added = trace.added.len();
    let tracked = added.saturating_add(trace.first as usize);
    let rounds = tally.rounds;
    let solutions = tally.solutions;
    format!(in alloc;
        "{winner}, predicates {tracked}, added {added}, rounds {rounds}, solutions {solutions}"
    )
}
