//! Leads runs through the alternatives of a choice.
ghost use Rattle.std.specs.Prelude.{◌≤◌, ◌+◌, ◌-◌, IfOk};
ghost use Rattle.tm_base.specs.declared.place.Place as placed;
ghost use Rattle.tm_syntax.specs.Tree as trees;
ghost use Rattle.tm_syntax.specs.Tree.{alternatives_of};
ghost use Rattle.tm_syntax.specs.Design.Sizes.{bits_of_number};
ghost use Rattle.tm_flat.specs.Inputs.{room};
ghost use Rattle.tm_flat_bodies.specs.declared.stand.Stand as stands;
ghost use Rattle.tm_flat_bodies.specs.declared.waiting.Todo.TheVariants as todo;
ghost use Rattle.tm_flat_bodies.specs.Inner.Alternatives.{EntersChoice, block_rows};
ghost use Rattle.tm_flat_bodies.specs.Inner.Places.{IsAt, stack};
ghost use Rattle.tm_flat_bodies.specs.Inner.Waiting.{Does, OthersWalk, StepsTo, StmtGoal};
ghost use Rattle.tm_flat_bodies.specs.Inner.Weights.{stmt_most, todo_weight};
ghost use Rattle.tm_flat_bodies.specs.Tables.{known_by};
ghost use Rattle.tm_flat_bodies.specs.Walks.{IsStanding, StmtWalks};

use crate::branches::alternative;
use crate::course::Course;
use crate::stand::Stand;
use crate::waiting::{Row, Spot, Todo, Waiting};
use crate::walker::Walker;
use std::alloc::AllocError;
use tm_design::bits_of_number;
use tm_flat_stmts::{Flow, choice_number};
use tm_syntax::tree::Stmt;
use tm_term::TermId;

// The runs that have read the number of an alternative, with the term of that number and its width.
#[derive(Drop)]
pub(crate) struct Choice {
    pub flow: Flow,
    pub number: TermId,
    pub width: u8,
}

impl<'s> Walker<'s> {
    // Reads the number of one of so many alternatives.
    fn enter_choice(
        &self,
        course: &mut Course,
        flow: Flow,
        count: u64,
    ) -> Result<Choice, AllocError>
        requires standing { IsStanding (known_by self.now) course.old flow }
        requires within { flow.position + bits_of_number (count - 1) ≤ room }
        ensures { IfOk result (EntersChoice (known_by self.now) count course.old course.new flow) }
    {
        let width = bits_of_number(count.saturating_sub(1));
        let start = flow.position();
        let number = choice_number(&mut course.terms, self.first, start, width)?;
        Ok(Choice {
            flow: flow.moved(start + u64::from(width)),
            number,
            width,
        })
    }

    // Begins a choice: its alternatives are led through one after the other.
    pub(crate) fn choose(
        &self,
        course: &mut Course,
        waiting: &mut Waiting<'s>,
        spot: Spot,
        blocks: &'s [Vec<Stmt>],
        flow: Flow,
    ) -> Result<Option<Flow>, AllocError>
        requires { (stand : stands.Stand) × (at : placed.Place) × StmtWalks (known_by self.now) stand
            (trees.choose at (alternatives_of (block_rows blocks.now))) course.old flow }
        ensures { (start stand : stands.Stand) (at : placed.Place) → IsAt (known_by self.now) start spot stand →
            StmtWalks (known_by self.now) stand (trees.choose at (alternatives_of (block_rows blocks.now))) course.old
            flow → IfOk result (StepsTo (known_by self.now) start
            (StmtGoal (known_by self.now) stand (trees.choose at (alternatives_of (block_rows blocks.now))) course.old
            flow) (λ d. stmt_most d stand (trees.choose at (alternatives_of (block_rows blocks.now))))
            (stack waiting.old) (stack waiting.new) course.new) }
    {
        let choice = self.enter_choice(course, flow, blocks.len() as u64)?;
        waiting.leave(Todo::Alternatives(spot, choice, 0, blocks))?;
        Ok(None)
    }

    // Begins the alternative of a number. Behind the last one the choice ends.
    pub(crate) fn next_alternative(
        &self,
        start: &Stand<'s>,
        course: &mut Course,
        waiting: &mut Waiting<'s>,
        spot: Spot,
        choice: Choice,
        index: usize,
        blocks: &'s [Vec<Stmt>],
        joined: Option<Flow>,
    ) -> Result<Option<Flow>, AllocError>
        requires { OthersWalk (known_by self.now) start.now spot choice index blocks.now course.old joined }
        ensures { IfOk result (StepsTo (known_by self.now) start.now
            (Does (known_by self.now) start.now (todo.Alternatives spot choice index blocks.entry) course.old joined)
            (λ d. todo_weight d (known_by self.now) start.now (todo.Alternatives spot choice index blocks.entry))
            (stack waiting.old) (stack waiting.new) course.new) }
    {
        let Some(block) = blocks.get(index) else {
            return Ok(joined);
        };
        let here = alternative(
            course,
            &choice.flow,
            choice.number,
            choice.width,
            index as u64,
        )?;
        waiting.leave(Todo::Alternatives(spot, choice, index + 1, blocks))?;
        waiting.leave(Todo::Join(joined))?;
        waiting.leave(Todo::Row(spot, Row::Stmts(block.as_slice())))?;
        Ok(Some(here))
    }
}
