//! The expressions of a driver's blocks, as terms.
ghost use Rattle.std.specs.Prelude.{◌<◌, ◌≤◌, IfOk, length, slice_index};
ghost use Rattle.tm_check.specs.Reading.{CanRead, num_at, truth_at};
ghost use Rattle.tm_check.specs.Worth.{IsInputNumber, IsWorth};
ghost use Rattle.tm_base.specs.Arithmetic as bits;
ghost use Rattle.tm_base.specs.Shift.{shift};
ghost use Rattle.tm_cir.specs.Fit.{FitsNum, FitsTruth};
ghost use Rattle.tm_cir.specs.Meaning.{binary_value};
ghost use Rattle.tm_cir.specs.Tree as blocks;
ghost use Rattle.tm_cir.specs.View.{num_tree, truth_tree};
ghost use Rattle.tm_game.specs.Game.{Grows};

use crate::operators::{binary, compared, joined, nonzero, shifted};
use std::alloc::AllocError;
use tm_base::ShiftOperator;
use tm_cir::block::{Comparison, Junction, NumOperator};
use tm_cir::{Num64, Truth};
use tm_game::Game;
use tm_term::{Term, TermId};

/// How many variables and processes a state has, whose numbers are the first inputs, and the number of the goal that is
/// pending.
#[derive(Clone, Copy)]
pub(crate) struct Reading {
    pub(crate) vars: u32,
    pub(crate) processes: u32,
    pub(crate) goal: u32,
}

impl Reading {
    /// The term of a number, of 64 bits. Every id keeps its meaning, also where memory runs out.
    #[cycle(reading)]
    pub(crate) fn num(self, game: &mut Game, num: &Num64) -> Result<TermId, AllocError>
        requires fits { FitsNum self.vars self.processes (num_tree num.now) }
        requires inputs { CanRead game.old.terms.inputs self }

        ensures grows { Grows game.old game.new }
        ensures worth { IfOk result (IsWorth game.new.terms 64 (num_at self (num_tree num.now))) }
    {
        match num {
            Num64::Const(number) => constant(game, *number),
            Num64::Var(var) => input(game, *var),
            Num64::Location(process) => input(game, self.vars + *process),
            Num64::Goal => constant(game, u64::from(self.goal)),
            Num64::Last => input(game, self.vars + self.processes),
            Num64::Not(a) => self.turned(game, a),
            Num64::Binary(operator, a, b) => self.combined(game, *operator, a, b),
            Num64::Shift(operator, a, by) => self.moved(game, *operator, a, *by),
            Num64::Cond(truth, a, b) => self.chosen(game, truth, a, b),
        }
    }

    // Each bit turned over.
    #[cycle(reading)]
    fn turned(self, game: &mut Game, a: &Num64) -> Result<TermId, AllocError>
        requires fits { FitsNum self.vars self.processes (num_tree a.now) }
        requires inputs { CanRead game.old.terms.inputs self }

        ensures grows { Grows game.old game.new }
        ensures worth { IfOk result (IsWorth game.new.terms 64
            (λ values. bits.complement 64 (num_at self (num_tree a.now) values))) }
    {
        let a = self.num(game, a)?;
        let not = game.mk(Term::Not(a))?;
        Ok(not)
    }

    // An operator between two numbers.
    #[cycle(reading)]
    fn combined(
        self,
        game: &mut Game,
        operator: NumOperator,
        a: &Num64,
        b: &Num64,
    ) -> Result<TermId, AllocError>
        requires first { FitsNum self.vars self.processes (num_tree a.now) }
        requires second { FitsNum self.vars self.processes (num_tree b.now) }
        requires inputs { CanRead game.old.terms.inputs self }

        ensures grows { Grows game.old game.new }
        ensures worth { IfOk result (IsWorth game.new.terms 64 (λ values.
            binary_value operator (num_at self (num_tree a.now) values) (num_at self (num_tree b.now) values))) }
    {
        let one = self.num(game, a)?;
        let other = self.num(game, b)?;
        let both = game.mk(binary(operator, one, other))?;
        Ok(both)
    }

    // A shift by a constant.
    #[cycle(reading)]
    fn moved(
        self,
        game: &mut Game,
        operator: ShiftOperator,
        a: &Num64,
        by: u8,
    ) -> Result<TermId, AllocError>
        requires fits { FitsNum self.vars self.processes (num_tree a.now) }
        requires by { by < 64 }
        requires inputs { CanRead game.old.terms.inputs self }

        ensures grows { Grows game.old game.new }
        ensures worth { IfOk result (IsWorth game.new.terms 64
            (λ values. shift operator 64 (num_at self (num_tree a.now) values) by)) }
    {
        let a = self.num(game, a)?;
        let moved = game.mk(shifted(operator, a, by))?;
        Ok(moved)
    }

    // One of two numbers, by a test.
    #[cycle(reading)]
    fn chosen(
        self,
        game: &mut Game,
        truth: &Truth,
        a: &Num64,
        b: &Num64,
    ) -> Result<TermId, AllocError>
        requires test { FitsTruth self.vars self.processes (truth_tree truth.now) }
        requires first { FitsNum self.vars self.processes (num_tree a.now) }
        requires second { FitsNum self.vars self.processes (num_tree b.now) }
        requires inputs { CanRead game.old.terms.inputs self }

        ensures grows { Grows game.old game.new }
        ensures worth { IfOk result (IsWorth game.new.terms 64 (num_at self
            (blocks.conditional (truth_tree truth.now) (num_tree a.now) (num_tree b.now)))) }
    {
        let test = self.truth(game, truth)?;
        let one = self.num(game, a)?;
        let other = self.num(game, b)?;
        let chosen = game.mk(Term::Ite(test, one, other))?;
        Ok(chosen)
    }

    /// The term of one bit that tells whether C takes the branch of a test. Every id keeps its meaning, also where
    /// memory runs out.
    #[cycle(reading)]
    pub(crate) fn truth(self, game: &mut Game, truth: &Truth) -> Result<TermId, AllocError>
        requires fits { FitsTruth self.vars self.processes (truth_tree truth.now) }
        requires inputs { CanRead game.old.terms.inputs self }

        ensures grows { Grows game.old game.new }
        ensures worth { IfOk result (IsWorth game.new.terms 1 (truth_at self (truth_tree truth.now))) }
    {
        match truth {
            Truth::Num(a) => self.is_nonzero(game, a),
            Truth::Not(a) => self.not(game, a),
            Truth::Compare(comparison, a, b) => self.compares(game, *comparison, a, b),
            Truth::Join(junction, a, b) => self.joins(game, *junction, a, b),
        }
    }

    // Whether a number is not 0.
    #[cycle(reading)]
    fn is_nonzero(self, game: &mut Game, a: &Num64) -> Result<TermId, AllocError>
        requires fits { FitsNum self.vars self.processes (num_tree a.now) }
        requires inputs { CanRead game.old.terms.inputs self }

        ensures grows { Grows game.old game.new }
        ensures worth { IfOk result (IsWorth game.new.terms 1 (truth_at self (blocks.num (num_tree a.now)))) }
    {
        let a = self.num(game, a)?;
        let test = nonzero(game, a)?;
        Ok(test)
    }

    // Whether a test does not hold.
    #[cycle(reading)]
    fn not(self, game: &mut Game, a: &Truth) -> Result<TermId, AllocError>
        requires fits { FitsTruth self.vars self.processes (truth_tree a.now) }
        requires inputs { CanRead game.old.terms.inputs self }

        ensures grows { Grows game.old game.new }
        ensures worth { IfOk result (IsWorth game.new.terms 1 (truth_at self (blocks.negation (truth_tree a.now)))) }
    {
        let a = self.truth(game, a)?;
        let not = game.mk(Term::Not(a))?;
        Ok(not)
    }

    // Whether two numbers compare so.
    #[cycle(reading)]
    fn compares(
        self,
        game: &mut Game,
        comparison: Comparison,
        a: &Num64,
        b: &Num64,
    ) -> Result<TermId, AllocError>
        requires first { FitsNum self.vars self.processes (num_tree a.now) }
        requires second { FitsNum self.vars self.processes (num_tree b.now) }
        requires inputs { CanRead game.old.terms.inputs self }

        ensures grows { Grows game.old game.new }
        ensures worth { IfOk result (IsWorth game.new.terms 1 (truth_at self
            (blocks.compare comparison (num_tree a.now) (num_tree b.now)))) }
    {
        let one = self.num(game, a)?;
        let other = self.num(game, b)?;
        let test = compared(game, comparison, one, other)?;
        Ok(test)
    }

    // Whether both of two tests hold, or one of them.
    #[cycle(reading)]
    fn joins(
        self,
        game: &mut Game,
        junction: Junction,
        a: &Truth,
        b: &Truth,
    ) -> Result<TermId, AllocError>
        requires first { FitsTruth self.vars self.processes (truth_tree a.now) }
        requires second { FitsTruth self.vars self.processes (truth_tree b.now) }
        requires inputs { CanRead game.old.terms.inputs self }

        ensures grows { Grows game.old game.new }
        ensures worth { IfOk result (IsWorth game.new.terms 1 (truth_at self
            (blocks.join junction (truth_tree a.now) (truth_tree b.now)))) }
    {
        let one = self.truth(game, a)?;
        let other = self.truth(game, b)?;
        let both = game.mk(joined(junction, one, other))?;
        Ok(both)
    }
}

// A number, in 64 bits.
fn constant(game: &mut Game, number: u64) -> Result<TermId, AllocError>
    ensures grows { Grows game.old game.new }
    ensures worth { IfOk result (IsWorth game.new.terms 64 (λ values. number)) }
{
    let id = game.mk(Term::Const(64, number))?;
    Ok(id)
}

// The number that an input tells, in 64 bits.
fn input(game: &mut Game, input: u32) -> Result<TermId, AllocError>
    requires there { input < length game.old.terms.inputs }
    requires narrow { slice_index game.old.terms.inputs input ≤ 64 }

    ensures grows { Grows game.old game.new }
    ensures worth { IfOk result (IsInputNumber game.new.terms input) }
{
    let own = game.mk(Term::Input(input))?;
    let wide = game.mk(Term::Resize(64, own))?;
    Ok(wide)
}
