//! Rows of cells: what they give for the bits of two numbers, bit by bit from the least significant one.
ghost use Rattle.std.specs.Prelude.{◌≡◌, ◌≢◌, ℕ, Bool, All, IfOk, OnOk, length};
ghost use Rattle.tm_dd.specs.Reduced.{Extends};
ghost use Rattle.tm_dd.specs.Table.{Knows, means};
ghost use Rattle.tm_ddops.specs.Manager.{IsFunction};
ghost use Rattle.tm_blast.specs.Bits.{values_in};
ghost use Rattle.tm_blast.specs.Cell.{cell_bit, cell_next, rippled, MeanBits};

use std::alloc::{AllocError, Global};
use tm_base::Steps;
use tm_dd::NodeId;
use tm_ddops::Manager;

/// What is done with two bits of one weight, and with what the cell below handed on.
#[derive(Clone, Copy)]
pub(crate) enum Cell {
    /// Both bits.
    And,
    /// At least one of the bits.
    Or,
    /// Exactly one of the bits.
    Xor,
    /// A full adder.
    Sum,
    /// The first bit where what came in is true, and else the second.
    Choice,
}

impl Cell {
    // The bit that the cell gives.
    fn bit(
        self,
        carry: NodeId,
        x: NodeId,
        y: NodeId,
        dd: &mut Manager,
    ) -> Result<NodeId, AllocError>
        requires carry { Knows dd.old.table carry }
        requires x { Knows dd.old.table x }
        requires y { Knows dd.old.table y }

        ensures extends { Extends dd.old.table dd.new.table }
        ensures answer { IfOk result (λ id. IsFunction dd.new.table id (λ v.
            cell_bit self (means dd.new.table carry v) (means dd.new.table x v) (means dd.new.table y v))) }
    {
        let mut steps = Steps::new(());
        match self {
            Cell::And => dd.and(x, y, &mut steps),
            Cell::Or => dd.or(x, y, &mut steps),
            Cell::Xor => dd.xor(x, y, &mut steps),
            Cell::Sum => sum_bit(carry, x, y, dd),
            Cell::Choice => chosen(carry, x, y, dd),
        }
    }

    // What the cell hands on.
    fn next(
        self,
        carry: NodeId,
        x: NodeId,
        y: NodeId,
        dd: &mut Manager,
    ) -> Result<NodeId, AllocError>
        requires carry { Knows dd.old.table carry }
        requires x { Knows dd.old.table x }
        requires y { Knows dd.old.table y }

        ensures extends { Extends dd.old.table dd.new.table }
        ensures answer { IfOk result (λ id. IsFunction dd.new.table id (λ v.
            cell_next self (means dd.new.table carry v) (means dd.new.table x v) (means dd.new.table y v))) }
    {
        match self {
            Cell::And | Cell::Or | Cell::Xor | Cell::Choice => Ok(carry),
            Cell::Sum => sum_carry(carry, x, y, dd),
        }
    }
}

// The sum of three bits, modulo 2. The last two go first: in weight order they stand deeper.
fn sum_bit(carry: NodeId, x: NodeId, y: NodeId, dd: &mut Manager) -> Result<NodeId, AllocError>
    requires carry { Knows dd.old.table carry }
    requires x { Knows dd.old.table x }
    requires y { Knows dd.old.table y }

    ensures extends { Extends dd.old.table dd.new.table }
    ensures answer { IfOk result (λ id. IsFunction dd.new.table id (λ v.
        cell_bit Cell.Sum (means dd.new.table carry v) (means dd.new.table x v) (means dd.new.table y v))) }
{
    let mut steps = Steps::new(());
    let differ = dd.xor(y, carry, &mut steps)?;
    dd.xor(x, differ, &mut steps)
}

// The carry of three bits: where the last two differ it is the first, and else it is both.
fn sum_carry(carry: NodeId, x: NodeId, y: NodeId, dd: &mut Manager) -> Result<NodeId, AllocError>
    requires carry { Knows dd.old.table carry }
    requires x { Knows dd.old.table x }
    requires y { Knows dd.old.table y }

    ensures extends { Extends dd.old.table dd.new.table }
    ensures answer { IfOk result (λ id. IsFunction dd.new.table id (λ v.
        cell_next Cell.Sum (means dd.new.table carry v) (means dd.new.table x v) (means dd.new.table y v))) }
{
    let mut steps = Steps::new(());
    let differ = dd.xor(y, carry, &mut steps)?;
    dd.ite(differ, x, y)
}

// The first of two bits where the test holds, and else the second. Equal bits need no test.
fn chosen(test: NodeId, x: NodeId, y: NodeId, dd: &mut Manager) -> Result<NodeId, AllocError>
    requires test { Knows dd.old.table test }
    requires x { Knows dd.old.table x }
    requires y { Knows dd.old.table y }

    ensures extends { Extends dd.old.table dd.new.table }
    ensures answer { IfOk result (λ id. IsFunction dd.new.table id (λ v.
        cell_bit Cell.Choice (means dd.new.table test v) (means dd.new.table x v) (means dd.new.table y v))) }
{
    if x == y {
        return Ok(x);
    }
    dd.ite(test, x, y)
}

/// What a row of cells gives for the bits of two numbers, the least significant first. `carry` comes into the lowest
/// cell, and the highest one hands nothing on.
pub(crate) fn rippled(
    alloc: Global,
    cell: Cell,
    carry: NodeId,
    a: &[NodeId],
    b: &[NodeId],
    dd: &mut Manager,
) -> Result<Vec<NodeId>, AllocError>
    requires carry { Knows dd.old.table carry }
    requires a { All (Knows dd.old.table) a.now }
    requires b { All (Knows dd.old.table) b.now }
    requires same { length a.now ≡ length b.now }

    ensures extends { Extends dd.old.table dd.new.table }
    ensures answer { IfOk result (λ ids. MeanBits dd.new.table ids.items (λ v.
        rippled cell (means dd.old.table carry v)
        (values_in dd.old.table a.now v) (values_in dd.old.table b.now v))) }
{
    let mut bits = Vec::new(alloc);
    let mut carry = carry;
    for i in 0..a.len() {
        let bit = cell.bit(carry, a[i], b[i], dd)?;
        bits.push(bit)?;
        if i + 1 < a.len() {
            carry = cell.next(carry, a[i], b[i], dd)?;
        }
    }
    Ok(bits)
}
