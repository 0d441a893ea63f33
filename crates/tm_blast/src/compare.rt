//! Comparisons of two numbers, bit by bit from the least significant one.
ghost use Rattle.std.specs.Prelude.{◌≡◌, ℕ, Bool, All, IfOk, length};
ghost use Rattle.tm_dd.specs.Reduced.{Extends};
ghost use Rattle.tm_dd.specs.Table.{Knows, means};
ghost use Rattle.tm_ddops.specs.Manager.{IsFunction};
ghost use Rattle.tm_blast.specs.Bits.{values_in};
ghost use Rattle.tm_blast.specs.Cell.{compared, compared_bit};

use std::alloc::AllocError;
use tm_base::Steps;
use tm_dd::NodeId;
use tm_ddops::Manager;

/// What is asked of two numbers.
#[derive(Clone, Copy)]
pub(crate) enum Comparison {
    /// Whether they are equal.
    Equal,
    /// Whether the first is below the second.
    Less,
}

impl Comparison {
    // The comparison by one bit more of each number, where `below` is that of the lower bits.
    fn bit(
        self,
        below: NodeId,
        x: NodeId,
        y: NodeId,
        dd: &mut Manager,
    ) -> Result<NodeId, AllocError>
        requires below { Knows dd.old.table below }
        requires x { Knows dd.old.table x }
        requires y { Knows dd.old.table y }

        ensures extends { Extends dd.old.table dd.new.table }
        ensures answer { IfOk result (λ id. IsFunction dd.new.table id (λ v.
            compared_bit self (means dd.new.table below v) (means dd.new.table x v) (means dd.new.table y v))) }
    {
        let mut steps = Steps::new(());
        let differ = dd.xor(x, y, &mut steps)?;
        match self {
            Comparison::Equal => dd.and(below, differ.complement(), &mut steps),
            Comparison::Less => dd.ite(differ, y, below),
        }
    }
}

/// What a comparison gives for the bits of two numbers, the least significant first. `first` is what it gives for no
/// bits.
pub(crate) fn compared(
    op: Comparison,
    first: NodeId,
    a: &[NodeId],
    b: &[NodeId],
    dd: &mut Manager,
) -> Result<NodeId, AllocError>
    requires first { Knows dd.old.table first }
    requires a { All (Knows dd.old.table) a.now }
    requires b { All (Knows dd.old.table) b.now }
    requires same { length a.now ≡ length b.now }

    ensures extends { Extends dd.old.table dd.new.table }
    ensures answer { IfOk result (λ id. IsFunction dd.new.table id (λ v.
        compared op (means dd.old.table first v)
        (values_in dd.old.table a.now v) (values_in dd.old.table b.now v))) }
{
    let mut found = first;
    for i in 0..a.len() {
        found = op.bit(found, a[i], b[i], dd)?;
    }
    Ok(found)
}
