//! Operations with their operands, as a manager remembers them.
ghost use Rattle.std.specs.Prelude.{◌≡◌, IfOk};
ghost use Rattle.std.specs.Cmp.{partial_equiv_from_equiv};
ghost use Rattle.std.specs.Cmp.Lexicographic.{pointwise};
ghost use Rattle.tm_ddops.specs.Operation.{operation_number};
ghost use Rattle.tm_ddops.specs.Parts.{digest};

use std::alloc::{AllocError, Global};
use std::hash::{Hash, Hasher};
use std::marker::Model;
use tm_dd::{NodeId, mixed};

/// The parts of a substitution: levels, each with the function that stands in its place. A contract sees their list.
#[derive(Drop)]
pub struct Parts {
    list: Vec<(u32, NodeId)>,
    // The list as one number, which a hasher takes in one write.
    digest: u64,
}

impl Model for Parts {
    ghost use Rattle.std.specs.Prelude.{ℕ, List};
    ghost use Rattle.tm_dd.specs.declared.node.NodeId.{NodeId};

    ghost Value = { List (ℕ × NodeId) };

    ghost use Rattle.tm_ddops.specs.Parts.{HasDigest};

    ghost view = { λ p. p.list.items };

    ghost invariant = { λ p. HasDigest p.list.items p.digest };
}

impl Parts {
    /// A copy of these parts.
    pub fn from_slice(alloc: Global, parts: &[(u32, NodeId)]) -> Result<Parts, AllocError>
        ensures { IfOk result (λ p. p ≡ parts.now) }
    {
        Ok(Parts {
            list: Vec::from_slice(alloc, parts)?,
            digest: digest(parts),
        })
    }

    /// The levels and their functions.
    pub fn as_slice(&self) -> &[(u32, NodeId)]
        ensures { result.now ≡ self.now }
    {
        self.list.as_slice()
    }
}

impl PartialEq for Parts {
    ghost use Rattle.tm_ddops.specs.Parts.{part_eq, parts_equiv};

    ghost eq = { pointwise part_eq };

    ghost laws = { partial_equiv_from_equiv parts_equiv };

    fn eq(&self, other: &Parts) -> bool {
        self.as_slice() == other.as_slice()
    }
}

impl Eq for Parts {
    ghost use Rattle.tm_ddops.specs.Parts.{parts_equiv};

    ghost laws = { parts_equiv };
}

/// Levels with the functions that stand in their places, as one number.
fn digest(parts: &[(u32, NodeId)]) -> u64
    ensures { result ≡ digest parts.now }
{
    let mut digest = 0;
    for (level, part) in parts {
        digest = mixed(digest, u64::from(*level), part.number());
    }
    digest
}

/// An operation with its operands. `And`, `Or` and `Xor` have the smaller id first.
#[derive(Drop)]
pub enum Operation {
    And(NodeId, NodeId),
    Or(NodeId, NodeId),
    Xor(NodeId, NodeId),
    Ite(NodeId, NodeId, NodeId),
    Compose(NodeId, Parts),
}

impl Operation {
    // The operation as one number, which a hasher takes in one write.
    fn number(&self) -> u64
        ensures { result ≡ operation_number self.now }
    {
        match self {
            Operation::And(f, g) => mixed(0, f.number(), g.number()),
            Operation::Or(f, g) => mixed(1, f.number(), g.number()),
            Operation::Xor(f, g) => mixed(2, f.number(), g.number()),
            Operation::Ite(f, g, h) => mixed(mixed(3, f.number(), g.number()), h.number(), 0),
            Operation::Compose(f, parts) => mixed(4, f.number(), parts.digest),
        }
    }
}

impl PartialEq for Operation {
    ghost use Rattle.tm_ddops.specs.Operation.{operation_eq, operation_equiv};

    ghost eq = { operation_eq };

    ghost laws = { partial_equiv_from_equiv operation_equiv };

    fn eq(&self, other: &Operation) -> bool {
        match (self, other) {
            (Operation::And(f, g), Operation::And(x, y)) => f == x && g == y,
            (Operation::Or(f, g), Operation::Or(x, y)) => f == x && g == y,
            (Operation::Xor(f, g), Operation::Xor(x, y)) => f == x && g == y,
            (Operation::Ite(f, g, h), Operation::Ite(x, y, z)) => f == x && g == y && h == z,
            (Operation::Compose(f, parts), Operation::Compose(x, others)) => {
                f == x && parts == others
            }
            _ => false,
        }
    }
}

impl Eq for Operation {
    ghost use Rattle.tm_ddops.specs.Operation.{operation_equiv};

    ghost laws = { operation_equiv };
}

impl Hash for Operation {
    ghost use Rattle.tm_ddops.specs.Operation.{operation_hash, same_operation_hash};

    ghost hash_input = { operation_hash };

    ghost respects_eq = { same_operation_hash };

    fn hash<H: Hasher>(&self, state: &mut H) {
        state.write_u64(self.number());
    }
}
