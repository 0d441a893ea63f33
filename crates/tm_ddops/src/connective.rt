//! The binary operations, as operations that are remembered and as choices.
ghost use Rattle.std.specs.Prelude.{◌≡◌};
ghost use Rattle.tm_ddops.specs.Connective.{connective_choice, connective_operation, larger, smaller};

use crate::choice::Choice;
use crate::operation::Operation;
use tm_dd::{FALSE, NodeId, TRUE};

/// A binary operation.
#[derive(Clone, Copy)]
pub enum Connective {
    And,
    Or,
    Xor,
}

impl Connective {
    /// The operation as it is remembered: with the smaller id first.
    pub(crate) fn operation(self, f: NodeId, g: NodeId) -> Operation
        ensures { result ≡ connective_operation self f g }
    {
        let (first, second) = ordered(f, g);
        match self {
            Connective::And => Operation::And(first, second),
            Connective::Or => Operation::Or(first, second),
            Connective::Xor => Operation::Xor(first, second),
        }
    }

    /// The operation as a choice by its first operand.
    pub(crate) fn choice(self, f: NodeId, g: NodeId) -> Choice
        ensures { result ≡ connective_choice self f g }
    {
        let (if_true, if_false) = match self {
            Connective::And => (g, FALSE),
            Connective::Or => (TRUE, g),
            Connective::Xor => (g.complement(), g),
        };
        Choice {
            test: f,
            if_true,
            if_false,
        }
    }
}

/// Two ids, the smaller one first.
fn ordered(f: NodeId, g: NodeId) -> (NodeId, NodeId)
    ensures smaller { result.0 ≡ smaller f g }
    ensures larger { result.1 ≡ larger f g }
{
    if f <= g { (f, g) } else { (g, f) }
}
