//! A checked specification.
ghost use Rattle.tm_syntax.specs.Tree.View.{spec_tree};
ghost use Rattle.tm_syntax.specs.Faults.{IsTyped};

use crate::tree::Spec;

/// A specification whose names, types, calls and loops are checked: its tree is that of a text, and none of the faults
/// `F4` to `F10` holds of it.
#[derive(Drop)]
pub struct Typed {
    pub spec: Spec,
    pub ghost typed: { ∥ IsTyped (spec_tree spec) ∥₁ },
}
