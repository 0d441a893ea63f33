//! What is declared with a type.
ghost use Rattle.std.specs.Prelude.{◌≡◌};
ghost use Rattle.tm_syntax.specs.declared.tree.TypeName as written;

use tm_syntax::tree::{LocalDef, Param, TypeName, VarDef};

/// What is declared with a type.
pub(crate) trait HasType {
    // The type as it stands in the text.
    ghost ty: { Self → written.TypeName };

    /// The type as it stands in the text.
    fn ty(&self) -> &TypeName
        ensures { result.now ≡ ty self.now };
}

impl HasType for VarDef {
    ghost ty = { λ x. x.ty };

    fn ty(&self) -> &TypeName {
        &self.ty
    }
}

impl HasType for LocalDef {
    ghost ty = { λ x. x.ty };

    fn ty(&self) -> &TypeName {
        &self.ty
    }
}

impl HasType for Param {
    ghost ty = { λ x. x.ty };

    fn ty(&self) -> &TypeName {
        &self.ty
    }
}
