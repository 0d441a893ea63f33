//! What has a name in the text.
ghost use Rattle.std.specs.Prelude.{◌≡◌, ℕ, List};

use tm_syntax::design::Var;
use tm_syntax::tree::{
    EnumDef, Ident, InstanceDef, LocalDef, Param, Port, TaskDef, Template, VarDef,
};

/// What has a name in the text.
pub(crate) trait HasName {
    // The bytes of the name.
    ghost name: { Self → List ℕ };

    /// The bytes of the name.
    fn name(&self) -> &[u8]
        ensures { result.now ≡ name self.now };
}

impl HasName for Ident {
    ghost name = { λ x. x.text };

    fn name(&self) -> &[u8] {
        self.text.as_bytes()
    }
}

impl HasName for Var {
    ghost name = { λ x. x.path };

    fn name(&self) -> &[u8] {
        self.path.as_bytes()
    }
}

impl HasName for EnumDef {
    ghost name = { λ x. x.name.text };

    fn name(&self) -> &[u8] {
        self.name.text.as_bytes()
    }
}

impl HasName for Template {
    ghost name = { λ x. x.name.text };

    fn name(&self) -> &[u8] {
        self.name.text.as_bytes()
    }
}

impl HasName for Port {
    ghost name = { λ x. x.name.text };

    fn name(&self) -> &[u8] {
        self.name.text.as_bytes()
    }
}

impl HasName for InstanceDef {
    ghost name = { λ x. x.name.text };

    fn name(&self) -> &[u8] {
        self.name.text.as_bytes()
    }
}

impl HasName for VarDef {
    ghost name = { λ x. x.name.text };

    fn name(&self) -> &[u8] {
        self.name.text.as_bytes()
    }
}

impl HasName for TaskDef {
    ghost name = { λ x. x.name.text };

    fn name(&self) -> &[u8] {
        self.name.text.as_bytes()
    }
}

impl HasName for Param {
    ghost name = { λ x. x.name.text };

    fn name(&self) -> &[u8] {
        self.name.text.as_bytes()
    }
}

impl HasName for LocalDef {
    ghost name = { λ x. x.name.text };

    fn name(&self) -> &[u8] {
        self.name.text.as_bytes()
    }
}
