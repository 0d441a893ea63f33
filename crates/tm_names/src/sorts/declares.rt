//! What declares a name.
ghost use Rattle.std.specs.Prelude.{◌≡◌};
ghost use Rattle.tm_syntax.specs.Scopes.Declared as text;
ghost use Rattle.tm_syntax.specs.Tree.View.{var_tree};
ghost use Rattle.tm_names.specs.Sorts.{declared_of};

use crate::sorts::sort::{Declared, Sort};
use tm_syntax::tree::{InstanceDef, LocalDef, Named, Param, Port, ProcessDef, TaskDef, VarDef};

/// What declares a name.
pub(crate) trait Declares {
    // The name, and what it is declared as.
    ghost declared: { Self → text.Declared };

    /// The name, and what it is declared as.
    fn declared(&self) -> Declared<'_>
        ensures { declared_of result ≡ declared self.now };
}

impl Declares for Port {
    ghost declared = { λ x. text.declared (text.a_neighbor x.template) x.name };

    fn declared(&self) -> Declared<'_> {
        Declared {
            name: &self.name,
            sort: Sort::Neighbor(&self.template),
        }
    }
}

impl Declares for InstanceDef {
    ghost declared = { λ x. text.declared (text.a_neighbor x.template) x.name };

    fn declared(&self) -> Declared<'_> {
        Declared {
            name: &self.name,
            sort: Sort::Neighbor(&self.template),
        }
    }
}

impl Declares for VarDef {
    ghost declared = { λ x. text.declared (text.var_sort (var_tree x)) x.name };

    fn declared(&self) -> Declared<'_> {
        Declared {
            name: &self.name,
            sort: match self.length {
                Some(_) => Sort::Array,
                None => Sort::Variable,
            },
        }
    }
}

impl Declares for Named {
    ghost declared = { λ x. text.declared text.a_part x.name };

    fn declared(&self) -> Declared<'_> {
        Declared {
            name: &self.name,
            sort: Sort::Part,
        }
    }
}

impl Declares for ProcessDef {
    ghost declared = { λ x. text.declared text.a_part x.name };

    fn declared(&self) -> Declared<'_> {
        Declared {
            name: &self.name,
            sort: Sort::Part,
        }
    }
}

impl Declares for TaskDef {
    ghost declared = { λ x. text.declared text.a_task x.name };

    fn declared(&self) -> Declared<'_> {
        Declared {
            name: &self.name,
            sort: Sort::Task,
        }
    }
}

impl Declares for Param {
    ghost declared = { λ x. text.declared text.a_slot x.name };

    fn declared(&self) -> Declared<'_> {
        Declared {
            name: &self.name,
            sort: Sort::Slot,
        }
    }
}

impl Declares for LocalDef {
    ghost declared = { λ x. text.declared text.a_slot x.name };

    fn declared(&self) -> Declared<'_> {
        Declared {
            name: &self.name,
            sort: Sort::Slot,
        }
    }
}
