//! The constants of an enum by their names.
ghost use Rattle.std.specs.Prelude.{◌≡◌, IfOk, position};
ghost use Rattle.tm_syntax.specs.Scopes.Names.{is_spelled};

use crate::names::Directory;
use std::alloc::{AllocError, Global};
use std::marker::Model;
use tm_syntax::tree::EnumDef;

/// An enum, whose constants are found by their names. Contracts see the enum.
#[derive(Drop)]
pub(crate) struct EnumNames<'a> {
    def: &'a EnumDef,
    values: Directory<'a>,
}

impl<'a> Model for EnumNames<'a> {
    ghost use Rattle.std.specs.Coded.{codes};
    ghost use Rattle.tm_syntax.specs.declared.tree.EnumDef.{EnumDef};
    ghost use Rattle.tm_syntax.specs.contracts.tree.EnumDef as enum_contract;
    ghost use Rattle.tm_scope.specs.Inner.Tables.{IsDirectory};

    ghost Value = { EnumDef };

    ghost view = { λ e. e.def.now };

    ghost invariant = { λ e. IsDirectory (λ c. c) e.def.now.constants.items e.values };

    ghost coded = { Prim.hlevel (codes, enum_contract.the_row.coded) };
}

impl<'a> EnumNames<'a> {
    /// The tables of an enum.
    pub(crate) fn new(alloc: Global, def: &'a EnumDef) -> Result<EnumNames<'a>, AllocError>
        ensures { IfOk result (λ e. e ≡ def.now) }
    {
        Ok(EnumNames {
            def,
            values: Directory::of(alloc, def.constants.as_slice())?,
        })
    }

    /// The value of a constant: its index.
    pub(crate) fn value(&self, name: &[u8]) -> Option<usize>
        ensures { result ≡ position (is_spelled name.now) self.now.constants.items }
    {
        self.values.find(name)
    }
}
