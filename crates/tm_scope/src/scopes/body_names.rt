//! The parameters and locals of a body by their names.
ghost use Rattle.std.specs.Prelude.{◌≡◌, IfOk};
ghost use Rattle.std.specs.Option.{option_copied};
ghost use Rattle.tm_scope.specs.Inner.Slots.{slot_number, written_type};

use crate::members::SlotNumber;
use crate::names::Directory;
use std::alloc::{AllocError, Global};
use std::marker::Model;
use tm_syntax::tree::{LocalDef, Param, TypeName};

/// The parameters and locals of a body, found by their names. Contracts see both lists.
#[derive(Drop)]
pub(crate) struct BodyNames<'a> {
    params: &'a [Param],
    locals: &'a [LocalDef],
    param_names: Directory<'a>,
    local_names: Directory<'a>,
}

impl<'a> Model for BodyNames<'a> {
    ghost use Rattle.std.specs.Coded.{codes};
    ghost use Rattle.tm_syntax.specs.contracts.tree.Param as param_contract;
    ghost use Rattle.tm_syntax.specs.contracts.tree.LocalDef as local_contract;
    ghost use Rattle.tm_scope.specs.Inner.Tables.{BodySlots, IsDirectory};

    ghost Value = { BodySlots };

    ghost view = { λ b. record { params = b.params.now; locals = b.locals.now } };

    ghost invariant = { λ b.
        IsDirectory (λ p. p.name) b.params.now b.param_names × IsDirectory (λ l. l.name) b.locals.now b.local_names };

    ghost coded = { Prim.hlevel (codes, param_contract.the_row.coded, local_contract.the_row.coded) };
}

impl<'a> BodyNames<'a> {
    /// The tables of a body.
    pub(crate) fn new(
        alloc: Global,
        params: &'a [Param],
        locals: &'a [LocalDef],
    ) -> Result<BodyNames<'a>, AllocError>
        ensures { IfOk result (λ b. b ≡ record { params = params.now; locals = locals.now }) }
    {
        Ok(BodyNames {
            params,
            locals,
            param_names: Directory::of(alloc, params)?,
            local_names: Directory::of(alloc, locals)?,
        })
    }

    /// The parameter or local of a name: a parameter before a local.
    pub(crate) fn slot(&self, name: &[u8]) -> Option<SlotNumber>
        ensures { result ≡ slot_number self.now name.now }
    {
        if let Some(param) = self.param_names.find(name) {
            return Some(SlotNumber::Param(param));
        }
        let local = self.local_names.find(name)?;
        Some(SlotNumber::Local(local))
    }

    /// The type of a parameter or local, as it stands in the text.
    pub(crate) fn written_type(&self, slot: SlotNumber) -> Option<&'a TypeName>
        ensures { option_copied result ≡ written_type self.now slot }
    {
        match slot {
            SlotNumber::Param(index) => {
                let param = self.params.get(index)?;
                Some(&param.ty)
            }
            SlotNumber::Local(index) => {
                let local = self.locals.get(index)?;
                Some(&local.ty)
            }
        }
    }
}
