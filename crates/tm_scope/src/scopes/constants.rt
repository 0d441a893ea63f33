//! The enums of a specification, and the values of their constants by their names.
ghost use Rattle.std.specs.Prelude.{◌≡◌, ℕ, IfOk, List, find, position};
ghost use Rattle.std.specs.Option.{option_copied};
ghost use Rattle.std.specs.List.{list_any};
ghost use Rattle.tm_syntax.specs.Tree.View.{spec_tree};
ghost use Rattle.tm_syntax.specs.Scopes.Names.{is_spelled, constant_value};
ghost use Rattle.tm_scope.specs.Directory.{index_of};

use crate::names::Directory;
use crate::scopes::enum_names::EnumNames;
use std::alloc::{AllocError, Global};
use std::marker::Model;
use tm_syntax::tree::{EnumDef, Spec};

/// A specification, whose enum constants are found by their names. Contracts see the specification.
#[derive(Drop)]
pub(crate) struct Constants<'a> {
    spec: &'a Spec,
    // The first enum that has a constant of the name.
    enums: Directory<'a>,
    values: Vec<EnumNames<'a>>,
}

impl<'a> Model for Constants<'a> {
    ghost use Rattle.std.specs.Coded.{codes};
    ghost use Rattle.tm_syntax.specs.declared.tree.Spec.{Spec};
    ghost use Rattle.tm_syntax.specs.contracts.tree.Spec as spec_contract;
    ghost use Rattle.tm_scope.specs.Inner.Tables.{AreConstants};

    ghost Value = { Spec };

    ghost view = { λ x. x.spec.now };

    ghost invariant = { λ x. AreConstants x.spec.now x.enums x.values.items };

    ghost coded = { Prim.hlevel (codes, spec_contract.the_row.coded) };
}

impl<'a> Constants<'a> {
    /// The tables of a specification.
    pub(crate) fn new(alloc: Global, spec: &'a Spec) -> Result<Constants<'a>, AllocError>
        ensures { IfOk result (λ s. s ≡ spec.now) }
    {
        let values = all_enum_names(alloc, spec.enums.as_slice())?;
        let enums = enums_of_constants(alloc, spec.enums.as_slice())?;
        Ok(Constants {
            spec,
            enums,
            values,
        })
    }

    /// The value of a constant: its index in the first enum that has it.
    pub(crate) fn value(&self, name: &[u8]) -> Option<usize>
        ensures { result ≡ constant_value (spec_tree self.now) name.now }
    {
        let number = self.enums.find(name)?;
        self.values[number].value(name)
    }

    /// The first enum that has a constant of the name.
    pub(crate) fn enum_of(&self, name: &[u8]) -> Option<&'a EnumDef>
        ensures { option_copied result
            ≡ find (λ e. list_any (is_spelled name.now) e.constants.items) self.now.enums.items }
    {
        let number = self.enums.find(name)?;
        Some(&self.spec.enums[number])
    }
}

// For each name of a constant the number of the first enum that has it.
fn enums_of_constants<'a>(alloc: Global, enums: &'a [EnumDef]) -> Result<Directory<'a>, AllocError>
    ensures { IfOk result (λ d. (name : List ℕ) →
        index_of d name ≡ position (λ e. list_any (is_spelled name) e.constants.items) enums.now) }
{
    let mut directory = Directory::new(alloc);
    for (index, def) in enums.iter().enumerate() {
        directory.note_all(def.constants.as_slice(), index)?;
    }
    Ok(directory)
}

// The tables of each enum.
fn all_enum_names<'a>(alloc: Global, enums: &'a [EnumDef]) -> Result<Vec<EnumNames<'a>>, AllocError>
    ensures { IfOk result (λ names. names.items ≡ enums.now) }
{
    let mut names = Vec::new(alloc);
    for def in enums {
        names.push(EnumNames::new(alloc, def)?)?;
    }
    Ok(names)
}
