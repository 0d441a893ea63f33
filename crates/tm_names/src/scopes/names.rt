//! The names of a scope, found by hashing.
ghost use Rattle.std.specs.Prelude.{◌≡◌, ℕ, List, None, Some, OnOk, nat_eq, if◌then◌else◌};
ghost use Rattle.std.specs.Option.{option_map, option_or};
ghost use Rattle.std.specs.Cmp.Lexicographic.{pointwise};
ghost use Rattle.tm_names.specs.Sorts.{declared_of};
ghost use Rattle.tm_names.specs.ScopeNames.{found};

use crate::sorts::Declared;
use indexmap::IndexMap;
use std::alloc::{AllocError, Global};
use tm_scope::NameKey;

/// The declaration of each name of a scope that stands first.
#[derive(Drop)]
pub(crate) struct Names<'a> {
    pub(crate) first: IndexMap<NameKey<'a>, Declared<'a>>,
}

impl<'a> Names<'a> {
    /// No names.
    pub(crate) fn new(alloc: Global) -> Names<'a>
        ensures { (name : List ℕ) → found result.first.entries name ≡ None }
    {
        Names {
            first: IndexMap::new(alloc),
        }
    }

    /// The declaration of a name, in constant time for each byte.
    pub(crate) fn find(&self, name: &[u8]) -> Option<Declared<'a>>
        ensures { option_map declared_of result ≡ found self.now.first.entries name.now }
    {
        if self.first.is_empty() {
            return None;
        }
        self.first.get(NameKey::new(name)).copied()
    }

    /// The declaration of a name here, or else in the scope around.
    pub(crate) fn find_within(&self, outer: &Names<'a>, name: &[u8]) -> Option<Declared<'a>>
        ensures { option_map declared_of result
            ≡ option_or (found self.now.first.entries name.now) (found outer.now.first.entries name.now) }
    {
        match self.find(name) {
            Some(declared) => Some(declared),
            None => outer.find(name),
        }
    }

    /// Puts a declaration under a name. `AllocError` is want of memory.
    pub(crate) fn put(&mut self, name: &'a [u8], declared: Declared<'a>) -> Result<(), AllocError>
        ensures { OnOk result ((other : List ℕ) → found self.new.first.entries other
            ≡ (if pointwise nat_eq other name.now then Some (declared_of declared.entry)
            else found self.old.first.entries other)) }
    {
        self.first.insert(NameKey::new(name), declared)?;
        Ok(())
    }
}
