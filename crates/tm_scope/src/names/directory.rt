//! Directories: where each name of a list first stands.
ghost use Rattle.std.specs.Prelude.{◌≡◌, ℕ, List, None, Some, IfOk, OnOk, position, nat_eq, if◌then◌else◌};
ghost use Rattle.std.specs.Option.{option_or};
ghost use Rattle.std.specs.Cmp.Lexicographic.{pointwise};
ghost use Rattle.std.specs.List.{list_any};
ghost use Rattle.tm_syntax.specs.Scopes.Names.{is_spelled};
ghost use Rattle.tm_scope.specs.Directory.{index_of};

use crate::names::{HasName, NameKey};
use indexmap::IndexMap;
use std::alloc::{AllocError, Global};
use std::marker::Model;
use tm_syntax::tree::Ident;

/// The index at which each name was first noted, found by hashing.
///
/// Contracts see a directory as a list of names with their indices.
#[derive(Drop)]
pub struct Directory<'a> {
    first: IndexMap<NameKey<'a>, usize>,
}

impl<'a> Model for Directory<'a> {
    ghost use Rattle.std.specs.Prelude.{ℕ, List, map};
    ghost use Rattle.tm_scope.specs.Directory.{key_bytes};

    ghost Value = { List (List ℕ × ℕ) };

    ghost view = { λ d. map (λ e. (key_bytes e.0, e.1)) d.first.entries };
}

impl<'a> Directory<'a> {
    /// A directory without names.
    pub fn new(alloc: Global) -> Directory<'a>
        ensures { (name : List ℕ) → index_of result name ≡ None }
    {
        Directory {
            first: IndexMap::new(alloc),
        }
    }

    /// The index at which a name was first noted, in constant time for each byte.
    pub fn find(&self, name: &[u8]) -> Option<usize>
        ensures { result ≡ index_of self.now name.now }
    {
        if self.first.is_empty() {
            return None;
        }
        self.first.get(NameKey::new(name)).copied()
    }

    /// Notes a name at an index. A name that has one keeps it. `AllocError` is want of memory.
    pub fn note(&mut self, name: &'a [u8], index: usize) -> Result<(), AllocError>
        ensures { OnOk result ((other : List ℕ) →
            index_of self.new other ≡ option_or (index_of self.old other)
            (if pointwise nat_eq other name.now then Some index else None)) }
    {
        let key = NameKey::new(name);
        if self.first.get(key).is_none() {
            self.first.insert(key, index)?;
        }
        Ok(())
    }

    // Notes all of these names at one index.
    pub(crate) fn note_all(&mut self, names: &'a [Ident], index: usize) -> Result<(), AllocError>
        ensures { OnOk result ((other : List ℕ) →
            index_of self.new other ≡ option_or (index_of self.old other)
            (if list_any (is_spelled other) names.now then Some index else None)) }
    {
        for name in names {
            self.note(name.text.as_bytes(), index)?;
        }
        Ok(())
    }

    // The first index of each name of a list.
    pub(crate) fn of<T: HasName>(alloc: Global, items: &'a [T]) -> Result<Directory<'a>, AllocError>
        ensures { IfOk result (λ d. (name : List ℕ) →
            index_of d name ≡ position (λ x. pointwise nat_eq name (T.name x)) items.now) }
    {
        let mut directory = Directory::new(alloc);
        for (index, item) in items.iter().enumerate() {
            directory.note(item.name(), index)?;
        }
        Ok(directory)
    }
}
