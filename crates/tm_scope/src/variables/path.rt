//! The paths of state variables, by their parts and whole.
ghost use Rattle.std.specs.Prelude.{◌≡◌, ◌++◌, ◌∷◌, List, ℕ, false, nat_eq};
ghost use Rattle.std.specs.Option.{option_map_or};
ghost use Rattle.std.specs.Cmp.{partial_equiv_from_equiv};
ghost use Rattle.std.specs.Cmp.Lexicographic.{pointwise, nat_list_eq_equiv};
ghost use Rattle.tm_syntax.specs.Design.{member_path};
ghost use Rattle.tm_scope.specs.VariablePaths.{hash_next, hash_on, path_hash, whole, with_last};

use indexmap::Equivalent;
use std::hash::{Hash, Hasher};
use std::marker::Model;

/// The path of a state variable by its parts, with a dot between each two: the path of an instance, which is empty and
/// without a dot for `main`, a name, and where there is one a last part.
#[derive(Clone, Copy, PartialEq, Eq)]
pub struct VariablePath<'p> {
    /// The path of the instance.
    pub base: &'p [u8],
    /// The name of the variable, or of the body of a parameter or local.
    pub name: &'p [u8],
    /// The index of an element, or the name of a parameter or local.
    pub last: Option<&'p [u8]>,
}

impl<'p> VariablePath<'p> {
    // Whether these are the parts of a path.
    fn is_whole(self, path: &[u8]) -> bool
        ensures { result ≡ pointwise nat_eq (whole self.entry) path.now }
    {
        match behind_base(self.base, path) {
            Some(rest) => is_named(self.name, self.last, rest),
            None => false,
        }
    }

    // The hash of the path.
    fn hash_whole(self) -> u64
        ensures { result ≡ path_hash (whole self.entry) }
    {
        let named = hash_on(hash_base(self.base), self.name);
        match self.last {
            Some(last) => hash_on(hash_next(named, b'.'), last),
            None => named,
        }
    }
}

impl<'p> Hash for VariablePath<'p> {
    ghost use Rattle.tm_scope.specs.VariablePaths.{parts_hash, same_parts_hash};

    ghost hash_input = { parts_hash };

    ghost respects_eq = { same_parts_hash };

    fn hash<H: Hasher>(&self, state: &mut H) {
        state.write_u64(self.hash_whole());
    }
}

impl<'p, 'd> Equivalent<PathKey<'d>> for VariablePath<'p> {
    ghost use Rattle.tm_scope.specs.VariablePaths.{same_key_hash};

    ghost equivalent = { λ parts key. pointwise nat_eq (whole parts) key };

    ghost respects_hash = { λ parts key. same_key_hash (whole parts) key };

    ghost respects_eq = { λ parts one other. nat_list_eq_equiv.congr (whole parts) one other };

    fn equivalent(&self, key: &PathKey<'d>) -> bool {
        self.is_whole(key.path)
    }
}

/// The path of a state variable, as a key. Contracts see its bytes.
#[derive(Drop)]
pub(crate) struct PathKey<'d> {
    pub(crate) path: &'d [u8],
}

impl<'d> Model for PathKey<'d> {
    ghost use Rattle.std.specs.Prelude.{ℕ, List};

    ghost Value = { List ℕ };

    ghost view = { λ k. k.path.now };
}

impl<'d> PartialEq for PathKey<'d> {
    ghost eq = { pointwise nat_eq };

    ghost laws = { partial_equiv_from_equiv nat_list_eq_equiv };

    fn eq(&self, other: &PathKey<'d>) -> bool {
        self.path == other.path
    }
}

impl<'d> Eq for PathKey<'d> {
    ghost laws = { nat_list_eq_equiv };
}

impl<'d> Hash for PathKey<'d> {
    ghost use Rattle.tm_scope.specs.VariablePaths.{key_hash, same_key_hash};

    ghost hash_input = { key_hash };

    ghost respects_eq = { same_key_hash };

    fn hash<H: Hasher>(&self, state: &mut H) {
        state.write_u64(hash_on(0, self.path));
    }
}

// What stands in a path behind a name and a dot.
fn behind<'d>(name: &[u8], path: &'d [u8]) -> Option<&'d [u8]>
    ensures { (tail : List ℕ) → pointwise nat_eq (name.now ++ 46 ∷ tail) path.now
        ≡ option_map_or (λ rest. pointwise nat_eq tail rest.now) result false }
{
    match path.strip_prefix(name) {
        Some(rest) => behind_dot(rest),
        None => None,
    }
}

// What stands in a text behind a dot.
fn behind_dot(text: &[u8]) -> Option<&[u8]>
    ensures { (tail : List ℕ) → pointwise nat_eq (46 ∷ tail) text.now
        ≡ option_map_or (λ rest. pointwise nat_eq tail rest.now) result false }
{
    match text {
        [b'.', rest @ ..] => Some(rest),
        _ => None,
    }
}

// What stands in a path behind that of an instance.
fn behind_base<'d>(base: &[u8], path: &'d [u8]) -> Option<&'d [u8]>
    ensures { (tail : List ℕ) → pointwise nat_eq (member_path base.now tail) path.now
        ≡ option_map_or (λ rest. pointwise nat_eq tail rest.now) result false }
{
    if base.is_empty() {
        Some(path)
    } else {
        behind(base, path)
    }
}

// Whether a path is a name, with a last part where there is one.
fn is_named(name: &[u8], last: Option<&[u8]>, path: &[u8]) -> bool
    ensures { result ≡ pointwise nat_eq (with_last name.now last.entry) path.now }
{
    match last {
        Some(last) => match behind(name, path) {
            Some(rest) => last == rest,
            None => false,
        },
        None => name == path,
    }
}

// An odd number next to 2^64 over the golden ratio.
const FACTOR: u64 = 0x9e37_79b9_7f4a_7c15;

// The hash of a text with one more byte, by that of the text: multiplicative hashing (Knuth 1973).
fn hash_next(hash: u64, byte: u8) -> u64
    ensures { result ≡ hash_next hash byte }
{
    hash.wrapping_mul(FACTOR).wrapping_add(u64::from(byte))
}

// The hash of a text with another one behind it.
fn hash_on(hash: u64, text: &[u8]) -> u64
    ensures { result ≡ hash_on hash text.now }
{
    let mut hashed = hash;
    for byte in text {
        hashed = hash_next(hashed, *byte);
    }
    hashed
}

// The hash of the path of an instance, as what it holds goes on from there.
fn hash_base(base: &[u8]) -> u64
    ensures { (tail : List ℕ) → hash_on result tail ≡ path_hash (member_path base.now tail) }
{
    if base.is_empty() {
        0
    } else {
        hash_next(hash_on(0, base), b'.')
    }
}
