//! Names as the keys of maps.
ghost use Rattle.std.specs.Prelude.{◌≡◌, [], ◌∷◌, nat_eq};
ghost use Rattle.std.proofs.Common.{ap};
ghost use Rattle.std.specs.Cmp.{partial_equiv_from_equiv, on_per, on_equiv};
ghost use Rattle.std.specs.Cmp.Lexicographic.{pointwise, bytes_decides, nat_list_eq_equiv};
ghost use Rattle.tm_scope.specs.Directory.{key_bytes};

use indexmap::Equivalent;
use std::hash::{Hash, Hasher};

/// The bytes of a name as the key of a map. A hasher takes them in one piece, where it takes a slice byte by byte.
#[derive(Clone, Copy)]
pub struct NameKey<'a> {
    bytes: &'a [u8],
}

impl<'a> NameKey<'a> {
    /// These bytes as a key.
    pub fn new(bytes: &'a [u8]) -> NameKey<'a>
        ensures { key_bytes result ≡ bytes.now }
    {
        NameKey { bytes }
    }
}

impl PartialEq for NameKey<'_> {
    ghost eq = { λ x y. pointwise nat_eq (key_bytes x) (key_bytes y) };

    ghost laws = { on_per key_bytes (partial_equiv_from_equiv nat_list_eq_equiv) };

    fn eq(&self, other: &Self) -> bool {
        self.bytes == other.bytes
    }
}

impl Eq for NameKey<'_> {
    ghost laws = { on_equiv key_bytes nat_list_eq_equiv };
}

impl Hash for NameKey<'_> {
    ghost hash_input = { λ k. key_bytes k ∷ [] };

    ghost respects_eq = { λ x y same. ap (λ bytes. bytes ∷ []) ((bytes_decides (key_bytes x) (key_bytes y)).0 same) };

    fn hash<H: Hasher>(&self, state: &mut H) {
        state.write(self.bytes);
    }
}

impl<'b> Equivalent<NameKey<'b>> for NameKey<'_> {
    ghost equivalent = { λ x y. pointwise nat_eq (key_bytes x) (key_bytes y) };

    ghost respects_hash = { λ x y same. ap (λ bytes. bytes ∷ []) ((bytes_decides (key_bytes x) (key_bytes y)).0 same) };

    ghost respects_eq = { λ q x y. nat_list_eq_equiv.congr (key_bytes q) (key_bytes x) (key_bytes y) };

    fn equivalent(&self, key: &NameKey<'b>) -> bool {
        self.bytes == key.bytes
    }
}
