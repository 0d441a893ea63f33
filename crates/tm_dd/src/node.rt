//! The ids of Boolean functions, and the nodes that stand for them.
ghost use Rattle.std.specs.Prelude.{◌≡◌, ◌↔◌, ◌<◌, ◌^◌, ℕ, Bool, false, not, if◌then◌else◌, IsTrue};
ghost use Rattle.tm_dd.specs.Hashed.{mixed};
ghost use Rattle.tm_dd.specs.NodeId.{complement, is_marked, IsConstant, number_of, position_of};
ghost use Rattle.tm_dd.specs.Table.{Knows, level_of, means, Table};

use std::hash::{Hash, Hasher};

/// The id of a Boolean function in a store: twice the position of a kept function, plus 1 where it is that function's
/// complement.
///
/// The complement marks are those of Brace, Rudell and Bryant (1990). An id means something only in the store that gave
/// it.
#[derive(Clone, Copy, PartialEq, Eq, PartialOrd, Ord, Hash, Debug)]
pub struct NodeId(u64);

/// The function that is false everywhere. Every store knows it.
pub const FALSE: NodeId = NodeId(0);

/// The function that is true everywhere. Every store knows it.
pub const TRUE: NodeId = NodeId(1);

/// An inner node: the function that is `hi` where the level's value is true, and `lo` where it is false.
#[derive(Clone, Copy, PartialEq, Eq, Debug)]
pub struct Node {
    pub level: u32,
    pub lo: NodeId,
    pub hi: NodeId,
}

impl Hash for Node {
    ghost use Rattle.tm_dd.specs.Hashed.{node_hash, same_node_hash};

    ghost hash_input = { node_hash };

    ghost respects_eq = { same_node_hash };

    fn hash<H: Hasher>(&self, state: &mut H) {
        state.write_u64(mixed(self.level as u64, self.lo.0, self.hi.0));
    }
}

/// An odd number next to 2^64 over the golden ratio.
pub const FACTOR: u64 = 0x9e37_79b9_7f4a_7c15;

/// Three numbers as one, which a hasher takes in one write: multiplicative hashing (Knuth 1973).
pub fn mixed(one: u64, two: u64, three: u64) -> u64
    ensures { result ≡ mixed one two three }
{
    one.wrapping_mul(FACTOR)
        .wrapping_add(two)
        .wrapping_mul(FACTOR)
        .wrapping_add(three)
}

impl NodeId {
    /// The number of the id.
    pub fn number(self) -> u64
        ensures { result ≡ number_of self }
    {
        self.0
    }

    // The id of the kept function at the position.
    pub(crate) fn at(position: usize) -> NodeId
        requires { position < 2 ^ 63 }
        ensures position { position_of result ≡ position }
        ensures unmarked { is_marked result ≡ false }
    {
        NodeId(2 * position as u64)
    }

    // The position of the kept function that this one is, or whose complement it is.
    pub(crate) fn position(self) -> usize
        ensures { result ≡ position_of self }
    {
        (self.0 / 2) as usize
    }

    /// Whether it is `FALSE` or `TRUE`.
    pub fn is_constant(self) -> bool
        ensures { IsTrue result ↔ IsConstant self }
    {
        self.0 < 2
    }

    /// Whether the function is the complement of the kept one.
    pub fn is_marked(self) -> bool
        ensures { result ≡ is_marked self }
    {
        self.0 % 2 == 1
    }

    /// The id of the complement, which is known wherever the id is. It needs no store and takes constant time.
    pub fn complement(self) -> NodeId
        ensures value { result ≡ complement self }
        ensures meaning { (s : Table) (v : ℕ → Bool) → means s result v ≡ not (means s self v) }
        ensures level { (s : Table) → level_of s result ≡ level_of s self }
        ensures known { (s : Table) → Knows s self → Knows s result }
        ensures back { complement result ≡ self }
    {
        NodeId(self.0 ^ 1)
    }

    /// The id of the complement where `marked` holds, and else the id itself.
    pub fn complement_if(self, marked: bool) -> NodeId
        ensures value { result ≡ (if marked then complement self else self) }
        ensures meaning { (s : Table) (v : ℕ → Bool)
            → means s result v ≡ (if marked then not (means s self v) else means s self v) }
        ensures level { (s : Table) → level_of s result ≡ level_of s self }
        ensures known { (s : Table) → Knows s self → Knows s result }
    {
        if marked { self.complement() } else { self }
    }
}
