//! The comparison of ids.
ghost use Rattle.std.specs.Prelude.{◌≡◌, ◌↔◌, IsTrue};

use tm_dd::NodeId;

/// Whether two ids are one: of known ids, whether their sets are.
pub fn same(a: NodeId, b: NodeId) -> bool
    ensures { IsTrue result ↔ (a ≡ b) }
{
    a == b
}
