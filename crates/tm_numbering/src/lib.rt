//! Decision diagrams as the entries of a certificate: each node once, and children before their parents.
#![tactic(auto)]

mod numbering;

ghost use Rattle.std.specs.Prelude.{◌≡◌, ℕ, Bool, List};
ghost use Rattle.tm_cert.specs.declared.cert.Entry.{Entry};
ghost use Rattle.tm_dd.specs.declared.node.NodeId.{NodeId};
ghost use Rattle.tm_dd.specs.Reduced.{IsReduced, RanksRise};
ghost use Rattle.tm_dd.specs.Table.{Table, means};
ghost use Rattle.tm_numbering.specs.Numbers.{AreNumbered, HasNumber};
ghost use Rattle.tm_verdict.specs.Fitting.{AreNodes};
ghost use Rattle.tm_verdict.specs.Sets.{id_holds};

pub use numbering::number;

/// Entries that number the nodes of a store whose first levels stand in the order of their numbers are what a
/// certificate may have, and a number holds exactly where the function of its id is true.
pub fn numbers_are_certificate_ids()
    ensures entries { (s : Table) (bits : ℕ) (ids : List NodeId) (nodes : List Entry) → IsReduced s → RanksRise bits s
        → AreNumbered s bits ids nodes → AreNodes bits nodes }
    ensures values { (s : Table) (bits : ℕ) (ids : List NodeId) (nodes : List Entry) (id : NodeId) (n : ℕ)
        (v : ℕ → Bool) → IsReduced s → RanksRise bits s → AreNumbered s bits ids nodes → HasNumber ids id n
        → id_holds nodes n v ≡ means s id v }
    ensures one_id { (ids : List NodeId) (id other : NodeId) (n : ℕ) → HasNumber ids id n → HasNumber ids other n
        → id ≡ other }
{}
