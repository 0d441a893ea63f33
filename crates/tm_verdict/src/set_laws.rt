//! The sets of states that certificates tell.
ghost use Rattle.std.specs.Prelude.{◌≡◌, ℕ, ◌+◌, ◌<◌, Bool, true, false, List, [], ◌∷◌, Some, length, slice_get, if◌then◌else◌};
ghost use Rattle.tm_syntax.specs.Design.{DesignTree};
ghost use Rattle.tm_sem.specs.Certificates.{WaitForConditions};
ghost use Rattle.tm_sem.specs.Fairness.{conditions};
ghost use Rattle.tm_cert.specs.declared.cert.Cert.TheVariants as certs;
ghost use Rattle.tm_cert.specs.declared.cert.Entry.{Entry};
ghost use Rattle.tm_cert.specs.declared.shape.CertShape.{CertShape};
ghost use Rattle.tm_cert.specs.Cert.{DriverData, EnvData};
ghost use Rattle.tm_cert.specs.CertValue.{IsCertText};
ghost use Rattle.tm_verdict.specs.Fitting.{AreNodes, FitsDriver, FitsEnvironment};
ghost use Rattle.tm_verdict.specs.Sets.{driver_sets, id_holds, levels_of};
ghost use Rattle.tm_verdict.specs.Environment.{HasShape};

/// Ids are those of decision diagrams: 0 is false and 1 is true at all bits, and an entry is as its `hi` where the bit
/// of its level is 1, and as its `lo` where it is 0.
pub fn ids_are_diagrams()
    ensures never { (nodes : List Entry) (bits : ℕ → Bool) → id_holds nodes 0 bits ≡ false }
    ensures always { (nodes : List Entry) (bits : ℕ → Bool) → id_holds nodes 1 bits ≡ true }
    ensures entries { (levels k : ℕ) (nodes : List Entry) (e : Entry) (bits : ℕ → Bool) → AreNodes levels nodes
        → slice_get nodes k ≡ Some e → id_holds nodes (k + 2) bits
        ≡ (if bits e.level then id_holds nodes e.hi bits else id_holds nodes e.lo bits) }
{}

/// An id of diagrams over some levels depends on the bits of these alone.
pub fn ids_read_their_levels()
    ensures { (levels id : ℕ) (nodes : List Entry) (one other : ℕ → Bool) → AreNodes levels nodes
        → ((k : ℕ) → k < levels → one k ≡ other k) → id_holds nodes id one ≡ id_holds nodes id other }
{}

/// A certificate that is read fits the numbers for which it is read.
pub fn read_certificates_fit()
    ensures driver { (shape : CertShape) (text : List ℕ) (c : DriverData) → IsCertText shape text (certs.Driver c)
        → FitsDriver shape.bits shape.goals shape.fairs c }
    ensures environment { (shape : CertShape) (text : List ℕ) (c : EnvData)
        → IsCertText shape text (certs.Environment c) → FitsEnvironment shape.bits shape.goals shape.fairs c }
{}

/// The sets of a certificate that fits a design have the shape that its conditions ask for.
pub fn sets_have_their_shape()
    ensures goals { (d : DesignTree) (bits : ℕ) (c : DriverData)
        → FitsDriver bits (length d.goals) (length (conditions d)) c
        → length (driver_sets d c).goals ≡ length d.goals }
    ensures fairs { (d : DesignTree) (bits : ℕ) (c : DriverData)
        → FitsDriver bits (length d.goals) (length (conditions d)) c → WaitForConditions d (driver_sets d c) }
    ensures levels { (d : DesignTree) (bits : ℕ) (c : EnvData)
        → FitsEnvironment bits (length d.goals) (length (conditions d)) c → HasShape d (levels_of d c) }
{}

/// Worked out by hand: a diagram of two levels, over bits that are given.
pub fn ids_of_some_diagram()
    ensures { let nodes = record { level = 1; lo = 0; hi = 1 } ∷ record { level = 0; lo = 2; hi = 0 } ∷ [] in
        (bits : ℕ → Bool) → bits 0 ≡ false → bits 1 ≡ true → id_holds nodes 3 bits ≡ true }
{}
