//! From a certificate to its text.
ghost use Rattle.std.specs.Prelude.{◌≡◌, IfOk};
ghost use Rattle.serde_json.specs.Data.{Data};
ghost use Rattle.tm_cert.specs.CertValue.{IsCert, IsCertText};
ghost use Rattle.tm_cert.specs.Written.{cert_text};
ghost use Rattle.tm_cert.specs.declared.shape.Kind.{Kind};
ghost use Rattle.tm_flat.specs.Flat.{flat_terms};
ghost use Rattle.tm_judge.specs.FlatShape.{flat_shape, capped, flat_bits};

use crate::flat_shape::state_bits;
use std::alloc::{AllocError, Global};
use tm_cert::{Cert, write_shaped};
use tm_flat::Flat;

/// The text of a certificate for a design that is given as guarded updates: JSON in format 2, without blanks, the keys
/// of each object in byte order, and a line feed at the end. `AllocError` is want of memory.
pub fn write_cert(alloc: Global, flat: &Flat, cert: &Cert) -> Result<Vec<u8>, AllocError>
    ensures text { IfOk result (λ bytes. bytes.items
        ≡ cert_text (capped (flat_bits (flat_terms flat.now))) cert.now) }

    // A certificate that some value is, of some kind for this design, is read from its text.
    ensures reads_back { IfOk result (λ bytes. (wanted : Kind) (d : Data)
        → IsCert (flat_shape (flat_terms flat.now) wanted) d cert.now
        → IsCertText (flat_shape (flat_terms flat.now) wanted) bytes.items cert.now) }
{
    write_shaped(alloc, state_bits(flat), cert)
}
