//! From a text to a certificate.
ghost use Rattle.std.specs.Prelude.{◌≡◌, IfOk, IfErr, MatchResult};
ghost use Rattle.tm_cert.specs.CertValue.{IsCertText};
ghost use Rattle.tm_cert.specs.Judge.{judge_text};
ghost use Rattle.tm_cert.specs.Judged.{IsRefusalOf};
ghost use Rattle.tm_flat.specs.Flat.{flat_terms};
ghost use Rattle.tm_judge.specs.FlatShape.{flat_shape};

use crate::flat_shape::shape_of;
use std::alloc::Global;
use tm_cert::{Cert, Kind, ReadCertError, read_shaped};
use tm_flat::Flat;

/// The certificate of a wanted kind that a text is, in either format, for a design that is given as guarded updates.
///
/// `Bad` is the first fault of the text, as `read_shaped` judges it for the design's numbers. `Memory` is want of
/// memory. The time beside that of `read_shaped` is linear in the inputs of the design's terms.
pub fn read_cert(
    alloc: Global,
    flat: &Flat,
    wanted: Kind,
    text: &[u8],
) -> Result<Cert, ReadCertError>
    ensures ok { IfOk result (IsCertText (flat_shape (flat_terms flat.now) wanted) text.now) }
    ensures refused { IfErr result
        (IsRefusalOf (judge_text (flat_shape (flat_terms flat.now) wanted) text.now)) }

    // A text that is a certificate has no answer beside it but want of memory.
    ensures read { (cert : Cert) → IsCertText (flat_shape (flat_terms flat.now) wanted) text.now cert
        → MatchResult result (λ found. found ≡ cert) (λ e. e ≡ ReadCertError.Memory) }
{
    read_shaped(alloc, shape_of(flat, wanted), text)
}
