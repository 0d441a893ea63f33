//! Why a text is no certificate.
use std::alloc::{AllocError, AllocFailed};
use thiserror::Error;
use tm_base::Name;

/// The first fault of a text that is no certificate. A path reads as `goals[0].ranks[1][0]`.
#[derive(Debug, Drop, Error)]
pub enum BadCert {
    /// The text is no JSON (RFC 8259) that `serde_json` reads.
    #[error("no JSON")]
    Json,
    /// The part at this path is missing, unknown, or the wrong kind of value.
    #[error("wrong shape")]
    Shape(Name),
    /// The part at this path is out of range.
    #[error("out of range")]
    Range(Name),
    /// The node of this id is no node of a reduced ordered diagram, or stands twice.
    #[error("bad node")]
    Node(u64),
}

/// Why no certificate was read.
#[derive(Debug, Drop, Error)]
pub enum ReadCertError {
    #[error(transparent)]
    Bad(BadCert),
    #[error("out of memory")]
    Memory,
}

impl From<AllocError> for ReadCertError {
    ghost use Rattle.std.specs.Prelude.{◌≡◌};
    ghost use Rattle.tm_cert.specs.declared.refusal.ReadCertError.TheVariants.{Memory};

    ghost from_gives = { λ _ e. e ≡ Memory };

    fn from(_error: AllocError) -> ReadCertError {
        ReadCertError::Memory
    }
}

impl<T: Drop> From<AllocFailed<T>> for ReadCertError {
    ghost use Rattle.std.specs.Prelude.{◌≡◌};
    ghost use Rattle.tm_cert.specs.declared.refusal.ReadCertError.TheVariants.{Memory};

    ghost from_gives = { λ _ e. e ≡ Memory };

    fn from(_error: AllocFailed<T>) -> ReadCertError {
        ReadCertError::Memory
    }
}
