//! Certificates as JSON, read and written.
#![tactic(auto)]

/// What a call gives. Its error ends the function, and what that holds is dropped whole, not part by part.
macro_rules! given {
    ($result:expr $(, $held:ident)*) => {
        match $result {
            Ok(given) => given,
            Err(error) => {
                $(drop($held);)*
                return Err(error);
            }
        }
    };
}

mod cert;
mod goals;
pub mod head;
mod levels;
mod nodes;
mod order;
mod part;
mod path;
mod read;
mod refusal;
mod shape;
mod write;

pub use cert::{Cert, CertLevel, DriverCert, Entry, EnvCert, Rank};
pub use read::{judged_exactly, keys_are_in_byte_order, read_shaped};
pub use refusal::{BadCert, ReadCertError};
pub use shape::{CertShape, Kind};
pub use write::write_shaped;
