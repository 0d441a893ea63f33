//! Reading and judging a certificate.
ghost use Rattle.std.specs.Prelude.{◌≡◌, ℕ, List, IsTrue, IfOk, IfErr};
ghost use Rattle.tm_syntax.specs.Design.{DesignTree};
ghost use Rattle.tm_cert.specs.declared.shape.Kind.{Kind as Wanted};
ghost use Rattle.tm_cert.specs.CertValue.{IsCertText};
ghost use Rattle.tm_judge.specs.Shape.{shape_of};
ghost use Rattle.tm_commands.specs.World.{files_data, OnlyCounts, OnlyReads};
ghost use Rattle.tm_commands.specs.Inputs.{TellsCert, NoCert, RefusesCert};
ghost use Rattle.tm_commands.specs.Inner.Reading.{IsBadCert};
ghost use Rattle.tm_commands.specs.Inner.Stopping.{StopsBy, IsMemory, IsReadFailure, IsRefusal};

use crate::input::file::{TEXT_BYTES, bad_text, read_file};
use crate::stop::Stop;
use std::alloc::Global;
use tm_base::Files;
use tm_cert::{Cert, CertShape, ReadCertError, read_shaped};
use tm_report::{Bad, Failure};

/// What stops a command at a text that is no certificate.
fn refusal(alloc: Global, name: &str, error: ReadCertError) -> Stop
    ensures { StopsBy (IsBadCert name.now error) IsMemory result }
{
    match error {
        ReadCertError::Bad(bad) => bad_text(alloc, name, Bad::Cert(bad)),
        ReadCertError::Memory => Stop::Fails(Failure::Memory),
    }
}

/// The certificate of a wanted kind that a file tells for the numbers of a design.
pub fn load_cert<F: Files>(
    alloc: Global,
    files: &mut F,
    cert: &str,
    shape: CertShape,
) -> Result<Cert, Stop>
    ensures told { IfOk result (λ c. (d : DesignTree) (wanted : Wanted) → shape ≡ shape_of d wanted → IsTrue F.tells →
        TellsCert (F.contents files.old) cert.now d wanted c) }
    ensures read { IfOk result (λ c. (text : List ℕ) × IsCertText shape text c) }
    ensures stopped { (d : DesignTree) (wanted : Wanted) → shape ≡ shape_of d wanted → IfErr result (StopsBy
        (IsRefusal (NoCert (F.contents files.old) cert.now d wanted) (RefusesCert cert.now)
        (files_data ⟦<F as Files>⟧ files.old) (files_data ⟦<F as Files>⟧ files.new))
        (IsReadFailure cert.now
        (files_data ⟦<F as Files>⟧ files.old) (files_data ⟦<F as Files>⟧ files.new))) }
    ensures files { OnlyReads (files_data ⟦<F as Files>⟧ files.old) (files_data ⟦<F as Files>⟧ files.new) }
    ensures counts { OnlyCounts (λ n. n ≡ cert.now)
        (files_data ⟦<F as Files>⟧ files.old) (files_data ⟦<F as Files>⟧ files.new) }
{
    let Some(text) = read_file(alloc, files, cert, TEXT_BYTES)? else {
        return Err(bad_text(alloc, cert, Bad::TooLong));
    };
    match read_shaped(alloc, shape, &text) {
        Ok(cert) => Ok(cert),
        Err(error) => Err(refusal(alloc, cert, error)),
    }
}
