//! Reading and judging the files of `migrate`.
ghost use Rattle.std.specs.Prelude.{[], ◌∷◌, IfOk, IfErr};
ghost use Rattle.tm_commands.specs.World.{files_data, OnlyCounts, OnlyReads};
ghost use Rattle.tm_commands.specs.Migrate.{MigrateEnds, MigrateRefuses};
ghost use Rattle.tm_commands.specs.Order.{IsDueOfTwo};
ghost use Rattle.tm_commands.specs.Inner.Reading.{IsMigration};
ghost use Rattle.tm_commands.specs.Inner.Stopping.{StopsBy, IsLoadFailure, IsRefusal};

use crate::input::certificate::load_cert;
use crate::input::specification::load_specification;
use crate::stop::Stop;
use std::alloc::Global;
use tm_base::Files;
use tm_cert::{Cert, CertShape, Kind};
use tm_judge::cert_shape;

/// What `migrate` writes anew: a certificate, and the numbers of the design for which it was read.
#[derive(Drop)]
pub struct Migration {
    pub shape: CertShape,
    pub cert: Cert,
}

/// Reads the specification and the certificate of `migrate` in order, each judged before the next one is read.
pub fn load_migration<F: Files>(
    alloc: Global,
    files: &mut F,
    spec: &str,
    cert: &str,
) -> Result<Migration, Stop>
    ensures loaded { IfOk result (λ m.
        IsMigration F.tells (F.contents files.old) spec.now cert.now m.shape m.cert) }
    ensures stopped { IfErr result (StopsBy
        (IsRefusal (MigrateEnds (F.contents files.old) spec.now cert.now) (MigrateRefuses cert.now)
        (files_data ⟦<F as Files>⟧ files.old) (files_data ⟦<F as Files>⟧ files.new))
        (IsLoadFailure (spec.now ∷ cert.now ∷ []) (IsDueOfTwo (F.contents files.old) spec.now cert.now)
        (files_data ⟦<F as Files>⟧ files.old) (files_data ⟦<F as Files>⟧ files.new))) }
    ensures files { OnlyReads (files_data ⟦<F as Files>⟧ files.old) (files_data ⟦<F as Files>⟧ files.new) }
    ensures counts { OnlyCounts (IsDueOfTwo (F.contents files.old) spec.now cert.now)
        (files_data ⟦<F as Files>⟧ files.old) (files_data ⟦<F as Files>⟧ files.new) }
{
    let design = match load_specification(alloc, files, spec) {
        Ok(design) => design,
        Err(no_specification) => return Err(no_specification),
    };
    let shape = cert_shape(alloc, &design, Kind::Either)?;
    match load_cert(alloc, files, cert, shape) {
        Ok(cert) => Ok(Migration { shape, cert }),
        Err(no_cert) => Err(no_cert),
    }
}
