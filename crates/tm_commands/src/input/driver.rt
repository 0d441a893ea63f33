//! Reading and judging the files of `check` with a driver.
ghost use Rattle.std.specs.Prelude.{◌≡◌, [], ◌∷◌, IsTrue, IfOk, IfErr, length, sum};
ghost use Rattle.tm_cert.specs.declared.cert.Cert.TheVariants as certs;
ghost use Rattle.tm_cert.specs.declared.shape.Kind.TheVariants.{Driver};
ghost use Rattle.tm_cir.specs.View.{trees_of};
ghost use Rattle.tm_sem.specs.Fairness.{conditions};
ghost use Rattle.tm_sem.specs.StateBits.{state_widths};
ghost use Rattle.tm_verdict.specs.Fitting.{FitsDriver};
ghost use Rattle.tm_syntax.specs.Design.View.{design_tree};
ghost use Rattle.tm_syntax.specs.Faults.{IsOfText, IsSound};
ghost use Rattle.tm_commands.specs.Check.{CheckDriverMayEnd, NoDriver};
ghost use Rattle.tm_commands.specs.World.{files_data, OnlyCounts, OnlyReads};
ghost use Rattle.tm_commands.specs.Inputs.{TellsCert, NoCert, RefusesCert};
ghost use Rattle.tm_commands.specs.Order.{IsDueOfThree};
ghost use Rattle.tm_commands.specs.Inner.Judging.{IsDriverRead};
ghost use Rattle.tm_commands.specs.Inner.Stopping.{StopsBy, IsLoadFailure, IsReadFailure, IsRefusal};

use crate::input::certificate::load_cert;
use crate::input::load::load_blocks;
use crate::input::specification::load_specification;
use crate::stop::Stop;
use std::alloc::Global;
use tm_base::Files;
use tm_cert::{Cert, DriverCert, Kind};
use tm_cir::Blocks;
use tm_judge::cert_shape;
use tm_syntax::design::Design;

/// What `check` judges of a driver: a design, and blocks and a certificate that fit it.
#[derive(Drop)]
pub struct DriverInputs {
    pub design: Design,
    pub blocks: Blocks,
    pub cert: DriverCert,
}

/// The driver's certificate that a file tells for a design.
fn load_driver_cert<F: Files>(
    alloc: Global,
    files: &mut F,
    cert: &str,
    design: &Design,
) -> Result<DriverCert, Stop>
    requires sound { IsSound (design_tree design.now) }
    requires of_text { IsOfText (design_tree design.now).spec }
    ensures told { IfOk result (λ c. IsTrue F.tells →
        TellsCert (F.contents files.old) cert.now (design_tree design.now) Driver (certs.Driver c)) }
    ensures fits { IfOk result (FitsDriver (sum (state_widths (design_tree design.now)))
        (length (design_tree design.now).goals) (length (conditions (design_tree design.now)))) }
    ensures stopped { IfErr result (StopsBy (IsRefusal
        (NoCert (F.contents files.old) cert.now (design_tree design.now) Driver) (RefusesCert cert.now)
        (files_data ⟦<F as Files>⟧ files.old) (files_data ⟦<F as Files>⟧ files.new))
        (IsReadFailure cert.now
        (files_data ⟦<F as Files>⟧ files.old) (files_data ⟦<F as Files>⟧ files.new))) }
    ensures files { OnlyReads (files_data ⟦<F as Files>⟧ files.old) (files_data ⟦<F as Files>⟧ files.new) }
    ensures counts { OnlyCounts (λ n. n ≡ cert.now)
        (files_data ⟦<F as Files>⟧ files.old) (files_data ⟦<F as Files>⟧ files.new) }
{
    let shape = cert_shape(alloc, design, Kind::Driver)?;
    let read = match load_cert(alloc, files, cert, shape) {
        Ok(read) => read,
        Err(no_cert) => return Err(no_cert),
    };
    match read {
        Cert::Driver(cert) => Ok(cert),
        Cert::Environment(_) => unreachable!(),
    }
}

/// Reads the specification, the driver and the certificate of `check` in order, each judged before the next one is
/// read.
pub fn load_driver<F: Files>(
    alloc: Global,
    files: &mut F,
    spec: &str,
    driver: &str,
    cert: &str,
) -> Result<DriverInputs, Stop>
    ensures read { IfOk result (λ i. IsDriverRead F.tells (F.contents files.old) spec.now driver.now cert.now
        (design_tree i.design) (trees_of i.blocks) i.cert) }
    ensures stopped { IfErr result (StopsBy
        (IsRefusal (NoDriver (F.contents files.old) spec.now driver.now cert.now)
        (CheckDriverMayEnd driver.now cert.now)
        (files_data ⟦<F as Files>⟧ files.old) (files_data ⟦<F as Files>⟧ files.new))
        (IsLoadFailure (spec.now ∷ driver.now ∷ cert.now ∷ [])
        (IsDueOfThree (F.contents files.old) spec.now driver.now cert.now)
        (files_data ⟦<F as Files>⟧ files.old) (files_data ⟦<F as Files>⟧ files.new))) }
    ensures files { OnlyReads (files_data ⟦<F as Files>⟧ files.old) (files_data ⟦<F as Files>⟧ files.new) }
    ensures counts { OnlyCounts (IsDueOfThree (F.contents files.old) spec.now driver.now cert.now)
        (files_data ⟦<F as Files>⟧ files.old) (files_data ⟦<F as Files>⟧ files.new) }
{
    let design = match load_specification(alloc, files, spec) {
        Ok(design) => design,
        Err(no_specification) => return Err(no_specification),
    };
    let blocks = match load_blocks(alloc, files, driver, &design) {
        Ok(blocks) => blocks,
        Err(unread) => return Err(unread),
    };
    let cert = match load_driver_cert(alloc, files, cert, &design) {
        Ok(cert) => cert,
        Err(uncertified) => return Err(uncertified),
    };
    Ok(DriverInputs {
        design,
        blocks,
        cert,
    })
}
