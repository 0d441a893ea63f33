//! Reading and judging the files of `check` without a driver.
ghost use Rattle.std.specs.Prelude.{◌≡◌, [], ◌∷◌, IsTrue, IfOk, IfErr, length, sum};
ghost use Rattle.tm_cert.specs.declared.cert.Cert.TheVariants as certs;
ghost use Rattle.tm_cert.specs.declared.shape.Kind.TheVariants.{Environment};
ghost use Rattle.tm_sem.specs.Fairness.{conditions};
ghost use Rattle.tm_sem.specs.StateBits.{state_widths};
ghost use Rattle.tm_verdict.specs.Fitting.{FitsEnvironment};
ghost use Rattle.tm_syntax.specs.Design.View.{design_tree};
ghost use Rattle.tm_syntax.specs.Faults.{IsOfText, IsSound};
ghost use Rattle.tm_commands.specs.Check.{CheckEnvironmentMayEnd, NoEnvironment};
ghost use Rattle.tm_commands.specs.World.{files_data, OnlyCounts, OnlyReads};
ghost use Rattle.tm_commands.specs.Inputs.{TellsCert, NoCert, RefusesCert};
ghost use Rattle.tm_commands.specs.Order.{IsDueOfTwo};
ghost use Rattle.tm_commands.specs.Inner.Judging.{IsEnvironmentRead};
ghost use Rattle.tm_commands.specs.Inner.Stopping.{StopsBy, IsLoadFailure, IsReadFailure, IsRefusal};

use crate::input::certificate::load_cert;
use crate::input::specification::load_specification;
use crate::stop::Stop;
use std::alloc::Global;
use tm_base::Files;
use tm_cert::{Cert, EnvCert, Kind};
use tm_judge::cert_shape;
use tm_syntax::design::Design;

/// What `check` judges of the environment: a design with the number of its fairness conditions, and a certificate that
/// fits it.
#[derive(Drop)]
pub struct EnvironmentInputs {
    pub design: Design,
    pub fairs: u32,
    pub cert: EnvCert,
}

/// A certificate of the environment, and the number of fairness conditions for which it was read.
#[derive(Drop)]
struct Levels {
    fairs: u32,
    cert: EnvCert,
}

/// The environment's certificate that a file tells for a design.
fn load_levels<F: Files>(
    alloc: Global,
    files: &mut F,
    cert: &str,
    design: &Design,
) -> Result<Levels, Stop>
    requires sound { IsSound (design_tree design.now) }
    requires of_text { IsOfText (design_tree design.now).spec }
    ensures told { IfOk result (λ l. IsTrue F.tells →
        TellsCert (F.contents files.old) cert.now (design_tree design.now) Environment (certs.Environment l.cert)) }
    ensures fits { IfOk result (λ l. FitsEnvironment (sum (state_widths (design_tree design.now)))
        (length (design_tree design.now).goals) (length (conditions (design_tree design.now))) l.cert) }
    ensures fairs { IfOk result (λ l. l.fairs ≡ length (conditions (design_tree design.now))) }
    ensures stopped { IfErr result (StopsBy (IsRefusal
        (NoCert (F.contents files.old) cert.now (design_tree design.now) Environment) (RefusesCert cert.now)
        (files_data ⟦<F as Files>⟧ files.old) (files_data ⟦<F as Files>⟧ files.new))
        (IsReadFailure cert.now
        (files_data ⟦<F as Files>⟧ files.old) (files_data ⟦<F as Files>⟧ files.new))) }
    ensures files { OnlyReads (files_data ⟦<F as Files>⟧ files.old) (files_data ⟦<F as Files>⟧ files.new) }
    ensures counts { OnlyCounts (λ n. n ≡ cert.now)
        (files_data ⟦<F as Files>⟧ files.old) (files_data ⟦<F as Files>⟧ files.new) }
{
    let shape = cert_shape(alloc, design, Kind::Environment)?;
    let read = match load_cert(alloc, files, cert, shape) {
        Ok(read) => read,
        Err(no_cert) => return Err(no_cert),
    };
    match read {
        Cert::Environment(cert) => Ok(Levels {
            fairs: shape.fairs,
            cert,
        }),
        Cert::Driver(_) => unreachable!(),
    }
}

/// Reads the specification and the certificate of `check` in order, each judged before the next one is read.
pub fn load_environment<F: Files>(
    alloc: Global,
    files: &mut F,
    spec: &str,
    cert: &str,
) -> Result<EnvironmentInputs, Stop>
    ensures read { IfOk result (λ i. IsEnvironmentRead F.tells (F.contents files.old) spec.now cert.now
        (design_tree i.design) i.cert i.fairs) }
    ensures stopped { IfErr result (StopsBy
        (IsRefusal (NoEnvironment (F.contents files.old) spec.now cert.now) (CheckEnvironmentMayEnd cert.now)
        (files_data ⟦<F as Files>⟧ files.old) (files_data ⟦<F as Files>⟧ files.new))
        (IsLoadFailure (spec.now ∷ cert.now ∷ []) (IsDueOfTwo (F.contents files.old) spec.now cert.now)
        (files_data ⟦<F as Files>⟧ files.old) (files_data ⟦<F as Files>⟧ files.new))) }
    ensures files { OnlyReads (files_data ⟦<F as Files>⟧ files.old) (files_data ⟦<F as Files>⟧ files.new) }
    ensures counts { OnlyCounts (IsDueOfTwo (F.contents files.old) spec.now cert.now)
        (files_data ⟦<F as Files>⟧ files.old) (files_data ⟦<F as Files>⟧ files.new) }
{
    let design = match load_specification(alloc, files, spec) {
        Ok(design) => design,
        Err(no_specification) => return Err(no_specification),
    };
    match load_levels(alloc, files, cert, &design) {
        Ok(levels) => Ok(EnvironmentInputs {
            design,
            fairs: levels.fairs,
            cert: levels.cert,
        }),
        Err(uncertified) => Err(uncertified),
    }
}
