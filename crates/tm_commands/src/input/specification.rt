//! Reading and judging a specification.
ghost use Rattle.std.specs.Prelude.{◌≡◌, IfOk, IfErr};
ghost use Rattle.tm_syntax.specs.Design.View.{design_tree};
ghost use Rattle.tm_commands.specs.Headline.{long_fault as fault_of_long_text};
ghost use Rattle.tm_commands.specs.World.{files_data, OnlyCounts, OnlyReads};
ghost use Rattle.tm_commands.specs.Inputs.{NoSpecification, RefusesSpecification};
ghost use Rattle.tm_commands.specs.Inner.Reading.{IsRead, refusal_of};
ghost use Rattle.tm_commands.specs.Inner.Stopping.{StopsBy, IsReadFailure, IsRefusal};

use crate::input::file::read_file;
use crate::stop::Stop;
use std::alloc::Global;
use tm_base::{Files, Place};
use tm_inst::read_specification;
use tm_report::{Ending, Failure};
use tm_syntax::design::Design;
use tm_syntax::fault::{Detail, FaultKind, Faulty, FrontError, Quantity};

/// The most bytes of a specification.
const SPEC_BYTES: u64 = 1_048_576;

/// The fault of a specification that is longer than its limit.
fn long_fault() -> Faulty
    ensures { result ≡ fault_of_long_text }
{
    Faulty {
        kind: FaultKind::Limit,
        place: Place { line: 1, column: 1 },
        detail: Detail::Limit {
            what: Quantity::Specification,
            limit: SPEC_BYTES,
            found: SPEC_BYTES + 1,
        },
    }
}

/// What stops a command at a text that is not read.
fn refusal(error: FrontError) -> Stop
    ensures { result ≡ refusal_of error }
{
    match error {
        FrontError::Faulty(fault) => Stop::Ends(Ending::Faulty(fault)),
        FrontError::Memory => Stop::Fails(Failure::Memory),
    }
}

/// The design that a file tells.
pub fn load_specification<F: Files>(
    alloc: Global,
    files: &mut F,
    spec: &str,
) -> Result<Design, Stop>
    ensures read { IfOk result (λ d. IsRead F.tells (F.contents files.old) spec.now (design_tree d)) }
    ensures stopped { IfErr result (StopsBy
        (IsRefusal (NoSpecification (F.contents files.old) spec.now) RefusesSpecification
        (files_data ⟦<F as Files>⟧ files.old) (files_data ⟦<F as Files>⟧ files.new))
        (IsReadFailure spec.now
        (files_data ⟦<F as Files>⟧ files.old) (files_data ⟦<F as Files>⟧ files.new))) }
    ensures files { OnlyReads (files_data ⟦<F as Files>⟧ files.old) (files_data ⟦<F as Files>⟧ files.new) }
    ensures counts { OnlyCounts (λ n. n ≡ spec.now)
        (files_data ⟦<F as Files>⟧ files.old) (files_data ⟦<F as Files>⟧ files.new) }
{
    let Some(text) = read_file(alloc, files, spec, SPEC_BYTES)? else {
        return Err(Stop::Ends(Ending::Faulty(long_fault())));
    };
    match read_specification(alloc, &text) {
        Ok(read) => Ok(read.design),
        Err(error) => Err(refusal(error)),
    }
}
