//! Reading and judging the files of `unstructure`.
ghost use Rattle.std.specs.Prelude.{◌≡◌, [], ◌∷◌, IsTrue, IfOk, IfErr};
ghost use Rattle.tm_syntax.specs.Design.View.{design_tree};
ghost use Rattle.tm_struct.specs.Fit.{FitsProgram};
ghost use Rattle.tm_struct.specs.View.{program_tree};
ghost use Rattle.tm_commands.specs.World.{files_data, OnlyCounts, OnlyReads};
ghost use Rattle.tm_commands.specs.Inputs.{TellsStructured, NoStructured, RefusesStructured};
ghost use Rattle.tm_commands.specs.Structure.{UnstructureEnds, UnstructureRefuses};
ghost use Rattle.tm_commands.specs.Order.{IsDueOfTwo};
ghost use Rattle.tm_commands.specs.Inner.Reading.{IsUnstructureRead};
ghost use Rattle.tm_commands.specs.Inner.Stopping.{StopsBy, IsLoadFailure, IsReadFailure, IsRefusal};

use crate::input::file::{TEXT_BYTES, bad_text, read_file};
use crate::input::specification::load_specification;
use crate::stop::Stop;
use std::alloc::Global;
use tm_base::Files;
use tm_report::{Bad, Failure};
use tm_struct::Structured;
use tm_struct_parse::{ReadStructuredError, read_structured};
use tm_syntax::design::Design;

/// What `unstructure` writes anew: a structured driver, and the design over which it was read.
#[derive(Drop)]
pub struct UnstructureInputs {
    pub design: Design,
    pub program: Structured,
}

/// The structured driver that a file tells over a design.
fn load_structured<F: Files>(
    alloc: Global,
    files: &mut F,
    structured: &str,
    design: &Design,
) -> Result<Structured, Stop>
    ensures told { IfOk result (λ p. IsTrue F.tells →
        TellsStructured (F.contents files.old) structured.now (design_tree design.now) (program_tree p)) }
    ensures fits { IfOk result (λ p. FitsProgram (design_tree design.now) (program_tree p)) }
    ensures stopped { IfErr result (StopsBy
        (IsRefusal (NoStructured (F.contents files.old) structured.now (design_tree design.now))
        (RefusesStructured structured.now)
        (files_data ⟦<F as Files>⟧ files.old) (files_data ⟦<F as Files>⟧ files.new))
        (IsReadFailure structured.now
        (files_data ⟦<F as Files>⟧ files.old) (files_data ⟦<F as Files>⟧ files.new))) }
    ensures files { OnlyReads (files_data ⟦<F as Files>⟧ files.old) (files_data ⟦<F as Files>⟧ files.new) }
    ensures counts { OnlyCounts (λ n. n ≡ structured.now)
        (files_data ⟦<F as Files>⟧ files.old) (files_data ⟦<F as Files>⟧ files.new) }
{
    let Some(text) = read_file(alloc, files, structured, TEXT_BYTES)? else {
        return Err(bad_text(alloc, structured, Bad::TooLong));
    };
    match read_structured(alloc, design, &text) {
        Ok(program) => Ok(program),
        Err(ReadStructuredError::Bad(bad)) => {
            Err(bad_text(alloc, structured, Bad::Structured(bad)))
        }
        Err(ReadStructuredError::Memory) => Err(Stop::Fails(Failure::Memory)),
    }
}

/// Reads the specification and the structured driver of `unstructure` in order, each judged before the next one is
/// read.
pub fn load_unstructure<F: Files>(
    alloc: Global,
    files: &mut F,
    spec: &str,
    structured: &str,
) -> Result<UnstructureInputs, Stop>
    ensures loaded { IfOk result (λ i. IsUnstructureRead F.tells (F.contents files.old) spec.now structured.now
        (design_tree i.design) (program_tree i.program)) }
    ensures stopped { IfErr result (StopsBy
        (IsRefusal (UnstructureEnds (F.contents files.old) spec.now structured.now)
        (UnstructureRefuses structured.now)
        (files_data ⟦<F as Files>⟧ files.old) (files_data ⟦<F as Files>⟧ files.new))
        (IsLoadFailure (spec.now ∷ structured.now ∷ [])
        (IsDueOfTwo (F.contents files.old) spec.now structured.now)
        (files_data ⟦<F as Files>⟧ files.old) (files_data ⟦<F as Files>⟧ files.new))) }
    ensures files { OnlyReads (files_data ⟦<F as Files>⟧ files.old) (files_data ⟦<F as Files>⟧ files.new) }
    ensures counts { OnlyCounts (IsDueOfTwo (F.contents files.old) spec.now structured.now)
        (files_data ⟦<F as Files>⟧ files.old) (files_data ⟦<F as Files>⟧ files.new) }
{
    let design = match load_specification(alloc, files, spec) {
        Ok(design) => design,
        Err(no_specification) => return Err(no_specification),
    };
    match load_structured(alloc, files, structured, &design) {
        Ok(program) => Ok(UnstructureInputs { design, program }),
        Err(no_program) => Err(no_program),
    }
}
