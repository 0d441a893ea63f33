//! Reading and judging the files of `run`.
ghost use Rattle.std.specs.Prelude.{◌≡◌, [], ◌∷◌, IsTrue, IfOk, IfErr};
ghost use Rattle.tm_syntax.specs.Design.View.{design_tree};
ghost use Rattle.tm_cir.specs.View.{trees_of};
ghost use Rattle.tm_cir.specs.Fit.{FitBlocks};
ghost use Rattle.tm_commands.specs.World.{files_data, OnlyCounts, OnlyReads};
ghost use Rattle.tm_commands.specs.Inputs.{TellsBlocks, TellsScript, NoBlocks, NoScript, RefusesBlocks, RefusesScript};
ghost use Rattle.tm_commands.specs.Order.{IsDueOfThree};
ghost use Rattle.tm_commands.specs.Run.{Loads, Refused, RunMayEnd};
ghost use Rattle.tm_play.specs.Playable.{IsPlayable};
ghost use Rattle.tm_commands.specs.Inner.Stopping.{StopsBy, IsLoadFailure, IsReadFailure, IsRefusal};

use crate::input::file::{TEXT_BYTES, bad_text, read_file};
use crate::input::specification::load_specification;
use crate::stop::Stop;
use std::alloc::Global;
use tm_base::Files;
use tm_cir::Blocks;
use tm_cparse::{ReadDriverError, read_driver};
use tm_play::{Script, ScriptError, read_script};
use tm_report::{Bad, Failure};
use tm_syntax::design::Design;

/// What `run` plays: a design, blocks that fit it, and choices.
#[derive(Drop)]
pub struct Inputs {
    pub design: Design,
    pub blocks: Blocks,
    pub script: Script,
}

/// The blocks that a file tells over a design.
pub fn load_blocks<F: Files>(
    alloc: Global,
    files: &mut F,
    driver: &str,
    design: &Design,
) -> Result<Blocks, Stop>
    ensures told { IfOk result (λ b. IsTrue F.tells →
        TellsBlocks (F.contents files.old) driver.now (design_tree design.now) (trees_of b)) }
    ensures fits { IfOk result (λ b. FitBlocks (design_tree design.now) (trees_of b)) }
    ensures stopped { IfErr result (StopsBy
        (IsRefusal (NoBlocks (F.contents files.old) driver.now (design_tree design.now)) (RefusesBlocks driver.now)
        (files_data ⟦<F as Files>⟧ files.old) (files_data ⟦<F as Files>⟧ files.new))
        (IsReadFailure driver.now
        (files_data ⟦<F as Files>⟧ files.old) (files_data ⟦<F as Files>⟧ files.new))) }
    ensures files { OnlyReads (files_data ⟦<F as Files>⟧ files.old) (files_data ⟦<F as Files>⟧ files.new) }
    ensures counts { OnlyCounts (λ n. n ≡ driver.now)
        (files_data ⟦<F as Files>⟧ files.old) (files_data ⟦<F as Files>⟧ files.new) }
{
    let Some(text) = read_file(alloc, files, driver, TEXT_BYTES)? else {
        return Err(bad_text(alloc, driver, Bad::TooLong));
    };
    match read_driver(alloc, design, &text) {
        Ok(blocks) => Ok(blocks),
        Err(ReadDriverError::Bad(bad)) => Err(bad_text(alloc, driver, Bad::Driver(bad))),
        Err(ReadDriverError::Memory) => Err(Stop::Fails(Failure::Memory)),
    }
}

/// The choices that a file tells over a design.
fn load_script<F: Files>(
    alloc: Global,
    files: &mut F,
    choices: &str,
    design: &Design,
) -> Result<Script, Stop>
    requires { IsPlayable (design_tree design.now) }
    ensures told { IfOk result (λ script. IsTrue F.tells →
        TellsScript (F.contents files.old) choices.now (design_tree design.now) script) }
    ensures stopped { IfErr result (StopsBy
        (IsRefusal
        (NoScript (F.contents files.old) choices.now (design_tree design.now)) (RefusesScript choices.now)
        (files_data ⟦<F as Files>⟧ files.old) (files_data ⟦<F as Files>⟧ files.new))
        (IsReadFailure choices.now
        (files_data ⟦<F as Files>⟧ files.old) (files_data ⟦<F as Files>⟧ files.new))) }
    ensures files { OnlyReads (files_data ⟦<F as Files>⟧ files.old) (files_data ⟦<F as Files>⟧ files.new) }
    ensures counts { OnlyCounts (λ n. n ≡ choices.now)
        (files_data ⟦<F as Files>⟧ files.old) (files_data ⟦<F as Files>⟧ files.new) }
{
    let Some(text) = read_file(alloc, files, choices, TEXT_BYTES)? else {
        return Err(bad_text(alloc, choices, Bad::TooLong));
    };
    match read_script(alloc, &design.processes, &text) {
        Ok(script) => Ok(script),
        Err(ScriptError::BadLine(line)) => Err(bad_text(alloc, choices, Bad::Choices(line))),
        Err(ScriptError::Memory) => Err(Stop::Fails(Failure::Memory)),
    }
}

/// Reads the files of `run` in order, each judged before the next one is read.
pub fn load<F: Files>(
    alloc: Global,
    files: &mut F,
    spec: &str,
    driver: &str,
    choices: &str,
) -> Result<Inputs, Stop>
    ensures told { IfOk result (λ i. IsTrue F.tells →
        Loads (F.contents files.old) spec.now driver.now choices.now
        (design_tree i.design) (trees_of i.blocks) i.script) }
    ensures playable { IfOk result (λ i. IsPlayable (design_tree i.design)) }
    ensures fits { IfOk result (λ i. FitBlocks (design_tree i.design) (trees_of i.blocks)) }
    ensures stopped { IfErr result (StopsBy
        (IsRefusal (Refused (F.contents files.old) spec.now driver.now choices.now)
        (RunMayEnd driver.now choices.now)
        (files_data ⟦<F as Files>⟧ files.old) (files_data ⟦<F as Files>⟧ files.new))
        (IsLoadFailure (spec.now ∷ driver.now ∷ choices.now ∷ [])
        (IsDueOfThree (F.contents files.old) spec.now driver.now choices.now)
        (files_data ⟦<F as Files>⟧ files.old) (files_data ⟦<F as Files>⟧ files.new))) }
    ensures files { OnlyReads (files_data ⟦<F as Files>⟧ files.old) (files_data ⟦<F as Files>⟧ files.new) }
    ensures counts { OnlyCounts (IsDueOfThree (F.contents files.old) spec.now driver.now choices.now)
        (files_data ⟦<F as Files>⟧ files.old) (files_data ⟦<F as Files>⟧ files.new) }
{
    let design = match load_specification(alloc, files, spec) {
        Ok(design) => design,
        Err(no_design) => return Err(no_design),
    };
    let blocks = match load_blocks(alloc, files, driver, &design) {
        Ok(blocks) => blocks,
        Err(no_blocks) => return Err(no_blocks),
    };
    let script = match load_script(alloc, files, choices, &design) {
        Ok(script) => script,
        Err(no_script) => return Err(no_script),
    };
    Ok(Inputs {
        design,
        blocks,
        script,
    })
}
