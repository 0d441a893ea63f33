//! Reading and judging the files of `structure`.
ghost use Rattle.std.specs.Prelude.{[], ◌∷◌, IfOk, IfErr};
ghost use Rattle.tm_syntax.specs.Design.View.{design_tree};
ghost use Rattle.tm_cir.specs.View.{trees_of};
ghost use Rattle.tm_commands.specs.World.{files_data, OnlyCounts, OnlyReads};
ghost use Rattle.tm_commands.specs.Structure.{StructureEnds, StructureRefuses};
ghost use Rattle.tm_commands.specs.Order.{IsDueOfTwo};
ghost use Rattle.tm_commands.specs.Inner.Reading.{IsStructureRead};
ghost use Rattle.tm_commands.specs.Inner.Stopping.{StopsBy, IsLoadFailure, IsRefusal};

use crate::input::load::load_blocks;
use crate::input::specification::load_specification;
use crate::stop::Stop;
use std::alloc::Global;
use tm_base::Files;
use tm_cir::Blocks;
use tm_syntax::design::Design;

/// What `structure` writes anew: the blocks of a driver, and the design over which they were read.
#[derive(Drop)]
pub struct StructureInputs {
    pub design: Design,
    pub blocks: Blocks,
}

/// Reads the specification and the driver of `structure` in order, each judged before the next one is read.
pub fn load_structure<F: Files>(
    alloc: Global,
    files: &mut F,
    spec: &str,
    driver: &str,
) -> Result<StructureInputs, Stop>
    ensures loaded { IfOk result (λ i. IsStructureRead F.tells (F.contents files.old) spec.now driver.now
        (design_tree i.design) (trees_of i.blocks)) }
    ensures stopped { IfErr result (StopsBy
        (IsRefusal (StructureEnds (F.contents files.old) spec.now driver.now) (StructureRefuses driver.now)
        (files_data ⟦<F as Files>⟧ files.old) (files_data ⟦<F as Files>⟧ files.new))
        (IsLoadFailure (spec.now ∷ driver.now ∷ []) (IsDueOfTwo (F.contents files.old) spec.now driver.now)
        (files_data ⟦<F as Files>⟧ files.old) (files_data ⟦<F as Files>⟧ files.new))) }
    ensures files { OnlyReads (files_data ⟦<F as Files>⟧ files.old) (files_data ⟦<F as Files>⟧ files.new) }
    ensures counts { OnlyCounts (IsDueOfTwo (F.contents files.old) spec.now driver.now)
        (files_data ⟦<F as Files>⟧ files.old) (files_data ⟦<F as Files>⟧ files.new) }
{
    let design = match load_specification(alloc, files, spec) {
        Ok(design) => design,
        Err(no_specification) => return Err(no_specification),
    };
    match load_blocks(alloc, files, driver, &design) {
        Ok(blocks) => Ok(StructureInputs { design, blocks }),
        Err(no_blocks) => Err(no_blocks),
    }
}
