//! Drafts as blocks in order.
ghost use Rattle.std.specs.Prelude.{◌≡◌, ◌<◌, ℕ, IfOk, Some, length, slice_get};
ghost use Rattle.tm_solve.specs.Sets.{StateSet};
ghost use Rattle.tm_strat_drafts.specs.Blocks.{AreGood, AreLater};
ghost use Rattle.tm_strat_drafts.specs.Drafts.{AreEarlier, blocks_of, FitsBelow, turned_block};
ghost use Rattle.tm_strat_drafts.specs.Moves.{Game};
ghost use Rattle.tm_strat_drafts.specs.declared.drafts.Draft.{Draft as DraftData};

use crate::drafts::{Draft, DraftBlock};
use std::alloc::{AllocError, Global};

// The blocks from one of the drafts down to the first one, numbered the other way round, so that each leads on to later
// ones.
pub(crate) fn finish(
    alloc: Global,
    drafts: &[Draft],
    root: u32,
) -> Result<Vec<DraftBlock>, AllocError>
    requires root { root < length drafts.now }
    requires earlier { (tests : ℕ) × AreEarlier tests drafts.now }
    ensures good { IfOk result (λ bs. (g : Game) (set : StateSet)
        → AreGood g (blocks_of drafts.now) root set → AreGood g bs.items 0 set) }
    ensures later { IfOk result (λ bs. (tests : ℕ) → AreEarlier tests drafts.now → AreLater tests bs.items) }
{
    let mut blocks = Vec::new(alloc);
    let count = root as usize + 1;
    for passed in 0..count {
        let block = block_at(drafts, root as usize - passed);
        blocks.push(turned(block, root))?;
    }
    Ok(blocks)
}

// The block of a draft.
pub(crate) fn block_at(drafts: &[Draft], at: usize) -> DraftBlock
    requires { at < length drafts.now }
    ensures { (d : DraftData) → slice_get drafts.now at ≡ Some d → d.block ≡ result }
{
    drafts[at].block
}

// A block whose numbers count down from the root.
fn turned(block: DraftBlock, root: u32) -> DraftBlock
    requires { FitsBelow root block }
    ensures { result ≡ turned_block root block }
{
    match block {
        DraftBlock::Test(test, first, second) => {
            DraftBlock::Test(test, root - first, root - second)
        }
        DraftBlock::Move(choice) => DraftBlock::Move(choice),
    }
}
