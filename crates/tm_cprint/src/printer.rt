//! The text of the blocks of a driver.
ghost use Rattle.std.specs.Prelude.{◌≡◌, ◌++◌, List, map, codes, OnOk, IfOk};
ghost use Rattle.std.specs.List.{flat_map};
ghost use Rattle.std.specs.Fmt.{decimal};
ghost use Rattle.tm_syntax.specs.Design.View.{design_tree};
ghost use Rattle.tm_cir.specs.Tree.{BlockTree, test, call};
ghost use Rattle.tm_cir.specs.View.{num_tree, truth_tree, block_tree, block_trees, trees_of};
ghost use Rattle.tm_cir.specs.Fit.{FitBlocks};
ghost use Rattle.tm_cir.specs.Text.{IsDriverText};
ghost use Rattle.tm_cprint.specs.Layout.{constant_text, goto_text, num_text, arguments_text, statement_text, blocks_text, driver_text};

use crate::expression::{push_num, push_truth};
use crate::piece::{push, push_constant, push_number, push_task};
use std::alloc::{AllocError, Global};
use tm_cir::{Block, Blocks, Num64, Truth};
use tm_syntax::design::Design;

/// The C text of blocks that were made for this design: C11 (ISO/IEC 9899:2011) with one function, `driver_turn`.
///
/// The blocks are printed as they stand. It goes down the expressions by recursion.
pub fn print(alloc: Global, design: &Design, blocks: &Blocks) -> Result<Vec<u8>, AllocError>
    requires { FitBlocks (design_tree design.now) (trees_of blocks.now) }
    ensures laid_out { IfOk result (λ text. text.items ≡ driver_text (design_tree design.now) (trees_of blocks.now)) }
    ensures reads_so { IfOk result (λ text.
        IsDriverText (design_tree design.now) text.items (trees_of blocks.now)) }
    ensures reads_only_so { IfOk result (λ text. (bs : List BlockTree) →
        IsDriverText (design_tree design.now) text.items bs → bs ≡ trees_of blocks.now) }
{
    let mut text = Vec::new(alloc);
    push(
        &mut text,
        b"#include \"termite.h\"\n\nvoid driver_turn(void)\n{\n",
    )?;
    push_blocks(&mut text, design, blocks.blocks())?;
    push(&mut text, b"}\n")?;
    Ok(text)
}

fn push_blocks(text: &mut Vec<u8>, design: &Design, blocks: &[Block]) -> Result<(), AllocError>
    ensures { OnOk result
        (text.new.items ≡ text.old.items ++ blocks_text (design_tree design.now) 0 (block_trees blocks.now)) }
{
    for (label, block) in blocks.iter().enumerate() {
        push_label(text, label)?;
        push_statement(text, design, block)?;
    }
    Ok(())
}

#[tactic(auto, using(crate::proofs::Behind::append_assoc))]
fn push_label(text: &mut Vec<u8>, label: usize) -> Result<(), AllocError>
    ensures { OnOk result (text.new.items ≡ text.old.items ++ (codes "L" ++ decimal label ++ codes ":\n")) }
{
    push(text, b"L")?;
    push_number(text, label as u64)?;
    push(text, b":\n")?;
    Ok(())
}

fn push_statement(text: &mut Vec<u8>, design: &Design, block: &Block) -> Result<(), AllocError>
    ensures { OnOk result
        (text.new.items ≡ text.old.items ++ statement_text (design_tree design.now) (block_tree block.now)) }
{
    match block {
        Block::Test(truth, first, second) => push_test(text, design, truth, *first, *second),
        Block::Call(task, args) => push_call(text, design, *task, args),
        Block::Leave(process) => push_leave(text, *process),
        Block::Idle => push(text, b"\treturn;\n"),
    }
}

fn push_test(
    text: &mut Vec<u8>,
    design: &Design,
    truth: &Truth,
    first: u32,
    second: u32,
) -> Result<(), AllocError>
    ensures { OnOk result (text.new.items ≡ text.old.items
        ++ statement_text (design_tree design.now) (test (truth_tree truth.now) first second)) }
{
    push(text, b"\tif (")?;
    push_truth(text, design, truth)?;
    push(text, b") ")?;
    push_goto(text, first)?;
    push(text, b" else ")?;
    push_goto(text, second)?;
    push(text, b"\n")?;
    Ok(())
}

#[tactic(auto, using(crate::proofs::Behind::append_assoc))]
fn push_goto(text: &mut Vec<u8>, target: u32) -> Result<(), AllocError>
    ensures { OnOk result (text.new.items ≡ text.old.items ++ goto_text target) }
{
    push(text, b"goto L")?;
    push_number(text, u64::from(target))?;
    push(text, b";")?;
    Ok(())
}

fn push_call(
    text: &mut Vec<u8>,
    design: &Design,
    task: u32,
    args: &[Num64],
) -> Result<(), AllocError>
    ensures { OnOk result (text.new.items ≡ text.old.items
        ++ statement_text (design_tree design.now) (call task (map num_tree args.now))) }
{
    push(text, b"\t")?;
    push_task(text, design, task)?;
    push(text, b"(")?;
    push_arguments(text, design, args)?;
    push(text, b");\n\treturn;\n")?;
    Ok(())
}

/// Puts the arguments of a call behind the text, with commas between them.
#[tactic(auto, using(crate::proofs::Behind::append_assoc))]
pub fn push_arguments(text: &mut Vec<u8>, design: &Design, args: &[Num64]) -> Result<(), AllocError>
    ensures { OnOk result (text.new.items ≡ text.old.items
        ++ arguments_text (design_tree design.now) (map num_tree args.now)) }
{
    let [first, others @ ..] = args else {
        return Ok(());
    };
    push_num(text, design, first)?;
    push_more_arguments(text, design, others)?;
    Ok(())
}

fn push_more_arguments(
    text: &mut Vec<u8>,
    design: &Design,
    args: &[Num64],
) -> Result<(), AllocError>
    ensures { OnOk result (text.new.items ≡ text.old.items
        ++ flat_map (λ b. codes ", " ++ num_text (design_tree design.now) b) (map num_tree args.now)) }
{
    for arg in args {
        push(text, b", ")?;
        push_num(text, design, arg)?;
    }
    Ok(())
}

#[tactic(auto, using(crate::proofs::Behind::append_assoc))]
fn push_leave(text: &mut Vec<u8>, process: u32) -> Result<(), AllocError>
    ensures { OnOk result (text.new.items ≡ text.old.items
        ++ (codes "\ttermite_leave(" ++ constant_text process ++ codes ");\n\treturn;\n")) }
{
    push(text, b"\ttermite_leave(")?;
    push_constant(text, u64::from(process))?;
    push(text, b");\n\treturn;\n")?;
    Ok(())
}
