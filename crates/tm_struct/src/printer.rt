//! The text of a structured driver.
ghost use Rattle.std.specs.Prelude.{◌≡◌, ◌++◌, map, codes, All, OnOk, IfOk};
ghost use Rattle.std.specs.Fmt.{decimal};
ghost use Rattle.tm_syntax.specs.Design.View.{design_tree};
ghost use Rattle.tm_cir.specs.View.{num_tree, truth_tree};
ghost use Rattle.tm_cprint.specs.Layout.{task_name, constant_text, truth_text, arguments_text};
ghost use Rattle.tm_struct.specs.Tree.{ProgramTree};
ghost use Rattle.tm_struct.specs.View.{action_tree, action_trees, program_tree};
ghost use Rattle.tm_struct.specs.Fit.{MayNest, FitsProgram};
ghost use Rattle.tm_struct.specs.Text.{IsStructuredText};
ghost use Rattle.tm_struct.specs.Layout.{indent, action_text, body_text, functions_text, program_text};

use crate::program::{Structured, Tree};
use std::alloc::{AllocError, Global};
use tm_cir::{Num64, Truth};
use tm_cprint::expression::push_truth;
use tm_cprint::piece::{push, push_constant, push_number, push_task};
use tm_cprint::push_arguments;
use tm_syntax::design::Design;

/// The text of a structured driver that is well made over this design: C11 (ISO/IEC 9899:2011) with a function for
/// each of the driver's, and `driver_turn`.
///
/// It goes down by recursion as deep as `if` are open, 128 at most, and as parentheses nest.
pub fn print_structured(
    alloc: Global,
    design: &Design,
    program: &Structured,
) -> Result<Vec<u8>, AllocError>
    requires { FitsProgram (design_tree design.now) (program_tree program.now) }
    ensures laid_out { IfOk result (λ text.
        text.items ≡ program_text (design_tree design.now) (program_tree program.now)) }
    ensures reads_so { IfOk result (λ text.
        IsStructuredText (design_tree design.now) text.items (program_tree program.now)) }
    ensures reads_only_so { IfOk result (λ text. (p : ProgramTree) →
        IsStructuredText (design_tree design.now) text.items p → p ≡ program_tree program.now) }
{
    let mut text = Vec::new(alloc);
    push(&mut text, b"#include \"termite.h\"\n\n")?;
    push_functions(&mut text, design, &program.functions)?;
    push(&mut text, b"void driver_turn")?;
    push_body(&mut text, design, &program.main)?;
    Ok(text)
}

fn push_functions(text: &mut Vec<u8>, design: &Design, functions: &[Tree]) -> Result<(), AllocError>
    requires { All (MayNest 0) (action_trees functions.now) }
    ensures { OnOk result (text.new.items ≡ text.old.items
        ++ functions_text (design_tree design.now) 0 (action_trees functions.now)) }
{
    for (number, function) in functions.iter().enumerate() {
        push_name(text, number)?;
        push_body(text, design, function)?;
        push(text, b"\n")?;
    }
    Ok(())
}

/// Puts what stands before the parameters of a function.
#[tactic(auto, using(tm_cprint::proofs::Behind::append_assoc))]
fn push_name(text: &mut Vec<u8>, number: usize) -> Result<(), AllocError>
    ensures { OnOk result (text.new.items ≡ text.old.items ++ (codes "static void b" ++ decimal number)) }
{
    push(text, b"static void b")?;
    push_number(text, number as u64)?;
    Ok(())
}

/// Puts what stands behind the name of a function.
#[tactic(auto, using(tm_cprint::proofs::Behind::append_assoc))]
fn push_body(text: &mut Vec<u8>, design: &Design, tree: &Tree) -> Result<(), AllocError>
    requires { MayNest 0 (action_tree tree.now) }
    ensures { OnOk result (text.new.items ≡ text.old.items
        ++ body_text (design_tree design.now) (action_tree tree.now)) }
{
    push(text, b"(void)\n{\n")?;
    push_tree(text, design, 0, tree)?;
    push(text, b"}\n")?;
    Ok(())
}

/// Puts what a function does, inside so many open `if`.
fn push_tree(
    text: &mut Vec<u8>,
    design: &Design,
    open_ifs: u32,
    tree: &Tree,
) -> Result<(), AllocError>
    requires { MayNest open_ifs (action_tree tree.now) }
    ensures { OnOk result (text.new.items ≡ text.old.items
        ++ action_text (design_tree design.now) open_ifs (action_tree tree.now)) }
{
    match tree {
        Tree::If(truth, first, second) => {
            push_test(text, design, open_ifs, truth)?;
            push_tree(text, design, open_ifs + 1, first)?;
            push_line(text, open_ifs, b"} else {\n")?;
            push_tree(text, design, open_ifs + 1, second)?;
            push_line(text, open_ifs, b"}\n")
        }
        Tree::Call(task, args) => push_call(text, design, open_ifs, *task, args),
        Tree::Leave(process) => push_leave(text, open_ifs, *process),
        Tree::Go(number) => push_go(text, open_ifs, *number),
        Tree::Idle => push_line(text, open_ifs, b"return;\n"),
    }
}

/// Puts a line behind its tabs.
#[tactic(auto, using(tm_cprint::proofs::Behind::append_assoc))]
fn push_line(text: &mut Vec<u8>, open_ifs: u32, line: &[u8]) -> Result<(), AllocError>
    ensures { OnOk result (text.new.items ≡ text.old.items ++ (indent open_ifs ++ line.now)) }
{
    push_indent(text, open_ifs)?;
    push(text, line)?;
    Ok(())
}

/// Puts the tabs of a line inside so many open `if`.
fn push_indent(text: &mut Vec<u8>, open_ifs: u32) -> Result<(), AllocError>
    ensures { OnOk result (text.new.items ≡ text.old.items ++ indent open_ifs) }
{
    text.push(b'\t')?;
    for _count in 0..open_ifs {
        text.push(b'\t')?;
    }
    Ok(())
}

fn push_test(
    text: &mut Vec<u8>,
    design: &Design,
    open_ifs: u32,
    truth: &Truth,
) -> Result<(), AllocError>
    ensures { OnOk result (text.new.items ≡ text.old.items
        ++ (indent open_ifs ++ codes "if (" ++ truth_text (design_tree design.now) (truth_tree truth.now)
        ++ codes ") {\n")) }
{
    push_indent(text, open_ifs)?;
    push(text, b"if (")?;
    push_truth(text, design, truth)?;
    push(text, b") {\n")?;
    Ok(())
}

fn push_call(
    text: &mut Vec<u8>,
    design: &Design,
    open_ifs: u32,
    task: u32,
    args: &[Num64],
) -> Result<(), AllocError>
    ensures { OnOk result (text.new.items ≡ text.old.items
        ++ (indent open_ifs ++ task_name (design_tree design.now) task ++ codes "("
        ++ arguments_text (design_tree design.now) (map num_tree args.now) ++ codes ");\n")) }
{
    push_indent(text, open_ifs)?;
    push_task(text, design, task)?;
    push(text, b"(")?;
    push_arguments(text, design, args)?;
    push(text, b");\n")?;
    Ok(())
}

fn push_leave(text: &mut Vec<u8>, open_ifs: u32, process: u32) -> Result<(), AllocError>
    ensures { OnOk result (text.new.items ≡ text.old.items
        ++ (indent open_ifs ++ codes "termite_leave(" ++ constant_text process ++ codes ");\n")) }
{
    push_indent(text, open_ifs)?;
    push(text, b"termite_leave(")?;
    push_constant(text, u64::from(process))?;
    push(text, b");\n")?;
    Ok(())
}

fn push_go(text: &mut Vec<u8>, open_ifs: u32, number: u32) -> Result<(), AllocError>
    ensures { OnOk result (text.new.items ≡ text.old.items
        ++ (indent open_ifs ++ codes "b" ++ decimal number ++ codes "();\n")) }
{
    push_indent(text, open_ifs)?;
    push(text, b"b")?;
    push_number(text, u64::from(number))?;
    push(text, b"();\n")?;
    Ok(())
}
