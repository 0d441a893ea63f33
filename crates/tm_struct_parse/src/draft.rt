//! A structured driver as it is written, whatever it names.

ghost use Rattle.std.specs.Prelude.{◌≡◌, All, map, IfOk};
ghost use Rattle.tm_cir.specs.View.{truth_tree};
ghost use Rattle.tm_struct.specs.Tree.{choose};
ghost use Rattle.tm_struct.specs.View.{action_tree, action_trees, program_tree};
ghost use Rattle.tm_struct_parse.specs.View.{draft_tree, named_tree, draft_program};
ghost use Rattle.tm_struct_parse.specs.Inner.Bodies.{IsSmall, IsSmallFunction, action_of};

use std::alloc::{AllocError, Global};
use tm_cir::{Num64, Truth};
use tm_struct::{Structured, Tree};

/// What a function does, as it is written; nothing is known of the process that leaves.
#[derive(Drop)]
pub enum Draft {
    If(Truth, Box<Draft>, Box<Draft>),
    Call(u32, Vec<Num64>),
    Leave(u64),
    Go(u32),
    Idle,
}

/// A function with the number in its name.
#[derive(Drop)]
pub struct NamedDraft {
    pub number: u32,
    pub draft: Draft,
}

/// The functions and `driver_turn`.
#[derive(Drop)]
pub struct ProgramDraft {
    pub functions: Vec<NamedDraft>,
    pub main: Draft,
}

/// A draft that names what there is, as a structured driver.
pub fn structured(alloc: Global, draft: ProgramDraft) -> Result<Structured, AllocError>
    requires functions { All IsSmallFunction (draft_program draft).functions }
    requires main { IsSmall (draft_program draft).main }
    ensures functions { IfOk result (λ program.
        (program_tree program).functions ≡ map action_of (draft_program draft).functions) }
    ensures main { IfOk result (λ program. (program_tree program).main ≡ (draft_program draft).main) }
{
    let ProgramDraft { functions, main } = draft;
    let functions = read!(trees(alloc, functions), main);
    let main = read!(tree(alloc, main), functions);
    Ok(Structured { functions, main })
}

fn trees(alloc: Global, drafts: Vec<NamedDraft>) -> Result<Vec<Tree>, AllocError>
    requires { All IsSmallFunction (map named_tree drafts.items) }
    ensures { IfOk result (λ trees. action_trees trees.items ≡ map action_of (map named_tree drafts.items)) }
{
    let mut drafts = drafts;
    let mut trees = Vec::new(alloc);
    while let Some(named) = drafts.pop() {
        let tree = tree(alloc, named.draft)?;
        trees.push(tree)?;
    }
    trees.reverse();
    Ok(trees)
}

fn tree(alloc: Global, draft: Draft) -> Result<Tree, AllocError>
    requires { IsSmall (draft_tree draft) }
    ensures { IfOk result (λ tree. action_tree tree ≡ draft_tree draft) }
{
    match draft {
        Draft::If(truth, first, second) => {
            let first = read!(tree(alloc, Box::into_inner(first)), second, truth);
            let second = read!(tree(alloc, Box::into_inner(second)), first, truth);
            test(alloc, truth, first, second)
        }
        Draft::Call(task, args) => Ok(Tree::Call(task, args)),
        Draft::Leave(process) => Ok(Tree::Leave(process as u32)),
        Draft::Go(number) => Ok(Tree::Go(number)),
        Draft::Idle => Ok(Tree::Idle),
    }
}

/// A test, by its branches.
fn test(alloc: Global, truth: Truth, first: Tree, second: Tree) -> Result<Tree, AllocError>
    ensures { IfOk result (λ tree.
        action_tree tree ≡ choose (truth_tree truth) (action_tree first) (action_tree second)) }
{
    let first = boxed!(alloc, first, second, truth);
    let second = boxed!(alloc, second, first, truth);
    Ok(Tree::If(truth, first, second))
}
