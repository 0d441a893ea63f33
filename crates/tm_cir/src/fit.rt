//! Whether blocks fit a design.
ghost use Rattle.std.specs.Prelude.{◌≡◌, ◌↔◌, map, All, IsTrue};
ghost use Rattle.tm_syntax.specs.Design.View.{design_tree};
ghost use Rattle.tm_cir.specs.View.{num_tree, truth_tree, block_tree, block_trees};
ghost use Rattle.tm_cir.specs.Fit.{FitsNum, FitsTruth, FitsBlock, FitBlocks, parameter_count, IsLater};

use crate::block::{Block, MOST_ARGUMENTS, Num64, Truth};
use tm_syntax::design::Design;

/// Whether there is a block, and each one fits the design and the others.
pub fn are_fitting(design: &Design, blocks: &[Block]) -> bool
    ensures { IsTrue result ↔ FitBlocks (design_tree design.now) (block_trees blocks.now) }
{
    for (at, block) in blocks.iter().enumerate() {
        if !is_fitting(design, blocks.len(), at, block) {
            return false;
        }
    }
    !blocks.is_empty()
}

fn is_fitting(design: &Design, count: usize, at: usize, block: &Block) -> bool
    ensures { IsTrue result ↔ FitsBlock (design_tree design.now) count at (block_tree block.now) }
{
    let vars = design.vars.len();
    let processes = design.processes.len();
    match block {
        Block::Test(truth, first, second) => {
            truth_fits(vars, processes, truth)
                && is_later(at, count, *first)
                && is_later(at, count, *second)
        }
        Block::Call(task, args) => match parameter_count(design, *task) {
            Some(parameters) => {
                parameters == args.len()
                    && args.len() <= MOST_ARGUMENTS
                    && nums_fit(vars, processes, args)
            }
            None => false,
        },
        Block::Leave(process) => (*process as usize) < processes,
        Block::Idle => true,
    }
}

fn is_later(at: usize, count: usize, target: u32) -> bool
    ensures { IsTrue result ↔ IsLater at count target }
{
    let target = target as usize;
    at < target && target < count
}

/// How many parameters a controllable task of a design has, or none where there is no such task.
pub fn parameter_count(design: &Design, task: u32) -> Option<usize>
    ensures { result ≡ parameter_count (design_tree design.now) task }
{
    let item = design.tasks.get(task as usize)?;
    let instance = design.instances.get(item.instance as usize)?;
    let template = design.spec.templates.get(instance.template as usize)?;
    let declared = template.tasks.get(item.index? as usize)?;
    Some(declared.params.len())
}

fn nums_fit(vars: usize, processes: usize, nums: &[Num64]) -> bool
    ensures { IsTrue result ↔ All (FitsNum vars processes) (map num_tree nums.now) }
{
    nums.iter().all(|num| num_fits(vars, processes, num))
}

#[cycle(fitting)]
fn num_fits(vars: usize, processes: usize, num: &Num64) -> bool
    ensures { IsTrue result ↔ FitsNum vars processes (num_tree num.now) }
{
    match num {
        Num64::Const(number) => {
            // Read, so that its range is known.
            let _number = *number;
            true
        }
        Num64::Goal | Num64::Last => true,
        Num64::Var(var) => (*var as usize) < vars,
        Num64::Location(process) => (*process as usize) < processes,
        Num64::Not(a) => num_fits(vars, processes, a),
        Num64::Binary(_, a, b) => num_fits(vars, processes, a) && num_fits(vars, processes, b),
        Num64::Shift(_, a, by) => num_fits(vars, processes, a) && *by < 64,
        Num64::Cond(truth, a, b) => {
            truth_fits(vars, processes, truth)
                && num_fits(vars, processes, a)
                && num_fits(vars, processes, b)
        }
    }
}

#[cycle(fitting)]
fn truth_fits(vars: usize, processes: usize, truth: &Truth) -> bool
    ensures { IsTrue result ↔ FitsTruth vars processes (truth_tree truth.now) }
{
    match truth {
        Truth::Num(a) => num_fits(vars, processes, a),
        Truth::Not(a) => truth_fits(vars, processes, a),
        Truth::Compare(_, a, b) => num_fits(vars, processes, a) && num_fits(vars, processes, b),
        Truth::Join(_, a, b) => truth_fits(vars, processes, a) && truth_fits(vars, processes, b),
    }
}
