//! The line of a state of a play.
ghost use Rattle.std.specs.Prelude.{◌≡◌, ◌++◌, codes, option_copied, OnOk, IfOk};
ghost use Rattle.std.specs.Fmt.{decimal};
ghost use Rattle.std.specs.List.{flat_map};
ghost use Rattle.tm_syntax.specs.Design.View.{design_tree};
ghost use Rattle.tm_play.specs.Report.{path_at, args_text, move_text, reached_text, state_line as line_of_state};

use crate::report::line_text::{push, push_number};
use crate::report::state_text::push_state;
use std::alloc::{AllocError, Global};
use tm_sem::state::{Move, State};
use tm_syntax::design::{Design, Item};

/// Puts the path of the item of a number behind the line; nothing where there is none.
pub fn push_path(line: &mut Vec<u8>, items: &[Item], number: u32) -> Result<(), AllocError>
    ensures { OnOk result (line.new.items ≡ line.old.items ++ path_at items.now number) }
{
    match items.get(number as usize) {
        Some(item) => push(line, item.path.as_bytes()),
        None => Ok(()),
    }
}

fn push_more_arguments(line: &mut Vec<u8>, args: &[u64]) -> Result<(), AllocError>
    ensures { OnOk result (line.new.items ≡ line.old.items ++ flat_map (λ b. codes ", " ++ decimal b) args.now) }
{
    for arg in args {
        push(line, b", ")?;
        push_number(line, *arg)?;
    }
    Ok(())
}

#[tactic(auto, using(crate::proofs::Appending::append_assoc))]
fn push_arguments(line: &mut Vec<u8>, args: &[u64]) -> Result<(), AllocError>
    ensures { OnOk result (line.new.items ≡ line.old.items ++ args_text args.now) }
{
    let [first, others @ ..] = args else {
        return Ok(());
    };
    push_number(line, *first)?;
    push_more_arguments(line, others)?;
    Ok(())
}

#[tactic(auto, using(crate::proofs::Appending::append_assoc))]
fn push_call(line: &mut Vec<u8>, tasks: &[Item], task: u32, args: &[u64]) -> Result<(), AllocError>
    ensures { OnOk result (line.new.items ≡ line.old.items
        ++ (codes "driver call " ++ path_at tasks.now task ++ codes "(" ++ args_text args.now ++ codes ")")) }
{
    push(line, b"driver call ")?;
    push_path(line, tasks, task)?;
    push(line, b"(")?;
    push_arguments(line, args)?;
    push(line, b")")?;
    Ok(())
}

#[tactic(auto, using(crate::proofs::Appending::append_assoc))]
fn push_item(line: &mut Vec<u8>, word: &[u8], items: &[Item], number: u32) -> Result<(), AllocError>
    ensures { OnOk result (line.new.items ≡ line.old.items ++ (word.now ++ path_at items.now number)) }
{
    push(line, word)?;
    push_path(line, items, number)?;
    Ok(())
}

fn push_move(line: &mut Vec<u8>, design: &Design, action: &Move) -> Result<(), AllocError>
    ensures { OnOk result (line.new.items ≡ line.old.items ++ move_text (design_tree design.now) action.now) }
{
    match action {
        Move::Stutter => push(line, b"stutter"),
        Move::Process(process) => push_item(line, b"process ", &design.processes, *process),
        Move::Idle => push(line, b"driver idle"),
        Move::Leave(process) => push_item(line, b"driver leave ", &design.processes, *process),
        Move::Call(task, args) => push_call(line, &design.tasks, *task, args.list.as_slice()),
    }
}

fn push_reached(
    line: &mut Vec<u8>,
    design: &Design,
    action: Option<&Move>,
) -> Result<(), AllocError>
    ensures { OnOk result (line.new.items
        ≡ line.old.items ++ reached_text (design_tree design.now) (option_copied action.entry)) }
{
    match action {
        Some(action) => push_move(line, design, action),
        None => push(line, b"start"),
    }
}

/// The line of a state: its number, how it was reached, itself, and its pending goal.
#[tactic(auto, using(crate::proofs::Appending::append_assoc))]
pub fn state_line(
    alloc: Global,
    design: &Design,
    number: u64,
    action: Option<&Move>,
    state: &State,
    goal: u32,
) -> Result<Vec<u8>, AllocError>
    ensures { IfOk result (λ line.
        line.items ≡ line_of_state (design_tree design.now) number (option_copied action.entry) state.now goal) }
{
    let mut line = Vec::new(alloc);
    push_number(&mut line, number)?;
    push(&mut line, b" ")?;
    push_reached(&mut line, design, action)?;
    push(&mut line, b" ")?;
    push_state(&mut line, design, state)?;
    push(&mut line, b" goal=")?;
    push_number(&mut line, u64::from(goal))?;
    push(&mut line, b"\n")?;
    Ok(line)
}
