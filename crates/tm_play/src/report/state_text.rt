//! The text of a state.
ghost use Rattle.std.specs.Prelude.{◌≡◌, ℕ, ◌++◌, OnOk};
ghost use Rattle.std.specs.List.{flat_map, zip};
ghost use Rattle.tm_syntax.specs.Design.View.{design_tree};
ghost use Rattle.tm_play.specs.Report.{var_text, place_text, state_text};

use crate::report::line_text::{push, push_number};
use std::alloc::AllocError;
use tm_sem::state::State;
use tm_syntax::design::{Design, Item, Var};

#[tactic(auto, using(crate::proofs::Appending::append_assoc))]
fn push_var(line: &mut Vec<u8>, var: &Var, value: u64) -> Result<(), AllocError>
    ensures { OnOk result (line.new.items ≡ line.old.items ++ var_text (var.now, value)) }
{
    push(line, var.path.as_bytes())?;
    push(line, b"=")?;
    push_number(line, value)?;
    push(line, b" ")?;
    Ok(())
}

fn push_vars(line: &mut Vec<u8>, vars: &[Var], values: &[u64]) -> Result<(), AllocError>
    ensures { OnOk result (line.new.items ≡ line.old.items ++ flat_map var_text (zip vars.now values.now)) }
{
    for (var, value) in vars.iter().zip(values) {
        push_var(line, var, *value)?;
    }
    Ok(())
}

#[tactic(auto, using(crate::proofs::Appending::append_assoc))]
fn push_place(line: &mut Vec<u8>, process: &Item, place: u32) -> Result<(), AllocError>
    ensures { OnOk result (line.new.items ≡ line.old.items ++ place_text (process.now, place)) }
{
    push(line, process.path.as_bytes())?;
    push(line, b"@")?;
    push_number(line, u64::from(place))?;
    push(line, b" ")?;
    Ok(())
}

fn push_places(line: &mut Vec<u8>, processes: &[Item], places: &[u32]) -> Result<(), AllocError>
    ensures { OnOk result (line.new.items ≡ line.old.items ++ flat_map place_text (zip processes.now places.now)) }
{
    for (process, place) in processes.iter().zip(places) {
        push_place(line, process, *place)?;
    }
    Ok(())
}

/// A state: `PATH=VALUE` for each variable, `PATH@NUMBER` for each process, and `last=NUMBER`.
#[tactic(auto, using(crate::proofs::Appending::append_assoc))]
pub fn push_state(line: &mut Vec<u8>, design: &Design, state: &State) -> Result<(), AllocError>
    ensures { OnOk result (line.new.items ≡ line.old.items ++ state_text (design_tree design.now) state.now) }
{
    push_vars(line, &design.vars, &state.values)?;
    push_places(line, &design.processes, &state.places)?;
    push(line, b"last=")?;
    push_number(line, u64::from(state.last))?;
    Ok(())
}
