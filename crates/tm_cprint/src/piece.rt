//! Pieces of a text, each put behind what the text holds.
ghost use Rattle.std.specs.Prelude.{◌≡◌, ◌++◌, ◌∷◌, map, OnOk};
ghost use Rattle.std.specs.Fmt.{decimal};
ghost use Rattle.tm_syntax.specs.Design.View.{design_tree};
ghost use Rattle.tm_cir.specs.Text.Spelling.{name_byte, item_name};
ghost use Rattle.tm_cprint.specs.Layout.{variable_name, location_name, task_name, constant_text};

use itoa::Buffer;
use std::alloc::AllocError;
use tm_syntax::design::Design;

pub fn push(text: &mut Vec<u8>, piece: &[u8]) -> Result<(), AllocError>
    ensures { OnOk result (text.new.items ≡ text.old.items ++ piece.now) }
{
    text.extend_from_slice(piece)
}

pub fn push_number(text: &mut Vec<u8>, number: u64) -> Result<(), AllocError>
    ensures { OnOk result (text.new.items ≡ text.old.items ++ decimal number) }
{
    push(text, Buffer::new().format(number).as_bytes())
}

#[tactic(auto, using(crate::proofs::Behind::append_assoc))]
pub fn push_constant(text: &mut Vec<u8>, number: u64) -> Result<(), AllocError>
    ensures { OnOk result (text.new.items ≡ text.old.items ++ constant_text number) }
{
    push_number(text, number)?;
    push(text, b"ULL")?;
    Ok(())
}

pub fn push_variable(text: &mut Vec<u8>, design: &Design, number: u32) -> Result<(), AllocError>
    ensures { OnOk result (text.new.items ≡ text.old.items ++ variable_name (design_tree design.now) number) }
{
    match design.vars.get(number as usize) {
        Some(var) => push_name(text, b'v', number, var.path.as_bytes()),
        None => Ok(()),
    }
}

pub fn push_location(text: &mut Vec<u8>, design: &Design, number: u32) -> Result<(), AllocError>
    ensures { OnOk result (text.new.items ≡ text.old.items ++ location_name (design_tree design.now) number) }
{
    match design.processes.get(number as usize) {
        Some(process) => push_name(text, b'p', number, process.path.as_bytes()),
        None => Ok(()),
    }
}

pub fn push_task(text: &mut Vec<u8>, design: &Design, number: u32) -> Result<(), AllocError>
    ensures { OnOk result (text.new.items ≡ text.old.items ++ task_name (design_tree design.now) number) }
{
    match design.tasks.get(number as usize) {
        Some(task) => push_name(text, b't', number, task.path.as_bytes()),
        None => Ok(()),
    }
}

#[tactic(auto, using(crate::proofs::Behind::append_assoc))]
fn push_name(text: &mut Vec<u8>, letter: u8, number: u32, path: &[u8]) -> Result<(), AllocError>
    ensures { OnOk result (text.new.items ≡ text.old.items ++ item_name letter number path.now) }
{
    text.push(letter)?;
    push_number(text, u64::from(number))?;
    push(text, b"_")?;
    push_path(text, path)?;
    Ok(())
}

/// Puts a path behind the text, with `_` for each of its dots.
fn push_path(text: &mut Vec<u8>, path: &[u8]) -> Result<(), AllocError>
    ensures { OnOk result (text.new.items ≡ text.old.items ++ map name_byte path.now) }
{
    for byte in path {
        text.push(name_byte(*byte))?;
    }
    Ok(())
}

fn name_byte(byte: u8) -> u8
    ensures { result ≡ name_byte byte }
{
    if byte == b'.' { b'_' } else { byte }
}
