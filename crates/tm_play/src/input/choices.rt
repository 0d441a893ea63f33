//! Reading a text of choices.
ghost use Rattle.std.specs.Prelude.{◌≡◌, ℕ, ◌+◌, ◌<◌, ◌^◌, length, map, position, IfOk, IfSome};
ghost use Rattle.std.specs.Option.{option_map};
ghost use Rattle.tm_play.specs.Choices.{process_number as number_of_process, process_turn, turn_with, turn_of};
ghost use Rattle.tm_play.specs.Choices.{start_of, kept_lines, turns_of, reading_of, GivesAs};

use crate::input::lines::{fields, next_line};
use crate::input::number::read_numbers;
use crate::input::script::{Actor, Script, Turn};
use std::alloc::{AllocError, AllocFailed, Global};
use tm_syntax::design::Item;

/// Why a text of choices was not read.
#[derive(Clone, Copy, Debug, PartialEq, Eq)]
pub enum ScriptError {
    /// The number of the first line that is not of its form.
    BadLine(u64),
    Memory,
}

impl From<AllocError> for ScriptError {
    ghost use Rattle.std.specs.Prelude.{◌≡◌};
    ghost use Rattle.tm_play.specs.declared.input.choices.ScriptError.TheVariants.{Memory};

    ghost from_gives = { λ _ e. e ≡ Memory };

    fn from(_error: AllocError) -> ScriptError {
        ScriptError::Memory
    }
}

impl<T: Drop> From<AllocFailed<T>> for ScriptError {
    ghost use Rattle.std.specs.Prelude.{◌≡◌};
    ghost use Rattle.tm_play.specs.declared.input.choices.ScriptError.TheVariants.{Memory};

    ghost from_gives = { λ _ e. e ≡ Memory };

    fn from(_error: AllocFailed<T>) -> ScriptError {
        ScriptError::Memory
    }
}

const START: &[u8] = b"start";

const STUTTER: &[u8] = b"stutter";

const PROCESS: &[u8] = b"process";

const DRIVER: &[u8] = b"driver";

/// A step of this actor, where all the fields are choices.
fn read_choices(alloc: Global, actor: Actor, fields: &[&[u8]]) -> Result<Option<Turn>, AllocError>
    ensures { IfOk result (λ r. r ≡ turn_with actor (map (λ f. f.now) fields.now)) }
{
    let choices = read_numbers(alloc, fields)?;
    Ok(choices.map(|choices| Turn { actor, choices }))
}

fn process_place(processes: &[Item], path: &[u8]) -> Option<usize>
    ensures place { result ≡ number_of_process processes.now path.now }
    ensures within { IfSome result (λ n. n < length processes.now) }
{
    processes.iter().position(|p| p.path.as_bytes() == path)
}

/// The number of the process of this path.
fn process_number(processes: &[Item], path: &[u8]) -> Option<u32>
    requires { length processes.now < 2 ^ 32 }
    ensures { result ≡ number_of_process processes.now path.now }
{
    match process_place(processes, path) {
        Some(place) => Some(place as u32),
        None => None,
    }
}

fn read_process(
    alloc: Global,
    processes: &[Item],
    fields: &[&[u8]],
) -> Result<Option<Turn>, AllocError>
    requires { length processes.now < 2 ^ 32 }
    ensures { IfOk result (λ r. r ≡ process_turn processes.now (map (λ f. f.now) fields.now)) }
{
    let [path, choices @ ..] = fields else {
        return Ok(None);
    };
    match process_number(processes, path) {
        Some(number) => read_choices(alloc, Actor::Process(number), choices),
        None => Ok(None),
    }
}

/// The step that a line's fields tell.
fn read_turn(
    alloc: Global,
    processes: &[Item],
    fields: &[&[u8]],
) -> Result<Option<Turn>, AllocError>
    requires { length processes.now < 2 ^ 32 }
    ensures { IfOk result (λ r. r ≡ turn_of processes.now (map (λ f. f.now) fields.now)) }
{
    let [word, rest @ ..] = fields else {
        return Ok(None);
    };
    if *word == STUTTER {
        let choices = Vec::new(alloc);
        return Ok(
            rest.is_empty().then_some(Turn {
                actor: Actor::Stutter,
                choices,
            }),
        );
    }
    if *word == PROCESS {
        return read_process(alloc, processes, rest);
    }
    if *word == DRIVER {
        return read_choices(alloc, Actor::Driver, rest);
    }
    Ok(None)
}

/// The choices of a start line.
fn read_start(alloc: Global, fields: &[&[u8]]) -> Result<Option<Vec<u64>>, AllocError>
    ensures { IfOk result (λ r. option_map (λ v. v.items) r ≡ start_of (map (λ f. f.now) fields.now)) }
{
    let [word, choices @ ..] = fields else {
        return Ok(None);
    };
    if *word == START {
        read_numbers(alloc, choices)
    } else {
        Ok(None)
    }
}

/// The steps of a text whose first line has this number.
fn read_turns(
    alloc: Global,
    processes: &[Item],
    text: &[u8],
    number: u64,
) -> Result<Vec<Turn>, ScriptError>
    requires few { length processes.now < 2 ^ 32 }
    requires short { number + length text.now < 2 ^ 64 }
    ensures { GivesAs (λ v. v.items) result (turns_of processes.now (kept_lines number text.now)) }
{
    let mut turns = Vec::new(alloc);
    let mut rest = text;
    let mut at = number;
    while let Some(line) = next_line(rest, at) {
        let fields = fields(alloc, line.bytes)?;
        let Some(turn) = read_turn(alloc, processes, fields.as_slice())? else {
            return Err(ScriptError::BadLine(line.number));
        };
        turns.push(turn)?;
        rest = line.rest;
        at = line.number + 1;
    }
    Ok(turns)
}

/// What a text of choices says: a start line, and a line for each step. Empty lines and those that begin with `#` are
/// passed over. It takes time linear in the text.
pub fn read_script(alloc: Global, processes: &[Item], text: &[u8]) -> Result<Script, ScriptError>
    requires few { length processes.now < 2 ^ 32 }
    requires short { length text.now < 2 ^ 32 }
    ensures { GivesAs (λ s. s) result (reading_of processes.now text.now) }
{
    let Some(line) = next_line(text, 1) else {
        return Err(ScriptError::BadLine(1));
    };
    let fields = fields(alloc, line.bytes)?;
    let Some(start) = read_start(alloc, fields.as_slice())? else {
        return Err(ScriptError::BadLine(line.number));
    };
    let turns = read_turns(alloc, processes, line.rest, line.number + 1)?;
    Ok(Script { start, turns })
}
