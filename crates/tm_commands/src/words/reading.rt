//! Reading the words of a command line.
ghost use Rattle.std.specs.Prelude.{◌≡◌, map, IfOk};
ghost use Rattle.std.specs.Option.{option_map};
ghost use Rattle.std.specs.String.{string_bytes};
ghost use Rattle.tm_commands.specs.Words.{check_of, command_of, command_view, command_with as command_given};
ghost use Rattle.tm_commands.specs.Words.{generate_of, plain_command_with as plain_command_given, synthesise_of};
ghost use Rattle.tm_commands.specs.Words.{of_three, migrate, run, structure, unstructure};
ghost use Rattle.tm_commands.specs.Inner.Splitting.{arguments_view};

use crate::words::command::Command;
use crate::words::number::read_number;
use crate::words::splitting::{Arguments, split};
use std::alloc::{AllocError, Global};

/// The most registers of a generated specification.
const MOST_REGISTERS: u32 = 12;

/// The command `run` with its positional words.
fn run_with<'a>(words: &[&'a str]) -> Option<Command<'a>>
    ensures { option_map command_view result ≡ of_three run (map (λ w. w.now) words.now) }
{
    let [spec, driver, choices] = words else {
        return None;
    };
    Some(Command::Run {
        spec,
        driver,
        choices,
    })
}

/// The command `synth` with its positional words, and its budget.
fn synthesise_with<'a>(words: &[&'a str], budget: Option<u32>) -> Option<Command<'a>>
    ensures { option_map command_view result ≡ synthesise_of (map (λ w. w.now) words.now) budget }
{
    let [spec, out] = words else {
        return None;
    };
    Some(Command::Synthesise { spec, out, budget })
}

/// The command `check` with its positional words: three for a driver, two for the environment.
fn check_with<'a>(words: &[&'a str]) -> Option<Command<'a>>
    ensures { option_map command_view result ≡ check_of (map (λ w. w.now) words.now) }
{
    match words {
        [spec, cert] => Some(Command::CheckEnvironment { spec, cert }),
        [spec, driver, cert] => Some(Command::CheckDriver { spec, driver, cert }),
        _ => None,
    }
}

/// The command `gen` with its positional words.
fn generate_with<'a>(words: &[&'a str]) -> Option<Command<'a>>
    ensures { option_map command_view result ≡ generate_of (map (λ w. w.now) words.now) }
{
    let [registers, out] = words else {
        return None;
    };
    match read_number(registers, MOST_REGISTERS) {
        Some(registers) => Some(Command::Generate { registers, out }),
        None => None,
    }
}

/// The command `migrate` with its positional words.
fn migrate_with<'a>(words: &[&'a str]) -> Option<Command<'a>>
    ensures { option_map command_view result ≡ of_three migrate (map (λ w. w.now) words.now) }
{
    let [spec, cert, out] = words else {
        return None;
    };
    Some(Command::Migrate { spec, cert, out })
}

/// The command `structure` with its positional words.
fn structure_with<'a>(words: &[&'a str]) -> Option<Command<'a>>
    ensures { option_map command_view result ≡ of_three structure (map (λ w. w.now) words.now) }
{
    let [spec, driver, out] = words else {
        return None;
    };
    Some(Command::Structure { spec, driver, out })
}

/// The command `unstructure` with its positional words.
fn unstructure_with<'a>(words: &[&'a str]) -> Option<Command<'a>>
    ensures { option_map command_view result ≡ of_three unstructure (map (λ w. w.now) words.now) }
{
    let [spec, structured, out] = words else {
        return None;
    };
    Some(Command::Unstructure {
        spec,
        structured,
        out,
    })
}

/// A command other than `synth`, with its positional words.
fn plain_command_with<'a>(command: &str, words: &[&'a str]) -> Option<Command<'a>>
    ensures { option_map command_view result ≡ plain_command_given command.now (map (λ w. w.now) words.now) }
{
    match command {
        "run" => run_with(words),
        "check" => check_with(words),
        "gen" => generate_with(words),
        "migrate" => migrate_with(words),
        "structure" => structure_with(words),
        "unstructure" => unstructure_with(words),
        _ => None,
    }
}

/// The command that a first word begins, with its arguments: `synth` alone has a budget.
fn command_with<'a>(command: &str, arguments: &Arguments<'a>) -> Option<Command<'a>>
    ensures { option_map command_view result ≡ command_given command.now (arguments_view arguments.now) }
{
    match command {
        "synth" => synthesise_with(&arguments.words, arguments.budget),
        _ => match arguments.budget {
            Some(_) => None,
            None => plain_command_with(command, &arguments.words),
        },
    }
}

/// The command that the words spell; none where they spell none. It takes time linear in the words.
pub fn read_words<'a>(alloc: Global, words: &'a [String]) -> Result<Option<Command<'a>>, AllocError>
    ensures { IfOk result (λ r. option_map command_view r ≡ command_of (map string_bytes words.now)) }
{
    let [command, others @ ..] = words else {
        return Ok(None);
    };
    match split(alloc, others)? {
        Some(arguments) => Ok(command_with(command.as_str(), &arguments)),
        None => Ok(None),
    }
}
