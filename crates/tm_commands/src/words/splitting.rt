//! Splitting the words behind a command.
ghost use Rattle.std.specs.Prelude.{◌≡◌, map, false, IfOk};
ghost use Rattle.std.specs.Option.{option_map};
ghost use Rattle.std.specs.String.{string_bytes};
ghost use Rattle.clap.specs.Words.{app_of, rule_of};
ghost use Rattle.tm_commands.specs.Words.{arguments_of};
ghost use Rattle.tm_commands.specs.Inner.Splitting.{asked, arguments_found, arguments_view, budget_of, budget_rule};
ghost use Rattle.tm_commands.specs.Inner.Splitting.{words_app, words_of, words_rule};

use crate::words::number::read_number;
use clap::builder::ValueParser;
use clap::error::ErrorKind;
use clap::{Arg, ArgAction, ArgMatches, Command};
use std::alloc::{AllocError, Global};

/// The id of the positional words.
const WORDS: &str = "words";

/// The id and the name of the budget.
const BUDGET: &str = "budget";

/// The arguments of a command.
#[derive(Drop)]
pub struct Arguments<'a> {
    /// The positional words.
    pub words: Vec<&'a str>,
    pub budget: Option<u32>,
}

/// Any number of positional words, none of them empty.
fn words_argument<'a>(alloc: Global) -> Arg<'a>
    ensures rule { rule_of result ≡ words_rule }
    ensures local { result.global ≡ false }
{
    Arg::new(alloc, WORDS)
        .action(ArgAction::Append)
        .num_args(0..)
        .value_parser(ValueParser::NonEmptyString)
}

/// `--budget` with one value, at most once.
fn budget_argument<'a>(alloc: Global) -> Arg<'a>
    ensures rule { rule_of result ≡ budget_rule }
    ensures local { result.global ≡ false }
{
    Arg::new(alloc, BUDGET).long(BUDGET).action(ArgAction::Set)
}

/// A command line of such words, with at most one budget.
fn splitter<'a>(alloc: Global) -> Result<Command<'a>, AllocError>
    ensures { IfOk result (λ c. app_of c ≡ words_app) }
{
    Command::new(alloc, "termite")
        .no_binary_name(true)
        .disable_help_flag(true)
        .disable_version_flag(true)
        .arg(words_argument(alloc))?
        .arg(budget_argument(alloc))
}

/// The positional words that were found.
fn positional<'a>(alloc: Global, matches: &ArgMatches<'a>) -> Result<Vec<&'a str>, AllocError>
    ensures { IfOk result (λ v. map (λ w. w.now) v.items ≡ words_of matches.now) }
{
    match matches.get_strs(WORDS) {
        Some(words) => Vec::from_slice(alloc, words),
        None => Ok(Vec::new(alloc)),
    }
}

/// The budget that a word asks for, if there is a word; none where it is no number.
fn read_budget(word: Option<&str>) -> Option<Option<u32>>
    ensures { result ≡ asked (option_map (λ w. w.now) word.entry) }
{
    let Some(word) = word else {
        return Some(None);
    };
    match read_number(word, u32::MAX) {
        Some(budget) => Some(Some(budget)),
        None => None,
    }
}

/// The arguments of a command, from what was found; none where the budget is no number.
fn read_arguments<'a>(
    alloc: Global,
    matches: &ArgMatches<'a>,
) -> Result<Option<Arguments<'a>>, AllocError>
    ensures { IfOk result (λ r. option_map arguments_view r
        ≡ arguments_found (words_of matches.now) (budget_of matches.now)) }
{
    let Some(budget) = read_budget(matches.get_str(BUDGET)) else {
        return Ok(None);
    };
    let words = positional(alloc, matches)?;
    Ok(Some(Arguments { words, budget }))
}

/// The arguments that words are; none where one of these has no reading. It takes time linear in the words.
pub fn split<'a>(alloc: Global, words: &'a [String]) -> Result<Option<Arguments<'a>>, AllocError>
    ensures { IfOk result (λ r. option_map arguments_view r ≡ arguments_of (map string_bytes words.now)) }
{
    match splitter(alloc)?.try_get_matches_from(words) {
        Ok(matches) => read_arguments(alloc, &matches),
        Err(error) => {
            if error.kind() == ErrorKind::OutOfMemory {
                Err(AllocError)
            } else {
                Ok(None)
            }
        }
    }
}
