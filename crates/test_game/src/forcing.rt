//! Forcing: what `tm_game_bits` finds of sets of states of a small game, written out by hand.
//!
//! Sets and moves are told by tables of eight digits: those of the valuations from 7 to 0, whose bits are the flag, the
//! turn and the input, the highest first. The rows are:
//!
//! - `calm SET`: where nobody but the driver leaves the set;
//! - `moves SET`: how the driver can set the flag within it;
//! - `predecessors SET`: where the driver stays in it, from where the environment forces it, and the first again.
ghost use Rattle.tm_game_bits.specs.Diagrams.{game_of};
ghost use Rattle.tm_game_bits.specs.Recent.{AreAnswers};

mod game;
mod known;

use crate::functions::{from_table, is_set, table_of};
use crate::knowing::knows;
use crate::workbench::Workbench;
use case_rows::split_word;
use game::game;
use known::{knows_game, knows_step};
use std::alloc::{AllocError, Global};
use tm_dd::NodeId;
use tm_ddops::Manager;
use tm_game_bits::{GameDiagrams, Recent};

/// The game, and the manager of its diagrams.
#[derive(Drop)]
pub struct Forcing {
    bench: Workbench,
    game: GameDiagrams,
}

/// Where nobody but the driver leaves a set.
fn calm(bench: &mut Workbench, game: &GameDiagrams, set: NodeId) -> Result<NodeId, AllocError> {
    if !knows_game(&bench.dd, game) || !knows(&bench.dd, set) {
        return Ok(bench.unknown());
    }
    game.calm(&mut bench.dd, set)
}

/// How the driver can make its first move within a set.
fn moves(bench: &mut Workbench, game: &GameDiagrams, set: NodeId) -> Result<NodeId, AllocError> {
    let Some(step) = game.driver.first() else {
        return Ok(bench.unknown());
    };
    if !knows_game(&bench.dd, game) || !knows_step(&bench.dd, step) || !knows(&bench.dd, set) {
        return Ok(bench.unknown());
    }
    game.legal_move(&mut bench.dd, step, set)
}

/// Who leads to a set.
#[derive(Clone, Copy)]
enum Player {
    Driver,
    Environment,
}

/// Where the driver stays in a set, or from where the environment forces it.
fn predecessor(
    bench: &mut Workbench,
    game: &GameDiagrams,
    recent: &mut Recent,
    player: Player,
    set: NodeId,
) -> Result<NodeId, AllocError>
    requires { AreAnswers bench.old.dd.table (game_of bench.old.dd.table game.now) recent.old }
    ensures { AreAnswers bench.new.dd.table (game_of bench.new.dd.table game.now) recent.new }
{
    if !knows_game(&bench.dd, game) || !knows(&bench.dd, set) {
        return Ok(bench.unknown());
    }
    match player {
        Player::Driver => game.cpre(&mut bench.dd, recent, set),
        Player::Environment => game.epre(&mut bench.dd, recent, set),
    }
}

/// Both predecessors of a set, and the first one again, by what was answered before.
fn predecessors(
    bench: &mut Workbench,
    game: &GameDiagrams,
    recent: &mut Recent,
    set: NodeId,
) -> Result<[NodeId; 3], AllocError>
    requires { AreAnswers bench.old.dd.table (game_of bench.old.dd.table game.now) recent.old }
{
    let first = predecessor(bench, game, recent, Player::Driver, set)?;
    let second = predecessor(bench, game, recent, Player::Environment, set)?;
    let again = predecessor(bench, game, recent, Player::Driver, set)?;
    Ok([first, second, again])
}

/// Puts a table as digits behind a text.
fn push_digits(text: &mut String, table: u8) -> Result<(), AllocError> {
    for place in 0..8u8 {
        text.push(if is_set(table, 7 - place) { '1' } else { '0' })?;
    }
    Ok(())
}

/// Puts the table of a function as digits behind a text, if it is known.
fn push_table(text: &mut String, dd: &Manager, id: NodeId) -> Result<(), AllocError> {
    match table_of(dd.store(), id) {
        Some(table) => push_digits(text, table),
        None => text.push('?'),
    }
}

/// The tables of functions as digits.
fn tables_text(alloc: Global, dd: &Manager, ids: &[NodeId]) -> Result<String, AllocError> {
    let mut text = String::new(alloc);
    for id in ids {
        if !text.is_empty() {
            text.push(' ')?;
        }
        push_table(&mut text, dd, *id)?;
    }
    Ok(text)
}

/// The table that digits tell.
fn table(digits: &str) -> u8 {
    let mut table = 0u8;
    for digit in digits.bytes() {
        table = table << 1 | u8::from(digit == b'1');
    }
    table
}

/// Both predecessors of a set, and the first one again, as digits.
fn predecessors_text(
    alloc: Global,
    bench: &mut Workbench,
    game: &GameDiagrams,
    set: NodeId,
) -> Result<String, AllocError> {
    match predecessors(bench, game, &mut Recent::new(), set) {
        Ok(ids) => tables_text(alloc, &bench.dd, &ids),
        Err(error) => Err(error),
    }
}

/// Where nobody but the driver leaves a set, or how it can make its first move within it, as digits.
fn single_text(
    alloc: Global,
    bench: &mut Workbench,
    game: &GameDiagrams,
    verb: &str,
    set: NodeId,
) -> Result<String, AllocError> {
    let id = match verb {
        "calm" => calm(bench, game, set),
        _ => moves(bench, game, set),
    };
    match id {
        Ok(id) => tables_text(alloc, &bench.dd, &[id]),
        Err(error) => Err(error),
    }
}

/// What is found of a set.
fn found(
    alloc: Global,
    bench: &mut Workbench,
    game: &GameDiagrams,
    question: &str,
) -> Result<String, AllocError> {
    let (verb, rest) = split_word(question);
    let set = from_table(bench, table(rest))?;
    match verb {
        "predecessors" => predecessors_text(alloc, bench, game, set),
        "calm" | "moves" => single_text(alloc, bench, game, verb, set),
        _ => String::from_str(alloc, "no question"),
    }
}

impl Forcing {
    /// The game, and the manager of its diagrams.
    pub fn new(alloc: Global) -> Result<Forcing, AllocError> {
        let mut bench = Workbench::new(alloc, 3)?;
        let game = game(alloc, &mut bench)?;
        Ok(Forcing { bench, game })
    }

    /// The answer to the question of a row, and `unknown` where the manager does not know a function in it.
    pub fn answer(&mut self, alloc: Global, question: &str) -> Result<String, AllocError> {
        match found(alloc, &mut self.bench, &self.game, question) {
            Ok(answer) => self.bench.told(alloc, answer),
            Err(error) => Err(error),
        }
    }
}
