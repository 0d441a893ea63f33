//! Designs: what the tables `updates`, `games` and `cells` ask of the design of a text, by a game that each row makes.
ghost use Rattle.tm_abs.specs.Tracked.{IsPooled};
ghost use Rattle.tm_syntax.specs.Design.{DesignTree};
ghost use Rattle.tm_syntax.specs.Tree.View.{spec_tree};
ghost use Rattle.tm_syntax.specs.Design.View.{design_tree};
ghost use Rattle.tm_syntax.specs.Faults.{IsOfText, IsSound};

use crate::{cells, games, updates};
use std::alloc::{AllocError, Global};
use tm_game::Game;
use tm_inst::read_design;
use tm_judge::game_of;
use tm_plain::{Machine, Tables};
use tm_syntax::design::Design;

/// The answer to a question about a game, in a table of this name.
fn answer_by_game(
    alloc: Global,
    table: &str,
    machine: &Machine,
    game: &mut Game,
    question: &str,
) -> Result<String, AllocError>
    requires pooled { (d : DesignTree) × IsPooled d game.old }
{
    match table {
        "updates" => updates::answer_to(alloc, machine, game, question),
        "games" => games::answer_to(alloc, machine, game, question),
        "cells" => cells::answer_to(alloc, machine, game, question),
        _ => String::from_str(alloc, "no such table"),
    }
}

/// The answer to a question, by a machine of the design.
fn answer_by_machine(
    alloc: Global,
    table: &str,
    design: &Design,
    machine: &Machine,
    question: &str,
) -> Result<String, AllocError>
    requires sound { IsSound (design_tree design.now) }
    requires read { IsOfText (spec_tree design.now.spec) }
{
    match game_of(alloc, design) {
        Ok(mut game) => {
            let found = answer_by_game(alloc, table, machine, &mut game, question);
            drop(game);
            found
        }
        Err(error) => Err(error),
    }
}

/// The answer to a question, by the tables of the design.
fn answer_by_tables(
    alloc: Global,
    table: &str,
    design: &Design,
    tables: &Tables,
    question: &str,
) -> Result<String, AllocError>
    requires sound { IsSound (design_tree design.now) }
    requires read { IsOfText (spec_tree design.now.spec) }
{
    match Machine::new(alloc, tables) {
        Ok(machine) => {
            let found = answer_by_machine(alloc, table, design, &machine, question);
            drop(machine);
            found
        }
        Err(error) => Err(error),
    }
}

/// The answer to a question, by the design alone.
fn answer_by_design(
    alloc: Global,
    table: &str,
    design: &Design,
    question: &str,
) -> Result<String, AllocError>
    requires sound { IsSound (design_tree design.now) }
    requires read { IsOfText (spec_tree design.now.spec) }
{
    match Tables::new(alloc, design) {
        Ok(tables) => {
            let found = answer_by_tables(alloc, table, design, &tables, question);
            drop(tables);
            found
        }
        Err(error) => Err(error),
    }
}

/// The answer to a question, by the text of the design: `faulty` where it has a fault.
pub fn answer_to(
    alloc: Global,
    table: &str,
    text: &[u8],
    question: &str,
) -> Result<String, AllocError> {
    match read_design(alloc, text) {
        Some(design) => answer_by_design(alloc, table, &design, question),
        None => String::from_str(alloc, "faulty"),
    }
}
