//! What the calls of a game that make diagrams give of its first levels, and the bits of its inputs.
ghost use Rattle.std.specs.Prelude.{IsTrue};
ghost use Rattle.tm_dd.specs.Table.{Knows};

use super::letters::Letters;
use case_rows::{number, split_word};
use std::alloc::{AllocError, Global};
use tm_dd::NodeId;
use tm_game::Game;
use tm_term::Term;

/// Whether a game knows a function.
fn knows(game: &Game, f: NodeId) -> bool
    ensures { IsTrue result → Knows game.now.diagrams.table f }
{
    game.manager().store().knows(f)
}

/// The function with these children, if the game may be asked for it.
fn made(game: &mut Game, level: u32, lo: NodeId, hi: NodeId) -> Result<Option<NodeId>, AllocError> {
    let store = game.manager().store();
    if !store.knows(lo) || !store.knows(hi) || level >= store.levels() {
        return Ok(None);
    }
    let rank = store.rank(level);
    if rank >= store.depth(lo) || rank >= store.depth(hi) {
        return Ok(None);
    }
    Ok(Some(game.make(level, lo, hi)?))
}

/// The function that a call gives of functions and a level.
fn called(
    game: &mut Game,
    verb: &str,
    level: u32,
    f: NodeId,
    g: NodeId,
    h: NodeId,
) -> Result<NodeId, AllocError>
    requires f { Knows game.old.diagrams.table f }
    requires g { Knows game.old.diagrams.table g }
    requires h { Knows game.old.diagrams.table h }
{
    match verb {
        "and" => game.and(f, g),
        "or" => game.or(f, g),
        "xor" => game.xor(f, g),
        "not" => game.not(f),
        "ite" => game.ite(f, g, h),
        "exists" => game.exists(f, &[level]),
        "forall" => game.forall(f, &[level]),
        _ => game.compose(f, &[(level, h)]),
    }
}

/// The function that a call gives, if the game may be asked for it.
fn function(
    game: &mut Game,
    letters: &Letters,
    verb: &str,
    rest: &str,
) -> Result<Option<NodeId>, AllocError> {
    let (first, tail) = split_word(rest);
    let (second, third) = split_word(tail);
    let (f, g, h) = (letters.id(first), letters.id(second), letters.id(third));
    if verb == "make" {
        return made(game, number(first), g, h);
    }
    if !knows(game, f) || !knows(game, g) || !knows(game, h) {
        return Ok(None);
    }
    Ok(Some(called(game, verb, number(second), f, g, h)?))
}

/// The level and the children of a function's node.
fn node_text(
    alloc: Global,
    game: &Game,
    letters: &Letters,
    id: NodeId,
) -> Result<String, AllocError> {
    if !knows(game, id) || id.is_constant() {
        return String::from_str(alloc, "constant");
    }
    let node = game.manager().store().node(id);
    let lo = letters.word(node.lo);
    let hi = letters.word(node.hi);
    format!(in alloc; "{} {lo} {hi}", node.level)
}

/// The word for the function that a call gives, or what the node of a function is.
pub fn diagram_answer(alloc: Global, game: &mut Game, words: &str) -> Result<String, AllocError> {
    let letters = Letters::of(game)?;
    let (verb, rest) = split_word(words);
    if verb == "node" {
        return node_text(alloc, game, &letters, letters.id(rest));
    }
    match function(game, &letters, verb, rest)? {
        Some(id) => String::from_str(alloc, letters.word(id)),
        None => String::from_str(alloc, "unknown"),
    }
}

/// The words for some functions.
fn words_of(alloc: Global, letters: &Letters, ids: &[NodeId]) -> Result<String, AllocError> {
    let mut text = String::new(alloc);
    for (place, id) in ids.iter().enumerate() {
        if place > 0 {
            text.push(' ')?;
        }
        text.push_str(letters.word(*id))?;
    }
    Ok(text)
}

/// The words for the bits of an input, if there is one of this number.
pub fn bits_answer(alloc: Global, game: &mut Game, input: &str) -> Result<String, AllocError> {
    let letters = Letters::of(game)?;
    let term = Term::Input(number(input));
    if !game.terms().fits(term) {
        return String::from_str(alloc, "unknown");
    }
    let id = game.mk(term)?;
    let bits = game.bits(id)?;
    words_of(alloc, &letters, &bits)
}
