//! Operations on diagrams of which nothing is asked: an id that the game does not know is taken for `FALSE`.
ghost use Rattle.std.specs.Prelude.{◌≡◌, ◌↔◌, ◌&&◌, ◌||◌, All, IfOk, IsTrue, MatchOption, if◌then◌else◌, not};
ghost use Rattle.tm_dd.specs.Table.{Knows, means};
ghost use Rattle.tm_dd.specs.declared.node.TheConstants.{FALSE as NOTHING};
ghost use Rattle.tm_ddops.specs.Least.{IsLeast};
ghost use Rattle.tm_ddops.specs.Manager.{IsFunction};
ghost use Rattle.tm_ddops.specs.Operation.{substituted};
ghost use Rattle.tm_ddops.specs.Quantified.{IsExists};
ghost use Rattle.tm_strat_drafts.specs.Growth.{Carried};

use std::alloc::{AllocError, Global};
use tm_dd::{FALSE, NodeId};
use tm_game::Game;
use tm_term::Term;

// Whether the game knows an id.
fn is_known(game: &Game, id: NodeId) -> bool
    ensures { IsTrue result ↔ Knows game.now.diagrams.table id }
{
    game.manager().store().knows(id)
}

/// Both of two functions.
#[tactic(auto, using(crate::proofs::Carrying::carry))]
pub(crate) fn both(game: &mut Game, a: NodeId, b: NodeId) -> Result<NodeId, AllocError>
    ensures grows { Carried game.old game.new }
    ensures answer { Knows game.old.diagrams.table a → Knows game.old.diagrams.table b
        → IfOk result (λ id. IsFunction game.new.diagrams.table id
        (λ v. means game.new.diagrams.table a v && means game.new.diagrams.table b v)) }
{
    if !is_known(game, a) || !is_known(game, b) {
        return Ok(FALSE);
    }
    let id = game.and(a, b)?;
    Ok(id)
}

/// The first of two functions where the second is false.
pub(crate) fn rest(game: &mut Game, a: NodeId, b: NodeId) -> Result<NodeId, AllocError>
    ensures grows { Carried game.old game.new }
    ensures answer { Knows game.old.diagrams.table a → Knows game.old.diagrams.table b
        → IfOk result (λ id. IsFunction game.new.diagrams.table id
        (λ v. means game.new.diagrams.table a v && not (means game.new.diagrams.table b v))) }
{
    let other = b.complement();
    let id = both(game, a, other)?;
    Ok(id)
}

/// At least one of two functions.
#[tactic(auto, using(crate::proofs::Carrying::carry))]
pub(crate) fn either(game: &mut Game, a: NodeId, b: NodeId) -> Result<NodeId, AllocError>
    ensures grows { Carried game.old game.new }
    ensures answer { Knows game.old.diagrams.table a → Knows game.old.diagrams.table b
        → IfOk result (λ id. IsFunction game.new.diagrams.table id
        (λ v. means game.new.diagrams.table a v || means game.new.diagrams.table b v)) }
{
    if !is_known(game, a) || !is_known(game, b) {
        return Ok(FALSE);
    }
    let id = game.or(a, b)?;
    Ok(id)
}

/// The second of three functions where the first is true, and the third elsewhere.
#[tactic(auto, using(crate::proofs::Carrying::carry))]
pub(crate) fn chosen(
    game: &mut Game,
    test: NodeId,
    a: NodeId,
    b: NodeId,
) -> Result<NodeId, AllocError>
    ensures grows { Carried game.old game.new }
    ensures answer { Knows game.old.diagrams.table test → Knows game.old.diagrams.table a
        → Knows game.old.diagrams.table b → IfOk result (λ id. IsFunction game.new.diagrams.table id
        (λ v. if means game.new.diagrams.table test v then means game.new.diagrams.table a v
        else means game.new.diagrams.table b v)) }
{
    if !is_known(game, test) || !is_known(game, a) || !is_known(game, b) {
        return Ok(FALSE);
    }
    let id = game.ite(test, a, b)?;
    Ok(id)
}

/// A function for some values of the levels.
#[tactic(auto, using(crate::proofs::Carrying::carry))]
pub(crate) fn somewhere(game: &mut Game, f: NodeId, levels: &[u32]) -> Result<NodeId, AllocError>
    ensures grows { Carried game.old game.new }
    ensures answer { Knows game.old.diagrams.table f
        → IfOk result (IsExists game.new.diagrams.table levels.now f) }
{
    if !is_known(game, f) {
        return Ok(FALSE);
    }
    let id = game.exists(f, levels)?;
    Ok(id)
}

// Whether the game knows the functions of levels.
#[tactic(auto, using(crate::proofs::Carrying::parts_step, crate::proofs::Carrying::unknown_part))]
fn are_known(game: &Game, parts: &[(u32, NodeId)]) -> bool
    ensures { IsTrue result ↔ All (λ p. Knows game.now.diagrams.table p.1) parts.now }
{
    for part in parts {
        if !is_known(game, part.1) {
            return false;
        }
    }
    true
}

/// A function with others in the places of levels.
#[tactic(auto, using(crate::proofs::Carrying::carry))]
pub(crate) fn placed(
    game: &mut Game,
    f: NodeId,
    parts: &[(u32, NodeId)],
) -> Result<NodeId, AllocError>
    ensures grows { Carried game.old game.new }
    ensures answer { Knows game.old.diagrams.table f
        → All (λ p. Knows game.old.diagrams.table p.1) parts.now
        → IfOk result (λ id. IsFunction game.new.diagrams.table id
        (λ v. means game.new.diagrams.table f (substituted game.new.diagrams.table parts.now v))) }
{
    if !is_known(game, f) || !are_known(game, parts) {
        return Ok(FALSE);
    }
    let id = game.compose(f, parts)?;
    Ok(id)
}

/// The least values of levels for which a function is true, none where it is `FALSE`.
pub(crate) fn least(game: &Game, f: NodeId) -> Result<Option<Vec<bool>>, AllocError>
    ensures { Knows game.now.diagrams.table f → IfOk result (λ least.
        MatchOption least (f ≡ NOTHING) (λ values. IsLeast game.now.diagrams.table f values.items)) }
{
    if !is_known(game, f) {
        return Ok(None);
    }
    game.manager().least(f)
}

/// The bits of an input, the most significant first, none where the game does not have it.
#[tactic(auto, using(crate::proofs::Carrying::carry))]
pub(crate) fn input_bits(
    alloc: Global,
    game: &mut Game,
    input: u32,
) -> Result<Vec<NodeId>, AllocError>
    ensures { Carried game.old game.new }
{
    let term = Term::Input(input);
    if !game.terms().fits(term) {
        return Ok(Vec::new(alloc));
    }
    let id = game.mk(term)?;
    let bits = game.bits(id)?;
    Ok(bits)
}
