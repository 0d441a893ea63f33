//! Predicates are added several at a time where the side that wins the exact game fails over cells.
ghost use Rattle.std.specs.Prelude.{◌≡◌, ◌<◌, ◌++◌, ℕ, IfOk, List, MatchOption, length};
ghost use Rattle.tm_flat_pool.specs.Predicates.{pool};
ghost use Rattle.tm_game_pool.specs.Separating.{predicates_at};
ghost use Rattle.tm_refine.specs.Carried.{CarriesOn, IsCarried};
ghost use Rattle.tm_refine.specs.Searching.{IsNamed, IsOneMore, IsParted, IsSearching, IsWon, KnowsSome, NoneOf};
ghost use Rattle.tm_refine.specs.declared.trace.Added.{Added as Addition};
ghost use Rattle.tm_solve.specs.Fixpoints.{Holds, InRegion};
ghost use Rattle.tm_solve.specs.Ids.{Stay};
ghost use Rattle.tm_solve.specs.Iterates.{KnowsAll};
ghost use Rattle.tm_syntax.specs.Design.{DesignTree};

use crate::arena::Arena;
use crate::sided::Sided;
use crate::solving::{solve_lower_in, solve_upper};
use crate::trace::Added;
use std::alloc::{AllocError, Global};
use tm_dd::NodeId;
use tm_sem::state::State;
use tm_solve::{Iterates, copied};

// Solves the side over the cells of the tracked predicates, and says whether it wins. Where the upper side fails, `far`
// is how far it came.
pub(crate) fn solve_side<A: Arena>(
    alloc: Global,
    sided: &mut Sided<A>,
    region: NodeId,
    far: &mut Iterates,
) -> Result<Option<Iterates>, AllocError>
    requires region_known { (A.ids sided.old.arena).knows region }
    requires holds { Holds (A.game sided.old.arena).states ((A.ids sided.old.arena).means region)
        (InRegion (A.game sided.old.arena)) }
    requires carried { (d : DesignTree) × (A.ids sided.old.arena).of d × IsCarried d
        (predicates_at (pool d) sided.old.tracked.items) (A.game sided.old.arena) (A.ids sided.old.arena) far.old }
    ensures found { IfOk result (λ o. (d : DesignTree) → (A.ids sided.old.arena).of d → MatchOption o
        (NoneOf d (predicates_at (pool d) sided.old.tracked.items) sided.old.upper)
        (λ it. IsWon d (predicates_at (pool d) sided.old.tracked.items) sided.old.upper (A.ids sided.new.arena) it)) }
    ensures carried { IfOk result (λ o. (d : DesignTree) → (A.ids sided.old.arena).of d → CarriesOn d
        (predicates_at (pool d) sided.old.tracked.items) (A.game sided.old.arena) (A.ids sided.old.arena)
        (A.ids sided.new.arena) far.old far.new o) }
    ensures known { IfOk result (KnowsSome (A.ids sided.new.arena)) }
    ensures tracked { sided.new.tracked.items ≡ sided.old.tracked.items }
    ensures side { sided.new.upper ≡ sided.old.upper }
    ensures game { A.game sided.new.arena ≡ A.game sided.old.arena }
    ensures stay { Stay (A.ids sided.old.arena) (A.ids sided.new.arena) }
{
    if sided.upper {
        let begun = copied(alloc, far)?;
        let high = solve_upper(alloc, sided, begun)?;
        if sided.arena.leaves_out(high.region)? {
            return Ok(Some(high));
        }
        *far = high;
        return Ok(None);
    }
    let low = solve_lower_in(alloc, sided, region)?;
    if sided.arena.leaves_out(low.region)? {
        return Ok(None);
    }
    Ok(Some(low))
}

// Adds the first predicate that tells two states of one cell apart.
pub(crate) fn add<A: Arena>(
    sided: &mut Sided<A>,
    added: &mut Vec<Added>,
    left: State,
    right: State,
) -> Result<(), AllocError>
    requires parted { (d : DesignTree) × (A.ids sided.old.arena).of d
        × IsParted d (predicates_at (pool d) sided.old.tracked.items) left right }
    ensures more { IfOk result (λ u. IsOneMore (A.ids sided.old.arena).of left right sided.old.tracked.items
        sided.new.tracked.items added.old.items added.new.items) }
    ensures side { sided.new.upper ≡ sided.old.upper }
    ensures game { A.game sided.new.arena ≡ A.game sided.old.arena }
    ensures stay { Stay (A.ids sided.old.arena) (A.ids sided.new.arena) }
{
    let predicate = sided.arena.tells(&left, &right)?;
    sided.tracked.push(predicate)?;
    added.push(Added {
        predicate,
        left,
        right,
    })?;
    Ok(())
}

// Adds predicates until no cell cuts a set.
pub(crate) fn cut_by<A: Arena>(
    sided: &mut Sided<A>,
    added: &mut Vec<Added>,
    set: NodeId,
) -> Result<(), AllocError>
    requires of { (d : DesignTree) × (A.ids sided.old.arena).of d }
    requires known { (A.ids sided.old.arena).knows set }
    ensures searching { IfOk result (λ u. (d : DesignTree) (first : ℕ) → (A.ids sided.old.arena).of d
        → IsSearching d first sided.old.tracked.items added.old.items
        → IsSearching d first sided.new.tracked.items added.new.items) }
    ensures longer { IfOk result (λ u. (more : List Addition) × (added.new.items ≡ added.old.items ++ more)) }
    ensures same { IfOk result (λ u. added.new.items ≡ added.old.items
        → sided.new.tracked.items ≡ sided.old.tracked.items) }
    ensures side { sided.new.upper ≡ sided.old.upper }
    ensures game { A.game sided.new.arena ≡ A.game sided.old.arena }
    ensures stay { Stay (A.ids sided.old.arena) (A.ids sided.new.arena) }
{
    'pairs: loop {
        match sided.arena.split(sided.tracked.as_slice(), set)? {
            None => return Ok(()),
            Some(pair) => {
                let (left, right) = pair;
                add(sided, added, left, right)?;
            }
        }
    }
}

// Adds predicates until no cell cuts the first of two sets that some cell cuts.
pub(crate) fn cut_by_either<A: Arena>(
    sided: &mut Sided<A>,
    added: &mut Vec<Added>,
    one: NodeId,
    other: NodeId,
) -> Result<(), AllocError>
    requires of { (d : DesignTree) × (A.ids sided.old.arena).of d }
    requires one_known { (A.ids sided.old.arena).knows one }
    requires other_known { (A.ids sided.old.arena).knows other }
    ensures searching { IfOk result (λ u. (d : DesignTree) (first : ℕ) → (A.ids sided.old.arena).of d
        → IsSearching d first sided.old.tracked.items added.old.items
        → IsSearching d first sided.new.tracked.items added.new.items) }
    ensures longer { IfOk result (λ u. (more : List Addition) × (added.new.items ≡ added.old.items ++ more)) }
    ensures same { IfOk result (λ u. added.new.items ≡ added.old.items
        → sided.new.tracked.items ≡ sided.old.tracked.items) }
    ensures side { sided.new.upper ≡ sided.old.upper }
    ensures game { A.game sided.new.arena ≡ A.game sided.old.arena }
    ensures stay { Stay (A.ids sided.old.arena) (A.ids sided.new.arena) }
{
    let count = added.len();
    cut_by(sided, added, one)?;
    if added.len() > count {
        return Ok(());
    }
    cut_by(sided, added, other)
}

// Adds at least one predicate where a side fails over cells that wins over some.
pub(crate) fn cut<A: Arena>(
    sided: &mut Sided<A>,
    added: &mut Vec<Added>,
    region: NodeId,
) -> Result<(), AllocError>
    requires failed { (d : DesignTree) × (A.ids sided.old.arena).of d
        × IsNamed d sided.old.upper
        × NoneOf d (predicates_at (pool d) sided.old.tracked.items) sided.old.upper }
    requires region_known { (A.ids sided.old.arena).knows region }
    ensures searching { IfOk result (λ u. (d : DesignTree) (first : ℕ) → (A.ids sided.old.arena).of d
        → IsSearching d first sided.old.tracked.items added.old.items
        → IsSearching d first sided.new.tracked.items added.new.items) }
    ensures longer { IfOk result (λ u. (more : List Addition) × (added.new.items ≡ added.old.items ++ more)) }
    ensures more { IfOk result (λ u. length added.old.items < length added.new.items) }
    ensures side { sided.new.upper ≡ sided.old.upper }
    ensures game { A.game sided.new.arena ≡ A.game sided.old.arena }
    ensures stay { Stay (A.ids sided.old.arena) (A.ids sided.new.arena) }
{
    let count = added.len();
    let hint = sided.arena.hint();
    cut_by_either(sided, added, hint, region)?;
    if added.len() > count {
        return Ok(());
    }
    let Some(pair) = sided.arena.apart(sided.tracked.as_slice())? else {
        unreachable!()
    };
    let (left, right) = pair;
    add(sided, added, left, right)
}
