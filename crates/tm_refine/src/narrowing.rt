//! A side solved over more and more predicates until it wins, and then over the shortest prefix of them.
ghost use Rattle.std.specs.Prelude.{◌≡◌, ◌≤◌, ◌<◌, ℕ, IfOk, List, [], length};
ghost use Rattle.tm_flat_pool.specs.Predicates.{Predicate};
ghost use Rattle.tm_refine.specs.Carried.{AreCarried, IsCarried};
ghost use Rattle.tm_refine.specs.Searching.{AreFailed, IsFirst, IsNamed, IsSearching, IsWonAt};
ghost use Rattle.tm_solve.specs.Fixpoints.{Holds, InRegion};
ghost use Rattle.tm_solve.specs.Ids.{Is, Stay};
ghost use Rattle.tm_solve.specs.Iterates.{KnowsAll};
ghost use Rattle.tm_syntax.specs.Design.{DesignTree};

use crate::arena::Arena;
use crate::numbers::{between, numbers_after};
use crate::searching::{cut, solve_side};
use crate::sided::Sided;
use crate::trace::Added;
use std::alloc::{AllocError, Global};
use tm_dd::NodeId;
use tm_solve::Iterates;

/// A solution that is a certificate over a prefix of the additions.
#[derive(Drop)]
pub(crate) struct Won {
    pub it: Iterates,
    /// The exact region.
    pub region: NodeId,
    /// How far the upper side came over the longest prefix over which it failed.
    pub far: Iterates,
    /// The side fails over each prefix shorter than this.
    pub count: usize,
}

// Adds predicates until the side wins over their cells.
pub(crate) fn widen<A: Arena>(
    alloc: Global,
    sided: &mut Sided<A>,
    added: &mut Vec<Added>,
    region: NodeId,
) -> Result<Won, AllocError>
    requires named { (d : DesignTree) × (A.ids sided.old.arena).of d
        × IsNamed d sided.old.upper
        × (first : ℕ) × IsSearching d first sided.old.tracked.items [] }
    requires region_known { (A.ids sided.old.arena).knows region }
    requires holds { Holds (A.game sided.old.arena).states ((A.ids sided.old.arena).means region)
        (InRegion (A.game sided.old.arena)) }
    requires empty { added.old.items ≡ [] }
    ensures searching { IfOk result (λ w. (d : DesignTree) (first : ℕ) → (A.ids sided.old.arena).of d
        → IsSearching d first sided.old.tracked.items []
        → IsSearching d first sided.new.tracked.items added.new.items) }
    ensures failed { IfOk result (λ w. (d : DesignTree) (first : ℕ) → (A.ids sided.old.arena).of d
        → IsSearching d first sided.old.tracked.items [] → AreFailed d first added.new.items sided.old.upper w.count) }
    ensures won { IfOk result (λ w. (d : DesignTree) (first : ℕ) → (A.ids sided.old.arena).of d
        → IsSearching d first sided.old.tracked.items [] → IsWonAt d first added.new.items sided.old.upper
        (A.ids sided.new.arena) w.it (length added.new.items)) }
    ensures within { IfOk result (λ w. w.count ≤ length added.new.items) }
    ensures known { IfOk result (λ w. KnowsAll (A.ids sided.new.arena) w.it) }
    ensures region_known { IfOk result (λ w. (A.ids sided.new.arena).knows w.region) }
    ensures holds { IfOk result (λ w. Holds (A.game sided.new.arena).states ((A.ids sided.new.arena).means w.region)
        (InRegion (A.game sided.new.arena))) }
    ensures carried { IfOk result (λ w. (d : DesignTree) (first : ℕ) → (A.ids sided.old.arena).of d
        → IsSearching d first sided.old.tracked.items [] → AreCarried d first added.new.items
        (A.game sided.new.arena) (A.ids sided.new.arena) w.count w.far) }
    ensures side { sided.new.upper ≡ sided.old.upper }
    ensures designs { (d : DesignTree) → (A.ids sided.old.arena).of d → (A.ids sided.new.arena).of d }
{
    let mut count = 0;
    let mut kept = region;
    let mut far = all_states(alloc, sided);
    'fails: loop {
        if let Some(it) = solve_side(alloc, sided, kept, &mut far)? {
            return Ok(Won {
                it,
                region: kept,
                far,
                count,
            });
        }
        count = added.len() + 1;
        cut(sided, added, kept)?;
        kept = forget_others(alloc, sided, kept, &mut far)?;
    }
}

// Where the upper side begins: no state is lost.
fn all_states<A: Arena>(alloc: Global, sided: &Sided<A>) -> Iterates
    ensures { (d : DesignTree) (predicates : List Predicate) → (A.ids sided.now.arena).of d
        → IsCarried d predicates (A.game sided.now.arena) (A.ids sided.now.arena) result }
{
    Iterates {
        region: sided.arena.whole(),
        ranks: Vec::new(alloc),
        levels: Vec::new(alloc),
    }
}

// The exact region, where all other sets are forgotten if there are many. The upper side begins anew then.
fn forget_others<A: Arena>(
    alloc: Global,
    sided: &mut Sided<A>,
    region: NodeId,
    far: &mut Iterates,
) -> Result<NodeId, AllocError>
    requires known { (A.ids sided.old.arena).knows region }
    ensures value { IfOk result (λ id. Is (A.game sided.old.arena).states (A.ids sided.new.arena) id
        ((A.ids sided.old.arena).means region)) }
    ensures carried { IfOk result (λ id. (d : DesignTree) (predicates : List Predicate) → (A.ids sided.old.arena).of d
        → IsCarried d predicates (A.game sided.old.arena) (A.ids sided.old.arena) far.old
        → IsCarried d predicates (A.game sided.new.arena) (A.ids sided.new.arena) far.new) }
    ensures tracked { sided.new.tracked.items ≡ sided.old.tracked.items }
    ensures side { sided.new.upper ≡ sided.old.upper }
    ensures game { A.game sided.new.arena ≡ A.game sided.old.arena }
    ensures designs { (d : DesignTree) → (A.ids sided.old.arena).of d → (A.ids sided.new.arena).of d }
{
    if sided.arena.is_full() {
        let kept = sided.arena.forget(region)?;
        *far = all_states(alloc, sided);
        return Ok(kept);
    }
    Ok(region)
}

// The shortest prefix over which the side wins.
pub(crate) fn narrow<A: Arena>(
    alloc: Global,
    sided: &mut Sided<A>,
    first: u32,
    added: &[Added],
    won: Won,
) -> Result<Won, AllocError>
    requires region_known { (A.ids sided.old.arena).knows won.region }
    requires holds { Holds (A.game sided.old.arena).states ((A.ids sided.old.arena).means won.region)
        (InRegion (A.game sided.old.arena)) }
    requires carried { (d : DesignTree) × (A.ids sided.old.arena).of d × AreCarried d first added.now
        (A.game sided.old.arena) (A.ids sided.old.arena) won.count won.far }
    requires within { won.count ≤ length added.now }
    requires known { KnowsAll (A.ids sided.old.arena) won.it }
    ensures first { IfOk result (λ w. (d : DesignTree) → (A.ids sided.old.arena).of d
        → AreFailed d first added.now sided.old.upper won.count
        → IsWonAt d first added.now sided.old.upper (A.ids sided.old.arena) won.it (length added.now)
        → IsFirst d first added.now sided.old.upper (A.ids sided.new.arena) w.it w.count) }
    ensures known { IfOk result (λ w. KnowsAll (A.ids sided.new.arena) w.it) }
    ensures within { IfOk result (λ w. w.count ≤ length added.now) }
    ensures side { sided.new.upper ≡ sided.old.upper }
    ensures stay { Stay (A.ids sided.old.arena) (A.ids sided.new.arena) }
{
    let mut low = won.count;
    let mut high = added.len();
    let region = won.region;
    let mut far = won.far;
    let mut it = won.it;
    let mut step = 1;
    'tries: while low < high {
        let middle = between(low, high, step);
        sided.tracked = numbers_after(alloc, first, &added[..middle])?;
        match solve_side(alloc, sided, region, &mut far)? {
            Some(better) => {
                it = better;
                step = (high - middle).saturating_mul(2);
                high = middle;
            }
            None => {
                step = 0;
                low = middle + 1;
            }
        }
    }
    Ok(Won {
        it,
        region,
        far,
        count: high,
    })
}
