//! Changes that are asked for again and again, with what walks under them need.
ghost use Rattle.std.specs.Prelude.{◌≡◌, ℕ, List, IfOk, IfSome, IsTrue};
ghost use Rattle.tm_dd.specs.Table.{Table};
ghost use Rattle.tm_ddops.specs.Inner.Plans.{AreQuantifiers, AreSubstitutions, HasLevels, HasParts, IsPlan, quantified, substituting};
ghost use Rattle.tm_ddops.specs.declared.change.Change.{Change as Changed};

use crate::change::Change;
use std::alloc::{AllocError, Global};
use tm_dd::NodeId;

/// How many lists of levels are kept at most: a game asks for those of choices and of arguments, and for some more
/// where it is parted by predicates.
const MOST_QUANTIFIERS: usize = 64;

/// How many substitutions are kept at most: a game has one for each step.
const MOST_SUBSTITUTIONS: usize = 128;

/// Changes of levels, as a walk asks for them.
#[derive(Drop)]
pub struct Plan {
    /// The number of the changes.
    pub(crate) number: usize,
    /// No level of this rank or a deeper one changes.
    pub(crate) depth: u32,
    /// The change of each level.
    pub(crate) by_level: Vec<Option<Change>>,
}

/// Levels, with the plan by which they may have any value.
#[derive(Drop)]
pub struct Quantifier {
    pub(crate) levels: Vec<u32>,
    pub(crate) plan: Plan,
}

/// The parts of a substitution, with the plan by which their functions take the places of their levels.
#[derive(Drop)]
pub struct Substitution {
    pub(crate) parts: Vec<(u32, NodeId)>,
    pub(crate) plan: Plan,
}

/// The place of levels that are kept. They are compared, which takes less than to find their changes by a hash.
pub(crate) fn find_levels(kept: &[Quantifier], levels: &[u32]) -> Option<usize>
    ensures { IfSome result (HasLevels kept.now levels.now) }
{
    for place in 0..kept.len() {
        if are_levels(&kept[place].levels, levels) {
            return Some(place);
        }
    }
    None
}

/// The place of parts that are kept.
pub(crate) fn find_parts(kept: &[Substitution], parts: &[(u32, NodeId)]) -> Option<usize>
    ensures { IfSome result (HasParts kept.now parts.now) }
{
    for place in 0..kept.len() {
        if are_parts(&kept[place].parts, parts) {
            return Some(place);
        }
    }
    None
}

/// Whether two lists of levels are one.
fn are_levels(one: &[u32], other: &[u32]) -> bool
    ensures { IsTrue result → one.now ≡ other.now }
{
    if one.len() != other.len() {
        return false;
    }
    for (level, counterpart) in one.iter().zip(other) {
        if level != counterpart {
            return false;
        }
    }
    true
}

/// Whether two lists of parts are one.
fn are_parts(one: &[(u32, NodeId)], other: &[(u32, NodeId)]) -> bool
    ensures { IsTrue result → one.now ≡ other.now }
{
    one == other
}

/// Keeps levels with their plan, and answers their place. The others are dropped where there are many.
pub(crate) fn keep_levels(
    alloc: Global,
    kept: &mut Vec<Quantifier>,
    levels: &[u32],
    plan: Plan,
) -> Result<usize, AllocError>
    ensures plans { (s : Table) (lists : List (List (ℕ × Changed))) → IsPlan s lists (quantified levels.now) plan
        → AreQuantifiers s lists kept.old.items → AreQuantifiers s lists kept.new.items }
    ensures there { IfOk result (HasLevels kept.new.items levels.now) }
{
    let levels = Vec::from_slice(alloc, levels)?;
    if kept.len() >= MOST_QUANTIFIERS {
        kept.clear();
    }
    let place = kept.len();
    kept.push(Quantifier { levels, plan })?;
    Ok(place)
}

/// Keeps parts with their plan, and answers their place. The others are dropped where there are many.
pub(crate) fn keep_parts(
    alloc: Global,
    kept: &mut Vec<Substitution>,
    parts: &[(u32, NodeId)],
    plan: Plan,
) -> Result<usize, AllocError>
    ensures plans { (s : Table) (lists : List (List (ℕ × Changed))) → IsPlan s lists (substituting parts.now) plan
        → AreSubstitutions s lists kept.old.items → AreSubstitutions s lists kept.new.items }
    ensures there { IfOk result (HasParts kept.new.items parts.now) }
{
    let parts = Vec::from_slice(alloc, parts)?;
    if kept.len() >= MOST_SUBSTITUTIONS {
        kept.clear();
    }
    let place = kept.len();
    kept.push(Substitution { parts, plan })?;
    Ok(place)
}
