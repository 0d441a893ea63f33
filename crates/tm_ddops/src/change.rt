//! What becomes of levels: another function takes the place of one, or any value does.
ghost use Rattle.std.specs.Prelude.{◌≡◌, ◌==◌, ◌<◌, ◌≤◌, ℕ, None, Some, IfOk, length, map, if◌then◌else◌};
ghost use Rattle.std.specs.Cmp.{partial_equiv_from_equiv};
ghost use Rattle.std.specs.Cmp.Lexicographic.{pointwise};
ghost use Rattle.tm_dd.specs.Reduced.{IsReduced};
ghost use Rattle.tm_ddops.specs.Change.{change_number, digest};
ghost use Rattle.tm_ddops.specs.Changed.{IsDepth, change_at, change_of, first_of};
ghost use Rattle.tm_ddops.specs.declared.change.Change.TheVariants as change;

use std::alloc::{AllocError, Global};
use std::hash::{Hash, Hasher};
use std::marker::Model;
use tm_dd::{NodeId, Store, mixed};

/// What becomes of a level.
#[derive(Clone, Copy)]
pub enum Change {
    /// A function takes its place.
    Becomes(NodeId),
    /// It may have any value.
    Quantified,
}

impl PartialEq for Change {
    ghost use Rattle.tm_ddops.specs.Change.{change_eq, change_equiv};

    ghost eq = { change_eq };

    ghost laws = { partial_equiv_from_equiv change_equiv };

    fn eq(&self, other: &Change) -> bool {
        match (self, other) {
            (Change::Becomes(f), Change::Becomes(g)) => f == g,
            (Change::Quantified, Change::Quantified) => true,
            _ => false,
        }
    }
}

impl Eq for Change {
    ghost use Rattle.tm_ddops.specs.Change.{change_equiv};

    ghost laws = { change_equiv };
}

impl Change {
    // The change as a number, which a digest takes.
    fn number(self) -> u64
        ensures { result ≡ change_number self }
    {
        match self {
            Change::Becomes(f) => f.number(),
            Change::Quantified => u64::MAX,
        }
    }
}

/// Levels with their changes, of which the first counts where two are at one level. A contract sees their list.
#[derive(Drop)]
pub struct Changes {
    list: Vec<(u32, Change)>,
    // The list as one number, which a hasher takes in one write.
    digest: u64,
}

impl Model for Changes {
    ghost use Rattle.std.specs.Prelude.{ℕ, List};
    ghost use Rattle.tm_ddops.specs.declared.change.Change.{Change};

    ghost Value = { List (ℕ × Change) };

    ghost use Rattle.tm_ddops.specs.Change.{HasDigest};

    ghost view = { λ c. c.list.items };

    ghost invariant = { λ c. HasDigest c.list.items c.digest };
}

impl Changes {
    /// The functions of the parts take the places of their levels.
    pub(crate) fn from_parts(alloc: Global, parts: &[(u32, NodeId)]) -> Result<Changes, AllocError>
        ensures { IfOk result (λ c. c ≡ map (λ p. (p.0, change.Becomes p.1)) parts.now) }
    {
        let list: Vec<(u32, Change)> = parts
            .iter()
            .map(|part| (part.0, Change::Becomes(part.1)))
            .collect(alloc)?;
        let digest = digest(&list);
        Ok(Changes { list, digest })
    }

    /// The levels may have any value.
    pub(crate) fn from_levels(alloc: Global, levels: &[u32]) -> Result<Changes, AllocError>
        ensures { IfOk result (λ c. c ≡ map (λ l. (l, change.Quantified)) levels.now) }
    {
        let list: Vec<(u32, Change)> = levels
            .iter()
            .map(|level| (*level, Change::Quantified))
            .collect(alloc)?;
        let digest = digest(&list);
        Ok(Changes { list, digest })
    }

    /// The levels and their changes.
    pub(crate) fn as_slice(&self) -> &[(u32, Change)]
        ensures { result.now ≡ self.now }
    {
        self.list.as_slice()
    }
}

impl PartialEq for Changes {
    ghost use Rattle.tm_ddops.specs.Change.{changes_equiv, item_eq};

    ghost eq = { pointwise item_eq };

    ghost laws = { partial_equiv_from_equiv changes_equiv };

    fn eq(&self, other: &Changes) -> bool {
        self.as_slice() == other.as_slice()
    }
}

impl Eq for Changes {
    ghost use Rattle.tm_ddops.specs.Change.{changes_equiv};

    ghost laws = { changes_equiv };
}

impl Hash for Changes {
    ghost use Rattle.tm_ddops.specs.Change.{changes_hash, same_hash};

    ghost hash_input = { changes_hash };

    ghost respects_eq = { same_hash };

    fn hash<H: Hasher>(&self, state: &mut H) {
        state.write_u64(self.digest);
    }
}

/// A list of levels with their changes as one number.
fn digest(list: &[(u32, Change)]) -> u64
    ensures { result ≡ digest list.now }
{
    let mut digest = 0;
    for (level, change) in list {
        digest = mixed(digest, u64::from(*level), change.number());
    }
    digest
}

/// The changes by their levels below `count`.
pub(crate) fn by_level(
    alloc: Global,
    count: u32,
    changes: &[(u32, Change)],
) -> Result<Vec<Option<Change>>, AllocError>
    ensures len { IfOk result (λ table. length table.items ≡ count) }
    ensures changes { IfOk result (λ table. (k : ℕ) → k < count →
        change_at table.items k ≡ change_of changes.now k) }
{
    let mut table = vec![in alloc; None; count as usize]?;
    for (level, change) in changes {
        set_first(&mut table, *level, *change);
    }
    Ok(table)
}

/// The levels down to the deepest that changes: how many there are.
pub(crate) fn depth(store: &Store, changes: &[(u32, Change)]) -> u32
    ensures depth { IsDepth store.now (change_of changes.now) result }
    ensures reduced { IsReduced store.now }
{
    let levels = store.levels();
    let mut depth = 0;
    for (level, _) in changes {
        let rank = store.rank(*level);
        if depth <= rank && rank < levels {
            depth = rank + 1;
        }
    }
    depth
}

/// Puts a change at a level that is in the table and has none.
fn set_first(table: &mut [Option<Change>], level: u32, change: Change)
    ensures { (k : ℕ) → k < length table.old →
        change_at table.new k
        ≡ (if level == k then first_of (change_at table.old k) (Some change) else change_at table.old k) }
{
    let place = level as usize;
    if place < table.len() && table[place].is_none() {
        table[place] = Some(change);
    }
}
