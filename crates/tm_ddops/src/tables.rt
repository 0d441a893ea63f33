//! The tables that walks leave from call to call.
ghost use Rattle.std.specs.Prelude.{◌≡◌, ◌<◌, ◌≤◌, ℕ, [], IfOk, length, slice_index_or};
ghost use Rattle.tm_dd.specs.Reduced.{Extends, IsReduced};
ghost use Rattle.tm_dd.specs.Table.{Table, Knows};
ghost use Rattle.tm_ddops.specs.Changed.{IsChanged, KnowsParts, change_of};
ghost use Rattle.tm_ddops.specs.Inner.Memo.{AreChoices};
ghost use Rattle.tm_ddops.specs.Inner.Plans.{HasLevels, HasParts, IsPlan, quantified, substituting};
ghost use Rattle.tm_ddops.specs.Inner.Tables.{AreTrue};

use crate::change::{Changes, by_level, depth};
use crate::plans::{
    Plan, Quantifier, Substitution, find_levels, find_parts, keep_levels, keep_parts,
};
use crate::rewrite::Walks;
use crate::walk::Memo;
use indexmap::IndexSet;
use std::alloc::{AllocError, Global};
use std::collections::HashMap;
use std::hash::BuildHasherDefault;
use tm_dd::{NodeId, NumberHasher, Store};

/// How many entries the tables hold at most when a walk begins. One takes up to 96 bytes with the room that its table
/// keeps, so they hold about 100 million bytes at most between calls, and what the last call added.
pub(crate) const MOST_ENTRIES: usize = 1_048_576;

/// How many choices there are at most when a walk begins, so that their table stays in the processor's cache.
pub(crate) const MOST_CHOICES: usize = 16_384;

/// For how many choices an emptied table keeps its room.
pub(crate) const MOST_ROOM: usize = 65_536;

/// For how many choices and how many visits new tables have room, so that small games make them grow no more.
const FIRST_ROOM: usize = 1_024;

/// What walks have found: the choices and the functions that they met. The number of changes is their place in the
/// set.
#[derive(Drop)]
pub struct Tables {
    pub(crate) walks: Walks,
    pub(crate) changes: IndexSet<Changes, BuildHasherDefault<NumberHasher>>,
    // How many levels the changes of the set have together.
    pub(crate) levels: usize,
    // The last lists of levels and the last substitutions that were asked for.
    pub(crate) quantifiers: Vec<Quantifier>,
    pub(crate) substitutions: Vec<Substitution>,
}

impl Tables {
    /// Tables that hold nothing.
    pub(crate) fn new(alloc: Global) -> Tables
        ensures { (s : Table) → AreTrue s result }
    {
        Tables {
            walks: Walks {
                choices: HashMap::with_hasher(alloc, BuildHasherDefault::new()),
                found: HashMap::with_hasher(alloc, BuildHasherDefault::new()),
            },
            changes: IndexSet::with_hasher(alloc, BuildHasherDefault::new()),
            levels: 0,
            quantifiers: Vec::new(alloc),
            substitutions: Vec::new(alloc),
        }
    }

    /// Tables that hold nothing, with room for the first walks.
    pub(crate) fn with_room(alloc: Global) -> Result<Tables, AllocError>
        ensures { IfOk result (λ tables. (s : Table) → AreTrue s tables) }
    {
        let mut tables = Tables::new(alloc);
        given!(tables.walks.choices.reserve(FIRST_ROOM), tables);
        given!(tables.walks.found.reserve(FIRST_ROOM), tables);
        Ok(tables)
    }

    /// Drops the choices where there are more than `MOST_CHOICES`, and all entries where there are more than
    /// `MOST_ENTRIES`.
    pub(crate) fn limit(&mut self, alloc: Global)
        ensures { (s : Table) → AreTrue s self.old → AreTrue s self.new }
    {
        limit_choices(&mut self.walks.choices, alloc);
        let entries = self
            .walks
            .choices
            .len()
            .saturating_add(self.walks.found.len())
            .saturating_add(self.levels);
        if entries > MOST_ENTRIES {
            *self = Tables::new(alloc);
        }
    }

    /// The function `f` with the parts' functions in the places of their levels, all at once.
    pub(crate) fn rewrite(
        &mut self,
        alloc: Global,
        store: &mut Store,
        f: NodeId,
        parts: &[(u32, NodeId)],
    ) -> Result<NodeId, AllocError>
        requires reduced { IsReduced store.old }
        requires known { Knows store.old f }
        requires parts { KnowsParts store.old (change_of (substituting parts.now)) }
        requires tables { AreTrue store.old self.old }

        ensures extends { Extends store.old store.new }
        ensures reduced { IsReduced store.new }
        ensures tables { AreTrue store.new self.new }
        ensures answer { IfOk result (IsChanged store.new (change_of (substituting parts.now)) f) }
    {
        let place = self.substitution(alloc, store, parts)?;
        let plan = &self.substitutions[place].plan;
        self.walks
            .rewrite(store, f, plan.number, &plan.by_level, plan.depth)
    }

    /// What is left of `f` where levels may have any value.
    pub(crate) fn exists(
        &mut self,
        alloc: Global,
        store: &mut Store,
        f: NodeId,
        levels: &[u32],
    ) -> Result<NodeId, AllocError>
        requires reduced { IsReduced store.old }
        requires known { Knows store.old f }
        requires tables { AreTrue store.old self.old }

        ensures extends { Extends store.old store.new }
        ensures reduced { IsReduced store.new }
        ensures tables { AreTrue store.new self.new }
        ensures answer { IfOk result (IsChanged store.new (change_of (quantified levels.now)) f) }
    {
        if f.is_constant() {
            return Ok(f);
        }
        let place = self.quantifier(alloc, store, levels)?;
        let plan = &self.quantifiers[place].plan;
        self.walks
            .rewrite(store, f, plan.number, &plan.by_level, plan.depth)
    }

    // The place of parts among those that are kept.
    fn substitution(
        &mut self,
        alloc: Global,
        store: &Store,
        parts: &[(u32, NodeId)],
    ) -> Result<usize, AllocError>
        requires tables { AreTrue store.now self.old }
        ensures tables { AreTrue store.now self.new }
        ensures there { IfOk result (HasParts self.new.substitutions.items parts.now) }
    {
        if let Some(place) = find_parts(&self.substitutions, parts) {
            return Ok(place);
        }
        let changes = Changes::from_parts(alloc, parts)?;
        let plan = self.plan(alloc, store, changes)?;
        keep_parts(alloc, &mut self.substitutions, parts, plan)
    }

    // The place of levels among those that are kept.
    fn quantifier(
        &mut self,
        alloc: Global,
        store: &Store,
        levels: &[u32],
    ) -> Result<usize, AllocError>
        requires tables { AreTrue store.now self.old }
        ensures tables { AreTrue store.now self.new }
        ensures there { IfOk result (HasLevels self.new.quantifiers.items levels.now) }
    {
        if let Some(place) = find_levels(&self.quantifiers, levels) {
            return Ok(place);
        }
        let changes = Changes::from_levels(alloc, levels)?;
        let plan = self.plan(alloc, store, changes)?;
        keep_levels(alloc, &mut self.quantifiers, levels, plan)
    }

    // What a walk under changes needs.
    fn plan(&mut self, alloc: Global, store: &Store, changes: Changes) -> Result<Plan, AllocError>
        requires tables { AreTrue store.now self.old }
        ensures tables { AreTrue store.now self.new }
        ensures plan { IfOk result (IsPlan store.now self.new.changes.keys changes) }
    {
        let depth = depth(store, changes.as_slice());
        let by_level = by_level(alloc, store.levels(), changes.as_slice())?;
        let number = self.number(changes)?;
        Ok(Plan {
            number,
            depth,
            by_level,
        })
    }

    // The number of the changes, which are added to the set where they are not there.
    fn number(&mut self, changes: Changes) -> Result<usize, AllocError>
        ensures within { IfOk result (λ n. n < length self.new.changes.keys) }
        ensures number { IfOk result (λ n. slice_index_or self.new.changes.keys n [] ≡ changes) }
        ensures grows { length self.old.changes.keys ≤ length self.new.changes.keys }
        ensures kept { (n : ℕ) → n < length self.old.changes.keys →
            slice_index_or self.new.changes.keys n [] ≡ slice_index_or self.old.changes.keys n [] }
        ensures walks { self.new.walks ≡ self.old.walks }
        ensures quantifiers { self.new.quantifiers ≡ self.old.quantifiers }
        ensures substitutions { self.new.substitutions ≡ self.old.substitutions }
    {
        let levels = changes.as_slice().len();
        let (number, added) = self.changes.insert_full(changes)?;
        if added {
            self.levels = self.levels.saturating_add(levels);
        }
        Ok(number)
    }
}

/// Drops the choices where there are more than `MOST_CHOICES`. Room for up to `MOST_ROOM` is kept.
fn limit_choices(choices: &mut Memo, alloc: Global)
    ensures { (s : Table) → AreChoices s choices.old → AreChoices s choices.new }
{
    if choices.len() <= MOST_CHOICES {
        return;
    }
    if choices.capacity() <= MOST_ROOM {
        choices.clear();
    } else {
        *choices = HashMap::with_hasher(alloc, BuildHasherDefault::new());
    }
}
