//! The levels that a function depends on.
ghost use Rattle.std.specs.Prelude.{◌≡◌, ◌↔◌, ℕ, true, Contains, IfOk, length};
ghost use Rattle.std.specs.List.Sorted.{IsStrictlyIncreasing};
ghost use Rattle.tm_dd.specs.Table.{Knows};
ghost use Rattle.tm_ddops.specs.Quantified.{is_marked_level};
ghost use Rattle.tm_ddops.specs.Support.{DependsOn};

use crate::least::all_false;
use crate::manager::Manager;
use crate::reached::inner_nodes;
use std::alloc::{AllocError, Global};
use tm_dd::{NodeId, Store};

impl Manager {
    /// The levels that `f` depends on, in rising order.
    pub fn support(&self, f: NodeId) -> Result<Vec<u32>, AllocError>
        requires { Knows self.now.table f }
        ensures rises { IfOk result (λ levels. IsStrictlyIncreasing levels.items) }
        ensures exact { IfOk result (λ levels. (k : ℕ) → Contains levels.items k ↔ DependsOn self.now.table f k) }
    {
        let marks = support_marks(self.alloc, &self.store, f)?;
        marked_levels(self.alloc, self.store.levels(), &marks)
    }
}

/// A mark for each level: whether `f` depends on it.
fn support_marks(alloc: Global, store: &Store, f: NodeId) -> Result<Vec<bool>, AllocError>
    requires { Knows store.now f }
    ensures len { IfOk result (λ marks. length marks.items ≡ store.now.levels) }
    ensures exact { IfOk result (λ marks. (k : ℕ) → (is_marked_level marks.items k ≡ true) ↔ DependsOn store.now f k) }
{
    let inner = inner_nodes(alloc, store, f)?;
    let mut marks = all_false(alloc, store.levels())?;
    for id in &inner {
        let node = store.node(*id);
        marks[node.level as usize] = true;
    }
    Ok(marks)
}

/// The marked levels below `count`, in rising order.
fn marked_levels(alloc: Global, count: u32, marks: &[bool]) -> Result<Vec<u32>, AllocError>
    requires { length marks.now ≡ count }
    ensures rises { IfOk result (λ levels. IsStrictlyIncreasing levels.items) }
    ensures exact { IfOk result (λ levels. (k : ℕ) → Contains levels.items k ↔ (is_marked_level marks.now k ≡ true)) }
{
    let mut levels = Vec::new(alloc);
    for level in 0..count {
        if marks[level as usize] {
            levels.push(level)?;
        }
    }
    Ok(levels)
}
