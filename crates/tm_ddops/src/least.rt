//! The least assignment that makes a function true.
ghost use Rattle.std.specs.Prelude.{◌≡◌, ◌≢◌, false, MatchOption, IfOk, length, replicate};
ghost use Rattle.tm_dd.specs.Reduced.{IsReduced};
ghost use Rattle.tm_dd.specs.Table.{Knows};
ghost use Rattle.tm_ddops.specs.Least.{IsClearFrom, IsFilled, IsLeast};

use crate::manager::Manager;
use std::alloc::{AllocError, Global};
use tm_dd::{FALSE, NodeId, Store};

impl Manager {
    /// The least values of all levels that make `f` true, with false before true and the highest level first. `FALSE`
    /// has none.
    pub fn least(&self, f: NodeId) -> Result<Option<Vec<bool>>, AllocError>
        requires { Knows self.now.table f }
        ensures { IfOk result (λ least.
            MatchOption least (f ≡ FALSE) (λ values. IsLeast self.now.table f values.items)) }
    {
        if f == FALSE {
            return Ok(None);
        }
        let mut values = all_false(self.alloc, self.store.levels())?;
        fill(&self.store, f, &mut values);
        Ok(Some(values))
    }
}

/// As many values as there are levels, all of them false.
pub(crate) fn all_false(alloc: Global, count: u32) -> Result<Vec<bool>, AllocError>
    ensures { IfOk result (λ values. values.items ≡ replicate count false) }
{
    vec![in alloc; false; count as usize]
}

/// Sets the values from the level of `f` on downwards to the least that make `f` true.
fn fill(store: &Store, f: NodeId, values: &mut [bool])
    requires reduced { IsReduced store.now }
    requires known { Knows store.now f }
    requires not_false { f ≢ FALSE }
    requires one_a_level { length values.old ≡ store.now.levels }
    requires clear { IsClearFrom store.now f values.old }
    ensures { IsFilled store.now f values.old values.new }
{
    if f.is_constant() {
        return;
    }
    let node = store.node(f);
    if node.lo == FALSE {
        values[node.level as usize] = true;
        fill(store, node.hi, values);
    } else {
        fill(store, node.lo, values);
    }
}
