//! The cache of results.
ghost use Rattle.std.specs.Prelude.{◌≡◌, ◌≢◌, ◌⊎◌, ◌+◌, ◌≤◌, None, Some, AllPairs, Contains, IfSome, OnOk, OnErr, length};
ghost use Rattle.tm_dd.specs.declared.node.NodeId.{NodeId as Id};
ghost use Rattle.tm_ddops.specs.declared.operation.Operation.{Operation as Key};

use crate::operation::Operation;
use lru::LruCache;
use std::alloc::AllocError;
use std::hash::BuildHasherDefault;
use tm_dd::{NodeId, NumberHasher};

/// Results of operations, of which the one that was used longest ago goes first.
pub(crate) type Cache = LruCache<Operation, NodeId, BuildHasherDefault<NumberHasher>>;

/// The remembered result of an operation, which then is the one that was used last.
pub(crate) fn recall(cache: &mut Cache, operation: &Operation) -> Option<NodeId>
    ensures found { (id : Id) → Contains cache.old.entries (operation.now, id) → result ≡ Some id }
    ensures told { IfSome result (λ id. Contains cache.new.entries (operation.now, id)) }
    ensures kept { (e : Key × Id) → Contains cache.old.entries e → Contains cache.new.entries e }
    ensures only { (e : Key × Id) → Contains cache.new.entries e → Contains cache.old.entries e }
    ensures missed { result ≡ None → cache.new ≡ cache.old }
    ensures capacity { cache.new.cap ≡ cache.old.cap }
    ensures once { AllPairs (λ a b. a.0 ≢ b.0) cache.new.entries }
    ensures few { length cache.new.entries ≤ cache.new.cap }
{
    prove!(cache.len() <= cache.cap().get());
    let found = cache.peek(operation).copied();
    if found.is_some() {
        cache.promote(operation);
    }
    prove!(cache.len() <= cache.cap().get());
    found
}

/// Remembers a result. A full cache forgets the one that was used longest ago.
pub(crate) fn remember(
    cache: &mut Cache,
    operation: Operation,
    id: NodeId,
) -> Result<(), AllocError>
    requires absent { (other : Id) → ¬ Contains cache.old.entries (operation, other) }
    ensures there { OnOk result (Contains cache.new.entries (operation, id)) }
    ensures kept { (e : Key × Id) → Contains cache.old.entries e →
        Contains cache.new.entries e ⊎ (length cache.new.entries ≡ cache.new.cap) }
    ensures only { (e : Key × Id) → Contains cache.new.entries e →
        Contains cache.old.entries e ⊎ (e ≡ (operation, id)) }
    ensures refused { OnErr result (cache.new ≡ cache.old) }
    ensures capacity { cache.new.cap ≡ cache.old.cap }
    ensures once { AllPairs (λ a b. a.0 ≢ b.0) cache.new.entries }
    ensures few { length cache.new.entries ≤ cache.new.cap }
{
    prove!(cache.len() <= cache.cap().get());
    cache.put(operation, id)?;
    prove!(cache.len() <= cache.cap().get());
    Ok(())
}
