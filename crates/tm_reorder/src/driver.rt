//! Drivers' certificates in another order.
ghost use Rattle.std.specs.Prelude.{◌≡◌, ◌<◌, ◌^◌, ℕ, Bool, IfOk, length, map, sum};
ghost use Rattle.tm_agreement.specs.Agreement.{DriversAgree};
ghost use Rattle.tm_cert.specs.Nodes.{ids_of};
ghost use Rattle.tm_dd.specs.Reduced.{IsReduced, RanksRise};
ghost use Rattle.tm_game_bits.specs.Order.{IsOrder};
ghost use Rattle.tm_reorder.specs.Fields.{AreFields};
ghost use Rattle.tm_reorder.specs.Inner.Clamped.{HavePlaces};
ghost use Rattle.tm_reorder.specs.Inner.Keys.{AreKeyed, driver_keys};
ghost use Rattle.tm_reorder.specs.Inner.Parts.{AreIds};
ghost use Rattle.tm_reorder.specs.Inner.Told.{DriverTold, IsDriverMoved};
ghost use Rattle.tm_sem.specs.StateBits.{state_widths};
ghost use Rattle.tm_syntax.specs.Design.{DesignTree};
ghost use Rattle.tm_verdict.specs.Fitting.{FitsDriver};
ghost use Rattle.tm_verdict.specs.Sets.{driver_sets};

use crate::clamping::clamped_bits;
use crate::fields::Field;
use crate::keys::driver_keys;
use crate::moving::load_sets;
use crate::parts::{place, place_goals};
use crate::raising::ranks_in;
use indexmap::IndexSet;
use std::alloc::{AllocError, Global};
use tm_cert::DriverCert;
use tm_dd::{NodeId, Store};
use tm_ddops::Manager;
use tm_game_bits::levels_by_place;

/// A driver's certificate in another order of the levels: the same sets of states, whatever the design.
///
/// The diagrams are made in a manager of as many levels as the order has, by a node or an `ite` for each entry; it may
/// be a new one. How many entries the answer has depends on the order.
pub fn reorder_driver(
    alloc: Global,
    dd: &mut Manager,
    cert: &DriverCert,
    order: &[u32],
) -> Result<DriverCert, AllocError>
    requires levels { dd.old.table.levels ≡ length order.now }
    requires ranks { RanksRise (length order.now) dd.old.table }
    requires count { length order.now < 2 ^ 32 }
    requires order { IsOrder (length order.now) order.now }
    requires fits { (goals fairs : ℕ) × FitsDriver (length order.now) goals fairs cert.now }

    ensures order { IfOk result (λ c. c.order ≡ order.now) }
    ensures sets { IfOk result (λ c. (d : DesignTree) → driver_sets d c ≡ driver_sets d cert.now) }
    ensures ranks { IfOk result (λ c. map length c.goals ≡ map length cert.now.goals) }
    ensures fits { IfOk result (λ c. (goals fairs : ℕ) → FitsDriver (length order.now) goals fairs cert.now
        → FitsDriver (length order.now) goals fairs c) }
{
    let ranks = ranks_in(alloc, cert.order.as_slice(), order)?;
    move_driver(alloc, dd, cert, order, &[], ranks.as_slice())
}

/// A driver's certificate of the design of these fields in another order of the levels: sets that hold the same valid
/// states. A number that no valid state has is taken for one that some valid state has, so that no set has to tell
/// which states are valid: in an order that parts the bits of numbers this can need exponentially many entries.
///
/// The diagrams are made as in `reorder_driver`.
pub fn clamp_driver(
    alloc: Global,
    dd: &mut Manager,
    cert: &DriverCert,
    order: &[u32],
    fields: &[Field],
) -> Result<DriverCert, AllocError>
    requires levels { dd.old.table.levels ≡ length order.now }
    requires ranks { RanksRise (length order.now) dd.old.table }
    requires count { length order.now < 2 ^ 32 }
    requires order { IsOrder (length order.now) order.now }
    requires fits { (goals fairs : ℕ) × FitsDriver (length order.now) goals fairs cert.now }
    requires fields { (d : DesignTree) × AreFields d fields.now × (sum (state_widths d) ≡ length order.now) }

    ensures order { IfOk result (λ c. c.order ≡ order.now) }
    ensures sets { IfOk result (λ c. (d : DesignTree) → AreFields d fields.now
        → DriversAgree d (driver_sets d c) (driver_sets d cert.now)) }
    ensures ranks { IfOk result (λ c. map length c.goals ≡ map length cert.now.goals) }
    ensures fits { IfOk result (λ c. (goals fairs : ℕ) → FitsDriver (length order.now) goals fairs cert.now
        → FitsDriver (length order.now) goals fairs c) }
{
    move_driver(alloc, dd, cert, order, fields, &[])
}

// A driver's certificate in another order, over clamped bits.
fn move_driver(
    alloc: Global,
    dd: &mut Manager,
    cert: &DriverCert,
    order: &[u32],
    fields: &[Field],
    ranks: &[u32],
) -> Result<DriverCert, AllocError>
    requires levels { dd.old.table.levels ≡ length order.now }
    requires ranks { RanksRise (length order.now) dd.old.table }
    requires count { length order.now < 2 ^ 32 }
    requires order { IsOrder (length order.now) order.now }
    requires fits { (goals fairs : ℕ) × FitsDriver (length order.now) goals fairs cert.now }
    requires places { HavePlaces (length order.now) fields.now }

    ensures { IfOk result (IsDriverMoved order.now fields.now cert.now) }
{
    let levels = levels_by_place(alloc, order)?;
    let bits = clamped_bits(alloc, dd, levels.as_slice(), fields)?;
    let keys = driver_keys(alloc, cert.region, cert.goals.as_slice())?;
    let ids = load_sets(
        alloc,
        dd,
        cert.nodes.as_slice(),
        cert.order.as_slice(),
        bits.as_slice(),
        keys.as_slice(),
        ranks,
    )?;
    renumber_driver(alloc, dd.store(), cert, ids.as_slice(), order)
}

// A driver's certificate from the diagrams of its ids.
fn renumber_driver(
    alloc: Global,
    store: &Store,
    cert: &DriverCert,
    ids: &[NodeId],
    order: &[u32],
) -> Result<DriverCert, AllocError>
    requires reduced { IsReduced store.now }
    requires levels { store.now.levels ≡ length order.now }
    requires ranks { RanksRise (length order.now) store.now }
    requires fits { (goals fairs : ℕ) × FitsDriver (length order.now) goals fairs cert.now }
    requires ids { AreIds store.now ids.now }
    requires count { length ids.now ≡ ids_of cert.now.nodes }

    ensures { (see : (ℕ → Bool) → ℕ → Bool) → AreKeyed store.now see cert.now.nodes
        (driver_keys cert.now.region cert.now.goals) ids.now
        → IfOk result (DriverTold order.now see cert.now) }
{
    let mut kept = IndexSet::new(alloc);
    let mut nodes = Vec::new(alloc);
    let region = place(store, ids, &mut kept, &mut nodes, cert.region)?;
    let goals = place_goals(
        alloc,
        store,
        ids,
        &mut kept,
        &mut nodes,
        cert.goals.as_slice(),
    )?;
    let order = Vec::from_slice(alloc, order)?;
    Ok(DriverCert {
        order,
        nodes,
        region,
        goals,
    })
}
