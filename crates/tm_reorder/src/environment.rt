//! Environments' certificates in another order.
ghost use Rattle.std.specs.Prelude.{◌≡◌, ◌<◌, ◌^◌, ℕ, Bool, IfOk, length, sum};
ghost use Rattle.tm_agreement.specs.Agreement.{LevelsAgree};
ghost use Rattle.tm_cert.specs.Nodes.{ids_of};
ghost use Rattle.tm_dd.specs.Reduced.{IsReduced, RanksRise};
ghost use Rattle.tm_game_bits.specs.Order.{IsOrder};
ghost use Rattle.tm_reorder.specs.Fields.{AreFields};
ghost use Rattle.tm_reorder.specs.Inner.Clamped.{HavePlaces};
ghost use Rattle.tm_reorder.specs.Inner.Keys.{AreKeyed, environment_keys};
ghost use Rattle.tm_reorder.specs.Inner.Parts.{AreIds};
ghost use Rattle.tm_reorder.specs.Inner.Told.{EnvironmentTold, IsEnvironmentMoved};
ghost use Rattle.tm_sem.specs.StateBits.{state_widths};
ghost use Rattle.tm_syntax.specs.Design.{DesignTree};
ghost use Rattle.tm_verdict.specs.Fitting.{FitsEnvironment};
ghost use Rattle.tm_verdict.specs.Sets.{levels_of};

use crate::clamping::clamped_bits;
use crate::fields::Field;
use crate::keys::environment_keys;
use crate::moving::load_sets;
use crate::parts::place_levels;
use crate::raising::ranks_in;
use indexmap::IndexSet;
use std::alloc::{AllocError, Global};
use tm_cert::EnvCert;
use tm_dd::{NodeId, Store};
use tm_ddops::Manager;
use tm_game_bits::levels_by_place;

/// An environment's certificate in another order of the levels: the same levels of states with the same goals, and the
/// same chains of sets, whatever the design.
///
/// The diagrams are made in a manager of as many levels as the order has, by a node or an `ite` for each entry; it may
/// be a new one. How many entries the answer has depends on the order.
pub fn reorder_environment(
    alloc: Global,
    dd: &mut Manager,
    cert: &EnvCert,
    order: &[u32],
) -> Result<EnvCert, AllocError>
    requires levels { dd.old.table.levels ≡ length order.now }
    requires ranks { RanksRise (length order.now) dd.old.table }
    requires count { length order.now < 2 ^ 32 }
    requires order { IsOrder (length order.now) order.now }
    requires fits { (goals fairs : ℕ) × FitsEnvironment (length order.now) goals fairs cert.now }

    ensures order { IfOk result (λ c. c.order ≡ order.now) }
    ensures sets { IfOk result (λ c. (d : DesignTree) → levels_of d c ≡ levels_of d cert.now) }
    ensures fits { IfOk result (λ c. (goals fairs : ℕ) → FitsEnvironment (length order.now) goals fairs cert.now
        → FitsEnvironment (length order.now) goals fairs c) }
{
    let ranks = ranks_in(alloc, cert.order.as_slice(), order)?;
    move_environment(alloc, dd, cert, order, &[], ranks.as_slice())
}

/// An environment's certificate of the design of these fields in another order of the levels: the same goals, with
/// levels and chains of sets that hold the same valid states. A number that no valid state has is taken for one that
/// some valid state has, as in `clamp_driver`.
///
/// The diagrams are made as in `reorder_environment`.
pub fn clamp_environment(
    alloc: Global,
    dd: &mut Manager,
    cert: &EnvCert,
    order: &[u32],
    fields: &[Field],
) -> Result<EnvCert, AllocError>
    requires levels { dd.old.table.levels ≡ length order.now }
    requires ranks { RanksRise (length order.now) dd.old.table }
    requires count { length order.now < 2 ^ 32 }
    requires order { IsOrder (length order.now) order.now }
    requires fits { (goals fairs : ℕ) × FitsEnvironment (length order.now) goals fairs cert.now }
    requires fields { (d : DesignTree) × AreFields d fields.now × (sum (state_widths d) ≡ length order.now) }

    ensures order { IfOk result (λ c. c.order ≡ order.now) }
    ensures sets { IfOk result (λ c. (d : DesignTree) → AreFields d fields.now
        → LevelsAgree d (levels_of d c) (levels_of d cert.now)) }
    ensures fits { IfOk result (λ c. (goals fairs : ℕ) → FitsEnvironment (length order.now) goals fairs cert.now
        → FitsEnvironment (length order.now) goals fairs c) }
{
    move_environment(alloc, dd, cert, order, fields, &[])
}

// An environment's certificate in another order, over clamped bits.
fn move_environment(
    alloc: Global,
    dd: &mut Manager,
    cert: &EnvCert,
    order: &[u32],
    fields: &[Field],
    ranks: &[u32],
) -> Result<EnvCert, AllocError>
    requires levels { dd.old.table.levels ≡ length order.now }
    requires ranks { RanksRise (length order.now) dd.old.table }
    requires count { length order.now < 2 ^ 32 }
    requires order { IsOrder (length order.now) order.now }
    requires fits { (goals fairs : ℕ) × FitsEnvironment (length order.now) goals fairs cert.now }
    requires places { HavePlaces (length order.now) fields.now }

    ensures { IfOk result (IsEnvironmentMoved order.now fields.now cert.now) }
{
    let levels = levels_by_place(alloc, order)?;
    let bits = clamped_bits(alloc, dd, levels.as_slice(), fields)?;
    let keys = environment_keys(alloc, cert.levels.as_slice())?;
    let ids = load_sets(
        alloc,
        dd,
        cert.nodes.as_slice(),
        cert.order.as_slice(),
        bits.as_slice(),
        keys.as_slice(),
        ranks,
    )?;
    renumber_environment(alloc, dd.store(), cert, ids.as_slice(), order)
}

// An environment's certificate from the diagrams of its ids.
fn renumber_environment(
    alloc: Global,
    store: &Store,
    cert: &EnvCert,
    ids: &[NodeId],
    order: &[u32],
) -> Result<EnvCert, AllocError>
    requires reduced { IsReduced store.now }
    requires levels { store.now.levels ≡ length order.now }
    requires ranks { RanksRise (length order.now) store.now }
    requires fits { (goals fairs : ℕ) × FitsEnvironment (length order.now) goals fairs cert.now }
    requires ids { AreIds store.now ids.now }
    requires count { length ids.now ≡ ids_of cert.now.nodes }

    ensures { (see : (ℕ → Bool) → ℕ → Bool) → AreKeyed store.now see cert.now.nodes
        (environment_keys cert.now.levels) ids.now
        → IfOk result (EnvironmentTold order.now see cert.now) }
{
    let mut kept = IndexSet::new(alloc);
    let mut nodes = Vec::new(alloc);
    let levels = place_levels(
        alloc,
        store,
        ids,
        &mut kept,
        &mut nodes,
        cert.levels.as_slice(),
    )?;
    let order = Vec::from_slice(alloc, order)?;
    Ok(EnvCert {
        order,
        nodes,
        levels,
    })
}
