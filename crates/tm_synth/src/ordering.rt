//! Certificates in another order of the bits of states.
ghost use Rattle.std.specs.Prelude.{◌≡◌, ◌<◌, ◌^◌, ℕ, IfOk, length, map, sum};
ghost use Rattle.tm_agreement.specs.Agreement.{DriversAgree, LevelsAgree};
ghost use Rattle.tm_dd.specs.Reduced.{RanksRise};
ghost use Rattle.tm_game_bits.specs.Order.{IsOrder};
ghost use Rattle.tm_reorder.specs.Fields.{AreFields};
ghost use Rattle.tm_sem.specs.StateBits.{state_widths};
ghost use Rattle.tm_syntax.specs.Design.View.{design_tree};
ghost use Rattle.tm_syntax.specs.Faults.{IsOfText, IsSound};
ghost use Rattle.tm_verdict.specs.Fitting.{FitsDriver, FitsEnvironment};
ghost use Rattle.tm_verdict.specs.Sets.{driver_sets, levels_of};

use std::alloc::{AllocError, Global};
use tm_cert::{DriverCert, EnvCert};
use tm_ddops::Manager;
use tm_orders::fields_of;
use tm_reorder::{Field, clamp_driver, clamp_environment};
use tm_syntax::design::Design;

// The fields of a design, and a manager of as many levels as an order has.
fn fields_and_manager(
    alloc: Global,
    design: &Design,
    order: &[u32],
) -> Result<(Vec<Field>, Manager), AllocError>
    requires sound { IsSound (design_tree design.now) }
    requires of_text { IsOfText (design_tree design.now).spec }
    requires count { length order.now < 2 ^ 32 }
    ensures fields { IfOk result (λ made. AreFields (design_tree design.now) made.0.items) }
    ensures levels { IfOk result (λ made. made.1.table.levels ≡ length order.now) }
    ensures ranks { IfOk result (λ made. RanksRise (length order.now) made.1.table) }
{
    match fields_of(alloc, design) {
        Ok(fields) => match Manager::new(alloc, order.len() as u32) {
            Ok(dd) => Ok((fields, dd)),
            Err(error) => {
                drop(fields);
                Err(error)
            }
        },
        Err(error) => Err(error),
    }
}

// A driver's certificate in another order: sets that hold the same valid states, with no test of which states are
// valid.
pub(crate) fn driver_in_order(
    alloc: Global,
    design: &Design,
    cert: &DriverCert,
    order: &[u32],
) -> Result<DriverCert, AllocError>
    requires sound { IsSound (design_tree design.now) }
    requires of_text { IsOfText (design_tree design.now).spec }
    requires bits { sum (state_widths (design_tree design.now)) ≡ length order.now }
    requires count { length order.now < 2 ^ 32 }
    requires order { IsOrder (length order.now) order.now }
    requires fits { (goals fairs : ℕ) × FitsDriver (length order.now) goals fairs cert.now }
    ensures order { IfOk result (λ c. c.order ≡ order.now) }
    ensures sets { IfOk result (λ c. DriversAgree (design_tree design.now)
        (driver_sets (design_tree design.now) c) (driver_sets (design_tree design.now) cert.now)) }
    ensures ranks { IfOk result (λ c. map length c.goals ≡ map length cert.now.goals) }
    ensures fits { IfOk result (λ c. (goals fairs : ℕ) → FitsDriver (length order.now) goals fairs cert.now
        → FitsDriver (length order.now) goals fairs c) }
{
    match fields_and_manager(alloc, design, order) {
        Ok((fields, mut dd)) => {
            let moved = clamp_driver(alloc, &mut dd, cert, order, fields.as_slice());
            drop(dd);
            drop(fields);
            moved
        }
        Err(error) => Err(error),
    }
}

// So for the environment's.
pub(crate) fn environment_in_order(
    alloc: Global,
    design: &Design,
    cert: &EnvCert,
    order: &[u32],
) -> Result<EnvCert, AllocError>
    requires sound { IsSound (design_tree design.now) }
    requires of_text { IsOfText (design_tree design.now).spec }
    requires bits { sum (state_widths (design_tree design.now)) ≡ length order.now }
    requires count { length order.now < 2 ^ 32 }
    requires order { IsOrder (length order.now) order.now }
    requires fits { (goals fairs : ℕ) × FitsEnvironment (length order.now) goals fairs cert.now }
    ensures order { IfOk result (λ c. c.order ≡ order.now) }
    ensures sets { IfOk result (λ c. LevelsAgree (design_tree design.now) (levels_of (design_tree design.now) c)
        (levels_of (design_tree design.now) cert.now)) }
    ensures fits { IfOk result (λ c. (goals fairs : ℕ) → FitsEnvironment (length order.now) goals fairs cert.now
        → FitsEnvironment (length order.now) goals fairs c) }
{
    match fields_and_manager(alloc, design, order) {
        Ok((fields, mut dd)) => {
            let moved = clamp_environment(alloc, &mut dd, cert, order, fields.as_slice());
            drop(dd);
            drop(fields);
            moved
        }
        Err(error) => Err(error),
    }
}
