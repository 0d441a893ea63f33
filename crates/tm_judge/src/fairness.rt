//! How many fairness conditions a design has.
ghost use Rattle.std.specs.Prelude.{◌≡◌, length};
ghost use Rattle.tm_syntax.specs.Design.View.{design_tree};
ghost use Rattle.tm_syntax.specs.Faults.{IsSound};
ghost use Rattle.tm_sem.specs.Fairness.{conditions, owed};

use tm_flat_states::is_owed;
use tm_syntax::design::Design;

// How many processes are owed their turns.
fn owed_count(design: &Design) -> u32
    requires { IsSound (design_tree design.now) }
    ensures { result ≡ length (owed (design_tree design.now)) }
{
    let mut count = 0;
    for process in &design.processes {
        count += is_owed(design, process) as u32;
    }
    count
}

/// How many fairness conditions a design has: the driver's, those of the processes that are not lazy, and the declared
/// ones. Linear in the processes, and takes no memory.
pub(crate) fn condition_count(design: &Design) -> u32
    requires { IsSound (design_tree design.now) }
    ensures { result ≡ length (conditions (design_tree design.now)) }
{
    1 + owed_count(design) + design.fairs.len() as u32
}
