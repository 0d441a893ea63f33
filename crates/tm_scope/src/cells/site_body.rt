//! Bodies of instances, and numbers of cells.

use crate::context::BodyName;
use crate::members::SlotNumber;

/// A body of an instance, or what stands outside of the bodies of its template.
#[derive(Clone, Copy, PartialEq, Eq, Hash, Debug)]
pub struct SiteBody {
    pub instance: u32,
    pub body: BodyName,
}

/// Where a value is: in the state variable of a number, or in a parameter or local that lives for one step, of the body
/// that asks.
#[derive(Clone, Copy, PartialEq, Eq, Hash, Debug)]
pub enum CellNumber {
    State(usize),
    Step(SlotNumber),
}
