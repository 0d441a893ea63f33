//! Tasks of instances and slots of bodies, by numbers.

/// A task or procedure of an instance: the number of the instance, and the index of the task in its template.
#[derive(Clone, Copy, PartialEq, Eq, Hash, Debug)]
pub struct SiteTask {
    pub instance: u32,
    pub index: usize,
}

/// A parameter or a local of a body, by its index.
#[derive(Clone, Copy, PartialEq, Eq, Hash, Debug)]
pub enum SlotNumber {
    Param(usize),
    Local(usize),
}
