//! A fault at a name.

use tm_base::Place;

/// A fault at a name, which it tells.
#[derive(Clone, Copy)]
pub struct NameMark<'a> {
    pub place: Place,
    pub name: &'a [u8],
}
