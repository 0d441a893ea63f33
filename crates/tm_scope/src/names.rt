//! Names found by tables.

mod directory;
mod has_name;
mod name_key;

pub use directory::Directory;
pub(crate) use has_name::HasName;
pub use name_key::NameKey;
