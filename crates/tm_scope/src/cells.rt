//! Where the values of a design are: what each path of a body means.

mod find;
mod kept;
mod scope;
mod site_body;
mod tables;
mod types;

pub use kept::{ordered_tasks_are_pausing, task_is_kept};
pub use scope::CellScope;
pub use site_body::{CellNumber, SiteBody};
pub use tables::Cells;
