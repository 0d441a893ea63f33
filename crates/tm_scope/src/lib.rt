//! Finds by tables what the names, types and calls of a specification mean, as its definitions say.
#![tactic(auto)]

mod calls;
mod cells;
mod context;
mod graph;
mod members;
mod names;
mod scopes;
mod sites;
mod types;
mod variables;

pub use calls::{
    CallMarks, TaskSet, body_crosses, body_pauses, call_order, calls_in_order_settle,
    crossing_tasks, looping_tasks, pausing_tasks, row_crosses, row_pauses, stmt_crosses,
    stmt_pauses, tasks_tell_calls,
};
pub use cells::{CellNumber, CellScope, Cells, SiteBody, ordered_tasks_are_pausing, task_is_kept};
pub use context::BodyName;
pub use graph::{Walked, walk_graph};
pub use members::{SiteTask, SlotNumber};
pub use names::{Directory, NameKey};
pub use scopes::{
    BodyScope, Scopes, numbers_lead_where_tasks_are, numbers_lead_where_templates_do,
    numbers_lead_where_variables_are,
};
pub use sites::{Sites, sites_depend_on_instances_alone};
pub use types::ExprType;
pub use variables::{VariablePath, Variables};
