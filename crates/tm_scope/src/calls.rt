//! Which tasks reach each other by calls, which may pause, and which are sure to cross a location.

mod bodies;
mod callees;
mod crossing;
mod marks;
mod order;
mod ordered;
mod pausing;
mod reaching;
mod task_set;

pub use bodies::{body_crosses, body_pauses};
pub use crossing::{row_crosses, stmt_crosses};
pub use marks::CallMarks;
pub use order::{calls_in_order_settle, tasks_tell_calls};
pub use ordered::{crossing_tasks, pausing_tasks};
pub use pausing::{row_pauses, stmt_pauses};
pub use reaching::{call_order, looping_tasks};
pub use task_set::TaskSet;
