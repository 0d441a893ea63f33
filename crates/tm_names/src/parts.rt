//! The parts of a text in lists, so that each kind of fault is looked for part by part.

mod asked;
mod bodies;
mod exprs;
mod has_type;
mod site;
mod stmts;
mod types;

pub use asked::{Asked, ExprPart};
pub use bodies::{BodyPart, body_exprs, template_bodies};
pub use site::Site;
pub use stmts::all_stmts;
pub use types::template_types;
