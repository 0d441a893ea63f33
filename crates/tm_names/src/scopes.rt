//! The scopes of a text, and the names that are declared twice in one of them.

mod mark;
mod names;
mod scope;
mod text_scopes;

pub use mark::NameMark;
pub(crate) use names::Names;
pub(crate) use scope::Scope;
pub use scope::earlier_mark;
pub(crate) use text_scopes::TemplateScopes;
pub use text_scopes::TextScopes;
