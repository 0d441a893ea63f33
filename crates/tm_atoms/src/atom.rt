//! Atoms, as the code has them.

use tm_scope::SiteBody;
use tm_syntax::tree::Expr;

/// An atom of a design's conditions: a bool variable, a bool element or a comparison, and the body of the instance in
/// which it stands. Goals and fairness conditions stand outside of all bodies.
#[derive(Clone, Copy)]
pub struct AtomAt<'t> {
    pub scope: SiteBody,
    pub expr: &'t Expr,
}
