//! An expression with the type that its place asks for.

use tm_scope::ExprType;
use tm_syntax::tree::{Expr, Path};

/// An expression of a text: one that stands there whole, or the element of an array that is assigned.
#[derive(Clone, Copy)]
pub enum ExprPart<'a> {
    Whole(&'a Expr),
    Element(&'a Path, &'a Expr),
}

/// An expression, with the type that its place asks for, if it asks for one.
#[derive(Clone, Copy)]
pub struct Asked<'a> {
    pub ty: Option<ExprType<'a>>,
    pub expr: ExprPart<'a>,
}
