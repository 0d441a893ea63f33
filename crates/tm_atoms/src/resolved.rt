//! The numbers of resolved expressions.
ghost use Rattle.std.specs.Prelude.{◌≡◌, ◌&&◌, IfOk, Some};
ghost use Rattle.tm_syntax.specs.Tree.View.{expr_tree};
ghost use Rattle.tm_syntax.specs.Scopes.Names.{last_name};
ghost use Rattle.tm_syntax.specs.Design.{DesignTree};
ghost use Rattle.tm_syntax.specs.Design.Atoms.{Resolved, a_constant, first_element, is_lasting, resolved, resolved_cell};
ghost use Rattle.tm_syntax.specs.Design.Cells.{cell};
ghost use Rattle.tm_scope.specs.Cells.{HasCells, scope_of};
ghost use Rattle.tm_atoms.specs.Inner.Numbers.{HasNumber, IsNode, literal};

use crate::node::{Node, binary_operator, shift_operator, unary_operator};
use crate::table::NodeTable;
use std::alloc::AllocError;
use tm_scope::{CellNumber, CellScope};
use tm_syntax::tree::{Expr, Ident};

/// The number of a resolved expression, and whether nothing in it lives for one step.
#[derive(Clone, Copy)]
pub(crate) struct Numbered {
    pub number: usize,
    pub lasting: bool,
}

impl<'t> NodeTable<'t> {
    /// The number of an expression of a scope, resolved: a new one where it has none. Linear in the expression, and as
    /// deep as it nests. `AllocError` is want of memory.
    pub(crate) fn expr(&mut self, scope: &CellScope, e: &'t Expr) -> Result<Numbered, AllocError>
        ensures { IfOk result (λ n. (d : DesignTree) → HasCells scope.now.tables d →
            HasNumber self.old self.new n (resolved d (scope_of scope.now.at) (expr_tree e.now))) }
    {
        match e {
            Expr::Truth(_, truth) => self.noted(Node::Truth(*truth), true),
            Expr::Number(number) => self.noted(Node::Number(number.value.unwrap_or(0)), true),
            Expr::Path(path) => self.cell(scope, path.names.as_slice(), None),
            Expr::Group(_, e) => self.expr(scope, e),
            Expr::Unary(_, op, e) => {
                let e = self.expr(scope, e)?;
                self.noted(Node::Unary(unary_operator(*op), e.number), e.lasting)
            }
            Expr::Binary(_, op, a, b) => {
                let a = self.expr(scope, a)?;
                let b = self.expr(scope, b)?;
                let node = Node::Binary(binary_operator(*op), a.number, b.number);
                self.noted(node, both(a.lasting, b.lasting))
            }
            Expr::Shift(_, op, e, by) => {
                let e = self.expr(scope, e)?;
                let node = Node::Shift(shift_operator(*op), e.number, by.value.unwrap_or(0));
                self.noted(node, e.lasting)
            }
            Expr::Conditional(_, e, a, b) => {
                let e = self.expr(scope, e)?;
                let a = self.expr(scope, a)?;
                let b = self.expr(scope, b)?;
                let node = Node::Conditional(e.number, a.number, b.number);
                self.noted(node, both(both(e.lasting, a.lasting), b.lasting))
            }
            Expr::Cast(_, to, e) => {
                let e = self.expr(scope, e)?;
                self.noted(Node::Cast(to.value.unwrap_or(0), e.number), e.lasting)
            }
            Expr::Element(path, index) => match literal(index) {
                Some(k) => self.cell(scope, path.names.as_slice(), Some(k)),
                None => {
                    let index = self.expr(scope, index)?;
                    let first = first_element(scope, path.names.as_slice());
                    self.noted(Node::Element(first, index.number), index.lasting)
                }
            },
        }
    }

    // The number of a node, with whether nothing in it lives for one step.
    fn noted(&mut self, node: Node, lasting: bool) -> Result<Numbered, AllocError>
        ensures { IfOk result (λ n. (r : Resolved) → IsNode self.old node r → lasting ≡ is_lasting r →
            HasNumber self.old self.new n r) }
    {
        let number = self.node(node)?;
        Ok(Numbered { number, lasting })
    }

    // The number of what a path means that may be a constant.
    fn cell(
        &mut self,
        scope: &CellScope,
        path: &'t [Ident],
        index: Option<u64>,
    ) -> Result<Numbered, AllocError>
        ensures { IfOk result (λ n. (d : DesignTree) → HasCells scope.now.tables d → HasNumber self.old self.new n
            (resolved_cell (cell d (scope_of scope.now.at) path.now index) (last_name path.now))) }
    {
        match scope.cell(path, index) {
            None => self.constant(last_name(path)),
            Some(CellNumber::State(number)) => self.noted(Node::Variable(number), true),
            Some(CellNumber::Step(_)) => self.noted(Node::Step, false),
        }
    }

    // The number of the constant of a name.
    fn constant(&mut self, name: &'t [u8]) -> Result<Numbered, AllocError>
        ensures { IfOk result (λ n. HasNumber self.old self.new n (a_constant name.now)) }
    {
        let number = self.name(name)?;
        self.noted(Node::Constant(number), true)
    }
}

// Whether both of two tests pass.
fn both(a: bool, b: bool) -> bool
    ensures { result ≡ a && b }
{
    a && b
}

// The number of the first element of an array.
fn first_element(scope: &CellScope, path: &[Ident]) -> usize
    ensures { (d : DesignTree) → HasCells scope.now.tables d →
        result ≡ first_element (cell d (scope_of scope.now.at) path.now (Some 0)) }
{
    match scope.cell(path, Some(0)) {
        None => 0,
        Some(CellNumber::State(number)) => number,
        Some(CellNumber::Step(_)) => 0,
    }
}

// The value of an expression that is a number.
fn literal(e: &Expr) -> Option<u64>
    ensures { result ≡ literal (expr_tree e.now) }
{
    match e {
        Expr::Number(number) => Some(number.value.unwrap_or(0)),
        Expr::Truth(_, _) => None,
        Expr::Path(_) => None,
        Expr::Group(_, _) => None,
        Expr::Unary(_, _, _) => None,
        Expr::Binary(_, _, _, _) => None,
        Expr::Shift(_, _, _, _) => None,
        Expr::Conditional(_, _, _, _) => None,
        Expr::Cast(_, _, _) => None,
        Expr::Element(_, _) => None,
    }
}

// The bytes of the last name of a path, none of an empty one.
fn last_name(path: &[Ident]) -> &[u8]
    ensures { result.now ≡ last_name path.now }
{
    match path {
        [] => &[],
        [.., last] => last.text.as_bytes(),
    }
}
