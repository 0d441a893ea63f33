//! The atoms that have been noted, each once.
ghost use Rattle.std.specs.Prelude.{◌≡◌, ◌∷◌, [], IfSome, OnOk, Some};
ghost use Rattle.std.specs.Option.{option_map};
ghost use Rattle.tm_syntax.specs.Tree.View.{expr_tree};
ghost use Rattle.tm_syntax.specs.Design.{DesignTree};
ghost use Rattle.tm_syntax.specs.Design.Atoms.{compares_bools, expr_atoms, resolved_atom};
ghost use Rattle.tm_syntax.specs.Design.Scope.{type_in};
ghost use Rattle.tm_syntax.specs.Scopes.Types.{either_type};
ghost use Rattle.tm_scope.specs.Cells.{HasCells, scope_of};
ghost use Rattle.tm_scope.specs.Types.{ty_of};
ghost use Rattle.tm_atoms.specs.Atoms.{atom_of};
ghost use Rattle.tm_atoms.specs.Inner.Numbers.{IsNumbered, IsSound};
ghost use Rattle.tm_atoms.specs.Inner.Pools.{Adds, is_whole, pool_of};

use crate::atom::AtomAt;
use crate::resolved::Numbered;
use crate::table::NodeTable;
use indexmap::IndexMap;
use std::alloc::{AllocError, Global};
use tm_scope::{CellScope, ExprType, SiteBody};
use tm_syntax::tree::{BinaryOperator, Expr};

// The atoms that have been noted, by the numbers of their resolved expressions, in the order in which they were noted.
#[derive(Drop)]
pub(crate) struct Pool<'t> {
    pub table: NodeTable<'t>,
    pub atoms: IndexMap<usize, AtomAt<'t>>,
}

impl<'t> Pool<'t> {
    // No atom.
    pub(crate) fn new(alloc: Global) -> Pool<'t>
        ensures { pool_of result ≡ record { numbers = record { names = []; nodes = [] }; atoms = [] } }
    {
        Pool {
            table: NodeTable::new(alloc),
            atoms: IndexMap::new(alloc),
        }
    }

    // The atoms that have been noted.
    pub(crate) fn into_atoms(self) -> IndexMap<usize, AtomAt<'t>>
        ensures { result.entries ≡ self.entry.atoms.entries }
    {
        drop(self.table);
        self.atoms
    }

    // Notes the atoms of a bool expression of a scope, if that is there.
    pub(crate) fn note_within(
        &mut self,
        scope: &Option<CellScope>,
        at: SiteBody,
        e: &'t Expr,
    ) -> Result<(), AllocError>
        requires { IfSome scope.now (λ s. s.at ≡ at) }
        ensures { OnOk result (IfSome scope.now (λ s. (d : DesignTree) → HasCells s.tables d →
            Adds d (pool_of self.old) (pool_of self.new) (expr_atoms d (scope_of at) (expr_tree e.now)))) }
    {
        match scope {
            Some(scope) => self.note_atoms(scope, at, e),
            None => Ok(()),
        }
    }

    // Notes the atoms of a bool expression of a scope. Linear in the expression, and in its height where comparisons
    // lie within comparisons.
    fn note_atoms(&mut self, scope: &CellScope, at: SiteBody, e: &'t Expr) -> Result<(), AllocError>
        requires { scope.now.at ≡ at }
        ensures { OnOk result ((d : DesignTree) → HasCells scope.now.tables d →
            Adds d (pool_of self.old) (pool_of self.new) (expr_atoms d (scope_of at) (expr_tree e.now))) }
    {
        match e {
            Expr::Truth(_, _) => Ok(()),
            Expr::Number(_) => Ok(()),
            Expr::Path(_) => self.note(scope, at, e),
            Expr::Group(_, e) => self.note_atoms(scope, at, e),
            Expr::Unary(_, _, e) => self.note_atoms(scope, at, e),
            Expr::Binary(_, op, a, b) => {
                if joins_whole(scope, *op, a, b) {
                    self.note(scope, at, e)
                } else {
                    self.note_atoms(scope, at, a)?;
                    self.note_atoms(scope, at, b)
                }
            }
            Expr::Shift(_, _, _, _) => Ok(()),
            Expr::Conditional(_, e, a, b) => {
                self.note_atoms(scope, at, e)?;
                self.note_atoms(scope, at, a)?;
                self.note_atoms(scope, at, b)
            }
            Expr::Cast(_, _, _) => Ok(()),
            Expr::Element(_, _) => self.note(scope, at, e),
        }
    }

    // Notes an atom, unless it lives for one step or has been noted.
    fn note(&mut self, scope: &CellScope, at: SiteBody, e: &'t Expr) -> Result<(), AllocError>
        requires { scope.now.at ≡ at }
        ensures { OnOk result ((d : DesignTree) → HasCells scope.now.tables d →
            Adds d (pool_of self.old) (pool_of self.new)
            (record { scope = scope_of at; expr = expr_tree e.now } ∷ [])) }
    {
        let numbered = self.table.expr(scope, e)?;
        self.keep(numbered, AtomAt { scope: at, expr: e })
    }

    // Keeps an atom of a number, unless it lives for one step or has been noted.
    fn keep(&mut self, numbered: Numbered, atom: AtomAt<'t>) -> Result<(), AllocError>
        ensures { OnOk result ((d : DesignTree) →
            IsSound (pool_of self.old).numbers →
            IsNumbered (pool_of self.old).numbers numbered (resolved_atom d (atom_of atom.entry)) →
            Adds d (pool_of self.old) (pool_of self.new) (atom_of atom.entry ∷ [])) }
    {
        if numbered.lasting && self.atoms.get(&numbered.number).is_none() {
            self.atoms.insert(numbered.number, atom)?;
        }
        Ok(())
    }
}

// Whether two expressions that an operator joins to a bool are one atom together.
fn joins_whole(scope: &CellScope, operator: BinaryOperator, a: &Expr, b: &Expr) -> bool
    ensures { (d : DesignTree) → HasCells scope.now.tables d → result ≡ is_whole operator (either_type
        (type_in d (scope_of scope.now.at) (expr_tree a.now)) (type_in d (scope_of scope.now.at) (expr_tree b.now))) }
{
    match operator {
        BinaryOperator::AndAlso | BinaryOperator::OrElse => false,
        BinaryOperator::Equal | BinaryOperator::NotEqual => !compares_bools(scope, a, b),
        BinaryOperator::Less
        | BinaryOperator::LessEqual
        | BinaryOperator::Greater
        | BinaryOperator::GreaterEqual
        | BinaryOperator::Add
        | BinaryOperator::Subtract
        | BinaryOperator::And
        | BinaryOperator::Or
        | BinaryOperator::Xor => true,
    }
}

// Whether two expressions that are compared are bools.
fn compares_bools(scope: &CellScope, a: &Expr, b: &Expr) -> bool
    ensures { (d : DesignTree) → HasCells scope.now.tables d → result ≡ compares_bools (either_type
        (type_in d (scope_of scope.now.at) (expr_tree a.now)) (type_in d (scope_of scope.now.at) (expr_tree b.now))) }
{
    match scope.own_type(a) {
        Some(ty) => is_bool(ty),
        None => is_some_bool(scope.own_type(b)),
    }
}

// Whether a type that may be there is the bool.
fn is_some_bool(ty: Option<ExprType<'_>>) -> bool
    ensures { result ≡ compares_bools (option_map ty_of ty.entry) }
{
    match ty {
        Some(ty) => is_bool(ty),
        None => false,
    }
}

// Whether a type is the bool.
fn is_bool(ty: ExprType<'_>) -> bool
    ensures { result ≡ compares_bools (Some (ty_of ty.entry)) }
{
    match ty {
        ExprType::Bool => true,
        ExprType::Uint(_) => false,
        ExprType::Enum(_) => false,
    }
}
