//! What the names of a body of an instance have as values.
ghost use Rattle.std.specs.Prelude.{◌≡◌, Some, slice_get, unwrap_or};
ghost use Rattle.std.specs.Option.{option_and_then, option_map};
ghost use Rattle.tm_syntax.specs.declared.tree.Ident as spelled;
ghost use Rattle.tm_syntax.specs.Tree.View.{spec_tree};
ghost use Rattle.tm_syntax.specs.Scopes.Context.{Context};
ghost use Rattle.tm_syntax.specs.Scopes.Names.{constant_value};
ghost use Rattle.tm_syntax.specs.Scopes.Types.{array_length};
ghost use Rattle.tm_syntax.specs.Design.Cells.{cell};
ghost use Rattle.tm_scope.specs.Cells.{scope_of};
ghost use Rattle.tm_sem.specs.Value.{read};
ghost use Rattle.tm_design.specs.Typed.{context_at};
ghost use Rattle.tm_plain_exprs.specs.Valued.{Told};

mod cells;
mod conditions;
mod parameters;
mod sizes;
mod types;
mod value;

use crate::store::Store;
use std::marker::Model;
use tm_scope::{CellScope, Scopes, SiteBody};
use tm_syntax::tree::Ident;

/// A body of an instance, or what stands outside of the bodies of its template, as its expressions are valued.
///
/// Contracts see the tables and the body.
#[derive(Drop)]
pub struct Reader<'a> {
    scope: CellScope<'a>,
    scopes: &'a Scopes<'a>,
    at: SiteBody,
}

impl<'a> Model for Reader<'a> {
    ghost use Rattle.std.specs.Prelude.{◌≡◌};
    ghost use Rattle.std.specs.Coded.{codes};
    ghost use Rattle.tm_syntax.specs.contracts.tree.Spec as spec_contract;
    ghost use Rattle.tm_syntax.specs.contracts.design.Instance as instance_contract;
    ghost use Rattle.tm_syntax.specs.contracts.design.Var as var_contract;
    ghost use Rattle.tm_scope.specs.contracts.cells.site_body.SiteBody as body_contract;
    ghost use Rattle.tm_scope.specs.Cells.{ScopedCells};

    ghost Value = { ScopedCells };

    ghost view = { λ r. r.scope };

    ghost invariant = { λ r. (r.scope.at ≡ r.at) × (r.scopes.now ≡ r.scope.tables.spec) };

    ghost coded = { Prim.hlevel (
      codes,
      spec_contract.the_row.coded,
      instance_contract.the_row.coded,
      var_contract.the_row.coded,
      body_contract.the_row.coded,
    ) };
}

impl<'a> Reader<'a> {
    /// A body of an instance, with the tables of the text.
    pub fn new(scope: CellScope<'a>, scopes: &'a Scopes<'a>, at: SiteBody) -> Reader<'a>
        requires place { scope.at ≡ at }
        requires text { scopes.now ≡ scope.tables.spec }
        ensures { result ≡ scope.entry }
    {
        Reader { scope, scopes, at }
    }

    /// The body of an instance.
    pub fn at(&self) -> SiteBody
        ensures { result ≡ self.now.at }
    {
        self.at
    }

    /// The length of the array that a path means, 0 where there is none.
    pub(crate) fn length(&self, path: &[Ident]) -> u64
        ensures { (c : Context) → context_at self.now ≡ Some c → result ≡ unwrap_or (array_length c path.now) 0 }
    {
        self.scope.array_length(path).unwrap_or(0)
    }

    /// The value in the cell that a path means, with the index of an element where there is one. Linear in the path.
    pub(crate) fn cell_value(
        &self,
        store: &Store,
        path: &[Ident],
        index: Option<u64>,
    ) -> Option<u64>
        ensures { (of : Told self.now store.now) → result
            ≡ option_map (read of.memory) (cell of.design (scope_of self.now.at) path.now index) }
    {
        match self.scope.cell(path, index) {
            Some(cell) => Some(store.read(self.at, cell)),
            None => None,
        }
    }

    /// The value of the enum constant that the first name of a path is, 0 where it is none.
    pub(crate) fn constant(&self, path: &[Ident]) -> u64
        ensures { result ≡ unwrap_or (option_and_then (λ (name : spelled.Ident).
            constant_value (spec_tree self.now.tables.spec) name.text) (slice_get path.now 0)) 0 }
    {
        match path.first() {
            Some(name) => match self.scopes.constant_value(name.text.as_bytes()) {
                Some(value) => value as u64,
                None => 0,
            },
            None => 0,
        }
    }
}
