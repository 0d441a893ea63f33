//! What the names of a body of an instance have as terms.
ghost use Rattle.std.specs.Prelude.{◌≡◌, Some, slice_get, unwrap_or};
ghost use Rattle.std.specs.Option.{option_and_then};
ghost use Rattle.tm_syntax.specs.declared.tree.Ident as spelled;
ghost use Rattle.tm_syntax.specs.Tree.View.{spec_tree};
ghost use Rattle.tm_syntax.specs.Scopes.Context.{Context};
ghost use Rattle.tm_syntax.specs.Scopes.Names.{constant_value};
ghost use Rattle.tm_syntax.specs.Scopes.Types.{array_length};
ghost use Rattle.tm_scope.specs.Types.{ty_of};
ghost use Rattle.tm_base.specs.Arithmetic as numbers;
ghost use Rattle.tm_typing.specs.HasType.{IsSized};
ghost use Rattle.tm_design.specs.Typed.{context_at};
ghost use Rattle.tm_flat_exprs.specs.Valued.{bits_in};

mod cells;
mod elements;
mod value;

use std::marker::Model;
use tm_design::type_bits;
use tm_scope::{CellScope, ExprType, Scopes, SiteBody};
use tm_syntax::tree::Ident;

/// A body of an instance, or what stands outside of the bodies of its template, as terms of its expressions are made.
///
/// Contracts see the tables and the body.
#[derive(Drop)]
pub struct TermReader<'s> {
    scope: CellScope<'s>,
    scopes: &'s Scopes<'s>,
    at: SiteBody,
}

impl<'s> Model for TermReader<'s> {
    ghost use Rattle.std.specs.Prelude.{◌≡◌};
    ghost use Rattle.std.specs.Coded.{codes};
    ghost use Rattle.tm_syntax.specs.contracts.tree.Spec as spec_contract;
    ghost use Rattle.tm_syntax.specs.contracts.design.Instance as instance_contract;
    ghost use Rattle.tm_syntax.specs.contracts.design.Var as var_contract;
    ghost use Rattle.tm_scope.specs.contracts.cells.site_body.SiteBody as body_contract;
    ghost use Rattle.tm_scope.specs.Cells.{ScopedCells};

    ghost Value = { ScopedCells };

    ghost view = { λ r. r.scope };

    ghost invariant = { λ r. (r.scope.at ≡ r.at) × (r.scopes.now ≡ r.scope.tables.spec) };

    ghost coded = { Prim.hlevel (
      codes,
      spec_contract.the_row.coded,
      instance_contract.the_row.coded,
      var_contract.the_row.coded,
      body_contract.the_row.coded,
    ) };
}

impl<'s> TermReader<'s> {
    /// A body of an instance, with the tables of the text.
    pub fn new(scope: CellScope<'s>, scopes: &'s Scopes<'s>, at: SiteBody) -> TermReader<'s>
        requires place { scope.at ≡ at }
        requires text { scopes.now ≡ scope.tables.spec }
        ensures { result ≡ scope.entry }
    {
        TermReader { scope, scopes, at }
    }

    /// The body, by whose tables cells are found.
    pub fn scope(&self) -> &CellScope<'s>
        ensures { result.now ≡ self.now }
    {
        &self.scope
    }

    /// The tables of the text.
    pub fn scopes(&self) -> &'s Scopes<'s>
        ensures { result.now ≡ self.now.tables.spec }
    {
        self.scopes
    }

    /// The instance and the body of its template.
    pub fn at(&self) -> SiteBody
        ensures { result ≡ self.now.at }
    {
        self.at
    }

    // The length of the array that a path means, 0 where there is none.
    fn length(&self, path: &[Ident]) -> u64
        ensures { (c : Context) → context_at self.now ≡ Some c → result ≡ unwrap_or (array_length c path.now) 0 }
    {
        self.scope.array_length(path).unwrap_or(0)
    }

    // The bits of a type that numbers can have.
    fn bits(&self, ty: ExprType<'_>) -> u8
        requires { IsSized (ty_of ty) }
        ensures bits { result ≡ bits_in self.now (ty_of ty.entry) }
        ensures is_width { numbers.IsWidth result }
    {
        type_bits(self.scopes, ty)
    }

    // The value of the enum constant that the first name of a path is, 0 where it is none.
    fn constant(&self, path: &[Ident]) -> u64
        ensures { result ≡ unwrap_or (option_and_then (λ (name : spelled.Ident).
            constant_value (spec_tree self.now.tables.spec) name.text) (slice_get path.now 0)) 0 }
    {
        match path.first() {
            Some(name) => match self.scopes.constant_value(name.text.as_bytes()) {
                Some(value) => value as u64,
                None => 0,
            },
            None => 0,
        }
    }
}
