//! A body of an instance, by whose tables cells are found.
ghost use Rattle.std.specs.Prelude.{◌≡◌, IfSome, Some, false};
ghost use Rattle.std.specs.Option.{option_and_then, option_map_or};
ghost use Rattle.tm_syntax.specs.Scopes.Context.{Frame, Slot, slot_of};
ghost use Rattle.tm_syntax.specs.Design.{DesignTree};
ghost use Rattle.tm_syntax.specs.Design.Scope.{context};
ghost use Rattle.tm_scope.specs.Cells.{HasCells, frame_in, scope_of, slot_in, slots_in};
ghost use Rattle.tm_scope.specs.Inner.Slots.{slot_number};

use crate::cells::site_body::SiteBody;
use crate::cells::tables::Cells;
use crate::members::SlotNumber;
use crate::scopes::BodyScope;
use std::marker::Model;
use tm_syntax::design::Instance;
use tm_syntax::tree::Ident;

/// A body of an instance, or what stands outside of the bodies of its template, with the tables of the design.
///
/// Contracts see the tables and the body.
#[derive(Drop)]
pub struct CellScope<'s> {
    pub(crate) cells: &'s Cells<'s>,
    pub(crate) at: SiteBody,
    pub(crate) node: &'s Instance,
    pub(crate) names: BodyScope<'s>,
    pub(crate) name: &'s [u8],
    pub(crate) kept: bool,
}

impl<'s> Model for CellScope<'s> {
    ghost use Rattle.std.specs.Coded.{codes};
    ghost use Rattle.tm_syntax.specs.contracts.tree.Spec as spec_contract;
    ghost use Rattle.tm_syntax.specs.contracts.design.Instance as instance_contract;
    ghost use Rattle.tm_syntax.specs.contracts.design.Var as var_contract;
    ghost use Rattle.tm_scope.specs.contracts.cells.site_body.SiteBody as body_contract;
    ghost use Rattle.tm_scope.specs.Cells.{ScopedCells};
    ghost use Rattle.tm_scope.specs.Inner.CellScopes.{IsCellScope};

    ghost Value = { ScopedCells };

    ghost view = { λ s. record { tables = s.cells.now; at = s.at } };

    ghost invariant = { λ s. IsCellScope s.cells.now s.at s.node.now s.names s.name.now s.kept };

    ghost coded = { Prim.hlevel (
      codes,
      spec_contract.the_row.coded,
      instance_contract.the_row.coded,
      var_contract.the_row.coded,
      body_contract.the_row.coded,
    ) };
}

impl<'s> CellScope<'s> {
    /// The parameter or local that a path of one name means.
    pub fn slot_of(&self, path: &[Ident]) -> Option<SlotNumber>
        ensures slot { (d : DesignTree) → HasCells self.now.tables d →
            option_and_then (slot_in self.now.tables self.now.at) result
            ≡ option_and_then (λ c. slot_of c path.now) (context d (scope_of self.now.at)) }
        ensures is_there { IfSome result (λ n. (s : Slot) × (slot_in self.now.tables self.now.at n ≡ Some s)) }
    {
        let _cells = &self.cells;
        let [name] = path else {
            return None;
        };
        self.slot_named(name.text.as_bytes())
    }

    // The parameter or local of a name.
    fn slot_named(&self, name: &[u8]) -> Option<SlotNumber>
        ensures { result ≡ option_and_then (λ body. slot_number body name.now) (slots_in self.now.tables self.now.at) }
    {
        self.names.slot_named(name)
    }

    /// Whether the parameters and locals of the body are kept in the state. Outside of all bodies none are.
    pub fn is_kept(&self) -> bool
        ensures { (d : DesignTree) → HasCells self.now.tables d →
            result ≡ option_map_or (λ (f : Frame). f.kept) (frame_in d self.now.at) false }
    {
        let _node = &self.node;
        self.kept
    }
}
