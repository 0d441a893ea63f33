//! A body of a template with the tables by which its names are found.
ghost use Rattle.std.specs.Prelude.{◌≡◌, ◌<◌, Some, length, slice_get};
ghost use Rattle.std.specs.Option.{option_and_then, option_copied, option_map};
ghost use Rattle.tm_syntax.specs.Tree.View.{expr_tree, spec_tree, var_tree};
ghost use Rattle.tm_syntax.specs.Scopes.Context.{slot_of, variable_of};
ghost use Rattle.tm_syntax.specs.Scopes.Types.{array_length, constant_type, either_type, named_type, own_type};
ghost use Rattle.tm_scope.specs.Context.{context_of};
ghost use Rattle.tm_scope.specs.Inner.Slots.{slot_number};
ghost use Rattle.tm_scope.specs.Members.{body_slots, slot_at};
ghost use Rattle.tm_scope.specs.Types.{ty_of};

use crate::context::BodyName;
use crate::members::SlotNumber;
use crate::scopes::body_names::BodyNames;
use crate::scopes::scope::Scopes;
use crate::scopes::template_scope::TemplateScope;
use crate::types::{ExprType, either_type, joins_numbers};
use std::marker::Model;
use tm_syntax::tree::{Expr, Ident, UnaryOperator, VarDef};

/// Where names and expressions stand: in a body of a template, or outside of all its bodies.
///
/// Contracts see the specification, the template and the body.
#[derive(Drop)]
pub struct BodyScope<'s> {
    scopes: &'s Scopes<'s>,
    number: usize,
    template: &'s TemplateScope<'s>,
    body: BodyName,
    names: Option<&'s BodyNames<'s>>,
}

impl<'s> Model for BodyScope<'s> {
    ghost use Rattle.std.specs.Coded.{codes};
    ghost use Rattle.tm_syntax.specs.contracts.tree.Spec as spec_contract;
    ghost use Rattle.tm_syntax.specs.contracts.tree.Template as template_contract;
    ghost use Rattle.tm_scope.specs.Context.{BodyPlace};
    ghost use Rattle.tm_scope.specs.Inner.BodyTables.{IsWithin};

    ghost Value = { BodyPlace };

    ghost view = { λ b. record { spec = b.scopes.now; template = b.template.now; body = b.body } };

    ghost invariant = { λ b. IsWithin b.scopes.now b.number b.template.now b.body b.names };

    ghost coded = { Prim.hlevel (codes, spec_contract.the_row.coded, template_contract.the_row.coded) };
}

impl<'a> Scopes<'a> {
    /// A body of the template of a number, or what stands outside of its bodies.
    pub fn body_scope(&self, template: usize, body: BodyName) -> BodyScope<'_>
        requires { template < length self.now.templates.items }
        ensures spec { result.spec ≡ self.now }
        ensures template { slice_get self.now.templates.items template ≡ Some result.template }
        ensures body { result.body ≡ body }
    {
        let scope = &self.templates[template];
        BodyScope {
            scopes: self,
            number: template,
            template: scope,
            body,
            names: scope.body(body),
        }
    }
}

impl<'s> BodyScope<'s> {
    /// The parameter or local that a path of one name means.
    pub fn slot_of(&self, path: &[Ident]) -> Option<SlotNumber>
        ensures { option_and_then (slot_at self.now) result ≡ slot_of (context_of self.now) path.now }
    {
        let [name] = path else {
            return None;
        };
        self.slot_named(name.text.as_bytes())
    }

    // The parameter or local of a name.
    pub(crate) fn slot_named(&self, name: &[u8]) -> Option<SlotNumber>
        ensures { result
            ≡ option_and_then (λ body. slot_number body name.now) (body_slots self.now.template self.now.body) }
    {
        self.names?.slot(name)
    }

    /// The variable or array that a path means, of the template in which it ends.
    pub fn variable_of(&self, path: &[Ident]) -> Option<&'s VarDef>
        ensures { option_map var_tree (option_copied result) ≡ variable_of (context_of self.now) path.now }
    {
        let number = self.scopes.var_number(self.number, path)?;
        self.scopes.var(number)
    }

    // The type of a parameter or local that a path of one name means.
    fn slot_type(&self, path: &[Ident]) -> Option<ExprType<'s>>
        ensures { option_map ty_of result
            ≡ option_map (λ s. s.ty) (slot_of (context_of self.now) path.now) }
    {
        self.numbered_type(self.slot_of(path)?)
    }

    // The type of the parameter or local of a number.
    pub(crate) fn numbered_type(&self, slot: SlotNumber) -> Option<ExprType<'s>>
        ensures { option_map ty_of result ≡ option_map (λ s. s.ty) (slot_at self.now slot) }
    {
        Some(ExprType::of(self.names?.written_type(slot)?))
    }

    /// The type of what a path means: a parameter or local before a variable, or an array's elements.
    pub fn named_type(&self, path: &[Ident]) -> Option<ExprType<'s>>
        ensures { option_map ty_of result ≡ named_type (context_of self.now) path.now }
    {
        match self.slot_type(path) {
            Some(ty) => Some(ty),
            None => Some(ExprType::of(&self.variable_of(path)?.ty)),
        }
    }

    /// The type of the enum constant that a path of one name is.
    pub fn constant_type(&self, path: &[Ident]) -> Option<ExprType<'s>>
        ensures { option_map ty_of result ≡ constant_type (spec_tree self.now.spec) path.now }
    {
        let [name] = path else {
            return None;
        };
        let def = self.scopes.enum_of(name.text.as_bytes())?;
        Some(ExprType::Enum(def.name.text.as_bytes()))
    }

    /// An expression's own type: a number has none, nor has what joins numbers alone. Linear in the expression, and as
    /// deep as it nests.
    pub fn own_type(&self, e: &Expr) -> Option<ExprType<'s>>
        ensures { option_map ty_of result ≡ own_type (context_of self.now) (expr_tree e.now) }
    {
        match e {
            Expr::Truth(_, _) => Some(ExprType::Bool),
            Expr::Number(_) => None,
            Expr::Path(path) => self.path_type(path.names.as_slice()),
            Expr::Group(_, e) => self.own_type(e),
            Expr::Unary(_, UnaryOperator::Not, _) => Some(ExprType::Bool),
            Expr::Unary(_, UnaryOperator::Complement, e) => self.own_type(e),
            Expr::Binary(_, op, a, b) => {
                if joins_numbers(*op) {
                    either_type(self.own_type(a), self.own_type(b))
                } else {
                    Some(ExprType::Bool)
                }
            }
            Expr::Shift(_, _, e, _) => self.own_type(e),
            Expr::Conditional(_, _, a, b) => either_type(self.own_type(a), self.own_type(b)),
            Expr::Cast(_, bits, _) => Some(ExprType::Uint(bits.value)),
            Expr::Element(path, _) => self.named_type(path.names.as_slice()),
        }
    }

    // The type of a path that stands as an expression.
    fn path_type(&self, path: &[Ident]) -> Option<ExprType<'s>>
        ensures { option_map ty_of result
            ≡ either_type (named_type (context_of self.now) path.now)
            (constant_type (spec_tree self.now.spec) path.now) }
    {
        match self.named_type(path) {
            Some(ty) => Some(ty),
            None => self.constant_type(path),
        }
    }

    /// The length of the array that a path means. A length of 2^64 or more counts as 0.
    pub fn array_length(&self, path: &[Ident]) -> Option<u64>
        ensures { result ≡ array_length (context_of self.now) path.now }
    {
        let length = self.variable_of(path)?.length?;
        Some(length.value.unwrap_or(0))
    }
}
