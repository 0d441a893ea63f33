//! The terms of conditions that stand outside of all bodies.
ghost use Rattle.std.specs.Prelude.{◌≡◌, ℕ, IfNone, IfOk, IfSome, None, Some};
ghost use Rattle.std.specs.Option.{option_map};
ghost use Rattle.tm_base.specs.Arithmetic.{bit};
ghost use Rattle.tm_syntax.specs.declared.design.Design as designs;
ghost use Rattle.tm_syntax.specs.declared.design.Ty.TheVariants as resolved;
ghost use Rattle.tm_syntax.specs.Tree.{ExprTree};
ghost use Rattle.tm_syntax.specs.Tree.View.{expr_tree};
ghost use Rattle.tm_syntax.specs.Design.Scope.{site};
ghost use Rattle.tm_syntax.specs.Design.View.{design_tree};
ghost use Rattle.tm_design.specs.Typed.{HasTypeAt};
ghost use Rattle.tm_flat_exprs.specs.Made.{Makes};
ghost use Rattle.tm_flat_states.specs.Conditions.{HasInputs, stated};
ghost use Rattle.tm_flat_exprs.specs.Tables.{cells_of};
ghost use Rattle.tm_flat_states.specs.Markable.{IsMarkable, outside_of};

use crate::marker::Marker;
use std::alloc::AllocError;
use tm_flat_exprs::{TermMemory, TermReader, make};
use tm_scope::{BodyName, ExprType, SiteBody};
use tm_syntax::tree::Expr;
use tm_term::{Term, TermId, Terms};

// The term of a condition, by the reader of what stands outside of all bodies of an instance.
fn condition_by(
    reader: &TermReader<'_>,
    terms: &mut Terms,
    memory: &TermMemory,
    e: &Expr,
) -> Result<TermId, AllocError>
    requires { (d : designs.Design) × (n : ℕ) × (reader.now ≡ outside_of d n) × IsMarkable d
        × HasInputs (cells_of d) terms.old memory.now × HasTypeAt (outside_of d n) resolved.Bool (expr_tree e.now) }
    ensures { IfOk result (λ id. (d : designs.Design) (n : ℕ) → reader.now ≡ outside_of d n
        → HasInputs (cells_of d) terms.old memory.now → Makes terms.old terms.new 1 id
        (λ u v. bit (stated (design_tree d) n (Some (expr_tree e.now)) v))) }
{
    let found = reader.value(terms, memory, e, ExprType::Bool)?;
    Ok(found.value)
}

// The term of a condition, by the reader that was found for what stands outside of all bodies of an instance.
fn condition_found(
    found: &Option<TermReader<'_>>,
    terms: &mut Terms,
    memory: &TermMemory,
    e: &Expr,
) -> Result<TermId, AllocError>
    requires { (d : designs.Design) × (n : ℕ) × (found.now ≡ Some (outside_of d n)) × IsMarkable d
        × HasInputs (cells_of d) terms.old memory.now × HasTypeAt (outside_of d n) resolved.Bool (expr_tree e.now) }
    ensures { IfOk result (λ id. (d : designs.Design) (n : ℕ) → found.now ≡ Some (outside_of d n)
        → HasInputs (cells_of d) terms.old memory.now → Makes terms.old terms.new 1 id
        (λ u v. bit (stated (design_tree d) n (Some (expr_tree e.now)) v))) }
{
    match found {
        Some(reader) => {
            let id = condition_by(reader, terms, memory, e)?;
            Ok(id)
        }
        None => unreachable!(),
    }
}

impl<'s> Marker<'s> {
    // The reader of what stands outside of all bodies of an instance, where there is such an instance.
    fn reader(&self, instance: u32) -> Option<TermReader<'s>>
        ensures found { IfSome result (λ r. r ≡ outside_of self.now.design.now instance) }
        ensures none { IfNone result (site (design_tree self.now.design.now) instance ≡ None) }
    {
        let at = SiteBody {
            instance,
            body: BodyName::Outside,
        };
        match self.cells.scope(at) {
            None => None,
            Some(scope) => Some(TermReader::new(scope, self.scopes, at)),
        }
    }

    // The term of a condition of an instance.
    fn condition(
        &self,
        terms: &mut Terms,
        memory: &TermMemory,
        instance: u32,
        e: &Expr,
    ) -> Result<TermId, AllocError>
        requires markable { IsMarkable self.now.design.now }
        requires inputs { HasInputs (cells_of self.now.design.now) terms.old memory.now }
        requires typed { HasTypeAt (outside_of self.now.design.now instance) resolved.Bool (expr_tree e.now) }
        ensures { IfOk result (λ id. Makes terms.old terms.new 1 id
            (λ u v. bit (stated (design_tree self.now.design.now) instance (Some (expr_tree e.now)) v))) }
    {
        let found = self.reader(instance);
        let id = condition_found(&found, terms, memory, e)?;
        Ok(id)
    }

    /// The term of a condition of an instance, which always holds where it has no expression. Linear in the expression
    /// and in the lengths of the arrays that it indexes. `AllocError` is want of memory.
    pub(crate) fn stated(
        &self,
        terms: &mut Terms,
        memory: &TermMemory,
        instance: u32,
        e: Option<&Expr>,
    ) -> Result<TermId, AllocError>
        requires markable { IsMarkable self.now.design.now }
        requires inputs { HasInputs (cells_of self.now.design.now) terms.old memory.now }
        requires typed { (tree : ExprTree) → option_map (λ e. expr_tree e.now) e ≡ Some tree
            → HasTypeAt (outside_of self.now.design.now instance) resolved.Bool tree }
        ensures { IfOk result (λ id. Makes terms.old terms.new 1 id (λ u v.
            bit (stated (design_tree self.now.design.now) instance (option_map (λ e. expr_tree e.now) e.entry) v))) }
    {
        match e {
            Some(e) => {
                let id = self.condition(terms, memory, instance, e)?;
                Ok(id)
            }
            None => {
                let always = make(terms, Term::Const(1, 1))?;
                Ok(always)
            }
        }
    }
}
