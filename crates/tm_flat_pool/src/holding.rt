//! The terms of truths that stand in a body of an instance.
ghost use Rattle.std.specs.Prelude.{◌≡◌, IfNone, IfOk, IfSome, None, Some};
ghost use Rattle.tm_base.specs.Arithmetic.{bit};
ghost use Rattle.tm_syntax.specs.declared.design.Design as designs;
ghost use Rattle.tm_syntax.specs.declared.design.Ty.TheVariants as resolved;
ghost use Rattle.tm_syntax.specs.Tree.View.{expr_tree};
ghost use Rattle.tm_syntax.specs.Design.Scope.{site};
ghost use Rattle.tm_syntax.specs.Design.View.{design_tree};
ghost use Rattle.tm_scope.specs.Cells.{scope_of};
ghost use Rattle.tm_scope.specs.declared.cells.site_body.SiteBody as bodies;
ghost use Rattle.tm_design.specs.Typed.{HasTypeAt};
ghost use Rattle.tm_flat_exprs.specs.Made.{Makes};
ghost use Rattle.tm_flat_states.specs.Conditions.{HasInputs};
ghost use Rattle.tm_flat_exprs.specs.Tables.{cells_of};
ghost use Rattle.tm_flat_states.specs.Markable.{IsMarkable};
ghost use Rattle.tm_flat_pool.specs.Inner.Holding.{body_of, held};

use crate::pooler::Pooler;
use std::alloc::AllocError;
use tm_flat_exprs::{TermMemory, TermReader};
use tm_scope::{ExprType, SiteBody};
use tm_syntax::tree::Expr;
use tm_term::{TermId, Terms};

// The term of a truth, by the reader of its body.
fn holds_by(
    reader: &TermReader<'_>,
    terms: &mut Terms,
    memory: &TermMemory,
    e: &Expr,
) -> Result<TermId, AllocError>
    requires { (d : designs.Design) × (at : bodies.SiteBody) × (reader.now ≡ body_of d at) × IsMarkable d
        × HasInputs (cells_of d) terms.old memory.now × HasTypeAt (body_of d at) resolved.Bool (expr_tree e.now) }
    ensures { IfOk result (λ id. (d : designs.Design) (at : bodies.SiteBody) → reader.now ≡ body_of d at
        → HasInputs (cells_of d) terms.old memory.now → Makes terms.old terms.new 1 id
        (λ u v. bit (held (design_tree d) (scope_of at) v (expr_tree e.now)))) }
{
    let found = reader.value(terms, memory, e, ExprType::Bool)?;
    Ok(found.value)
}

// The term of a truth, by the reader that was found for its body.
fn holds_found(
    found: &Option<TermReader<'_>>,
    terms: &mut Terms,
    memory: &TermMemory,
    e: &Expr,
) -> Result<TermId, AllocError>
    requires { (d : designs.Design) × (at : bodies.SiteBody) × (found.now ≡ Some (body_of d at)) × IsMarkable d
        × HasInputs (cells_of d) terms.old memory.now × HasTypeAt (body_of d at) resolved.Bool (expr_tree e.now) }
    ensures { IfOk result (λ id. (d : designs.Design) (at : bodies.SiteBody) → found.now ≡ Some (body_of d at)
        → HasInputs (cells_of d) terms.old memory.now → Makes terms.old terms.new 1 id
        (λ u v. bit (held (design_tree d) (scope_of at) v (expr_tree e.now)))) }
{
    match found {
        Some(reader) => {
            let id = holds_by(reader, terms, memory, e)?;
            Ok(id)
        }
        None => unreachable!(),
    }
}

impl<'s> Pooler<'s> {
    // The reader of a body of an instance, where there is such an instance.
    fn reader(&self, at: SiteBody) -> Option<TermReader<'s>>
        ensures found { IfSome result (λ r. r ≡ body_of self.now.design.now at) }
        ensures none { IfNone result (site (design_tree self.now.design.now) at.instance ≡ None) }
    {
        match self.cells.scope(at) {
            None => None,
            Some(scope) => Some(TermReader::new(scope, self.scopes, at)),
        }
    }

    /// The term of a truth that stands in a body of an instance; an element past the end has the value 0. Linear in the
    /// expression and in the lengths of the arrays that it indexes. `AllocError` is want of memory.
    pub(crate) fn holds(
        &self,
        terms: &mut Terms,
        memory: &TermMemory,
        at: SiteBody,
        e: &Expr,
    ) -> Result<TermId, AllocError>
        requires markable { IsMarkable self.now.design.now }
        requires inputs { HasInputs (cells_of self.now.design.now) terms.old memory.now }
        requires typed { HasTypeAt (body_of self.now.design.now at) resolved.Bool (expr_tree e.now) }
        ensures { IfOk result (λ id. Makes terms.old terms.new 1 id
            (λ u v. bit (held (design_tree self.now.design.now) (scope_of at) v (expr_tree e.now)))) }
    {
        let found = self.reader(at);
        let id = holds_found(&found, terms, memory, e)?;
        Ok(id)
    }
}
