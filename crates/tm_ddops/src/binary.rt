//! The binary operations.
ghost use Rattle.std.specs.Prelude.{◌≡◌, ◌&&◌, ◌||◌, IfOk};
ghost use Rattle.tm_dd.specs.Table.{Knows, means};
ghost use Rattle.tm_dd.specs.declared.node.NodeId.{NodeId as Id};
ghost use Rattle.tm_ddops.specs.Connective.{connective_operation, connective_value, larger, smaller, xor};
ghost use Rattle.tm_ddops.specs.Manager.{Grows, IsFunction, IsManager, Remembers};
ghost use Rattle.tm_ddops.specs.Reached.{RisesByPairs};
ghost use Rattle.tm_ddops.specs.Remembering.{RemembersPair};
ghost use Rattle.tm_ddops.specs.declared.operation.Operation.TheVariants as operation;

use crate::connective::Connective;
use crate::manager::Manager;
use std::alloc::AllocError;
use tm_base::Steps;
use tm_dd::NodeId;

impl Manager {
    /// Both of two functions.
    ///
    /// It makes at most one request and one node for each pair of an inner node of `f` and one of `g`.
    pub fn and<L>(
        &mut self,
        f: NodeId,
        g: NodeId,
        steps: &mut Steps<L>,
    ) -> Result<NodeId, AllocError>
        requires f { Knows self.old.table f }
        requires g { Knows self.old.table g }

        ensures manager { IsManager self.new }
        ensures grows { Grows self.old self.new }
        ensures answer { IfOk result (λ id.
            IsFunction self.new.table id (λ v. means self.new.table f v && means self.new.table g v)) }
        ensures requests { RisesByPairs self.old.table f g steps.old steps.new }
        ensures remembers { RemembersPair (operation.And (smaller f g) (larger f g)) f g self.old self.new result }

        // A remembered result is answered again without a request.
        ensures again_free { (id : Id) → Remembers self.old (operation.And (smaller f g) (larger f g)) id →
            steps.new ≡ steps.old }
    {
        self.binary(Connective::And, f, g, steps)
    }

    /// At least one of two functions.
    ///
    /// It makes at most one request and one node for each pair of an inner node of `f` and one of `g`.
    pub fn or<L>(
        &mut self,
        f: NodeId,
        g: NodeId,
        steps: &mut Steps<L>,
    ) -> Result<NodeId, AllocError>
        requires f { Knows self.old.table f }
        requires g { Knows self.old.table g }

        ensures manager { IsManager self.new }
        ensures grows { Grows self.old self.new }
        ensures answer { IfOk result (λ id.
            IsFunction self.new.table id (λ v. means self.new.table f v || means self.new.table g v)) }
        ensures requests { RisesByPairs self.old.table f g steps.old steps.new }
        ensures remembers { RemembersPair (operation.Or (smaller f g) (larger f g)) f g self.old self.new result }

        // A remembered result is answered again without a request.
        ensures again_free { (id : Id) → Remembers self.old (operation.Or (smaller f g) (larger f g)) id →
            steps.new ≡ steps.old }
    {
        self.binary(Connective::Or, f, g, steps)
    }

    /// Exactly one of two functions.
    ///
    /// It makes at most one request and one node for each pair of an inner node of `f` and one of `g`.
    pub fn xor<L>(
        &mut self,
        f: NodeId,
        g: NodeId,
        steps: &mut Steps<L>,
    ) -> Result<NodeId, AllocError>
        requires f { Knows self.old.table f }
        requires g { Knows self.old.table g }

        ensures manager { IsManager self.new }
        ensures grows { Grows self.old self.new }
        ensures answer { IfOk result (λ id.
            IsFunction self.new.table id (λ v. xor (means self.new.table f v) (means self.new.table g v))) }
        ensures requests { RisesByPairs self.old.table f g steps.old steps.new }
        ensures remembers { RemembersPair (operation.Xor (smaller f g) (larger f g)) f g self.old self.new result }

        // A remembered result is answered again without a request.
        ensures again_free { (id : Id) → Remembers self.old (operation.Xor (smaller f g) (larger f g)) id →
            steps.new ≡ steps.old }
    {
        self.binary(Connective::Xor, f, g, steps)
    }

    // A binary operation.
    fn binary<L>(
        &mut self,
        connective: Connective,
        f: NodeId,
        g: NodeId,
        steps: &mut Steps<L>,
    ) -> Result<NodeId, AllocError>
        requires f { Knows self.old.table f }
        requires g { Knows self.old.table g }

        ensures manager { IsManager self.new }
        ensures grows { Grows self.old self.new }
        ensures answer { IfOk result (λ id.
            IsFunction self.new.table id (λ v.
            connective_value connective (means self.new.table f v) (means self.new.table g v))) }
        ensures requests { RisesByPairs self.old.table f g steps.old steps.new }
        ensures remembers { RemembersPair (connective_operation connective f g) f g self.old self.new result }
        ensures again_free { (id : Id) → Remembers self.old (connective_operation connective f g) id →
            steps.new ≡ steps.old }
    {
        prove!(self.cache.len() <= self.cache.cap().get());
        let choice = connective.choice(f, g);
        if f.is_constant() || g.is_constant() || f == g {
            if let Some(known) = choice.shortcut() {
                return Ok(known);
            }
        }
        self.answered(connective.operation(f, g), choice, steps)
    }
}
