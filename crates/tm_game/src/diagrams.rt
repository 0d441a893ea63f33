//! Operations on the diagrams of a game: those of its manager, without the counter.
ghost use Rattle.std.specs.Prelude.{◌≡◌, ◌<◌, ◌&&◌, ◌||◌, ◌≤◌, Contains, IfOk, IsOkAnd, Ok, map, not, if◌then◌else◌};
ghost use Rattle.tm_dd.specs.NodeId.{complement};
ghost use Rattle.tm_dd.specs.Reduced.{IsDeeper};
ghost use Rattle.tm_dd.specs.Table.{Knows, depth_of, means, node_of, rank_of};
ghost use Rattle.tm_dd.specs.declared.node.NodeId.{NodeId as Id};
ghost use Rattle.tm_ddops.specs.Connective.{larger, smaller, xor};
ghost use Rattle.tm_ddops.specs.Manager.{Grows as DiagramsGrow, IsFunction, Remembers};
ghost use Rattle.tm_ddops.specs.Operation.{substituted};
ghost use Rattle.tm_ddops.specs.Quantified.{IsExists, IsForall};
ghost use Rattle.tm_ddops.specs.Remembering.{RemembersPair, RemembersResult};
ghost use Rattle.tm_ddops.specs.declared.operation.Operation.TheVariants as operation;
ghost use Rattle.tm_game.specs.Game.{Grows};
ghost use Rattle.tm_game.specs.Making.{MakesNode};

use crate::game::Game;
use std::alloc::AllocError;
use tm_base::Steps;
use tm_dd::NodeId;

impl Game {
    /// The function that is `hi` where the level's value is true, and `lo` where it is false. A function that was known
    /// has its id, and another one adds one node.
    pub fn make(&mut self, level: u32, lo: NodeId, hi: NodeId) -> Result<NodeId, AllocError>
        requires level { level < self.old.diagrams.table.levels }
        requires lo_known { Knows self.old.diagrams.table lo }
        requires hi_known { Knows self.old.diagrams.table hi }
        requires lo_deeper { IsDeeper self.old.diagrams.table level lo }
        requires hi_deeper { IsDeeper self.old.diagrams.table level hi }

        ensures grows { Grows self.old self.new }
        ensures answer { IfOk result (λ id. IsFunction self.new.diagrams.table id (λ v.
            if v level then means self.new.diagrams.table hi v else means self.new.diagrams.table lo v)) }
        ensures deep { IfOk result (λ id.
            rank_of self.new.diagrams.table level ≤ depth_of self.new.diagrams.table id) }
        ensures node { IfOk result (λ id. ¬ (lo ≡ hi)
            → node_of self.new.diagrams.table id ≡ record { level = level; lo = lo; hi = hi }) }
        ensures makes { MakesNode (record { level = level; lo = lo; hi = hi }) self.old.diagrams self.new.diagrams
            result }
    {
        self.dd.make(level, lo, hi, &mut Steps::new(()))
    }

    /// Both of two functions. The result is remembered, and a remembered one is answered again.
    pub fn and(&mut self, f: NodeId, g: NodeId) -> Result<NodeId, AllocError>
        requires f { Knows self.old.diagrams.table f }
        requires g { Knows self.old.diagrams.table g }

        ensures grows { Grows self.old self.new }
        ensures answer { IfOk result (λ id. IsFunction self.new.diagrams.table id
            (λ v. means self.new.diagrams.table f v && means self.new.diagrams.table g v)) }
        ensures remembers { RemembersPair (operation.And (smaller f g) (larger f g)) f g self.old.diagrams
            self.new.diagrams result }
    {
        self.dd.and(f, g, &mut Steps::new(()))
    }

    /// At least one of two functions. The result is remembered, and a remembered one is answered again.
    pub fn or(&mut self, f: NodeId, g: NodeId) -> Result<NodeId, AllocError>
        requires f { Knows self.old.diagrams.table f }
        requires g { Knows self.old.diagrams.table g }

        ensures grows { Grows self.old self.new }
        ensures answer { IfOk result (λ id. IsFunction self.new.diagrams.table id
            (λ v. means self.new.diagrams.table f v || means self.new.diagrams.table g v)) }
        ensures remembers { RemembersPair (operation.Or (smaller f g) (larger f g)) f g self.old.diagrams
            self.new.diagrams result }
    {
        self.dd.or(f, g, &mut Steps::new(()))
    }

    /// Exactly one of two functions. The result is remembered, and a remembered one is answered again.
    pub fn xor(&mut self, f: NodeId, g: NodeId) -> Result<NodeId, AllocError>
        requires f { Knows self.old.diagrams.table f }
        requires g { Knows self.old.diagrams.table g }

        ensures grows { Grows self.old self.new }
        ensures answer { IfOk result (λ id. IsFunction self.new.diagrams.table id
            (λ v. xor (means self.new.diagrams.table f v) (means self.new.diagrams.table g v))) }
        ensures remembers { RemembersPair (operation.Xor (smaller f g) (larger f g)) f g self.old.diagrams
            self.new.diagrams result }
    {
        self.dd.xor(f, g, &mut Steps::new(()))
    }

    /// The complement of a function. It takes no memory and adds no node.
    pub fn not(&mut self, f: NodeId) -> Result<NodeId, AllocError>
        requires { Knows self.old.diagrams.table f }
        ensures value { result ≡ Ok (complement f) }
        ensures answer { IsOkAnd result (λ id. IsFunction self.new.diagrams.table id
            (λ v. not (means self.new.diagrams.table f v))) }
        ensures unchanged { self.new ≡ self.old }
    {
        Ok(f.complement())
    }

    /// The function that is `g` where `f` is true, and `h` where it is false. The result is remembered, and a
    /// remembered one is answered again.
    pub fn ite(&mut self, f: NodeId, g: NodeId, h: NodeId) -> Result<NodeId, AllocError>
        requires f { Knows self.old.diagrams.table f }
        requires g { Knows self.old.diagrams.table g }
        requires h { Knows self.old.diagrams.table h }

        ensures grows { Grows self.old self.new }
        ensures answer { IfOk result (λ id. IsFunction self.new.diagrams.table id (λ v.
            if means self.new.diagrams.table f v then means self.new.diagrams.table g v
            else means self.new.diagrams.table h v)) }
        ensures remembers { RemembersResult (operation.Ite f g h) self.old.diagrams self.new.diagrams result }
    {
        self.dd.ite(f, g, h)
    }

    /// The function that is true where `f` is true for some values of the levels. Remembered results stay while there
    /// is room.
    pub fn exists(&mut self, f: NodeId, levels: &[u32]) -> Result<NodeId, AllocError>
        requires known { Knows self.old.diagrams.table f }
        ensures grows { Grows self.old self.new }
        ensures answer { IfOk result (IsExists self.new.diagrams.table levels.now f) }
        ensures diagrams { DiagramsGrow self.old.diagrams self.new.diagrams }
    {
        self.dd.exists(f, levels)
    }

    /// The function that is true where `f` is true for all values of the levels. Remembered results stay while there is
    /// room.
    pub fn forall(&mut self, f: NodeId, levels: &[u32]) -> Result<NodeId, AllocError>
        requires known { Knows self.old.diagrams.table f }
        ensures grows { Grows self.old self.new }
        ensures answer { IfOk result (IsForall self.new.diagrams.table levels.now f) }
        ensures diagrams { DiagramsGrow self.old.diagrams self.new.diagrams }
    {
        self.dd.forall(f, levels)
    }

    /// The function `f` with the parts' functions in the places of their levels, all at once.
    pub fn compose(&mut self, f: NodeId, parts: &[(u32, NodeId)]) -> Result<NodeId, AllocError>
        requires known { Knows self.old.diagrams.table f }
        requires parts { (g : Id) → Contains (map (λ p. p.1) parts.now) g → Knows self.old.diagrams.table g }

        ensures grows { Grows self.old self.new }
        ensures answer { IfOk result (λ id. IsFunction self.new.diagrams.table id (λ v.
            means self.new.diagrams.table f (substituted self.new.diagrams.table parts.now v))) }
        ensures diagrams { DiagramsGrow self.old.diagrams self.new.diagrams }
        ensures remembered { IfOk result (Remembers self.new.diagrams (operation.Compose f parts.now)) }
    {
        self.dd.compose(f, parts)
    }
}
