//! The sets of states that a game keeps.
ghost use Rattle.std.specs.Prelude.{◌≡◌, ◌<◌, true, length, slice_index_or};
ghost use Rattle.tm_dd.specs.declared.node.NodeId.{NodeId as Id};
ghost use Rattle.tm_game.specs.Game.{AreFairs, AreGoals, IsOf, IsStates};
ghost use Rattle.tm_sem.specs.Fairness.{IsFair, conditions};
ghost use Rattle.tm_sem.specs.Play.{goal_holds};
ghost use Rattle.tm_sem.specs.Step.{IsInitial, is_driver_turn};
ghost use Rattle.tm_syntax.specs.Design.{DesignTree};

use crate::game::Game;
use tm_dd::NodeId;

impl Game {
    /// For each goal the valid states at which it holds. It takes no memory.
    pub fn goals(&self) -> &[NodeId]
        ensures value { result.now ≡ self.now.goals }
        ensures states { (d : DesignTree) → IsOf d self.now → AreGoals d self.now }
        ensures count { (d : DesignTree) → IsOf d self.now → length self.now.goals ≡ length d.goals }
    {
        &self.kept.goals
    }

    /// For each fairness condition the valid states at which it holds. It takes no memory.
    pub fn fairs(&self) -> &[NodeId]
        ensures value { result.now ≡ self.now.fairs }
        ensures states { (d : DesignTree) → IsOf d self.now → AreFairs d self.now }
        ensures count { (d : DesignTree) → IsOf d self.now → length self.now.fairs ≡ length (conditions d) }
    {
        &self.kept.fairs
    }

    /// The valid states at which a goal holds. It takes no memory.
    pub fn goal(&self, goal: u32) -> NodeId
        requires { goal < length self.now.goals }
        ensures value { (d : Id) → result ≡ slice_index_or self.now.goals goal d }
        ensures states { (d : DesignTree) → IsOf d self.now → IsStates d self.now.order self.now.diagrams.table
            (λ s. goal_holds d s goal ≡ true) result }
        ensures count { (d : DesignTree) → IsOf d self.now → length self.now.goals ≡ length d.goals }
    {
        self.kept.goals[goal as usize]
    }

    /// The valid states at which a fairness condition holds. It takes no memory.
    pub fn fair(&self, fair: u32) -> NodeId
        requires { fair < length self.now.fairs }
        ensures value { (d : Id) → result ≡ slice_index_or self.now.fairs fair d }
        ensures states { (d : DesignTree) → IsOf d self.now → IsStates d self.now.order self.now.diagrams.table
            (λ s. IsFair d s fair) result }
        ensures count { (d : DesignTree) → IsOf d self.now → length self.now.fairs ≡ length (conditions d) }
    {
        self.kept.fairs[fair as usize]
    }

    /// The initial states. It takes no memory.
    pub fn initial(&self) -> NodeId
        ensures value { result ≡ self.now.initial }
        ensures states { (d : DesignTree) → IsOf d self.now → IsStates d self.now.order self.now.diagrams.table
            (IsInitial d) result }
    {
        self.kept.initial
    }

    /// The valid states. It takes no memory.
    pub fn valid(&self) -> NodeId
        ensures value { result ≡ self.now.valid }
        ensures states { (d : DesignTree) → IsOf d self.now → IsStates d self.now.order self.now.diagrams.table
            (λ s. Unit {0}) result }
    {
        self.made.steps.valid
    }

    /// The valid states at which the driver can be picked, since some process stands at a magic block. It takes no
    /// memory.
    pub fn turn(&self) -> NodeId
        ensures value { result ≡ self.now.turn }
        ensures states { (d : DesignTree) → IsOf d self.now → IsStates d self.now.order self.now.diagrams.table
            (λ s. is_driver_turn d s ≡ true) result }
    {
        self.kept.turn
    }
}
