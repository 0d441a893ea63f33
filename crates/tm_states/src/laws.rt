//! Laws of states over their definitions alone.
ghost use Rattle.std.specs.Prelude.{◌≡◌, ◌<◌, ◌≤◌, ◌^◌, Some};
ghost use Rattle.tm_syntax.specs.declared.design.Ty.{Ty};
ghost use Rattle.tm_syntax.specs.declared.fault.FaultKind.TheVariants as kind;
ghost use Rattle.tm_syntax.specs.Tree.{ExprTree};
ghost use Rattle.tm_syntax.specs.Scopes.Context.{Context};
ghost use Rattle.tm_syntax.specs.Design.{DesignTree, IsDesign};
ghost use Rattle.tm_syntax.specs.Design.Scope.{Scope, context};
ghost use Rattle.tm_syntax.specs.Design.Sizes.{type_bits, type_size};
ghost use Rattle.tm_syntax.specs.Faults.{IsFree, IsTyped};
ghost use Rattle.tm_sem.specs.State.{StateData};
ghost use Rattle.tm_sem.specs.Step.{IsInitial, IsState, memory_of};
ghost use Rattle.tm_sem.specs.Value.{Memory, value};
ghost use Rattle.tm_typing.specs.HasType.{HasType};
ghost use Rattle.tm_states.specs.States.{AreSized, HoldsValues};

/// Where the numbers of a text fit, the types of the variables of its design have widths that numbers can have.
#[tactic(auto, using(crate::proofs::StateLaws::sized))]
pub fn variables_of_designs_are_sized()
    ensures { (d : DesignTree) → IsFree d.spec kind.Literal → IsDesign d → AreSized d.vars }
{}

/// The initial states of the design of a checked tree are valid ones.
pub fn initial_states_are_valid()
    ensures { (d : DesignTree) → IsTyped d.spec → IsDesign d → (s : StateData) → IsInitial d s → IsState d s }
{}

/// At a valid state each cell holds a value of its type, before a step has put anything into one.
#[tactic(auto, using(crate::proofs::StateLaws::state_holds))]
pub fn valid_states_hold_values()
    ensures { (d : DesignTree) (s : StateData) → IsState d s → HoldsValues d (memory_of s) }
{}

/// In the design of a checked tree the value of an expression is one of its type, where each cell holds one of its own
/// type; and it is below 2 to the power of the type's bits, where the type has at most 2^64 values.
pub fn values_are_of_their_types()
    ensures values { (d : DesignTree) → IsTyped d.spec → IsDesign d → (m : Memory) → HoldsValues d m → (scope : Scope)
        (c : Context) → context d scope ≡ Some c → (ty : Ty) (e : ExprTree) → HasType c ty e
        → value d scope m ty e < type_size d.spec ty }
    ensures bits { (d : DesignTree) → IsTyped d.spec → IsDesign d → (m : Memory) → HoldsValues d m → (scope : Scope)
        (c : Context) → context d scope ≡ Some c → (ty : Ty) (e : ExprTree) → HasType c ty e
        → type_size d.spec ty ≤ 2 ^ 64 → value d scope m ty e < 2 ^ type_bits d.spec ty }
{}
