//! The plain meaning of a design: its states, the moves of its actors, and the steps that they make.
#![tactic(auto)]

ghost use Rattle.std.specs.Prelude.{◌≡◌, ◌<◌, ◌≤◌, ◌+◌, ◌*◌, ℕ, suc, List, Bool, true, false, [], ◌∷◌, ◌++◌, length, map};
ghost use Rattle.std.specs.List.{AllByRecursion, sum};
ghost use Rattle.tm_syntax.specs.Design.{DesignTree, IsDesign};
ghost use Rattle.tm_sem.specs.declared.state.Move.{Move};
ghost use Rattle.tm_sem.specs.declared.state.Move.TheVariants.{Process};
ghost use Rattle.tm_sem.specs.declared.state.Outcome.{Outcome};
ghost use Rattle.tm_sem.specs.declared.state.Outcome.TheVariants.{Next, Error, NoOutcome};
ghost use Rattle.tm_sem.specs.ArrayWrite.{array_design, array_start, last_written};
ghost use Rattle.tm_sem.specs.State.{StateData};
ghost use Rattle.tm_sem.specs.First.{IsFirst};
ghost use Rattle.tm_sem.specs.Step.{IsInitial, Step};
ghost use Rattle.tm_sem.specs.Play.{Entry, last_state, stutter, IsPlay, goal_holds};
ghost use Rattle.tm_sem.specs.Forcing.{Forced, Stays};
ghost use Rattle.tm_sem.specs.Fairness.{conditions, IsFairOrNot, Rounds, HasRounds};
ghost use Rattle.tm_sem.specs.Strategy.{IsDriven, states_of, Good};
ghost use Rattle.tm_sem.specs.Loss.{Beats, Lost};
ghost use Rattle.tm_sem.specs.StateBits.{comes_before, weight_order};
ghost use Rattle.tm_sem.specs.Certificates.{DriverSets, IsGoodMove, MeetsDriver, MeetsMoveForm, Level, MeetsEnvironment, longest_chain};

mod first;
pub mod state;

pub use first::SemError;

/// A move with given choices has one outcome.
#[tactic(auto, using(crate::proofs::Determined::one_outcome))]
pub fn outcomes_are_determined()
    ensures { (d : DesignTree) (s : StateData) (move : Move) (choices : List ℕ) (one other : Outcome)
        → Step d s move choices one → Step d s move choices other → one ≡ other }
{}

/// Choices give one state to begin with.
#[tactic(auto, using(crate::proofs::Determined::one_first))]
pub fn first_states_are_determined()
    ensures { (d : DesignTree) (choices : List ℕ) (one other : StateData)
        → IsFirst d choices one → IsFirst d choices other → one ≡ other }
{}

/// A write to an element of an array changes that element alone. One past the array's end is an error, like a read
/// there, and an index that no choice may give has no outcome.
#[tactic(auto, using(crate::proofs::ArrayWrites::is_design, crate::proofs::ArrayWrites::is_initial, crate::proofs::ArrayWrites::within, crate::proofs::ArrayWrites::past_the_end, crate::proofs::ArrayWrites::out_of_range))]
pub fn writes_past_the_end_are_errors()
    ensures design { IsDesign array_design }
    ensures initial { IsInitial array_design array_start }
    ensures within { Step array_design array_start (Process 0) (2 ∷ []) (Next last_written) }
    ensures past_the_end { Step array_design array_start (Process 0) (3 ∷ []) Error }
    ensures no_value { Step array_design array_start (Process 0) (4 ∷ []) NoOutcome }
{}

/// Every play can be extended: a stutter is always a step.
#[tactic(auto, using(crate::proofs::Extending::extended))]
pub fn plays_can_be_extended()
    ensures { (d : DesignTree) (first : StateData) (entries : List Entry) → IsPlay d first entries
        → IsPlay d first (entries ++ stutter (last_state first entries) ∷ []) }
{}

/// No stretch is without a number of rounds, and none has two. Where each condition is known to hold or not at each of
/// its states, the number is found.
#[tactic(auto, using(crate::proofs::Numbered::some_number, crate::proofs::Numbered::number_of_rounds, crate::proofs::Numbered::one_number))]
pub fn stretches_have_one_number_of_rounds()
    ensures some { (d : DesignTree) (stretch : List StateData) → ¬ ((n : ℕ) → ¬ Rounds d n stretch) }
    ensures found { (d : DesignTree) (stretch : List StateData) → AllByRecursion (IsFairOrNot d) stretch
        → (n : ℕ) × Rounds d n stretch }
    ensures one { (d : DesignTree) (n k : ℕ) (stretch : List StateData) → Rounds d n stretch → Rounds d k stretch
        → n ≡ k }
{}

/// The rounds of a stretch are as many parts of it as there can be, one behind the other, of which each meets every
/// fairness condition.
#[tactic(auto, using(crate::proofs::Counting::rounds_are_parts, crate::proofs::Counting::rounds_are_most))]
pub fn rounds_are_the_most_parts()
    ensures parts { (d : DesignTree) (n : ℕ) (stretch : List StateData) → Rounds d n stretch → HasRounds d n stretch }
    ensures most { (d : DesignTree) (n k : ℕ) (stretch : List StateData) → Rounds d n stretch → HasRounds d k stretch
        → k ≤ n }
{}

/// Where the driver can stay in a set, the environment cannot force an error or a state outside it.
pub fn staying_is_not_forced_out()
    ensures { (d : DesignTree) (set : StateData → Bool) (s : StateData) → Stays d (λ t. set t ≡ true) s
        → Forced d (λ t. set t ≡ false) s → ⊥ }
{}

/// What the environment forces in some steps it forces in one more.
pub fn more_steps_keep_a_win()
    ensures { (d : DesignTree) (t : ℕ) (before : List StateData) (s : StateData) (n : ℕ) → Beats d t before s n
        → Beats d (suc t) before s n }
{}

/// A driver with a certificate is good: no play that it drives meets an error or a forbidden move, and any stretch in
/// which a goal is pending and holds nowhere has fewer rounds than the goal has ranked regions.
pub fn certified_drivers_are_good()
    ensures { (d : DesignTree) (answers : StateData → ℕ → Move) (c : DriverSets) → IsDesign d
        → MeetsDriver d (λ s g move. answers s g ≡ move) c
        → Good d (λ s g move. answers s g ≡ move) (map length c.goals) }
{}

/// Where sets are a certificate of some strategy, their good moves are one.
#[tactic(auto, using(crate::proofs::Certified::good_moves_are_certified))]
pub fn good_moves_are_certified()
    ensures { (d : DesignTree) (c : DriverSets) → MeetsMoveForm d c
        → MeetsDriver d (λ s g move. IsGoodMove d c g s move) c }
{}

/// A certificate of the environment shows that the design is lost: for any number of rounds the environment forces an
/// error or a stretch of so many rounds in which some goal never holds, from an initial state and in a number of steps
/// that the certificate tells.
#[tactic(auto, using(crate::proofs::Losing::certified_is_lost))]
pub fn certified_designs_are_lost()
    ensures { (d : DesignTree) (levels : List Level) → MeetsEnvironment d levels → (n : ℕ)
        → (first : StateData) × IsInitial d first
        × Beats d (length levels * (n * (length (conditions d) * longest_chain levels) + 1)) [] first n }
{}

/// Under a good driver a stretch in which some goal never holds, whichever goals are pending meanwhile, has fewer
/// rounds than all ranks together.
pub fn no_goal_waits_for_all_ranks()
    ensures { (d : DesignTree) (answers : StateData → ℕ → Move) (ranks : List ℕ) → IsDesign d
        → Good d (λ s g move. answers s g ≡ move) ranks → (first : StateData) (entries : List Entry)
        → IsDriven d (λ s g move. answers s g ≡ move) first entries → (goal n : ℕ)
        (before stretch after : List StateData) → goal < length d.goals
        → states_of first entries ≡ before ++ (stretch ++ after)
        → AllByRecursion (λ s. goal_holds d s goal ≡ false) stretch → HasRounds d n stretch → n < sum ranks }
{}

/// No design has both a good driver and is lost: the definitions of the two sides exclude one another.
pub fn good_designs_are_not_lost()
    ensures { (d : DesignTree) (answers : StateData → ℕ → Move) (ranks : List ℕ) → IsDesign d
        → Good d (λ s g move. answers s g ≡ move) ranks → Lost d → ⊥ }
{}

/// Of two states at most one comes before the other, and the weight order takes the most significant bits first: here
/// of a byte, two truths, another byte, two locations and the last mover.
pub fn state_bits_are_ordered()
    ensures one_way { (xs ys : List Bool) → comes_before xs ys ≡ true → comes_before ys xs ≡ false }
    ensures weights { weight_order (8 ∷ 1 ∷ 1 ∷ 8 ∷ 2 ∷ 2 ∷ 2 ∷ [])
        ≡ 0 ∷ 10 ∷ 1 ∷ 11 ∷ 2 ∷ 12 ∷ 3 ∷ 13 ∷ 4 ∷ 14 ∷ 5 ∷ 15 ∷ 6 ∷ 16 ∷ 18 ∷ 20 ∷ 22
        ∷ 7 ∷ 8 ∷ 9 ∷ 17 ∷ 19 ∷ 21 ∷ 23 ∷ [] }
{}
