//! Every step of a design as guarded updates: terms over a state, bits of choices and bits of arguments.
#![tactic(auto)]

mod flat;

ghost use Rattle.std.specs.Prelude.{◌≡◌, ◌≢◌, ◌<◌, ◌≤◌, ◌^◌, ℕ, Bool, true, false, Some, None, List, [], ◌∷◌, length, slice_get, slice_index};
ghost use Rattle.tm_term.specs.Table.{Table};
ghost use Rattle.tm_term.specs.Value.{AreInputs, Extends};
ghost use Rattle.tm_syntax.specs.declared.tree.Ident.{Ident};
ghost use Rattle.tm_syntax.specs.Scopes.Names.{template_along};
ghost use Rattle.tm_syntax.specs.Design.{DesignTree, IsDesign, AreInstances};
ghost use Rattle.tm_syntax.specs.Design.Scope.{Scope, Site, site, site_along, context};
ghost use Rattle.tm_syntax.specs.declared.design.Ty.{Ty};
ghost use Rattle.tm_syntax.specs.Tree.{StmtRow, BlockRow, blocks_of, SpecTree};
ghost use Rattle.tm_syntax.specs.Design.Sizes.{type_size, type_bits};
ghost use Rattle.tm_syntax.specs.Scopes.Context.{Context};
ghost use Rattle.tm_syntax.specs.Scopes.Crossing.{row_crosses, call_crosses};
ghost use Rattle.tm_syntax.specs.Design.Work.{WorkItem};
ghost use Rattle.tm_syntax.specs.Design.Cells.{Called};
ghost use Rattle.tm_sem.specs.declared.state.Move.{Move};
ghost use Rattle.tm_sem.specs.declared.state.Move.TheVariants.{Process, Call};
ghost use Rattle.tm_sem.specs.declared.state.Outcome.{Outcome};
ghost use Rattle.tm_sem.specs.declared.state.Outcome.TheVariants.{Next, Error, NoOutcome};
ghost use Rattle.tm_sem.specs.ArrayWrite.{array_design, array_start, last_written};
ghost use Rattle.tm_sem.specs.State.{StateData};
ghost use Rattle.tm_sem.specs.Step.{IsState, arguments_fit, task_of, Step};
ghost use Rattle.tm_sem.specs.Value.{Memory};
ghost use Rattle.tm_sem.specs.Run.{Ending, blocked, Run};
ghost use Rattle.tm_flat.specs.BitRun.{items_ending};
ghost use Rattle.tm_flat.specs.BitStep.{outcome_at, HasRoom};
ghost use Rattle.tm_flat.specs.Fitting.{ItemsFit, ChoiceFits};
ghost use Rattle.tm_flat.specs.Flat.{StepTerms, FlatTerms};
ghost use Rattle.tm_flat.specs.Inputs.{AreBits, AreInOrder, AreSmall, bits_in, input_widths, input_values, arguments_in};
ghost use Rattle.tm_flat.specs.IsFlat.{IsFlat, step_from};
ghost use Rattle.tm_flat.specs.Kept.{HasValueAt};
ghost use Rattle.tm_flat.specs.Positions.{row_after, body_after};
ghost use Rattle.tm_flat.specs.Sample.{sample, sample_start, sample_paused};
ghost use Rattle.tm_flat.specs.Seeing.{ReadAlike, EndAlike};
ghost use Rattle.tm_flat.specs.Steps.{IsProcessStep, IsTaskStep, told_outcome, Tells, move_from};
ghost use Rattle.tm_flat.specs.Tiny.{tiny, tiny_terms, tiny_flat};
ghost use Rattle.tm_flat.specs.Wiring.{AreWired};
ghost use Rattle.tm_flat.specs.Writes.{items_write};

pub use flat::{Flat, FlatStep};

/// What a run comes to that reads its choices as bits, the plain run comes to with some list of choices.
#[tactic(auto, using(crate::proofs::ToList::bits_to_list))]
pub fn bits_are_choices()
    ensures { (d : DesignTree) (bits : ℕ → Bool) (items : List WorkItem) (k : ℕ) (m : Memory)
        → items_ending d bits items k m ≢ blocked
        → (choices : List ℕ) × Run d items m choices (items_ending d bits items k m) }
{}

/// What the plain run comes to with some list of choices, a run that reads its choices as bits comes to with some bits,
/// where the text fits into the room that there is for them.
#[tactic(auto, using(crate::proofs::ToBits::list_to_bits))]
pub fn choices_are_bits()
    ensures { (d : DesignTree) (room k : ℕ) (items : List WorkItem) → ItemsFit room d items k → (m : Memory)
        (choices : List ℕ) (e : Ending) → Run d items m choices e → e ≢ blocked
        → (bits : ℕ → Bool) × ((p : ℕ) → room ≤ p → bits p ≡ false) × (items_ending d bits items k m ≡ e) }
{}

/// How a run ends that reads its choices as bits depends on the values in the cells of its memory alone.
#[tactic(auto, using(crate::proofs::Seeing::items_alike))]
pub fn runs_see_values_alone()
    ensures { (d : DesignTree) (bits : ℕ → Bool) (items : List WorkItem) (k : ℕ) (m n : Memory) → ReadAlike m n
        → EndAlike (items_ending d bits items k m) (items_ending d bits items k n) }
{}

/// A state variable that the text does not assign has at the end of a run that reads its choices as bits the value that
/// it had at the beginning.
#[tactic(auto, using(crate::proofs::Frames::what_is_not_written_is_kept))]
pub fn what_is_not_written_is_kept()
    ensures { (d : DesignTree) (bits : ℕ → Bool) (v : ℕ) (items : List WorkItem) (k : ℕ) (m : Memory)
        → items_write d v items k ≡ false
        → HasValueAt v (slice_index m.values v) (items_ending d bits items k m) }
{}

/// A move whose choices are read as bits leads, over all bits, exactly where it leads over all lists of choices, where
/// the design fits into the bits that there are.
#[tactic(auto, using(crate::proofs::BitSteps::steps_of_bits))]
pub fn bits_lead_where_choices_lead()
    ensures bits { (d : DesignTree) (s : StateData) (move : Move) (bits : ℕ → Bool)
        → outcome_at d s move bits ≢ NoOutcome
        → (choices : List ℕ) × Step d s move choices (outcome_at d s move bits) }
    ensures choices { (d : DesignTree) → HasRoom d → (s : StateData) (move : Move) (choices : List ℕ) (o : Outcome)
        → o ≢ NoOutcome → Step d s move choices o
        → (bits : List ℕ) × AreBits bits × (outcome_at d s move (bits_in bits) ≡ o) }
{}

/// Each input tells what its number says, and all of them tell the state.
pub fn inputs_are_in_order()
    ensures { (d : DesignTree) (s : StateData) (choices arguments : List ℕ) → IsState d s → AreBits choices
        → AreInOrder d s choices arguments (input_values s choices arguments) }
{}

/// The numbers of a valid state, bits of choices and bits of arguments are values of the inputs, each in its width.
pub fn states_are_inputs()
    ensures { (d : DesignTree) → AreSmall d → (t : Table) (s : StateData) (choices arguments : List ℕ)
        → t.inputs ≡ input_widths d → IsState d s → AreBits choices → AreBits arguments
        → AreInputs t (input_values s choices arguments) }
{}

/// Terms that tell, for all bits of choices, where a move leads whose choices are read as bits, tell exactly the
/// outcomes that the move has over all lists of choices.
#[tactic(auto, using(crate::proofs::Telling::tells_so))]
pub fn terms_over_bits_tell_steps()
    ensures { (t : Table) (d : DesignTree) (step : StepTerms) (s : StateData) (move : Move) (arguments : List ℕ)
        → HasRoom d
        → ((bits : List ℕ) → AreBits bits
        → told_outcome t d (input_values s bits arguments) step ≡ outcome_at d s move (bits_in bits))
        → Tells t d step s move arguments }
{}

/// A design as guarded updates has, at each valid state, the step of each process from where it stands, and that of
/// each call of the driver.
pub fn guarded_updates_tell_every_move()
    ensures processes { (t : Table) (d : DesignTree) (f : FlatTerms) → IsFlat t d f → (s : StateData) (p : ℕ)
        (arguments : List ℕ) → IsState d s → p < length d.processes → AreBits arguments
        → (step : StepTerms) × (step_from f p (slice_index s.places p) ≡ Some step)
        × Tells t d step s (move_from d p (slice_index s.places p)) arguments }
    ensures tasks { (t : Table) (d : DesignTree) (f : FlatTerms) → IsFlat t d f → (s : StateData) (n : ℕ)
        (callee : Called) (arguments : List ℕ) → IsState d s → task_of d n ≡ Some callee → AreBits arguments
        → (step : StepTerms) × (slice_get f.tasks n ≡ Some step)
        × Tells t d step s (Call n (arguments_in d callee.params arguments)) arguments }
{}

/// A call of the driver whose arguments are in range is told by the step of its task, for the bits that hold them.
pub fn guarded_updates_tell_every_call()
    ensures { (t : Table) (d : DesignTree) (f : FlatTerms) → IsFlat t d f → HasRoom d → (s : StateData) (n : ℕ)
        (callee : Called) (args : List ℕ) → IsState d s → task_of d n ≡ Some callee
        → arguments_fit d callee.params args ≡ true
        → (bits : List ℕ) × AreBits bits × (step : StepTerms) × (slice_get f.tasks n ≡ Some step)
        × Tells t d step s (Call n args) bits }
{}

/// Guarded updates, and the steps of which they are made, stay what they are where terms are added.
pub fn guarded_updates_stay_what_they_are()
    ensures processes { (t u : Table) → Extends t u → (d : DesignTree) (p k : ℕ) (step : StepTerms)
        → IsProcessStep t d p k step → IsProcessStep u d p k step }
    ensures tasks { (t u : Table) → Extends t u → (d : DesignTree) (n : ℕ) (step : StepTerms) → IsTaskStep t d n step
        → IsTaskStep u d n step }
    ensures whole { (t u : Table) → Extends t u → (d : DesignTree) (f : FlatTerms) → IsFlat t d f → IsFlat u d f }
{}

/// A path of a design ends in an instance of the template that the text says, where instances are declared with
/// arguments that fit.
#[tactic(auto, using(crate::proofs::Wiring::path_leads))]
pub fn paths_lead_where_the_text_says()
    ensures { (d : DesignTree) → AreWired d.spec → AreInstances d.spec d.instances → (path : List Ident) (s e : Site)
        → site d s.number ≡ Some s → site_along d s path ≡ Some e
        → (site d e.number ≡ Some e) × (template_along d.spec s.template path ≡ Some e.template) }
{}

/// Statements that are sure to cross a location never fall through: nothing is reached behind them.
pub fn crossing_statements_never_fall_through()
    ensures { (d : DesignTree) → AreWired d.spec → AreInstances d.spec d.instances → (depth : ℕ) (scope : Scope)
        (c : Context) (row : StmtRow) (k : ℕ) → context d scope ≡ Some c
        → row_crosses (call_crosses d.spec c.template) row ≡ true
        → row_after (body_after depth d) d scope row k ≡ None }
{}

/// The bits of a type are enough for each of its values, and those of a choice for the number of each alternative.
#[tactic(auto, using(crate::proofs::Widths::type_has_bits, crate::proofs::Widths::choice_has_bits))]
pub fn bits_hold_every_value()
    ensures types { (spec : SpecTree) (ty : Ty) → type_size spec ty ≤ 2 ^ 64
        → type_size spec ty ≤ 2 ^ type_bits spec ty }
    ensures choices { (blocks : BlockRow) → length (blocks_of blocks) ≤ 2 ^ 64 → ChoiceFits blocks }
{}

/// A process of one pause as guarded updates, term by term: from its start and its pause it has one step, and from its
/// end none.
#[tactic(auto, using(crate::proofs::Tiny::is_flat))]
pub fn a_pause_is_two_steps()
    ensures { IsFlat tiny_terms tiny tiny_flat }
{}

/// Bits are read most significant first: an enum of three constants and a `choice` of three take two each, of which the
/// number 3 has no outcome, and behind the `choice` the bits go on where its longest alternative ends.
#[tactic(auto, using(crate::proofs::Samples::is_design, crate::proofs::Samples::has_room, crate::proofs::Samples::first_alternative, crate::proofs::Samples::second_alternative, crate::proofs::Samples::third_alternative, crate::proofs::Samples::fourth_alternative, crate::proofs::Samples::fourth_color))]
pub fn bits_are_read_in_text_order()
    ensures design { IsDesign sample }
    ensures room { HasRoom sample }
    ensures first { outcome_at sample sample_start (Process 0) (bits_in (1 ∷ 0 ∷ 0 ∷ 0 ∷ 1 ∷ 0 ∷ 1 ∷ []))
        ≡ Next (sample_paused 2 1 0) }
    ensures second { outcome_at sample sample_start (Process 0) (bits_in (0 ∷ 1 ∷ 0 ∷ 1 ∷ 1 ∷ 1 ∷ 0 ∷ []))
        ≡ Next (sample_paused 1 2 1) }
    ensures third { outcome_at sample sample_start (Process 0) (bits_in (0 ∷ 1 ∷ 1 ∷ 0 ∷ [])) ≡ NoOutcome }
    ensures fourth { outcome_at sample sample_start (Process 0) (bits_in (0 ∷ 1 ∷ 1 ∷ 1 ∷ [])) ≡ NoOutcome }
    ensures no_color { outcome_at sample sample_start (Process 0) (bits_in (1 ∷ 1 ∷ [])) ≡ NoOutcome }
{}

/// A write past the end of an array is an error where choices are read as bits, too.
#[tactic(auto, using(crate::proofs::Samples::last_element, crate::proofs::Samples::past_the_end))]
pub fn bits_may_lead_past_the_end()
    ensures last { outcome_at array_design array_start (Process 0) (bits_in (1 ∷ 0 ∷ [])) ≡ Next last_written }
    ensures past_the_end { outcome_at array_design array_start (Process 0) (bits_in (1 ∷ 1 ∷ [])) ≡ Error }
{}
