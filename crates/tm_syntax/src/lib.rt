//! The text and the tree of a specification, and the design that a tree stands for: types and definitions.
#![tactic(auto)]

ghost use Rattle.std.specs.Prelude.{◌≡◌, ◌<◌, ◌≤◌, ℕ, max, true, codes, length, sum_by, List, ◌++◌};
ghost use Rattle.std.specs.List.{flat_map};
ghost use Rattle.tm_syntax.specs.Tree.{BodyTree, TemplateTree, SpecTree};
ghost use Rattle.tm_syntax.specs.Scopes.Pauses.{body_pauses};
ghost use Rattle.tm_syntax.specs.Scopes.Crossing.{body_crosses};
ghost use Rattle.tm_syntax.specs.declared.fault.Faulty.{Faulty};
ghost use Rattle.tm_syntax.specs.declared.fault.FaultKind.TheVariants as kind;
ghost use Rattle.tm_syntax.specs.declared.fault.Quantity.TheVariants as quantity;
ghost use Rattle.tm_syntax.specs.Scopes.Calls.{ReachesTemplate};
ghost use Rattle.tm_syntax.specs.Design.{DesignTree, IsDesign, template_of};
ghost use Rattle.tm_syntax.specs.Counts.Instances.{
  instance_templates,
  count_instances,
  count_processes,
  count_tasks,
  count_goals,
  total,
};
ghost use Rattle.tm_syntax.specs.Counts.Bodies.{variable_bits};
ghost use Rattle.tm_syntax.specs.Design.Sizes.{type_bits};
ghost use Rattle.tm_syntax.specs.declared.design.Var.{Var};
ghost use Rattle.tm_syntax.specs.Places.{text_start, earliest_of};
ghost use Rattle.tm_syntax.specs.Faults.Marks.{Mark, marked, named, first_mark};
ghost use Rattle.tm_syntax.specs.Faults.Limits.{above};
ghost use Rattle.tm_syntax.specs.Faults.{fault, HasTreeFault, IsSound};
ghost use Rattle.tm_syntax.specs.Examples.{at, name_at, spinning, indexed, wide, circular};

pub mod design;
pub mod fault;
pub mod member;
pub mod token;
pub mod tree;
pub mod typed;

/// A body that is sure to cross a location holds one, or calls a body that does.
#[tactic(auto, using(crate::proofs::Crossings::crossing_pauses))]
pub fn bodies_that_cross_may_pause()
    ensures { (depth : ℕ) (spec : SpecTree) (t : TemplateTree) (body : BodyTree)
        → body_crosses depth spec t body ≡ true → body_pauses depth spec t body ≡ true }
{}

/// The first of the faults in two lists is the earlier one of their first faults.
pub fn first_faults_join()
    ensures { (xs ys : List Mark) → first_mark (xs ++ ys) ≡
        earliest_of (λ (m : Mark). m.place) (first_mark xs) (first_mark ys) }
{}

/// A tree has one design.
pub fn trees_have_one_design()
    ensures { (spec : SpecTree) (d e : DesignTree)
        → d.spec ≡ spec → e.spec ≡ spec → IsDesign d → IsDesign e → d ≡ e }
{}

/// The fault of a tree is one: of one kind, at one place, with one detail.
pub fn trees_have_one_fault()
    ensures { (spec : SpecTree) (f g : Faulty)
        → HasTreeFault spec f → HasTreeFault spec g → f ≡ g }
{}

/// What a design holds is as much as its limits count over the text: instances (of the same templates), processes,
/// controllable tasks, goals, declared fairness conditions, and bits of variables.
pub fn designs_are_counted()
    ensures templates { (d : DesignTree) → ((t : ℕ) → ¬ ReachesTemplate d.spec t t) → IsDesign d →
        flat_map (template_of d.spec) d.instances ≡ instance_templates d.spec }
    ensures instances { (d : DesignTree) → ((t : ℕ) → ¬ ReachesTemplate d.spec t t) → IsDesign d →
        length d.instances ≡ count_instances d.spec }
    ensures processes { (d : DesignTree) → ((t : ℕ) → ¬ ReachesTemplate d.spec t t) → IsDesign d →
        length d.processes ≡ count_processes d.spec }
    ensures tasks { (d : DesignTree) → ((t : ℕ) → ¬ ReachesTemplate d.spec t t) → IsDesign d →
        length d.tasks ≡ count_tasks d.spec }
    ensures goals { (d : DesignTree) → ((t : ℕ) → ¬ ReachesTemplate d.spec t t) → IsDesign d →
        length d.goals ≡ max 1 (count_goals d.spec) }
    ensures fairs { (d : DesignTree) → ((t : ℕ) → ¬ ReachesTemplate d.spec t t) → IsDesign d →
        length d.fairs ≡ total d.spec (λ t. length t.fairs) }
    ensures bits { (d : DesignTree) → ((t : ℕ) → ¬ ReachesTemplate d.spec t t) → IsDesign d →
        sum_by (λ (v : Var). type_bits d.spec v.ty) d.vars ≡ total d.spec (variable_bits d.spec) }
{}

/// A design that keeps its facts is small.
pub fn sound_designs_are_small()
    ensures instances { (d : DesignTree) → IsSound d → length d.instances ≤ 64 }
    ensures processes { (d : DesignTree) → IsSound d → length d.processes ≤ 30 }
    ensures goals { (d : DesignTree) → IsSound d → length d.goals ≤ 16 }
    ensures fairs { (d : DesignTree) → IsSound d → length d.fairs < 32 }
    ensures tasks { (d : DesignTree) → IsSound d → length d.tasks ≤ 64 }
    ensures bits { (d : DesignTree) → IsSound d → sum_by (λ (v : Var). type_bits d.spec v.ty) d.vars ≤ 256 }
{}

/// Four small texts have the faults that their comments tell.
pub fn small_texts_have_their_faults()
    ensures loops { HasTreeFault spinning (fault kind.LoopWithoutLocation (marked (at 3 13))) }
    ensures indices { HasTreeFault indexed (fault kind.Mismatch (marked (at 4 12))) }
    ensures bits { HasTreeFault wide (fault kind.Limit (above text_start quantity.State 257)) }
    ensures templates { HasTreeFault circular (fault kind.TemplateCycle (named (name_at (codes "A") 4 10))) }
{}
