//! Laws of orders of calls.
ghost use Rattle.std.specs.Prelude.{◌≡◌, ◌<◌, ℕ, List, Some, false, slice_get};
ghost use Rattle.std.specs.Option.{option_map_or};
ghost use Rattle.tm_syntax.specs.declared.tree.Spec as parsed;
ghost use Rattle.tm_syntax.specs.declared.tree.Template as declared;
ghost use Rattle.tm_syntax.specs.Tree.{SpecTree, TaskTree, TemplateTree};
ghost use Rattle.tm_syntax.specs.Tree.View.{spec_tree, template_tree};
ghost use Rattle.tm_syntax.specs.Scopes.Crossing.{body_crosses, call_crosses};
ghost use Rattle.tm_syntax.specs.Scopes.Pauses.{body_pauses, may_pause, task_reached};
ghost use Rattle.tm_scope.specs.CallOrder.{CoversTasks, IsCallOrder};
ghost use Rattle.tm_scope.specs.Marks.{ArePassing, crosses_at, is_marked, pauses_at};
ghost use Rattle.tm_scope.specs.Members.{task_at};
ghost use Rattle.tm_syntax.specs.declared.member.Member as numbered;

/// A task at position k of an order in which each stands behind all that it calls: whether it pauses, and whether it is
/// sure to cross, is the same at each depth of calls above k.
pub fn calls_in_order_settle()
    ensures pauses { (spec : SpecTree) (order : List numbered.Member) → IsCallOrder spec order
        → (k d e : ℕ) (m : numbered.Member) (t : TemplateTree × TaskTree) → k < d → k < e
        → slice_get order k ≡ Some m → task_at spec m ≡ Some t
        → body_pauses d spec t.0 t.1.body ≡ body_pauses e spec t.0 t.1.body }
    ensures crosses { (spec : SpecTree) (order : List numbered.Member) → IsCallOrder spec order
        → (k d e : ℕ) (m : numbered.Member) (t : TemplateTree × TaskTree) → k < d → k < e
        → slice_get order k ≡ Some m → task_at spec m ≡ Some t
        → body_crosses d spec t.0 t.1.body ≡ body_crosses e spec t.0 t.1.body }
{}

/// Where an order has all tasks of a text, the tasks of it that are sure to cross, or may pause, tell of each call from
/// a template whether it does.
pub fn tasks_tell_calls()
    ensures crosses { (s : parsed.Spec) (order tasks : List numbered.Member) (from : ℕ) (t : declared.Template)
        → CoversTasks (spec_tree s) order → ArePassing (crosses_at (spec_tree s)) order tasks
        → slice_get s.templates.items from ≡ Some t
        → is_marked (record { spec = s; from = from; tasks = tasks }) ≡ call_crosses (spec_tree s) (template_tree t) }
    ensures pauses { (s : parsed.Spec) (order tasks : List numbered.Member) (from : ℕ) (t : declared.Template)
        → CoversTasks (spec_tree s) order → ArePassing (pauses_at (spec_tree s)) order tasks
        → slice_get s.templates.items from ≡ Some t
        → is_marked (record { spec = s; from = from; tasks = tasks })
        ≡ (λ path. option_map_or (λ k. may_pause (spec_tree s) k.0 k.1)
        (task_reached (spec_tree s) (template_tree t) path) false) }
{}
