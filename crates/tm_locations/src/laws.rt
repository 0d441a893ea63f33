//! Laws of locations over their definitions alone.
ghost use Rattle.std.specs.Prelude.{◌≡◌, ◌≤◌, ℕ, suc, List, [], Some, false, length};
ghost use Rattle.tm_base.specs.declared.place.Place as placed;
ghost use Rattle.tm_syntax.specs.declared.fault.FaultKind.TheVariants as kind;
ghost use Rattle.tm_syntax.specs.declared.member.Member as numbered;
ghost use Rattle.tm_syntax.specs.Tree.{BodyTree};
ghost use Rattle.tm_syntax.specs.Scopes.Pauses.{body_pauses, call_depth};
ghost use Rattle.tm_syntax.specs.Design.{AreInstances, DesignTree};
ghost use Rattle.tm_syntax.specs.Design.Locations.{body_locations};
ghost use Rattle.tm_syntax.specs.Design.Scope.{Scope, Site, site};
ghost use Rattle.tm_syntax.specs.Design.Work.{WorkItem};
ghost use Rattle.tm_syntax.specs.Faults.{IsFree, IsSound};
ghost use Rattle.tm_scope.specs.CallOrder.{CoversTasks, IsCallOrder};
ghost use Rattle.tm_locations.specs.Locations.{LeadsByText};

/// In a design that keeps its facts every path leads to an instance of the template to which it leads in the text.
#[tactic(auto, using(crate::proofs::TextLeads::sound_leads))]
pub fn sound_designs_lead_by_text()
    ensures { (d : DesignTree) → IsSound d → LeadsByText d }
{}

/// So it is where names are known and told apart, all that is asked fits, and the instances are those of the text.
#[tactic(auto, using(crate::proofs::TextLeads::joined_leads))]
pub fn joined_designs_lead_by_text()
    ensures { (d : DesignTree) → IsFree d.spec kind.UnknownName → IsFree d.spec kind.Twice → IsFree d.spec kind.Mismatch
        → AreInstances d.spec d.instances → LeadsByText d }
{}

/// A body that does not pause holds no location.
#[tactic(auto, using(crate::proofs::QuietBodies::quiet_bodies))]
pub fn bodies_that_do_not_pause_hold_no_location()
    ensures { (d : DesignTree) → LeadsByText d → (n m : ℕ) → n ≤ m → (scope : Scope) (s : Site)
        → site d scope.instance ≡ Some s → (trail : List placed.Place) (body : BodyTree) (after : List WorkItem)
        → body_pauses m d.spec s.template body ≡ false → body_locations n d scope trail body after ≡ [] }
{}

/// Where calls are in order, a body has the same locations at each depth of calls beyond the length of the order.
#[tactic(auto, using(crate::proofs::SettledBodies::settled))]
pub fn locations_settle()
    ensures { (d : DesignTree) (order : List numbered.Member) → LeadsByText d → IsCallOrder d.spec order
        → CoversTasks d.spec order → (m n : ℕ) → length order ≤ m → length order ≤ n → (scope : Scope) (s : Site)
        → site d scope.instance ≡ Some s → (trail : List placed.Place) (body : BodyTree) (after : List WorkItem)
        → body_locations (suc m) d scope trail body after ≡ body_locations (suc n) d scope trail body after }
{}
