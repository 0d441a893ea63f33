//! What holds of trees and faults by their definitions.

ghost use Rattle.std.specs.Prelude.{◌≡◌, ◌<◌, ◌⊎◌, ◌↔◌, ℕ, List, [], ◌∷◌, ◌++◌};
ghost use Rattle.tm_base.specs.declared.place.Place.{Place};
ghost use Rattle.tm_syntax.specs.declared.token.Token.{Token};
ghost use Rattle.tm_syntax.specs.Tree.{SpecTree};
ghost use Rattle.tm_syntax.specs.Grammar.Faults.{Anywhere, IsTree, IsTooDeep, HasSyntaxFault, HasDepthFault};
ghost use Rattle.tm_syntax.specs.Grammar.Specification.{IsSpec};
ghost use Rattle.tm_syntax.specs.declared.fault.Faulty.{Faulty};
ghost use Rattle.tm_syntax.specs.Faults.{FaultOf};
ghost use Rattle.tm_parse.specs.Standing.{StandsNowhere, Stands, StandsAt};

/// `F2` stands at one place at most, and so does `F3`, and no text has both.
pub fn faults_are_determined()
    ensures syntax { (text : List ℕ) (tokens : List Token) (one other : Place)
        → HasSyntaxFault text tokens one → HasSyntaxFault text tokens other → one ≡ other }
    ensures depth { (text : List ℕ) (tokens : List Token) (one other : Place)
        → HasDepthFault text tokens one → HasDepthFault text tokens other → one ≡ other }
    ensures not_both { (text : List ℕ) (tokens : List Token) (one other : Place)
        → HasSyntaxFault text tokens one → ¬ HasDepthFault text tokens other }
{}

/// A text with a tree has neither `F2` nor `F3`.
pub fn trees_have_no_fault()
    ensures syntax { (text : List ℕ) (tokens : List Token) (tree : SpecTree) (place : Place)
        → IsTree text tokens tree → ¬ HasSyntaxFault text tokens place }
    ensures depth { (text : List ℕ) (tokens : List Token) (tree : SpecTree) (place : Place)
        → IsTree text tokens tree → ¬ HasDepthFault text tokens place }
{}

/// A text has one tree at most.
pub fn trees_are_determined()
    ensures { (text : List ℕ) (tokens : List Token) (one other : SpecTree)
        → IsTree text tokens one → IsTree text tokens other → one ≡ other }
{}

/// Specifications that agree up to and with a token have it at one depth, or at none: as many levels are open with it,
/// where it opens one, and the operand to its left is as high, where it is an operator behind an operand. No limit
/// holds for them, and neither their bytes nor their trees need be the same.
pub fn tokens_stand_alike()
    ensures some { (text : List ℕ) (tree : SpecTree) (front behind : List Token) (t : Token)
        → IsSpec text Anywhere tree (front ++ t ∷ behind) []
        → StandsNowhere text tree front t behind ⊎ ((depth : ℕ) × Stands text tree front t behind depth) }
    ensures one { (text other : List ℕ) (tree also : SpecTree) (front behind after : List Token) (t : Token)
        (depth deep : ℕ) → Stands text tree front t behind depth → Stands other also front t after deep
        → depth ≡ deep }
    ensures both { (text other : List ℕ) (tree also : SpecTree) (front behind after : List Token) (t : Token)
        (depth : ℕ) → Stands text tree front t behind depth → IsSpec other Anywhere also (front ++ t ∷ after) []
        → Stands other also front t after depth }
    ensures neither { (text other : List ℕ) (tree also : SpecTree) (front behind after : List Token) (t : Token)
        → StandsNowhere text tree front t behind → IsSpec other Anywhere also (front ++ t ∷ after) []
        → StandsNowhere other also front t after }
{}

/// A token is too deep, as `F3` asks, exactly where it stands deeper than 128 in some specification.
pub fn deep_tokens_are_faults()
    ensures { (text : List ℕ) (front : List Token) (t : Token)
        → IsTooDeep text front t ↔ ((depth : ℕ) × StandsAt text front t depth × (128 < depth)) }
{}

/// A text has at most one fault: of one kind, at one place, with one detail.
pub fn texts_have_one_fault()
    ensures { (text : List ℕ) (one other : Faulty) → FaultOf text one → FaultOf text other → one ≡ other }
{}
