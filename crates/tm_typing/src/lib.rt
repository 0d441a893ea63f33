//! What checked specifications promise the layers above: their paths resolve, their expressions have the types that
//! their places ask for, and the paths of their designs are made of words.
#![tactic(auto)]

ghost use Rattle.std.specs.Prelude.{◌≡◌, []};
ghost use Rattle.std.specs.List.{AllByRecursion};
ghost use Rattle.tm_syntax.specs.Tree.{ExprTree, SpecTree};
ghost use Rattle.tm_syntax.specs.Scopes.Context.{Context};
ghost use Rattle.tm_syntax.specs.Scopes.Parts.{BodyAt, bodies, stmts_in, ExprAt, exprs};
ghost use Rattle.tm_syntax.specs.Scopes.Types.{own_type, valued_in};
ghost use Rattle.tm_syntax.specs.declared.design.Ty.{Ty};
ghost use Rattle.tm_syntax.specs.Design.{DesignTree};
ghost use Rattle.tm_syntax.specs.Faults.{IsTyped, IsOfText, IsSound};
ghost use Rattle.tm_syntax.specs.Faults.Operands.{expr_faults};
ghost use Rattle.tm_syntax.specs.Faults.Literals.{expr_numbers};
ghost use Rattle.tm_syntax.specs.declared.design.Ty.TheVariants as types;
ghost use Rattle.tm_typing.specs.Examples.{counting, x_plus};
ghost use Rattle.tm_typing.specs.HasType.{IsSized, HasType, Suits};
ghost use Rattle.tm_typing.specs.Promises.{HasAskedType};
ghost use Rattle.tm_typing.specs.Resolving.{AreResolved};
ghost use Rattle.tm_typing.specs.Statements.{StmtResolves};

pub mod paths;

/// The tree of a design that keeps its facts is a checked one, where it is that of a text.
pub fn sound_designs_of_texts_are_checked()
    ensures { (d : DesignTree) → IsSound d → IsOfText d.spec → IsTyped d.spec }
{}

/// In a checked specification each path of an expression whose name is declared as a value has a type, and each whose
/// name is declared as an array has one for its elements, and a length.
pub fn checked_paths_resolve()
    ensures { (spec : SpecTree) → IsTyped spec
        → AllByRecursion (λ (e : ExprAt). AreResolved e.context e.asked.expr) (exprs spec) }
{}

/// In a checked specification each target of an assignment has a type, and each call leads to a task or procedure that
/// the text may call with so many arguments; one that stands as a value has a result, of its target's type where the
/// target has one of its own.
pub fn checked_targets_and_calls_resolve()
    ensures { (spec : SpecTree) → IsTyped spec
        → AllByRecursion (λ (b : BodyAt). AllByRecursion (StmtResolves b.context) (stmts_in b.body)) (bodies spec) }
{}

/// In a checked specification each expression, initial literals apart, has the type that its place asks for, where it
/// asks for one.
pub fn checked_expressions_have_types()
    ensures { (spec : SpecTree) → IsTyped spec → AllByRecursion HasAskedType (exprs spec) }
{}

/// An expression whose paths resolve, and of which neither `F6` nor `F7` holds, has a type: its own, or the one that
/// its place asks for, which has to be one of numbers if the expression has none of its own.
pub fn faultless_expressions_have_types()
    ensures { (c : Context) (asked : Ty) (e : ExprTree) → AreResolved c e → expr_faults c e ≡ []
        → expr_numbers c asked e ≡ [] → Suits (own_type c e) asked → HasType c (valued_in asked (own_type c e)) e }
{}

/// An expression of a type is valued in it, and the type has a width that numbers can have.
pub fn typed_expressions_are_valued_in_their_type()
    ensures valued { (c : Context) (ty : Ty) (e : ExprTree) → HasType c ty e → valued_in ty (own_type c e) ≡ ty }
    ensures sized { (c : Context) (ty : Ty) (e : ExprTree) → HasType c ty e → IsSized ty }
{}

/// Beside a variable `x` of type `uint<2>` the sum `x + 3` has this type and no other, and `x + 4` has none.
pub fn small_sums_have_types_where_they_fit()
    ensures fits { HasType counting (types.Uint 2) (x_plus 3) }
    ensures one { (ty : Ty) → HasType counting ty (x_plus 3) → ty ≡ types.Uint 2 }
    ensures none { (ty : Ty) → ¬ HasType counting ty (x_plus 4) }
{}
