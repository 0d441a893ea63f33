//! Reads the tree of a specification from its tokens, or finds the first token at fault.
#![tactic(auto)]

ghost use Rattle.std.specs.Prelude.{◌≡◌, ◌≤◌, ◌<◌, ◌+◌, ◌++◌, ◌⊎◌, ℕ, List, [], length, IfOk, IfErr, MatchResult};
ghost use Rattle.tm_base.specs.declared.place.Place.{Place};
ghost use Rattle.tm_syntax.specs.declared.fault.FrontError.TheVariants.{Memory};
ghost use Rattle.tm_syntax.specs.declared.token.Token.{Token};
ghost use Rattle.tm_syntax.specs.Limits.{specification_limit};
ghost use Rattle.tm_syntax.specs.Tokens.{AreTokens, place_after};
ghost use Rattle.tm_syntax.specs.Tree.{SpecTree};
ghost use Rattle.tm_syntax.specs.Tree.View.{spec_tree};
ghost use Rattle.tm_syntax.specs.Grammar.Faults.{IsTree, HasSyntaxFault, HasDepthFault};
ghost use Rattle.tm_parse.specs.Answer.{place_at, syntax_fault, depth_fault, IsFaultOf, IsMemoryOr};
ghost use Rattle.tm_parse.specs.Reading.{Takes};
ghost use Rattle.tm_parse.specs.Items.{ASpec, GoesOnAtAll};

/// What a reader read; where it refuses, so does the function, and drops the trees that it holds.
///
/// `?` would do so, too, at twice the cost of the proof: it converts the error, and takes the trees apart in place.
macro_rules! read {
    ($reader:expr $(, $held:ident)*) => {
        match $reader {
            Ok(read) => read,
            Err(stop) => {
                $(drop($held);)*
                return Err(stop);
            }
        }
    };
}

mod assignments;
mod bodies;
mod declarations;
mod expressions;
mod laws;
mod leaves;
mod marks;
mod operators;
mod specification;
mod statements;
mod stop;

pub use laws::{
    deep_tokens_are_faults, faults_are_determined, texts_have_one_fault, tokens_stand_alike,
    trees_are_determined, trees_have_no_fault,
};
use specification::spec;
use std::alloc::Global;
use stop::Stop;
use tm_base::Place;
use tm_syntax::fault::{Detail, FaultKind, Faulty, FrontError};
use tm_syntax::token::Token;
use tm_syntax::tree::Spec;

/// The tree of a specification, whose tokens are those that `tm_lex::lex` gives of its text.
///
/// `Faulty` is `F2`, at the first token that continues no specification or at the end of a text that ends too early, or
/// `F3`, at the first token that stands too deep, whichever is earlier. `Memory` is want of memory.
pub fn parse(alloc: Global, text: &[u8], tokens: &[Token]) -> Result<Spec, FrontError>
    requires size { length text.now ≤ specification_limit }
    requires tokens { AreTokens text.now tokens.now }
    ensures read { IfOk result (λ spec. IsTree text.now tokens.now (spec_tree spec)) }
    ensures faulty { IfErr result (IsFaultOf text.now tokens.now) }

    // A text with a tree has no answer beside it but want of memory, and so has a text with a fault.
    ensures tree { (tree : SpecTree) → IsTree text.now tokens.now tree
        → MatchResult result (λ spec. spec_tree spec ≡ tree) (λ e. e ≡ Memory) }
    ensures syntax { (place : Place) → HasSyntaxFault text.now tokens.now place
        → MatchResult result (λ _. ⊥) (IsMemoryOr (syntax_fault place)) }
    ensures depth { (place : Place) → HasDepthFault text.now tokens.now place
        → MatchResult result (λ _. ⊥) (IsMemoryOr (depth_fault place)) }
{
    tree_or_fault(alloc, text, tokens)
}

/// The tree, or its first fault.
fn tree_or_fault(alloc: Global, text: &[u8], tokens: &[Token]) -> Result<Spec, FrontError>
    requires { length text.now ≤ specification_limit }
    ensures read { IfOk result (λ spec. Takes (ASpec text.now) GoesOnAtAll (spec_tree spec) tokens.now []) }
    ensures faulty { IfErr result (IsFaultOf text.now tokens.now) }
{
    match spec(alloc, text, tokens) {
        Ok(spec) => Ok(spec),
        Err(Stop::Unexpected(rest)) => Err(syntax_fault(place_of(text, rest))),
        Err(Stop::TooDeep(rest)) => Err(depth_fault(place_of(text, rest))),
        Err(Stop::Memory) => Err(FrontError::Memory),
    }
}

/// `F2` at a place.
fn syntax_fault(place: Place) -> FrontError
    ensures { result ≡ syntax_fault place }
{
    FrontError::Faulty(Faulty {
        kind: FaultKind::Syntax,
        place,
        detail: Detail::Nothing,
    })
}

/// `F3` at a place.
fn depth_fault(place: Place) -> FrontError
    ensures { result ≡ depth_fault place }
{
    FrontError::Faulty(Faulty {
        kind: FaultKind::Deep,
        place,
        detail: Detail::Nothing,
    })
}

/// The place of the first of these tokens, which end a text, or that of the text's end.
fn place_of(text: &[u8], rest: &[Token]) -> Place
    requires { length text.now ≤ specification_limit }
    ensures { result ≡ place_at text.now rest.now }
{
    match rest.first() {
        Some(first) => first.place,
        None => place_after(text),
    }
}

/// The place behind a text.
fn place_after(text: &[u8]) -> Place
    requires { length text.now ≤ specification_limit }
    ensures { result ≡ place_after text.now }
{
    let mut place = Place { line: 1, column: 1 };
    for byte in text {
        if *byte == b'\n' {
            place = Place {
                line: place.line + 1,
                column: 1,
            };
        } else {
            place.column += 1;
        }
    }
    place
}
