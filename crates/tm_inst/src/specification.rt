//! Reading the text of a specification.
ghost use Rattle.std.specs.Prelude.{◌≡◌, ◌≤◌, List, length, IfOk, IfErr, IfSome};
ghost use Rattle.tm_syntax.specs.declared.token.Token as tokens;
ghost use Rattle.tm_syntax.specs.Limits.{specification_limit};
ghost use Rattle.tm_syntax.specs.Tree.View.{spec_tree};
ghost use Rattle.tm_syntax.specs.Design.View.{design_tree};
ghost use Rattle.tm_syntax.specs.Faults.{FaultOf, HasTreeFault, IsOfText, IsSound};
ghost use Rattle.tm_inst.specs.ShortTexts.{IsOfShortText};
ghost use Rattle.tm_flat_room.specs.Assuming.{has_assume as has_word};
ghost use Rattle.tm_inst.specs.Specification.{IsDesignText, IsMemoryOr};

use crate::instantiate;
use std::alloc::Global;
use tm_flat_room::has_assume;
use tm_lex::lex;
use tm_parse::parse;
use tm_syntax::design::Design;
use tm_syntax::fault::FrontError;
use tm_syntax::tree::Spec;
use tm_types::check_types;

/// The most bytes of a specification: 1 MiB.
pub const MOST_BYTES: usize = 1_048_576;

/// The design of a specification, and whether its text has the word `assume`.
#[derive(Drop)]
pub struct Specification {
    pub design: Design,
    pub assumes: bool,
}

/// The design of a tree, or the fault of the tree.
fn design_of(alloc: Global, spec: Spec) -> Result<Design, FrontError>
    requires { IsOfShortText (spec_tree spec) }
    ensures tree { IfOk result (λ design. design.spec ≡ spec) }
    ensures sound { IfOk result (λ design. IsSound (design_tree design)) }
    ensures faulty { IfErr result (IsMemoryOr (HasTreeFault (spec_tree spec))) }
{
    let typed = check_types(alloc, spec)?;
    instantiate(alloc, typed)
}

/// The design that the text of a specification tells.
///
/// `Faulty` is the fault of the text, one of `F1` to `F12`. `Memory` is want of memory. Near linear in the text and in
/// the bodies of its instances.
pub fn read_specification(alloc: Global, text: &[u8]) -> Result<Specification, FrontError>
    requires { length text.now ≤ specification_limit }
    ensures read { IfOk result (λ s. (ts : List tokens.Token)
        × IsDesignText text.now ts (design_tree s.design) × (s.assumes ≡ has_word ts)) }
    ensures sound { IfOk result (λ s. IsSound (design_tree s.design)) }
    ensures faulty { IfErr result (IsMemoryOr (FaultOf text.now)) }
{
    let tokens = lex(alloc, text)?;
    let spec = parse(alloc, text, &tokens)?;
    let design = design_of(alloc, spec)?;
    let assumes = has_assume(&tokens);
    Ok(Specification { design, assumes })
}

/// The design that a text tells, where it is one of a specification: without a fault, of at most `MOST_BYTES` bytes,
/// and with memory for its design.
pub fn read_design(alloc: Global, text: &[u8]) -> Option<Design>
    ensures sound { IfSome result (λ design. IsSound (design_tree design)) }
    ensures of_text { IfSome result (λ design. IsOfText (design_tree design).spec) }
{
    if text.len() > MOST_BYTES {
        return None;
    }
    match read_specification(alloc, text) {
        Ok(read) => Some(read.design),
        Err(_) => None,
    }
}
