//! The trees of texts.
ghost use Rattle.std.specs.Prelude.{◌≤◌, IfOk, length};
ghost use Rattle.tm_syntax.specs.Tree.View.{spec_tree};
ghost use Rattle.tm_syntax.specs.Faults.{IsOfText};

use std::alloc::Global;
use tm_lex::{MAX_TEXT_LEN, lex};
use tm_parse::parse;
use tm_syntax::fault::FrontError;
use tm_syntax::tree::Spec;

/// The tree of a text.
pub fn tree_of(alloc: Global, text: &[u8]) -> Result<Spec, FrontError>
    requires { length text.now ≤ MAX_TEXT_LEN }
    ensures { IfOk result (λ spec. IsOfText (spec_tree spec)) }
{
    let tokens = lex(alloc, text)?;
    let spec = parse(alloc, text, &tokens)?;
    Ok(spec)
}
