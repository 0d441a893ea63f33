//! An empty table of terms over the inputs of a design.
ghost use Rattle.std.specs.Prelude.{◌≡◌, IfOk};
ghost use Rattle.tm_syntax.specs.Design.View.{design_tree};
ghost use Rattle.tm_syntax.specs.Faults.{IsOfText, IsSound};
ghost use Rattle.tm_term.specs.Table as table;
ghost use Rattle.tm_flat.specs.Inputs.{input_widths};

use crate::widths::inputs;
use std::alloc::{AllocError, Global};
use tm_syntax::design::Design;
use tm_term::Terms;

/// An empty table of terms over the `inputs` of a design of a text, as `flatten` takes it. Takes the time of `inputs`.
/// `AllocError` is want of memory.
pub fn empty_terms(alloc: Global, design: &Design) -> Result<Terms, AllocError>
    requires sound { IsSound (design_tree design.now) }
    requires read { IsOfText (design_tree design.now).spec }
    ensures inputs { IfOk result (λ terms. terms.inputs ≡ input_widths (design_tree design.now)) }
    ensures sound { IfOk result table.IsSound }
{
    let widths = inputs(alloc, design)?;
    let terms = Terms::new(alloc, &widths)?;
    Ok(terms)
}
