//! The first name of a text that is too long.
ghost use Rattle.std.specs.Prelude.{◌≡◌};
ghost use Rattle.std.specs.Option.{option_copied};
ghost use Rattle.tm_syntax.specs.Tree.View.{spec_tree};
ghost use Rattle.tm_syntax.specs.Faults.Limits.{all_names};
ghost use Rattle.tm_limits.specs.LongNames.{first_long};

mod bodies;
mod first;
mod templates;

use bodies::{Sought, templates_long};
use first::{earlier, enums_long};
use templates::{declared_long, used_long};
use tm_syntax::tree::{Ident, Spec};

/// The first name of a text that is too long. Linear in the text.
pub(crate) fn first_long_name(spec: &Spec) -> Option<&Ident>
    ensures { option_copied result ≡ first_long (all_names (spec_tree spec.now)) }
{
    let templates = spec.templates.as_slice();
    let declared = earlier(enums_long(spec.enums.as_slice()), declared_long(templates));
    let used = earlier(declared, used_long(templates));
    let expressions = earlier(used, templates_long(Sought::Expressions, templates));
    earlier(expressions, templates_long(Sought::Paths, templates))
}
