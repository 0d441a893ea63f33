//! The fault of a template that holds itself.
ghost use Rattle.std.specs.Prelude.{◌≡◌, IfOk};
ghost use Rattle.tm_syntax.specs.declared.fault.FaultKind.TheVariants as kind;
ghost use Rattle.tm_syntax.specs.Faults.{fault};
ghost use Rattle.tm_syntax.specs.Faults.Marks.{named};

use std::alloc::{AllocError, Global};
use tm_base::Name;
use tm_syntax::fault::{Detail, FaultKind, Faulty};
use tm_syntax::tree::Ident;

/// The fault of the template of a name, which holds itself. `AllocError` is want of memory.
pub(crate) fn template_cycle(alloc: Global, name: &Ident) -> Result<Faulty, AllocError>
    ensures { IfOk result (λ f. f ≡ fault kind.TemplateCycle (named name.now)) }
{
    let text = Name::from_bytes(alloc, name.text.as_bytes())?;
    Ok(Faulty {
        kind: FaultKind::TemplateCycle,
        place: name.place,
        detail: Detail::Named(text),
    })
}
