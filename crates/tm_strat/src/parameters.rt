//! The parameters of controllable tasks.

use tm_base::Name;
use tm_syntax::design::{Design, Ty, Var};
use tm_syntax::tree::{Param, TypeName};

/// A parameter of a controllable task, as its template declares it.
pub(crate) fn parameter(design: &Design, task: usize, index: usize) -> Option<&Param> {
    let item = design.tasks.get(task)?;
    let instance = design.instances.get(item.instance as usize)?;
    let template = design.spec.templates.get(instance.template as usize)?;
    let declared = template.tasks.get(item.index? as usize)?;
    declared.params.get(index)
}

/// Whether a parameter is a number.
pub(crate) fn is_uint(parameter: &Param) -> bool {
    match &parameter.ty {
        TypeName::Bool(_) => false,
        TypeName::Uint(_, _) => true,
        TypeName::Enum(_) => false,
    }
}

/// Whether a variable is of a parameter's type, whose width is this.
pub(crate) fn has_type(var: &Var, parameter: &Param, width: u8) -> bool {
    match &var.ty {
        Ty::Bool => is_bool(parameter),
        Ty::Uint(own) => is_uint(parameter) && *own == width,
        Ty::Enum(own) => is_enum(parameter, own),
    }
}

// Whether a parameter is a bool.
fn is_bool(parameter: &Param) -> bool {
    match &parameter.ty {
        TypeName::Bool(_) => true,
        TypeName::Uint(_, _) => false,
        TypeName::Enum(_) => false,
    }
}

// Whether a parameter is of an enum of a name.
fn is_enum(parameter: &Param, name: &Name) -> bool {
    match &parameter.ty {
        TypeName::Bool(_) => false,
        TypeName::Uint(_, _) => false,
        TypeName::Enum(declared) => are_same(&declared.text, name),
    }
}

/// Whether two names are one.
pub(crate) fn are_same(one: &Name, other: &Name) -> bool {
    one.as_bytes() == other.as_bytes()
}
