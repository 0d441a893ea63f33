//! What paths mean.

use crate::spelling::{body_of, path_of};
use std::alloc::{AllocError, Global};
use tm_base::Name;
use tm_scope::{BodyName, ExprType, Scopes, Sites};
use tm_syntax::design::Instance;
use tm_syntax::tree::{Expr, Ident, Path};

/// An instance of a template, with what it holds.
fn instance(
    alloc: Global,
    path: &str,
    template: u32,
    children: &[u32],
) -> Result<Instance, AllocError> {
    Ok(Instance {
        path: Name::from_bytes(alloc, path.as_bytes())?,
        template,
        ports: Vec::new(alloc),
        children: Vec::from_slice(alloc, children)?,
    })
}

/// The first instance, and the one that it holds.
fn instances(alloc: Global) -> Result<Vec<Instance>, AllocError> {
    let mut instances = Vec::new(alloc);
    instances.push(instance(alloc, "", 0, &[1])?)?;
    instances.push(instance(alloc, "left", 1, &[])?)?;
    Ok(instances)
}

/// The number of the instance to which a path leads from the first one.
fn number_from_main(scopes: &Scopes, table: &[Instance], along: &[Ident]) -> Option<u32> {
    Sites::new(scopes, table).number_along(0, along)
}

/// The number of the instance to which a path leads from the first one, or `none`, as text.
fn number_text(alloc: Global, scopes: &Scopes, along: &[Ident]) -> Result<String, AllocError> {
    let table = instances(alloc)?;
    match number_from_main(scopes, &table, along) {
        Some(number) => format!(in alloc; "{number}"),
        None => String::from_str(alloc, "none"),
    }
}

/// The type of an expression in a body of `main`.
fn type_in_main<'s>(scopes: &'s Scopes, body: BodyName, e: &Expr) -> Option<ExprType<'s>> {
    let main = scopes.template_number(b"main")?;
    scopes.body_scope(main, body).own_type(e)
}

/// The name of an enum.
fn enum_text(alloc: Global, name: &[u8]) -> Result<String, AllocError> {
    let mut text = String::new(alloc);
    for byte in name {
        text.push(char::from(*byte))?;
    }
    Ok(text)
}

/// A type as text.
fn type_text(alloc: Global, found: Option<ExprType>) -> Result<String, AllocError> {
    match found {
        Some(ExprType::Bool) => String::from_str(alloc, "bool"),
        Some(ExprType::Uint(Some(bits))) => format!(in alloc; "uint<{bits}>"),
        Some(ExprType::Uint(None)) => String::from_str(alloc, "wide"),
        Some(ExprType::Enum(name)) => enum_text(alloc, name),
        None => String::from_str(alloc, "none"),
    }
}

/// The answer to a question about a path.
pub fn names_text(alloc: Global, scopes: &Scopes, question: &str) -> Result<String, AllocError> {
    let (place, names) = question.split_once(": ").unwrap_or((question, ""));
    let names = path_of(alloc, names)?;
    if place == "number" {
        return number_text(alloc, scopes, &names);
    }
    let path = Expr::Path(Path { names });
    type_text(alloc, type_in_main(scopes, body_of(place), &path))
}
