//! Numbers in the declarations of a template. Each function gives the first place at which one does not fit.
ghost use Rattle.std.specs.Prelude.{◌≡◌, ◌++◌, map, IfOk};
ghost use Rattle.std.specs.List.{flat_map};
ghost use Rattle.std.specs.Option.{option_map, option_to_list};
ghost use Rattle.tm_syntax.specs.Tree.View.{expr_tree, template_tree, var_tree};
ghost use Rattle.tm_syntax.specs.Faults.Literals.{
  length_faults,
  literal_numbers,
  number_faults,
  type_numbers,
  var_numbers,
  width_faults,
};
ghost use Rattle.tm_syntax.specs.Scopes.Names.{type_of};
ghost use Rattle.tm_syntax.specs.Scopes.Parts.{template_types};
ghost use Rattle.tm_scope.specs.Types.{ty_of};
ghost use Rattle.tm_names.specs.Parts.{listed_types};
ghost use Rattle.tm_types.specs.Firsts.{first_of};

use crate::firsts::{earlier_place, place_unless};
use crate::literals::fits::{GREATEST_LENGTH, GREATEST_WIDTH, is_from_to, number_fits};
use std::alloc::{AllocError, Global};
use tm_base::Place;
use tm_names::template_types;
use tm_scope::ExprType;
use tm_syntax::tree::{Expr, Num, Template, TypeName, VarDef};

// The place of a width that is not from 1 to 64.
pub(crate) fn width_faults(n: Num) -> Option<Place>
    ensures { result ≡ first_of (width_faults n) }
{
    place_unless(is_from_to(1, GREATEST_WIDTH, n), n.place)
}

// The place of a length that is not from 1 to 256.
fn length_faults(n: Num) -> Option<Place>
    ensures { result ≡ first_of (length_faults n) }
{
    place_unless(is_from_to(1, GREATEST_LENGTH, n), n.place)
}

// The place of a number that is no value of its type.
pub(crate) fn number_faults(ty: ExprType, n: Num) -> Option<Place>
    ensures { result ≡ first_of (number_faults (ty_of ty.entry) n) }
{
    place_unless(number_fits(ty, n), n.place)
}

// The first one in a type.
fn type_numbers(ty: &TypeName) -> Option<Place>
    ensures { result ≡ first_of (type_numbers ty.now) }
{
    match ty {
        TypeName::Bool(_) => None,
        TypeName::Uint(_, bits) => width_faults(*bits),
        TypeName::Enum(_) => None,
    }
}

// The first one in an initial literal of a variable of this type.
fn literal_numbers(ty: ExprType, literal: &Expr) -> Option<Place>
    ensures { result ≡ first_of (literal_numbers (ty_of ty.entry) (expr_tree literal.now)) }
{
    match literal {
        Expr::Number(n) => number_faults(ty, *n),
        _ => None,
    }
}

// The first one in the length of a variable.
fn size_numbers(size: Option<Num>) -> Option<Place>
    ensures { result ≡ first_of (flat_map length_faults (option_to_list size)) }
{
    match size {
        Some(n) => length_faults(n),
        None => None,
    }
}

// The first one in the initial literal of a variable.
fn init_numbers(var: &VarDef) -> Option<Place>
    ensures { result ≡ first_of (flat_map (literal_numbers (type_of var.now.ty))
        (option_to_list (option_map expr_tree var.now.init))) }
{
    match &var.init {
        Some(literal) => literal_numbers(ExprType::of(&var.ty), literal),
        None => None,
    }
}

// The first one in the length and the initial literal of a variable.
fn var_numbers(var: &VarDef) -> Option<Place>
    ensures { result ≡ first_of (var_numbers (var_tree var.now)) }
{
    earlier_place(size_numbers(var.length), init_numbers(var))
}

// The first one in the variables of a template.
fn vars_numbers(vars: &[VarDef]) -> Option<Place>
    ensures { result ≡ first_of (flat_map var_numbers (map var_tree vars.now)) }
{
    let mut first = None;
    for var in vars {
        first = earlier_place(first, var_numbers(var));
    }
    first
}

// The first one in the types that a template writes.
fn types_numbers(types: &[&TypeName]) -> Option<Place>
    ensures { result ≡ first_of (flat_map type_numbers (listed_types types.now)) }
{
    let mut first = None;
    for ty in types {
        first = earlier_place(first, type_numbers(*ty));
    }
    first
}

// The first one in the types, lengths and initial literals of a template. `AllocError` is want of memory.
pub(crate) fn declared_numbers(
    alloc: Global,
    template: &Template,
) -> Result<Option<Place>, AllocError>
    ensures { IfOk result (λ first. first
        ≡ first_of (flat_map type_numbers (template_types (template_tree template.now))
        ++ flat_map var_numbers (template_tree template.now).vars)) }
{
    let types = given!(template_types(alloc, template));
    let in_types = types_numbers(types.as_slice());
    let in_vars = vars_numbers(template.vars.as_slice());
    Ok(earlier_place(in_types, in_vars))
}
