//! The bits of variables, parameters and locals.
ghost use Rattle.std.specs.Prelude.{◌≡◌, map, sum_by};
ghost use Rattle.tm_syntax.specs.Tree.View.{local_tree, spec_tree, var_tree};
ghost use Rattle.tm_syntax.specs.Counts.Bodies.{local_bits, param_bits, var_bits};
ghost use Rattle.tm_limits.specs.Amount.{capped};

use crate::amount::{product, sum};
use crate::sizes::type_bits;
use tm_scope::{ExprType, Scopes};
use tm_syntax::tree::{LocalDef, Param, VarDef};

/// The bits of parameters.
pub(crate) fn params_bits(scopes: &Scopes, params: &[Param]) -> u64
    ensures { result ≡ capped (param_bits (spec_tree scopes.now) params.now) }
{
    let mut bits = 0;
    for param in params {
        bits = sum(bits, type_bits(scopes, ExprType::of(&param.ty)));
    }
    bits
}

/// The bits of locals.
pub(crate) fn locals_bits(scopes: &Scopes, locals: &[LocalDef]) -> u64
    ensures { result ≡ capped (local_bits (spec_tree scopes.now) (map local_tree locals.now)) }
{
    let mut bits = 0;
    for local in locals {
        bits = sum(bits, type_bits(scopes, ExprType::of(&local.ty)));
    }
    bits
}

/// The bits of template variables, and of all elements of arrays.
pub(crate) fn vars_bits(scopes: &Scopes, vars: &[VarDef]) -> u64
    ensures { result ≡ capped (sum_by (var_bits (spec_tree scopes.now)) (map var_tree vars.now)) }
{
    let mut bits = 0;
    for var in vars {
        bits = sum(bits, var_bits(scopes, var));
    }
    bits
}

// The bits of a template variable, or of all elements of an array.
fn var_bits(scopes: &Scopes, var: &VarDef) -> u64
    ensures { result ≡ capped (var_bits (spec_tree scopes.now) (var_tree var.now)) }
{
    let count = match var.length {
        Some(length) => length.value.unwrap_or(0),
        None => 1,
    };
    product(count, type_bits(scopes, ExprType::of(&var.ty)))
}
