//! The state variables of a design by their paths.
ghost use Rattle.std.specs.Prelude.{◌≡◌, ℕ, List, None, Some, IfOk, OnOk, nat_eq, if◌then◌else◌};
ghost use Rattle.std.specs.Cmp.Lexicographic.{pointwise};
ghost use Rattle.std.specs.Option.{option_map, option_or};
ghost use Rattle.tm_syntax.specs.Design.{DesignTree};
ghost use Rattle.tm_syntax.specs.Design.Cells.{in_state, variable_at};
ghost use Rattle.tm_scope.specs.Directory.{index_of};
ghost use Rattle.tm_scope.specs.Inner.Tables.{AreNumbered};
ghost use Rattle.tm_scope.specs.VariablePaths.{whole};

mod path;

use indexmap::IndexMap;
use path::PathKey;
pub use path::VariablePath;
use std::alloc::{AllocError, Global};
use std::marker::Model;
use tm_syntax::design::Var;

/// State variables, found by their paths. Contracts see the list of them.
#[derive(Drop)]
pub struct Variables<'d> {
    vars: &'d [Var],
    numbers: IndexMap<PathKey<'d>, usize>,
}

impl<'d> Model for Variables<'d> {
    ghost use Rattle.std.specs.Prelude.{List};
    ghost use Rattle.std.specs.Coded.{codes};
    ghost use Rattle.tm_syntax.specs.declared.design.Var.{Var};
    ghost use Rattle.tm_syntax.specs.contracts.design.Var as var_contract;
    ghost use Rattle.tm_scope.specs.Inner.Tables.{AreNumbered};

    ghost Value = { List Var };

    ghost view = { λ x. x.vars.now };

    ghost invariant = { λ x. AreNumbered x.vars.now x.numbers.entries };

    ghost coded = { Prim.hlevel (codes, var_contract.the_row.coded) };
}

impl<'d> Variables<'d> {
    /// The tables of some variables, in time linear in their paths. `AllocError` is want of memory.
    pub fn new(alloc: Global, vars: &'d [Var]) -> Result<Variables<'d>, AllocError>
        ensures { IfOk result (λ v. v ≡ vars.now) }
    {
        match numbers(alloc, vars) {
            Ok(numbers) => Ok(Variables { vars, numbers }),
            Err(error) => Err(error),
        }
    }

    /// The number of the variable of a path, in any design that has these variables, in constant time for each byte of
    /// the path.
    pub fn number(&self, path: VariablePath<'_>) -> Option<usize>
        ensures { (d : DesignTree) → d.vars ≡ self.now →
            option_map in_state result ≡ variable_at d (whole path.entry) }
    {
        let _vars = &self.vars;
        self.numbers.get(path).copied()
    }
}

// The number of the first variable of each path.
fn numbers<'d>(alloc: Global, vars: &'d [Var]) -> Result<IndexMap<PathKey<'d>, usize>, AllocError>
    ensures { IfOk result (λ numbers. AreNumbered vars.now numbers.entries) }
{
    let mut numbers = IndexMap::new(alloc);
    for (number, var) in vars.iter().enumerate() {
        note(&mut numbers, var.path.as_bytes(), number)?;
    }
    Ok(numbers)
}

// Notes a path at a number. A path that has one keeps it.
fn note<'d>(
    numbers: &mut IndexMap<PathKey<'d>, usize>,
    path: &'d [u8],
    number: usize,
) -> Result<(), AllocError>
    ensures { OnOk result ((other : List ℕ) →
        index_of numbers.new.entries other ≡ option_or (index_of numbers.old.entries other)
        (if pointwise nat_eq other path.now then Some number else None)) }
{
    let key = PathKey { path };
    if numbers.get(&key).is_none() {
        numbers.insert(key, number)?;
    }
    Ok(())
}
