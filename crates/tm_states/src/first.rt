//! The states that a design begins with.
ghost use Rattle.std.specs.Prelude.{◌≡◌, None, Some, Err, IfOk};
ghost use Rattle.std.specs.Option.{option_map};
ghost use Rattle.tm_syntax.specs.Tree.View.{spec_tree};
ghost use Rattle.tm_syntax.specs.Design.{IsDesign};
ghost use Rattle.tm_syntax.specs.Design.View.{design_tree};
ghost use Rattle.tm_syntax.specs.Design.Sizes.{type_size};
ghost use Rattle.tm_syntax.specs.Faults.{IsTyped};
ghost use Rattle.tm_sem.specs.State.{StateData};
ghost use Rattle.tm_sem.specs.Step.{IsInitial, IsState};
ghost use Rattle.tm_sem.specs.First.{value_or_choice, first_values as values_of, IsFirst};
ghost use Rattle.tm_typing.specs.HasType.{IsSized};
ghost use Rattle.tm_states.specs.States.{AreSized};

use crate::types::is_value;
use std::alloc::Global;
use tm_scope::Scopes;
use tm_sem::SemError;
use tm_sem::state::State;
use tm_syntax::design::{Design, Var};

// The declared value of a variable, or the next choice, and the choices that are left.
fn first_value<'c>(scopes: &Scopes, var: &Var, choices: &'c [u64]) -> Option<(u64, &'c [u64])>
    requires { IsSized var.now.ty }
    ensures { option_map (λ found. (found.0, found.1.now)) result
        ≡ value_or_choice var.now.init (type_size (spec_tree scopes.now) var.now.ty) choices.now }
{
    match (var.init, choices) {
        (Some(value), _) => Some((value, choices)),
        (None, [first, left @ ..]) if is_value(scopes, &var.ty, *first) => Some((*first, left)),
        (None, _) => None,
    }
}

// The values of the variables: the declared ones, and the choices for the others, in order.
fn first_values(
    alloc: Global,
    scopes: &Scopes,
    vars: &[Var],
    choices: &[u64],
) -> Result<Vec<u64>, SemError>
    requires { AreSized vars.now }
    ensures ok { IfOk result (λ values. values_of (spec_tree scopes.now) vars.now choices.now ≡ Some values.items) }
    ensures bad { result ≡ Err SemError.BadChoices → values_of (spec_tree scopes.now) vars.now choices.now ≡ None }
{
    let mut values = Vec::new(alloc);
    let mut left = choices;
    for var in vars {
        let Some((value, others)) = first_value(scopes, var, left) else {
            return Err(SemError::BadChoices);
        };
        values.push(value)?;
        left = others;
    }
    if left.is_empty() {
        Ok(values)
    } else {
        Err(SemError::BadChoices)
    }
}

/// The state that these choices give a design to begin with: the choices are the values of the template variables that
/// have no declared one, elements of arrays among them, in order. The types of its variables have widths that numbers
/// can have. Linear in the variables and processes.
///
/// `BadChoices` comes exactly where the number or a range of the choices is wrong. `Memory` is want of memory.
pub fn first_state(
    alloc: Global,
    design: &Design,
    scopes: &Scopes,
    choices: &[u64],
) -> Result<State, SemError>
    requires text { scopes.now ≡ design.now.spec }
    requires sized { AreSized design.now.vars.items }
    ensures ok { IfOk result (IsFirst (design_tree design.now) choices.now) }
    ensures bad { result ≡ Err SemError.BadChoices → (s : StateData) →
        ¬ IsFirst (design_tree design.now) choices.now s }
    ensures initial { IfOk result (IsInitial (design_tree design.now)) }
    ensures valid { IsTyped (design_tree design.now).spec → IsDesign (design_tree design.now) →
        IfOk result (IsState (design_tree design.now)) }
{
    let values = first_values(alloc, scopes, design.vars.as_slice(), choices)?;
    let places = vec![in alloc; 0; design.processes.len()]?;
    Ok(State {
        values,
        places,
        last: 0,
    })
}
