//! The widths of the parameters of controllable tasks.
ghost use Rattle.std.specs.Prelude.{◌≡◌, ◌≤◌, All, IfOk, IfNone, IfSome, None, length, map};
ghost use Rattle.std.specs.List.{AllByRecursion, AllZip, range_with_len};
ghost use Rattle.tm_syntax.specs.declared.tree.Param as declared;
ghost use Rattle.tm_syntax.specs.Tree.View.{spec_tree};
ghost use Rattle.tm_syntax.specs.Scopes.Names.{type_of};
ghost use Rattle.tm_syntax.specs.Design.Sizes.{type_bits as bits_of_type};
ghost use Rattle.tm_syntax.specs.Design.View.{design_tree};
ghost use Rattle.tm_typing.specs.HasType.{IsSized};
ghost use Rattle.tm_sem.specs.Step.{task_of};
ghost use Rattle.tm_flat.specs.Inputs.{room};
ghost use Rattle.tm_flat.specs.IsFlat.{AreWidths};
ghost use Rattle.tm_flat_states.specs.Markable.{HasArguments};
ghost use Rattle.tm_flat_states.specs.Parameters.{AreNarrow, IsDriverTask};

use crate::marker::Marker;
use std::alloc::{AllocError, Global};
use tm_design::type_bits;
use tm_scope::{ExprType, Scopes};
use tm_syntax::tree::{Param, TaskDef};

// The bits of the types of parameters.
fn param_widths(alloc: Global, scopes: &Scopes, params: &[Param]) -> Result<Vec<u8>, AllocError>
    requires { AllByRecursion (λ (p : declared.Param). IsSized (type_of p.ty)) params.now }
    ensures widths { IfOk result (λ widths. widths.items
        ≡ map (λ (p : declared.Param). bits_of_type (spec_tree scopes.now) (type_of p.ty)) params.now) }
    ensures narrow { IfOk result (λ widths. All (λ w. w ≤ room) widths.items) }
{
    let mut widths = Vec::new(alloc);
    for param in params {
        widths.push(type_bits(scopes, ExprType::of(&param.ty)))?;
    }
    Ok(widths)
}

impl<'s> Marker<'s> {
    // The controllable task of a number.
    fn task(&self, number: usize) -> Option<&'s TaskDef>
        ensures found { IfSome result (λ task. IsDriverTask self.now.design.now number task.now) }
        ensures none { IfNone result (task_of (design_tree self.now.design.now) number ≡ None) }
    {
        let item = self.design.tasks.get(number)?;
        let index = item.index?;
        let node = self.design.instances.get(item.instance as usize)?;
        let template = self.design.spec.templates.get(node.template as usize)?;
        let task = template.tasks.get(index as usize)?;
        Some(task)
    }

    // The bits of its parameters; none where there is no such task.
    fn task_widths(&self, alloc: Global, number: usize) -> Result<Vec<u8>, AllocError>
        requires { HasArguments (design_tree self.now.design.now) }
        ensures widths { IfOk result (λ widths. AreWidths (design_tree self.now.design.now) number widths.items) }
        ensures narrow { IfOk result (λ widths. All (λ w. w ≤ room) widths.items) }
    {
        match self.task(number) {
            Some(task) => {
                let widths = param_widths(alloc, self.scopes, task.params.as_slice())?;
                Ok(widths)
            }
            None => Ok(Vec::new(alloc)),
        }
    }

    /// The widths of the parameters of each controllable task. Linear in the parameters. `AllocError` is want of
    /// memory.
    pub fn parameters(&self, alloc: Global) -> Result<Vec<Vec<u8>>, AllocError>
        requires { HasArguments (design_tree self.now.design.now) }
        ensures widths { IfOk result (λ all. AllZip (AreWidths (design_tree self.now.design.now))
            (range_with_len 0 (length self.now.design.now.tasks.items)) (map (λ widths. widths.items) all.items)) }
        ensures narrow { IfOk result (λ all. All AreNarrow (map (λ widths. widths.items) all.items)) }
    {
        let mut all = Vec::new(alloc);
        for number in 0..self.design.tasks.len() {
            let widths = self.task_widths(alloc, number)?;
            all.push(widths)?;
        }
        Ok(all)
    }
}
