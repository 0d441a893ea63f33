//! `F6` in the declarations of a template.
ghost use Rattle.std.specs.Prelude.{◌≡◌, ◌||◌, IfOk, codes, length, nat_eq, not};
ghost use Rattle.tm_syntax.specs.Tree.View.{template_tree};
ghost use Rattle.tm_syntax.specs.Scopes.Names.{is_spelled};
ghost use Rattle.tm_syntax.specs.Faults.Marks.{place_unless};
ghost use Rattle.tm_syntax.specs.Faults.Mismatches.{template_faults};
ghost use Rattle.tm_scope.specs.Context.{context_of};
ghost use Rattle.tm_types.specs.Firsts.{first_of};
ghost use Rattle.tm_types.specs.Inner.HeadFaults.{main_faults};

use crate::firsts::{earlier_place, place_unless};
use crate::mismatches::declared::{tasks_faults, types_faults, vars_faults};
use crate::mismatches::instances::{instances_faults, ports_faults};
use std::alloc::{AllocError, Global};
use tm_base::Place;
use tm_names::{Site, template_types};
use tm_syntax::tree::Template;

// The name of the template that stands for the whole.
const MAIN: &[u8] = b"main";

// Whether a template has no ports where it stands for the whole.
fn has_due_ports(template: &Template) -> bool
    ensures { result
        ≡ (not (is_spelled (codes "main") template.now.name) || nat_eq (length template.now.ports.items) 0) }
{
    let is_main = MAIN == template.name.text.as_bytes();
    let has_none = template.ports.as_slice().is_empty();
    !is_main || has_none
}

// The place of the name of a template that stands for the whole and has ports.
fn main_faults(template: &Template) -> Option<Place>
    ensures { result ≡ first_of (main_faults (template_tree template.now)) }
{
    place_unless(has_due_ports(template), template.name.place)
}

/// The first fault in the head, types, variables, instances and tasks of a template. `AllocError` is want of memory.
pub(crate) fn template_faults(
    alloc: Global,
    at: &Site,
    template: &Template,
) -> Result<Option<Place>, AllocError>
    requires { at.now.template ≡ template.now }
    ensures { IfOk result (λ first. first
        ≡ first_of (template_faults (context_of at.now).spec (template_tree template.now))) }
{
    let types = given!(template_types(alloc, template));
    let of_main = main_faults(template);
    let of_ports = ports_faults(at.names(), template.ports.as_slice());
    let of_types = types_faults(at.names(), types.as_slice());
    let of_vars = vars_faults(at, template.vars.as_slice());
    let of_instances = instances_faults(at, template.instances.as_slice());
    let of_tasks = tasks_faults(template.tasks.as_slice());
    let in_head = earlier_place(of_main, of_ports);
    let to_types = earlier_place(in_head, of_types);
    let to_vars = earlier_place(to_types, of_vars);
    let to_instances = earlier_place(to_vars, of_instances);
    Ok(earlier_place(to_instances, of_tasks))
}
