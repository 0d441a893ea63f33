//! The graph of templates: each leads to those of the instances that it holds.
ghost use Rattle.std.specs.Prelude.{◌≡◌, ◌++◌, IfOk, OnOk, map};
ghost use Rattle.std.specs.List.{filter_map};
ghost use Rattle.std.specs.Option.{option_to_list};
ghost use Rattle.tm_syntax.specs.Tree.{InstanceTree};
ghost use Rattle.tm_syntax.specs.Tree.View.{instance_tree, spec_tree, template_tree};
ghost use Rattle.tm_syntax.specs.Scopes.Names.{template_number};
ghost use Rattle.tm_scope.specs.Graph.{graph_of};
ghost use Rattle.tm_limits.specs.Templates.{held_numbers, holdings};

use std::alloc::{AllocError, Global};
use tm_scope::Scopes;
use tm_syntax::tree::{InstanceDef, Spec, Template};

/// For each template the numbers of the templates of its instances. Linear in the text. `AllocError` is want of memory.
pub(crate) fn held_templates(
    alloc: Global,
    scopes: &Scopes,
    spec: &Spec,
) -> Result<Vec<Vec<usize>>, AllocError>
    requires { scopes.now ≡ spec.now }
    ensures { IfOk result (λ graph. graph_of graph.items ≡ holdings (spec_tree spec.now)) }
{
    held_by(alloc, scopes, spec.templates.as_slice())
}

// For each of some templates the numbers of the templates of its instances.
fn held_by(
    alloc: Global,
    scopes: &Scopes,
    templates: &[Template],
) -> Result<Vec<Vec<usize>>, AllocError>
    ensures { IfOk result (λ graph. graph_of graph.items
        ≡ map (held_numbers (spec_tree scopes.now)) (map template_tree templates.now)) }
{
    let mut graph = Vec::new(alloc);
    for template in templates {
        graph.push(held_numbers(alloc, scopes, template.instances.as_slice())?)?;
    }
    Ok(graph)
}

// The numbers of the templates of some instances.
fn held_numbers(
    alloc: Global,
    scopes: &Scopes,
    instances: &[InstanceDef],
) -> Result<Vec<usize>, AllocError>
    ensures { IfOk result (λ numbers. numbers.items
        ≡ filter_map (λ (i : InstanceTree). template_number (spec_tree scopes.now) i.template.text)
        (map instance_tree instances.now)) }
{
    let mut numbers = Vec::new(alloc);
    for instance in instances {
        push_some(
            &mut numbers,
            scopes.template_number(instance.template.text.as_bytes()),
        )?;
    }
    Ok(numbers)
}

// Puts a number behind others, if there is one.
fn push_some(numbers: &mut Vec<usize>, number: Option<usize>) -> Result<(), AllocError>
    ensures { OnOk result (numbers.new.items ≡ numbers.old.items ++ option_to_list number) }
{
    if let Some(number) = number {
        numbers.push(number)?;
    }
    Ok(())
}
