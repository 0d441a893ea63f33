//! The instances of a design, in preorder.
ghost use Rattle.std.specs.Prelude.{◌≡◌, ◌<◌, ◌≤◌, ◌+◌, ◌++◌, [], ℕ, List, IfOk, OnOk, Some, codes, get_or, length, map, slice_get, sum_by};
ghost use Rattle.std.specs.List.{AllByRecursion, cons_option, filter_map};
ghost use Rattle.tm_syntax.specs.declared.fault.Quantity.TheVariants as quantity;
ghost use Rattle.tm_syntax.specs.Tree as tree;
ghost use Rattle.tm_syntax.specs.Tree.View.{instance_tree, spec_tree};
ghost use Rattle.tm_syntax.specs.Scopes.Names.{template_number};
ghost use Rattle.tm_syntax.specs.Faults.Limits.{limit_of};
ghost use Rattle.tm_syntax.specs.Design.{AreInstances, InstanceNode, instance_node};
ghost use Rattle.tm_inst.specs.Instances.{AreSizes, HoldsKnown, held_size};
ghost use Rattle.tm_inst.specs.Sizes.{number_limit};
ghost use Rattle.tm_inst.specs.Inner.Growth.{Grows, HasGrown, HasHeld, HoldsAt, offsets, port_named};

use crate::paths::member_name;
use std::alloc::{AllocError, Global};
use tm_base::Name;
use tm_scope::{Scopes, Sites};
use tm_syntax::design::Instance;
use tm_syntax::tree::{Ident, InstanceDef};

/// The instances of a specification in which no template holds itself, in preorder from `main`, with what they hold and
/// what their ports stand for. `sizes` says of each template how many instances one of it is, with all below it; where
/// these are 2^32 or more, any number from there on will do. Linear in the instances and their paths, and as deep as
/// instances nest, so no deeper than the limit on instances. `AllocError` is want of memory.
pub fn list_instances(
    alloc: Global,
    scopes: &Scopes,
    sizes: &[usize],
    main: usize,
) -> Result<Vec<Instance>, AllocError>
    requires sizes { AreSizes (spec_tree scopes.now) sizes.now }
    requires held { HoldsKnown (spec_tree scopes.now) }
    requires few { length scopes.now.templates.items ≤ number_limit }
    requires main { template_number (spec_tree scopes.now) (codes "main") ≡ Some main }
    requires apart { (t : tree.TemplateTree) → slice_get (spec_tree scopes.now).templates main ≡ Some t
        → t.ports ≡ [] }
    requires small { get_or sizes.now main 0 ≤ limit_of quantity.Instances }
    ensures { IfOk result (λ nodes. AreInstances (spec_tree scopes.now) (map instance_node nodes.items)) }
{
    let mut nodes = Vec::new(alloc);
    let path = Name::from_bytes(alloc, &[])?;
    add_instance(
        alloc,
        scopes,
        sizes,
        &mut nodes,
        main,
        path,
        Vec::new(alloc),
    )?;
    Ok(nodes)
}

// Puts an instance of a template behind others, and then all below it. As deep as instances nest, so no deeper than
// there are instances.
#[cycle(growth)]
fn add_instance(
    alloc: Global,
    scopes: &Scopes,
    sizes: &[usize],
    nodes: &mut Vec<Instance>,
    template: usize,
    path: Name,
    ports: Vec<u32>,
) -> Result<(), AllocError>
    requires sizes { AreSizes (spec_tree scopes.now) sizes.now }
    requires held { HoldsKnown (spec_tree scopes.now) }
    requires few { length scopes.now.templates.items ≤ number_limit }
    requires within { template < length scopes.now.templates.items }
    requires ports { (t : tree.TemplateTree) → slice_get (spec_tree scopes.now).templates template ≡ Some t
        → length ports.items ≡ length t.ports }
    requires room { length nodes.old.items + get_or sizes.now template 0 < number_limit }
    ensures { OnOk result (HasGrown (spec_tree scopes.now) (map instance_node nodes.old.items)
        (map instance_node nodes.new.items) template (get_or sizes.now template 0) path ports.items) }
{
    let number = nodes.len();
    let held = scopes.spec().templates[template].instances.as_slice();
    let children = children_of(alloc, scopes, sizes, held, number + 1)?;
    nodes.push(Instance {
        path,
        template: template as u32,
        ports,
        children,
    })?;
    add_all_held(alloc, scopes, sizes, nodes, number, held)
}

// Puts instances that the template of another one declares behind others, with all below them.
#[cycle(growth)]
fn add_all_held(
    alloc: Global,
    scopes: &Scopes,
    sizes: &[usize],
    nodes: &mut Vec<Instance>,
    holder: usize,
    held: &[InstanceDef],
) -> Result<(), AllocError>
    requires sizes { AreSizes (spec_tree scopes.now) sizes.now }
    requires held { HoldsKnown (spec_tree scopes.now) }
    requires few { length scopes.now.templates.items ≤ number_limit }
    requires holder { AllByRecursion (HoldsAt (spec_tree scopes.now) (map instance_node nodes.old.items) holder)
        (map instance_tree held.now) }
    requires room { length nodes.old.items
        + sum_by (held_size (spec_tree scopes.now) sizes.now) (map instance_tree held.now) < number_limit }
    ensures { OnOk result ((old : List InstanceNode) (t : tree.TemplateTree) (template size : ℕ) (path ports : List ℕ)
        → length old ≡ holder
        → Grows (spec_tree scopes.now) sizes.now old (map instance_node nodes.old.items) t template size path ports
        (map instance_tree held.now)
        → Grows (spec_tree scopes.now) sizes.now old (map instance_node nodes.new.items) t template size path ports
        []) }
{
    for one in held {
        add_held(alloc, scopes, sizes, nodes, holder, one)?;
    }
    Ok(())
}

// Puts an instance that the template of another one declares behind others, with all below it.
#[cycle(growth)]
fn add_held(
    alloc: Global,
    scopes: &Scopes,
    sizes: &[usize],
    nodes: &mut Vec<Instance>,
    holder: usize,
    held: &InstanceDef,
) -> Result<(), AllocError>
    requires sizes { AreSizes (spec_tree scopes.now) sizes.now }
    requires held { HoldsKnown (spec_tree scopes.now) }
    requires few { length scopes.now.templates.items ≤ number_limit }
    requires holder { HoldsAt (spec_tree scopes.now) (map instance_node nodes.old.items) holder
        (instance_tree held.now) }
    requires room { length nodes.old.items + held_size (spec_tree scopes.now) sizes.now (instance_tree held.now)
        < number_limit }
    ensures { OnOk result ((parent : InstanceNode) (t : tree.TemplateTree)
        → slice_get (map instance_node nodes.old.items) holder ≡ Some parent
        → slice_get (spec_tree scopes.now).templates parent.template ≡ Some t
        → HasHeld (spec_tree scopes.now) (map instance_node nodes.old.items) (map instance_node nodes.new.items)
        parent t (instance_tree held.now) (held_size (spec_tree scopes.now) sizes.now (instance_tree held.now))) }
{
    match scopes.template_number(held.template.text.as_bytes()) {
        Some(template) => {
            let ports = ports_of(
                alloc,
                scopes,
                nodes.as_slice(),
                holder as u32,
                held.args.as_slice(),
            )?;
            let path = member_name(
                alloc,
                nodes[holder].path.as_bytes(),
                held.name.text.as_bytes(),
            )?;
            add_instance(alloc, scopes, sizes, nodes, template, path, ports)
        }
        None => Ok(()),
    }
}

// The numbers of instances that a template declares, from a number on.
fn children_of(
    alloc: Global,
    scopes: &Scopes,
    sizes: &[usize],
    held: &[InstanceDef],
    first: usize,
) -> Result<Vec<u32>, AllocError>
    requires room { first + sum_by (held_size (spec_tree scopes.now) sizes.now) (map instance_tree held.now)
        < number_limit }
    ensures { IfOk result (λ xs. xs.items
        ≡ offsets (spec_tree scopes.now) sizes.now first (map instance_tree held.now)) }
{
    let mut numbers = Vec::new(alloc);
    let mut at = first;
    for one in held {
        numbers.push(at as u32)?;
        at += held_size(scopes, sizes, one);
    }
    Ok(numbers)
}

// How many instances an instance that a template declares is, with all below it.
fn held_size(scopes: &Scopes, sizes: &[usize], held: &InstanceDef) -> usize
    ensures { result ≡ held_size (spec_tree scopes.now) sizes.now (instance_tree held.now) }
{
    match scopes.template_number(held.template.text.as_bytes()) {
        Some(template) => sizes.get(template).copied().unwrap_or(0),
        None => 0,
    }
}

// What the arguments of an instance stand for, those that stand for nothing left out.
fn ports_of(
    alloc: Global,
    scopes: &Scopes,
    nodes: &[Instance],
    holder: u32,
    args: &[Ident],
) -> Result<Vec<u32>, AllocError>
    ensures { IfOk result (λ ports. ports.items ≡ filter_map (port_named scopes.now nodes.now holder) args.now) }
{
    let sites = Sites::new(scopes, nodes);
    let mut ports = Vec::new(alloc);
    for arg in args {
        push_port(&mut ports, sites.neighbor(holder, arg.text.as_bytes()))?;
    }
    Ok(ports)
}

// Puts the number of an instance behind others, if it is there.
fn push_port(ports: &mut Vec<u32>, port: Option<u32>) -> Result<(), AllocError>
    ensures { OnOk result (ports.new.items ≡ ports.old.items ++ cons_option port []) }
{
    if let Some(number) = port {
        ports.push(number)?;
    }
    Ok(())
}
