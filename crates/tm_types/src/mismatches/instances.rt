//! `F6` of the ports and instances of a template.
ghost use Rattle.std.specs.Prelude.{◌≡◌, [], map};
ghost use Rattle.std.specs.List.{flat_map, zip};
ghost use Rattle.std.specs.Option.{option_map, option_map_or};
ghost use Rattle.tm_syntax.specs.declared.tree.Port as head;
ghost use Rattle.tm_syntax.specs.Tree.View.{instance_tree, spec_tree, template_tree};
ghost use Rattle.tm_syntax.specs.Scopes.Declared.{template_in, text_sort};
ghost use Rattle.tm_syntax.specs.Faults.Mismatches as text;
ghost use Rattle.tm_scope.specs.Context.{context_of};
ghost use Rattle.tm_types.specs.Firsts.{first_of};
ghost use Rattle.tm_names.specs.Sorts.{sort_of};

use crate::firsts::{earlier_place, place_unless};
use crate::mismatches::wanted::{Wanted, misnamed};
use tm_base::Place;
use tm_names::{Site, Sort, TextNames};
use tm_syntax::tree::{Ident, InstanceDef, Port, Template};

// The place of the name of a port's template that is none.
fn port_faults(names: &TextNames, port: &Port) -> Option<Place>
    ensures { result ≡ first_of (text.misnamed text.is_template
        (text_sort (spec_tree names.now) port.now.template.text) port.now.template) }
{
    misnamed(
        Wanted::Template,
        names.text_sort(port.template.text.as_bytes()),
        &port.template,
    )
}

/// The first fault of some ports.
pub(crate) fn ports_faults(names: &TextNames, ports: &[Port]) -> Option<Place>
    ensures { result ≡ first_of (flat_map (λ (p : head.Port). text.misnamed text.is_template
        (text_sort (spec_tree names.now) p.template.text) p.template) ports.now) }
{
    let mut first = None;
    for port in ports {
        first = earlier_place(first, port_faults(names, port));
    }
    first
}

// Whether this is an instance or port of the template of a name.
fn is_instance_of(template: &Ident, sort: Sort) -> bool
    ensures { result ≡ text.is_instance_of template.now (sort_of sort.entry) }
{
    match sort {
        Sort::Neighbor(other) => template.text == other.text,
        _ => false,
    }
}

// The place of an argument that is declared, but not as an instance or port of its port's template.
fn arg_faults(at: &Site, port: &Port, arg: &Ident) -> Option<Place>
    ensures { result ≡ first_of (text.arg_faults (context_of at.now).template (port.now, arg.now)) }
{
    match at.member_sort(arg.text.as_bytes()) {
        Some(sort) => place_unless(is_instance_of(&port.template, sort), arg.place),
        None => None,
    }
}

// The first fault of the arguments for some ports, as many as both are.
fn matched_args_faults(at: &Site, ports: &[Port], args: &[Ident]) -> Option<Place>
    ensures { result
        ≡ first_of (flat_map (text.arg_faults (context_of at.now).template) (zip ports.now args.now)) }
{
    let mut first = None;
    for (port, arg) in ports.iter().zip(args) {
        first = earlier_place(first, arg_faults(at, port, arg));
    }
    first
}

// The first fault of the arguments of an instance of a template: as many as it has ports, and each for its port.
fn args_faults(at: &Site, instance: &InstanceDef, of: &Template) -> Option<Place>
    ensures { result ≡ first_of (text.args_faults (context_of at.now).template (instance_tree instance.now)
        (template_tree of.now)) }
{
    let ports = of.ports.as_slice();
    let args = instance.args.as_slice();
    let of_count = place_unless(ports.len() == args.len(), instance.name.place);
    earlier_place(of_count, matched_args_faults(at, ports, args))
}

// The first fault of the arguments of an instance of what is declared so, if this is a template.
fn declared_args_faults(at: &Site, instance: &InstanceDef, sort: Option<Sort>) -> Option<Place>
    ensures { result ≡ first_of (option_map_or
        (text.args_faults (context_of at.now).template (instance_tree instance.now))
        (template_in (option_map sort_of sort.entry)) []) }
{
    match sort {
        Some(Sort::Template(_, of)) => args_faults(at, instance, of),
        _ => None,
    }
}

// The first fault of an instance: it is one of a template, with arguments for its ports.
fn instance_faults(at: &Site, instance: &InstanceDef) -> Option<Place>
    ensures { result ≡ first_of (text.instance_faults (context_of at.now).spec (context_of at.now).template
        (instance_tree instance.now)) }
{
    let sort = at.names().text_sort(instance.template.text.as_bytes());
    let of_template = misnamed(Wanted::Template, sort, &instance.template);
    earlier_place(of_template, declared_args_faults(at, instance, sort))
}

/// The first fault of some instances.
pub(crate) fn instances_faults(at: &Site, instances: &[InstanceDef]) -> Option<Place>
    ensures { result ≡ first_of (flat_map
        (text.instance_faults (context_of at.now).spec (context_of at.now).template)
        (map instance_tree instances.now)) }
{
    let mut first = None;
    for instance in instances {
        first = earlier_place(first, instance_faults(at, instance));
    }
    first
}
