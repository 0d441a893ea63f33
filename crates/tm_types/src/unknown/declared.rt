//! The first name in the declarations of a text that no declaration gives in its scope.
ghost use Rattle.std.specs.Prelude.{◌≡◌, IfOk, map};
ghost use Rattle.std.specs.List.{flat_map};
ghost use Rattle.std.specs.Option.{option_map, option_to_list};
ghost use Rattle.tm_syntax.specs.Tree as tree;
ghost use Rattle.tm_syntax.specs.Tree.View.{expr_tree, instance_tree, spec_tree, template_tree, var_tree};
ghost use Rattle.tm_syntax.specs.Scopes.Declared.{members, sort_in, text_sort};
ghost use Rattle.tm_syntax.specs.Scopes.Parts.{template_types};
ghost use Rattle.tm_syntax.specs.Faults.Marks.{first_mark};
ghost use Rattle.tm_syntax.specs.Faults.Names.{
  undeclared,
  unknown_in_instance,
  unknown_in_template,
  unknown_literal,
  unknown_main,
  unknown_type,
};
ghost use Rattle.tm_scope.specs.Context.{context_of};
ghost use Rattle.tm_names.specs.Parts.{listed_types};
ghost use Rattle.tm_names.specs.ScopeNames.{mark_of};
ghost use Rattle.tm_names.specs.Sorts.{sort_of};

use crate::firsts_named::{earlier_name, earliest_of_four};
use crate::unknown::exprs::name_mark;
use std::alloc::{AllocError, Global};
use tm_base::Place;
use tm_names::{NameMark, Site, Sort, TextNames, earlier_mark, template_types};
use tm_syntax::tree::{Expr, Ident, InstanceDef, Port, Template, TypeName, VarDef};

// The name of the template that stands for the whole.
const MAIN: &[u8] = b"main";

// A name that is declared as nothing.
fn undeclared<'a>(sort: Option<Sort<'a>>, name: &'a Ident) -> Option<NameMark<'a>>
    ensures { option_map mark_of result ≡ first_mark (undeclared (option_map sort_of sort.entry) name.now) }
{
    match sort {
        Some(_) => None,
        None => Some(name_mark(name)),
    }
}

// A name that the text does not declare.
fn unknown_in_text<'a>(names: &TextNames<'a>, name: &'a Ident) -> Option<NameMark<'a>>
    ensures { option_map mark_of result
        ≡ first_mark (undeclared (text_sort (spec_tree names.now) name.now.text) name.now) }
{
    undeclared(names.text_sort(name.text.as_bytes()), name)
}

// The name of a type that the text does not declare.
fn unknown_type<'a>(names: &TextNames<'a>, ty: &'a TypeName) -> Option<NameMark<'a>>
    ensures { option_map mark_of result ≡ first_mark (unknown_type (spec_tree names.now) ty.now) }
{
    match ty {
        TypeName::Bool(_) => None,
        TypeName::Uint(_, _) => None,
        TypeName::Enum(name) => unknown_in_text(names, name),
    }
}

// The name in an initial literal that the text does not declare.
fn unknown_literal<'a>(names: &TextNames<'a>, literal: &'a Expr) -> Option<NameMark<'a>>
    ensures { option_map mark_of result ≡ first_mark (unknown_literal (spec_tree names.now) (expr_tree literal.now)) }
{
    match literal {
        Expr::Path(path) => unknown_constant(names, path.names.as_slice()),
        _ => None,
    }
}

// The only name of a path that the text does not declare.
fn unknown_constant<'a>(names: &TextNames<'a>, path: &'a [Ident]) -> Option<NameMark<'a>>
    ensures { option_map mark_of result ≡ first_mark (unknown_literal (spec_tree names.now) (tree.path path.now)) }
{
    let [name] = path else {
        return None;
    };
    unknown_in_text(names, name)
}

// The first one in the initial literal of a variable.
fn unknown_init<'a>(names: &TextNames<'a>, var: &'a VarDef) -> Option<NameMark<'a>>
    ensures { option_map mark_of result ≡ first_mark (flat_map (unknown_literal (spec_tree names.now))
        (option_to_list (option_map expr_tree var.now.init))) }
{
    match &var.init {
        Some(literal) => unknown_literal(names, literal),
        None => None,
    }
}

// The first one in the initial literals of some variables.
fn unknown_inits<'a>(names: &TextNames<'a>, vars: &'a [VarDef]) -> Option<NameMark<'a>>
    ensures { option_map mark_of result ≡ first_mark (flat_map
        (λ v. flat_map (unknown_literal (spec_tree names.now)) (option_to_list v.init)) (map var_tree vars.now)) }
{
    let mut first = None;
    for var in vars {
        first = earlier_mark(first, unknown_init(names, var));
    }
    first
}

// The first one in some types.
fn unknown_types<'a>(names: &TextNames<'a>, types: &[&'a TypeName]) -> Option<NameMark<'a>>
    ensures { option_map mark_of result
        ≡ first_mark (flat_map (unknown_type (spec_tree names.now)) (listed_types types.now)) }
{
    let mut first = None;
    for ty in types {
        first = earlier_mark(first, unknown_type(names, *ty));
    }
    first
}

// The first template of some ports that the text does not declare.
fn unknown_ports<'a>(names: &TextNames<'a>, ports: &'a [Port]) -> Option<NameMark<'a>>
    ensures { option_map mark_of result ≡ first_mark (flat_map
        (λ p. undeclared (text_sort (spec_tree names.now) p.template.text) p.template) ports.now) }
{
    let mut first = None;
    for port in ports {
        first = earlier_mark(first, unknown_in_text(names, &port.template));
    }
    first
}

// An argument of an instance that is no member of the template in which the instance stands.
fn unknown_arg<'a>(site: &Site<'a>, arg: &'a Ident) -> Option<NameMark<'a>>
    ensures { option_map mark_of result
        ≡ first_mark (undeclared (sort_in (members (context_of site.now).template) arg.now.text) arg.now) }
{
    undeclared(site.member_sort(arg.text.as_bytes()), arg)
}

// The first one of some arguments.
fn unknown_args<'a>(site: &Site<'a>, args: &'a [Ident]) -> Option<NameMark<'a>>
    ensures { option_map mark_of result ≡ first_mark (flat_map
        (λ a. undeclared (sort_in (members (context_of site.now).template) a.text) a) args.now) }
{
    let mut first = None;
    for arg in args {
        first = earlier_mark(first, unknown_arg(site, arg));
    }
    first
}

// The first one in an instance: its template, or one of its arguments.
fn unknown_in_instance<'a>(site: &Site<'a>, instance: &'a InstanceDef) -> Option<NameMark<'a>>
    ensures { option_map mark_of result ≡ first_mark
        (unknown_in_instance (context_of site.now).spec (context_of site.now).template (instance_tree instance.now)) }
{
    let of_template = unknown_in_text(site.names(), &instance.template);
    earlier_name(of_template, unknown_args(site, instance.args.as_slice()))
}

// The first one in some instances.
fn unknown_in_instances<'a>(site: &Site<'a>, instances: &'a [InstanceDef]) -> Option<NameMark<'a>>
    ensures { option_map mark_of result ≡ first_mark (flat_map
        (unknown_in_instance (context_of site.now).spec (context_of site.now).template)
        (map instance_tree instances.now)) }
{
    let mut first = None;
    for instance in instances {
        first = earlier_mark(first, unknown_in_instance(site, instance));
    }
    first
}

/// The first one in the head, types, variables and instances of a template. `AllocError` is want of memory.
pub(crate) fn unknown_in_template<'a>(
    alloc: Global,
    site: &Site<'a>,
    template: &'a Template,
) -> Result<Option<NameMark<'a>>, AllocError>
    requires { site.now.template ≡ template.now }
    ensures { IfOk result (λ first. option_map mark_of first
        ≡ first_mark (unknown_in_template (context_of site.now).spec (template_tree template.now))) }
{
    let types = given!(template_types(alloc, template));
    let in_ports = unknown_ports(site.names(), template.ports.as_slice());
    let in_instances = unknown_in_instances(site, template.instances.as_slice());
    let in_types = unknown_types(site.names(), types.as_slice());
    let in_literals = unknown_inits(site.names(), template.vars.as_slice());
    Ok(earliest_of_four(in_ports, in_instances, in_types, in_literals))
}

/// That there is no template `main`.
pub(crate) fn unknown_main<'a>(names: &TextNames<'a>) -> Option<NameMark<'a>>
    ensures { option_map mark_of result ≡ first_mark (unknown_main (spec_tree names.now)) }
{
    match names.tables().template_number(MAIN) {
        Some(_) => None,
        None => Some(NameMark {
            place: Place { line: 1, column: 1 },
            name: MAIN,
        }),
    }
}
