//! The first long name among what templates declare, and what their heads, types, instances and literals use.
ghost use Rattle.std.specs.Prelude.{◌≡◌, ◌∷◌, ◌++◌, [], map};
ghost use Rattle.std.specs.List.{flat_map};
ghost use Rattle.std.specs.Option.{option_copied, option_map, option_to_list};
ghost use Rattle.tm_syntax.specs.declared.tree.Param as parameters;
ghost use Rattle.tm_syntax.specs.declared.tree.Port as handed;
ghost use Rattle.tm_syntax.specs.Tree.{InstanceTree, LocalTree, NamedTree, ProcessTree, TaskTree, VarTree};
ghost use Rattle.tm_syntax.specs.Tree.View.{
  expr_tree,
  instance_tree,
  local_tree,
  named_tree,
  process_tree,
  task_tree,
  template_tree,
  var_tree,
};
ghost use Rattle.tm_syntax.specs.Scopes.Parts.{template_types, written_result};
ghost use Rattle.tm_syntax.specs.Faults.Limits.{declared_names, type_names, used_names};
ghost use Rattle.tm_limits.specs.LongNames.{expr_names, first_long, task_types};

use crate::names::first::{earlier, expr_long, long, names_long};
use tm_syntax::tree::{
    Expr, Ident, InstanceDef, LocalDef, Named, Param, Port, ProcessDef, TaskDef, TaskKind,
    Template, TypeName, VarDef,
};

/// The first long name among what templates declare.
pub(crate) fn declared_long(templates: &[Template]) -> Option<&Ident>
    ensures { option_copied result ≡ first_long (flat_map declared_names (map template_tree templates.now)) }
{
    let mut first = None;
    for template in templates {
        first = earlier(first, template_declared(template));
    }
    first
}

// The first long name among what a template declares.
fn template_declared(template: &Template) -> Option<&Ident>
    ensures { option_copied result ≡ first_long (declared_names (template_tree template.now)) }
{
    let ports = earlier(
        long(&template.name),
        ports_declared(template.ports.as_slice()),
    );
    let instances = earlier(ports, instances_declared(template.instances.as_slice()));
    let vars = earlier(instances, vars_declared(template.vars.as_slice()));
    let goals = earlier(vars, named_declared(template.goals.as_slice()));
    let fairs = earlier(goals, named_declared(template.fairs.as_slice()));
    let processes = earlier(fairs, processes_declared(template.processes.as_slice()));
    earlier(processes, tasks_declared(template.tasks.as_slice()))
}

// The first long name of ports.
fn ports_declared(ports: &[Port]) -> Option<&Ident>
    ensures { option_copied result ≡ first_long (flat_map (λ (p : handed.Port). p.name ∷ []) ports.now) }
{
    let mut first = None;
    for port in ports {
        first = earlier(first, long(&port.name));
    }
    first
}

// The first long name of instances.
fn instances_declared(instances: &[InstanceDef]) -> Option<&Ident>
    ensures { option_copied result
        ≡ first_long (flat_map (λ (i : InstanceTree). i.name ∷ []) (map instance_tree instances.now)) }
{
    let mut first = None;
    for instance in instances {
        first = earlier(first, long(&instance.name));
    }
    first
}

// The first long name of variables.
fn vars_declared(vars: &[VarDef]) -> Option<&Ident>
    ensures { option_copied result ≡ first_long (flat_map (λ (v : VarTree). v.name ∷ []) (map var_tree vars.now)) }
{
    let mut first = None;
    for var in vars {
        first = earlier(first, long(&var.name));
    }
    first
}

// The first long name of goals or fairness conditions.
fn named_declared(named: &[Named]) -> Option<&Ident>
    ensures { option_copied result ≡ first_long (flat_map (λ (n : NamedTree). n.name ∷ []) (map named_tree named.now)) }
{
    let mut first = None;
    for one in named {
        first = earlier(first, long(&one.name));
    }
    first
}

// The first long name of processes and their locals.
fn processes_declared(processes: &[ProcessDef]) -> Option<&Ident>
    ensures { option_copied result ≡ first_long (flat_map (λ (p : ProcessTree).
        p.name ∷ map (λ (l : LocalTree). l.name) p.body.locals) (map process_tree processes.now)) }
{
    let mut first = None;
    for process in processes {
        let own = earlier(
            long(&process.name),
            locals_declared(process.body.locals.as_slice()),
        );
        first = earlier(first, own);
    }
    first
}

// The first long name of tasks, their parameters and their locals.
fn tasks_declared(tasks: &[TaskDef]) -> Option<&Ident>
    ensures { option_copied result ≡ first_long (flat_map (λ (k : TaskTree).
        k.name ∷ map (λ (p : parameters.Param). p.name) k.params
        ++ map (λ (l : LocalTree). l.name) k.body.locals) (map task_tree tasks.now)) }
{
    let mut first = None;
    for task in tasks {
        let head = earlier(long(&task.name), params_declared(task.params.as_slice()));
        let own = earlier(head, locals_declared(task.body.locals.as_slice()));
        first = earlier(first, own);
    }
    first
}

// The first long name of parameters.
fn params_declared(params: &[Param]) -> Option<&Ident>
    ensures { option_copied result ≡ first_long (flat_map (λ (p : parameters.Param). p.name ∷ []) params.now) }
{
    let mut first = None;
    for param in params {
        first = earlier(first, long(&param.name));
    }
    first
}

// The first long name of locals.
fn locals_declared(locals: &[LocalDef]) -> Option<&Ident>
    ensures { option_copied result
        ≡ first_long (flat_map (λ (l : LocalTree). l.name ∷ []) (map local_tree locals.now)) }
{
    let mut first = None;
    for local in locals {
        first = earlier(first, long(&local.name));
    }
    first
}

/// The first long name among what the heads, types, instances and literals of templates use.
pub(crate) fn used_long(templates: &[Template]) -> Option<&Ident>
    ensures { option_copied result ≡ first_long (flat_map used_names (map template_tree templates.now)) }
{
    let mut first = None;
    for template in templates {
        first = earlier(first, template_used(template));
    }
    first
}

// The first long name among what a template's head, types, instances and literals use.
fn template_used(template: &Template) -> Option<&Ident>
    ensures { option_copied result ≡ first_long (used_names (template_tree template.now)) }
{
    let ports = ports_used(template.ports.as_slice());
    let instances = earlier(ports, instances_used(template.instances.as_slice()));
    let types = earlier(instances, types_used(template));
    earlier(types, literals_used(template.vars.as_slice()))
}

// The first long name of the templates of ports.
fn ports_used(ports: &[Port]) -> Option<&Ident>
    ensures { option_copied result ≡ first_long (flat_map (λ (p : handed.Port). p.template ∷ []) ports.now) }
{
    let mut first = None;
    for port in ports {
        first = earlier(first, long(&port.template));
    }
    first
}

// The first long name of the templates and arguments of instances.
fn instances_used(instances: &[InstanceDef]) -> Option<&Ident>
    ensures { option_copied result
        ≡ first_long (flat_map (λ (i : InstanceTree). i.template ∷ i.args) (map instance_tree instances.now)) }
{
    let mut first = None;
    for instance in instances {
        let own = earlier(
            long(&instance.template),
            names_long(instance.args.as_slice()),
        );
        first = earlier(first, own);
    }
    first
}

// The first long name in initial literals.
fn literals_used(vars: &[VarDef]) -> Option<&Ident>
    ensures { option_copied result ≡ first_long (flat_map (λ (v : VarTree).
        flat_map expr_names (option_to_list v.init)) (map var_tree vars.now)) }
{
    let mut first = None;
    for var in vars {
        first = earlier(first, literal_used(&var.init));
    }
    first
}

// The first long name in an initial literal.
#[tactic(auto, using(crate::proofs::NameLists::name_lists))]
fn literal_used(init: &Option<Expr>) -> Option<&Ident>
    ensures { option_copied result
        ≡ first_long (flat_map expr_names (option_to_list (option_map expr_tree init.now))) }
{
    match init {
        Some(literal) => expr_long(literal),
        None => None,
    }
}

// The first long name among the types that a template writes.
fn types_used(template: &Template) -> Option<&Ident>
    ensures { option_copied result
        ≡ first_long (flat_map type_names (template_types (template_tree template.now))) }
{
    let vars = vars_types(template.vars.as_slice());
    let processes = earlier(vars, processes_types(template.processes.as_slice()));
    earlier(processes, tasks_types(template.tasks.as_slice()))
}

// The first long name of a type.
#[tactic(auto, using(crate::proofs::NameLists::name_lists))]
fn type_long(ty: &TypeName) -> Option<&Ident>
    ensures { option_copied result ≡ first_long (type_names ty.now) }
{
    match ty {
        TypeName::Bool(_) => None,
        TypeName::Uint(_, _) => None,
        TypeName::Enum(name) => long(name),
    }
}

// The first long name among the types of variables.
fn vars_types(vars: &[VarDef]) -> Option<&Ident>
    ensures { option_copied result ≡ first_long (flat_map (λ v. type_names v.ty) (map var_tree vars.now)) }
{
    let mut first = None;
    for var in vars {
        first = earlier(first, type_long(&var.ty));
    }
    first
}

// The first long name among the types of locals of processes.
fn processes_types(processes: &[ProcessDef]) -> Option<&Ident>
    ensures { option_copied result ≡ first_long (flat_map (λ (p : ProcessTree).
        flat_map (λ (l : LocalTree). type_names l.ty) p.body.locals) (map process_tree processes.now)) }
{
    let mut first = None;
    for process in processes {
        first = earlier(first, locals_types(process.body.locals.as_slice()));
    }
    first
}

// The first long name among the types of results, parameters and locals of tasks.
fn tasks_types(tasks: &[TaskDef]) -> Option<&Ident>
    ensures { option_copied result ≡ first_long (flat_map task_types (map task_tree tasks.now)) }
{
    let mut first = None;
    for task in tasks {
        first = earlier(first, task_types(task));
    }
    first
}

// The first long name among the types of a task's result, parameters and locals.
fn task_types(task: &TaskDef) -> Option<&Ident>
    ensures { option_copied result ≡ first_long (task_types (task_tree task.now)) }
{
    let head = earlier(
        result_type(&task.kind),
        params_types(task.params.as_slice()),
    );
    earlier(head, locals_types(task.body.locals.as_slice()))
}

// The first long name of a procedure's result.
#[tactic(auto, using(crate::proofs::NameLists::name_lists))]
fn result_type(kind: &TaskKind) -> Option<&Ident>
    ensures { option_copied result ≡ first_long (flat_map type_names (option_to_list (written_result kind.now))) }
{
    match kind {
        TaskKind::Controllable => None,
        TaskKind::Uncontrollable => None,
        TaskKind::Procedure(None) => None,
        TaskKind::Procedure(Some(ty)) => type_long(ty),
    }
}

// The first long name among the types of parameters.
fn params_types(params: &[Param]) -> Option<&Ident>
    ensures { option_copied result ≡ first_long (flat_map (λ (p : parameters.Param). type_names p.ty) params.now) }
{
    let mut first = None;
    for param in params {
        first = earlier(first, type_long(&param.ty));
    }
    first
}

// The first long name among the types of locals.
fn locals_types(locals: &[LocalDef]) -> Option<&Ident>
    ensures { option_copied result ≡ first_long
        (flat_map (λ (l : LocalTree). type_names l.ty) (map local_tree locals.now)) }
{
    let mut first = None;
    for local in locals {
        first = earlier(first, type_long(&local.ty));
    }
    first
}
