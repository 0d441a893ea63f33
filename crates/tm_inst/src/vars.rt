//! The state variables of instances.
ghost use Rattle.std.specs.Prelude.{◌≡◌, ◌<◌, ◌≤◌, ◌++◌, ◌∷◌, [], All, IfOk, OnOk, Some, length, map, slice_get};
ghost use Rattle.std.specs.List.{enumerate_from, flat_map};
ghost use Rattle.std.specs.Option.{option_map};
ghost use Rattle.tm_syntax.specs.Tree.{LocalTree, TemplateTree, path};
ghost use Rattle.tm_syntax.specs.Tree.View.{expr_tree, local_tree, process_tree, spec_tree, task_tree, template_tree, var_tree};
ghost use Rattle.tm_syntax.specs.declared.tree.Param as declared;
ghost use Rattle.tm_syntax.specs.declared.tree.Template as text;
ghost use Rattle.tm_syntax.specs.Scopes.Names.{type_of, written_width};
ghost use Rattle.tm_syntax.specs.Design.{declared_vars, element_paths, instance_node, instance_vars, kept_var, literal_value, process_vars, task_vars};
ghost use Rattle.tm_scope.specs.Cells.{ArePausing};
ghost use Rattle.tm_scope.specs.Members.{task_at};
ghost use Rattle.tm_inst.specs.Inner.Listed.{slot_vars, template_vars, var_of};
ghost use Rattle.tm_inst.specs.Sizes.{HasNarrowLocals, HasNarrowSlots, HasNarrowTypes, IsNarrow, number_limit, width_limit};

use crate::paths::{below_name, element_name, member_name};
use std::alloc::{AllocError, Global};
use tm_base::Name;
use tm_scope::{Scopes, TaskSet, task_is_kept};
use tm_syntax::design::{Instance, Ty, Var};
use tm_syntax::member::Member;
use tm_syntax::tree::{
    Expr, Ident, LocalDef, Num, Param, ProcessDef, TaskDef, Template, TypeName, VarDef,
};

/// The state variables of instances of a specification's templates, as its design numbers them: of each instance those
/// of its template, then the locals of its processes, then the parameters and locals of its tasks that are kept.
/// `pausing` are the tasks that may pause. In time linear in the paths. `AllocError` is want of memory.
pub fn variables(
    alloc: Global,
    scopes: &Scopes,
    pausing: &TaskSet,
    instances: &[Instance],
) -> Result<Vec<Var>, AllocError>
    requires pausing { ArePausing (spec_tree scopes.now) pausing.now }
    requires narrow { All HasNarrowTypes scopes.now.templates.items }
    requires few { length instances.now ≤ number_limit }
    ensures { IfOk result (λ vars. vars.items ≡ flat_map (instance_vars (spec_tree scopes.now))
        (enumerate_from 0 (map instance_node instances.now))) }
{
    let mut vars = Vec::new(alloc);
    for (number, node) in instances.iter().enumerate() {
        push_instance(alloc, scopes, pausing, &mut vars, number as u32, node)?;
    }
    Ok(vars)
}

// Puts the variables of an instance behind others.
fn push_instance(
    alloc: Global,
    scopes: &Scopes,
    pausing: &TaskSet,
    vars: &mut Vec<Var>,
    number: u32,
    node: &Instance,
) -> Result<(), AllocError>
    requires pausing { ArePausing (spec_tree scopes.now) pausing.now }
    requires narrow { All HasNarrowTypes scopes.now.templates.items }
    ensures { OnOk result (vars.new.items
        ≡ vars.old.items ++ instance_vars (spec_tree scopes.now) (number, instance_node node.now)) }
{
    let at = node.template as usize;
    match scopes.spec().templates.get(at) {
        Some(template) => {
            push_template(
                alloc,
                scopes,
                pausing,
                vars,
                number,
                node.path.as_bytes(),
                at,
                template,
            )
        }
        None => Ok(()),
    }
}

// Puts the variables that the template of an index has in an instance behind others.
fn push_template(
    alloc: Global,
    scopes: &Scopes,
    pausing: &TaskSet,
    vars: &mut Vec<Var>,
    number: u32,
    base: &[u8],
    at: usize,
    template: &Template,
) -> Result<(), AllocError>
    requires pausing { ArePausing (spec_tree scopes.now) pausing.now }
    requires numbered { slice_get scopes.now.templates.items at ≡ Some template.now }
    requires narrow { HasNarrowTypes template.now }
    ensures { OnOk result (vars.new.items ≡ vars.old.items
        ++ template_vars (spec_tree scopes.now) number base.now (template_tree template.now)) }
{
    push_declared_vars(alloc, scopes, vars, number, base, template.vars.as_slice())?;
    push_processes(alloc, vars, number, base, template.processes.as_slice())?;
    push_tasks(alloc, scopes, pausing, vars, number, base, at, template)
}

// Puts the variables of declarations behind others.
fn push_declared_vars(
    alloc: Global,
    scopes: &Scopes,
    vars: &mut Vec<Var>,
    number: u32,
    base: &[u8],
    declared: &[VarDef],
) -> Result<(), AllocError>
    requires narrow { All (λ v. IsNarrow v.ty) declared.now }
    ensures { OnOk result (vars.new.items ≡ vars.old.items
        ++ flat_map (declared_vars (spec_tree scopes.now) number base.now) (map var_tree declared.now)) }
{
    for var in declared {
        push_declared(alloc, scopes, vars, number, base, var)?;
    }
    Ok(())
}

// Puts the variables of a declaration behind others.
fn push_declared(
    alloc: Global,
    scopes: &Scopes,
    vars: &mut Vec<Var>,
    number: u32,
    base: &[u8],
    var: &VarDef,
) -> Result<(), AllocError>
    requires narrow { IsNarrow var.now.ty }
    ensures { OnOk result (vars.new.items
        ≡ vars.old.items ++ declared_vars (spec_tree scopes.now) number base.now (var_tree var.now)) }
{
    let init = initial_value(scopes, &var.init);
    let path = member_name(alloc, base, var.name.text.as_bytes())?;
    match var.length {
        Some(length) => push_elements(alloc, vars, number, path.as_bytes(), length, &var.ty, init),
        None => push_var(alloc, vars, number, path, &var.ty, init),
    }
}

// Puts the elements of an array behind others.
fn push_elements(
    alloc: Global,
    vars: &mut Vec<Var>,
    number: u32,
    base: &[u8],
    length: Num,
    ty: &TypeName,
    init: Option<u64>,
) -> Result<(), AllocError>
    requires narrow { IsNarrow ty.now }
    ensures { OnOk result (vars.new.items ≡ vars.old.items
        ++ map (λ p. var_of number p ty.now init) (element_paths (Some length) base.now)) }
{
    for index in 0..length.value.unwrap_or(0) {
        let path = element_name(alloc, base, index)?;
        push_var(alloc, vars, number, path, ty, init)?;
    }
    Ok(())
}

// The declared initial value of a variable.
fn initial_value(scopes: &Scopes, init: &Option<Expr>) -> Option<u64>
    ensures { result ≡ option_map (literal_value (spec_tree scopes.now)) (option_map expr_tree init.now) }
{
    match init {
        Some(literal) => Some(literal_value(scopes, literal)),
        None => None,
    }
}

// The value of an initial literal.
fn literal_value(scopes: &Scopes, literal: &Expr) -> u64
    ensures { result ≡ literal_value (spec_tree scopes.now) (expr_tree literal.now) }
{
    match literal {
        Expr::Truth(_, truth) => *truth as u64,
        Expr::Number(number) => number.value.unwrap_or(0),
        Expr::Path(path) => constant_value(scopes, path.names.as_slice()),
        _ => 0,
    }
}

// The value of a constant, 0 where the path is none.
fn constant_value(scopes: &Scopes, names: &[Ident]) -> u64
    ensures { result ≡ literal_value (spec_tree scopes.now) (path names.now) }
{
    match names {
        [name] => match scopes.constant_value(name.text.as_bytes()) {
            Some(value) => value as u64,
            None => 0,
        },
        _ => 0,
    }
}

// Puts the locals of processes behind others.
fn push_processes(
    alloc: Global,
    vars: &mut Vec<Var>,
    number: u32,
    base: &[u8],
    processes: &[ProcessDef],
) -> Result<(), AllocError>
    requires narrow { All (λ p. HasNarrowLocals p.body) processes.now }
    ensures { OnOk result (vars.new.items ≡ vars.old.items
        ++ flat_map (process_vars number base.now) (map process_tree processes.now)) }
{
    for process in processes {
        push_process(alloc, vars, number, base, process)?;
    }
    Ok(())
}

// Puts the locals of a process behind others.
fn push_process(
    alloc: Global,
    vars: &mut Vec<Var>,
    number: u32,
    base: &[u8],
    process: &ProcessDef,
) -> Result<(), AllocError>
    requires narrow { HasNarrowLocals process.now.body }
    ensures { OnOk result (vars.new.items ≡ vars.old.items ++ process_vars number base.now (process_tree process.now)) }
{
    let path = member_name(alloc, base, process.name.text.as_bytes())?;
    push_locals(
        alloc,
        vars,
        number,
        path.as_bytes(),
        process.body.locals.as_slice(),
    )
}

// Puts the parameters and locals of those tasks of the template of an index that keep them behind others.
fn push_tasks(
    alloc: Global,
    scopes: &Scopes,
    pausing: &TaskSet,
    vars: &mut Vec<Var>,
    number: u32,
    base: &[u8],
    at: usize,
    template: &Template,
) -> Result<(), AllocError>
    requires pausing { ArePausing (spec_tree scopes.now) pausing.now }
    requires numbered { slice_get scopes.now.templates.items at ≡ Some template.now }
    requires narrow { All HasNarrowSlots template.now.tasks.items }
    ensures { OnOk result (vars.new.items ≡ vars.old.items
        ++ flat_map (task_vars (spec_tree scopes.now) (template_tree template.now) number base.now)
        (map task_tree template.now.tasks.items)) }
{
    let tasks = template.tasks.as_slice();
    for (index, task) in tasks.iter().enumerate() {
        let member = Member {
            template: at,
            index,
        };
        push_kept_task(alloc, scopes, pausing, vars, number, base, member, task)?;
    }
    Ok(())
}

// Puts the parameters and locals of a task behind others, if it keeps them.
fn push_kept_task(
    alloc: Global,
    scopes: &Scopes,
    pausing: &TaskSet,
    vars: &mut Vec<Var>,
    number: u32,
    base: &[u8],
    member: Member,
    task: &TaskDef,
) -> Result<(), AllocError>
    requires pausing { ArePausing (spec_tree scopes.now) pausing.now }
    requires narrow { HasNarrowSlots task.now }
    ensures { (t : TemplateTree) → task_at (spec_tree scopes.now) member ≡ Some (t, task_tree task.now)
        → OnOk result (vars.new.items
        ≡ vars.old.items ++ task_vars (spec_tree scopes.now) t number base.now (task_tree task.now)) }
{
    if task_is_kept(scopes, pausing, member) {
        push_task(alloc, vars, number, base, task)
    } else {
        Ok(())
    }
}

// Puts the parameters and locals of a task behind others.
fn push_task(
    alloc: Global,
    vars: &mut Vec<Var>,
    number: u32,
    base: &[u8],
    task: &TaskDef,
) -> Result<(), AllocError>
    requires narrow { HasNarrowSlots task.now }
    ensures { OnOk result (vars.new.items ≡ vars.old.items ++ slot_vars number base.now (task_tree task.now)) }
{
    let path = member_name(alloc, base, task.name.text.as_bytes())?;
    push_params(alloc, vars, number, path.as_bytes(), task.params.as_slice())?;
    push_locals(
        alloc,
        vars,
        number,
        path.as_bytes(),
        task.body.locals.as_slice(),
    )
}

// Puts the variables in which parameters are kept behind others.
fn push_params(
    alloc: Global,
    vars: &mut Vec<Var>,
    number: u32,
    base: &[u8],
    params: &[Param],
) -> Result<(), AllocError>
    requires narrow { All (λ p. IsNarrow p.ty) params.now }
    ensures { OnOk result (vars.new.items ≡ vars.old.items
        ++ map (λ (p : declared.Param). kept_var number base.now p.ty p.name) params.now) }
{
    for param in params {
        push_kept(alloc, vars, number, base, &param.ty, &param.name)?;
    }
    Ok(())
}

// Puts the variables in which locals are kept behind others.
fn push_locals(
    alloc: Global,
    vars: &mut Vec<Var>,
    number: u32,
    base: &[u8],
    locals: &[LocalDef],
) -> Result<(), AllocError>
    requires narrow { All (λ l. IsNarrow l.ty) locals.now }
    ensures { OnOk result (vars.new.items ≡ vars.old.items
        ++ map (λ (l : LocalTree). kept_var number base.now l.ty l.name) (map local_tree locals.now)) }
{
    for local in locals {
        push_kept(alloc, vars, number, base, &local.ty, &local.name)?;
    }
    Ok(())
}

// Puts the variable in which a parameter or local of a body of a path is kept behind others.
fn push_kept(
    alloc: Global,
    vars: &mut Vec<Var>,
    number: u32,
    base: &[u8],
    ty: &TypeName,
    name: &Ident,
) -> Result<(), AllocError>
    requires narrow { IsNarrow ty.now }
    ensures { OnOk result (vars.new.items ≡ vars.old.items ++ kept_var number base.now ty.now name.now ∷ []) }
{
    let path = below_name(alloc, base, name.text.as_bytes())?;
    push_var(alloc, vars, number, path, ty, Some(0))
}

// Puts a variable behind others.
fn push_var(
    alloc: Global,
    vars: &mut Vec<Var>,
    number: u32,
    path: Name,
    ty: &TypeName,
    init: Option<u64>,
) -> Result<(), AllocError>
    requires narrow { IsNarrow ty.now }
    ensures { OnOk result (vars.new.items ≡ vars.old.items ++ var_of number path ty.now init ∷ []) }
{
    let ty = type_of(alloc, ty)?;
    vars.push(Var {
        path,
        ty,
        init,
        instance: number,
    })?;
    Ok(())
}

// The type that a type of the text is.
fn type_of(alloc: Global, ty: &TypeName) -> Result<Ty, AllocError>
    requires narrow { IsNarrow ty.now }
    ensures { IfOk result (λ t. t ≡ type_of ty.now) }
{
    match ty {
        TypeName::Bool(_) => Ok(Ty::Bool),
        TypeName::Uint(_, bits) => Ok(Ty::Uint(width(*bits))),
        TypeName::Enum(name) => Ok(Ty::Enum(Name::from_bytes(alloc, name.text.as_bytes())?)),
    }
}

// A number of bits.
fn width(bits: Num) -> u8
    requires narrow { written_width bits ≤ width_limit }
    ensures { result ≡ written_width bits }
{
    match bits.value {
        Some(width) => width as u8,
        None => 0,
    }
}
