//! The design of a tree: its instances, and what they hold, numbered.
ghost use Rattle.std.specs.Prelude.{map};
ghost use Rattle.tm_syntax.specs.Tree.View.{spec_tree};
ghost use Rattle.tm_syntax.specs.Design.{instance_node};
ghost use Rattle.tm_syntax.specs.Faults.{IsSound, IsTyped};

use crate::tree::Spec;
use tm_base::Name;

/// A type, resolved. A number has 1 to 64 bits.
#[derive(Drop)]
pub enum Ty {
    Bool,
    Uint(u8),
    Enum(Name),
}

/// An instance of a template: what its ports stand for and what it holds, by the instances' numbers.
#[derive(Drop)]
pub struct Instance {
    pub path: Name,
    pub template: u32,
    pub ports: Vec<u32>,
    pub children: Vec<u32>,
}

/// A state variable, with its declared initial value.
#[derive(Drop)]
pub struct Var {
    pub path: Name,
    pub ty: Ty,
    pub init: Option<u64>,
    pub instance: u32,
}

/// A process, a controllable task, a goal or a fairness condition: its index in its template, or none
/// for the goal that a design without goals gets.
#[derive(Drop)]
pub struct Item {
    pub path: Name,
    pub instance: u32,
    pub index: Option<u32>,
}

/// The design of a checked specification: instances in preorder from `main`, and state variables, processes,
/// controllable tasks, goals and fairness conditions instance by instance, each in text order within its template.
/// None of the faults `F4` to `F12` holds of it.
#[derive(Drop)]
pub struct Design {
    pub spec: Spec,
    pub instances: Vec<Instance>,
    pub vars: Vec<Var>,
    pub processes: Vec<Item>,
    pub tasks: Vec<Item>,
    pub goals: Vec<Item>,
    pub fairs: Vec<Item>,
    pub ghost typed: { ∥ IsTyped (spec_tree spec) ∥₁ },
    pub ghost sound: { ∥ IsSound (record {
      spec = spec_tree spec;
      instances = map instance_node instances.items;
      vars = vars.items;
      processes = processes.items;
      tasks = tasks.items;
      goals = goals.items;
      fairs = fairs.items;
    }) ∥₁ },
}
