//! The variables and tasks of a template by their names.
ghost use Rattle.std.specs.Prelude.{◌≡◌, IfOk, position};
ghost use Rattle.tm_syntax.specs.Scopes.Names.{is_spelled};
ghost use Rattle.tm_syntax.specs.Tree.View.{template_tree};

use crate::names::Directory;
use std::alloc::{AllocError, Global};
use std::marker::Model;
use tm_syntax::tree::Template;

/// A template, whose variables and tasks are found by their names. Contracts see the template.
#[derive(Drop)]
pub(crate) struct Members<'a> {
    template: &'a Template,
    vars: Directory<'a>,
    tasks: Directory<'a>,
}

impl<'a> Model for Members<'a> {
    ghost use Rattle.std.specs.Coded.{codes};
    ghost use Rattle.tm_syntax.specs.declared.tree.Template.{Template};
    ghost use Rattle.tm_syntax.specs.contracts.tree.Template as template_contract;
    ghost use Rattle.tm_scope.specs.Inner.Tables.{AreMembers};

    ghost Value = { Template };

    ghost view = { λ x. x.template.now };

    ghost invariant = { λ x. AreMembers x.template.now x.vars x.tasks };

    ghost coded = { Prim.hlevel (codes, template_contract.the_row.coded) };
}

impl<'a> Members<'a> {
    /// The tables of a template.
    pub(crate) fn new(alloc: Global, template: &'a Template) -> Result<Members<'a>, AllocError>
        ensures { IfOk result (λ t. t ≡ template.now) }
    {
        let vars = Directory::of(alloc, template.vars.as_slice())?;
        let tasks = Directory::of(alloc, template.tasks.as_slice())?;
        Ok(Members {
            template,
            vars,
            tasks,
        })
    }

    /// The index of the variable or array of a name.
    pub(crate) fn var_index(&self, name: &[u8]) -> Option<usize>
        ensures { result ≡ position (λ v. is_spelled name.now v.name) (template_tree self.now).vars }
    {
        self.vars.find(name)
    }

    /// The index of the task or procedure of a name.
    pub(crate) fn task_index(&self, name: &[u8]) -> Option<usize>
        ensures { result ≡ position (λ task. is_spelled name.now task.name) (template_tree self.now).tasks }
    {
        self.tasks.find(name)
    }
}
