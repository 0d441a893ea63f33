//! Which paths lead to some tasks of a text.
ghost use Rattle.std.specs.Prelude.{◌≡◌, ◌<◌, length};
ghost use Rattle.tm_scope.specs.Marks.{is_marked, marked_number};

use crate::calls::task_set::TaskSet;
use crate::scopes::Scopes;
use std::marker::Model;
use tm_syntax::tree::Ident;

/// Some tasks and procedures of a text, to which paths lead from a template.
///
/// Contracts see the specification, the number of the template and the tasks.
#[derive(Drop)]
pub struct CallMarks<'s, 'a> {
    scopes: &'s Scopes<'a>,
    from: usize,
    tasks: &'s TaskSet,
}

impl<'s, 'a> Model for CallMarks<'s, 'a> {
    ghost use Rattle.std.specs.Prelude.{◌<◌, length};
    ghost use Rattle.std.specs.Coded.{codes};
    ghost use Rattle.tm_syntax.specs.contracts.tree.Spec as spec_contract;
    ghost use Rattle.tm_scope.specs.Marks.{CallTable};

    ghost Value = { CallTable };

    ghost view = { λ x. record { spec = x.scopes.now; from = x.from; tasks = x.tasks.now } };

    ghost invariant = { λ x. x.from < length x.scopes.now.templates.items };

    ghost coded = { Prim.hlevel (codes, spec_contract.the_row.coded) };
}

impl<'s, 'a> CallMarks<'s, 'a> {
    /// These tasks, and the template of a number, from which paths lead.
    pub fn new(scopes: &'s Scopes<'a>, from: usize, tasks: &'s TaskSet) -> CallMarks<'s, 'a>
        requires { from < length scopes.now.templates.items }
        ensures { result ≡ record { spec = scopes.now; from = from; tasks = tasks.now } }
    {
        CallMarks {
            scopes,
            from,
            tasks,
        }
    }

    // The number among the tasks of the one to which a path leads.
    pub(crate) fn number(&self, path: &[Ident]) -> Option<usize>
        ensures { result ≡ marked_number self.now path.now }
    {
        match self.scopes.task_number(self.from, path) {
            Some(task) => self.tasks.number(task),
            None => None,
        }
    }

    /// Whether a path leads to one of the tasks.
    pub fn is_marked(&self, path: &[Ident]) -> bool
        ensures { result ≡ is_marked self.now path.now }
    {
        match self.scopes.task_number(self.from, path) {
            Some(task) => self.tasks.has(task),
            None => false,
        }
    }
}
