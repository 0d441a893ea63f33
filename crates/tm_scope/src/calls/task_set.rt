//! Sets of tasks.
ghost use Rattle.std.specs.Prelude.{◌≡◌, [], OnOk, position, slice_get};
ghost use Rattle.tm_scope.specs.Marks.{is_in, same_task, with_task};

use indexmap::IndexSet;
use std::alloc::{AllocError, Global};
use std::marker::Model;
use tm_syntax::member::Member;

/// Some tasks and procedures of a text, by their numbers. Contracts see a list of them.
#[derive(Drop)]
pub struct TaskSet {
    tasks: IndexSet<Member>,
}

impl Model for TaskSet {
    ghost use Rattle.std.specs.Prelude.{List};
    ghost use Rattle.tm_syntax.specs.declared.member.Member.{Member};

    ghost Value = { List Member };

    ghost view = { λ s. s.tasks.keys };
}

impl TaskSet {
    /// No task.
    pub fn new(alloc: Global) -> TaskSet
        ensures { result ≡ [] }
    {
        TaskSet {
            tasks: IndexSet::new(alloc),
        }
    }

    /// Whether a task is one of them, in constant time.
    pub fn has(&self, task: Member) -> bool
        ensures { result ≡ is_in self.now task }
    {
        self.tasks.contains(&task)
    }

    /// The tasks, in the order in which they were added.
    pub fn as_slice(&self) -> &[Member]
        ensures { result.now ≡ self.now }
    {
        self.tasks.as_slice()
    }

    /// The number of a task among them, in constant time.
    pub fn number(&self, task: Member) -> Option<usize>
        ensures { result ≡ position (same_task task) self.now }
    {
        self.tasks.get_index_of(&task)
    }

    /// The task of a number.
    pub fn task(&self, number: usize) -> Option<Member>
        ensures { result ≡ slice_get self.now number }
    {
        self.tasks.get_index(number).copied()
    }

    /// Adds a task. `AllocError` is want of memory.
    pub fn insert(&mut self, task: Member) -> Result<(), AllocError>
        ensures { OnOk result (self.new ≡ with_task self.old task) }
    {
        self.tasks.insert(task)?;
        Ok(())
    }
}
