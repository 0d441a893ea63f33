//! Where statements are done.
ghost use Rattle.std.specs.Prelude.{◌≡◌};
ghost use Rattle.tm_plain_bodies.specs.Inner.Owed.{level_of};

use crate::todo::Level;
use tm_plain_exprs::Reader;
use tm_syntax::tree::TaskDef;

/// A body of an instance whose statements are done, and how deep calls may nest below it.
#[derive(Drop)]
pub struct Frame<'a> {
    pub reader: Reader<'a>,
    pub depth: usize,
}

impl<'a> Frame<'a> {
    /// Where its statements are done.
    pub(crate) fn level(&self) -> Level
        ensures { result ≡ level_of self.now }
    {
        Level {
            at: self.reader.at(),
            depth: self.depth,
        }
    }
}

/// A task or procedure that a call runs, with the body of an instance that it is.
#[derive(Drop)]
pub(crate) struct CalledTask<'a> {
    pub frame: Frame<'a>,
    pub task: &'a TaskDef,
}
