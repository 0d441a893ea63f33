//! Tasks that calls run.
ghost use Rattle.std.specs.Prelude.{◌≡◌};

use crate::stand::Stand;
use crate::waiting::Home;
use tm_syntax::tree::TaskDef;

/// A task or procedure that a call runs, with the body of an instance that it is.
#[derive(Drop)]
pub(crate) struct CalledTask<'s> {
    pub stand: Stand<'s>,
    pub task: &'s TaskDef,
}

impl<'s> CalledTask<'s> {
    /// The body, by its number.
    pub(crate) fn home(&self) -> Home
        ensures { result ≡ record {
          at = self.now.stand.reader.at;
          depth = self.now.stand.depth;
          trail = self.now.stand.trail;
        } }
    {
        Home {
            at: self.stand.reader.at(),
            depth: self.stand.depth,
            trail: self.stand.trail,
        }
    }
}
