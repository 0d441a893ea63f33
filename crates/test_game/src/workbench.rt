//! A manager of diagrams, and what is noted of its operations.
ghost use Rattle.std.specs.Prelude.{◌≡◌};
ghost use Rattle.tm_dd.specs.Table.{Knows};

use crate::knowing::{copy_known, is_deeper, knows, knows_changes};
use std::alloc::{AllocError, Global};
use tm_base::Steps;
use tm_dd::{FALSE, NodeId, TRUE};
use tm_ddops::Manager;

/// A manager, the steps that were counted, and whether something was asked of a function that it does not know.
#[derive(Drop)]
pub struct Workbench {
    pub dd: Manager,
    pub steps: Steps<()>,
    pub is_lost: bool,
}

/// A function that a manager knows: this one or, where it does not know it, `FALSE`, which then is noted.
pub fn known(dd: &Manager, is_lost: &mut bool, id: NodeId) -> NodeId
    ensures { Knows dd.now.table result }
{
    if knows(dd, id) {
        return id;
    }
    *is_lost = true;
    FALSE
}

/// What a connective makes of no function.
fn identity(verb: &str) -> NodeId {
    if verb == "and" { TRUE } else { FALSE }
}

impl Workbench {
    /// A manager of functions of so many levels, of which nothing is noted yet.
    pub fn new(alloc: Global, levels: u32) -> Result<Workbench, AllocError> {
        match Manager::new(alloc, levels) {
            Ok(dd) => Ok(Workbench {
                dd,
                steps: Steps::new(()),
                is_lost: false,
            }),
            Err(error) => Err(error),
        }
    }

    /// Notes that a function is not known. `FALSE` takes its place.
    pub fn unknown(&mut self) -> NodeId
        ensures { self.new.dd ≡ self.old.dd }
    {
        self.is_lost = true;
        FALSE
    }

    /// An answer, and `unknown` in its place where a function was not known since this was asked.
    pub fn told(&mut self, alloc: Global, answer: String) -> Result<String, AllocError> {
        if !self.is_lost {
            return Ok(answer);
        }
        self.is_lost = false;
        String::from_str(alloc, "unknown")
    }

    /// The function that is `hi` where the value of the level is true, and else `lo`. It is not known where the manager
    /// may not be asked for it.
    pub fn node(&mut self, level: u32, lo: NodeId, hi: NodeId) -> Result<NodeId, AllocError> {
        let is_level = level < self.dd.store().levels();
        if !is_level || !is_deeper(&self.dd, lo, level) || !is_deeper(&self.dd, hi, level) {
            return Ok(self.unknown());
        }
        self.dd.make(level, lo, hi, &mut self.steps)
    }

    /// What a connective makes of two functions. Of any other word it is not known.
    pub fn joined(&mut self, verb: &str, f: NodeId, g: NodeId) -> Result<NodeId, AllocError> {
        let f = known(&self.dd, &mut self.is_lost, f);
        let g = known(&self.dd, &mut self.is_lost, g);
        match verb {
            "and" => self.dd.and(f, g, &mut self.steps),
            "or" => self.dd.or(f, g, &mut self.steps),
            "xor" => self.dd.xor(f, g, &mut self.steps),
            _ => Ok(self.unknown()),
        }
    }

    /// The complement of a function.
    pub fn opposite(&mut self, f: NodeId) -> Result<NodeId, AllocError> {
        let f = known(&self.dd, &mut self.is_lost, f);
        self.dd.not(f)
    }

    /// One of two functions by the value of a third.
    pub fn chosen(&mut self, test: NodeId, f: NodeId, g: NodeId) -> Result<NodeId, AllocError> {
        let test = known(&self.dd, &mut self.is_lost, test);
        let f = known(&self.dd, &mut self.is_lost, f);
        let g = known(&self.dd, &mut self.is_lost, g);
        self.dd.ite(test, f, g)
    }

    /// A function at some values of levels, or at all of them.
    pub fn quantified(
        &mut self,
        verb: &str,
        f: NodeId,
        levels: &[u32],
    ) -> Result<NodeId, AllocError> {
        let f = known(&self.dd, &mut self.is_lost, f);
        match verb {
            "exists" => self.dd.exists(f, levels),
            _ => self.dd.forall(f, levels),
        }
    }

    /// A function with other ones in the places of levels.
    pub fn composed(&mut self, f: NodeId, parts: &[(u32, NodeId)]) -> Result<NodeId, AllocError> {
        let f = known(&self.dd, &mut self.is_lost, f);
        if !knows_changes(&self.dd, parts) {
            return Ok(self.unknown());
        }
        self.dd.compose(f, parts)
    }

    /// What a connective makes of functions.
    pub fn folded(&mut self, verb: &str, functions: &[NodeId]) -> Result<NodeId, AllocError> {
        let mut all = identity(verb);
        for f in functions {
            match self.joined(verb, all, *f) {
                Ok(id) => all = id,
                Err(error) => return Err(error),
            }
        }
        Ok(all)
    }

    /// The function that is true where at most one of these is.
    pub fn most_one(&mut self, functions: &[NodeId]) -> Result<NodeId, AllocError> {
        let mut none = TRUE;
        let mut most_one = TRUE;
        for f in functions {
            most_one = self.chosen(*f, none, most_one)?;
            none = self.joined("and", none, f.complement())?;
        }
        Ok(most_one)
    }

    /// Keeps what functions reach alone, if all of them are known. They are the copies then.
    pub fn copied(&mut self, functions: &mut [NodeId]) -> Result<bool, AllocError> {
        if self.is_lost {
            return Ok(false);
        }
        copy_known(&mut self.dd, functions)
    }
}
