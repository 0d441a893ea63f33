//! The choice bits on the paths of a part of a body.
ghost use Rattle.std.specs.Prelude.{◌≡◌, ℕ};
ghost use Rattle.tm_syntax.specs.Counts.Choices as sums;
ghost use Rattle.tm_syntax.specs.Counts.Choices.{
  again,
  choosing,
  either_part,
  in_row,
  leavable,
  path_sums,
  pathless,
  stopping,
};
ghost use Rattle.tm_syntax.specs.Counts.Instances.{greatest};
ghost use Rattle.tm_limits.specs.Amount.{capped};
ghost use Rattle.tm_limits.specs.Inner.PathSums.{AreBest, greater_of, joined_of};

/// The greatest sums of choice bits on the paths of a part of a body, or none where there is no such path.
#[derive(Clone, Copy, Debug)]
pub(crate) struct Paths {
    /// From its start to its end.
    pub(crate) across: Option<u64>,
    /// From its start to a location in it.
    pub(crate) inward: Option<u64>,
    /// From a location in it to its end.
    pub(crate) outward: Option<u64>,
    /// From a location in it to another one.
    pub(crate) between: Option<u64>,
}

// The greatest sum of two paths, one behind the other.
fn joined(first: Option<u64>, second: Option<u64>) -> Option<u64>
    ensures { result ≡ joined_of first second }
{
    match (first, second) {
        (Some(a), Some(b)) => Some(a.saturating_add(b)),
        (Some(_), None) => None,
        (None, _) => None,
    }
}

// The greater of two sums.
fn greater(first: Option<u64>, second: Option<u64>) -> Option<u64>
    ensures { result ≡ greater_of first second }
{
    match (first, second) {
        (Some(a), Some(b)) => Some(a.max(b)),
        (Some(a), None) => Some(a),
        (None, other) => other,
    }
}

impl Paths {
    /// One path across, on which so many bits are chosen.
    pub(crate) fn choosing(bits: u64) -> Paths
        ensures { (n : ℕ) → bits ≡ capped n → AreBest result (choosing n) }
    {
        Paths {
            across: Some(bits),
            inward: None,
            outward: None,
            between: None,
        }
    }

    /// A location: a path ends there, and another one begins.
    pub(crate) fn stopping() -> Paths
        ensures { AreBest result stopping }
    {
        Paths {
            across: None,
            inward: Some(0),
            outward: Some(0),
            between: None,
        }
    }

    /// No path.
    pub(crate) fn none() -> Paths
        ensures { AreBest result pathless }
    {
        Paths {
            across: None,
            inward: None,
            outward: None,
            between: None,
        }
    }

    /// One part behind another one.
    pub(crate) fn then(self, next: Paths) -> Paths
        ensures { (p q : sums.Paths) → AreBest self p → AreBest next q → AreBest result (in_row p q) }
    {
        Paths {
            across: joined(self.across, next.across),
            inward: greater(self.inward, joined(self.across, next.inward)),
            outward: greater(next.outward, joined(self.outward, next.across)),
            between: greater(
                greater(self.between, next.between),
                joined(self.outward, next.inward),
            ),
        }
    }

    /// One part or the other.
    pub(crate) fn or(self, other: Paths) -> Paths
        ensures { (p q : sums.Paths) → AreBest self p → AreBest other q → AreBest result (either_part p q) }
    {
        Paths {
            across: greater(self.across, other.across),
            inward: greater(self.inward, other.inward),
            outward: greater(self.outward, other.outward),
            between: greater(self.between, other.between),
        }
    }

    /// A part that begins again where it ends.
    pub(crate) fn again(self) -> Paths
        ensures { (p : sums.Paths) → AreBest self p → AreBest result (again p) }
    {
        Paths {
            across: None,
            inward: self.inward,
            outward: None,
            between: greater(self.between, joined(self.outward, self.inward)),
        }
    }

    /// A loop that may be left before each turn.
    pub(crate) fn leavable(self) -> Paths
        ensures { (p : sums.Paths) → AreBest self p → AreBest result (leavable p) }
    {
        Paths {
            across: Some(0),
            inward: self.inward,
            outward: self.outward,
            between: greater(self.between, joined(self.outward, self.inward)),
        }
    }

    /// The greatest sum on any path, 0 where there is none.
    pub(crate) fn greatest(self) -> u64
        ensures { (p : sums.Paths) → AreBest self p → result ≡ capped (greatest (path_sums p)) }
    {
        let ahead = greater(greater(self.across, self.inward), self.outward);
        greater(ahead, self.between).unwrap_or(0)
    }
}
