//! Groups of the nodes on the path of a walk.
ghost use Rattle.std.specs.Prelude.{◌≡◌, ◌<◌, ◌≤◌, Some, length, slice_get};
ghost use Rattle.tm_scope.specs.Inner.Walks.{AreJoined, IsBefore};
ghost use Rattle.tm_scope.specs.declared.graph.groups.Group as grouped;

/// Nodes on the path from a position on that reach each other, up to the next group: where their edges that are to be
/// followed begin, and whether they reach themselves. A group that does not loop has one node.
#[derive(Clone, Copy, Drop)]
pub(crate) struct Group {
    pub(crate) start: usize,
    pub(crate) pending: usize,
    pub(crate) loops: bool,
}

/// Makes one group of the last ones, back to the one that holds a position of the path. Its nodes reach themselves.
pub(crate) fn join_groups(groups: &mut Vec<Group>, at: usize)
    requires some { 0 < length groups.old.items }
    requires first { (g : grouped.Group) → slice_get groups.old.items 0 ≡ Some g → g.start ≤ at }
    ensures { AreJoined groups.old.items at groups.new.items }
{
    let last = group_at(groups.as_slice(), at);
    groups.truncate(last + 1);
    groups[last].loops = true;
}

// The last group that begins at a position or before it.
fn group_at(groups: &[Group], at: usize) -> usize
    requires some { 0 < length groups.now }
    requires first { (g : grouped.Group) → slice_get groups.now 0 ≡ Some g → g.start ≤ at }
    ensures within { result < length groups.now }
    ensures holds { (g : grouped.Group) → slice_get groups.now result ≡ Some g → g.start ≤ at }
    ensures before { IsBefore groups.now result at }
{
    let mut last = groups.len() - 1;
    while at < groups[last].start {
        last -= 1;
    }
    last
}
