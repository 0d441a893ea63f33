//! Marks that levels get once.
ghost use Rattle.std.specs.Prelude.{◌≡◌, ◌<◌, ◌≤◌, ◌&&◌, ◌∷◌, [], IfOk, OnOk, length, nat_lt, not, replicate};
ghost use Rattle.tm_abs.specs.Inner.Marks.{AreMarked};
ghost use Rattle.tm_ddops.specs.Quantified.{is_marked_level};

use std::alloc::{AllocError, Global};

// So many equal marks.
pub(crate) fn equal_marks(alloc: Global, mark: bool, count: usize) -> Result<Vec<bool>, AllocError>
    ensures { IfOk result (λ marks. marks.items ≡ replicate count mark) }
{
    vec![in alloc; mark; count]
}

// Marks those of some levels that are allowed, and puts those that had no mark to a list.
pub(crate) fn mark_levels(
    allowed: &[bool],
    levels: &[u32],
    marks: &mut Vec<bool>,
    listed: &mut Vec<u32>,
) -> Result<(), AllocError>
    requires { length marks.old.items ≡ length allowed.now }
    ensures count { length marks.new.items ≡ length marks.old.items }
    ensures marked { OnOk result
        (AreMarked allowed.now levels.now marks.old.items listed.old.items marks.new.items listed.new.items) }
{
    for level in levels {
        mark_level(allowed, *level, marks, listed)?;
    }
    Ok(())
}

// Marks a level that is allowed and has no mark, and puts it to a list.
fn mark_level(
    allowed: &[bool],
    level: u32,
    marks: &mut Vec<bool>,
    listed: &mut Vec<u32>,
) -> Result<(), AllocError>
    requires { length marks.old.items ≡ length allowed.now }
    ensures count { length marks.new.items ≡ length marks.old.items }
    ensures marked { OnOk result
        (AreMarked allowed.now (level ∷ []) marks.old.items listed.old.items marks.new.items listed.new.items) }
{
    if is_new(allowed, marks, level) {
        listed.push(level)?;
        marks[level as usize] = true;
    }
    Ok(())
}

// Whether a level is allowed and has no mark yet.
fn is_new(allowed: &[bool], marks: &[bool], level: u32) -> bool
    requires { length marks.now ≡ length allowed.now }
    ensures { result ≡ (nat_lt level (length marks.now)
        && (is_marked_level allowed.now level && not (is_marked_level marks.now level))) }
{
    let at = level as usize;
    at < marks.len() && allowed[at] && !marks[at]
}

// Marks some levels.
pub(crate) fn set_marks(marks: &mut Vec<bool>, levels: &[u32]) {
    for level in levels {
        let at = *level as usize;
        if at < marks.len() {
            marks[at] = true;
        }
    }
}

// How many of some levels have a mark.
pub(crate) fn count_marked(marks: &[bool], levels: &[u32]) -> usize
    ensures { result ≤ length levels.now }
{
    let mut count = 0;
    for level in levels {
        let at = *level as usize;
        if at < marks.len() && marks[at] {
            count += 1;
        }
    }
    count
}
