//! The line that tells how a play ended.
ghost use Rattle.std.specs.Prelude.{◌≡◌, ◌++◌, codes, OnOk, IfOk};
ghost use Rattle.std.specs.Fmt.{decimal};
ghost use Rattle.tm_play.specs.Report.{why_text, end_text};

use crate::ending::{PlayEnd, StopWhy};
use crate::report::line_text::{push, push_number};
use std::alloc::{AllocError, Global};

#[tactic(auto, using(crate::proofs::Appending::append_assoc))]
fn played_line(alloc: Global, steps: u64) -> Result<Vec<u8>, AllocError>
    ensures { IfOk result (λ line. line.items ≡ codes "played " ++ decimal steps ++ codes "\n") }
{
    let mut line = Vec::from_slice(alloc, b"played ")?;
    push_number(&mut line, steps)?;
    push(&mut line, b"\n")?;
    Ok(line)
}

fn push_why(line: &mut Vec<u8>, why: StopWhy) -> Result<(), AllocError>
    ensures { OnOk result (line.new.items ≡ line.old.items ++ why_text why) }
{
    match why {
        StopWhy::Error => push(line, b"error"),
        StopWhy::Forbidden => push(line, b"forbidden"),
        StopWhy::Illegal => push(line, b"illegal"),
    }
}

#[tactic(auto, using(crate::proofs::Appending::append_assoc))]
fn stopped_line(alloc: Global, step: u64, why: StopWhy) -> Result<Vec<u8>, AllocError>
    ensures { IfOk result (λ line.
        line.items ≡ codes "stopped " ++ decimal step ++ codes " " ++ why_text why ++ codes "\n") }
{
    let mut line = Vec::from_slice(alloc, b"stopped ")?;
    push_number(&mut line, step)?;
    push(&mut line, b" ")?;
    push_why(&mut line, why)?;
    push(&mut line, b"\n")?;
    Ok(line)
}

/// The line that tells the end of a play, its line feed included.
pub fn end_line(alloc: Global, end: PlayEnd) -> Result<Vec<u8>, AllocError>
    ensures { IfOk result (λ line. line.items ≡ end_text end) }
{
    match end {
        PlayEnd::Played(steps) => played_line(alloc, steps),
        PlayEnd::Stopped { step, why } => stopped_line(alloc, step, why),
    }
}
