//! Pieces of a report's line, each put behind what the line holds.
ghost use Rattle.std.specs.Prelude.{◌≡◌, ◌++◌, OnOk};
ghost use Rattle.std.specs.Fmt.{decimal};

use itoa::Buffer;
use std::alloc::AllocError;

/// Puts a piece behind the line. The error is want of memory.
pub fn push(line: &mut Vec<u8>, piece: &[u8]) -> Result<(), AllocError>
    ensures { OnOk result (line.new.items ≡ line.old.items ++ piece.now) }
{
    line.extend_from_slice(piece)
}

/// Puts the decimal digits of a number behind the line. The error is want of memory.
pub fn push_number(line: &mut Vec<u8>, n: u64) -> Result<(), AllocError>
    ensures { OnOk result (line.new.items ≡ line.old.items ++ decimal n) }
{
    let mut buffer = Buffer::new();
    push(line, buffer.format(n).as_bytes())
}
