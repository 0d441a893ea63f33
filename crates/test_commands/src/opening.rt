//! Reports of which the first lines alone are fixed.

use crate::words_of;
use anyhow::Result;
use tm_base::{DiskFiles, MemSink, Sink, StdSink};
use tm_commands::obey_and_report;

/// Where the first lines of a text end, so many, or the whole text does.
fn opening_end(text: &[u8], lines: u64) -> usize {
    let mut ended = 0;
    for (at, byte) in text.iter().enumerate() {
        if ended >= lines {
            return at;
        }
        if *byte == b'\n' {
            ended += 1;
        }
    }
    text.len()
}

/// Obeys the words behind a number, and tells so many first lines of the report, and the exit code.
pub fn obey_opening<R: std::rt::Files + Print + AllocGlobal>(rt: &R, line: &str) -> Result<()> {
    let alloc = rt.alloc();
    let (lines, rest) = line.split_once(' ').unwrap_or((line, ""));
    let words = words_of(alloc, rest)?;
    let mut files = DiskFiles::new(rt);
    let mut out = MemSink::new(alloc, Vec::new(alloc));
    let status = obey_and_report(alloc, &words, &mut files, &mut out);
    let report = out.bytes();
    let end = opening_end(report, lines.parse().unwrap_or(0));
    StdSink::new(rt).put(report.get(..end).unwrap_or(report))?;
    println!(rt; "exit {}", status.code())?;
    Ok(())
}
