//! Calls of the files and of the output that fail.

use crate::{SHOWN_BYTES, words_of};
use anyhow::Result;
use std::alloc::Global;
use tm_base::{DiskFiles, Files, MemFiles, MemSink, Sink, StdSink};
use tm_commands::obey_and_report;

/// The files in memory, and those of the folder that they hold.
const EXAMPLE: [[&str; 2]; 7] = [
    ["s", "flag/spec"],
    ["d", "flag/driver"],
    ["c", "flag/played"],
    ["k", "flag/certificate"],
    ["t", "flag/structured"],
    ["lost", "lost/spec"],
    ["loss", "flag/loss"],
];

/// The files of the worked examples in memory, with a call that fails (0 is none).
fn example<R: std::rt::Files + AllocGlobal>(rt: &R, call: u64) -> Result<MemFiles> {
    let mut disk = DiskFiles::new(rt);
    let mut files = MemFiles::new(rt.alloc(), vec![in rt.alloc(); call]?);
    for pair in &EXAMPLE {
        files.add(pair[0], &disk.read(pair[1], SHOWN_BYTES)?)?;
    }
    Ok(files)
}

/// The number that a word spells, and 0 for any other word.
fn number(word: &str) -> u64 {
    word.parse().unwrap_or(0)
}

/// Which of the files that commands write there are.
fn made(files: &MemFiles) -> &'static str {
    let text = files.contents("o.c").is_some();
    let cert = files.contents("o.cert").is_some();
    match (files.contents("o").is_some(), text, cert) {
        (true, ..) => " file o",
        (false, true, true) => " files o.c o.cert",
        (false, true, false) => " file o.c",
        (false, false, true) => " file o.cert",
        (false, false, false) => " file none",
    }
}

/// Obeys words over files of which a call fails, with a put that fails, and tells what is left.
fn fail_words<R: std::rt::Files + Print + AllocGlobal>(
    rt: &R,
    words: &[String],
    call: u64,
    put: u64,
) -> Result<()> {
    let alloc = rt.alloc();
    let mut out = MemSink::new(alloc, vec![in alloc; put]?);
    let mut files = example(rt, call)?;
    let status = obey_and_report(alloc, words, &mut files, &mut out);
    StdSink::new(rt).put(out.bytes())?;
    println!(rt; "exit {}{}", status.code(), made(&files))?;
    Ok(())
}

/// Obeys the words behind the numbers of the call of the files and of the put that fail, and tells what is left: the
/// report, the exit code, and whether there is a file `o`.
pub fn fail<R: std::rt::Files + Print + AllocGlobal>(rt: &R, line: &str) -> Result<()> {
    let (call, rest) = line.split_once(' ').unwrap_or((line, ""));
    let (put, line) = rest.split_once(' ').unwrap_or((rest, ""));
    let words = words_of(rt.alloc(), line)?;
    fail_words(rt, &words, number(call), number(put))
}
