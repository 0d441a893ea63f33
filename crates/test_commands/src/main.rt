//! Cases of the commands and of drawn drivers: obeys each line of the input in its folder, and tells what comes of it.
//!
//! The words of a line stand apart by single blanks. Lines of these kinds are no words of a command:
//!
//! - `show NAME` writes what a file holds, and `fill NAME N` makes a file of N blanks;
//! - `lines N WORDS` obeys the words, and writes the first N lines of the report alone;
//! - `fail CALL PUT WORDS` obeys the words over files in memory (`s`, `d`, `c`, `k` and `t` hold the specification, the
//!   driver, the played choices, the certificate and the structured driver of `flag`, `lost` and `loss` a specification
//!   that is lost and its certificate), where the call of the files and the put of these numbers fail (0 is none), and
//!   tells also which of the files `o`, `o.c` and `o.cert` there are afterwards;
//! - `disk CALLS` calls the files of the system and standard output, and `memory NUMBERS; NUMBERS; CALLS` files and an
//!   output in memory, whose calls and puts of these numbers fail, as the module `files` tells;
//! - `drawn WORDS` prints a driver that is drawn and what it answers, or tells how many such drivers are read back, as
//!   the module `drawn` tells;
//! - `names FIRST SECOND` compares two names, `places LINE COLUMN, LINE COLUMN` two places in a text, and `steps N`
//!   counts so many steps.
#![tactic(auto)]

mod drawn;
mod failing;
mod files;
mod opening;
mod values;

use anyhow::Result;
use case_rows::split_word;
use failing::fail;
use opening::obey_opening;
use std::alloc::{AllocError, Global};
use tm_base::{DiskFiles, Files, Sink, StdSink};
use tm_commands::obey_and_report;

/// The most bytes of a file that is shown.
const SHOWN_BYTES: u64 = 65_536;

/// The words of a line. An empty line has none.
fn words_of(alloc: Global, line: &str) -> Result<Vec<String>, AllocError> {
    let mut words = Vec::new(alloc);
    if line.is_empty() {
        return Ok(words);
    }
    for word in line.split(' ') {
        words.push(String::from_str(alloc, word)?)?;
    }
    Ok(words)
}

/// Obeys words, and tells the exit code.
fn obey<R: std::rt::Files + Print + AllocGlobal>(rt: &R, words: &[String]) -> Result<()> {
    let mut files = DiskFiles::new(rt);
    let mut out = StdSink::new(rt);
    let status = obey_and_report(rt.alloc(), words, &mut files, &mut out);
    println!(rt; "exit {}", status.code())?;
    Ok(())
}

/// Writes what a file holds.
fn show<R: std::rt::Files + Print + AllocGlobal>(rt: &R, name: &str) -> Result<()> {
    let mut files = DiskFiles::new(rt);
    match files.read(name, SHOWN_BYTES) {
        Ok(bytes) => StdSink::new(rt).put(&bytes)?,
        Err(_) => println!(rt; "no such file")?,
    }
    Ok(())
}

/// Makes a file of so many blanks.
fn fill<R: std::rt::Files + AllocGlobal>(rt: &R, name: &str, count: &str) -> Result<()> {
    let blanks = vec![in rt.alloc(); b' '; count.parse::<usize>().unwrap_or(0)]?;
    DiskFiles::new(rt).write(name, &blanks)?;
    Ok(())
}

/// Does what a line says that is words of a command, or shows or fills a file.
fn command<R: std::rt::Files + Print + AllocGlobal>(rt: &R, line: &str) -> Result<()> {
    let words = words_of(rt.alloc(), line)?;
    match words.as_slice() {
        [verb, name] if verb.as_str() == "show" => show(rt, name.as_str()),
        [verb, name, count] if verb.as_str() == "fill" => fill(rt, name.as_str(), count.as_str()),
        _ => obey(rt, &words),
    }
}

/// Prints a drawn driver, or tells of such drivers.
fn print_drawn<R: Print + AllocGlobal>(rt: &R, words: &str) -> Result<()> {
    let told = drawn::told(rt.alloc(), words)?;
    print!(rt; "{told}")?;
    Ok(())
}

/// Does what a line says.
fn answer<R: std::rt::Files + Print + AllocGlobal>(rt: &R, line: &str) -> Result<()> {
    let alloc = rt.alloc();
    let told = match split_word(line) {
        ("disk", calls) => files::disk(rt, calls)?,
        ("memory", calls) => files::memory(alloc, calls)?,
        ("names", words) => values::names(alloc, words)?,
        ("places", words) => values::places(alloc, words)?,
        ("steps", count) => values::steps(alloc, count)?,
        ("drawn", words) => return print_drawn(rt, words),
        ("fail", failing) => return fail(rt, failing),
        ("lines", counted) => return obey_opening(rt, counted),
        _ => return command(rt, line),
    };
    println!(rt; "{told}")?;
    Ok(())
}

fn main(rt: HostRuntime) -> Result<()> {
    for line in rt.lines(rt.alloc()) {
        let line = line?;
        println!(rt; "> {line}")?;
        answer(&rt, line.as_str())?;
    }
    Ok(())
}
