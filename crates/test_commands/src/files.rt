//! Calls of files and outputs.
//!
//! The calls of a line stand apart by `; `, and are answered one behind the other. Bytes are spelled as `case_rows`
//! tells. Of any files and any output:
//!
//! - `read NAME LIMIT`: what the file holds, if it has no more bytes than the limit;
//! - `write NAME BYTES`, `put BYTES` and `copy FIRST SECOND LIMIT`, which puts what two files hold: `ok`.
//!
//! A call that fails is answered by why. Of files of the system: `text NAME`, what a file holds. Of files in memory:
//! `hold NAME BYTES`, which makes a file; `file NAME`, what it holds, or `none`; and `output`, what the output holds.

mod copy;

use case_rows::{escaped, numbers, split_word, unescaped};
use copy::{CopyError, copy_two};
use std::alloc::{AllocError, Global};
use std::{fs, io};
use tm_base::{DiskFiles, FileError, Files, MemFiles, MemSink, Sink, SinkError, StdSink};

/// Why a file was not read or written.
fn file_fault(error: FileError) -> &'static str {
    match error {
        FileError::Failed => "failed",
        FileError::TooLong => "too long",
        FileError::Memory => "out of memory",
    }
}

/// Why bytes were not put.
fn sink_fault(error: SinkError) -> &'static str {
    match error {
        SinkError::Failed => "failed",
        SinkError::Memory => "out of memory",
    }
}

/// What was read.
fn read_told(alloc: Global, read: Result<Vec<u8>, FileError>) -> Result<String, AllocError> {
    match read {
        Ok(bytes) => escaped(alloc, &bytes),
        Err(error) => String::from_str(alloc, file_fault(error)),
    }
}

/// Whether a file was written.
fn written_told(written: Result<(), FileError>) -> &'static str {
    match written {
        Ok(()) => "ok",
        Err(error) => file_fault(error),
    }
}

/// Whether bytes were put.
fn put_told(put: Result<(), SinkError>) -> &'static str {
    match put {
        Ok(()) => "ok",
        Err(error) => sink_fault(error),
    }
}

/// Whether two files were put.
fn copied_told(alloc: Global, copied: Result<(), CopyError>) -> Result<String, AllocError> {
    match copied {
        Ok(()) => String::from_str(alloc, "ok"),
        Err(CopyError::First(error)) => format!(in alloc; "first {}", file_fault(error)),
        Err(CopyError::Second(error)) => format!(in alloc; "second {}", file_fault(error)),
        Err(CopyError::Put(error)) => format!(in alloc; "put {}", sink_fault(error)),
    }
}

/// The limit that a word spells, and 0 for any other word.
fn limit(word: &str) -> u64 {
    word.parse().unwrap_or(0)
}

/// The answer to a call of any files and any output.
fn call<F: Files, O: Sink>(
    alloc: Global,
    files: &mut F,
    out: &mut O,
    step: &str,
) -> Result<String, AllocError> {
    let (verb, words) = split_word(step);
    let (name, rest) = split_word(words);
    match verb {
        "read" => read_told(alloc, files.read(name, limit(rest))),
        "write" => {
            let written = files.write(name, &unescaped(alloc, rest)?);
            String::from_str(alloc, written_told(written))
        }
        "put" => {
            let put = out.put(&unescaped(alloc, words)?);
            String::from_str(alloc, put_told(put))
        }
        "copy" => {
            let (second, most) = split_word(rest);
            copied_told(alloc, copy_two(name, second, limit(most), files, out))
        }
        _ => String::from_str(alloc, "no call"),
    }
}

/// The answer to a call of files in memory.
fn memory_call(
    alloc: Global,
    files: &mut MemFiles,
    out: &mut MemSink,
    step: &str,
) -> Result<String, AllocError> {
    let (verb, words) = split_word(step);
    let (name, rest) = split_word(words);
    match verb {
        "hold" => {
            files.add(name, &unescaped(alloc, rest)?)?;
            String::from_str(alloc, "ok")
        }
        "file" => match files.contents(name) {
            Some(bytes) => escaped(alloc, bytes),
            None => String::from_str(alloc, "none"),
        },
        "output" => escaped(alloc, out.bytes()),
        _ => call(alloc, files, out, step),
    }
}

/// Puts an answer behind others.
fn push_answer(told: &mut String, answer: &str) -> Result<(), AllocError> {
    if !told.is_empty() {
        told.push_str(", ")?;
    }
    told.push_str(answer)
}

/// The answers to calls of files in memory, of which calls of these numbers fail, and puts of those.
fn memory_told(alloc: Global, calls: &str, puts: &str, steps: &str) -> Result<String, AllocError> {
    let mut files = MemFiles::new(alloc, numbers(alloc, calls)?);
    let mut out = MemSink::new(alloc, numbers(alloc, puts)?);
    let mut told = String::new(alloc);
    for step in steps.split("; ") {
        let answer = memory_call(alloc, &mut files, &mut out, step)?;
        push_answer(&mut told, answer.as_str())?;
    }
    Ok(told)
}

/// The answers to a line of calls of files in memory. The numbers of the calls of the files that fail and those of the
/// puts that fail stand in front of it.
pub fn memory(alloc: Global, line: &str) -> Result<String, AllocError> {
    let (calls, rest) = line.split_once("; ").unwrap_or((line, ""));
    let (puts, steps) = rest.split_once("; ").unwrap_or((rest, ""));
    memory_told(alloc, calls, puts, steps)
}

/// The answer to a call of files of the system and of standard output.
fn disk_call<R: std::rt::Files + Print + AllocGlobal>(rt: &R, step: &str) -> io::Result<String> {
    if let Some(name) = step.strip_prefix("text ") {
        let text = fs::read_to_string(rt, name)?;
        return Ok(escaped(rt.alloc(), text.as_bytes())?);
    }
    let mut files = DiskFiles::new(rt);
    let mut out = StdSink::new(rt);
    Ok(call(rt.alloc(), &mut files, &mut out, step)?)
}

/// The answers to a line of calls of files of the system and of standard output.
pub fn disk<R: std::rt::Files + Print + AllocGlobal>(rt: &R, line: &str) -> io::Result<String> {
    let mut told = String::new(rt.alloc());
    for step in line.split("; ") {
        let answer = disk_call(rt, step)?;
        push_answer(&mut told, answer.as_str())?;
    }
    Ok(told)
}
