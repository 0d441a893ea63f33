//! The program: it obeys the words behind its name over the files of the operating system.
#![tactic(auto)]

use std::alloc::{AllocError, Global};
use std::env::{self, Args};
use std::io::{self, ErrorKind};
use std::process::ExitCode;
use tm_base::{DiskFiles, StdSink};
use tm_commands::obey_and_report;

/// The code for want of memory for the words.
const NO_MEMORY: u8 = 7;
/// The code for words that are not given for another cause, as one that is not UTF-8.
const NO_WORDS: u8 = 11;

/// The words behind the program's own name.
fn words_behind_name(alloc: Global, args: Args) -> Result<Vec<String>, AllocError> {
    let mut words = Vec::new(alloc);
    for word in args.skip(1) {
        words.push(word)?;
    }
    Ok(words)
}

/// The code for words that are not given.
fn refusal_code(error: &io::Error) -> u8 {
    if error.kind() == ErrorKind::OutOfMemory {
        NO_MEMORY
    } else {
        NO_WORDS
    }
}

fn main(rt: HostRuntime) -> ExitCode {
    let args = match env::args(&rt) {
        Ok(args) => args,
        Err(error) => return ExitCode::from(refusal_code(&error)),
    };
    let Ok(words) = words_behind_name(rt.alloc(), args) else {
        return ExitCode::from(NO_MEMORY);
    };
    let mut files = DiskFiles::new(&rt);
    let mut out = StdSink::new(&rt);
    let status = obey_and_report(rt.alloc(), &words, &mut files, &mut out);
    ExitCode::from(status.code())
}
