//! The last lines of a report, which tell how a command ended.
ghost use Rattle.std.specs.Prelude.{◌≡◌, ◌≢◌, ◌≤◌, ◌++◌, ℕ, codes, IsTrue, Err, OnOk, OnErr, IfOk, IfErr};
ghost use Rattle.std.specs.Fmt.{decimal};
ghost use Rattle.std.specs.List.{flat_map};
ghost use Rattle.tm_base.specs.Sink.{AppendsPrefix};
ghost use Rattle.tm_report.specs.Report.{bad_cert_text, bad_driver_text, bad_structured_text, bad_text};
ghost use Rattle.tm_report.specs.Report.{ending_text, failure_text, outcome_text, usage_text};
ghost use Rattle.tm_report.specs.declared.ending.Failure.TheVariants.{Memory};
ghost use Rattle.tm_report.specs.Output.{sink_data};
ghost use Rattle.tm_report.specs.Putting.{IsSinkFailure};

use crate::ending::{Bad, Ending, Failure};
use crate::fault_text::fault_line;
use crate::put::put_line;
use std::alloc::{AllocError, Global};
use tm_base::{Name, Sink};
use tm_cert::BadCert;
use tm_cparse::BadDriver;
use tm_play::{end_line, push, push_number};
use tm_struct_parse::BadStructured;

/// The usage text, line by line.
const USAGE: [&str; 8] = [
    "usage: termite synth SPEC OUT [--budget N]\n",
    "       termite check SPEC DRIVER CERT\n",
    "       termite check SPEC CERT\n",
    "       termite run SPEC DRIVER CHOICES\n",
    "       termite gen N OUT\n",
    "       termite migrate SPEC CERT OUT\n",
    "       termite structure SPEC DRIVER OUT\n",
    "       termite unstructure SPEC STRUCT OUT\n",
];

/// A line of a word and a number.
#[tactic(auto, using(tm_play::proofs::Appending::append_assoc))]
fn counted_line(alloc: Global, word: &[u8], n: u64) -> Result<Vec<u8>, AllocError>
    ensures { IfOk result (λ line. line.items ≡ word.now ++ decimal n ++ codes "\n") }
{
    let mut line = Vec::from_slice(alloc, word)?;
    push_number(&mut line, n)?;
    push(&mut line, b"\n")?;
    Ok(line)
}

/// A line of a word and a file's name.
#[tactic(auto, using(tm_play::proofs::Appending::append_assoc))]
fn named_line(alloc: Global, word: &[u8], name: &Name) -> Result<Vec<u8>, AllocError>
    ensures { IfOk result (λ line. line.items ≡ word.now ++ name.now ++ codes "\n") }
{
    let mut line = Vec::from_slice(alloc, word)?;
    push(&mut line, name.as_bytes())?;
    push(&mut line, b"\n")?;
    Ok(line)
}

#[tactic(auto, using(tm_play::proofs::Appending::append_assoc))]
fn push_counted(line: &mut Vec<u8>, word: &[u8], n: u64) -> Result<(), AllocError>
    ensures { OnOk result (line.new.items ≡ line.old.items ++ (word.now ++ decimal n)) }
{
    push(line, word)?;
    push_number(line, n)?;
    Ok(())
}

fn push_bad_driver(line: &mut Vec<u8>, bad: BadDriver) -> Result<(), AllocError>
    ensures { OnOk result (line.new.items ≡ line.old.items ++ bad_driver_text bad) }
{
    match bad {
        BadDriver::TooLong => push(line, b"too long"),
        BadDriver::Text(number) => push_counted(line, b"text ", number),
        BadDriver::UnknownName(number) => push_counted(line, b"name ", number),
        BadDriver::BackwardGoto(number) => push_counted(line, b"backward ", number),
    }
}

fn push_bad_structured(line: &mut Vec<u8>, bad: BadStructured) -> Result<(), AllocError>
    ensures { OnOk result (line.new.items ≡ line.old.items ++ bad_structured_text bad) }
{
    match bad {
        BadStructured::TooLong => push(line, b"too long"),
        BadStructured::Text(number) => push_counted(line, b"text ", number),
        BadStructured::UnknownName(number) => push_counted(line, b"name ", number),
        BadStructured::ForwardCall(number) => push_counted(line, b"forward ", number),
    }
}

#[tactic(auto, using(tm_play::proofs::Appending::append_assoc))]
fn push_path(line: &mut Vec<u8>, word: &[u8], path: &Name) -> Result<(), AllocError>
    ensures { OnOk result (line.new.items ≡ line.old.items ++ (word.now ++ path.now)) }
{
    push(line, word)?;
    push(line, path.as_bytes())?;
    Ok(())
}

fn push_bad_cert(line: &mut Vec<u8>, bad: &BadCert) -> Result<(), AllocError>
    ensures { OnOk result (line.new.items ≡ line.old.items ++ bad_cert_text bad.now) }
{
    match bad {
        BadCert::Json => push(line, b"json"),
        BadCert::Shape(path) => push_path(line, b"shape ", path),
        BadCert::Range(path) => push_path(line, b"range ", path),
        BadCert::Node(id) => push_counted(line, b"node ", *id),
    }
}

fn push_bad(line: &mut Vec<u8>, why: &Bad) -> Result<(), AllocError>
    ensures { OnOk result (line.new.items ≡ line.old.items ++ bad_text why.now) }
{
    match why {
        Bad::TooLong => push(line, b"too long"),
        Bad::Driver(bad) => push_bad_driver(line, *bad),
        Bad::Structured(bad) => push_bad_structured(line, *bad),
        Bad::Cert(bad) => push_bad_cert(line, bad),
        Bad::Choices(number) => push_counted(line, b"line ", *number),
    }
}

#[tactic(auto, using(tm_play::proofs::Appending::append_assoc))]
fn bad_line(alloc: Global, file: &Name, why: &Bad) -> Result<Vec<u8>, AllocError>
    ensures { IfOk result (λ line.
        line.items ≡ codes "bad " ++ file.now ++ codes " " ++ bad_text why.now ++ codes "\n") }
{
    let mut line = Vec::from_slice(alloc, b"bad ")?;
    push(&mut line, file.as_bytes())?;
    push(&mut line, b" ")?;
    push_bad(&mut line, why)?;
    push(&mut line, b"\n")?;
    Ok(line)
}

/// Puts lines, one after another.
fn put_lines<O: Sink>(alloc: Global, out: &mut O, lines: &[&str]) -> Result<(), Failure>
    ensures ok { OnOk result (IsTrue O.tells →
        O.written out.new ≡ O.written out.old ++ flat_map (λ l. l.now) lines.now) }
    ensures err { OnErr result (IsTrue O.tells →
        AppendsPrefix (flat_map (λ l. l.now) lines.now) (O.written out.old) (O.written out.new)) }
    ensures failure { IfErr result (IsSinkFailure
        (sink_data ⟦<O as Sink>⟧ out.old) (sink_data ⟦<O as Sink>⟧ out.new)) }
    ensures no_fewer_faults { O.faults out.old ≤ O.faults out.new }
{
    for line in lines {
        put_line(alloc, out, line.as_bytes())?;
    }
    Ok(())
}

fn put_usage<O: Sink>(alloc: Global, out: &mut O) -> Result<(), Failure>
    ensures ok { OnOk result (IsTrue O.tells → O.written out.new ≡ O.written out.old ++ usage_text) }
    ensures err { OnErr result (IsTrue O.tells → AppendsPrefix usage_text (O.written out.old) (O.written out.new)) }
    ensures failure { IfErr result (IsSinkFailure
        (sink_data ⟦<O as Sink>⟧ out.old) (sink_data ⟦<O as Sink>⟧ out.new)) }
    ensures no_fewer_faults { O.faults out.old ≤ O.faults out.new }
{
    put_lines(alloc, out, &USAGE)
}

/// The line that tells that a certificate was written.
fn migrated_line() -> &'static [u8]
    ensures { result.now ≡ codes "migrated\n" }
{
    b"migrated\n"
}

/// Puts the lines that tell an end.
fn put_ending<O: Sink>(alloc: Global, ending: &Ending, out: &mut O) -> Result<(), Failure>
    ensures ok { OnOk result (IsTrue O.tells → O.written out.new ≡ O.written out.old ++ ending_text ending.now) }
    ensures err { OnErr result (IsTrue O.tells →
        AppendsPrefix (ending_text ending.now) (O.written out.old) (O.written out.new)) }
    ensures failure { IfErr result (IsSinkFailure
        (sink_data ⟦<O as Sink>⟧ out.old) (sink_data ⟦<O as Sink>⟧ out.new)) }
    ensures no_fewer_faults { O.faults out.old ≤ O.faults out.new }
{
    match ending {
        Ending::Usage => put_usage(alloc, out),
        Ending::Play(end) => {
            let line = end_line(alloc, *end)?;
            put_line(alloc, out, &line)
        }
        Ending::Driver { .. } => Ok(()),
        Ending::Environment { .. } => Ok(()),
        Ending::Budget { .. } => Ok(()),
        Ending::Accepted { .. } => Ok(()),
        Ending::AcceptedEnvironment { .. } => Ok(()),
        Ending::Refused { .. } => Ok(()),
        Ending::Generated(registers) => {
            let line = counted_line(alloc, b"generated ", *registers as u64)?;
            put_line(alloc, out, &line)
        }
        Ending::Migrated => put_line(alloc, out, migrated_line()),
        Ending::Structured(functions) => {
            let line = counted_line(alloc, b"structured ", *functions)?;
            put_line(alloc, out, &line)
        }
        Ending::Unstructured(blocks) => {
            let line = counted_line(alloc, b"unstructured ", *blocks)?;
            put_line(alloc, out, &line)
        }
        Ending::BadText { file, why } => {
            let line = bad_line(alloc, file, why)?;
            put_line(alloc, out, &line)
        }
        Ending::Faulty(fault) => {
            let line = fault_line(alloc, fault)?;
            put_line(alloc, out, &line)
        }
    }
}

/// The line that tells a failure; empty where none does, which takes no memory.
fn failure_line(alloc: Global, failure: &Failure) -> Result<Vec<u8>, AllocError>
    ensures text { IfOk result (λ line. line.items ≡ failure_text failure.now) }
    ensures told { OnErr result (failure.now ≢ Memory) }
{
    match failure {
        Failure::ReadFault(name) => named_line(alloc, b"read fault ", name),
        Failure::WriteFault(name) => {
            if name.as_bytes().is_empty() {
                Ok(Vec::new(alloc))
            } else {
                named_line(alloc, b"write fault ", name)
            }
        }
        Failure::Memory => Ok(Vec::new(alloc)),
    }
}

/// Puts the line that tells a failure: none, so that no put fails, where the output failed or memory ran out.
fn put_failure<O: Sink>(alloc: Global, failure: &Failure, out: &mut O) -> Result<(), Failure>
    ensures ok { OnOk result (IsTrue O.tells → O.written out.new ≡ O.written out.old ++ failure_text failure.now) }
    ensures err { OnErr result (IsTrue O.tells →
        AppendsPrefix (failure_text failure.now) (O.written out.old) (O.written out.new)) }
    ensures failure { IfErr result (IsSinkFailure
        (sink_data ⟦<O as Sink>⟧ out.old) (sink_data ⟦<O as Sink>⟧ out.new)) }
    ensures told { OnErr result (failure.now ≢ Memory) }
    ensures no_fewer_faults { O.faults out.old ≤ O.faults out.new }
{
    let line = failure_line(alloc, failure)?;
    if line.is_empty() {
        return Ok(());
    }
    put_line(alloc, out, &line)
}

/// Puts the lines that tell how a command ended, one put a line.
pub fn put_outcome<O: Sink>(
    alloc: Global,
    outcome: &Result<Ending, Failure>,
    out: &mut O,
) -> Result<(), Failure>
    ensures ok { OnOk result (IsTrue O.tells → O.written out.new ≡ O.written out.old ++ outcome_text outcome.now) }
    ensures err { OnErr result (IsTrue O.tells →
        AppendsPrefix (outcome_text outcome.now) (O.written out.old) (O.written out.new)) }
    ensures failure { IfErr result (IsSinkFailure
        (sink_data ⟦<O as Sink>⟧ out.old) (sink_data ⟦<O as Sink>⟧ out.new)) }
    ensures told { OnErr result (outcome.now ≢ Err Memory) }
    ensures no_fewer_faults { O.faults out.old ≤ O.faults out.new }
{
    match outcome {
        Ok(ending) => put_ending(alloc, ending, out),
        Err(failure) => put_failure(alloc, failure, out),
    }
}
