//! The program `oscar`: the machine over the standard streams.
#![tactic(auto)]

use osc_outside::{StdSink, StdSource};
use osc_top::{MEMORY_LINE, Outcome, Status, oscar};
use std::alloc::{AllocError, Global};
use std::env::{Env, FillError};
use std::process::ExitCode;

/// The most bytes of a word and its end (Linux, `execve(2)`, MAX_ARG_STRLEN).
const LONGEST_WORD: usize = 131_072;

fn main(rt: HostRuntime) -> ExitCode {
    let status = match words(&rt) {
        Ok(words) => run(&rt, &words),
        Err(AllocError) => no_memory(&rt),
    };
    ExitCode::from(status.0)
}

/// The words of the command, the program's name first. What is no UTF-8 in a word is U+FFFD, which stands
/// in no option's name and in no value of one.
fn words(rt: &HostRuntime) -> Result<Vec<String>, AllocError> {
    let mut bytes = buffer(rt.alloc())?;
    let mut words = Vec::new(rt.alloc());
    for at in 0..usize::MAX {
        match rt.arg(at, &mut bytes) {
            Ok(length) => words.push(text(rt.alloc(), &bytes, length)?)?,
            Err(FillError::NotPresent | FillError::TooLong) => break,
        }
    }
    Ok(words)
}

fn buffer(alloc: Global) -> Result<Vec<u8>, AllocError> {
    vec![in alloc; 0; LONGEST_WORD]
}

/// The text of the first bytes of a buffer.
fn text(alloc: Global, bytes: &[u8], length: usize) -> Result<String, AllocError> {
    String::from_utf8_lossy(alloc, &bytes[..length.min(bytes.len())])
}

fn run(rt: &HostRuntime, words: &[String]) -> Status {
    match texts(rt, words) {
        Ok(texts) => run_with(rt, &texts),
        Err(AllocError) => no_memory(rt),
    }
}

fn texts<'a>(rt: &HostRuntime, words: &'a [String]) -> Result<Vec<&'a str>, AllocError> {
    words.iter().map(|word| word.as_str()).collect(rt.alloc())
}

fn run_with(rt: &HostRuntime, words: &[&str]) -> Status {
    let mut source = StdSource::new(rt.stdin());
    let mut out = StdSink::new(rt.stdout());
    let mut err = StdSink::new(rt.stderr());
    oscar(rt.alloc(), words, &mut source, &mut out, &mut err)
}

/// Memory ran out before the words were read.
fn no_memory(rt: &HostRuntime) -> Status {
    match rt.eprint(MEMORY_LINE) {
        Ok(()) => Status(Outcome::NoMemory.status()),
        Err(_) => Status(67),
    }
}
