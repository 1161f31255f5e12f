//! Command lines, performed.

use case_files::Printed;
use commands::perform::perform;
use devices::{Device, Disk};
use inputs::CommandError;
use standard_error::{Audience, error_text};
use std::alloc::{AllocError, Global};
use std::io;
use std::io::{ErrorKind, Write};
use std::sync::Wait;
use std::thread::Threads;
use verdicts::Outcome;

/// A writer that keeps back what it takes until it is flushed.
#[derive(Drop)]
struct Buffered {
    kept: Vec<u8>,
    flushed: Vec<u8>,
}

impl Buffered {
    /// A writer that took nothing.
    fn new(alloc: Global) -> Buffered {
        Buffered {
            kept: Vec::new(alloc),
            flushed: Vec::new(alloc),
        }
    }
}

impl Write for Buffered {
    fn write(&mut self, buf: &[u8]) -> io::Result<usize> {
        match self.kept.extend_from_slice(buf) {
            Ok(()) => Ok(buf.len()),
            Err(_) => Err(io::Error::from(ErrorKind::OutOfMemory)),
        }
    }

    fn flush(&mut self) -> io::Result<()> {
        match self.flushed.extend_from_slice(&self.kept) {
            Ok(()) => {
                self.kept.clear();
                Ok(())
            }
            Err(_) => Err(io::Error::from(ErrorKind::OutOfMemory)),
        }
    }
}

/// What a command printed that came out so, or of which this was said.
fn printed_of(
    alloc: Global,
    flushed: &[u8],
    performed: Result<Outcome, String>,
) -> Result<Printed, AllocError> {
    let mut text = Vec::from_slice(alloc, flushed)?;
    let status = match performed {
        Ok(outcome) => outcome.status(),
        Err(said) => {
            text.extend_from_slice(said.as_bytes())?;
            Outcome::Error.status()
        }
    };
    Ok(Printed { status, text })
}

/// The words of a command line without quotes.
fn words_of(alloc: Global, line: &str) -> Result<Vec<String>, AllocError> {
    let mut words = Vec::new(alloc);
    for word in line.split(' ') {
        if !word.is_empty() {
            words.push(String::from_str(alloc, word)?)?;
        }
    }
    Ok(words)
}

/// What was performed: the outcome, or what is said of the error.
fn outcome_or_text(
    alloc: Global,
    words: &[String],
    host: &Disk<'_>,
    performed: Result<Outcome, CommandError>,
) -> Result<Result<Outcome, String>, AllocError> {
    match performed {
        Ok(outcome) => Ok(Ok(outcome)),
        Err(error) => Ok(Err(error_text(alloc, words, &error, host, Audience::of_words(words))?)),
    }
}

/// Performs command lines, each with this standard input.
pub fn perform_lines<R: Threads + Wait + Sync>(
    rt: &HostRuntime,
    threads: &R,
    lines: &[String],
    text: &[u8],
) -> io::Result<Vec<Printed>> {
    let alloc = rt.alloc();
    let mut printed = Vec::new(alloc);
    for line in lines {
        let words = words_of(alloc, line)?;
        let mut host = Disk::new(rt, Some(text));
        let mut out = Device::new(Buffered::new(alloc));
        let performed = perform(threads, alloc, &words, &mut host, &mut out);
        let said = outcome_or_text(alloc, &words, &host, performed)?;
        printed.push(printed_of(alloc, &out.into_inner().flushed, said)?)?;
    }
    Ok(printed)
}
