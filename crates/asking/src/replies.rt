// What `ask` says: rows for standard output, or one line for standard error.
ghost use Rattle.std.specs.Prelude.{Some};
ghost use Rattle.asking.specs.Replies.{told};

use crate::listing::*;
use messages::lines::AtLine;
use messages::quotes::quote;
use pagefile::{PageFileError, decode};
use reference::answering::*;
use reference::ask;
use reference_planning::faults::UnsoundIn;
use reference_reading::faults::FaultIn;
use std::alloc::{AllocError, Global};
use std::fmt;

// A reason to end with status 1, as one line.
#[derive(Drop)]
pub enum Failure {
    Said(String),
    OutOfMemory,
}

impl fmt::Display for Failure {
    ghost output = { λ failure. Some (told failure) };

    fn fmt<W: fmt::Write>(&self, f: &mut fmt::Formatter<W>) -> fmt::Result {
        match self {
            Failure::Said(line) => f.write_str(line.as_str()),
            Failure::OutOfMemory => f.write_str("ask: out of memory"),
        }
    }
}

impl From<AllocError> for Failure {
    fn from(_error: AllocError) -> Self {
        Failure::OutOfMemory
    }
}

// The line for a question that was refused. An Err stands where no memory is left for the line, as `try_map_err` takes it.
fn refused(heap: Global, text: &[u8], refusal: Refusal) -> Result<Failure, Failure> {
    match refusal {
        Refusal::NotAQuestion(AtLine { line, fault }) => {
            let fault = FaultIn { text, fault };
            let error = AtLine { line, fault };
            Ok(Failure::Said(format!(in heap; "ask: not a question: {error}")?))
        }
        Refusal::NotSound(AtLine { line, fault }) => {
            let fault = UnsoundIn { text, fault };
            let error = AtLine { line, fault };
            Ok(Failure::Said(format!(in heap; "ask: not sound: {error}")?))
        }
        Refusal::OutOfMemory => Ok(Failure::OutOfMemory),
    }
}

// The line for a page file that was cut off, or isn't one.
fn broken(heap: Global, name: &str, error: PageFileError) -> Result<Failure, Failure> {
    match error {
        PageFileError::NotWhole => {
            let name = quote(heap, name)?;
            Ok(Failure::Said(format!(in heap;
                "ask: {name} isn't a whole number of pages of 4096 bytes"
            )?))
        }
        PageFileError::OutOfMemory => Ok(Failure::OutOfMemory),
    }
}

// The rows that a question comes to on the pages of the file `name`, as they are printed.
pub fn reply(heap: Global, text: &[u8], name: &str, pages: &[u8]) -> Result<Vec<u8>, Failure> {
    let words = decode(heap, pages).try_map_err(|error| broken(heap, name, error))?;
    let answer = ask(heap, text, words.as_slice()).try_map_err(|refusal| refused(
        heap, text, refusal,
    ))?;
    Ok(list_rows(heap, answer.rows.as_slice())?)
}

// The line for a file that can't be read.
pub fn cannot_read(heap: Global, name: &str, reason: &str) -> Result<String, AllocError> {
    let name = quote(heap, name)?;
    format!(in heap; "ask: can't read {name}: {reason}")
}
