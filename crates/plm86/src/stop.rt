//! What ends the program before its work is done, and what it says then.
//!
//! Texts and statuses have no contract: `tests/run` shows one of each kind, and `tests/pages` each message of `docs/ERRORS.md`.

use crate::order::{MessageFormat, Telling};
use crate::outputs::{Loss, Named};
use listing_map::{NOWHERE, UNWRITTEN, object_line};
use std::alloc::{AllocError, AllocFailed, Global};
use word86::{Sink, put_all};

const OUT_OF_MEMORY: &[u8] = b"plm86: out of memory\n";

/// Why the program stops early.
#[derive(Drop)]
pub enum Stop {
    /// A growth of memory was refused.
    Memory,
    /// A growth of memory was refused while a file was read: its name, and how much of it was read.
    MemoryAfter(String, String),
    /// The words of the command line were refused: what to print.
    Words(String),
    /// A file that cannot be read, and why.
    CannotRead(String, String),
    /// What cannot be written.
    CannotWrite(Unwritten),
    /// A fault in a file: what to print.
    Refused(Vec<u8>),
}

/// What cannot be written.
#[derive(Drop)]
pub enum Unwritten {
    StandardOutput,
    /// A file, by its name, and why.
    File(String, String),
}

impl From<AllocError> for Stop {
    fn from(_refused: AllocError) -> Stop {
        Stop::Memory
    }
}

impl<T: Drop> From<AllocFailed<T>> for Stop {
    fn from(_refused: AllocFailed<T>) -> Stop {
        Stop::Memory
    }
}

impl Stop {
    /// The refusal of a build in which the second of these files would be lost by the first.
    pub(crate) fn one_file(
        alloc: Global,
        written: Named<'_>,
        lost: Named<'_>,
    ) -> Result<Stop, AllocError> {
        let (name, other) = (written.name, lost.name);
        let (purpose, other_purpose) = (written.purpose.word(), lost.purpose.word());
        let article = lost.purpose.article();
        let text = match (lost.purpose.loss(), name == other) {
            (Loss::Stream, _) => {
                format!(in alloc;
                    "error: {name} is the {other_purpose} and would be written over\n"
                )?
            }
            (Loss::Read, true) => {
                format!(in alloc;
                    "error: {name} is {article} {other_purpose} and would be written over\n"
                )?
            }
            (Loss::Read, false) => {
                format!(in alloc;
                    "error: {name} is the {other_purpose} {other} and would be written over\n"
                )?
            }
            (Loss::Written, true) => {
                format!(in alloc;
                    "error: {name} is named twice, as {purpose} and as {other_purpose}\n"
                )?
            }
            (Loss::Written, false) => {
                format!(in alloc;
                    "error: {name} and {other} are one file, named as {purpose} and as {other_purpose}\n"
                )?
            }
        };
        Ok(Stop::Words(text))
    }

    /// Says on standard error why the program stops, and answers its status.
    pub fn report<S: Sink>(&self, alloc: Global, telling: Telling, errors: &mut S) -> u8 {
        // Where standard error cannot be written, the status still tells.
        match self {
            Stop::Memory => {
                let _ = put_all(errors, OUT_OF_MEMORY);
                1
            }
            Stop::MemoryAfter(name, read) => {
                let _ = put_all(errors, OUT_OF_MEMORY);
                message_of(name, read.as_str(), "").put(alloc, telling, errors);
                1
            }
            Stop::Words(text) => {
                let _ = put_all(errors, text.as_str().as_bytes());
                2
            }
            Stop::CannotRead(name, reason) => {
                message_of(name, "cannot read", reason.as_str()).put(alloc, telling, errors);
                3
            }
            Stop::CannotWrite(unwritten) => {
                unwritten.message().put(alloc, telling, errors);
                3
            }
            Stop::Refused(text) => {
                let _ = put_all(errors, text);
                1
            }
        }
    }
}

// What is said of a file: its name, the number of the fault and why it cannot be used, where they are known.
#[derive(Clone, Copy)]
struct FileMessage<'m> {
    name: &'m str,
    number: Option<&'static str>,
    words: &'m str,
    reason: &'m str,
}

// What is said of a file without a number.
fn message_of<'m>(name: &'m String, words: &'m str, reason: &'m str) -> FileMessage<'m> {
    FileMessage {
        name: name.as_str(),
        number: None,
        words,
        reason,
    }
}

impl Unwritten {
    // What is said of it. Standard output is that of a trace, which is written to the end or E704.
    fn message(&self) -> FileMessage<'_> {
        match self {
            Unwritten::StandardOutput => FileMessage {
                name: "stdout",
                number: Some("E704"),
                words: "cannot write",
                reason: UNWRITTEN,
            },
            Unwritten::File(name, reason) => message_of(name, "cannot write", reason.as_str()),
        }
    }
}

impl<'m> FileMessage<'m> {
    // Says it on standard error.
    fn put<S: Sink>(self, alloc: Global, telling: Telling, errors: &mut S) {
        match telling.format {
            MessageFormat::Text => self.put_lines(telling, errors),
            MessageFormat::Json => match self.object(alloc) {
                Ok(line) => {
                    let _ = put_all(errors, &line);
                }
                Err(_) => {
                    let _ = put_all(errors, OUT_OF_MEMORY);
                }
            },
        }
    }

    fn object(self, alloc: Global) -> Result<Vec<u8>, AllocError> {
        let number = self.number.map(|number| number.as_bytes());
        let help = if self.reason.is_empty() {
            None
        } else {
            Some(self.reason.as_bytes())
        };
        object_line(alloc, self.name, NOWHERE, number, self.words, help)
    }

    fn put_lines<S: Sink>(self, telling: Telling, errors: &mut S) {
        let _ = put_all(errors, self.name.as_bytes());
        let _ = put_all(errors, b": ");
        let _ = put_all(errors, self.words.as_bytes());
        let _ = put_all(errors, b"\n");
        if telling.explains && !self.reason.is_empty() {
            let _ = put_all(errors, b"      = ");
            let _ = put_all(errors, self.reason.as_bytes());
            let _ = put_all(errors, b"\n");
        }
    }
}
