//! The files that a command reads, and what stops it at a file.
//!
//! What is read has the contract of `read_all`; the rest has none. That each stop names the file that it is of is shown by `tests/run`.

use crate::input::{ReadFault, read_all};
use crate::stop::{Stop, Unwritten};
use std::alloc::{AllocError, Global};
use std::fs;
use std::io::{Error, ErrorKind};
use std::rt::Files;
use word86::Fault;

/// From so many bytes on it is told how much of a file was read.
const MANY: usize = 1_048_576;

/// The bytes of a file, or its first `most` bytes.
pub(crate) fn read_file<R: Files>(
    rt: &R,
    alloc: Global,
    name: &str,
    most: Option<usize>,
) -> Result<Vec<u8>, Stop> {
    let mut file = match fs::open(rt, name) {
        Ok(file) => file,
        Err(error) => return Err(unread(alloc, name, &error)?),
    };
    match read_all(alloc, &mut file, most) {
        Ok(bytes) => Ok(bytes),
        Err(ReadFault::Memory(read)) => Err(memory_after(alloc, name, read)?),
        Err(ReadFault::Read(error)) => Err(unread(alloc, name, &error)?),
    }
}

/// The stop for want of memory once so many bytes of a file were read. Of few bytes nothing is said: it is not they that took the memory.
fn memory_after(alloc: Global, name: &str, read: usize) -> Result<Stop, AllocError> {
    if read < MANY {
        return Ok(Stop::Memory);
    }
    let words = format!(in alloc; "{read} bytes were read before memory ended")?;
    Ok(Stop::MemoryAfter(String::from_str(alloc, name)?, words))
}

/// The stop for a file that cannot be opened or read: the reason is the system's.
fn unread(alloc: Global, name: &str, error: &Error) -> Result<Stop, AllocError> {
    let reason = format!(in alloc; "{error}")?;
    Ok(Stop::CannotRead(String::from_str(alloc, name)?, reason))
}

/// The stop for a file that cannot be written: the reason is the system's.
pub(crate) fn unwritten(alloc: Global, name: &str, error: &Error) -> Result<Stop, AllocError> {
    if error.kind() == ErrorKind::OutOfMemory {
        return Ok(Stop::Memory);
    }
    let reason = format!(in alloc; "{error}")?;
    let name = String::from_str(alloc, name)?;
    Ok(Stop::CannotWrite(Unwritten::File(name, reason)))
}

/// The stop for a run that was cut short: by want of memory, or since standard output cannot be written.
pub(crate) fn cut_short(fault: Fault) -> Stop {
    match fault {
        Fault::Memory => Stop::Memory,
        Fault::At(_, _, _) => Stop::CannotWrite(Unwritten::StandardOutput),
    }
}
