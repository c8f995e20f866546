//! Files that are read whole.

ghost use Rattle.std.specs.Prelude.{◌≡◌, ◌≢◌, ◌+◌, ◌≤◌, ℕ, IfErr, IfOk, IfSome, OnErr, Some};
ghost use Rattle.std.specs.IoError.{error_kind};
ghost use Rattle.std.specs.declared.io.ErrorKind.TheVariants.{OutOfMemory};
ghost use Rattle.plm86.specs.Input.{bounded, GivesAtMost, GivesSoMany};
ghost use Rattle.plm86.specs.declared.input.ReadFault.TheVariants as fault;

use std::alloc::Global;
use std::io::{Error, ErrorKind, Read};

// The bytes that a reader is asked for at one time.
const CHUNK: usize = 16_384;

/// Why an input was not read.
#[derive(Clone, Copy)]
pub enum ReadFault {
    /// The reader failed, and why.
    Read(Error),
    /// A growth of memory was refused, once so many bytes were read.
    Memory(usize),
}

// The fault for a reader's error, once so many bytes were read.
fn fault_of(error: Error, read: usize) -> ReadFault
    ensures memory { error_kind error ≡ OutOfMemory → result ≡ fault.Memory read }
    ensures reader { error_kind error ≢ OutOfMemory → result ≡ fault.Read error }
    ensures counted { (n : ℕ) → result ≡ fault.Memory n → n ≡ read }
{
    if error.kind() == ErrorKind::OutOfMemory {
        ReadFault::Memory(read)
    } else {
        ReadFault::Read(error)
    }
}

// How many bytes to ask for, where this many were read.
fn room(most: Option<usize>, read: usize) -> usize
    requires { IfSome most (λ m. read ≤ m) }
    ensures chunk { result ≤ CHUNK }
    ensures within { IfSome most (λ m. read + result ≤ m) }
    ensures none { result ≡ 0 → most ≡ Some read }
{
    match most {
        None => CHUNK,
        Some(most) => CHUNK.min(most - read),
    }
}

/// Reads all that a reader has, or its first `most` bytes.
///
/// # Errors
///
/// `Read` where the reader failed or has no end, and `Memory` where a growth of memory was refused, with the number of bytes that were read: the
/// reader has then given no more than its first `most` bytes.
pub fn read_all<R: Read>(
    alloc: Global,
    reader: &mut R,
    most: Option<usize>,
) -> Result<Vec<u8>, ReadFault>
    ensures read { IfOk result (λ v. IfSome (R.remaining reader.old) (λ xs. v.items ≡ bounded most xs)) }
    ensures refused { OnErr result (GivesAtMost most (R.remaining reader.old) (R.remaining reader.new)) }
    ensures counted { IfErr result (λ f. (n : ℕ) → f ≡ fault.Memory n → GivesSoMany n (R.remaining reader.old) (R.remaining reader.new)) }
{
    let mut bytes = Vec::new(alloc);
    let mut chunk = [0; CHUNK];
    for _ in 0..u64::MAX {
        let read = bytes.len();
        let room = room(most, read);
        if room == 0 {
            return Ok(bytes);
        }
        match reader.read(&mut chunk[..room]) {
            Ok(0) => return Ok(bytes),
            Ok(count) => match bytes.extend_from_slice(&chunk[..count]) {
                Ok(()) => {}
                Err(_) => return Err(ReadFault::Memory(read + count)),
            },
            Err(error) if error.kind() == ErrorKind::Interrupted => continue,
            Err(error) => return Err(fault_of(error, read)),
        }
    }
    Err(ReadFault::Read(Error::other("it has no end")))
}
