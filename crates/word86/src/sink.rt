//! What takes the bytes of a text.

ghost use Rattle.std.specs.Prelude.{◌≡◌, ◌≤◌, ℕ, List, [], Option, None, IfOk, Some, length, vec_len, vec_capacity};
ghost use Rattle.word86.specs.Sink.{Appends, CountsPut, Cut, Rises, TakesPortion, WriteAppends, Writes, portion};

use std::alloc::{AllocError, Global};
use std::io;
use thiserror::Error;

/// A sink took nothing of what it was given.
#[derive(Debug, Clone, Copy, PartialEq, Eq, Error)]
#[error("cannot write")]
pub struct SinkFault;

/// What takes bytes, and counts its failures.
pub trait Sink {
    /// The bytes taken so far, where they are known.
    ghost taken: { Self → Option (List ℕ) } = { λ _. None };

    /// How often it failed, up to the greatest number of 64 bits.
    ghost failures: { Self → ℕ };

    /// Takes a beginning of the bytes and tells its length.
    fn put(&mut self, bytes: &[u8]) -> Result<usize, SinkFault>
        ensures bound { IfOk result (λ n. n ≤ length bytes.now) }
        ensures bytes { WriteAppends (taken self.old) (taken self.new) result bytes.now }
        ensures count { CountsPut (failures self.old) (failures self.new) result bytes.now };
}

/// Puts all the bytes, or stops at the first failure.
pub fn put_all<S: Sink>(sink: &mut S, bytes: &[u8]) -> Result<(), SinkFault>
    ensures { Writes (S.taken sink.old) (S.taken sink.new) (S.failures sink.old) (S.failures sink.new) bytes.now result }
{
    let mut rest = bytes;
    while !rest.is_empty() {
        let n = sink.put(rest)?;
        if n == 0 {
            return Err(SinkFault);
        }
        rest = rest.split_at(n).1;
    }
    Ok(())
}

// How often a sink failed; at the greatest number of 64 bits the count stays.
#[derive(Clone, Copy)]
struct Failures(u64);

impl Failures {
    fn rise(&mut self)
        ensures { Rises self.old.0 self.new.0 }
    {
        self.0 = self.0.saturating_add(1);
    }
}

/// A sink over memory that takes at most `step` bytes a call and `room` bytes in all.
#[derive(Drop)]
pub struct CutSink {
    bytes: Vec<u8>,
    room: usize,
    step: usize,
    failures: Failures,
    ghost roomy: { (vec_len bytes ≤ room) × (room ≤ vec_capacity bytes) },
}

impl CutSink {
    /// Takes the room that the sink has from now on.
    pub fn new(alloc: Global, room: usize, step: usize) -> Result<CutSink, AllocError>
        ensures { IfOk result (λ s. (s.bytes.items ≡ []) × (s.room ≡ room) × (s.step ≡ step) × (s.failures.0 ≡ 0)) }
    {
        Ok(CutSink {
            bytes: Vec::with_capacity(alloc, room)?,
            room,
            step,
            failures: Failures(0),
        })
    }

    /// The bytes taken.
    pub fn bytes(&self) -> &[u8]
        ensures { result.now ≡ self.now.bytes.items }
    {
        self.bytes.as_slice()
    }

    /// How often it failed.
    pub fn failures(&self) -> u64
        ensures { result ≡ self.now.failures.0 }
    {
        self.failures.0
    }
}

impl Sink for CutSink {
    ghost taken = { λ s. Some s.bytes.items };

    ghost failures = { λ s. s.failures.0 };

    /// Takes as many bytes as its step and the room that is left allow, and fails where that is none of some.
    fn put(&mut self, bytes: &[u8]) -> Result<usize, SinkFault>
        ensures bound { IfOk result (λ n. n ≤ length bytes.now) }
        ensures bytes { WriteAppends (Some self.old.bytes.items) (Some self.new.bytes.items) result bytes.now }
        ensures count { CountsPut self.old.failures.0 self.new.failures.0 result bytes.now }
        ensures portion { TakesPortion (portion self.old.room self.old.step (vec_len self.old.bytes) bytes.now) bytes.now result }
        ensures limits { (self.new.room ≡ self.old.room) × (self.new.step ≡ self.old.step) }
    {
        let left = self.room - self.bytes.len();
        let n = bytes.len().min(self.step).min(left);
        if n == 0 && !bytes.is_empty() {
            self.failures.rise();
            return Err(SinkFault);
        }
        match self.bytes.extend_from_slice(&bytes[..n]) {
            Ok(()) => Ok(n),
            Err(_) => unreachable!(),
        }
    }
}

/// A sink over a writer. It knows its bytes where the writer does.
#[derive(Drop)]
pub struct WriterSink<W> {
    writer: W,
    failures: Failures,
}

impl<W: io::Write> WriterSink<W> {
    /// A sink over this writer, which has not failed yet.
    pub fn new(writer: W) -> WriterSink<W>
        ensures { (result.writer ≡ writer) × (result.failures.0 ≡ 0) }
    {
        WriterSink {
            writer,
            failures: Failures(0),
        }
    }
}

impl<W: io::Write> Sink for WriterSink<W> {
    ghost taken = { λ s. W.contents s.writer };

    ghost failures = { λ s. s.failures.0 };

    fn put(&mut self, bytes: &[u8]) -> Result<usize, SinkFault> {
        if bytes.is_empty() {
            return Ok(0);
        }
        match self.writer.write(bytes) {
            Ok(n) => {
                if n == 0 {
                    self.failures.rise();
                }
                Ok(n)
            }
            Err(_) => {
                self.failures.rise();
                Err(SinkFault)
            }
        }
    }
}
