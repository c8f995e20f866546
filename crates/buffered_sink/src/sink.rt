//! A sink with a buffer of its own over a writer.

ghost use Rattle.std.specs.Prelude.{◌≡◌, ◌≤◌, ◌-◌, [], take, drop, length, IfOk, OnOk, MatchResult, vec_len, vec_capacity};
ghost use Rattle.std.specs.Io.KnownBytes.{Keeps, Appends};
ghost use Rattle.word86.specs.Sink.{WriteAppends, CountsPut, Rises};
ghost use Rattle.buffered_sink.specs.declared.sink.TheConstants.{ROOM};
ghost use Rattle.buffered_sink.specs.Buffered.{known};

use std::alloc::{AllocError, Global};
use std::io;
use std::io::ErrorKind;
use word86::{Sink, SinkFault};

/// How many bytes the buffer has room for.
const ROOM: usize = 8_192;

/// A sink over a writer, with a buffer that it takes when it is made: `put` takes no memory.
///
/// What was put counts as taken, also while it is still in the buffer. `flush` hands it on and says whether that failed; a sink that is let go
/// hands it on too.
pub struct BufferedSink<W: io::Write + Drop> {
    kept: Vec<u8>,
    writer: W,
    failures: u64,
    ghost roomy: { (vec_len kept ≤ ROOM) × (ROOM ≤ vec_capacity kept) },
}

/// How many of the bytes the writer takes at one time: none if it fails. A write that a signal interrupts is made again.
fn write_once<W: io::Write>(bytes: &[u8], writer: &mut W) -> usize
    ensures bound { result ≤ length bytes.now }
    ensures bytes { Appends (W.contents writer.old) (W.contents writer.new) (take result bytes.now) }
{
    for _ in 0..u64::MAX {
        match writer.write(bytes) {
            Ok(n) => return n,
            Err(error) if error.kind() == ErrorKind::Interrupted => {}
            Err(_) => return 0,
        }
    }
    0
}

/// Writes until all is written or the writer takes nothing, and answers how many bytes were written.
fn write_out<W: io::Write>(bytes: &[u8], writer: &mut W) -> usize
    ensures bound { result ≤ length bytes.now }
    ensures bytes { Appends (W.contents writer.old) (W.contents writer.new) (take result bytes.now) }
{
    let mut written = 0;
    while written < bytes.len() {
        let taken = write_once(&bytes[written..], writer);
        if taken == 0 {
            return written;
        }
        written += taken;
    }
    written
}

impl<W: io::Write + Drop> BufferedSink<W> {
    /// A sink over this writer that has taken nothing and has not failed. Its one error is want of memory for the buffer.
    pub fn new(alloc: Global, writer: W) -> Result<BufferedSink<W>, AllocError>
        ensures { IfOk result (λ s. (s.kept.items ≡ []) × (s.writer ≡ writer) × (s.failures ≡ 0)) }
    {
        Ok(BufferedSink {
            kept: Vec::with_capacity(alloc, ROOM)?,
            writer,
            failures: 0,
        })
    }

    /// Counts a failure.
    fn fail(&mut self) -> SinkFault
        ensures count { Rises self.old.failures self.new.failures }
        ensures kept { self.new.kept ≡ self.old.kept }
        ensures writer { self.new.writer ≡ self.old.writer }
    {
        self.failures = self.failures.saturating_add(1);
        SinkFault
    }

    /// Hands to the writer what is kept. What the writer does not take stays.
    fn empty(&mut self)
        ensures same { Keeps (known (W.contents self.old.writer) self.old.kept.items) (known (W.contents self.new.writer) self.new.kept.items) }
        ensures failures { self.new.failures ≡ self.old.failures }
    {
        let written = write_out(&self.kept, &mut self.writer);
        let length = self.kept.len();
        self.kept.as_mut_slice().copy_within(written..length, 0);
        self.kept.truncate(length - written);
    }

    /// Hands to the writer all that was put, and has the writer hand it on: to the end of a trace belongs this call.
    ///
    /// Its one error is that the writer failed, which counts. What it did not take is still kept.
    pub fn flush(&mut self) -> Result<(), SinkFault>
        ensures same { Keeps (known (W.contents self.old.writer) self.old.kept.items) (known (W.contents self.new.writer) self.new.kept.items) }
        ensures empty { OnOk result (self.new.kept.items ≡ []) }
        ensures failures { MatchResult result (λ _. self.new.failures ≡ self.old.failures) (λ _. Rises self.old.failures self.new.failures) }
    {
        self.empty();
        if !self.kept.is_empty() || self.writer.flush().is_err() {
            return Err(self.fail());
        }
        Ok(())
    }

    /// The same as `put`, where the buffer has no room for all of the bytes.
    #[cold]
    #[inline(never)]
    fn put_apart(&mut self, bytes: &[u8]) -> Result<usize, SinkFault>
        ensures bound { IfOk result (λ n. n ≤ length bytes.now) }
        ensures bytes { WriteAppends (known (W.contents self.old.writer) self.old.kept.items) (known (W.contents self.new.writer) self.new.kept.items) result bytes.now }
        ensures count { CountsPut self.old.failures self.new.failures result bytes.now }
    {
        self.empty();
        let taken = bytes.len().min(ROOM - self.kept.len());
        if taken == 0 && !bytes.is_empty() {
            return Err(self.fail());
        }
        match self.kept.extend_from_slice(&bytes[..taken]) {
            Ok(()) => Ok(taken),
            Err(_) => unreachable!(),
        }
    }
}

impl<W: io::Write + Drop> Sink for BufferedSink<W> {
    ghost taken = { λ s. known (W.contents s.writer) s.kept.items };

    ghost failures = { λ s. s.failures };

    #[inline(always)]
    fn put(&mut self, bytes: &[u8]) -> Result<usize, SinkFault> {
        if bytes.len() > ROOM - self.kept.len() {
            return self.put_apart(bytes);
        }
        match self.kept.extend_from_slice(bytes) {
            Ok(()) => Ok(bytes.len()),
            Err(_) => unreachable!(),
        }
    }
}

impl<W: io::Write + Drop> Drop for BufferedSink<W> {
    fn drop(mut self) {
        self.empty();
        let BufferedSink {
            kept: _,
            writer: _writer,
            failures: _,
        } = self;
    }
}
