//! The file of a waveform, whose body is written while a run goes.
//!
//! What stands in front of the body is known at the run's end. So the body goes into a file without a name until then, beside the place of the output;
//! where no file can be made there, it is kept in memory. That a waveform is the same either way is shown by `tests/outputs`.

ghost use Rattle.word86.specs.Sink.{Rises};

use crate::stop::Stop;
use crate::writing::{Body, Content, Output};
use std::alloc::Global;
use std::fs::File;
use std::io;
use std::io::{BufWriter, Error, Write};
use word86::{Sink, SinkFault};

// Where the bytes of a body are.
#[derive(Drop)]
enum Kept {
    // No waveform is wanted.
    Nowhere,
    InMemory(Vec<u8>),
    InFile(BufWriter<File>),
}

/// The body of a waveform: what was written of it, and why it could not be written.
#[derive(Drop)]
pub(crate) struct WaveBody {
    kept: Kept,
    error: Option<Error>,
    failures: u64,
}

impl WaveBody {
    /// An empty body of this output, where one is wanted.
    pub fn new(
        rt: &HostRuntime,
        alloc: Global,
        output: &mut Option<Output<'_>>,
    ) -> Result<WaveBody, Stop> {
        let kept = match output {
            None => Kept::Nowhere,
            Some(output) => match output.nameless(rt, alloc)? {
                None => Kept::InMemory(Vec::new(alloc)),
                Some(file) => Kept::InFile(buffered(alloc, file)?),
            },
        };
        Ok(WaveBody {
            kept,
            error: None,
            failures: 0,
        })
    }

    /// The stop for what could not be written of this output's body, where that is why a run was cut short.
    pub fn stop(&self, alloc: Global, output: &Option<Output<'_>>) -> Result<Option<Stop>, Stop> {
        match (self.error, output) {
            (Some(error), Some(output)) => Ok(Some(output.stop(alloc, &error)?)),
            (Some(_), None) | (None, _) => Ok(None),
        }
    }

    /// Writes the output: this text, and the body behind it.
    pub fn write(
        self,
        rt: &HostRuntime,
        alloc: Global,
        output: &mut Output<'_>,
        head: &[u8],
    ) -> Result<(), Stop> {
        match self.kept {
            Kept::Nowhere => Ok(()),
            Kept::InMemory(bytes) => {
                let body = Body::Bytes(&bytes);
                output.write_content(rt, alloc, Content { head, body })
            }
            Kept::InFile(file) => match file.into_inner() {
                Ok(file) => {
                    let body = Body::File(file);
                    output.write_content(rt, alloc, Content { head, body })
                }
                Err(unwritten) => Err(output.stop(alloc, unwritten.error())?),
            },
        }
    }
}

// A file whose bytes are written in blocks.
fn buffered(alloc: Global, file: File) -> Result<BufWriter<File>, Stop> {
    match BufWriter::new(alloc, file) {
        Ok(file) => Ok(file),
        Err(_) => Err(Stop::Memory),
    }
}

impl Write for Kept {
    fn write(&mut self, bytes: &[u8]) -> io::Result<usize> {
        match self {
            Kept::Nowhere => Ok(bytes.len()),
            Kept::InMemory(kept) => kept.write(bytes),
            Kept::InFile(file) => file.write(bytes),
        }
    }

    fn flush(&mut self) -> io::Result<()> {
        match self {
            Kept::Nowhere | Kept::InMemory(_) => Ok(()),
            Kept::InFile(file) => file.flush(),
        }
    }
}

impl WaveBody {
    // Counts a failure.
    fn fail(&mut self)
        ensures { Rises self.old.failures self.new.failures }
    {
        self.failures = self.failures.saturating_add(1);
    }
}

impl Sink for WaveBody {
    ghost failures = { λ s. s.failures };

    fn put(&mut self, bytes: &[u8]) -> Result<usize, SinkFault> {
        if bytes.is_empty() {
            return Ok(0);
        }
        match self.kept.write(bytes) {
            Ok(n) => {
                if n == 0 {
                    self.fail();
                }
                Ok(n)
            }
            Err(error) => {
                self.error = Some(error);
                self.fail();
                Err(SinkFault)
            }
        }
    }
}
