//! A text in memory, as what takes bytes.

ghost use Rattle.std.specs.Prelude.{◌≡◌, [], Some};
ghost use Rattle.word86.specs.Sink.{Rises};

use std::alloc::Global;
use word86::{Sink, SinkFault};

/// The bytes so far, and how often memory was wanting.
#[derive(Drop)]
pub(crate) struct Collected {
    pub text: Vec<u8>,
    failures: u64,
}

impl Collected {
    /// Nothing so far.
    pub fn new(alloc: Global) -> Collected
        ensures { result.text.items ≡ [] }
    {
        Collected {
            text: Vec::new(alloc),
            failures: 0,
        }
    }

    fn rise(&mut self)
        ensures failures { Rises self.old.failures self.new.failures }
        ensures text { self.new.text ≡ self.old.text }
    {
        self.failures = self.failures.saturating_add(1);
    }
}

impl Sink for Collected {
    ghost taken = { λ s. Some s.text.items };

    ghost failures = { λ s. s.failures };

    fn put(&mut self, bytes: &[u8]) -> Result<usize, SinkFault> {
        let count = bytes.len();
        match self.text.extend_from_slice(&bytes[..count]) {
            Ok(()) => Ok(count),
            Err(_) => {
                self.rise();
                Err(SinkFault)
            }
        }
    }
}
