//! A list of what is found on the way through trees: a step of the way need not ask whether the list could grow.

use std::alloc::{AllocError, Global};

/// What was noted, and whether memory was wanting for some of it.
#[derive(Drop)]
pub(crate) struct Noted<T> {
    all: Vec<T>,
    lacks: bool,
}

impl<T: Copy> Noted<T> {
    /// Nothing so far.
    pub fn new(alloc: Global) -> Noted<T> {
        Noted {
            all: Vec::new(alloc),
            lacks: false,
        }
    }

    /// Notes one more.
    pub fn add(&mut self, one: T) {
        if self.all.push(one).is_err() {
            self.lack();
        }
    }

    /// Notes that memory was wanting for something else.
    pub fn lack(&mut self) {
        self.lacks = true;
    }

    /// All that was noted, where there was memory for it.
    pub fn whole(self) -> Result<Vec<T>, AllocError> {
        if self.lacks {
            return Err(AllocError);
        }
        Ok(self.all)
    }
}

impl Noted<u8> {
    /// Adds the bytes of a text.
    pub fn put(&mut self, bytes: &[u8]) {
        if self.all.extend_from_slice(bytes).is_err() {
            self.lack();
        }
    }
}
