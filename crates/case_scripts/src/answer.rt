//! What a command answers.
use std::alloc::Global;
use std::fmt;

/// The text of an answer. It is written by `write!`, or bytes are pushed as they are.
#[derive(Drop)]
pub struct Answer {
    bytes: Vec<u8>,
    is_short: bool,
}

impl Answer {
    /// No text.
    pub fn new(alloc: Global) -> Answer {
        Answer {
            bytes: Vec::new(alloc),
            is_short: false,
        }
    }

    /// Adds bytes. Where memory is wanting the answer is none that is wanted.
    pub fn push(&mut self, bytes: &[u8]) {
        if self.bytes.extend_from_slice(bytes).is_err() {
            self.is_short = true;
        }
    }

    pub fn bytes(&self) -> &[u8] {
        self.bytes.as_slice()
    }

    pub(crate) fn into_bytes(self) -> Vec<u8> {
        self.bytes
    }

    pub(crate) fn is(&self, wanted: &[u8]) -> bool {
        !self.is_short && self.bytes.as_slice() == wanted
    }
}

impl fmt::Write for Answer {
    fn write_str(&mut self, s: &str) -> fmt::Result {
        self.push(s.as_bytes());
        Ok(())
    }
}
