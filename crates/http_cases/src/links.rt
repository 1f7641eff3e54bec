//! Connections whose content is given.
ghost use Rattle.std.specs.Prelude.{◌<◌};

use case_scripts::Words;
use delta_base::{Bytes, Calls, Failed, Link, Listing, MemLink, OutOfMemory};
use std::alloc::Global;

/// A connection that gives a text in pieces, and whose calls of these numbers fail.
pub(crate) fn link_of(
    alloc: Global,
    text: &[u8],
    piece: usize,
    failing: &[u64],
) -> Result<MemLink, OutOfMemory>
    requires { 0 < piece }
{
    let calls: Calls = Listing::from_vec(Vec::from_slice(alloc, failing)?);
    let content = Bytes::from_slice(alloc, text)?;
    Ok(MemLink::new(alloc, content, piece, calls))
}

/// A connection that gives its texts in turn, each one once the replies to those before it were sent. A read that comes
/// earlier fails.
#[derive(Drop)]
pub(crate) struct Turns<'a> {
    /// Texts and the replies to them by turns, none longer than one read.
    words: &'a Words,
    /// The place of the next text.
    next: usize,
    /// How long the replies are to the texts before it.
    awaited: usize,
    sent: Vec<u8>,
    faults: u64,
}

impl<'a> Turns<'a> {
    pub(crate) fn new(alloc: Global, words: &'a Words) -> Turns<'a> {
        Turns {
            words,
            next: 1,
            awaited: 0,
            sent: Vec::new(alloc),
            faults: 0,
        }
    }

    pub(crate) fn sent(&self) -> &[u8] {
        self.sent.as_slice()
    }
}

impl<'a> Link for Turns<'a> {
    ghost use Rattle.std.specs.Prelude.{None};

    ghost left = { λ t. None };

    ghost sent = { λ t. None };

    ghost faults = { λ t. t.faults };

    fn read(&mut self, into: &mut [u8]) -> Result<usize, Failed> {
        if self.sent.len() < self.awaited {
            self.faults = self.faults.saturating_add(1);
            return Err(Failed);
        }
        let text = self.words.bytes(self.next);
        let count = text.len().min(into.len());
        into[..count].copy_from_slice(&text[..count]);
        let reply = self.words.bytes(self.next.saturating_add(1));
        self.awaited = self.awaited.saturating_add(reply.len());
        self.next = self.next.saturating_add(2);
        Ok(count)
    }

    fn write(&mut self, bytes: &[u8]) -> Result<usize, Failed> {
        if self.sent.extend_from_slice(bytes).is_err() {
            self.faults = self.faults.saturating_add(1);
            return Err(Failed);
        }
        Ok(bytes.len())
    }

    fn faults(&self) -> u64 {
        self.faults
    }
}
