//! Readers of streams of messages, and what they give in words.
use http_heads::{FrameFault, RawReply, RawRequest};
use http_text::{CutShort, ReplyReader, RequestReader};
use std::alloc::{AllocError, Global};

/// What stands between the things that a stream gives.
const BREAK: &[u8] = b" | ";

/// A reader of a stream of messages.
pub(crate) trait Stream: Drop {
    /// A reader that was given no bytes.
    fn start(alloc: Global) -> Self;

    /// Takes the next piece.
    fn give(&mut self, piece: &[u8]) -> Result<(), FrameFault>;

    /// Takes the next message, if there is one, and tells it with a break behind it.
    fn tell_next(&mut self, told: &mut Vec<u8>) -> Result<bool, AllocError>;

    /// Whether the stream may end here.
    fn end(&mut self) -> Result<Result<(), CutShort>, FrameFault>;
}

// Tells a value behind a word, where there is one.
fn tell_part(word: &[u8], value: &[u8], told: &mut Vec<u8>) -> Result<(), AllocError> {
    if value.is_empty() {
        return Ok(());
    }
    told.extend_from_slice(word)?;
    told.extend_from_slice(value)
}

// Tells a word where something is so.
fn tell_flag(is_so: bool, word: &[u8], told: &mut Vec<u8>) -> Result<(), AllocError> {
    if is_so {
        told.extend_from_slice(word)?;
    }
    Ok(())
}

// Tells a request: its method and path, what its head asks, and its body.
fn tell_request(request: &RawRequest, told: &mut Vec<u8>) -> Result<(), AllocError> {
    told.extend_from_slice(request.method.as_slice())?;
    tell_part(b" ", request.path.as_slice(), told)?;
    tell_flag(request.http10, b" 1.0", told)?;
    tell_flag(request.close, b" closes", told)?;
    tell_flag(request.expects, b" asks", told)?;
    if let Some(kind) = &request.content_type {
        tell_part(b" type ", kind.as_slice(), told)?;
    }
    if let Some(coding) = &request.encoding {
        tell_part(b" coding ", coding.as_slice(), told)?;
    }
    tell_part(b" body ", request.body.as_slice(), told)?;
    told.extend_from_slice(BREAK)
}

// Tells a reply: its status, what its head says, and its body.
fn tell_reply(alloc: Global, reply: &RawReply, told: &mut Vec<u8>) -> Result<(), AllocError> {
    told.extend_from_slice(reply.status.to_string(alloc)?.as_bytes())?;
    tell_flag(reply.close, b" closes", told)?;
    if let Some(kind) = &reply.content_type {
        tell_part(b" type ", kind.as_slice(), told)?;
    }
    tell_part(b" body ", reply.body.as_slice(), told)?;
    told.extend_from_slice(BREAK)
}

impl Stream for RequestReader {
    fn start(alloc: Global) -> RequestReader {
        RequestReader::new(alloc)
    }

    fn give(&mut self, piece: &[u8]) -> Result<(), FrameFault> {
        self.feed(piece)
    }

    fn tell_next(&mut self, told: &mut Vec<u8>) -> Result<bool, AllocError> {
        let Some(request) = self.take() else {
            return Ok(false);
        };
        let is_told = tell_request(&request, told);
        drop(request);
        is_told?;
        Ok(true)
    }

    fn end(&mut self) -> Result<Result<(), CutShort>, FrameFault> {
        self.feed(b"")?;
        Ok(self.finish())
    }
}

impl Stream for ReplyReader {
    fn start(alloc: Global) -> ReplyReader {
        ReplyReader::new(alloc)
    }

    fn give(&mut self, piece: &[u8]) -> Result<(), FrameFault> {
        self.feed(piece)
    }

    fn tell_next(&mut self, told: &mut Vec<u8>) -> Result<bool, AllocError> {
        let Some(reply) = self.take() else {
            return Ok(false);
        };
        let is_told = tell_reply(*told.allocator(), &reply, told);
        drop(reply);
        is_told?;
        Ok(true)
    }

    fn end(&mut self) -> Result<Result<(), CutShort>, FrameFault> {
        self.feed(b"")?;
        Ok(self.finish())
    }
}

// Tells a fault, and how long a body is that is too long.
fn tell_fault(fault: FrameFault, told: &mut Vec<u8>) -> Result<(), AllocError> {
    told.extend_from_slice(fault.name().as_bytes())?;
    if let FrameFault::BodyTooLong { length, limit } = fault {
        let text = format!(in *told.allocator(); " {length} of {limit}")?;
        told.extend_from_slice(text.as_bytes())?;
    }
    Ok(())
}

/// Tells where a stream stands behind pieces that were taken so: between two messages, inside one, or at a fault, which
/// it answers again.
pub(crate) fn tell_end<S: Stream>(
    stream: &mut S,
    taken: Result<(), FrameFault>,
    told: &mut Vec<u8>,
) -> Result<(), AllocError> {
    let end = stream.end();
    tell_flag(taken.is_err() != end.is_err(), b"not again: ", told)?;
    match end {
        Ok(Ok(())) => told.extend_from_slice(b"end"),
        Ok(Err(CutShort)) => told.extend_from_slice(b"cut short"),
        Err(fault) => {
            tell_flag(taken != Err(fault), b"another one: ", told)?;
            tell_fault(fault, told)
        }
    }
}
