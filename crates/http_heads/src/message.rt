//! Messages as they were read.

use delta_base::Bytes;

/// A request. Its path has no query.
#[derive(Debug, Drop)]
pub struct RawRequest {
    pub method: Bytes,
    pub path: Bytes,
    pub http10: bool,
    /// The connection ends behind it.
    pub close: bool,
    /// It asks for 100 Continue before its body.
    pub expects: bool,
    pub content_type: Option<Bytes>,
    pub encoding: Option<Bytes>,
    pub body: Bytes,
}

/// A reply.
#[derive(Debug, Drop)]
pub struct RawReply {
    pub status: u16,
    /// The connection ends behind it.
    pub close: bool,
    pub content_type: Option<Bytes>,
    pub body: Bytes,
}

/// A request or a reply.
#[derive(Debug, Drop)]
pub enum Message {
    Request(RawRequest),
    Reply(RawReply),
}

impl Message {
    ghost use Rattle.std.specs.Prelude.{◌≡◌};
    ghost use Rattle.http_heads.specs.Asking.{message_expects};

    /// Whether it asks for 100 Continue before its body.
    pub fn expects(&self) -> bool
        ensures { result ≡ message_expects self.now }
    {
        match self {
            Message::Request(request) => request.expects,
            Message::Reply(_) => false,
        }
    }
}

/// What a stream holds.
#[derive(Clone, Copy, Debug, PartialEq, Eq)]
pub enum Kind {
    Requests,
    Replies,
}
