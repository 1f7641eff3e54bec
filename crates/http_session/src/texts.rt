//! The texts that a session writes by itself. They take no memory.
ghost use Rattle.std.specs.Prelude.{◌≡◌};
ghost use Rattle.http_session.specs.Texts.{continue_text, memory_text, refusal_text};

use http_heads::FrameFault;

/// Asks a client to send the body of its request.
pub fn continue_text() -> &'static [u8]
    ensures { result.now ≡ continue_text }
{
    b"HTTP/1.1 100 Continue\r\n\r\n"
}

/// The reply for want of memory.
pub fn memory_text(close: bool) -> &'static [u8]
    ensures { result.now ≡ memory_text close }
{
    if close {
        b"HTTP/1.1 503 Service Unavailable\r\nConnection: close\r\nContent-Type: application/json\r\nContent-Length: 25\r\n\r\n{\"error\":\"out_of_memory\"}"
    } else {
        b"HTTP/1.1 503 Service Unavailable\r\nContent-Type: application/json\r\nContent-Length: 25\r\n\r\n{\"error\":\"out_of_memory\"}"
    }
}

/// The reply to bytes that are no request.
pub fn refusal_text(fault: FrameFault) -> &'static [u8]
    ensures { result.now ≡ refusal_text fault }
{
    match fault {
        FrameFault::BadHead =>
            b"HTTP/1.1 400 Bad Request\r\nConnection: close\r\nContent-Type: application/json\r\nContent-Length: 40\r\n\r\n{\"error\":\"bad_request\",\"kind\":\"BadHead\"}",
        FrameFault::TooManyFields =>
            b"HTTP/1.1 431 Request Header Fields Too Large\r\nConnection: close\r\nContent-Type: application/json\r\nContent-Length: 46\r\n\r\n{\"error\":\"bad_request\",\"kind\":\"TooManyFields\"}",
        FrameFault::HeadTooLong =>
            b"HTTP/1.1 431 Request Header Fields Too Large\r\nConnection: close\r\nContent-Type: application/json\r\nContent-Length: 44\r\n\r\n{\"error\":\"bad_request\",\"kind\":\"HeadTooLong\"}",
        FrameFault::BadHost =>
            b"HTTP/1.1 400 Bad Request\r\nConnection: close\r\nContent-Type: application/json\r\nContent-Length: 40\r\n\r\n{\"error\":\"bad_request\",\"kind\":\"BadHost\"}",
        FrameFault::TwoLengths =>
            b"HTTP/1.1 400 Bad Request\r\nConnection: close\r\nContent-Type: application/json\r\nContent-Length: 43\r\n\r\n{\"error\":\"bad_request\",\"kind\":\"TwoLengths\"}",
        FrameFault::BadLength =>
            b"HTTP/1.1 400 Bad Request\r\nConnection: close\r\nContent-Type: application/json\r\nContent-Length: 42\r\n\r\n{\"error\":\"bad_request\",\"kind\":\"BadLength\"}",
        FrameFault::BodyTooLong { .. } =>
            b"HTTP/1.1 413 Payload Too Large\r\nConnection: close\r\nContent-Type: application/json\r\nContent-Length: 44\r\n\r\n{\"error\":\"bad_request\",\"kind\":\"BodyTooLong\"}",
        FrameFault::BadChunk =>
            b"HTTP/1.1 400 Bad Request\r\nConnection: close\r\nContent-Type: application/json\r\nContent-Length: 41\r\n\r\n{\"error\":\"bad_request\",\"kind\":\"BadChunk\"}",
        FrameFault::OutOfMemory =>
            b"HTTP/1.1 503 Service Unavailable\r\nConnection: close\r\nContent-Type: application/json\r\nContent-Length: 44\r\n\r\n{\"error\":\"bad_request\",\"kind\":\"OutOfMemory\"}",
    }
}
