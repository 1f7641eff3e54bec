//! How the body of a message is framed.
ghost use Rattle.std.specs.Prelude.{◌≡◌, List, ℕ, ◌≤◌, All, length};
ghost use Rattle.std.specs.Prelude.{map, Ok, Option, Some, None, true};
ghost use Rattle.std.specs.List.{list_all};
ghost use Rattle.std.specs.Char.{is_ascii_digit};
ghost use Rattle.std.specs.Str.Parse.{digits_value};
ghost use Rattle.httparse.specs.Spans.{IsHeaderWithin, header_bytes};
ghost use Rattle.http_heads.specs.Framing.{expects, framing_by_length, framing_of};
ghost use Rattle.http_heads.specs.Framing.{has_body, is_continue, lacks_host, length_value};
ghost use Rattle.http_heads.specs.Fields.{first_of};
ghost use Rattle.http_heads.specs.declared.message.Kind.TheVariants as kinds;
ghost use Rattle.std.specs.Option.{option_copied};
ghost use Rattle.http_heads.specs.Faults.{frame_name, frame_status};
ghost use Rattle.http_heads.specs.declared.framing.FrameFault.TheVariants.{OutOfMemory};

use crate::fields::{count_named, first_named};
use crate::message::Kind;
use delta_base::OutOfMemory as NoMemory;
use httparse::spans::HeaderSpan;
use std::alloc::{AllocError, AllocFailed};

/// The most bytes of a body.
pub const MOST_BODY: u64 = 4_194_304;

/// Why a stream can't be read on.
#[derive(Clone, Copy, Debug, PartialEq, Eq)]
pub enum FrameFault {
    BadHead,
    TooManyFields,
    HeadTooLong,
    BadHost,
    TwoLengths,
    BadLength,
    BodyTooLong { length: u128, limit: u64 },
    BadChunk,
    OutOfMemory,
}

impl FrameFault {
    /// The status of the reply that refuses what isn't a request.
    pub fn status(self) -> u16
        ensures { result ≡ frame_status self }
    {
        match self {
            FrameFault::TooManyFields | FrameFault::HeadTooLong => 431,
            FrameFault::BodyTooLong { .. } => 413,
            FrameFault::OutOfMemory => 503,
            _ => 400,
        }
    }

    /// Its name, as a reply prints it.
    pub fn name(self) -> &'static str
        ensures { result.now ≡ frame_name self }
    {
        match self {
            FrameFault::BadHead => "BadHead",
            FrameFault::TooManyFields => "TooManyFields",
            FrameFault::HeadTooLong => "HeadTooLong",
            FrameFault::BadHost => "BadHost",
            FrameFault::TwoLengths => "TwoLengths",
            FrameFault::BadLength => "BadLength",
            FrameFault::BodyTooLong { .. } => "BodyTooLong",
            FrameFault::BadChunk => "BadChunk",
            FrameFault::OutOfMemory => "OutOfMemory",
        }
    }
}

impl From<AllocError> for FrameFault {
    ghost from_gives = { λ _ fault. fault ≡ OutOfMemory };

    fn from(_error: AllocError) -> FrameFault {
        FrameFault::OutOfMemory
    }
}

impl From<NoMemory> for FrameFault {
    ghost from_gives = { λ _ fault. fault ≡ OutOfMemory };

    fn from(_error: NoMemory) -> FrameFault {
        FrameFault::OutOfMemory
    }
}

impl<T: Drop> From<AllocFailed<T>> for FrameFault {
    ghost from_gives = { λ _ fault. fault ≡ OutOfMemory };

    fn from(_error: AllocFailed<T>) -> FrameFault {
        FrameFault::OutOfMemory
    }
}

/// How long a body is: so many bytes, or as its chunks say.
#[derive(Clone, Copy, Debug, PartialEq, Eq)]
pub enum Framing {
    Sized(u64),
    Chunked,
}

// The number that the value of Content-Length has, where it is 1 to 18 digits.
fn parse_length(value: &[u8]) -> Option<u64>
    ensures { result ≡ length_value value.now }
{
    if value.is_empty() || value.len() > 18 || !are_digits(value) {
        return None;
    }
    Some(digits_value(value))
}

/// Whether each byte is a digit.
pub fn are_digits(bytes: &[u8]) -> bool
    ensures { result ≡ list_all is_ascii_digit bytes.now }
{
    bytes.iter().all(|byte| byte.is_ascii_digit())
}

// The number that so few digits have.
pub fn digits_value(digits: &[u8]) -> u64
    requires few { length digits.now ≤ 18 }
    requires digits { list_all is_ascii_digit digits.now ≡ true }
    ensures { result ≡ digits_value 10 digits.now }
{
    let mut number = 0;
    for digit in digits {
        number = number * 10 + u64::from(*digit - b'0');
    }
    number
}

// The framing of a body by the values of Content-Length.
fn by_length(kind: Kind, count: usize, first: Option<&[u8]>) -> Result<Framing, FrameFault>
    ensures { (values : List (List ℕ)) → count ≡ length values
        → option_copied first.entry ≡ first_of values
        → result ≡ framing_by_length kind values }
{
    let Some(value) = first else {
        return match kind {
            Kind::Requests => Ok(Framing::Sized(0)),
            Kind::Replies => Err(FrameFault::BadLength),
        };
    };
    if count > 1 {
        return Err(FrameFault::BadLength);
    }
    match parse_length(value) {
        None => Err(FrameFault::BadLength),
        Some(length) => {
            if length > MOST_BODY {
                Err(FrameFault::BodyTooLong {
                    length: u128::from(length),
                    limit: MOST_BODY,
                })
            } else {
                Ok(Framing::Sized(length))
            }
        }
    }
}

// Whether a request of HTTP/1.1 has no Host, or more than one.
fn lacks_host(kind: Kind, text: &[u8], version: u8, headers: &[HeaderSpan]) -> bool
    requires { All (IsHeaderWithin (length text.now)) headers.now }
    ensures { result ≡ lacks_host kind version (map (header_bytes text.now) headers.now) }
{
    match kind {
        Kind::Requests => version == 1 && count_named(text, headers, b"host") != 1,
        Kind::Replies => false,
    }
}

/// The framing of the body behind a head of that version with these fields, or the
/// head's first fault.
pub fn read_framing(
    kind: Kind,
    text: &[u8],
    version: u8,
    headers: &[HeaderSpan],
) -> Result<Framing, FrameFault>
    requires { All (IsHeaderWithin (length text.now)) headers.now }
    ensures { result ≡ framing_of kind version (map (header_bytes text.now) headers.now) }
{
    if lacks_host(kind, text, version, headers) {
        return Err(FrameFault::BadHost);
    }
    let lengths = count_named(text, headers, b"content-length");
    let codings = count_named(text, headers, b"transfer-encoding");
    if codings == 0 {
        return by_length(kind, lengths, first_named(text, headers, b"content-length"));
    }
    if lengths > 0 {
        return Err(FrameFault::TwoLengths);
    }
    match first_named(text, headers, b"transfer-encoding") {
        Some(coding) if codings == 1 && version == 1 && coding.eq_ignore_ascii_case(b"chunked") => {
            Ok(Framing::Chunked)
        }
        _ => Err(FrameFault::BadLength),
    }
}

// Whether a body is to come.
fn has_body(framing: Framing) -> bool
    ensures { result ≡ has_body (Ok framing) }
{
    match framing {
        Framing::Chunked => true,
        Framing::Sized(size) => size != 0,
    }
}

// Whether the value of Expect is 100-continue.
fn is_continue(value: Option<&[u8]>) -> bool
    ensures { result ≡ is_continue (option_copied value.entry) }
{
    match value {
        Some(value) => value.eq_ignore_ascii_case(b"100-continue"),
        None => false,
    }
}

/// Whether a request of that version with these fields asks for 100 Continue before its body.
pub fn expects(text: &[u8], version: u8, headers: &[HeaderSpan], framing: Framing) -> bool
    requires headers { All (IsHeaderWithin (length text.now)) headers.now }
    requires framing { framing_of kinds.Requests version (map (header_bytes text.now) headers.now)
        ≡ Ok framing }
    ensures { result ≡ expects version (map (header_bytes text.now) headers.now) }
{
    version == 1 && is_continue(first_named(text, headers, b"expect")) && has_body(framing)
}
