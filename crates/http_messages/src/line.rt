//! How a chunk line that comes in pieces is followed, so that it isn't read again with each piece.
ghost use Rattle.std.specs.Prelude.{◌≡◌, ◌++◌, List, ℕ, IsTrue, true};
ghost use Rattle.std.specs.Char.{is_ascii_hexdigit};
ghost use Rattle.std.specs.List.{list_all};
ghost use Rattle.httparse.specs.Grammar.{AllPass, is_extension_byte, is_ows};
ghost use Rattle.http_messages.specs.Line.{FollowsLine, is_followed};

use http_heads::is_blank;

/// Where a chunk line that hasn't ended ends so far.
#[derive(Clone, Copy, Debug, PartialEq, Eq)]
pub enum LineAt {
    /// Behind its size, or in the blanks there.
    Size,
    Extension,
    /// Elsewhere.
    Unknown,
}

// The digits at the front, and what follows them.
fn split_digits(text: &[u8]) -> (&[u8], &[u8])
    ensures whole { text.now ≡ result.0.now ++ result.1.now }
    ensures digits { AllPass is_ascii_hexdigit result.0.now }
{
    for (end, byte) in text.iter().enumerate() {
        if !byte.is_ascii_hexdigit() {
            return (&text[..end], &text[end..]);
        }
    }
    (text, b"")
}

// The blanks at the front, and what follows them.
fn split_blanks(text: &[u8]) -> (&[u8], &[u8])
    ensures whole { text.now ≡ result.0.now ++ result.1.now }
    ensures blanks { AllPass is_ows result.0.now }
{
    match text.iter().position(|byte| !is_blank(*byte)) {
        Some(end) => (&text[..end], &text[end..]),
        None => (text, b""),
    }
}

// Whether each byte is a blank.
fn are_blanks(bytes: &[u8]) -> bool
    ensures { result ≡ list_all is_ows bytes.now }
{
    bytes.iter().all(|byte| is_blank(*byte))
}

// Whether no byte ends an extension.
fn are_extension_bytes(bytes: &[u8]) -> bool
    ensures { result ≡ list_all is_extension_byte bytes.now }
{
    bytes.iter().all(|byte| !(*byte == b'\r' || *byte == b'\n'))
}

/// Where a chunk line ends of which this much has come.
pub fn find_line_at(text: &[u8]) -> LineAt
    ensures { FollowsLine text.now result }
{
    let (digits, rest) = split_digits(text);
    if digits.is_empty() || digits.len() > 16 {
        return LineAt::Unknown;
    }
    let (_, rest) = split_blanks(rest);
    match rest {
        [] => LineAt::Size,
        [b';', extension @ ..] if are_extension_bytes(extension) => LineAt::Extension,
        _ => LineAt::Unknown,
    }
}

/// Whether a chunk line goes on to the end of some bytes where it was.
pub fn stays_there(at: LineAt, bytes: &[u8]) -> bool
    ensures known { IsTrue result → is_followed at ≡ true }
    ensures follows { IsTrue result → (text : List ℕ) → FollowsLine text at
        → FollowsLine (text ++ bytes.now) at }
{
    match at {
        LineAt::Size => are_blanks(bytes),
        LineAt::Extension => are_extension_bytes(bytes),
        LineAt::Unknown => false,
    }
}
