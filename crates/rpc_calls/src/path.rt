//! Segments of paths: cut at slashes, and each decoded.
ghost use Rattle.std.specs.Prelude.{◌≡◌, ◌<◌, ◌++◌, ◌∷◌, All, IfOk, OnOk, string_bytes};
ghost use Rattle.rpc_calls.specs.Paths.{IsCutAs, segment_of, text_of_segment};

use delta_base::{OutOfMemory, Text};
use http_heads::split_at_byte;
use percent_encoding::{
    AsciiSet, DecodeError, NON_ALPHANUMERIC, ascii_set, percent_decode, percent_encode,
};
use std::alloc::{AllocError, Global};

/// The bytes of a segment that are escaped: all but letters, digits, `_`, `-` and `.`.
pub const ESCAPED: AsciiSet = ascii_set!(NON_ALPHANUMERIC.remove(b'_').remove(b'-').remove(b'.'));

/// The one or two segments of a path, still as they are written.
pub fn cut_path(path: &[u8]) -> Option<(&[u8], Option<&[u8]>)>
    ensures { IsCutAs path.now result }
{
    let (before, path) = split_at_byte(path, b'/')?;
    if !before.is_empty() {
        return None;
    }
    let Some((first, rest)) = split_at_byte(path, b'/') else {
        return Some((path, None));
    };
    match split_at_byte(rest, b'/') {
        Some(_) => None,
        None => Some((first, Some(rest))),
    }
}

/// The text that a segment stands for, where it is one.
pub fn read_segment(alloc: Global, segment: &[u8]) -> Result<Option<Text>, OutOfMemory>
    ensures { IfOk result (λ text. text ≡ text_of_segment segment.now) }
{
    match percent_decode(segment).decode_utf8(alloc) {
        Ok(text) => Ok(Some(Text::from_string(text.into_owned(alloc)?))),
        Err(DecodeError::Utf8(_)) => Ok(None),
        Err(DecodeError::OutOfMemory) => Err(OutOfMemory),
    }
}

/// Adds a segment to a path.
pub fn push_segment(path: &mut String, text: &[u8]) -> Result<(), AllocError>
    ensures text { OnOk result (string_bytes path.new
        ≡ string_bytes path.old ++ 47 ∷ segment_of text.now) }
    ensures bytes { All (λ byte. byte < 256) text.now }
{
    path.push_str("/")?;
    percent_encode(text, ESCAPED).append_to(path)
}
