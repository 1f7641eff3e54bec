//! Strings.

ghost use Rattle.std.specs.Prelude.{◌≡◌, ◌<◌, ◌≤◌, [], ◌∷◌, length, IfSome};
ghost use Rattle.rdf_terms.specs.Line.{escaped};
ghost use Rattle.canonical_scan.specs.Parts.{Between, InString, HasString};

use crate::chars::long_char_end;
use nquads_text::plain_string_end;

/// The byte for which this letter stands behind a backslash.
fn escaped_byte(letter: u8) -> Option<u8>
    ensures low { IfSome result (λ b. b < 128) }
    ensures is { IfSome result (λ b. escaped b ≡ 92 ∷ letter ∷ []) }
{
    match letter {
        b'"' => Some(b'"'),
        b'\\' => Some(b'\\'),
        b'n' => Some(b'\n'),
        b'r' => Some(b'\r'),
        _ => None,
    }
}

/// The place behind one of the escapes `\"`, `\\`, `\n` and `\r`.
fn escape_end(text: &[u8], at: usize) -> Option<usize>
    requires { at ≤ length text.now }
    ensures further { IfSome result (λ next. at < next) }
    ensures escape { IfSome result (Between InString text.now at) }
{
    if text.len() - at < 2 || text[at] != b'\\' {
        return None;
    }
    let _byte = escaped_byte(text[at + 1])?;
    Some(at + 2)
}

/// The place behind an escape or a character of more than one byte.
#[inline]
fn piece_end(text: &[u8], at: usize) -> Option<usize>
    requires { at ≤ length text.now }
    ensures further { IfSome result (λ next. at < next) }
    ensures piece { IfSome result (Between InString text.now at) }
{
    match long_char_end(text, at) {
        Some(next) => Some(next),
        None => escape_end(text, at),
    }
}

/// The end of the characters from a place on that a string may hold.
fn string_chars_end(text: &[u8], from: usize) -> usize
    requires { from ≤ length text.now }
    ensures { Between InString text.now from result }
{
    let mut at = from;
    loop {
        let run = plain_string_end(text, at);
        match piece_end(text, run) {
            None => return run,
            Some(next) => at = next,
        }
    }
}

/// The place behind the string that stands in quotes at a place.
pub fn string_end(text: &[u8], at: usize) -> Option<usize>
    requires { at ≤ length text.now }
    ensures { IfSome result (HasString text.now at) }
{
    if at == text.len() || text[at] != b'"' {
        return None;
    }
    let end = string_chars_end(text, at + 1);
    if end < text.len() && text[end] == b'"' {
        return Some(end + 1);
    }
    None
}
