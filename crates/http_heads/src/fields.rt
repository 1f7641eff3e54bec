//! The fields of a head by their names.
ghost use Rattle.std.specs.Prelude.{◌≡◌, ◌≢◌, ◌++◌, ◌∷◌, All, IfNone, IfSome, codes, length, map};
ghost use Rattle.std.specs.List.{list_any};
ghost use Rattle.httparse.specs.Grammar.{is_ows, skip_ows, trim_ows};
ghost use Rattle.std.specs.Option.{option_copied};
ghost use Rattle.std.specs.Str.{str_eq_ignore_ascii_case};
ghost use Rattle.httparse.specs.Spans.{IsHeaderWithin, header_bytes, span_bytes};
ghost use Rattle.http_heads.specs.Fields.{closes, first_of, holds_item, values_of};

use httparse::spans::HeaderSpan;

// Whether a field has that name.
fn has_name(text: &[u8], header: HeaderSpan, name: &[u8]) -> bool
    requires { IsHeaderWithin (length text.now) header }
    ensures { result ≡ str_eq_ignore_ascii_case (span_bytes text.now header.name) name.now }
{
    header.name.of(text).eq_ignore_ascii_case(name)
}

/// How many fields have that name.
pub fn count_named(text: &[u8], headers: &[HeaderSpan], name: &[u8]) -> usize
    requires { All (IsHeaderWithin (length text.now)) headers.now }
    ensures { result ≡ length (values_of name.now (map (header_bytes text.now) headers.now)) }
{
    let mut count = 0;
    for header in headers {
        if has_name(text, *header, name) {
            count += 1;
        }
    }
    count
}

/// The value of the first field of that name.
pub fn first_named<'a>(text: &'a [u8], headers: &[HeaderSpan], name: &[u8]) -> Option<&'a [u8]>
    requires { All (IsHeaderWithin (length text.now)) headers.now }
    ensures { option_copied result
        ≡ first_of (values_of name.now (map (header_bytes text.now) headers.now)) }
{
    for header in headers {
        if has_name(text, *header, name) {
            return Some(header.value.of(text));
        }
    }
    None
}

/// What stands before and behind the first byte of that kind.
pub fn split_at_byte(text: &[u8], at: u8) -> Option<(&[u8], &[u8])>
    ensures some { IfSome result (λ parts. text.now ≡ parts.0.now ++ at ∷ parts.1.now) }
    ensures first { IfSome result (λ parts. All (λ byte. byte ≢ at) parts.0.now) }
    ensures none { IfNone result (All (λ byte. byte ≢ at) text.now) }
{
    match text.iter().position(|byte| *byte == at) {
        Some(end) => Some((&text[..end], &text[end + 1..])),
        None => None,
    }
}

/// Whether the byte is white space of a field.
pub fn is_blank(byte: u8) -> bool
    ensures { result ≡ is_ows byte }
{
    byte == b' ' || byte == b'\t'
}

// The bytes from the first that is no blank.
fn skip_blanks(bytes: &[u8]) -> &[u8]
    ensures { result.now ≡ skip_ows bytes.now }
{
    for (start, byte) in bytes.iter().enumerate() {
        if !is_blank(*byte) {
            return &bytes[start..];
        }
    }
    b""
}

/// The bytes without the blanks at both ends.
pub fn trim_blanks(bytes: &[u8]) -> &[u8]
    ensures { result.now ≡ trim_ows bytes.now }
{
    let mut left = skip_blanks(bytes);
    while let [front @ .., last] = left {
        if !is_blank(*last) {
            return left;
        }
        left = front;
    }
    left
}

// Whether an item is that word, without case and blanks.
fn is_word(item: &[u8], word: &[u8]) -> bool
    ensures { result ≡ str_eq_ignore_ascii_case (trim_ows item.now) word.now }
{
    trim_blanks(item).eq_ignore_ascii_case(word)
}

// Whether a comma-separated list holds that word.
fn has_item(value: &[u8], word: &[u8]) -> bool
    ensures { result ≡ holds_item word.now value.now }
{
    let mut left = value;
    while let Some((item, rest)) = split_at_byte(left, b',') {
        if is_word(item, word) {
            return true;
        }
        left = rest;
    }
    is_word(left, word)
}

/// Whether the connection ends behind a message of that version with these fields.
pub fn closes(text: &[u8], version: u8, headers: &[HeaderSpan]) -> bool
    requires { All (IsHeaderWithin (length text.now)) headers.now }
    ensures { result ≡ closes version (map (header_bytes text.now) headers.now) }
{
    if version == 0 {
        return true;
    }
    for header in headers {
        if has_name(text, *header, b"connection") && has_item(header.value.of(text), b"close") {
            return true;
        }
    }
    false
}
