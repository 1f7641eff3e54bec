//! Language tags, in lower case.

ghost use Rattle.std.specs.Prelude.{◌<◌, ◌≤◌, ◌≡◌, length, IfSome, IsTrue};
ghost use Rattle.std.specs.Prelude.{slice_range, true, false};
ghost use Rattle.std.specs.List.{list_all};
ghost use Rattle.rdf_terms.specs.Tag.{IsTag, IsWord};
ghost use Rattle.canonical_scan.specs.Parts.{Between, is_lower_tag_byte as in_tag};

use nquads_text::is_tag_byte;

/// Whether the byte is a letter in lower case, or behind the first dash such a letter or a digit.
fn is_lower_tag_byte(first: bool, b: u8) -> bool
    ensures { result ≡ in_tag first b }
{
    is_tag_byte(first, b) && !b.is_ascii_uppercase()
}

/// The end of such bytes from a place on.
fn word_bytes_end(first: bool, text: &[u8], at: usize) -> usize
    requires { at ≤ length text.now }
    ensures low { at ≤ result }
    ensures high { result ≤ length text.now }
    ensures all { IsTrue (list_all (in_tag first) (slice_range text.now at result)) }
{
    for i in at..text.len() {
        if !is_lower_tag_byte(first, text[i]) {
            return i;
        }
    }
    text.len()
}

/// The place behind at least one of them.
fn word_end(first: bool, text: &[u8], at: usize) -> Option<usize>
    requires { at ≤ length text.now }
    ensures further { IfSome result (λ end. at < end) }
    ensures word { IfSome result (Between (IsWord (in_tag first)) text.now at) }
{
    let end = word_bytes_end(first, text, at);
    if at == end { None } else { Some(end) }
}

/// The place behind the tag at a place.
pub fn tag_end(text: &[u8], at: usize) -> Option<usize>
    requires { at ≤ length text.now }
    ensures { IfSome result (Between IsTag text.now at) }
{
    let mut end = word_end(true, text, at)?;
    while end < text.len() && text[end] == b'-' {
        end = word_end(false, text, end + 1)?;
    }
    Some(end)
}
