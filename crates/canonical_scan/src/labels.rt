//! Labels of blank nodes, in ASCII.

ghost use Rattle.std.specs.Prelude.{◌≤◌, ◌≡◌, length, IfSome, IsTrue, slice_range};
ghost use Rattle.std.specs.List.{list_all};
ghost use Rattle.rdf_terms.specs.Label.{IsLabel};
ghost use Rattle.canonical_scan.specs.Parts.{Between, is_label_byte as in_label};

/// Whether a label may have the byte behind its first.
#[inline(always)]
fn is_label_byte(b: u8) -> bool
    ensures { result ≡ in_label b }
{
    b.is_ascii_alphanumeric() || b == b'_' || b == b':' || b == b'-' || b == b'.'
}

/// The end of the bytes from a place on that a label may have.
#[inline]
fn label_bytes_end(text: &[u8], at: usize) -> usize
    requires { at ≤ length text.now }
    ensures low { at ≤ result }
    ensures high { result ≤ length text.now }
    ensures all { IsTrue (list_all in_label (slice_range text.now at result)) }
{
    for i in at..text.len() {
        if !is_label_byte(text[i]) {
            return i;
        }
    }
    text.len()
}

/// The place behind the label at a place.
pub fn label_end(text: &[u8], at: usize) -> Option<usize>
    requires { at ≤ length text.now }
    ensures { IfSome result (Between IsLabel text.now at) }
{
    let end = label_bytes_end(text, at);
    if at == end || text[at] == b'-' || text[at] == b'.' || text[end - 1] == b'.' {
        return None;
    }
    Some(end)
}
