//! Characters of more than one byte.

ghost use Rattle.std.specs.Prelude.{◌<◌, ◌≤◌, length, IfSome};
ghost use Rattle.canonical_scan.specs.Parts.{Between, AreLong};

use nquads_text::char_at;

/// The place behind the character at a place, where it has more than one byte.
#[inline]
pub fn long_char_end(text: &[u8], at: usize) -> Option<usize>
    requires { at ≤ length text.now }
    ensures further { IfSome result (λ next. at < next) }
    ensures long { IfSome result (Between AreLong text.now at) }
{
    if at == text.len() || text[at] < 128 {
        return None;
    }
    match char_at(text, at) {
        Ok((_, next)) => Some(next),
        Err(_) => None,
    }
}
