//! Comments.

ghost use Rattle.std.specs.Prelude.{◌≡◌, ◌≤◌, ◌<◌, false, length, drop, not, slice_index};
ghost use Rattle.std.specs.Prelude.{slice_range, IsTrue, IsUtf8};
ghost use Rattle.std.specs.List.{list_all};
ghost use Rattle.nquads_text.specs.Faults.{IsIllFormed};
ghost use Rattle.nquads_text.specs.Grammar.{is_line_end as ends_line};

use memchr::memchr2;

/// The end of a comment's body, from a place in it on: the line's end or the text's, or the first
/// bytes that are no character.
#[tactic(auto, using(crate::proofs::CommentBodies::body_steps))]
pub fn comment_body_end(text: &[u8], at: usize) -> usize
    requires { at ≤ length text.now }
    ensures low { at ≤ result }
    ensures high { result ≤ length text.now }
    ensures utf8 { IsUtf8 (slice_range text.now at result) }
    ensures inside { IsTrue (list_all (λ b. not (ends_line b)) (slice_range text.now at result)) }
    ensures stops { result < length text.now → ends_line (slice_index text.now result) ≡ false
        → IsIllFormed (drop result text.now) }
{
    let rest = &text[at..];
    let end = memchr2(b'\n', b'\r', rest).unwrap_or(rest.len());
    match str::from_utf8(&rest[..end]) {
        Ok(_) => at + end,
        Err(fault) => at + fault.valid_up_to(),
    }
}
