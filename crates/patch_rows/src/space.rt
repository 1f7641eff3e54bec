//! White space and comments.

ghost use Rattle.std.specs.Prelude.{◌≡◌, ◌≤◌, ◌<◌, ◌++◌, ℕ, List, length, drop, true, false, Err};
ghost use Rattle.nquads_text.specs.Fault.{TextFault};
ghost use Rattle.nquads_text.specs.Grammar.{StartsWith};
ghost use Rattle.nquads_text.specs.Reading.{char_at as char_of};
ghost use Rattle.patch_rows.specs.Grammar.{Space, begins_space, is_space as is_blank};
ghost use Rattle.patch_rows.specs.Reading.{space_behind, skip_space as behind_space};

use nquads_text::{comment_body_end, is_line_end};

/// Whether the byte is white space.
pub fn is_space(b: u8) -> bool
    ensures { result ≡ is_blank b }
{
    matches!(b, b' ' | b'\t' | b'\n' | b'\r')
}

/// The place behind white space and comments, as far as they are known, and whether a comment
/// goes on there.
#[tactic(auto, using(crate::proofs::GapSteps::gap_steps))]
pub fn pass_gap(text: &[u8], from: usize, in_comment: bool) -> (usize, bool)
    requires { from ≤ length text.now }
    ensures low { from ≤ result.0 }
    ensures same { (more : List ℕ) → space_behind in_comment 0 (drop from (text.now ++ more))
        ≡ space_behind result.1 0 (drop result.0 (text.now ++ more)) }
    ensures high { result.0 ≤ length text.now }
    ensures stuck { result.1 ≡ true
        → (fault : TextFault) × (char_of (drop result.0 text.now) ≡ Err fault) }
    ensures stops { result.1 ≡ false → result.0 < length text.now
        → (more : List ℕ) → space_behind false 0 (drop result.0 (text.now ++ more))
        ≡ drop result.0 (text.now ++ more) }
{
    let mut at = from;
    let mut comment = in_comment;
    while at < text.len() {
        if comment {
            at = comment_body_end(text, at);
            if at == text.len() || !is_line_end(char::from(text[at])) {
                return (at, true);
            }
            comment = false;
            at += 1;
        } else if text[at] == b'#' {
            comment = true;
            at += 1;
        } else if is_space(text[at]) {
            at += 1;
        } else {
            return (at, false);
        }
    }
    (at, comment)
}

/// The place behind white space and comments, read from left to right.
pub fn pass_space(text: &[u8], from: usize) -> usize
    requires { from ≤ length text.now }
    ensures behind { drop result text.now ≡ behind_space (drop from text.now) }
    ensures low { from ≤ result }
    ensures high { result ≤ length text.now }
{
    let (at, _) = pass_gap(text, from, false);
    at
}

/// The place behind white space and comments.
pub fn skip_space(text: &[u8], at: usize) -> usize
    requires { at ≤ length text.now }
    ensures space { Space (drop at text.now) (drop result text.now) }
    ensures only { (after : List ℕ) → Space (drop at text.now) after
        → drop result text.now ≡ after }
    ensures none { StartsWith begins_space (drop result text.now) → ⊥ }
    ensures low { at ≤ result }
    ensures high { result ≤ length text.now }
{
    pass_space(text, at)
}
