//! What stands round the statements of a document.

ghost use Rattle.std.specs.Prelude.{◌≡◌, ◌≤◌, ◌<◌, length, drop, IfOk, IfErr};
ghost use Rattle.nquads_text.specs.Fault.{Gives};
ghost use Rattle.nquads_text.specs.Grammar.{is_line_end as ends_line};
ghost use Rattle.nquads_documents.specs.Reading.{comment_at, line_end_at, no_end_at};

use nquads_text::{ReadFault, TextKind, char_at, comment_body_end, is_line_end, skip_blanks};

/// Whether the byte ends a line.
pub fn is_end(b: u8) -> bool
    ensures { result ≡ ends_line b }
{
    is_line_end(char::from(b))
}

/// The place where the line of a comment ends, from a place in the comment on.
#[tactic(auto, using(crate::proofs::Comments::comment_steps))]
pub fn comment_end(text: &[u8], from: usize) -> Result<((), usize), ReadFault>
    requires { from ≤ length text.now }
    ensures gives { Gives text.now (λ _. tt) result (comment_at 0 (drop from text.now)) }
    ensures further { IfOk result (λ x. from ≤ x.1) }
{
    let at = comment_body_end(text, from);
    if at == text.len() || is_end(text[at]) {
        return Ok(((), at));
    }
    Err(ReadFault::At {
        at,
        kind: TextKind::NotUtf8,
    })
}

/// The place where a line ends behind a statement's dot.
#[tactic(auto, using(crate::proofs::Steps::end_steps))]
pub fn line_end(text: &[u8], from: usize) -> Result<((), usize), ReadFault>
    requires { from ≤ length text.now }
    ensures gives { Gives text.now (λ _. tt) result (line_end_at (drop from text.now)) }
    ensures further { IfOk result (λ x. from ≤ x.1) }
{
    let at = skip_blanks(text, from);
    if at == text.len() || is_end(text[at]) {
        return Ok(((), at));
    }
    if text[at] == b'#' {
        return comment_end(text, at + 1);
    }
    no_end(text, at)
}

/// The fault of a place where a line has to end.
#[tactic(auto, unfolding(crate::specs::Reading::no_end_at))]
fn no_end(text: &[u8], at: usize) -> Result<((), usize), ReadFault>
    requires { at ≤ length text.now }
    ensures gives { Gives text.now (λ _. tt) result (no_end_at (drop at text.now)) }
    ensures never { IfOk result (λ x. at ≤ x.1) }
{
    let _ = char_at(text, at)?;
    Err(ReadFault::At {
        at,
        kind: TextKind::BadToken,
    })
}
