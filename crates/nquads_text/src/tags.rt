//! Language tags.

ghost use Rattle.std.specs.Prelude.{◌≡◌, ◌≤◌, length, drop, true, false};
ghost use Rattle.nquads_text.specs.Fault.{Gives};
ghost use Rattle.nquads_text.specs.Terms.{tag_at, is_tag_byte as in_tag};

use crate::chars::char_at;
use crate::fault::{ReadFault, TextKind};
use delta_base::Text;
use rdf_terms::Tag;
use std::alloc::Global;

/// Whether the byte is a letter, or behind the first dash a letter or a digit.
pub fn is_tag_byte(first: bool, b: u8) -> bool
    ensures { result ≡ in_tag first b }
{
    if first {
        b.is_ascii_alphabetic()
    } else {
        b.is_ascii_alphanumeric()
    }
}

/// LANGTAG ::= '@' [a-zA-Z]+ ('-' [a-zA-Z0-9]+)*
///
/// The language tag, in lower case, whose `@` stands at `start` and whose first letter at `from`.
#[tactic(auto, using(crate::proofs::TagSteps::tag_steps, crate::proofs::TagLaws::read_is_tag))]
pub fn tag(alloc: Global, text: &[u8], start: usize, from: usize) -> Result<(Tag, usize), ReadFault>
    requires begins { start ≤ length text.now }
    requires within { from ≤ length text.now }
    ensures { Gives text.now (λ t. t) result
        (tag_at true false (drop start text.now) (drop from text.now)) }
{
    let mut out = String::new(alloc);
    let mut first = true;
    let mut some = false;
    let mut at = from;
    while at < text.len() {
        let b = text[at];
        if is_tag_byte(first, b) {
            out.push(char::from(b.to_ascii_lowercase()))?;
            some = true;
        } else if !some {
            let _ = char_at(text, at)?;
            return Err(ReadFault::At {
                at: start,
                kind: TextKind::BadLang,
            });
        } else if b == b'-' {
            out.push('-')?;
            first = false;
            some = false;
        } else {
            return Ok((Tag::of_checked(Text::from_string(out)), at));
        }
        at += 1;
    }
    if !some {
        return Err(ReadFault::At {
            at,
            kind: TextKind::Truncated,
        });
    }
    Ok((Tag::of_checked(Text::from_string(out)), at))
}
