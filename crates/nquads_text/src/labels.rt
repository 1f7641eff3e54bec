//! Labels of blank nodes.

ghost use Rattle.std.specs.Prelude.{◌≡◌, ◌≤◌, ◌<◌, ◌+◌, length, drop, IfOk, slice_range, IsUtf8};
ghost use Rattle.nquads_text.specs.Fault.{Gives};
ghost use Rattle.nquads_text.specs.Terms.{name_len, name_at as name_of, label_at as label_of};

use crate::chars::char_at;
use crate::fault::{ReadFault, TextKind};
use delta_base::{OutOfMemory, Text};
use rdf_terms::{Label, begins_name, is_name_char};
use std::alloc::Global;

/// The place behind the last name character of those and dots that stand from `start` on.
#[tactic(auto, using(crate::proofs::NameRuns::end_past_char, crate::proofs::NameRuns::end_past_dot, crate::proofs::NameRuns::end_here, crate::proofs::NameRuns::end_at_fault, crate::proofs::NameRuns::end_from_start, crate::proofs::Fronts::char_bytes, crate::proofs::Fronts::utf8_joined, crate::proofs::Fronts::utf8_nothing))]
fn name_end(text: &[u8], start: usize) -> usize
    requires { start ≤ length text.now }
    ensures end { result ≡ start + name_len 0 (drop start text.now) }
    ensures high { result ≤ length text.now }
    ensures utf8 { IsUtf8 (slice_range text.now start result) }
{
    let mut at = start;
    let mut end = start;
    while let Ok((c, next)) = char_at(text, at) {
        if c == '.' {
            at = next;
        } else if is_name_char(c) {
            at = next;
            end = next;
        } else {
            return end;
        }
    }
    end
}

/// The text between two places.
fn text_between(alloc: Global, text: &[u8], at: usize, end: usize) -> Result<Text, OutOfMemory>
    requires low { at ≤ end }
    requires high { end ≤ length text.now }
    requires utf8 { IsUtf8 (slice_range text.now at end) }
    ensures { IfOk result (λ t. t ≡ slice_range text.now at end) }
{
    let part = unsafe { str::from_utf8_unchecked(&text[at..end]) };
    Ok(Text::from_string(String::from_str(alloc, part)?))
}

/// The label behind `_:`, the longest. The `_` stands at `start`.
#[tactic(auto, unfolding(crate::specs::Terms::name_at))]
fn name(alloc: Global, text: &[u8], start: usize, at: usize) -> Result<(Label, usize), ReadFault>
    requires begins { start ≤ length text.now }
    requires within { at ≤ length text.now }
    ensures { Gives text.now (λ l. l) result (name_of (drop start text.now) (drop at text.now)) }
{
    let (first, next) = char_at(text, at)?;
    if !begins_name(first) {
        return Err(ReadFault::At {
            at: start,
            kind: TextKind::BadLabel,
        });
    }
    let end = name_end(text, next);
    let label = text_between(alloc, text, at, end)?;
    Ok((Label::of_checked(label), end))
}

/// BLANK_NODE_LABEL ::= '_:' (PN_CHARS_U | [0-9]) ((PN_CHARS | '.')* PN_CHARS)?
///
/// The label of a blank node whose `_` stands at `start`, and what follows that at `at`.
#[tactic(auto, unfolding(crate::specs::Terms::label_at))]
pub fn label(
    alloc: Global,
    text: &[u8],
    start: usize,
    at: usize,
) -> Result<(Label, usize), ReadFault>
    requires begins { start ≤ length text.now }
    requires within { at ≤ length text.now }
    ensures { Gives text.now (λ l. l) result (label_of (drop start text.now) (drop at text.now)) }
{
    let (colon, next) = char_at(text, at)?;
    if colon != ':' {
        return Err(ReadFault::At {
            at: start,
            kind: TextKind::BadLabel,
        });
    }
    name(alloc, text, start, next)
}
