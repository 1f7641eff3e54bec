//! Where the text's end, and not the text, is what ended a reading.

ghost use Rattle.std.specs.Prelude.{◌≡◌, ◌≤◌, [], length, drop};
ghost use Rattle.std.specs.List.{list_all};
ghost use Rattle.nquads_text.specs.Grammar.{is_blank};
ghost use Rattle.patch_rows.specs.Fault.{IsThere};
ghost use Rattle.patch_rows.specs.declared.fault.RowKind.TheVariants.{Common};
ghost use Rattle.patch_rows.specs.declared.fault.RowFault.TheVariants as faults;
ghost use Rattle.nquads_text.specs.declared.fault.TextKind.TheVariants.{Truncated};
ghost use Rattle.patch_rows.specs.Cut.{is_front as front, begins_name_char as names};
ghost use Rattle.patch_rows.specs.Cut.{label_open, is_cut, ends_quoted as ends_in_quote};
ghost use Rattle.patch_rows.specs.Cut.{kind_open, literal_open, blank_open, ends_row};

use crate::fault::{RowFault, RowKind};
use crate::terms::is_at;
use nquads_text::TextKind;
use rdf_terms::{LiteralKind, Term};

/// Whether the end of a text is known, or more may follow.
#[derive(Clone, Copy)]
pub enum TextEnd {
    Open,
    Known,
}

/// The fault of what the text's end cuts off.
pub fn cut_off(text: &[u8]) -> RowFault
    ensures { IsThere text.now result (Common Truncated, []) }
{
    RowFault::at(text.len(), RowKind::Common(TextKind::Truncated))
}

/// Whether these bytes are the front of a character.
pub fn is_front(rest: &[u8]) -> bool
    ensures { result ≡ front rest.now }
{
    match rest {
        [] => false,
        [first, ..] => {
            let (char, size) = bstr::decode_utf8(rest);
            *first > 0xC1 && *first < 0xF5 && char.is_none() && size == rest.len()
        }
    }
}

/// Whether these bytes are the front of a character that a label may have.
fn begins_name_char(rest: &[u8]) -> bool
    ensures { result ≡ names rest.now }
{
    if !is_front(rest) {
        return false;
    }
    let first = rest[0];
    if first == 0xEE || first == 0xF4 {
        return false;
    }
    if rest.len() == 1 {
        return true;
    }
    let second = rest[1];
    match first {
        0xE2 => second < 0x87 || second > 0xAF,
        0xEF => second > 0xA3,
        0xF3 => second < 0xB0,
        _ => true,
    }
}

/// Whether the front of a character that a label may have reaches the text's end from
/// this place on.
pub fn is_name_at(text: &[u8], at: usize) -> bool
    requires { at ≤ length text.now }
    ensures { result ≡ names (drop at text.now) }
{
    begins_name_char(&text[at..])
}

/// Whether a label that ends at this place may go on.
#[tactic(auto, using(crate::proofs::CutSteps::dot_steps))]
fn is_label_open(text: &[u8], end: usize) -> bool
    requires { end ≤ length text.now }
    ensures { result ≡ label_open (drop end text.now) }
{
    for at in end..text.len() {
        if text[at] != b'.' {
            return is_name_at(text, at);
        }
    }
    true
}

/// Whether nothing but blanks stands from this place on.
#[tactic(auto, using(crate::proofs::CutSteps::blank_steps))]
fn is_blank_from(text: &[u8], end: usize) -> bool
    requires { end ≤ length text.now }
    ensures { result ≡ list_all is_blank (drop end text.now) }
{
    for at in end..text.len() {
        if text[at] != b' ' && text[at] != b'\t' {
            return false;
        }
    }
    true
}

/// Whether a quote is the last byte between two places.
#[tactic(auto, using(crate::proofs::CutSteps::quote_steps))]
fn ends_quoted(text: &[u8], start: usize, end: usize) -> bool
    requires begins { start ≤ length text.now }
    requires within { end ≤ length text.now }
    ensures { result ≡ ends_in_quote (drop start text.now) (drop end text.now) }
{
    start < end && text[end - 1] == b'"'
}

/// Whether more text may change a literal of this kind, which ends at a place.
fn is_kind_open(kind: &LiteralKind, quoted: bool, text: &[u8], end: usize) -> bool
    requires { end ≤ length text.now }
    ensures { result ≡ kind_open kind.now quoted (drop end text.now) }
{
    match kind {
        LiteralKind::Plain => quoted && is_blank_from(text, end),
        LiteralKind::Typed(_) => false,
        LiteralKind::Tagged(_) => end == text.len(),
    }
}

/// Whether the term from `start` to `end` is a literal that more text may change.
pub fn is_open_literal(text: &[u8], start: usize, term: &Term, end: usize) -> bool
    requires begins { start ≤ length text.now }
    requires within { end ≤ length text.now }
    ensures { result ≡ literal_open (drop start text.now) term.now (drop end text.now) }
{
    match term {
        Term::Iri(_) => false,
        Term::Blank(_) => false,
        Term::Literal(literal) => {
            is_kind_open(&literal.kind, ends_quoted(text, start, end), text, end)
        }
    }
}

/// Whether the term from `start` to `end` is a label that more text may change.
pub fn is_open_blank(text: &[u8], start: usize, term: &Term, end: usize) -> bool
    requires begins { start ≤ length text.now }
    requires within { end ≤ length text.now }
    ensures { result ≡ blank_open (drop start text.now) term.now (drop end text.now) }
{
    match term {
        Term::Iri(_) => false,
        Term::Blank(_) => is_at(text, start, b'_') && is_label_open(text, end),
        Term::Literal(_) => false,
    }
}

/// Whether a fault comes of the text's end.
#[tactic(auto, unfolding(crate::specs::Cut::ends_row, crate::specs::Cut::ends_text))]
pub fn ends(text: &[u8], at: usize, kind: RowKind) -> bool
    requires { at ≤ length text.now }
    ensures { result ≡ ends_row kind (drop at text.now) }
{
    match kind {
        RowKind::Common(TextKind::Truncated) => true,
        RowKind::Common(TextKind::NotUtf8) => is_front(&text[at..]),
        _ => false,
    }
}

/// Whether the text ends there, or within a character.
pub fn is_cut_at(text: &[u8], at: usize) -> bool
    requires { at ≤ length text.now }
    ensures { result ≡ is_cut (drop at text.now) }
{
    at == text.len() || is_front(&text[at..])
}
