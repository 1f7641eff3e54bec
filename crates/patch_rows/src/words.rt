//! Words, keys, prefixes and their IRIs.

ghost use Rattle.std.specs.Prelude.{◌≡◌, ◌≤◌, ◌<◌, ◌+◌, List, ℕ, [], length};
ghost use Rattle.std.specs.Prelude.{drop, take, IfOk, IsUtf8, slice_range};
ghost use Rattle.std.specs.Char.{is_ascii_alphabetic};
ghost use Rattle.std.specs.List.{prefix_len};
ghost use Rattle.patch_rows.specs.Fault.{RowGives, GivesSlice};
ghost use Rattle.patch_rows.specs.Grammar.{is_word_byte as in_word};
ghost use Rattle.patch_rows.specs.Reading.{word_at, key_at, uncut, iri_of_string as iri_for};
ghost use Rattle.patch_rows.specs.Reading.{past_colon as behind_colon};
ghost use Rattle.patch_rows.specs.Rows.{open_key as open_key_of, key_of, quoted_of};
ghost use Rattle.patch_rows.specs.Rows.{open_word_prefix as open_word_prefix_of};
ghost use Rattle.patch_rows.specs.Rows.{word_prefix_of, prefix_of, prefix_iri_of};

use crate::cut::{TextEnd, cut_off};
use crate::fault::{RowFault, RowKind};
use crate::terms::{is_at, is_letter_at, is_term_at, other, term};
use delta_base::{OutOfMemory, Text};
use nquads_text::TextKind;
use rdf_terms::{Iri, Literal, LiteralKind, Term, TermFault};
use std::alloc::Global;

fn is_word_byte(b: u8) -> bool
    ensures { result ≡ in_word b }
{
    b.is_ascii_alphanumeric() || b == b'_' || b == b'-'
}

/// The place behind letters.
#[tactic(auto, using(crate::proofs::WordSteps::run_steps))]
pub fn letters_end(text: &[u8], from: usize) -> usize
    requires { from ≤ length text.now }
    ensures end { result ≡ from + prefix_len is_ascii_alphabetic (drop from text.now) }
    ensures high { result ≤ length text.now }
{
    for at in from..text.len() {
        if !text[at].is_ascii_alphabetic() {
            return at;
        }
    }
    text.len()
}

/// The place behind letters, digits, `_` and `-`.
#[tactic(auto, using(crate::proofs::WordSteps::run_steps))]
pub fn word_end(text: &[u8], from: usize) -> usize
    requires { from ≤ length text.now }
    ensures end { result ≡ from + prefix_len in_word (drop from text.now) }
    ensures high { result ≤ length text.now }
{
    for at in from..text.len() {
        if !is_word_byte(text[at]) {
            return at;
        }
    }
    text.len()
}

/// The word of letters at a place, which the text's end doesn't cut.
#[tactic(auto, unfolding(crate::specs::Reading::word_at), using(crate::proofs::Steps::met, crate::proofs::WordSteps::whole_word, crate::proofs::WordSteps::cut_word))]
pub fn word(text: &[u8], at: usize) -> Result<(&[u8], usize), RowFault>
    requires { at ≤ length text.now }
    ensures { GivesSlice text.now result (word_at (drop at text.now)) }
{
    if !is_letter_at(text, at) {
        return Err(other(text, at, RowKind::Common(TextKind::BadToken)));
    }
    let end = letters_end(text, at);
    if end == text.len() {
        return Err(RowFault::at(end, RowKind::Common(TextKind::Truncated)));
    }
    Ok((&text[at..end], end))
}

/// The text of the word at a place.
fn word_text(alloc: Global, text: &[u8], at: usize) -> Result<(Text, usize), OutOfMemory>
    requires { at ≤ length text.now }
    ensures word { IfOk result (λ w.
        w.0 ≡ take (prefix_len in_word (drop at text.now)) (drop at text.now)) }
    ensures end { IfOk result (λ w.
        drop w.1 text.now ≡ drop (prefix_len in_word (drop at text.now)) (drop at text.now)) }
    ensures high { IfOk result (λ w. w.1 ≤ length text.now) }
{
    let end = word_end(text, at);
    let word = unsafe { str::from_utf8_unchecked(&text[at..end]) };
    Ok((Text::from_str(alloc, word)?, end))
}

/// A key, as far as the text has it.
#[tactic(auto, unfolding(crate::specs::Reading::key_at), using(crate::proofs::Steps::met))]
fn key_there(alloc: Global, text: &[u8], at: usize) -> Result<(Text, usize), RowFault>
    requires { at ≤ length text.now }
    ensures { RowGives text.now result (key_at (drop at text.now)) }
{
    if is_at(text, at, b'.') {
        return Err(RowFault::at(at, RowKind::WrongCount));
    }
    if !is_letter_at(text, at) {
        return Err(other(text, at, RowKind::Common(TextKind::BadToken)));
    }
    let key = word_text(alloc, text, at)?;
    Ok(key)
}

/// The word, unless the text's end may cut it.
fn unless_cut(text: &[u8], word: Text, end: usize) -> Result<(Text, usize), RowFault>
    requires { end ≤ length text.now }
    ensures { RowGives text.now result (uncut (word, drop end text.now)) }
{
    if end == text.len() {
        return Err(cut_off(text));
    }
    Ok((word, end))
}

/// A key of a text that may go on.
#[tactic(auto, unfolding(crate::specs::Rows::open_key))]
fn open_key(alloc: Global, text: &[u8], at: usize) -> Result<(Text, usize), RowFault>
    requires { at ≤ length text.now }
    ensures { RowGives text.now result (open_key_of (drop at text.now)) }
{
    let (key, end) = key_there(alloc, text, at)?;
    unless_cut(text, key, end)
}

/// The key of a header row.
pub fn key(
    alloc: Global,
    text: &[u8],
    at: usize,
    text_end: TextEnd,
) -> Result<(Text, usize), RowFault>
    requires { at ≤ length text.now }
    ensures { RowGives text.now result (key_of text_end (drop at text.now)) }
{
    match text_end {
        TextEnd::Known => key_there(alloc, text, at),
        TextEnd::Open => open_key(alloc, text, at),
    }
}

/// The place behind a colon, if one stands there.
fn past_colon(text: &[u8], at: usize) -> usize
    requires { at ≤ length text.now }
    ensures behind { drop result text.now ≡ behind_colon (drop at text.now) }
    ensures high { result ≤ length text.now }
{
    if at < text.len() && text[at] == b':' {
        return at + 1;
    }
    at
}

/// A prefix that is written as a plain string.
#[tactic(auto, unfolding(crate::specs::Rows::quoted_of))]
fn quoted_prefix(
    alloc: Global,
    text: &[u8],
    at: usize,
    text_end: TextEnd,
) -> Result<(Text, usize), RowFault>
    requires { at ≤ length text.now }
    ensures { RowGives text.now result (quoted_of text_end (drop at text.now)) }
{
    let (found, end) = term(alloc, text, at, text_end)?;
    match found {
        Term::Literal(
            Literal {
                lexical,
                kind: LiteralKind::Plain,
            },
        ) => Ok((lexical, end)),
        term => {
            drop(term);
            Err(RowFault::at(at, RowKind::Common(TextKind::BadPosition)))
        }
    }
}

/// A prefix that is written as a word, in a text that may go on, and the colon behind it.
#[tactic(auto, unfolding(crate::specs::Rows::open_word_prefix))]
fn open_word_prefix(alloc: Global, text: &[u8], at: usize) -> Result<(Text, usize), RowFault>
    requires { at ≤ length text.now }
    ensures { RowGives text.now result (open_word_prefix_of (drop at text.now)) }
{
    let (word, end) = word_text(alloc, text, at)?;
    let (word, end) = unless_cut(text, word, end)?;
    Ok((word, past_colon(text, end)))
}

/// A prefix that is written as a word, and the colon behind it.
fn word_prefix(
    alloc: Global,
    text: &[u8],
    at: usize,
    text_end: TextEnd,
) -> Result<(Text, usize), RowFault>
    requires { at ≤ length text.now }
    ensures { RowGives text.now result (word_prefix_of text_end (drop at text.now)) }
{
    match text_end {
        TextEnd::Known => {
            let (word, end) = word_text(alloc, text, at)?;
            Ok((word, past_colon(text, end)))
        }
        TextEnd::Open => open_word_prefix(alloc, text, at),
    }
}

/// The prefix of a PA or PD row.
#[tactic(auto, unfolding(crate::specs::Rows::prefix_of), using(crate::proofs::Steps::met))]
pub fn prefix(
    alloc: Global,
    text: &[u8],
    at: usize,
    text_end: TextEnd,
) -> Result<(Text, usize), RowFault>
    requires { at ≤ length text.now }
    ensures { RowGives text.now result (prefix_of text_end (drop at text.now)) }
{
    if is_at(text, at, b':') {
        return Ok((Text::from_string(String::new(alloc)), at + 1));
    }
    if is_letter_at(text, at) {
        return word_prefix(alloc, text, at, text_end);
    }
    if is_at(text, at, b'.') || is_term_at(text, at) {
        return quoted_prefix(alloc, text, at, text_end);
    }
    Err(other(text, at, RowKind::Common(TextKind::BadToken)))
}

/// The IRI that a string spells, whose quote stands at `start`.
#[tactic(auto, unfolding(crate::specs::Reading::iri_of_string))]
fn iri_of_string(
    text: &[u8],
    start: usize,
    string: Text,
    end: usize,
) -> Result<(Iri, usize), RowFault>
    requires begins { start ≤ length text.now }
    requires within { end ≤ length text.now }
    ensures { RowGives text.now result (iri_for (drop start text.now) string (drop end text.now)) }
{
    match Iri::new(string) {
        Ok(iri) => Ok((iri, end)),
        Err(TermFault::BadIri { .. }) => Err(RowFault::at(
            start,
            RowKind::Common(TextKind::BadIri),
        )),
        Err(TermFault::RelativeIri) => Err(RowFault::at(
            start,
            RowKind::Common(TextKind::RelativeIri),
        )),
        Err(_) => Err(RowFault::OutOfMemory),
    }
}

/// The IRI of a PA row: an IRIREF, or a plain string.
#[tactic(auto, unfolding(crate::specs::Rows::prefix_iri_of))]
pub fn prefix_iri(
    alloc: Global,
    text: &[u8],
    at: usize,
    text_end: TextEnd,
) -> Result<(Iri, usize), RowFault>
    requires { at ≤ length text.now }
    ensures { RowGives text.now result (prefix_iri_of text_end (drop at text.now)) }
{
    let (found, end) = term(alloc, text, at, text_end)?;
    match found {
        Term::Iri(iri) => Ok((iri, end)),
        Term::Literal(
            Literal {
                lexical,
                kind: LiteralKind::Plain,
            },
        ) => iri_of_string(text, at, lexical, end),
        term => {
            drop(term);
            Err(RowFault::at(at, RowKind::Common(TextKind::BadPosition)))
        }
    }
}
