//! How far the token at the front of a row or of a part is known, so that it isn't read again
//! for each piece.

ghost use Rattle.std.specs.Prelude.{◌≡◌, ◌⊎◌, ◌≤◌, ◌<◌, ◌++◌, ℕ, List, true, length, drop};
ghost use Rattle.rdf_terms.specs.Names.{is_name_char as in_name};
ghost use Rattle.patch_reader.specs.Inside.{OpenInside, IsInsideWithin, IsFurther};
ghost use Rattle.patch_reader.specs.declared.inside.Inside.TheVariants as inside;

use nquads_text::{ReadFault, char_at, iri_piece, is_tag_byte, skip_blanks, string_piece};
use patch_rows::RowKind;
use patch_rows::parts::{ends, is_cut_at, is_name_at, letters_end, word_end};
use rdf_terms::is_name_char;

/// What is known of a token: it goes on up to a mark.
#[derive(Clone, Copy)]
pub enum Inside {
    Nothing,
    /// In the letters of a row's code.
    Letters(usize),
    /// In a key, or in a prefix that is written as a word.
    Word(usize),
    /// Behind the first character of a label.
    Label(usize),
    /// In a string.
    String(usize),
    /// Behind the closing quote of a string.
    Suffix(usize),
    /// Behind a string and blanks.
    Blanks(usize),
    /// In a language tag; no dash was before, and the present part has a byte.
    Tag {
        mark: usize,
        first: bool,
        some: bool,
    },
    /// Behind the `^^` of a datatype.
    Datatype(usize),
    /// In an IRIREF.
    Iri(usize),
}

/// How many kinds of places a token goes through at most: a string, behind it, blanks, behind `^^`,
/// and an IRIREF.
const STAGES: usize = 5;

/// Over the letters of a row's code.
fn letters_run(text: &[u8], from: usize) -> Inside
    requires { from ≤ length text.now }
    ensures within { IsInsideWithin (length text.now) result }
    ensures leads { IsFurther text.now (inside.Letters from) result }
{
    let end = letters_end(text, from);
    Inside::Letters(end)
}

/// Over the bytes of a word.
fn word_run(text: &[u8], from: usize) -> Inside
    requires { from ≤ length text.now }
    ensures within { IsInsideWithin (length text.now) result }
    ensures leads { IsFurther text.now (inside.Word from) result }
{
    let end = word_end(text, from);
    Inside::Word(end)
}

/// Whether a label may have the character behind its first one.
fn is_label_char(c: char) -> bool
    ensures { result ≡ true → (c ≡ 46) ⊎ (in_name c ≡ true) }
{
    c == '.' || is_name_char(c)
}

/// Over characters of a label.
fn label_run(text: &[u8], from: usize) -> Inside
    requires { from ≤ length text.now }
    ensures within { IsInsideWithin (length text.now) result }
    ensures leads { IsFurther text.now (inside.Label from) result }
{
    let mut at = from;
    'run: while let Ok((c, next)) = char_at(text, at) {
        if !is_label_char(c) {
            break;
        }
        at = next;
    }
    Inside::Label(at)
}

/// Over characters of a string, and its closing quote.
fn string_run(text: &[u8], from: usize) -> Inside
    requires { from ≤ length text.now }
    ensures within { IsInsideWithin (length text.now) result }
    ensures leads { IsFurther text.now (inside.String from) result }
{
    let mut at = from;
    'run: loop {
        match string_piece(text, at) {
            Ok((Some(_), next)) => at = next,
            Ok((None, next)) => return Inside::Suffix(next),
            Err(_) => return Inside::String(at),
        }
    }
}

/// To the tag behind a string, or to blanks.
fn suffix_run(text: &[u8], from: usize) -> Inside
    requires { from ≤ length text.now }
    ensures within { IsInsideWithin (length text.now) result }
    ensures leads { IsFurther text.now (inside.Suffix from) result }
{
    if from == text.len() {
        return Inside::Suffix(from);
    }
    if text[from] == b'@' {
        return Inside::Tag {
            mark: from + 1,
            first: true,
            some: false,
        };
    }
    Inside::Blanks(from)
}

/// Over blanks, and the `^^` of a datatype.
fn blanks_run(text: &[u8], from: usize) -> Inside
    requires { from ≤ length text.now }
    ensures within { IsInsideWithin (length text.now) result }
    ensures leads { IsFurther text.now (inside.Blanks from) result }
{
    let at = skip_blanks(text, from);
    if at + 1 < text.len() && text[at] == b'^' && text[at + 1] == b'^' {
        return Inside::Datatype(at + 2);
    }
    Inside::Blanks(at)
}

/// Over the bytes of a tag.
fn tag_run(text: &[u8], from: usize, first: bool, some: bool) -> Inside
    requires { from ≤ length text.now }
    ensures within { IsInsideWithin (length text.now) result }
    ensures leads { IsFurther text.now (inside.Tag from first some) result }
{
    let mut first = first;
    let mut some = some;
    let mut at = from;
    'run: while at < text.len() {
        if is_tag_byte(first, text[at]) {
            some = true;
        } else if some && text[at] == b'-' {
            first = false;
            some = false;
        } else {
            return Inside::Tag {
                mark: at,
                first,
                some,
            };
        }
        at += 1;
    }
    Inside::Tag {
        mark: at,
        first,
        some,
    }
}

/// Over blanks, and the `<` of a datatype.
fn datatype_run(text: &[u8], from: usize) -> Inside
    requires { from ≤ length text.now }
    ensures within { IsInsideWithin (length text.now) result }
    ensures leads { IsFurther text.now (inside.Datatype from) result }
{
    let at = skip_blanks(text, from);
    if at < text.len() && text[at] == b'<' {
        return Inside::Iri(at + 1);
    }
    Inside::Datatype(at)
}

/// Over characters of an IRIREF.
fn iri_run(text: &[u8], from: usize) -> Inside
    requires { from ≤ length text.now }
    ensures within { IsInsideWithin (length text.now) result }
    ensures leads { IsFurther text.now (inside.Iri from) result }
{
    let mut at = from;
    'run: while let Ok((Some(_), next)) = iri_piece(text, at) {
        at = next;
    }
    Inside::Iri(at)
}

/// One of these runs.
fn run(text: &[u8], inside: Inside) -> Inside
    requires { IsInsideWithin (length text.now) inside }
    ensures within { IsInsideWithin (length text.now) result }
    ensures leads { IsFurther text.now inside result }
{
    match inside {
        Inside::Nothing => Inside::Nothing,
        Inside::Letters(mark) => letters_run(text, mark),
        Inside::Word(mark) => word_run(text, mark),
        Inside::Label(mark) => label_run(text, mark),
        Inside::String(mark) => string_run(text, mark),
        Inside::Suffix(mark) => suffix_run(text, mark),
        Inside::Blanks(mark) => blanks_run(text, mark),
        Inside::Tag { mark, first, some } => tag_run(text, mark, first, some),
        Inside::Datatype(mark) => datatype_run(text, mark),
        Inside::Iri(mark) => iri_run(text, mark),
    }
}

/// Whether the one place leads to another kind of place.
fn is_next(from: Inside, to: Inside) -> bool {
    match from {
        Inside::String(_) => matches!(to, Inside::Suffix(_)),
        Inside::Suffix(_) => matches!(to, Inside::Blanks(_) | Inside::Tag { .. }),
        Inside::Blanks(_) => matches!(to, Inside::Datatype(_)),
        Inside::Datatype(_) => matches!(to, Inside::Iri(_)),
        _ => false,
    }
}

/// As far as the token goes on.
pub fn pass(text: &[u8], inside: Inside) -> Inside
    requires { IsInsideWithin (length text.now) inside }
    ensures within { IsInsideWithin (length text.now) result }
    ensures leads { IsFurther text.now inside result }
{
    let mut inside = inside;
    for _ in 0..STAGES {
        let next = run(text, inside);
        if !is_next(inside, next) {
            return next;
        }
        inside = next;
    }
    inside
}

/// Whether the text ends within a character of the string, or before it.
fn is_string_open(text: &[u8], at: usize) -> bool
    requires { at ≤ length text.now }
    ensures { result ≡ true → OpenInside (inside.String at) text.now }
{
    match string_piece(text, at) {
        Err(ReadFault::At { at: place, kind }) => ends(text, place, RowKind::Common(kind)),
        _ => false,
    }
}

/// The same of an IRIREF.
fn is_iri_open(text: &[u8], at: usize) -> bool
    requires { at ≤ length text.now }
    ensures { result ≡ true → OpenInside (inside.Iri at) text.now }
{
    match iri_piece(text, at) {
        Err(ReadFault::At { at: place, kind }) => ends(text, place, RowKind::Common(kind)),
        _ => false,
    }
}

/// Whether the text ends within a character of the label, or before it.
fn is_label_open(text: &[u8], at: usize) -> bool
    requires { at ≤ length text.now }
    ensures { result ≡ true → OpenInside (inside.Label at) text.now }
{
    at == text.len() || is_name_at(text, at)
}

/// Whether the text ends there, or behind the first `^` of a datatype.
fn are_blanks_open(text: &[u8], at: usize) -> bool
    requires { at ≤ length text.now }
    ensures { result ≡ true → OpenInside (inside.Blanks at) text.now }
{
    at == text.len() || (at + 1 == text.len() && text[at] == b'^')
}

/// Whether the text ends behind what is known of the token.
pub fn is_open(text: &[u8], inside: Inside) -> bool
    requires { IsInsideWithin (length text.now) inside }
    ensures { result ≡ true → OpenInside inside text.now }
{
    match inside {
        Inside::Nothing => false,
        Inside::Letters(mark) => mark == text.len(),
        Inside::Word(mark) => mark == text.len(),
        Inside::Label(mark) => is_label_open(text, mark),
        Inside::String(mark) => is_string_open(text, mark),
        Inside::Suffix(mark) => mark == text.len(),
        Inside::Blanks(mark) => are_blanks_open(text, mark),
        Inside::Tag { mark, .. } => mark == text.len(),
        Inside::Datatype(mark) => is_cut_at(text, mark),
        Inside::Iri(mark) => is_iri_open(text, mark),
    }
}
