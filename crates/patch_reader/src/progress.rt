//! How far the reading of an unfinished row is known, so that it isn't read again for each piece.

ghost use Rattle.std.specs.Prelude.{◌≡◌, ◌≤◌, ◌<◌, ◌++◌, ℕ, List, true};
ghost use Rattle.std.specs.Prelude.{false, length, drop, slice_index, IfOk, MatchResult, Ok, Err};
ghost use Rattle.nquads_text.specs.Faults.{begins_term};
ghost use Rattle.patch_rows.specs.Fault.{GivesEnd};
ghost use Rattle.patch_rows.specs.Reading.{stands};
ghost use Rattle.patch_reader.specs.Inside.{OpenInside, IsInsideWithin};
ghost use Rattle.patch_reader.specs.Progress.{part_at, part_behind as part_behind_of};
ghost use Rattle.patch_reader.specs.Progress.{takes_term as term_is_taken};
ghost use Rattle.patch_reader.specs.Progress.{takes_node as node_is_taken};
ghost use Rattle.patch_reader.specs.Progress.{takes_word as word_is_taken};
ghost use Rattle.patch_reader.specs.Progress.{first_part as first_part_of, OpenAt};
ghost use Rattle.patch_reader.specs.Progress.{LeadsInside, IsProgressWithin};
ghost use Rattle.patch_reader.specs.Progress.{IsPartStep, IsFollowed, progress_at};
ghost use Rattle.patch_reader.specs.declared.progress.RowPart.TheVariants as parts;
ghost use Rattle.patch_reader.specs.declared.progress.Place.TheVariants as place;

use crate::inside::{Inside, is_open, pass};
use crate::reading::is_long;
use delta_base::OutOfMemory;
use nquads_text::{TextKind, char_at};
use patch_rows::parts::{
    Code, any, dot, ends, find_code, iri, is_at, is_cut_at, is_letter_at, is_term_at, key, node,
    pass_gap, prefix, prefix_iri, word,
};
use patch_rows::{RowFault, RowKind, TextEnd};
use rdf_terms::begins_name;
use std::alloc::Global;

/// A part of a row behind its code.
#[derive(Clone, Copy)]
pub enum RowPart {
    /// The key of a header row.
    Key,
    /// Its value.
    Value,
    /// The dot of a row without parts.
    Bare,
    /// The prefix that a row sets.
    Added,
    /// Its IRI.
    Iri,
    /// The prefix that a row removes.
    Removed,
    Subject,
    Predicate,
    Object,
    /// The graph, or the dot where there is none.
    Graph,
    /// The dot.
    End,
}

/// A place in a row, from which on its reading isn't known.
#[derive(Clone, Copy)]
pub enum Place {
    /// At the row's first byte.
    Row,
    /// In white space and comments before a part.
    Gap {
        part: RowPart,
        mark: usize,
        comment: bool,
    },
    /// At a part's first byte.
    Token {
        part: RowPart,
        start: usize,
    },
}

#[derive(Clone, Copy)]
pub struct RowProgress {
    pub place: Place,
    pub inside: Inside,
}

/// One step through an unfinished row.
#[derive(Clone, Copy)]
pub enum Step {
    /// It goes on from there.
    Goes(Place),
    /// The text ends there, and nothing is decided.
    Open(Place),
    /// The text ends inside the string or the IRIREF, and nothing is decided.
    Enters(Inside),
    /// A row or a fault is decided.
    Decided,
    OutOfMemory,
}

/// At a place, with nothing known of what begins there.
fn at_place(place: Place) -> RowProgress
    ensures { result ≡ progress_at place }
{
    RowProgress {
        place,
        inside: Inside::Nothing,
    }
}

/// At the front of a row of which nothing is known.
pub fn at_row() -> RowProgress
    ensures { result ≡ progress_at place.Row }
{
    at_place(Place::Row)
}

fn first_part(code: Code) -> RowPart
    ensures { result ≡ first_part_of code }
{
    match code {
        Code::Header => RowPart::Key,
        Code::Begin | Code::Commit | Code::Abort => RowPart::Bare,
        Code::PrefixAdd => RowPart::Added,
        Code::PrefixDelete => RowPart::Removed,
        Code::Add | Code::Delete => RowPart::Subject,
    }
}

fn part_behind(part: RowPart) -> Option<RowPart>
    ensures { result ≡ part_behind_of part }
{
    match part {
        RowPart::Key => Some(RowPart::Value),
        RowPart::Value | RowPart::Graph => Some(RowPart::End),
        RowPart::Bare | RowPart::End => None,
        RowPart::Added => Some(RowPart::Iri),
        RowPart::Iri | RowPart::Removed | RowPart::Object => Some(RowPart::Graph),
        RowPart::Subject => Some(RowPart::Predicate),
        RowPart::Predicate => Some(RowPart::Object),
    }
}

fn takes_term(part: RowPart) -> bool
    ensures { result ≡ term_is_taken part }
{
    !matches!(part, RowPart::Key | RowPart::Bare | RowPart::End)
}

fn takes_node(part: RowPart) -> bool
    ensures { result ≡ node_is_taken part }
{
    matches!(
        part,
        RowPart::Value | RowPart::Subject | RowPart::Object | RowPart::Graph
    )
}

fn takes_word(part: RowPart) -> bool
    ensures { result ≡ word_is_taken part }
{
    matches!(part, RowPart::Key | RowPart::Added | RowPart::Removed)
}

/// Through white space and comments before a part.
fn step_gap(text: &[u8], part: RowPart, mark: usize, comment: bool) -> Step
    requires { mark ≤ length text.now }
    ensures { IsPartStep text.now (progress_at (place.Gap part mark comment)) result }
{
    let (at, comment) = pass_gap(text, mark, comment);
    if is_cut_at(text, at) {
        return Step::Open(Place::Gap {
            part,
            mark: at,
            comment,
        });
    }
    Step::Goes(Place::Token { part, start: at })
}

/// Over a row's code, read as a whole.
fn step_code(text: &[u8]) -> Step
    ensures { IsPartStep text.now (progress_at place.Row) result }
{
    match word(text, 0) {
        Ok((letters, behind)) => match find_code(letters) {
            Some(code) => Step::Goes(Place::Gap {
                part: first_part(code),
                mark: behind,
                comment: false,
            }),
            None => Step::Decided,
        },
        Err(RowFault::At { at, kind }) => {
            if ends(text, at as usize, kind) {
                return Step::Open(Place::Row);
            }
            Step::Decided
        }
        Err(RowFault::OutOfMemory) => Step::OutOfMemory,
    }
}

/// The place behind what was read, which is let go.
#[inline(always)]
fn place_behind<T: Drop>(read: Result<(T, usize), RowFault>) -> Result<usize, RowFault>
    ensures { MatchResult read (λ x. result ≡ Ok x.1) (λ fault. result ≡ Err fault) }
{
    match read {
        Ok((value, behind)) => {
            drop(value);
            Ok(behind)
        }
        Err(fault) => Err(fault),
    }
}

/// The place behind a part.
fn read_part(alloc: Global, text: &[u8], part: RowPart, start: usize) -> Result<usize, RowFault>
    requires { start ≤ length text.now }
    ensures { GivesEnd text.now result (part_at part (drop start text.now)) }
{
    match part {
        RowPart::Key => place_behind(key(alloc, text, start, TextEnd::Open)),
        RowPart::Value | RowPart::Object => place_behind(any(alloc, text, start, TextEnd::Open)),
        RowPart::Subject | RowPart::Graph => place_behind(node(alloc, text, start, TextEnd::Open)),
        RowPart::Predicate => place_behind(iri(alloc, text, start, TextEnd::Open)),
        RowPart::Added | RowPart::Removed => place_behind(prefix(
            alloc,
            text,
            start,
            TextEnd::Open,
        )),
        RowPart::Iri => place_behind(prefix_iri(alloc, text, start, TextEnd::Open)),
        RowPart::Bare => dot(text, start, RowKind::Common(TextKind::BadToken)),
        RowPart::End => dot(text, start, RowKind::Common(TextKind::MissingDot)),
    }
}

/// Over a part, read as a whole.
fn step_part(alloc: Global, text: &[u8], part: RowPart, start: usize) -> Step
    requires within { start < length text.now }
    requires graph { part ≡ parts.Graph → stands begins_term (drop start text.now) ≡ true }
    ensures { IsPartStep text.now (progress_at (place.Token part start)) result }
{
    match read_part(alloc, text, part, start) {
        Ok(behind) => match part_behind(part) {
            Some(next) => Step::Goes(Place::Gap {
                part: next,
                mark: behind,
                comment: false,
            }),
            None => Step::Decided,
        },
        Err(RowFault::At { at, kind }) => {
            if ends(text, at as usize, kind) {
                return Step::Open(Place::Token { part, start });
            }
            Step::Decided
        }
        Err(RowFault::OutOfMemory) => Step::OutOfMemory,
    }
}

/// In the letters of a row's code, where one stands.
fn code_begins(text: &[u8]) -> Inside
    ensures within { IsInsideWithin (length text.now) result }
    ensures leads { (more : List ℕ) → OpenInside result (text.now ++ more)
        → OpenAt place.Row (text.now ++ more) }
{
    if is_letter_at(text, 0) {
        return Inside::Letters(1);
    }
    Inside::Nothing
}

/// In a label, where its first character stands.
fn label_begins(text: &[u8], part: RowPart, start: usize) -> Inside
    requires begins { start < length text.now }
    requires line { slice_index text.now start ≡ 95 }
    requires node { node_is_taken part ≡ true }
    ensures within { IsInsideWithin (length text.now) result }
    ensures leads { (more : List ℕ) → OpenInside result (text.now ++ more)
        → OpenAt (place.Token part start) (text.now ++ more) }
{
    if !is_at(text, start + 1, b':') {
        return Inside::Nothing;
    }
    match char_at(text, start + 2) {
        Ok((c, next)) => {
            if begins_name(c) {
                return Inside::Label(next);
            }
            Inside::Nothing
        }
        Err(_) => Inside::Nothing,
    }
}

/// In the token with which a part begins, where its first bytes stand.
fn part_begins(text: &[u8], part: RowPart, start: usize) -> Inside
    requires { start < length text.now }
    ensures within { IsInsideWithin (length text.now) result }
    ensures leads { (more : List ℕ) → OpenInside result (text.now ++ more)
        → OpenAt (place.Token part start) (text.now ++ more) }
{
    if takes_term(part) && text[start] == b'"' {
        return Inside::String(start + 1);
    }
    if takes_term(part) && text[start] == b'<' {
        return Inside::Iri(start + 1);
    }
    if takes_node(part) && text[start] == b'_' {
        return label_begins(text, part, start);
    }
    if takes_word(part) && text[start].is_ascii_alphabetic() {
        return Inside::Word(start + 1);
    }
    Inside::Nothing
}

/// Whether a graph may stand there, and none does.
fn lacks_graph(text: &[u8], part: RowPart, start: usize) -> bool
    requires { start ≤ length text.now }
    ensures yes { result ≡ true
        → (part ≡ parts.Graph) × (stands begins_term (drop start text.now) ≡ false) }
    ensures none { result ≡ false → part ≡ parts.Graph
        → stands begins_term (drop start text.now) ≡ true }
{
    matches!(part, RowPart::Graph) && !is_term_at(text, start)
}

/// What is known of a row's code, at least where its first letter stands.
fn in_code(text: &[u8], inside: Inside) -> Inside
    requires { IsInsideWithin (length text.now) inside }
    ensures within { IsInsideWithin (length text.now) result }
    ensures leads { LeadsInside text.now
        (record { place = place.Row; inside = inside }) result }
{
    match inside {
        Inside::Nothing => code_begins(text),
        known => known,
    }
}

/// Over a row's code.
fn step_row(text: &[u8], inside: Inside) -> Step
    requires { IsInsideWithin (length text.now) inside }
    ensures { IsPartStep text.now (record { place = place.Row; inside = inside }) result }
{
    let inside = pass(text, in_code(text, inside));
    if is_open(text, inside) {
        return Step::Enters(inside);
    }
    step_code(text)
}

/// What is known of a part, at least where its first bytes stand.
fn in_part(text: &[u8], part: RowPart, start: usize, inside: Inside) -> Inside
    requires begins { start < length text.now }
    requires within { IsInsideWithin (length text.now) inside }
    ensures within { IsInsideWithin (length text.now) result }
    ensures leads { LeadsInside text.now
        (record { place = place.Token part start; inside = inside }) result }
{
    match inside {
        Inside::Nothing => part_begins(text, part, start),
        known => known,
    }
}

/// Over a part.
fn step_token(alloc: Global, text: &[u8], part: RowPart, start: usize, inside: Inside) -> Step
    requires begins { start < length text.now }
    requires within { IsInsideWithin (length text.now) inside }
    ensures { IsPartStep text.now
        (record { place = place.Token part start; inside = inside }) result }
{
    if lacks_graph(text, part, start) {
        return Step::Goes(Place::Token {
            part: RowPart::End,
            start,
        });
    }
    let inside = pass(text, in_part(text, part, start, inside));
    if is_open(text, inside) {
        return Step::Enters(inside);
    }
    step_part(alloc, text, part, start)
}

/// One step through an unfinished row.
fn advance(alloc: Global, text: &[u8], progress: RowProgress) -> Step
    requires { IsProgressWithin (length text.now) progress }
    ensures { IsPartStep text.now progress result }
{
    match progress.place {
        Place::Row => step_row(text, progress.inside),
        Place::Gap {
            part,
            mark,
            comment,
        } => step_gap(text, part, mark, comment),
        Place::Token { part, start } => step_token(alloc, text, part, start, progress.inside),
    }
}

/// Follows an unfinished row up to the text's end. None where a row or a fault is decided, as where
/// the row is too long.
pub fn follow(
    alloc: Global,
    text: &[u8],
    progress: RowProgress,
) -> Result<Option<RowProgress>, OutOfMemory>
    requires { IsProgressWithin (length text.now) progress }
    ensures { IfOk result (IsFollowed text.now progress) }
{
    if is_long(text, 0) {
        return Ok(None);
    }
    let mut progress = progress;
    'steps: loop {
        match advance(alloc, text, progress) {
            Step::Goes(place) => progress = at_place(place),
            Step::Open(place) => return Ok(Some(at_place(place))),
            Step::Enters(inside) => {
                return Ok(Some(RowProgress {
                    place: progress.place,
                    inside,
                }));
            }
            Step::Decided => return Ok(None),
            Step::OutOfMemory => return Err(OutOfMemory),
        }
    }
}
