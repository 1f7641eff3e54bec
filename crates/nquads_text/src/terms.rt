//! Terms: IRIs, literals and blank nodes.

ghost use Rattle.std.specs.Prelude.{◌≡◌, ◌<◌, ◌≤◌, ℕ, List, length, drop, IfOk, IfErr};
ghost use Rattle.nquads_text.specs.Fault.{TextFault, Gives, FailsBy, IsAnswer, IsFaultAnswer};
ghost use Rattle.nquads_text.specs.Faults.{AnyTermFault};
ghost use Rattle.nquads_text.specs.Grammar.{TermAt};
ghost use Rattle.nquads_text.specs.Terms.{iri_at, iri_needed as iri_needed_at};
ghost use Rattle.nquads_text.specs.Terms.{skip_blanks as behind_blanks, kind_given};
ghost use Rattle.nquads_text.specs.Terms.{datatype_at, suffix_at, typed_at, literal_at, term_at};
ghost use Rattle.rdf_terms.specs.declared.term.Term.{Term};

use crate::bodies::{iri_body, string_body};
use crate::chars::char_at;
use crate::fault::{ReadFault, TextKind};
use crate::labels::label;
use crate::tags::tag;
use delta_base::Text;
use rdf_terms::{Iri, Literal, LiteralKind, Term, has_scheme};
use std::alloc::Global;

/// IRIREF ::= '<' ([^#x00-#x20<>"{}|^`\] | UCHAR)* '>'
///
/// The IRI of an IRIREF whose `<` stands at `start`, and what follows that at `at`.
#[tactic(auto, unfolding(crate::specs::Terms::iri_at), using(crate::proofs::Allowed::body_is_iri))]
fn iri(alloc: Global, text: &[u8], start: usize, at: usize) -> Result<(Iri, usize), ReadFault>
    requires begins { start ≤ length text.now }
    requires within { at ≤ length text.now }
    ensures { Gives text.now (λ i. i) result (iri_at (drop start text.now) (drop at text.now)) }
{
    let (body, end) = iri_body(alloc, text, at)?;
    if !has_scheme(body.as_bytes()) {
        return Err(ReadFault::At {
            at: start,
            kind: TextKind::RelativeIri,
        });
    }
    Ok((Iri::of_checked(Text::from_string(body)), end))
}

/// The IRI of an IRIREF, where nothing else may stand.
#[tactic(auto, unfolding(crate::specs::Terms::iri_needed))]
fn iri_needed(alloc: Global, text: &[u8], at: usize) -> Result<(Iri, usize), ReadFault>
    requires { at ≤ length text.now }
    ensures { Gives text.now (λ i. i) result (iri_needed_at (drop at text.now)) }
{
    let (c, next) = char_at(text, at)?;
    if c != '<' {
        return Err(ReadFault::At {
            at,
            kind: TextKind::BadToken,
        });
    }
    iri(alloc, text, at, next)
}

/// The place behind tabs and spaces.
#[tactic(auto, using(crate::proofs::Blanks::blank_steps))]
pub fn skip_blanks(text: &[u8], from: usize) -> usize
    requires { from ≤ length text.now }
    ensures behind { drop result text.now ≡ behind_blanks (drop from text.now) }
    ensures low { from ≤ result }
    ensures high { result ≤ length text.now }
{
    for at in from..text.len() {
        let b = text[at];
        if b != b' ' && b != b'\t' {
            return at;
        }
    }
    text.len()
}

/// The kind of a literal with this datatype. Its opening quote stands at `start`.
fn kind_of(
    text: &[u8],
    start: usize,
    iri: Iri,
    end: usize,
) -> Result<(LiteralKind, usize), ReadFault>
    requires begins { start ≤ length text.now }
    requires within { end ≤ length text.now }
    ensures { Gives text.now (λ k. k) result
        (kind_given (drop start text.now) iri (drop end text.now)) }
{
    match LiteralKind::of_datatype(iri) {
        Ok(kind) => Ok((kind, end)),
        Err(_) => Err(ReadFault::At {
            at: start,
            kind: TextKind::LangStringWithoutTag,
        }),
    }
}

/// The datatype behind the first `^`, as a kind.
#[tactic(auto, unfolding(crate::specs::Terms::datatype_at))]
fn datatype(
    alloc: Global,
    text: &[u8],
    start: usize,
    at: usize,
) -> Result<(LiteralKind, usize), ReadFault>
    requires begins { start ≤ length text.now }
    requires within { at ≤ length text.now }
    ensures { Gives text.now (λ k. k) result
        (datatype_at (drop start text.now) (drop at text.now)) }
{
    let (hat, next) = char_at(text, at)?;
    if hat != '^' {
        return Err(ReadFault::At {
            at,
            kind: TextKind::BadToken,
        });
    }
    let (iri, end) = iri_needed(alloc, text, skip_blanks(text, next))?;
    kind_of(text, start, iri, end)
}

/// ('^^' IRIREF | LANGTAG)?
///
/// What follows the closing quote of a literal.
#[tactic(auto, using(crate::proofs::Blanks::suffixes))]
pub fn suffix(
    alloc: Global,
    text: &[u8],
    start: usize,
    at: usize,
) -> Result<(LiteralKind, usize), ReadFault>
    requires begins { start ≤ length text.now }
    requires within { at ≤ length text.now }
    ensures { Gives text.now (λ k. k) result (suffix_at (drop start text.now) (drop at text.now)) }
{
    if at == text.len() {
        return Ok((LiteralKind::Plain, at));
    }
    if text[at] == b'@' {
        let (language, end) = tag(alloc, text, at, at + 1)?;
        return Ok((LiteralKind::Tagged(language), end));
    }
    let hat = skip_blanks(text, at);
    if hat < text.len() && text[hat] == b'^' {
        return datatype(alloc, text, start, hat + 1);
    }
    Ok((LiteralKind::Plain, at))
}

/// literal ::= STRING_LITERAL_QUOTE ('^^' IRIREF | LANGTAG)?
///
/// The literal whose opening quote stands at `start`, and what follows that at `at`.
#[tactic(auto, unfolding(crate::specs::Terms::literal_at))]
fn literal(
    alloc: Global,
    text: &[u8],
    start: usize,
    at: usize,
) -> Result<(Literal, usize), ReadFault>
    requires begins { start ≤ length text.now }
    requires within { at ≤ length text.now }
    ensures { Gives text.now (λ l. l) result (literal_at (drop start text.now) (drop at text.now)) }
{
    let (lexical, next) = string_body(alloc, text, at)?;
    let (kind, end) = suffix(alloc, text, start, next)?;
    Ok((
        Literal {
            lexical: Text::from_string(lexical),
            kind,
        },
        end,
    ))
}

/// IRIREF | BLANK_NODE_LABEL | literal
///
/// The term at a place, read from left to right.
#[tactic(auto, unfolding(crate::specs::Terms::term_at))]
fn term(alloc: Global, text: &[u8], at: usize) -> Result<(Term, usize), ReadFault>
    requires { at ≤ length text.now }
    ensures { Gives text.now (λ t. t) result (term_at (drop at text.now)) }
{
    let (c, next) = char_at(text, at)?;
    match c {
        '<' => {
            let (iri, end) = iri(alloc, text, at, next)?;
            Ok((Term::Iri(iri), end))
        }
        '_' => {
            let (label, end) = label(alloc, text, at, next)?;
            Ok((Term::Blank(label), end))
        }
        '"' => {
            let (literal, end) = literal(alloc, text, at, next)?;
            Ok((Term::Literal(literal), end))
        }
        _ => Err(ReadFault::At {
            at,
            kind: TextKind::BadToken,
        }),
    }
}

/// The longest term at a place, and the place behind it; else the first fault.
pub fn read_term(alloc: Global, text: &[u8], at: usize) -> Result<(Term, usize), ReadFault>
    requires { at ≤ length text.now }
    ensures ok { IfOk result (λ r. TermAt (drop at text.now) r.0 (drop r.1 text.now)
        × (at < r.1) × (r.1 ≤ length text.now)) }
    ensures only { (t : Term) (after : List ℕ) → TermAt (drop at text.now) t after
        → IsAnswer text.now result t after }
    ensures fault { IfErr result (FailsBy (AnyTermFault (drop at text.now)) text.now) }
    ensures only_fault { (f : TextFault) → AnyTermFault (drop at text.now) f
        → IsFaultAnswer text.now result f }
    ensures gives { Gives text.now (λ t. t) result (term_at (drop at text.now)) }
{
    term(alloc, text, at)
}
