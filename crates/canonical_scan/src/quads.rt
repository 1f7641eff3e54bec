//! The quads of lines that were found.

ghost use Rattle.std.specs.Prelude.{◌≡◌, ◌+◌, ◌≤◌, ◌==◌, false, not, length, Some};
ghost use Rattle.std.specs.Prelude.{slice_range, IfOk, IfSome, IsTrue, IsUtf8};
ghost use Rattle.std.specs.List.{list_all};
ghost use Rattle.rdf_terms.specs.declared.term.Term.TheVariants as terms;
ghost use Rattle.canonical_scan.specs.Found.{IsLineThere};
ghost use Rattle.canonical_scan.specs.Parts.{HasGraph, HasIriText, HasKind, HasLabelText};
ghost use Rattle.canonical_scan.specs.Parts.{HasNoEscape, HasNodeText, HasObject, HasString};
ghost use Rattle.canonical_scan.specs.Parts.{IsGraphText, IsKindText, IsNodeText, IsTermText};
ghost use Rattle.canonical_scan.specs.Places.{ArePlaces};

use crate::line::LinePlaces;
use delta_base::{OutOfMemory, Text};
use rdf_terms::{Datatype, Iri, Label, Literal, LiteralKind, Quad, Tag, Term};
use std::alloc::Global;

// The text between two places.
#[inline(always)]
fn text_between(alloc: Global, text: &[u8], at: usize, end: usize) -> Result<Text, OutOfMemory>
    requires order { at ≤ end }
    requires within { end ≤ length text.now }
    requires utf8 { IsUtf8 (slice_range text.now at end) }
    ensures { IfOk result (λ t. t ≡ slice_range text.now at end) }
{
    Text::from_str(alloc, unsafe { str::from_utf8_unchecked(&text[at..end]) })
}

// The IRI whose text stands between two places.
fn iri_between(alloc: Global, text: &[u8], at: usize, end: usize) -> Result<Iri, OutOfMemory>
    requires { HasIriText text.now at end }
    ensures { IfOk result (λ iri. IsTermText text.now at end (terms.Iri iri)) }
{
    Ok(Iri::of_checked(text_between(alloc, text, at + 1, end - 1)?))
}

// The label of the blank node whose text stands between two places.
fn label_between(alloc: Global, text: &[u8], at: usize, end: usize) -> Result<Label, OutOfMemory>
    requires { HasLabelText text.now at end }
    ensures { IfOk result (λ label. IsTermText text.now at end (terms.Blank label)) }
{
    Ok(Label::of_checked(text_between(alloc, text, at + 2, end)?))
}

// The IRI or blank node whose text stands between two places.
fn node_between(alloc: Global, text: &[u8], at: usize, end: usize) -> Result<Term, OutOfMemory>
    requires { HasNodeText text.now at end }
    ensures { IfOk result (IsNodeText text.now at end) }
{
    if text[at] == b'<' {
        return Ok(Term::Iri(iri_between(alloc, text, at, end)?));
    }
    Ok(Term::Blank(label_between(alloc, text, at, end)?))
}

// The kind of a literal that stands between two places.
fn kind_between(
    alloc: Global,
    text: &[u8],
    at: usize,
    end: usize,
) -> Result<LiteralKind, OutOfMemory>
    requires { HasKind text.now at end }
    ensures { IfOk result (IsKindText text.now at end) }
{
    if at == end {
        return Ok(LiteralKind::Plain);
    }
    if text[at] == b'^' {
        let iri = Iri::of_checked(text_between(alloc, text, at + 3, end - 1)?);
        return Ok(LiteralKind::Typed(Datatype::of_checked(iri)));
    }
    let tag = text_between(alloc, text, at + 1, end)?;
    Ok(LiteralKind::Tagged(Tag::of_checked(tag)))
}

// Whether a backslash stands between two places.
fn has_backslash(text: &[u8], at: usize, end: usize) -> bool
    requires order { at ≤ end }
    requires within { end ≤ length text.now }
    ensures { result ≡ false
        → IsTrue (list_all (λ b. not (b == 92)) (slice_range text.now at end)) }
{
    text[at..end].contains(&b'\\')
}

// Whether an escape stands in the string of an object, if the object is a literal.
#[inline]
fn object_has_escape(text: &[u8], at: usize, string: Option<usize>, end: usize) -> bool
    requires { HasObject text.now at string end }
    ensures { result ≡ false → HasNoEscape text.now at string }
{
    match string {
        Some(string) => has_backslash(text, at + 1, string - 1),
        None => false,
    }
}

// The literal whose text stands between two places, without an escape.
fn literal_between(
    alloc: Global,
    text: &[u8],
    at: usize,
    string: usize,
    end: usize,
) -> Result<Literal, OutOfMemory>
    requires string { HasString text.now at string }
    requires kind { HasKind text.now string end }
    requires plain { HasNoEscape text.now at (Some string) }
    ensures { IfOk result (λ l. IsTermText text.now at end (terms.Literal l)) }
{
    let lexical = text_between(alloc, text, at + 1, string - 1)?;
    let kind = kind_between(alloc, text, string, end)?;
    Ok(Literal { lexical, kind })
}

// The object whose text stands between two places, without an escape.
fn object_between(
    alloc: Global,
    text: &[u8],
    at: usize,
    string: Option<usize>,
    end: usize,
) -> Result<Term, OutOfMemory>
    requires object { HasObject text.now at string end }
    requires plain { HasNoEscape text.now at string }
    ensures { IfOk result (IsTermText text.now at end) }
{
    match string {
        Some(string) => {
            let literal = literal_between(alloc, text, at, string, end)?;
            Ok(Term::Literal(literal))
        }
        None => node_between(alloc, text, at, end),
    }
}

// The graph whose text stands between two places behind a space, if it stands there.
fn graph_between(
    alloc: Global,
    text: &[u8],
    at: usize,
    end: usize,
) -> Result<Option<Term>, OutOfMemory>
    requires { HasGraph text.now at end }
    ensures { IfOk result (IsGraphText text.now at end) }
{
    if at == end {
        return Ok(None);
    }
    Ok(Some(node_between(alloc, text, at + 1, end)?))
}

// The quad of a line without an escape.
fn quad_between(
    alloc: Global,
    text: &[u8],
    at: usize,
    places: LinePlaces,
) -> Result<Quad, OutOfMemory>
    requires places { ArePlaces text.now at places }
    requires plain { HasNoEscape text.now (places.predicate + 1) places.string }
    ensures { IfOk result (IsLineThere text.now at places.end) }
{
    let subject = node_between(alloc, text, at, places.subject)?;
    let predicate = iri_between(alloc, text, places.subject + 1, places.predicate)?;
    let object = object_between(
        alloc,
        text,
        places.predicate + 1,
        places.string,
        places.object,
    )?;
    let graph = graph_between(alloc, text, places.object, places.graph)?;
    Ok(Quad::of_checked(subject, Term::Iri(predicate), object, graph))
}

/// The quad of a line that was found at a place; none where a string in it has an escape.
#[inline]
pub fn made_quad(
    alloc: Global,
    text: &[u8],
    at: usize,
    places: LinePlaces,
) -> Result<Option<Quad>, OutOfMemory>
    requires { ArePlaces text.now at places }
    ensures { IfOk result (λ made. IfSome made (IsLineThere text.now at places.end)) }
{
    if object_has_escape(text, places.predicate + 1, places.string, places.object) {
        return Ok(None);
    }
    Ok(Some(quad_between(alloc, text, at, places)?))
}
