//! Terms and quads, made of their parts.
use case_scripts::{Answer, Words};
use delta_base::Text;
use rdf_terms::{BadPosition, Iri, Label, Literal, LiteralKind, Quad, Term, TermFault};
use std::alloc::Global;
use std::fmt::Write;

fn text(alloc: Global, bytes: &[u8]) -> Result<Text, TermFault> {
    Ok(Text::from_str(alloc, str::from_utf8(bytes).unwrap_or(""))?)
}

// Writes why no term was made.
fn tell_fault(fault: TermFault, answer: &mut Answer) {
    let _ = write!(answer, "{fault}");
}

fn made_iri(alloc: Global, bytes: &[u8]) -> Result<Iri, TermFault> {
    Iri::new(text(alloc, bytes)?)
}

fn made_label(alloc: Global, bytes: &[u8]) -> Result<Label, TermFault> {
    Label::new(text(alloc, bytes)?)
}

fn tagged(alloc: Global, tag: &[u8]) -> Result<Literal, TermFault> {
    let tag = text(alloc, tag)?;
    Literal::tagged(alloc, text(alloc, b"x")?, &tag)
}

fn typed(alloc: Global, datatype: &[u8]) -> Result<Literal, TermFault> {
    let datatype = made_iri(alloc, datatype)?;
    Literal::typed(text(alloc, b"x")?, datatype)
}

/// `iri TEXT`: the IRI, or its first fault.
pub(crate) fn iri(alloc: Global, bytes: &[u8], answer: &mut Answer) {
    match made_iri(alloc, bytes) {
        Ok(iri) => answer.push(iri.as_bytes()),
        Err(fault) => tell_fault(fault, answer),
    }
}

/// `label TEXT`: the label of a blank node, or its first fault.
pub(crate) fn label(alloc: Global, bytes: &[u8], answer: &mut Answer) {
    match made_label(alloc, bytes) {
        Ok(label) => answer.push(label.as_bytes()),
        Err(fault) => tell_fault(fault, answer),
    }
}

// Writes the kind of a literal.
fn tell_kind(made: Result<Literal, TermFault>, answer: &mut Answer) {
    match made {
        Ok(literal) => {
            match &literal.kind {
                LiteralKind::Plain => answer.push(b"plain"),
                LiteralKind::Tagged(tag) => answer.push(tag.as_bytes()),
                LiteralKind::Typed(datatype) => answer.push(datatype.as_bytes()),
            }
            drop(literal);
        }
        Err(fault) => tell_fault(fault, answer),
    }
}

/// `tag TEXT`: the tag that a literal keeps, or its first fault.
pub(crate) fn tag(alloc: Global, bytes: &[u8], answer: &mut Answer) {
    tell_kind(tagged(alloc, bytes), answer);
}

/// `datatype TEXT`: the datatype that a literal keeps, or its first fault.
pub(crate) fn datatype(alloc: Global, bytes: &[u8], answer: &mut Answer) {
    tell_kind(typed(alloc, bytes), answer);
}

// A term of the kind that a word names.
fn term(alloc: Global, kind: &[u8]) -> Result<Term, TermFault> {
    match kind {
        b"iri" => Ok(Term::Iri(made_iri(alloc, b"a:b")?)),
        b"blank" => Ok(Term::Blank(made_label(alloc, b"b")?)),
        _ => Ok(Term::Literal(Literal::plain(text(alloc, b"l")?))),
    }
}

fn two_terms(alloc: Global, first: &[u8], second: &[u8]) -> Result<(Term, Term), TermFault> {
    let first = term(alloc, first)?;
    match term(alloc, second) {
        Ok(second) => Ok((first, second)),
        Err(fault) => {
            drop(first);
            Err(fault)
        }
    }
}

// The quad of terms of the kinds that the words name.
fn made_quad(alloc: Global, words: &Words) -> Result<Result<Quad, BadPosition>, TermFault> {
    let (subject, predicate) = two_terms(alloc, words.bytes(1), words.bytes(2))?;
    match two_terms(alloc, words.bytes(3), words.bytes(4)) {
        Ok((object, graph)) => Ok(Quad::new(subject, predicate, object, Some(graph))),
        Err(fault) => {
            drop(subject);
            drop(predicate);
            Err(fault)
        }
    }
}

/// `quad KIND KIND KIND KIND`: `made`, or the first place whose term isn't allowed there.
pub(crate) fn quad(alloc: Global, words: &Words, answer: &mut Answer) {
    match made_quad(alloc, words) {
        Ok(Ok(quad)) => {
            drop(quad);
            answer.push(b"made");
        }
        Ok(Err(bad)) => {
            let _ = write!(answer, "bad place {}", bad.place);
        }
        Err(fault) => tell_fault(fault, answer),
    }
}
