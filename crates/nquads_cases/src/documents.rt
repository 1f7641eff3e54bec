//! Documents, read and printed, and lines that a scan finds.
use crate::terms::place_in;
use canonical_scan::{iri_end, line_end, node_end, term_end};
use case_scripts::{Answer, Words};
use nquads_documents::{DocFault, canonical_lines, print_document, print_line, read_document};
use std::alloc::Global;
use std::fmt::Write;

// The document in canonical form, by its quads.
fn printed(alloc: Global, text: &[u8]) -> Result<Vec<u8>, DocFault> {
    let quads = read_document(alloc, text)?;
    let printed = print_document(alloc, &quads);
    drop(quads);
    match printed.map(|printed| printed.as_bytes().to_vec(alloc)) {
        Ok(Ok(printed)) => Ok(printed),
        _ => Err(DocFault::OutOfMemory),
    }
}

// The same with no quad kept.
fn copied(alloc: Global, text: &[u8]) -> Result<Vec<u8>, DocFault> {
    let mut printed = Vec::new(alloc);
    let lines = canonical_lines(alloc, text, &mut printed)?;
    lines
        .as_slice()
        .concat(alloc)
        .map_err(|_| DocFault::OutOfMemory)
}

/// `document TEXT`: the document in canonical form, or its first fault.
pub(crate) fn document(alloc: Global, text: &[u8], answer: &mut Answer) {
    let printed = printed(alloc, text);
    if printed != copied(alloc, text) {
        answer.push(b"lines that differ from ");
    }
    match printed {
        Ok(printed) => answer.push(printed.as_slice()),
        Err(fault) => tell_fault(fault, answer),
    }
}

fn tell_fault(fault: DocFault, answer: &mut Answer) {
    let _ = match fault {
        DocFault::At { line, at, kind } => write!(answer, "line {line} byte {at}: {}", kind.name()),
        DocFault::OutOfMemory => write!(answer, "out of memory"),
    };
}

/// `line TEXT`: the line of the first quad of a document.
pub(crate) fn line(alloc: Global, text: &[u8], answer: &mut Answer) {
    let Ok(quads) = read_document(alloc, text) else {
        return answer.push(b"no document");
    };
    if let Some(quad) = quads.get(0)
        && let Ok(line) = print_line(alloc, quad)
    {
        answer.push(line.as_bytes());
    }
    drop(quads);
}

/// `scan WHAT TEXT PLACE`: where a canonical line, term, node or IRI that stands at a place ends.
pub(crate) fn scan(words: &Words, answer: &mut Answer) {
    let text = words.bytes(2);
    let at = place_in(text, words.number(3));
    let end = match words.bytes(1) {
        b"line" => line_end(text, at),
        b"term" => term_end(text, at),
        b"node" => node_end(text, at),
        b"iri" => iri_end(text, at),
        _ => return answer.push(b"no such scan"),
    };
    let _ = match end {
        Some(end) => write!(answer, "to {end}"),
        None => write!(answer, "none"),
    };
}
