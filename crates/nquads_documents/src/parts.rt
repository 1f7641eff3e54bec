//! Documents.

ghost use Rattle.std.specs.Prelude.{◌≡◌, ◌≤◌, ◌<◌, length, drop, take, count_by, ◌+◌, ◌==◌, IfOk};
ghost use Rattle.nquads_text.specs.Fault.{Gives};
ghost use Rattle.nquads_documents.specs.Reading.{document_part_at, comment_part, statement_part};
ghost use Rattle.nquads_documents.specs.Reading.{document_at, line_of, ReadsAtLine, ReadsAll};
ghost use Rattle.nquads_documents.specs.Answered.{ReadsDocument};

use crate::fault::DocFault;
use crate::lines::{comment_end, is_end, line_end};
use delta_base::Listing;
use nquads_text::{ReadFault, read_statement, skip_blanks};
use rdf_terms::{Quad, Quads};
use std::alloc::Global;

/// The next part of a document: the end of a line, a comment, or a statement with what follows it
/// on its line.
#[tactic(auto, using(crate::proofs::Steps::part_steps))]
fn part(alloc: Global, text: &[u8], from: usize) -> Result<(Option<Quad>, usize), ReadFault>
    requires { from < length text.now }
    ensures { Gives text.now (λ q. q) result (document_part_at (drop from text.now)) }
{
    let at = skip_blanks(text, from);
    if at == text.len() {
        return Ok((None, at));
    }
    if is_end(text[at]) {
        return Ok((None, at + 1));
    }
    if text[at] == b'#' {
        return comment(text, at + 1);
    }
    statement(alloc, text, at)
}

#[tactic(auto, unfolding(crate::specs::Reading::comment_part))]
fn comment(text: &[u8], at: usize) -> Result<(Option<Quad>, usize), ReadFault>
    requires { at ≤ length text.now }
    ensures { Gives text.now (λ q. q) result (comment_part (drop at text.now)) }
{
    let (_, end) = comment_end(text, at)?;
    Ok((None, end))
}

/// A statement with what follows it on its line.
#[tactic(auto, unfolding(crate::specs::Reading::statement_part))]
fn statement(alloc: Global, text: &[u8], at: usize) -> Result<(Option<Quad>, usize), ReadFault>
    requires { at ≤ length text.now }
    ensures { Gives text.now (λ q. q) result (statement_part (drop at text.now)) }
{
    let (quad, behind) = read_statement(alloc, text, at)?;
    let (_, end) = line_end(text, behind)?;
    Ok((Some(quad), end))
}

/// The quads of a document in the text's order.
fn read_quads(alloc: Global, text: &[u8]) -> Result<Quads, ReadFault>
    ensures { ReadsAll text.now result }
{
    let mut quads = Listing::new(alloc);
    let mut at = 0;
    while at < text.len() {
        let (quad, next) = part(alloc, text, at)?;
        if let Some(quad) = quad {
            quads.push(quad)?;
        }
        at = next;
    }
    Ok(quads)
}

/// 1 and the number of line feeds before a place.
pub fn line_at(text: &[u8], at: usize) -> usize
    requires { at ≤ length text.now }
    ensures { result ≡ line_of text.now at }
{
    1 + text.split_at(at).0.iter().filter(|b| **b == b'\n').count()
}

// The quads of a document in the text's order, or its first fault, with its line.
fn read_lines(alloc: Global, text: &[u8]) -> Result<Quads, DocFault>
    ensures { ReadsAtLine text.now result }
{
    match read_quads(alloc, text) {
        Ok(quads) => Ok(quads),
        Err(ReadFault::OutOfMemory) => Err(DocFault::OutOfMemory),
        Err(ReadFault::At { at, kind }) => Err(DocFault::At {
            line: line_at(text, at),
            at,
            kind,
        }),
    }
}

/// The quads of a document in the text's order, or its first fault.
pub fn read_document(alloc: Global, text: &[u8]) -> Result<Quads, DocFault>
    ensures answers { ReadsDocument text.now result }
    ensures reads { ReadsAtLine text.now result }
{
    read_lines(alloc, text)
}
