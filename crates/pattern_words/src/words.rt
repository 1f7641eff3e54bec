//! The words that stand for the parts of a pattern.
ghost use Rattle.std.specs.Prelude.{◌≡◌, IfOk};
ghost use Rattle.pattern_words.specs.Words.{fits_position, IsTermWord, IsPartWord};
ghost use Rattle.pattern_words.specs.Words.{IsGraphWord, IsPatternOf, Finds};

use dataset_tx::{GraphPart, Pattern};
use delta_base::OutOfMemory;
use nquads_text::{ReadFault, read_term};
use rdf_terms::Term;
use std::alloc::Global;

/// Where a term stands in a quad.
#[derive(Clone, Copy, Debug, PartialEq, Eq)]
pub enum Position {
    Graph,
    Subject,
    Predicate,
    Object,
}

impl Position {
    /// Whether a term may stand there.
    pub fn allows(self, term: &Term) -> bool
        ensures { result ≡ fits_position self term.now }
    {
        match self {
            Position::Graph | Position::Subject => !term.is_literal(),
            Position::Predicate => term.is_iri(),
            Position::Object => true,
        }
    }
}

/// The term that a word is, if it is one that may stand there.
pub fn term_of(alloc: Global, position: Position, word: &str) -> Result<Option<Term>, OutOfMemory>
    ensures { IfOk result (Finds (IsTermWord position word.now)) }
{
    let text = word.as_bytes();
    match read_term(alloc, text, 0) {
        Ok((term, end)) => {
            if end < text.len() || !position.allows(&term) {
                drop(term);
                return Ok(None);
            }
            Ok(Some(term))
        }
        Err(ReadFault::At { .. }) => Ok(None),
        Err(ReadFault::OutOfMemory) => Err(OutOfMemory),
    }
}

/// The part that a word stands for: `*` is free.
pub fn part_of(
    alloc: Global,
    position: Position,
    word: &str,
) -> Result<Option<Option<Term>>, OutOfMemory>
    ensures { IfOk result (Finds (IsPartWord position word.now)) }
{
    if word == "*" {
        return Ok(Some(None));
    }
    match term_of(alloc, position, word) {
        Ok(Some(term)) => Ok(Some(Some(term))),
        Ok(None) => Ok(None),
        Err(OutOfMemory) => Err(OutOfMemory),
    }
}

/// The graph that a word stands for: `*` is any, and `default` the default graph.
pub fn graph_of(alloc: Global, word: &str) -> Result<Option<GraphPart>, OutOfMemory>
    ensures { IfOk result (Finds (IsGraphWord word.now)) }
{
    if word == "*" {
        return Ok(Some(GraphPart::Any));
    }
    if word == "default" {
        return Ok(Some(GraphPart::Default));
    }
    match term_of(alloc, Position::Graph, word) {
        Ok(Some(name)) => Ok(Some(GraphPart::Named(name))),
        Ok(None) => Ok(None),
        Err(OutOfMemory) => Err(OutOfMemory),
    }
}

// The parts of a predicate and an object that two words stand for.
fn last_parts(
    alloc: Global,
    predicate: &str,
    object: &str,
) -> Result<Option<(Option<Term>, Option<Term>)>, OutOfMemory>
    ensures { IfOk result (Finds (λ parts. IsPartWord Position.Predicate predicate.now parts.0
        × IsPartWord Position.Object object.now parts.1)) }
{
    let Some(predicate) = part_of(alloc, Position::Predicate, predicate)? else {
        return Ok(None);
    };
    match part_of(alloc, Position::Object, object) {
        Ok(Some(object)) => Ok(Some((predicate, object))),
        Ok(None) => {
            drop(predicate);
            Ok(None)
        }
        Err(OutOfMemory) => {
            drop(predicate);
            Err(OutOfMemory)
        }
    }
}

// The parts of a graph and a subject that two words stand for.
fn first_parts(
    alloc: Global,
    graph: &str,
    subject: &str,
) -> Result<Option<(GraphPart, Option<Term>)>, OutOfMemory>
    ensures { IfOk result (Finds (λ parts. IsGraphWord graph.now parts.0
        × IsPartWord Position.Subject subject.now parts.1)) }
{
    let Some(graph) = graph_of(alloc, graph)? else {
        return Ok(None);
    };
    match part_of(alloc, Position::Subject, subject) {
        Ok(Some(subject)) => Ok(Some((graph, subject))),
        Ok(None) => {
            drop(graph);
            Ok(None)
        }
        Err(OutOfMemory) => {
            drop(graph);
            Err(OutOfMemory)
        }
    }
}

/// The pattern that four words stand for.
pub fn read_pattern(
    alloc: Global,
    graph: &str,
    subject: &str,
    predicate: &str,
    object: &str,
) -> Result<Option<Pattern>, OutOfMemory>
    ensures { IfOk result (Finds (IsPatternOf graph.now subject.now predicate.now object.now)) }
{
    let Some(first) = first_parts(alloc, graph, subject)? else {
        return Ok(None);
    };
    match last_parts(alloc, predicate, object) {
        Ok(Some((predicate, object))) => {
            let (graph, subject) = first;
            Ok(Some(Pattern {
                graph,
                subject,
                predicate,
                object,
            }))
        }
        Ok(None) => {
            drop(first);
            Ok(None)
        }
        Err(OutOfMemory) => {
            drop(first);
            Err(OutOfMemory)
        }
    }
}
