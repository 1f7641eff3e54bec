//! What the types of a statement's parts know of them.
ghost use Rattle.nquads_text.specs.Printing.{IsKind, IsTermValue, IsGraphValue};
ghost use Rattle.nquads_documents.specs.Laws.{IsQuadValue};

use rdf_terms::{LiteralKind, Quad, Term};

fn kind_is_value(kind: &LiteralKind)
    ensures { IsKind kind.now }
{
    match kind {
        LiteralKind::Plain => {}
        LiteralKind::Typed(datatype) => {
            datatype.as_bytes();
        }
        LiteralKind::Tagged(tag) => {
            tag.as_bytes();
        }
    }
}

fn term_is_value(term: &Term)
    ensures { IsTermValue term.now }
{
    match term {
        Term::Iri(iri) => {
            iri.as_bytes();
        }
        Term::Blank(label) => {
            label.as_bytes();
        }
        Term::Literal(literal) => {
            literal.lexical.as_bytes();
            kind_is_value(&literal.kind);
        }
    }
}

/// A graph, if there is one, is a term that can be printed. It only says so.
pub fn graph_is_value(graph: &Option<Term>)
    ensures { IsGraphValue graph.now }
{
    if let Some(name) = graph {
        term_is_value(name);
    }
}

/// Each part of a statement is a term that can be printed, and stands where it may. It
/// only says so.
pub fn quad_is_value(quad: &Quad)
    ensures { IsQuadValue quad.now }
{
    term_is_value(quad.subject());
    term_is_value(quad.predicate());
    term_is_value(quad.object());
    graph_is_value(quad.graph());
}
