ghost use Rattle.std.specs.Prelude.{◌≡◌, IfOk, IsTrue, MatchResult, Some, None};
ghost use Rattle.rdf_terms.specs.Quad.{statement, may_be_graph, is_quad, bad_place};

use crate::term::Term;
use delta_base::OutOfMemory;
use std::marker::Model;

/// A statement; without a graph it is in the default graph.
#[derive(Debug, PartialEq, Eq, PartialOrd, Ord, Hash, Drop)]
pub struct Quad {
    subject: Term,
    predicate: Term,
    object: Term,
    graph: Option<Term>,
}

impl Model for Quad {
    ghost use Rattle.std.specs.Prelude.{IsTrue};
    ghost use Rattle.rdf_terms.specs.Quad.{Statement, is_quad, statement};

    ghost Value = { Statement };

    ghost view = { λ q. statement q.subject q.predicate q.object q.graph };

    ghost invariant = { λ q. IsTrue (is_quad (statement q.subject q.predicate q.object q.graph)) };

    ghost inverse = { λ v. record {
      subject = v.subject;
      predicate = v.predicate;
      object = v.object;
      graph = v.graph;
    } };
}

/// The first place, from 0, whose term isn't allowed there.
#[derive(Clone, Copy, Debug, PartialEq, Eq)]
pub struct BadPosition {
    pub place: u8,
}

fn is_graph(graph: &Option<Term>) -> bool
    ensures { result ≡ may_be_graph graph.now }
{
    match graph {
        None => true,
        Some(term) => !term.is_literal(),
    }
}

/// The first place, from 0, whose term isn't allowed there. Any term may be the object.
fn first_bad_place(subject: &Term, predicate: &Term, graph: &Option<Term>) -> Option<u8>
    ensures { result ≡ bad_place subject.now predicate.now graph.now }
{
    if subject.is_literal() {
        return Some(0);
    }
    if !predicate.is_iri() {
        return Some(1);
    }
    if !is_graph(graph) {
        return Some(3);
    }
    None
}

/// A copy of a graph's name, where it has one.
pub fn copy_graph(graph: &Option<Term>) -> Result<Option<Term>, OutOfMemory>
    ensures { IfOk result (λ g. g ≡ graph.now) }
{
    Ok(match graph {
        None => None,
        Some(term) => Some(term.copy()?),
    })
}

impl Quad {
    /// The statement of terms that are known to be allowed in their places.
    pub fn of_checked(subject: Term, predicate: Term, object: Term, graph: Option<Term>) -> Quad
        requires { IsTrue (is_quad (statement subject predicate object graph)) }
        ensures { result ≡ statement subject predicate object graph }
    {
        Quad {
            subject,
            predicate,
            object,
            graph,
        }
    }

    pub fn new(
        subject: Term,
        predicate: Term,
        object: Term,
        graph: Option<Term>,
    ) -> Result<Quad, BadPosition>
        ensures { let place = bad_place subject predicate graph in MatchResult result
            (λ q. (q ≡ statement subject predicate object graph) × (place ≡ None))
            (λ e. place ≡ Some e.place) }
    {
        if let Some(place) = first_bad_place(&subject, &predicate, &graph) {
            drop(subject);
            drop(predicate);
            drop(object);
            drop(graph);
            return Err(BadPosition { place });
        }
        Ok(Quad {
            subject,
            predicate,
            object,
            graph,
        })
    }

    pub fn subject(&self) -> &Term
        ensures value { result.now ≡ self.now.subject }
        ensures is_quad { IsTrue (is_quad self.now) }
    {
        &self.subject
    }

    pub fn predicate(&self) -> &Term
        ensures value { result.now ≡ self.now.predicate }
        ensures is_quad { IsTrue (is_quad self.now) }
    {
        &self.predicate
    }

    pub fn object(&self) -> &Term
        ensures value { result.now ≡ self.now.object }
        ensures is_quad { IsTrue (is_quad self.now) }
    {
        &self.object
    }

    pub fn graph(&self) -> &Option<Term>
        ensures value { result.now ≡ self.now.graph }
        ensures is_quad { IsTrue (is_quad self.now) }
    {
        &self.graph
    }

    /// An equal value.
    pub fn copy(&self) -> Result<Quad, OutOfMemory>
        ensures { IfOk result (λ q. q ≡ self.now) }
    {
        Ok(Quad {
            subject: self.subject.copy()?,
            predicate: self.predicate.copy()?,
            object: self.object.copy()?,
            graph: copy_graph(&self.graph)?,
        })
    }
}
