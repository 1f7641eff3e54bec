//! Which quads are asked for, and which keys these are.
ghost use Rattle.std.specs.Prelude.{◌≡◌, ◌⊎◌, ℕ, IsSome};
ghost use Rattle.std.specs.List.{IsDistinct};
ghost use Rattle.quad_index.specs.declared.key.QuadKey.{QuadKey as QuadKeyValue};
ghost use Rattle.quad_keys.specs.Keys.{term_of_number, quad_of_key, IsNumbered};
ghost use Rattle.term_table.specs.Table.{same, term_numbered};
ghost use Rattle.dataset_tx.specs.Pattern.{fits, fits_graph, fits_number, fits_key, matches};

use quad_index::KeyPattern;
use rdf_terms::Term;
use term_table::TermTable;

/// The graph of a pattern.
#[derive(Drop)]
pub enum GraphPart {
    Any,
    Default,
    Named(Term),
}

/// The parts that a quad must have. None is free.
#[derive(Drop)]
pub struct Pattern {
    pub graph: GraphPart,
    pub subject: Option<Term>,
    pub predicate: Option<Term>,
    pub object: Option<Term>,
}

// The number of a part that is bound, if its term has one.
fn part_number(terms: &TermTable, part: &Option<Term>) -> Option<Option<u32>>
    requires { IsDistinct same terms.now }
    ensures { (n : ℕ) → IsSome (term_numbered terms.now n)
        → fits part.now (term_of_number terms.now n)
        ≡ fits_number result n }
{
    match part {
        None => Some(None),
        Some(wanted) => Some(Some(terms.find(wanted)?)),
    }
}

// The number of a graph that is bound, if its name has one.
fn graph_number(terms: &TermTable, graph: &GraphPart) -> Option<Option<u32>>
    requires { IsDistinct same terms.now }
    ensures { (n : ℕ) → (n ≡ 0) ⊎ IsSome (term_numbered terms.now n)
        → fits_graph graph.now (term_numbered terms.now n) ≡ fits_number result n }
{
    match graph {
        GraphPart::Any => Some(None),
        GraphPart::Default => Some(Some(0)),
        GraphPart::Named(wanted) => Some(Some(terms.find(wanted)?)),
    }
}

/// The keys of the quads that match, where each term of a pattern has a number.
pub fn key_pattern(terms: &TermTable, pattern: &Pattern) -> Option<KeyPattern>
    requires { IsDistinct same terms.now }
    ensures { (key : QuadKeyValue) → IsNumbered terms.now key
        → matches pattern.now (quad_of_key terms.now key) ≡ fits_key result key }
{
    let g = graph_number(terms, &pattern.graph)?;
    let s = part_number(terms, &pattern.subject)?;
    let p = part_number(terms, &pattern.predicate)?;
    let o = part_number(terms, &pattern.object)?;
    Some(KeyPattern { g, s, p, o })
}
