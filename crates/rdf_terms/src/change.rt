//! Changes of a dataset.
ghost use Rattle.std.specs.Prelude.{◌≡◌, IfOk};

use crate::iri::Iri;
use crate::quad::{Quad, copy_graph};
use crate::term::Term;
use delta_base::{Listing, OutOfMemory, Text};

/// What a row of a patch does.
#[derive(Debug, PartialEq, Eq, PartialOrd, Ord, Hash, Drop)]
pub enum Change {
    Add(Quad),
    Delete(Quad),
    /// Sets a prefix in a graph, or in the default graph.
    PrefixAdd {
        prefix: Text,
        iri: Iri,
        graph: Option<Term>,
    },
    /// Removes a prefix.
    PrefixDelete {
        prefix: Text,
        graph: Option<Term>,
    },
    /// Begins a block.
    Begin,
    /// Ends a block, whose changes stand.
    Commit,
    /// Ends a block, whose changes are dropped.
    Abort,
}

impl Change {
    /// An equal change.
    pub fn copy(&self) -> Result<Change, OutOfMemory>
        ensures { IfOk result (λ c. c ≡ self.now) }
    {
        Ok(match self {
            Change::Add(quad) => Change::Add(quad.copy()?),
            Change::Delete(quad) => Change::Delete(quad.copy()?),
            Change::PrefixAdd { prefix, iri, graph } => Change::PrefixAdd {
                prefix: prefix.copy()?,
                iri: iri.copy()?,
                graph: copy_graph(graph)?,
            },
            Change::PrefixDelete { prefix, graph } => Change::PrefixDelete {
                prefix: prefix.copy()?,
                graph: copy_graph(graph)?,
            },
            Change::Begin => Change::Begin,
            Change::Commit => Change::Commit,
            Change::Abort => Change::Abort,
        })
    }
}

pub type Quads = Listing<Quad>;

pub type Changes = Listing<Change>;
