//! RDF terms, quads, changes, and what changes do to a dataset (RDF 1.1 Concepts, RDF 1.1 N-Quads).
//!
//! Every value keeps its rule: an `Iri` is an IRI, a `Label` a label, a `Tag` a tag in lower case,
//! a `Quad` has terms that are allowed in their places. Contracts see them as their bytes, and a
//! quad as a record.
#![tactic(auto)]

mod change;
mod datatype;
mod fault;
mod iri;
mod label;
mod names;
mod quad;
mod tag;
mod term;

pub use change::{Change, Changes, Quads};
pub use datatype::Datatype;
pub use fault::TermFault;
pub use iri::{Iri, has_scheme, is_forbidden};
pub use label::Label;
pub use names::{begins_name, is_name_base, is_name_char, is_name_start};
pub use quad::{BadPosition, Quad, copy_graph};
pub use tag::Tag;
pub use term::{Literal, LiteralKind, Term};
