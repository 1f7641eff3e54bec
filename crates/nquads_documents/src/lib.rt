//! N-Quads documents (RDF 1.1 N-Quads): read, printed in canonical form, and told apart from
//! what is none.
#![tactic(auto)]

mod canonical;
mod fault;
mod laws;
mod lines;
mod parts;
mod printing;
mod pushing;
mod values;

pub use canonical::canonical_lines;
pub use fault::DocFault;
pub use laws::{document_faults_are_met, documents_are_read, lines_are_read};
pub use parts::read_document;
pub use printing::{print_document, print_line, push_line};
pub use pushing::{push_next_term, push_node, push_predicate};
pub use values::{graph_is_value, quad_is_value};
