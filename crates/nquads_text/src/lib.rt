//! N-Quads text: terms are read and printed.
//!
//! `read_term` answers the term that the grammar has at a place of a text (`specs/Grammar.antt`),
//! and else the text's first fault (`specs/Faults.antt`). `print_term` writes a term's canonical
//! text, which is read as that term again. The functions of `laws` do nothing: their contracts tie
//! the reading to the grammar and the faults, token by token.
#![tactic(auto)]

mod bodies;
mod chars;
mod comments;
mod copying;
mod fault;
mod labels;
mod laws;
mod pieces;
mod plain_runs;
mod printing;
mod statement;
mod tags;
mod terms;

pub use bodies::iri_body;
pub use chars::{char_at, is_line_end};
pub use comments::comment_body_end;
pub use copying::copy_term;
pub use fault::{ReadFault, TextKind};
pub use labels::label;
pub use laws::{
    blanks_are_skipped, characters_are_read, iris_are_read, labels_are_read, printed_is_read,
    strings_are_read, tags_are_read, terms_are_read, terms_are_settled,
};
pub use pieces::{iri_piece, string_piece};
pub use plain_runs::{plain_iri_end, plain_string_end};
pub use printing::{print_term, push_graph, push_iri, push_quoted, push_term};
pub use statement::read_statement;
pub use tags::is_tag_byte;
pub use terms::{read_term, skip_blanks};
